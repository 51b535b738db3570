//! The numbers under which table sets are printed.

/// A number under which a table set is printed.
#[derive(Clone, Copy, Debug, PartialEq, Eq)]
pub struct Numbered {
    pub version: u64,
    /// The set's place among the sets: 0 is that of the words.
    pub place: usize,
}
