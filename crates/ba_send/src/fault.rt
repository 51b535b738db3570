//! Why a query isn't sent.

/// Why a query isn't sent under a context.
#[derive(Clone, Copy, Debug, PartialEq, Eq)]
pub enum Unsendable {
    /// It says IS NULL of a column that has no NULL, which no row meets, and the database finds rows
    /// by it: MySQL takes a date of zeros for NULL there.
    NullTest,
    /// A text in it has the byte 0, which databases don't take.
    ZeroByte,
    /// Its text has too many bytes.
    TooLong,
}
