//! Pairs of databases, and what is asked of them.

use ba_model::{Row, RowSet};

/// Two databases and a row that a question has in the first and not in the second.
#[derive(Debug, Drop)]
pub struct Counterexample {
    pub one: RowSet,
    pub two: RowSet,
    pub row: Row,
}

/// What a counterexample to strong compliance must meet, in the order in which it is tested.
#[derive(Clone, Copy, Debug, PartialEq, Eq)]
pub enum Clause {
    /// All numbers are within 64 bits.
    Value,
    /// The first database conforms to the schema.
    ConformOne,
    /// The second database conforms to the schema.
    ConformTwo,
    /// Each view's rows in the first are among its rows in the second.
    Within,
    /// Each recorded row is in its query's answer in the first.
    Shown,
    /// The row is in the question's answer in the first.
    Asked,
    /// The row isn't in the question's answer in the second.
    Absent,
}
