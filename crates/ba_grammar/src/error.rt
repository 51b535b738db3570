//! Words that the grammar doesn't have.

/// Words that the grammar doesn't have.
#[derive(Clone, Copy, Debug, Drop, PartialEq, Eq)]
pub struct Syntax;
