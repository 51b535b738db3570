//! Queries: unions of joins with conditions.

use crate::list::List;
use crate::value::Value;

/// `=`, `<>`, `<`, `<=`, IS NULL and IS NOT NULL. The right side of the last two repeats the left.
#[derive(Clone, Copy, Debug, PartialEq, Eq)]
pub enum Op {
    Eq,
    Ne,
    Lt,
    Le,
    IsNull,
    NotNull,
}

/// What stands on a side of an atom or in a head.
#[derive(Debug, Drop)]
pub enum Operand {
    /// A place in the part's tables and a column of the table there.
    Col(u32, u32),
    Val(Value),
    /// A parameter of the policy.
    Param(u32),
    /// A variable of a template.
    Var(u32),
}

#[derive(Debug, Drop)]
pub struct Atom {
    pub op: Op,
    pub left: Operand,
    pub right: Operand,
}

/// One SELECT whose condition is a conjunction: `from` numbers tables of the schema, and a table may stand there twice.
#[derive(Debug, Drop)]
pub struct Part {
    pub from: List<u32>,
    pub conds: List<Atom>,
    pub head: List<Operand>,
}

/// A union of parts. Its rows are a set.
#[derive(Debug, Drop)]
pub struct Query {
    pub parts: List<Part>,
}
