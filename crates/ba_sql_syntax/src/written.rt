//! A query as it is written, before its names mean anything.

use ba_model::{Duplicate, List, Op, Str, Value};
use std::alloc::{AllocError, Global};

/// A column's name, and the name of a source before it.
#[derive(Debug, Drop)]
pub struct Named {
    pub qualifier: Option<Str>,
    pub column: Str,
}

/// A number, a text, TRUE (which is 1), FALSE (which is 0), or a parameter.
#[derive(Debug, Drop)]
pub enum Constant {
    Value(Value),
    Param(Str),
}

impl Duplicate for Constant {
    fn copy(&self, alloc: Global) -> Result<Constant, AllocError> {
        match self {
            Constant::Value(value) => Ok(Constant::Value(value.copy(alloc)?)),
            Constant::Param(name) => Ok(Constant::Param(name.copy(alloc)?)),
        }
    }
}

/// What is compared or put out.
#[derive(Debug, Drop)]
pub enum Side {
    Column(Named),
    Constant(Constant),
}

/// A table, called by its alias or else by its own name.
#[derive(Debug, Drop)]
pub struct Source {
    pub table: Str,
    pub alias: Option<Str>,
}

/// One that is put out. A name after AS is dropped.
#[derive(Debug, Drop)]
pub enum Item {
    /// `name.*`
    AllOf(Str),
    One(Side),
}

/// What a select puts out.
#[derive(Debug, Drop)]
pub enum Heads {
    /// `*`
    All,
    Items(List<Item>),
}

/// A condition without AND and OR. `>` and `>=` are written turned round.
#[derive(Debug, Drop)]
pub enum Test {
    Compare { op: Op, left: Side, right: Side },
    /// IS NULL or IS NOT NULL, as the op says.
    Null { op: Op, side: Side },
    /// IN: the side equals one of these.
    Among { side: Side, among: List<Constant> },
}

/// A condition in postfix order: each operator behind its two sides.
#[derive(Debug, Drop)]
pub enum Node {
    Test(Test),
    And,
    Or,
}

/// One SELECT. Its condition is those behind ON in order and then that behind WHERE, joined by AND;
/// empty if there is none.
#[derive(Debug, Drop)]
pub struct Select {
    pub heads: Heads,
    pub sources: List<Source>,
    pub condition: List<Node>,
}

/// The selects of a UNION, in order.
#[derive(Debug, Drop)]
pub struct QueryText {
    pub selects: List<Select>,
}
