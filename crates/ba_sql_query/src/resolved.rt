//! Selects whose names are numbers.

use ba_model::{Atom, List, Operand};

/// A condition without AND and OR.
#[derive(Debug, Drop)]
pub enum ResolvedTest {
    One(Atom),
    /// IN: the side equals one of these.
    Among { side: Operand, among: List<Operand> },
}

/// A condition in postfix order.
#[derive(Debug, Drop)]
pub enum ResolvedNode {
    Test(ResolvedTest),
    And,
    Or,
}

/// A select: its sources by the numbers of their tables, what it puts out, its condition.
#[derive(Debug, Drop)]
pub struct ResolvedSelect {
    pub from: List<u32>,
    pub head: List<Operand>,
    pub condition: List<ResolvedNode>,
}
