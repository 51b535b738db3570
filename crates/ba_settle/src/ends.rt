//! How a search ends.

use ba_facts::Branch;
use ba_kernel::{Problem, Proved, Step};
use ba_model::{List, Owned};

/// A problem, the steps that were taken from its start, and an open branch that they leave, on
/// which no step is new.
#[derive(Drop)]
pub struct Leaf {
    pub problem: Owned<Problem>,
    pub steps: List<Step>,
    pub branch: Owned<Branch>,
}

/// How a search ends.
#[derive(Drop)]
pub enum Settled {
    /// No branch is open.
    Proved(Proved),
    /// An open branch has no new step: the least such.
    Saturated(Leaf),
    /// As many steps were taken as the budget has, and each open branch has a new step.
    Spent(List<Step>),
}
