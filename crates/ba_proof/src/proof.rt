//! Proofs to be checked.

use ba_kernel::{Problem, Step};
use ba_model::List;

/// A problem, and steps that are said to prove it.
#[derive(Debug, Drop)]
pub struct Proof {
    pub problem: Problem,
    pub steps: List<Step>,
}
