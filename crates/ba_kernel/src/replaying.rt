//! Steps that are taken from a problem's start, one after another.
ghost use Rattle.std.specs.Prelude.{◌≡◌, ◌≤◌, ◌<◌, ◌∷◌, ◌++◌, [], IfErr, IfOk, length};
ghost use Rattle.ba_model.specs.Limits.{most_steps};
ghost use Rattle.ba_kernel.specs.Courses.{ProblemFits};
ghost use Rattle.ba_kernel.specs.Replays.{IsNextRefused, Replays};

use crate::problem::Problem;
use crate::proved::Proved;
use crate::search::Search;
use crate::step::{Step, StepFault};
use ba_model::{Failure, List};
use std::alloc::Global;

/// Why steps prove nothing.
#[derive(Clone, Copy, Debug, PartialEq, Eq)]
pub enum ReplayFault {
    /// The step of this number, from 0, is the first that isn't accepted.
    Refused { number: u32, fault: StepFault },
    /// All steps are accepted, and a branch is open.
    Open,
}

/// The proof that the steps are: each is accepted, one after another from the problem's start, and
/// in the end no branch is open.
///
/// Else `Refused` tells the first step that isn't accepted and its fault, or `Open` that all are
/// accepted and a branch is open. Steps have one such end
/// ([`crate::laws::replays_have_one_end`]). `NoMemory` may stand in place of any of these, and
/// leaves nothing behind; where the goal has no part, no memory is taken and none is told.
pub fn replay(
    alloc: Global,
    problem: Problem,
    steps: List<Step>,
) -> Result<Proved, Failure<ReplayFault>>
    requires fits { ProblemFits problem }
    requires few { length steps ≤ most_steps }
    ensures { Replays problem steps result }
{
    let mut search = Search::start(alloc, problem)?;
    for step in steps.into_vec() {
        search = go_on(alloc, search, step)?;
    }
    match search.close() {
        Ok(proved) => Ok(proved),
        Err(_) => Err(Failure::Fault(ReplayFault::Open)),
    }
}

/// The search after the next step, or its number with its fault.
fn go_on(alloc: Global, search: Search, step: Step) -> Result<Search, Failure<ReplayFault>>
    requires { length search.steps < most_steps }
    ensures problem { IfOk result (λ it. it.problem ≡ search.problem) }
    ensures steps { IfOk result (λ it. it.steps ≡ search.steps ++ step ∷ []) }
    ensures fault { IfErr result (IsNextRefused search step) }
{
    let number = search.steps().len() as u32;
    match search.go_on(alloc, step) {
        Ok(next) => Ok(next),
        Err(Failure::NoMemory) => Err(Failure::NoMemory),
        Err(Failure::Fault(fault)) => Err(Failure::Fault(ReplayFault::Refused { number, fault })),
    }
}
