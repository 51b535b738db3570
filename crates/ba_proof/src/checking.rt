//! The checker of proofs.
ghost use Rattle.std.specs.Prelude.{◌≡◌, ◌≤◌, ◌<◌, ◌∷◌, ◌++◌, [], IfErr, IfOk, OnOk, length};
ghost use Rattle.ba_model.specs.Readings.{OfFault};
ghost use Rattle.ba_model.specs.Limits.{most_steps};
ghost use Rattle.ba_kernel.specs.Courses.{ProblemFits};
ghost use Rattle.ba_kernel.specs.Replays.{Closes};
ghost use Rattle.ba_proof.specs.Checked.{Checks, IsNextFault, IsStrongQuestion, open_count};

use crate::proof::Proof;
use ba_kernel::laws::{closed_is_strong, problem_is_question, replays_have_one_end};
use ba_kernel::{Proved, Search, Step, StepFault};
use ba_model::Failure;
use std::alloc::Global;

/// Why a proof isn't accepted.
#[derive(Clone, Copy, Debug, PartialEq, Eq)]
pub enum CheckFault {
    /// The step of this number, from 0, is the first that isn't accepted.
    NotShown { step: u32, fault: StepFault },
    /// All steps are accepted, and so many branches are open.
    StillOpen { branches: u32 },
}

/// The proof, if it is one: each step is accepted, one after another from the start of the problem,
/// and in the end no branch is open. Then the problem's question is strongly compliant under its
/// context and after its rows; what [`crate::read_proof`] gives has one.
///
/// Else `NotShown` tells the first step that isn't accepted and the first of its tests that fails,
/// or `StillOpen` that all are accepted and how many branches are open. Nothing is searched for:
/// only the steps that are given are taken. `NoMemory` may stand in place of any of these, and
/// leaves nothing behind; where the goal has no part, no memory is taken and none is told.
pub fn check(alloc: Global, proof: Proof) -> Result<Proved, Failure<CheckFault>>
    requires fits { ProblemFits proof.problem }
    requires few { length proof.steps ≤ most_steps }
    ensures verdict { Checks proof.problem proof.steps result }
    ensures refused { IfErr result (λ e. OfFault e (λ _. ¬ (Closes proof.problem proof.steps))) }
    ensures strong { IfOk result (λ _. IsStrongQuestion proof.problem) }
{
    replays_have_one_end();
    closed_is_strong();
    problem_is_question();
    taken(alloc, proof)
}

fn taken(alloc: Global, proof: Proof) -> Result<Proved, Failure<CheckFault>>
    requires fits { ProblemFits proof.problem }
    requires few { length proof.steps ≤ most_steps }
    ensures { Checks proof.problem proof.steps result }
{
    let mut search = Search::start(alloc, proof.problem)?;
    for step in proof.steps.into_vec() {
        take_next(alloc, &mut search, step)?;
    }
    match search.close() {
        Ok(proved) => Ok(proved),
        Err(search) => {
            let branches = open_count(&search);
            Err(Failure::Fault(CheckFault::StillOpen { branches }))
        }
    }
}

/// Takes the next step, or tells its number with its fault.
fn take_next(alloc: Global, search: &mut Search, step: Step) -> Result<(), Failure<CheckFault>>
    requires { length search.old.steps < most_steps }
    ensures problem { OnOk result (search.new.problem ≡ search.old.problem) }
    ensures steps { OnOk result (search.new.steps ≡ search.old.steps ++ step ∷ []) }
    ensures fault { IfErr result (IsNextFault search.old step) }
{
    let number = search.steps().len() as u32;
    match search.apply(alloc, step) {
        Ok(()) => Ok(()),
        Err(Failure::NoMemory) => Err(Failure::NoMemory),
        Err(Failure::Fault(fault)) => {
            Err(Failure::Fault(CheckFault::NotShown {
                step: number,
                fault,
            }))
        }
    }
}

/// How many branches are open.
fn open_count(search: &Search) -> u32
    ensures { result ≡ open_count search.now.slots }
{
    let mut count = 0;
    for number in 0..search.branches() {
        if search.branch(number).is_some() {
            count += 1;
        }
    }
    count
}
