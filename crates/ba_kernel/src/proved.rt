ghost use Rattle.std.specs.Prelude.{◌≡◌, ◌≤◌, length};
ghost use Rattle.ba_model.specs.Limits.{most_steps};
ghost use Rattle.ba_kernel.specs.Courses.{AllClosed, ProblemFits, Runs};
ghost use Rattle.ba_kernel.specs.Problems.{StrongAll};
ghost use Rattle.ba_kernel.specs.SearchStates.{IsProved};

use crate::laws::closed_is_strong;
use crate::problem::Problem;
use crate::step::Step;
use ba_facts::Branch;
use ba_model::{List, Owned};
use std::marker::Model;

/// A problem and steps that prove it.
///
/// The type keeps that the steps are at most [`ba_model::MAX_STEPS`], are accepted from the
/// problem's start and leave no branch open, and that every instance of the problem is strongly
/// compliant. Nothing but [`crate::Search::close`] makes one.
#[derive(Drop)]
pub struct Proved {
    problem: Problem,
    steps: List<Step>,
}

impl Model for Proved {
    ghost use Rattle.ba_kernel.specs.SearchStates.{IsProved, Proof};

    ghost Value = { Proof };

    ghost view = { λ p. record { problem = p.problem; steps = p.steps } };

    ghost invariant = { λ p. IsProved p.problem p.steps };
}

impl Proved {
    /// The proof of a course that leaves no branch open.
    pub(crate) fn of_closed(
        problem: Problem,
        steps: List<Step>,
        slots: Vec<Option<Owned<Branch>>>,
    ) -> Proved
        requires fits { ProblemFits problem }
        requires few { length steps ≤ most_steps }
        requires runs { Runs problem steps slots.items }
        requires closed { AllClosed slots.items }
        ensures { result ≡ record { problem = problem; steps = steps } }
    {
        closed_is_strong();
        drop(slots);
        Proved { problem, steps }
    }

    /// The problem, of which every instance is strongly compliant.
    pub fn problem(&self) -> &Problem
        ensures is { result.now ≡ self.now.problem }
        ensures strong { StrongAll result.now }
    {
        &self.problem
    }

    /// The steps, the first one first. They prove the problem.
    pub fn steps(&self) -> &List<Step>
        ensures is { result.now ≡ self.now.steps }
        ensures proved { IsProved self.now.problem result.now }
    {
        &self.steps
    }

    /// The steps alone, the first one first.
    pub fn into_steps(self) -> List<Step>
        ensures is { result ≡ self.steps }
        ensures strong { StrongAll self.problem }
    {
        self.steps
    }
}
