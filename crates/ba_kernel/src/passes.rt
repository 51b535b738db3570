//! The tests of a step on a branch.
ghost use Rattle.ba_kernel.specs.Steps.{AbsurdRefuses, EntryPasses, EntryRefuses, Passes, Refuses};
ghost use Rattle.ba_kernel.specs.SearchStates.{IsTidy, PassedIsNotRefused, Tested};
ghost use Rattle.ba_facts.specs.Shown.{Absurd};

mod head;
pub mod mapping;
mod part;
pub mod row;
pub mod split;

use crate::passes::part::{test_goal, test_rule, test_view};
use crate::passes::row::{test_key, test_link};
use crate::passes::split::test_split;
use crate::problem::Problem;
use crate::step::{Step, StepFault};
use ba_facts::Branch;

/// Whether the step passes its tests on a branch, or else the fault of the first that fails.
pub fn tested(problem: &Problem, branch: &Branch, step: &Step) -> Result<(), StepFault>
    requires { IsTidy problem.now branch.now }
    ensures { Tested (Passes problem.now branch.now step.now)
        (Refuses problem.now branch.now step.now) result }
{
    match step {
        Step::Entry { entry, .. } => test_entry(problem, *entry),
        Step::Key {
            key,
            left,
            right,
            ..
        } => test_key(problem, branch, *key, *left, *right),
        Step::Link { link, fact, .. } => test_link(problem, branch, *link, *fact),
        Step::Rule {
            rule,
            part,
            facts,
            ..
        } => test_rule(problem, branch, *rule, *part, facts.as_slice()),
        Step::View {
            view,
            part,
            facts,
            ..
        } => test_view(problem, branch, *view, *part, facts.as_slice()),
        Step::Split { atom, .. } => test_split(branch, atom),
        Step::Absurd { .. } => test_absurd(branch),
        Step::Goal { part, facts, .. } => test_goal(problem, branch, *part, facts.as_slice()),
    }
}

/// Whether there is an entry of the number.
fn test_entry(problem: &Problem, entry: u64) -> Result<(), StepFault>
    ensures { Tested (EntryPasses problem.now entry) (EntryRefuses problem.now entry) result }
{
    match problem.entries.find(entry as usize) {
        Some(_) => Ok(()),
        None => Err(StepFault::BadRule),
    }
}

/// Whether the branch is absurd.
fn test_absurd(branch: &Branch) -> Result<(), StepFault>
    ensures { Tested (Absurd branch.now.known) (AbsurdRefuses branch.now) result }
{
    if branch.absurd() {
        Ok(())
    } else {
        Err(StepFault::NotAbsurd)
    }
}

/// A step that passes its tests isn't refused.
pub fn passed_is_not_refused()
    ensures { PassedIsNotRefused }
{}
