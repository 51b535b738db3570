//! New steps: those that pass their tests and tell a branch what it doesn't have yet.
ghost use Rattle.ba_kernel.specs.Courses.{ProblemFits};
ghost use Rattle.ba_kernel.specs.NewParts.{IsToldEntry, IsToldRound, RoundUnless};
ghost use Rattle.ba_kernel.specs.News.{IsNewRoundOn};
ghost use Rattle.ba_kernel.specs.Steps.{EntryPasses, Passes};
ghost use Rattle.ba_kernel.specs.SearchStates.{IsTidy};

mod given;
mod rows;
mod split;

use crate::cases::rounds::{entry_round, greatest_round};
use crate::news::given::{entry_is_met, rule_is_met, view_is_met};
use crate::news::rows::{key_is_met, link_is_met};
use crate::news::split::told_split;
use crate::passes::tested;
use crate::problem::Problem;
use crate::step::Step;
use ba_facts::Branch;

/// The round of the step, if it is new: it passes its tests on the branch and tells it what it
/// doesn't have yet.
pub fn new_round(problem: &Problem, branch: &Branch, step: &Step) -> Option<u64>
    requires fits { ProblemFits problem.now }
    requires tidy { IsTidy problem.now branch.now }
    ensures { IsNewRoundOn problem.now branch.now step.now result }
{
    match tested(problem, branch, step) {
        Ok(()) => told_round(problem, branch, step),
        Err(_) => None,
    }
}

/// The round of a step that passes its tests, if it tells the branch what it doesn't have yet.
fn told_round(problem: &Problem, branch: &Branch, step: &Step) -> Option<u64>
    requires fits { ProblemFits problem.now }
    requires tidy { IsTidy problem.now branch.now }
    requires passes { Passes problem.now branch.now step.now }
    ensures { IsToldRound problem.now branch.now step.now result }
{
    match step {
        Step::Entry { entry, .. } => told_entry(problem, branch, *entry),
        Step::Key { left, right, .. } => {
            let met = key_is_met(branch, *left, *right);
            round_unless(met, branch, &[*left, *right])
        }
        Step::Link { link, fact, .. } => {
            let met = link_is_met(problem, branch, *link, *fact);
            round_unless(met, branch, &[*fact])
        }
        Step::Rule {
            rule,
            part,
            facts,
            ..
        } => {
            let met = rule_is_met(problem, branch, *rule, *part, facts.as_slice());
            round_unless(met, branch, facts.as_slice())
        }
        Step::View {
            view,
            part,
            facts,
            ..
        } => {
            let met = view_is_met(problem, branch, *view, *part, facts.as_slice());
            round_unless(met, branch, facts.as_slice())
        }
        Step::Split { atom, .. } => told_split(problem, branch, atom),
        Step::Absurd { .. } => Some(0),
        Step::Goal { .. } => Some(0),
    }
}

/// The round of the entry, unless its row is given already.
fn told_entry(problem: &Problem, branch: &Branch, entry: u64) -> Option<u64>
    requires fits { ProblemFits problem.now }
    requires passes { EntryPasses problem.now entry }
    ensures { IsToldEntry problem.now branch.now entry result }
{
    if entry_is_met(problem, branch, entry) {
        return None;
    }
    let it = problem.entries.get(entry as usize);
    Some(u64::from(entry_round(problem, it.row.as_slice())))
}

/// One more than the greatest round of the facts, unless the step is met.
fn round_unless(met: bool, branch: &Branch, facts: &[u32]) -> Option<u64>
    ensures { RoundUnless met branch.now facts.now result }
{
    if met {
        None
    } else {
        Some(u64::from(greatest_round(branch, facts)) + 1)
    }
}
