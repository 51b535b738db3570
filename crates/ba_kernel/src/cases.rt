//! The cases that a step leads to.
ghost use Rattle.std.specs.Prelude.{◌≡◌, [], IfOk, IsTrue, Some};
ghost use Rattle.ba_kernel.specs.Courses.{ProblemFits};
ghost use Rattle.ba_kernel.specs.Steps.{Leads, Passes};
ghost use Rattle.ba_kernel.specs.SearchStates.{IsTidy};
ghost use Rattle.ba_kernel.specs.Spares.{LeadsTo};

pub mod build;
mod entry;
mod equal;
pub mod rounds;
pub mod terms;

use crate::cases::entry::{entry_cases, rule_cases, view_cases};
use crate::cases::equal::{key_cases, link_cases, split_cases};
use crate::problem::Problem;
use crate::step::Step;
use ba_facts::Branch;
use ba_model::Owned;
use std::alloc::{AllocError, Global};

/// The cases that a step, which passes its tests, makes of a branch: they take its place. Facts,
/// unknowns or rounds past the numbers of 32 bits are told as want of memory.
///
/// The last case, or the first of a split, is made of the branch itself, without a copy.
pub fn cases_of(
    alloc: Global,
    problem: &Problem,
    branch: Owned<Branch>,
    step: &Step,
) -> Result<Vec<Owned<Branch>>, AllocError>
    requires fits { ProblemFits problem.now }
    requires tidy { IsTidy problem.now branch }
    requires passes { Passes problem.now branch step.now }
    ensures { IfOk result (λ cases. Leads problem.now branch step.now cases.items) }
{
    match step {
        Step::Entry { entry, .. } => entry_cases(alloc, problem, branch, *entry),
        Step::Key {
            key,
            left,
            right,
            ..
        } => key_cases(alloc, problem, branch, *key, *left, *right),
        Step::Link { link, fact, .. } => link_cases(alloc, problem, branch, *link, *fact),
        Step::Rule {
            rule,
            part,
            facts,
            ..
        } => rule_cases(alloc, problem, branch, *rule, *part, facts.as_slice()),
        Step::View {
            view,
            part,
            facts,
            ..
        } => view_cases(alloc, problem, branch, *view, *part, facts.as_slice()),
        Step::Split { atom, .. } => split_cases(alloc, branch, atom),
        Step::Absurd { .. } => Ok(Vec::new(alloc)),
        Step::Goal { .. } => Ok(Vec::new(alloc)),
    }
}

/// Whether the step leaves no case of any branch.
#[inline(always)]
pub fn closes(step: &Step) -> bool
    ensures { (p : Problem) (b : Branch) →
        IsTrue result → Passes p b step.now → Leads p b step.now [] }
{
    match step {
        Step::Absurd { .. } => true,
        Step::Goal { .. } => true,
        _ => false,
    }
}

/// The case that a step, which made one case of a branch, makes of it again.
pub fn again(
    alloc: Global,
    problem: &Problem,
    branch: Owned<Branch>,
    step: &Step,
) -> Result<Option<Owned<Branch>>, AllocError>
    requires fits { ProblemFits problem.now }
    requires one { (new : Branch) × LeadsTo problem.now branch step.now new }
    ensures { IfOk result (λ it. (new : Branch) →
        LeadsTo problem.now branch step.now new → it ≡ Some new) }
{
    let mut cases = cases_of(alloc, problem, branch, step)?;
    Ok(cases.pop())
}
