//! The branches of a problem's start.
ghost use Rattle.std.specs.Prelude.{◌≡◌, ◌≢◌, [], IfErr, IfOk, OnOk, map};
ghost use Rattle.std.specs.List.{AllZip};
ghost use Rattle.ba_model.specs.Fit.{kinds_of};
ghost use Rattle.ba_kernel.specs.Courses.{IsStart, IsStartOf, ProblemFits, nothing_known};
ghost use Rattle.ba_kernel.specs.Tidy.{IsPartOf};

use crate::cases::build::{add_facts, assume_all, numbers_from};
use crate::cases::terms::operand_row;
use crate::problem::Problem;
use ba_facts::{Branch, Side};
use ba_model::{Kind, List, Owned, Parameter, Part, Shared};
use std::alloc::{AllocError, Global};

/// For each part of the goal a branch, in which the part gives the goal row and what is assumed is
/// true. 2^32 unknowns or more are told as want of memory.
pub fn start_branches(
    alloc: Global,
    problem: &Problem,
) -> Result<Vec<Option<Owned<Branch>>>, AllocError>
    requires { ProblemFits problem.now }
    ensures start { IfOk result (λ slots. IsStart problem.now slots.items) }
    ensures err { IfErr result (λ _. problem.now.goal.parts ≢ []) }
{
    let mut slots = Vec::new(alloc);
    for part in problem.goal_parts() {
        slots.push(Some(part_start(alloc, problem, part)?))?;
    }
    Ok(slots)
}

/// The branch in which the part gives the goal row.
fn part_start(alloc: Global, problem: &Problem, part: &Part) -> Result<Owned<Branch>, AllocError>
    requires fits { ProblemFits problem.now }
    requires part { IsPartOf problem.now part.now }
    ensures { IfOk result (IsStartOf problem.now part.now) }
{
    let mut new = nothing(alloc, problem)?;
    add_start(alloc, problem, part, new.get_mut())?;
    Ok(new)
}

/// Adds a fact for each of the part's tables, its atoms, what is assumed, and the goal row.
fn add_start(
    alloc: Global,
    problem: &Problem,
    part: &Part,
    new: &mut Branch,
) -> Result<(), AllocError>
    requires fits { ProblemFits problem.now }
    requires part { IsPartOf problem.now part.now }
    requires nothing { new.old ≡ nothing_known problem.now }
    ensures { OnOk result (IsStartOf problem.now part.now new.new) }
{
    let numbers = numbers_from(alloc, 0, part.from.len())?;
    let facts = numbers.as_slice();
    let from = part.from.as_slice();
    let conds = part.conds.as_slice();
    let head = part.head.as_slice();
    let assumed = problem.assumed.as_slice();
    add_facts(alloc, problem, new, Side::One, 0, from)?;
    let goal = operand_row(alloc, new, facts, head)?;
    assume_all(alloc, new, facts, conds)?;
    assume_all(alloc, new, &[], assumed)?;
    new.goal = Shared::new(alloc, List::from_vec(goal))?;
    Ok(())
}

/// A branch of nothing, for the problem's parameters and variables.
fn nothing(alloc: Global, problem: &Problem) -> Result<Owned<Branch>, AllocError>
    ensures { IfOk result (λ it. it ≡ nothing_known problem.now) }
{
    let params = param_kinds(alloc, problem.params())?;
    let vars = copy_kinds(alloc, problem.vars.as_slice())?;
    let new = Branch::new(alloc, List::from_vec(params), vars)?;
    Owned::new(alloc, new)
}

fn param_kinds(alloc: Global, params: &[Parameter]) -> Result<Vec<Kind>, AllocError>
    ensures { IfOk result (λ kinds. kinds.items ≡ kinds_of params.now) }
{
    params.iter().map(|param| param.kind).collect(alloc)
}

fn copy_kinds(alloc: Global, kinds: &[Kind]) -> Result<List<Kind>, AllocError>
    ensures { IfOk result (λ other. other ≡ kinds.now) }
{
    Ok(List::from_vec(Vec::from_slice(alloc, kinds)?))
}
