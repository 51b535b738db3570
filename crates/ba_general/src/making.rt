//! What each of some steps makes, as the tables of the branches' facts tell.
ghost use Rattle.std.specs.Prelude.{◌≡◌, IfOk, OnOk};
ghost use Rattle.ba_general.specs.Layouts.{counts, layout_after, tables_on};
ghost use Rattle.ba_general.specs.Leaving.{gap_made, made, made_by};

use crate::gap::{Gap, Span};
use crate::layout::{Layout, column_count};
use ba_kernel::{Problem, Step};
use ba_model::List;
use std::alloc::{AllocError, Global};

/// What a step makes: the facts and unknowns that it adds to its branch, if it makes one case of it,
/// and how many branches there were before it and are after it.
#[derive(Clone, Copy, Debug)]
pub struct Made {
    pub gap: Option<Gap>,
    pub before: usize,
    pub after: usize,
}

/// What each of the steps makes, one after another from the problem's start.
pub fn list_made(
    alloc: Global,
    problem: &Problem,
    steps: &List<Step>,
) -> Result<Vec<Made>, AllocError>
    ensures { IfOk result (λ it. it.items ≡ made problem.now steps.now) }
{
    let mut layout = Layout::start(alloc, problem)?;
    let mut all = Vec::with_capacity(alloc, steps.len())?;
    for n in 0..steps.len() {
        all.push(next_made(alloc, problem, &mut layout, steps.get(n))?)?;
    }
    Ok(all)
}

/// What the next step makes.
fn next_made(
    alloc: Global,
    problem: &Problem,
    layout: &mut Layout,
    step: &Step,
) -> Result<Made, AllocError>
    requires { layout.old.unknowns.items ≡ counts problem.now layout.old.tables.items }
    ensures made { IfOk result (λ it. it ≡ made_by problem.now layout.old.tables.items step.now) }
    ensures layout { OnOk result (layout.new.tables.items ≡ layout_after problem.now layout.old.tables.items step.now) }
    ensures counted { OnOk result (layout.new.unknowns.items ≡ counts problem.now layout.new.tables.items) }
{
    let before = layout.branches();
    let cases = layout.added(alloc, problem, step)?;
    let gap = gap_of(problem, layout, step.branch(), cases.as_slice())?;
    layout.put(alloc, problem, step.branch(), cases)?;
    let after = layout.branches();
    Ok(Made { gap, before, after })
}

/// The facts and unknowns of the one case that is made of a branch; none where no case is made or
/// several are.
fn gap_of(
    problem: &Problem,
    layout: &Layout,
    branch: u32,
    cases: &[List<u32>],
) -> Result<Option<Gap>, AllocError>
    requires { layout.now.unknowns.items ≡ counts problem.now layout.now.tables.items }
    ensures { IfOk result (λ it. it ≡ gap_made problem.now.policy.schema (tables_on layout.now.tables.items branch) cases.now) }
{
    if cases.len() != 1 {
        return Ok(None);
    }
    let added = cases[0].as_slice();
    let facts = Span {
        first: layout.tables(branch).len(),
        count: added.len(),
    };
    let unknowns = Span {
        first: layout.unknowns(problem, branch),
        count: column_count(problem, added)?,
    };
    Ok(Some(Gap { facts, unknowns }))
}
