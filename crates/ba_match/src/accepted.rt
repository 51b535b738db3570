//! Whether a template's instance is a proof of the question.
ghost use Rattle.std.specs.Prelude.{◌≡◌, ◌≤◌, ◌∷◌, [], IfOk, IfSome, OnOk, length};
ghost use Rattle.std.specs.Bool.{OnTrue};
ghost use Rattle.ba_kernel.specs.Courses.{ProblemFits};
ghost use Rattle.ba_kernel.specs.Drafts.{IsChecked};
ghost use Rattle.ba_kernel.specs.Problems.{problem_of};
ghost use Rattle.ba_kernel.specs.Replays.{Closes};
ghost use Rattle.ba_match.specs.Instances.{AreToldAt, IsToldAt, instance_of};
ghost use Rattle.ba_model.specs.Limits.{most_steps};

use crate::instances::steps_with;
use ba_comply::{Trace, TraceEntry};
use ba_kernel::{Problem, ProblemDraft, Step, replay};
use ba_model::{Context, Duplicate, Failure, List, Policy, Query, Row, Shared};
use ba_template::{Match, Template};
use std::alloc::{AllocError, Global};

/// A list of one row.
fn only(alloc: Global, row: &Row) -> Result<List<Row>, AllocError>
    ensures { IfOk result (λ rows. rows ≡ row.now ∷ []) }
{
    let mut rows = List::new(alloc);
    rows.push(row.copy(alloc)?)?;
    Ok(rows)
}

/// The row at the place alone, with its query, if it is there.
fn told_at(
    alloc: Global,
    trace: &Trace,
    place: &(u64, u64),
) -> Result<Option<TraceEntry>, AllocError>
    ensures { IfOk result (λ found. IfSome found (IsToldAt trace.now place.now)) }
{
    if place.0 >= trace.len() {
        return Ok(None);
    }
    let of = trace.entry(place.0);
    let Some(row) = of.rows.find(place.1 as usize) else {
        return Ok(None);
    };
    let rows = only(alloc, row)?;
    let query = of.query.copy(alloc)?;
    let rows = Shared::new(alloc, rows)?;
    Ok(Some(TraceEntry { query, rows }))
}

/// The rows at the places, each with its query, if all are there.
fn all_told_at(
    alloc: Global,
    trace: &Trace,
    places: &[(u64, u64)],
) -> Result<Option<Trace>, AllocError>
    ensures { IfOk result (λ found. IfSome found (AreToldAt trace.now places.now)) }
{
    let mut told = Trace::new(alloc);
    for place in places {
        let found = told_at(alloc, trace, place)?;
        let Some(found) = found else {
            return Ok(None);
        };
        told.push(found)?;
    }
    Ok(Some(told))
}

/// The problem, if it fits.
fn checked(alloc: Global, problem: Problem) -> Result<Option<Problem>, AllocError>
    requires { IsChecked problem.policy }
    ensures { IfOk result (λ found. IfSome found (λ it. (it ≡ problem) × ProblemFits it)) }
{
    let draft = ProblemDraft {
        policy: problem.policy,
        vars: problem.vars,
        assumed: problem.assumed,
        entries: problem.entries,
        goal: problem.goal,
    };
    match Problem::new(alloc, draft) {
        Ok(it) => Ok(Some(it)),
        Err(Failure::Fault(_)) => Ok(None),
        Err(Failure::NoMemory) => Err(AllocError),
    }
}

/// Whether the steps close the problem.
fn closes(alloc: Global, problem: Problem, steps: List<Step>) -> Result<bool, AllocError>
    requires fits { ProblemFits problem }
    requires few { length steps ≤ most_steps }
    ensures { IfOk result (λ told. OnTrue told (Closes problem steps)) }
{
    match replay(alloc, problem, steps) {
        Ok(_) => Ok(true),
        Err(Failure::Fault(_)) => Ok(false),
        Err(Failure::NoMemory) => Err(AllocError),
    }
}

/// Whether the steps close the problem of a question after these rows.
fn closes_after(
    alloc: Global,
    policy: &Shared<Policy>,
    ctx: &Context,
    told: &Trace,
    query: &Shared<Query>,
    steps: List<Step>,
) -> Result<bool, AllocError>
    requires checked { IsChecked policy.now }
    requires few { length steps ≤ most_steps }
    ensures { IfOk result (λ told_so. OnTrue told_so
        (Closes (problem_of policy.now ctx.now told.now query.now) steps)) }
{
    let problem = Problem::of(alloc, policy, ctx, told, query)?;
    let problem = checked(alloc, problem)?;
    match problem {
        Some(problem) => closes(alloc, problem, steps),
        None => Ok(false),
    }
}

/// Whether the template's instance ([`crate::instance`]) is found to be a proof of the question after
/// the trace: each of its steps is accepted, one after another from the start of the question's
/// problem, and in the end no branch is open. The steps are taken by the kernel, after the rows at
/// the match's places alone: the others make no difference to them. So the time doesn't grow with
/// the trace.
///
/// Of a match that [`crate::match_template`] finds for a template that was learned in a run it is
/// true, as far as is known; no law says so. Steps that go on where what is known can't be true may
/// rest on a condition that a question's problem doesn't have as a fact of its own. An error is want
/// of memory.
pub fn closes_question(
    alloc: Global,
    template: &Template,
    found: &Match,
    policy: &Shared<Policy>,
    ctx: &Context,
    trace: &Trace,
    query: &Shared<Query>,
) -> Result<bool, AllocError>
    requires { IsChecked policy.now }
    ensures { IfOk result (λ told. OnTrue told
        (Closes (problem_of policy.now ctx.now trace.now query.now)
        (instance_of found.now trace.now template.now.steps))) }
{
    let told = all_told_at(alloc, trace, found.places.as_slice())?;
    let Some(told) = told else {
        return Ok(false);
    };
    let values = found.values.as_slice();
    let steps = template.steps();
    let steps = steps_with(alloc, values, &[], steps.as_slice())?;
    closes_after(alloc, policy, ctx, &told, query, steps)
}
