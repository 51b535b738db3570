//! Told rows that no database has.
ghost use Rattle.std.specs.Prelude.{◌≡◌, ◌≤◌, IfOk, IfSome, MatchOption};
ghost use Rattle.std.specs.Option.{option_copied};
ghost use Rattle.ba_comply.specs.Comply.{Strong};
ghost use Rattle.ba_contradict.specs.Contradictions.{Contradicted, IsOutcome, StaysOpen, ToldFits, effort_in, first_told, without_views};
ghost use Rattle.ba_kernel.specs.Asked.{QuestionFits};
ghost use Rattle.ba_kernel.specs.Problems.{problem_of};
ghost use Rattle.ba_model.specs.Limits.{most_budget};

use ba_comply::Trace;
use ba_kernel::laws::problem_is_question;
use ba_kernel::{Problem, Step};
use ba_model::{Context, Duplicate, List, Policy, Query, Shared};
use ba_settle::{Settle, Settled};
use std::alloc::{AllocError, Global};

/// The steps that show that what a request was told can be in no database, if a search finds some:
/// one over the told rows alone, of at most `budget` due steps in each of its orders.
///
/// It searches for a proof of the first told query under the policy's schema and parameters, but
/// without its views. Where nothing can be seen, only a contradiction among the told rows proves
/// it, since the database without a row conforms too. `None` says that nothing was told, or that
/// the first entry has no row, or that the search ended without a proof; the rows may contradict
/// each other nevertheless.
///
/// The policy, the context and the trace are as their readers ensure, and the budget is at most
/// [`ba_model::MAX_BUDGET`] steps. The only error is want of memory, which leaves nothing behind.
pub fn contradiction<S: Settle>(
    alloc: Global,
    policy: &Shared<Policy>,
    context: &Context,
    trace: &Trace,
    settle: &S,
    budget: u32,
) -> Result<Option<List<Step>>, AllocError>
    requires fits { ToldFits policy.now context.now trace.now }
    requires limit { budget ≤ most_budget }
    ensures { IfOk result (λ found. MatchOption found
        (StaysOpen policy.now context.now trace.now (effort_in (S.orders settle.now) budget))
        (Contradicted policy.now context.now trace.now
        (effort_in (S.orders settle.now) budget))) }
{
    match first_told(trace) {
        Some(query) => {
            let blind = without_views(alloc, policy)?;
            proof_of(alloc, &blind, context, trace, query, settle, budget)
        }
        None => Ok(None),
    }
}

// The query of the first entry, if that has a row.
fn first_told(trace: &Trace) -> Option<&Shared<Query>>
    ensures { option_copied result ≡ first_told trace.now }
{
    if trace.len() == 0 {
        return None;
    }
    let entry = trace.entry(0);
    if entry.rows.len() == 0 {
        return None;
    }
    Some(&entry.query)
}

// The policy's schema and parameters alone. The schema is held in common.
fn without_views(alloc: Global, policy: &Policy) -> Result<Shared<Policy>, AllocError>
    ensures { IfOk result (λ it. it ≡ without_views policy.now) }
{
    let schema = policy.schema.copy(alloc)?;
    let params = policy.params.copy(alloc)?;
    Shared::new(
        alloc,
        Policy {
            schema,
            params,
            views: List::new(alloc),
            keys: List::new(alloc),
        },
    )
}

// The steps of a proof of the question, if a search of at most `budget` due steps finds one.
fn proof_of<S: Settle>(
    alloc: Global,
    policy: &Shared<Policy>,
    context: &Context,
    trace: &Trace,
    query: &Shared<Query>,
    settle: &S,
    budget: u32,
) -> Result<Option<List<Step>>, AllocError>
    requires fits { QuestionFits policy.now context.now trace.now query.now }
    requires limit { budget ≤ most_budget }
    ensures found { IfOk result
        (IsOutcome (problem_of policy.now context.now trace.now query.now)
        (effort_in (S.orders settle.now) budget)) }
    ensures strong { IfOk result (λ found. IfSome found (λ steps.
        Strong policy.now context.now trace.now query.now)) }
{
    problem_is_question();
    let problem = Problem::of(alloc, policy, context, trace, query)?;
    let settled = settle.settle(alloc, problem, budget)?;
    match settled {
        Settled::Proved(proved) => Ok(Some(proved.into_steps())),
        Settled::Saturated(_) => Ok(None),
        Settled::Spent(_) => Ok(None),
    }
}
