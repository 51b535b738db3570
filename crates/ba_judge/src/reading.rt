//! Whether what a cache holds under a key may be read.
ghost use Rattle.std.specs.Prelude.{◌≡◌, [], ◌≤◌, IfOk};
ghost use Rattle.ba_judge.specs.Judging.{effort_in};
ghost use Rattle.ba_judge.specs.Reading.{AreFit, JudgesRead, ReadingFits, StopsAt, queries_of, reader};
ghost use Rattle.ba_judge.specs.Shelves.{Learns};
ghost use Rattle.ba_model.specs.Limits.{most_budget};

use crate::asking::Asking;
use crate::shelves::Shelves;
use crate::union::judge_told;
use crate::verdict::{Allowed, Judgement, Reason};
use ba_comply::Trace;
use ba_keys::key_queries;
use ba_model::{CacheKey, Context, List, Policy, Query, Shared};
use ba_settle::Settle;
use std::alloc::{AllocError, Global};

/// A read of what an application's cache holds under a key of the policy, under a request's context
/// and after what the request was told.
#[derive(Clone, Copy)]
pub struct Reading<'a> {
    pub policy: &'a Shared<Policy>,
    /// The values of the policy's parameters.
    pub context: &'a Context,
    /// The questions that rows were told of before, with their rows.
    pub trace: &'a Trace,
    pub key: &'a CacheKey,
    /// The values of the key's arguments.
    pub arguments: &'a Context,
}

/// Whether a read may be let through, with the evidence. The queries are the key's, with its
/// arguments as literals, in the key's order.
#[derive(Drop)]
pub enum Read {
    /// Each query is strongly compliant after what was told, for these reasons.
    Allowed {
        queries: List<Shared<Query>>,
        by: List<Allowed>,
    },
    /// The queries before it are allowed, for these reasons, and the next one is blocked.
    Blocked {
        queries: List<Shared<Query>>,
        before: List<Allowed>,
        reason: Reason,
    },
}

/// Whether a read may be let through: the key's queries are judged in order, each as
/// [`judge`](crate::judge) does it after what the request was told, with no look at a weaker trace,
/// and the first that is blocked ends it. No rows are told.
///
/// The key is one of the policy, with a value of its kind for each argument; the context and the
/// trace fit the policy, and the budget is at most [`ba_model::MAX_BUDGET`] steps. The error is want
/// of memory.
#[tactic(auto, using(crate::proofs::LearnLemmas::same_learns))]
pub fn judge_read<S: Settle>(
    alloc: Global,
    reading: &Reading<'_>,
    shelves: &mut Shelves,
    settle: &S,
    budget: u32,
) -> Result<Read, AllocError>
    requires fits { ReadingFits reading.now }
    requires limit { budget ≤ most_budget }
    ensures judges { IfOk result (JudgesRead (reader reading.now)
        (effort_in (S.orders settle.now) budget) shelves.old (queries_of reading.now)) }
    ensures learns { Learns shelves.old shelves.new }
{
    let queries = key_queries(alloc, reading.policy, reading.key, reading.arguments)?;
    let mut by = List::new(alloc);
    let stop = stop_of(
        alloc,
        reading,
        queries.as_slice(),
        &mut by,
        shelves,
        settle,
        budget,
    )?;
    match stop {
        None => Ok(Read::Allowed { queries, by }),
        Some(reason) => Ok(Read::Blocked {
            queries,
            before: by,
            reason,
        }),
    }
}

// Why the first of the queries that is blocked is, if one is; why those before it are allowed is put
// into the list.
#[tactic(auto, using(crate::proofs::LearnLemmas::same_learns))]
fn stop_of<S: Settle>(
    alloc: Global,
    reading: &Reading<'_>,
    queries: &[Shared<Query>],
    by: &mut List<Allowed>,
    shelves: &mut Shelves,
    settle: &S,
    budget: u32,
) -> Result<Option<Reason>, AllocError>
    requires fit { AreFit (reader reading.now) queries.now }
    requires limit { budget ≤ most_budget }
    requires empty { by.old ≡ [] }
    ensures stops { IfOk result (StopsAt (reader reading.now)
        (effort_in (S.orders settle.now) budget) shelves.old queries.now by.new) }
    ensures learns { Learns shelves.old shelves.new }
{
    for query in queries {
        let asked = Asking {
            policy: reading.policy,
            context: reading.context,
            trace: reading.trace,
            query,
        };
        let judgement = judge_told(alloc, &asked, shelves, settle, budget)?;
        match judgement {
            Judgement::Allowed(allowed) => by.push(allowed)?,
            Judgement::Blocked(reason) => return Ok(Some(reason)),
        }
    }
    Ok(None)
}
