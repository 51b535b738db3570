//! Whether what a request was told contradicts itself.
ghost use Rattle.std.specs.Prelude.{◌≡◌, ◌≤◌, ◌++◌, IfOk, is_some, length};
ghost use Rattle.ba_contradict.specs.Contradictions.{ToldFits};
ghost use Rattle.ba_judge.specs.Judging.{effort_in};
ghost use Rattle.ba_live.specs.Contradicting.{Finds, room_after, room_behind};
ghost use Rattle.ba_live.specs.Limits.{most_searched_rows};
ghost use Rattle.ba_model.specs.Limits.{most_budget};

use crate::open::Open;
use ba_clash::clashes;
use ba_comply::{Trace, TraceEntry};
use ba_contradict::contradiction;
use ba_model::{Duplicate, Policy, Shared};
use ba_settle::Settle;
use std::alloc::{AllocError, Global};

/// Rows that a request was told in all, up to which they are searched for a contradiction as soon as
/// they are told.
pub const MAX_SEARCHED_ROWS: usize = 16;

/// Due steps of that search at most, where the budget isn't less.
pub const MAX_SEARCHED_STEPS: u32 = 128;

// What is left of this room behind the rows of the entry, if they have room.
fn room_behind(entry: &TraceEntry, room: usize) -> Option<usize>
    ensures { result ≡ room_behind room (length entry.now.rows) }
{
    let rows = entry.rows.len();
    if rows <= room {
        return Some(room - rows);
    }
    None
}

// The same behind the rows of all entries.
fn room_after(entries: &[TraceEntry], room: usize) -> Option<usize>
    ensures { result ≡ room_after room entries.now }
{
    let mut left = room;
    for entry in entries {
        match room_behind(entry, left) {
            Some(room) => left = room,
            None => return None,
        }
    }
    Some(left)
}

fn room_after_trace(trace: &Trace, room: usize) -> Option<usize>
    ensures { result ≡ room_after room trace.now }
{
    let mut left = room;
    for i in 0..trace.len() {
        match room_behind(trace.entry(i), left) {
            Some(room) => left = room,
            None => return None,
        }
    }
    Some(left)
}

// Whether the rows of both are few enough to be searched.
fn are_few(trace: &Trace, entries: &[TraceEntry]) -> bool
    ensures { result ≡ is_some (room_after most_searched_rows (trace.now ++ entries.now)) }
{
    match room_after_trace(trace, MAX_SEARCHED_ROWS) {
        Some(room) => room_after(entries, room).is_some(),
        None => false,
    }
}

fn copy_of(alloc: Global, entry: &TraceEntry) -> Result<TraceEntry, AllocError>
    ensures { IfOk result (λ it. it ≡ entry.now) }
{
    let query = entry.query.copy(alloc)?;
    let rows = entry.rows.copy(alloc)?;
    Ok(TraceEntry { query, rows })
}

// The trace, with the entries behind it; queries and rows are shared.
fn joined(alloc: Global, trace: &Trace, entries: &[TraceEntry]) -> Result<Trace, AllocError>
    ensures { IfOk result (λ it. it ≡ trace.now ++ entries.now) }
{
    let mut all = Trace::new(alloc);
    for i in 0..trace.len() {
        let entry = copy_of(alloc, trace.entry(i))?;
        all.push(entry)?;
    }
    for entry in entries {
        let entry = copy_of(alloc, entry)?;
        all.push(entry)?;
    }
    Ok(all)
}

/// Whether the entries and what the request was told before can be in no database, as far as is
/// looked for: where two rows are one by a key and differ; or where the rows are at most
/// [`MAX_SEARCHED_ROWS`] in all, and a search over them alone closes by at most
/// [`MAX_SEARCHED_STEPS`] due steps. The error is want of memory.
pub(crate) fn finds_contradiction<S: Settle>(
    alloc: Global,
    policy: &Shared<Policy>,
    asker: &Open,
    entries: &[TraceEntry],
    settle: &S,
    budget: u32,
) -> Result<bool, AllocError>
    requires fits { ToldFits policy.now asker.now.context (asker.now.trace ++ entries.now) }
    requires limit { budget ≤ most_budget }
    ensures { IfOk result (Finds policy.now (effort_in (S.orders settle.now) budget)
        asker.now.context asker.now.trace entries.now) }
{
    if clashes(&policy.schema, &asker.context, &asker.trace, entries) {
        return Ok(true);
    }
    if !are_few(&asker.trace, entries) {
        return Ok(false);
    }
    let told = joined(alloc, &asker.trace, entries)?;
    let steps = budget.min(MAX_SEARCHED_STEPS);
    let found = contradiction(alloc, policy, &asker.context, &told, settle, steps)?;
    Ok(found.is_some())
}
