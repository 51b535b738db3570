//! What requests were told, line by line.
ghost use Rattle.std.specs.Prelude.{◌≡◌, ◌≢◌, ◌<◌, ◌++◌, ◌∷◌, [], IfOk, List as Sequence, OnOk, Some, ℕ, length, slice_get, slice_set};
ghost use Rattle.std.specs.Option.{option_copied};
ghost use Rattle.ba_input.specs.declared.input.Input.{Input as Given};
ghost use Rattle.ba_lanes.specs.Legal.{answer_of, context_in};
ghost use Rattle.ba_lanes.specs.declared.journal.Entry.{Entry as EntryOf};
ghost use Rattle.ba_session.specs.Asking.{answer_in};
ghost use Rattle.ba_top.specs.Evidence.{AreAfter, trace_at};

use ba_comply::{Trace, TraceEntry};
use ba_lanes::Entry;
use ba_model::{Context, Duplicate, List, Query, Row, Shared};
use ba_script::ScriptEntry;
use ba_session::Reply;
use std::alloc::{AllocError, Global};

/// The contexts of the requests that began so far, in the order of their begin lines, and for each
/// request that was answered its trace, by its number. What was answered is held in common with the
/// journal.
#[derive(Drop)]
pub(crate) struct Requests {
    contexts: List<Context>,
    traces: Vec<Trace>,
    nothing: Trace,
}

// Adds the context of a begin line.
fn add_context(
    alloc: Global,
    contexts: &mut List<Context>,
    said: &ScriptEntry,
) -> Result<(), AllocError>
    ensures { OnOk result (contexts.new ≡ contexts.old ++ context_in said.now) }
{
    match said {
        ScriptEntry::Begin { context, .. } => contexts.push(context.copy(alloc)?),
        ScriptEntry::Ask { .. }
        | ScriptEntry::Read { .. }
        | ScriptEntry::End { .. }
        | ScriptEntry::Publish { .. } => Ok(()),
    }
}

// Adds empty traces until there is one for the request.
fn grow(alloc: Global, traces: &mut Vec<Trace>, request: u32) -> Result<(), AllocError>
    ensures same { OnOk result ((n : ℕ) → trace_at traces.new.items n ≡ trace_at traces.old.items n) }
    ensures there { OnOk result (request < length traces.new.items) }
{
    for _ in traces.len()..request as usize + 1 {
        traces.push(Trace::new(alloc))?;
    }
    Ok(())
}

// Adds an answer to the trace of the request, if it has one.
fn extend_at(traces: &mut Vec<Trace>, request: u32, it: TraceEntry) -> Result<(), AllocError>
    ensures { OnOk result (traces.new.items ≡ slice_set traces.old.items request
        (trace_at traces.old.items request ++ it ∷ [])) }
{
    if let Some(trace) = traces.get_mut(request as usize) {
        trace.push(it)?;
    }
    Ok(())
}

// Adds an answer to the trace of the request.
fn add_answer(
    alloc: Global,
    traces: &mut Vec<Trace>,
    request: u32,
    query: &Shared<Query>,
    rows: &Shared<List<Row>>,
) -> Result<(), AllocError>
    ensures others { OnOk result ((n : ℕ) → request ≢ n
        → trace_at traces.new.items n ≡ trace_at traces.old.items n) }
    ensures added { OnOk result (trace_at traces.new.items request
        ≡ trace_at traces.old.items request ++ record { query = query.now; rows = rows.now } ∷ []) }
{
    grow(alloc, traces, request)?;
    let query = query.copy(alloc)?;
    let rows = rows.copy(alloc)?;
    extend_at(traces, request, TraceEntry { query, rows })
}

// Adds what a reply answers to the trace of the request.
fn add_reply(
    alloc: Global,
    traces: &mut Vec<Trace>,
    request: u32,
    reply: &Reply,
) -> Result<(), AllocError>
    ensures others { OnOk result ((n : ℕ) → request ≢ n
        → trace_at traces.new.items n ≡ trace_at traces.old.items n) }
    ensures added { OnOk result (trace_at traces.new.items request
        ≡ trace_at traces.old.items request ++ answer_in reply.now) }
{
    match reply {
        Reply::Answer { query, rows, .. } => add_answer(alloc, traces, request, query, rows),
        Reply::Blocked { .. } | Reply::Unread(_) | Reply::NoMemory => Ok(()),
    }
}

// Adds what an entry answers its request.
fn add_entry(alloc: Global, traces: &mut Vec<Trace>, entry: &Entry) -> Result<(), AllocError>
    ensures { OnOk result ((n : ℕ) → trace_at traces.new.items n
        ≡ trace_at traces.old.items n ++ answer_of n entry.now) }
{
    match entry {
        Entry::Ask { request, reply, .. } => add_reply(alloc, traces, *request, reply),
        Entry::Begin { .. }
        | Entry::Read { .. }
        | Entry::End { .. }
        | Entry::Publish { .. }
        | Entry::Memory { .. } => Ok(()),
    }
}

impl Requests {
    /// Before the first line nothing is known.
    pub(crate) fn new(alloc: Global) -> Requests
        ensures { (input : Given) → AreAfter input [] result }
    {
        Requests {
            contexts: List::new(alloc),
            traces: Vec::new(alloc),
            nothing: Trace::new(alloc),
        }
    }

    /// The context of the request, if it began.
    pub(crate) fn context(&self, request: u32) -> Option<&Context>
        ensures { option_copied result ≡ slice_get self.now.contexts request }
    {
        self.contexts.find(request as usize)
    }

    /// The trace of the request.
    pub(crate) fn trace(&self, request: u32) -> &Trace
        requires { self.now.nothing ≡ [] }
        ensures { result.now ≡ trace_at self.now.traces.items request }
    {
        match self.traces.get(request as usize) {
            Some(trace) => trace,
            None => &self.nothing,
        }
    }

    /// Takes a line of the script in, with its entry. After an error, which is want of memory, what is
    /// known is good for nothing.
    pub(crate) fn follow(
        &mut self,
        alloc: Global,
        said: &ScriptEntry,
        entry: &Entry,
    ) -> Result<(), AllocError>
        ensures { OnOk result ((input : Given) (earlier : Sequence EntryOf)
            → slice_get input.script.entries (length earlier) ≡ Some said.now
            → AreAfter input earlier self.old
            → AreAfter input (earlier ++ entry.now ∷ []) self.new) }
    {
        add_context(alloc, &mut self.contexts, said)?;
        add_entry(alloc, &mut self.traces, entry)
    }
}
