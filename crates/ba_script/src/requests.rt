//! What is kept between the lines of a script: the requests that are open, and the numbers of what
//! is next.
ghost use Rattle.std.specs.Prelude.{◌≡◌, ◌<◌, ◌+◌, [], IfOk, None, Some, if◌then◌else◌, nat_lt, option_map};
ghost use Rattle.std.specs.Str.{bytes_eq};
ghost use Rattle.std.specs.BTreeMap.{get};
ghost use Rattle.std.specs.Cmp.Lexicographic.{slice_cmp};
ghost use Rattle.std.specs.Ordering.{nat_cmp};
ghost use Rattle.ba_model.specs.Readings.{Gives};
ghost use Rattle.ba_model.specs.Limits.{most_asks, most_lines};
ghost use Rattle.ba_script.specs.Contexts.{context_of};
ghost use Rattle.ba_script.specs.Reading.{arguments_at, ask_of, begin_of, context_at, end_of, key_from, key_read, read_of};
ghost use Rattle.ba_script.specs.Tracking.{Moves, Tracks, opened};

use crate::context::context_of;
use crate::entry::ScriptEntry;
use crate::fault::{LineFault, ScriptFault};
use crate::line::Member;
use ba_model::{
    CacheKey, Context, Counted, Duplicate, Failure, List, MAX_ASKS, MAX_REQUESTS, Parameter, Str,
};
use std::alloc::Global;
use std::collections::BTreeMap;

/// A request that is open under a name.
#[derive(Clone, Copy, Debug, PartialEq, Eq)]
pub(crate) struct Opened {
    /// Its number.
    pub(crate) request: u32,
    /// How many questions it asked.
    pub(crate) asks: u32,
}

/// The names that are open, how many requests were begun, and how many table sets published.
#[derive(Drop)]
pub(crate) struct Requests {
    pub(crate) names: BTreeMap<Str, Opened>,
    pub(crate) begun: u32,
    pub(crate) published: u32,
}

fn bad<T>(line: u64, reason: LineFault) -> Result<T, Failure<ScriptFault>>
    ensures { result ≡ Err (Failure.Fault (ScriptFault.BadLine line reason)) }
{
    Err(Failure::Fault(ScriptFault::BadLine { line, reason }))
}

fn too_many<T>(what: Counted, limit: u32) -> Result<T, Failure<ScriptFault>>
    ensures { result ≡ Err (Failure.Fault (ScriptFault.TooMany what limit)) }
{
    let limit = limit as u64;
    Err(Failure::Fault(ScriptFault::TooMany { what, limit }))
}

fn context_at(
    alloc: Global,
    params: &[Parameter],
    line: u64,
    members: &[Member],
) -> Result<Context, Failure<ScriptFault>>
    ensures { Gives result (context_at line (context_of params.now members.now)) }
{
    let found = context_of(alloc, params, members)?;
    match found {
        Some(context) => Ok(context),
        None => bad(line, LineFault::Context),
    }
}

fn is_called(key: &CacheKey, name: &Str) -> bool
    ensures { result ≡ bytes_eq key.now.name name.now }
{
    key.name.as_bytes() == name.as_bytes()
}

// The first key of the name, and its number.
fn key_named<'a>(keys: &'a [CacheKey], name: &Str) -> Option<(usize, &'a CacheKey)>
    ensures { option_map (λ found. (found.0, found.1.now)) result ≡ key_from 0 name.now keys.now }
{
    for number in 0..keys.len() {
        let key = &keys[number];
        if is_called(key, name) {
            return Some((number, key));
        }
    }
    None
}

fn arguments_at(
    alloc: Global,
    line: u64,
    key: &CacheKey,
    members: &[Member],
) -> Result<Context, Failure<ScriptFault>>
    ensures { Gives result (arguments_at line (context_of key.now.arguments members.now)) }
{
    let found = context_of(alloc, key.arguments.as_slice(), members)?;
    match found {
        Some(arguments) => Ok(arguments),
        None => bad(line, LineFault::Args),
    }
}

// So many questions, if the request may ask them.
fn questions_left(asks: u32, count: usize) -> Option<u32>
    ensures { result ≡ (if nat_lt most_asks (asks + count) then None else Some count) }
{
    let left = MAX_ASKS.checked_sub(asks)?;
    if count > left as usize {
        return None;
    }
    Some(count as u32)
}

impl Requests {
    pub(crate) fn new(alloc: Global) -> Requests
        ensures { Tracks [] result }
    {
        Requests {
            names: BTreeMap::new(alloc),
            begun: 0,
            published: 0,
        }
    }

    /// The request begins, where its name isn't open.
    #[tactic(auto, unfolding(crate::specs::Reading::begin_of))]
    pub(crate) fn begin(
        &mut self,
        alloc: Global,
        params: &[Parameter],
        line: u64,
        name: Str,
        members: &List<Member>,
    ) -> Result<ScriptEntry, Failure<ScriptFault>>
        ensures gives { Gives result
            (begin_of params.now line name members.now (opened self.old name) self.old.begun) }
        ensures moves { IfOk result (λ entry. Moves entry self.old self.new) }
    {
        if self.names.contains_key(&name) {
            return bad(line, LineFault::Begun);
        }
        let context = context_at(alloc, params, line, members.as_slice())?;
        if self.begun >= MAX_REQUESTS {
            return too_many(Counted::Requests, MAX_REQUESTS);
        }
        let request = self.begun;
        let opened = Opened { request, asks: 0 };
        self.names.insert(name.copy(alloc)?, opened)?;
        self.begun += 1;
        Ok(ScriptEntry::Begin {
            request,
            name,
            context,
        })
    }

    /// The request asks, where it is open.
    #[tactic(auto, unfolding(crate::specs::Reading::ask_of))]
    pub(crate) fn ask(
        &mut self,
        line: u64,
        name: Str,
        query: Str,
    ) -> Result<ScriptEntry, Failure<ScriptFault>>
        ensures gives { Gives result (ask_of line name query (opened self.old name)) }
        ensures moves { IfOk result (λ entry. Moves entry self.old self.new) }
    {
        let Some(opened) = self.names.get_mut(&name) else {
            return bad(line, LineFault::Unbegun);
        };
        if opened.asks >= MAX_ASKS {
            return too_many(Counted::Asks, MAX_ASKS);
        }
        opened.asks += 1;
        let request = opened.request;
        Ok(ScriptEntry::Ask {
            request,
            name,
            query,
        })
    }

    /// The request reads a key, where it is open. The number of its questions grows by the key's
    /// queries.
    #[tactic(auto, unfolding(crate::specs::Reading::read_of, crate::specs::Reading::key_read))]
    pub(crate) fn read(
        &mut self,
        alloc: Global,
        keys: &[CacheKey],
        line: u64,
        name: Str,
        key: &Str,
        members: &List<Member>,
    ) -> Result<ScriptEntry, Failure<ScriptFault>>
        ensures gives { Gives result
            (read_of keys.now line name key.now members.now (opened self.old name)) }
        ensures moves { IfOk result (λ entry. Moves entry self.old self.new) }
    {
        let Some(opened) = self.names.get_mut(&name) else {
            return bad(line, LineFault::Unbegun);
        };
        let Some((number, found)) = key_named(keys, key) else {
            return bad(line, LineFault::Key);
        };
        let arguments = arguments_at(alloc, line, found, members.as_slice())?;
        let Some(questions) = questions_left(opened.asks, found.queries.len()) else {
            return too_many(Counted::Asks, MAX_ASKS);
        };
        opened.asks += questions;
        let request = opened.request;
        Ok(ScriptEntry::Read {
            request,
            name,
            key: number,
            arguments,
            questions,
        })
    }

    /// The request ends, where it is open.
    #[tactic(auto, unfolding(crate::specs::Reading::end_of))]
    pub(crate) fn end(&mut self, line: u64, name: Str) -> Result<ScriptEntry, Failure<ScriptFault>>
        ensures gives { Gives result (end_of line name (opened self.old name)) }
        ensures moves { IfOk result (λ entry. Moves entry self.old self.new) }
    {
        match self.names.remove(&name) {
            Some(opened) => Ok(ScriptEntry::End {
                request: opened.request,
                name,
            }),
            None => bad(line, LineFault::Unbegun),
        }
    }

    /// The table set is published, whatever is open.
    pub(crate) fn publish(&mut self, set: Str) -> ScriptEntry
        requires room { self.old.published < most_lines }
        ensures number { result ≡ ScriptEntry.Publish self.old.published set }
        ensures moves { Moves result self.old self.new }
    {
        let number = self.published;
        self.published += 1;
        ScriptEntry::Publish { number, set }
    }
}
