//! A lane: the lines of a script that one worker serves, one after another.

ghost use Rattle.std.specs.Prelude.{◌≡◌, ℕ, ◌+◌, ◌<◌, ◌≤◌, List, [], IfOk, None, Some, length, vec_capacity};
ghost use Rattle.ba_input.specs.Inputs.{IsInput};
ghost use Rattle.ba_script.specs.declared.entry.ScriptEntry.TheVariants as line;
ghost use Rattle.ba_session.specs.Passing.{AreOf};
ghost use Rattle.ba_lanes.specs.Legal.{asked, context_in, contexts_of, no_calls, read_as};
ghost use Rattle.ba_lanes.specs.declared.journal.Entry.TheVariants as entry;
ghost use Rattle.ba_lanes.specs.Serving.{CanServe, CanTake, EndsOrLost, HasServed, PassesOver, Takes, lines_in};

use crate::journal::{Entry, LineKind};
use crate::share::lane_of;
use ba_input::Input;
use ba_model::{Context, Duplicate, Str};
use ba_outside::Gate;
use ba_script::ScriptEntry;
use ba_session::{KeyReply, Passes, Reply, Request, Service};
use ba_settle::Settle;
use std::alloc::{AllocError, Global};
use std::sync::Wait;

/// What a worker has: its passes, the requests that it began, by their numbers, and the entries of
/// the lines that it served. A request that found no memory when it began has an empty place, and
/// so have those of other lanes.
#[derive(Drop)]
pub(crate) struct Lane {
    pub(crate) passes: Passes,
    pub(crate) requests: Vec<Option<Request>>,
    pub(crate) entries: Vec<Entry>,
}

/// The entry of a question of the request, over its version, with this reply.
fn asked(request: u32, version: u32, reply: Reply) -> Entry
    ensures { result ≡ asked request version reply }
{
    match reply {
        Reply::NoMemory => Entry::Memory {
            kind: LineKind::Ask,
            request: Some(request),
            version: Some(version),
        },
        reply => Entry::Ask {
            request,
            version,
            reply,
        },
    }
}

/// The entry of a read by the request, over its version, of the key with this number, with this
/// reply.
fn read_as(request: u32, version: u32, key: usize, reply: KeyReply) -> Entry
    ensures { result ≡ read_as request version key reply }
{
    match reply {
        KeyReply::NoMemory => Entry::Memory {
            kind: LineKind::Read,
            request: Some(request),
            version: Some(version),
        },
        reply => Entry::Read {
            request,
            version,
            key,
            reply,
        },
    }
}

/// The entry of a line of a request that found no memory when it began.
fn unserved(kind: LineKind, request: u32) -> Entry
    ensures { result ≡ entry.Memory kind (Some request) None }
{
    Entry::Memory {
        kind,
        request: Some(request),
        version: None,
    }
}

impl Lane {
    /// A lane that has served nothing, with room for so many requests of the script and lines of its
    /// own.
    pub(crate) fn new(
        alloc: Global,
        passes: Passes,
        requests: usize,
        lines: usize,
    ) -> Result<Lane, AllocError>
        ensures passes { IfOk result (λ it. it.passes ≡ passes) }
        ensures requests { IfOk result (λ it.
            (it.requests.items ≡ []) × (requests ≤ vec_capacity it.requests)) }
        ensures entries { IfOk result (λ it.
            (it.entries.items ≡ []) × (lines ≤ vec_capacity it.entries)) }
    {
        let requests = Vec::with_capacity(alloc, requests)?;
        let entries = Vec::with_capacity(alloc, lines)?;
        Ok(Lane {
            passes,
            requests,
            entries,
        })
    }

    /// The request begins over the last version.
    fn begin<R: Wait>(
        &mut self,
        rt: &R,
        alloc: Global,
        input: &Input,
        service: &Service,
        number: u32,
        context: &Context,
    ) -> Entry
        requires input { IsInput input.now }
        requires policy { service.now.policy ≡ input.now.policy }
        requires can { (name : List ℕ) →
            CanTake input.now service.now (line.Begin number name context.now) self.old }
        ensures { (name : List ℕ) →
            Takes input.now service.now (line.Begin number name context.now) result self.old
            self.new }
    {
        let Ok(context) = context.copy(alloc) else {
            self.requests.push_reserved(None);
            return unserved(LineKind::Begin, number);
        };
        match Request::begin(rt, alloc, service, &mut self.passes, context) {
            Ok(asker) => {
                let version = asker.version;
                self.requests.push_reserved(Some(asker));
                Entry::Begin {
                    request: number,
                    version,
                }
            }
            Err(_) => {
                self.requests.push_reserved(None);
                unserved(LineKind::Begin, number)
            }
        }
    }

    /// The request asks.
    fn ask<R: Wait, S: Settle>(
        &mut self,
        rt: &R,
        alloc: Global,
        input: &Input,
        service: &Service,
        settle: &S,
        number: u32,
        text: &Str,
    ) -> Entry
        requires input { IsInput input.now }
        requires policy { service.now.policy ≡ input.now.policy }
        requires orders { S.orders settle.now ≡ input.now.orders }
        requires can { (name : List ℕ) →
            CanTake input.now service.now (line.Ask number name text.now) self.old }
        ensures { (name : List ℕ) →
            Takes input.now service.now (line.Ask number name text.now) result self.old self.new }
    {
        match &mut self.requests[number as usize] {
            Some(asker) => {
                let reply = asker.ask(
                    rt,
                    alloc,
                    service,
                    &mut self.passes,
                    settle,
                    input.budget,
                    text.as_str(),
                );
                asked(number, asker.version, reply)
            }
            None => unserved(LineKind::Ask, number),
        }
    }

    /// The request reads the policy's cache key with this number.
    fn read<R: Wait, S: Settle>(
        &mut self,
        rt: &R,
        alloc: Global,
        input: &Input,
        service: &Service,
        settle: &S,
        request: u32,
        key: usize,
        arguments: &Context,
    ) -> Entry
        requires input { IsInput input.now }
        requires policy { service.now.policy ≡ input.now.policy }
        requires orders { S.orders settle.now ≡ input.now.orders }
        requires can { (name : List ℕ) → (questions : ℕ) × CanTake input.now service.now
            (line.Read request name key arguments.now questions) self.old }
        ensures { (name : List ℕ) (questions : ℕ) → Takes input.now service.now
            (line.Read request name key arguments.now questions) result self.old self.new }
    {
        let budget = input.budget;
        let cache_key = input.policy.keys.get(key);
        match &mut self.requests[request as usize] {
            Some(asker) => {
                let reply = asker.read(
                    rt,
                    alloc,
                    service,
                    &mut self.passes,
                    settle,
                    budget,
                    cache_key,
                    arguments,
                );
                read_as(request, asker.version, key, reply)
            }
            None => unserved(LineKind::Read, request),
        }
    }

    /// The request ends.
    fn end(&self, number: u32) -> Entry
        requires known { number < length self.now.requests.items }
        ensures { EndsOrLost self.now.requests.items number
            (record { entry = result; made = no_calls }) }
    {
        match &self.requests[number as usize] {
            Some(asker) => Entry::End {
                request: number,
                version: asker.version,
            },
            None => unserved(LineKind::End, number),
        }
    }

    /// The table set becomes the last version.
    fn publish<R: Wait>(
        &mut self,
        rt: &R,
        alloc: Global,
        input: &Input,
        service: &Service,
        number: u32,
    ) -> Entry
        requires input { IsInput input.now }
        requires policy { service.now.policy ≡ input.now.policy }
        requires can { (name : List ℕ) →
            CanTake input.now service.now (line.Publish number name) self.old }
        ensures { (name : List ℕ) →
            Takes input.now service.now (line.Publish number name) result self.old self.new }
    {
        match input.published.get(number as usize).copy(alloc) {
            Ok(tables) => Entry::Publish {
                version: service.publish(rt, &mut self.passes, tables),
            },
            Err(_) => Entry::Memory {
                kind: LineKind::Publish,
                request: None,
                version: None,
            },
        }
    }

    /// The entry of a line.
    fn line<R: Wait, S: Settle>(
        &mut self,
        rt: &R,
        alloc: Global,
        input: &Input,
        service: &Service,
        settle: &S,
        said: &ScriptEntry,
    ) -> Entry
        requires input { IsInput input.now }
        requires policy { service.now.policy ≡ input.now.policy }
        requires orders { S.orders settle.now ≡ input.now.orders }
        requires can { CanTake input.now service.now said.now self.old }
        ensures { Takes input.now service.now said.now result self.old self.new }
    {
        match said {
            ScriptEntry::Begin {
                request,
                context,
                ..
            } => self.begin(rt, alloc, input, service, *request, context),
            ScriptEntry::Ask { request, query, .. } => {
                self.ask(rt, alloc, input, service, settle, *request, query)
            }
            ScriptEntry::Read {
                request,
                key,
                arguments,
                ..
            } => self.read(rt, alloc, input, service, settle, *request, *key, arguments),
            ScriptEntry::End { request, .. } => self.end(*request),
            ScriptEntry::Publish { number, .. } => {
                self.publish(rt, alloc, input, service, *number)
            }
        }
    }

    // Leaves a line to its own lane; a request that begins there has an empty place here.
    fn pass_over(&mut self, said: &ScriptEntry)
        requires room { length self.old.requests.items + length (context_in said.now)
            ≤ vec_capacity self.old.requests }
        ensures { PassesOver said.now self.old self.new }
    {
        if let ScriptEntry::Begin { .. } = said {
            self.requests.push_reserved(None);
        }
    }

    /// Serves the lines of the lane `number` among those of the script, in order.
    pub(crate) fn serve<R: Wait, S: Settle, G: Gate>(
        &mut self,
        rt: &R,
        alloc: Global,
        input: &Input,
        service: &Service,
        settle: &S,
        number: u32,
        gate: &G,
    )
        requires input { IsInput input.now }
        requires policy { service.now.policy ≡ input.now.policy }
        requires orders { S.orders settle.now ≡ input.now.orders }
        requires of { AreOf service.now self.old.passes }
        requires can { CanServe (lines_in input.now number input.now.script.entries)
            self.old.passes }
        requires requests { (self.old.requests.items ≡ []) ×
            (length (contexts_of input.now.script.entries) ≤ vec_capacity self.old.requests) }
        requires entries { (self.old.entries.items ≡ []) ×
            (length (lines_in input.now number input.now.script.entries)
            ≤ vec_capacity self.old.entries) }
        ensures { HasServed input.now service.now self.old.passes number input.now.script.entries
            self.new }
    {
        let mut point = 0u32;
        for said in input.script.entries.as_slice() {
            if lane_of(input.workers, said) == number {
                gate.pass(number, point);
                point = point.saturating_add(1);
                let entry = self.line(rt, alloc, input, service, settle, said);
                self.entries.push_reserved(entry);
            } else {
                self.pass_over(said);
            }
        }
    }
}
