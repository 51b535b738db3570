//! What becomes of an event.
ghost use Rattle.std.specs.Prelude.{◌≡◌, ◌+◌, ℕ, IfOk, OnErr};
ghost use Rattle.ba_judge.specs.Judging.{effort_in};
ghost use Rattle.ba_judge.specs.Shelves.{Learns};
ghost use Rattle.ba_live.specs.Books.{LeavesAll};
ghost use Rattle.ba_live.specs.Steps.{Decides, DecidesBegin, DecidesEnd, DecidesTold, LacksTold, Stays};
ghost use Rattle.ba_live.specs.Wellformed.{IsLive, IsSound};

use crate::contradict::finds_contradiction;
use crate::decision::{Decision, Refusal};
use crate::live::{Live, MAX_OPEN, MAX_TOLD_ROWS};
use crate::open::Open;
use ba_event::Event;
use ba_model::{Failure, List, Row, Str};
use ba_script::{Member, context_of};
use ba_settle::Settle;
use ba_told::entries_of;
use std::alloc::{AllocError, Global};

pub(crate) fn refused(reason: Refusal) -> Decision
    ensures { result ≡ Decision.Refused reason }
{
    Decision::Refused(reason)
}

impl Live {
    /// The decision on the event of the line of this number, as the definition has it
    /// (`specs/Steps.antt`), and what it leaves.
    ///
    /// - A request begins where its name is free, its context is one of the policy, and fewer than
    ///   [`MAX_OPEN`] are open.
    /// - A question is judged after what its request was told, and no question changes that. An
    ///   allowed one may be told, once. Of one part the first template that matches of those on the
    ///   shelves allows it, before any search; of several each part in the same way, and the whole
    ///   only where a part is blocked.
    /// - Of a cache key each query is judged so, in order, up to the first that is blocked. Each
    ///   counts as a question.
    /// - Told rows join what the request of their question was told, and of no other request. Where
    ///   they are found to contradict it, or each other, they don't, and the request is closed: from
    ///   then on it can only end. So it is where a search finds a proof of a question, and another
    ///   shows that what was told alone can be in no database.
    /// - The end of a request forgets all that is kept of it.
    ///
    /// On the shelves shapes come to the front, and templates of proofs are added; none is lost but
    /// for one that comes. Else what is refused changes nothing, and what finds no memory changes
    /// nothing, but that told rows may have been recorded in part; their question may then be told
    /// again.
    pub fn step<S: Settle>(
        &mut self,
        alloc: Global,
        settle: &S,
        line: u64,
        event: Event,
    ) -> Decision
        requires live { IsLive line self.old }
        ensures decides { Decides (effort_in (S.orders settle.now) self.old.budget) line event
            result self.old self.new }
        ensures same { Stays self.old self.new }
        ensures learns { Learns self.old.shelves self.new.shelves }
        ensures live { IsLive (line + 1) self.new }
    {
        let decided = match event {
            Event::Begin { name, context } => self.begin(alloc, name, &context),
            Event::Ask { name, query } => self.ask(alloc, settle, line, &name, &query),
            Event::Read { name, key, args } => self.read(alloc, settle, &name, &key, &args),
            Event::Told { line, rows } => self.told(alloc, settle, line, rows),
            Event::End { name } => Ok(self.end(&name)),
        };
        match decided {
            Ok(decision) => decision,
            Err(_) => Decision::Memory,
        }
    }

    // The request is open, with this context.
    fn begin(
        &mut self,
        alloc: Global,
        name: Str,
        members: &List<Member>,
    ) -> Result<Decision, AllocError>
        requires sound { IsSound self.old }
        ensures decides { IfOk result (λ it. DecidesBegin name members.now it self.old self.new) }
        ensures err { OnErr result (LeavesAll self.old self.new) }
        ensures same { Stays self.old self.new }
        ensures shelves { self.new.shelves ≡ self.old.shelves }
        ensures live { (next : ℕ) → IsLive next self.old → IsLive next self.new }
    {
        if self.requests.has(&name) {
            return Ok(refused(Refusal::Begun));
        }
        let params = self.policy.params.as_slice();
        let found = context_of(alloc, params, members.as_slice())?;
        let Some(context) = found else {
            return Ok(refused(Refusal::Context));
        };
        if self.requests.len() >= MAX_OPEN {
            return Ok(refused(Refusal::Requests));
        }
        self.requests.open(name, Open::new(alloc, context))?;
        Ok(Decision::Begun)
    }

    // The rows of the allowed question of this line join its request's trace, unless they are found
    // to contradict it.
    fn told<S: Settle>(
        &mut self,
        alloc: Global,
        settle: &S,
        line: u64,
        rows: List<Row>,
    ) -> Result<Decision, AllocError>
        requires sound { IsSound self.old }
        ensures decides { IfOk result (λ it. DecidesTold
            (effort_in (S.orders settle.now) self.old.budget) line rows it self.old self.new) }
        ensures err { OnErr result (LacksTold line rows self.old self.new) }
        ensures same { Stays self.old self.new }
        ensures shelves { self.new.shelves ≡ self.old.shelves }
        ensures live { (next : ℕ) → IsLive next self.old → IsLive next self.new }
    {
        let Some(asked) = self.questions.get(line) else {
            return Ok(refused(Refusal::Unasked));
        };
        let Some(open) = self.requests.get(&asked.name) else {
            return Ok(refused(Refusal::Unasked));
        };
        if open.closed {
            return Ok(refused(Refusal::Closed));
        }
        if rows.len() > MAX_TOLD_ROWS {
            return Ok(refused(Refusal::Rows));
        }
        let schema = &self.policy.schema;
        let entries = match entries_of(alloc, schema, &open.context, &asked.query, rows) {
            Ok(entries) => entries,
            Err(Failure::Fault(_)) => return Ok(refused(Refusal::Misfit)),
            Err(Failure::NoMemory) => return Err(AllocError),
        };
        let found = finds_contradiction(
            alloc,
            &self.policy,
            open,
            entries.as_slice(),
            settle,
            self.budget,
        )?;
        if found {
            self.requests.shut(&asked.name);
            return Ok(Decision::Contradiction);
        }
        self.requests.record(&asked.name, line, entries)?;
        self.questions.forget(line);
        Ok(Decision::Told)
    }

    // The request is gone, and its questions may not be told any more.
    fn end(&mut self, name: &Str) -> Decision
        requires sound { IsSound self.old }
        ensures decides { DecidesEnd name.now result self.old self.new }
        ensures same { Stays self.old self.new }
        ensures shelves { self.new.shelves ≡ self.old.shelves }
        ensures live { (next : ℕ) → IsLive next self.old → IsLive next self.new }
    {
        match self.requests.close(name) {
            Some(open) => {
                self.questions.forget_all(open.lines.as_slice());
                Decision::Ended
            }
            None => refused(Refusal::Unbegun),
        }
    }
}
