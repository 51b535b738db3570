//! The machine.
ghost use Rattle.std.specs.Prelude.{◌≡◌, ◌≢◌, ◌↔◌, All, Contains, IfErr, IfOk, IfSome, IsTrue, OnErr, OnOk, Some, false, slice_get};
ghost use Rattle.std.specs.Option.{option_copied};
ghost use Rattle.ba_core.specs.Grounds.{Decides, IsAnswerIn, IsRefusal, Keeps};
ghost use Rattle.ba_core.specs.Runs.{AllowsCompliantly, EventFits, IsStep, TellsCompliantly};
ghost use Rattle.ba_core.specs.State.{IsOpenRequest, IsFirst, IsVersion, opened_at};
ghost use Rattle.ba_core.specs.Steps.{Reads, RefusesAsk, RefusesRead, Steps};
ghost use Rattle.ba_core.specs.declared.event.CoreReply.{CoreReply};
ghost use Rattle.ba_core.specs.declared.event.Event.{Event};
ghost use Rattle.ba_core.specs.declared.event.Ground.{Ground};
ghost use Rattle.ba_model.specs.Fit.{ContextFits, PolicyFits, kinds_of};
ghost use Rattle.ba_model.specs.Readings.{OfFault};

use crate::event::{Asked, CoreFault, CoreReply, Event, Ground};
use crate::ground::{all_fit, fits, has_template, have_templates};
use crate::opened::{Answered, Opened};
use crate::requests::{close, keep, put};
use ba_comply::Trace;
use ba_comply::laws::strong_complies;
use ba_eval::answer_indexed;
use ba_facts::number_of;
use ba_model::{Context, Failure, List, Policy, Query, Row, Shared};
use ba_tables::Tables;
use ba_template::Template;
use std::alloc::{AllocError, Global};
use std::collections::BTreeMap;
use std::marker::Model;

/// A policy, the versions of the tables, the templates that were admitted, the open requests, and the answers that were given.
///
/// The type keeps that the versions conform to the policy's schema, that each open request's context is one for the policy and
/// its version is there, and that its trace has its queries' answers in that version.
#[derive(Drop)]
pub struct Core {
    alloc: Global,
    policy: Shared<Policy>,
    versions: Vec<Tables>,
    templates: Vec<Shared<Template>>,
    requests: BTreeMap<u32, Opened>,
    log: Vec<Answered>,
}

impl Model for Core {
    ghost use Rattle.ba_core.specs.State.{IsState, State};

    ghost Value = { State };

    ghost view = { λ it. record {
      policy = it.policy;
      versions = it.versions.items;
      templates = it.templates.items;
      requests = it.requests.entries;
      log = it.log.items;
    } };

    ghost invariant = { λ it. IsState (record {
      policy = it.policy;
      versions = it.versions.items;
      templates = it.templates.items;
      requests = it.requests.entries;
      log = it.log.items;
    }) };
}

impl Core {
    /// The machine before any event: the tables are version 0, no template was admitted, no request is open, nothing was answered.
    /// The only error is want of memory; the policy and the tables are then dropped.
    pub fn new(alloc: Global, policy: Shared<Policy>, tables: Tables) -> Result<Core, AllocError>
        requires policy { PolicyFits policy }
        requires schema { tables.schema ≡ policy.schema }
        ensures { IfOk result (IsFirst policy tables) }
    {
        let mut versions = Vec::new(alloc);
        versions.push(tables)?;
        Ok(Core {
            alloc,
            policy,
            versions,
            templates: Vec::new(alloc),
            requests: BTreeMap::new(alloc),
            log: Vec::new(alloc),
        })
    }

    /// The policy, whose views are checked.
    pub fn policy(&self) -> &Shared<Policy>
        ensures is { result.now ≡ self.now.policy }
        ensures fits { PolicyFits result.now }
    {
        &self.policy
    }

    /// The templates that were admitted, by number.
    pub fn templates(&self) -> &[Shared<Template>]
        ensures { result.now ≡ self.now.templates }
    {
        self.templates.as_slice()
    }

    /// The open request of the number, if there is one.
    pub fn request(&self, k: u32) -> Option<&Opened>
        ensures is { option_copied result ≡ opened_at self.now k }
        ensures asker { IfSome result (λ it. IsOpenRequest self.now.policy self.now.versions it.now) }
    {
        self.requests.get(&k)
    }

    /// All answers that were given, the first one first.
    pub fn log(&self) -> &[Answered]
        ensures { result.now ≡ self.now.log }
    {
        self.log.as_slice()
    }

    /// Publishes tables of the policy's schema as the next version, and answers its number. Open requests keep theirs.
    ///
    /// The only error is want of memory, which also a number past 32 bits is told as; nothing has then changed, and the tables
    /// are dropped.
    pub fn publish(&mut self, tables: Tables) -> Result<u32, AllocError>
        requires { tables.schema ≡ self.old.policy.schema }
        ensures step { IfOk result (λ n.
            Steps self.old (Event.Publish tables) (CoreReply.Number n) self.new) }
        ensures err { OnErr result (self.new ≡ self.old) }
    {
        let number = number_of(self.versions.len())?;
        self.versions.push(tables)?;
        Ok(number)
    }

    /// Admits a template, which serves every question that it matches, and answers its number.
    ///
    /// The only error is want of memory, which also a number past 32 bits is told as; nothing has then changed, and the template
    /// is dropped.
    pub fn admit(&mut self, template: Shared<Template>) -> Result<u32, AllocError>
        ensures step { IfOk result (λ n.
            Steps self.old (Event.Admit template) (CoreReply.Number n) self.new) }
        ensures err { OnErr result (self.new ≡ self.old) }
    {
        let number = number_of(self.templates.len())?;
        self.templates.push(template)?;
        Ok(number)
    }

    /// Begins a request of the number on a version of the tables, which it keeps. Its trace is empty.
    ///
    /// Refused are, in this order, a number of an open request (`Taken`) and a version that isn't there (`NoVersion`). After any
    /// error, want of memory too, nothing has changed, and the context is dropped.
    pub fn begin(
        &mut self,
        k: u32,
        context: Context,
        version: u32,
    ) -> Result<(), Failure<CoreFault>>
        requires { ContextFits (kinds_of self.old.policy.params) context }
        ensures step { OnOk result (Steps self.old
            (Event.Begin k context version) CoreReply.Begun self.new) }
        ensures refused { IfErr result (λ e. OfFault e (λ fault. Steps self.old
            (Event.Begin k context version) (CoreReply.Refused fault) self.new)) }
        ensures err { OnErr result (self.new ≡ self.old) }
    {
        if self.requests.contains_key(&k) {
            return Err(Failure::Fault(CoreFault::Taken));
        }
        if version as usize >= self.versions.len() {
            return Err(Failure::Fault(CoreFault::NoVersion));
        }
        let trace = Trace::new(self.alloc);
        let asker = Opened {
            context,
            version,
            trace,
        };
        put(&mut self.requests, k, asker)?;
        Ok(())
    }

    /// What becomes of a question of the request: with the ground of an answer, its rows in the tables of the request's version,
    /// which join the request's trace and the log; with a refusal, a block, which changes nothing.
    ///
    /// Refused are, in this order, a request that isn't open (`NoRequest`), a ground that names a template that isn't there
    /// (`NoTemplate`), and one that isn't a ground for this question after this request's trace (`Unfit`), as a refusal of a covered
    /// query. After any error, want of memory too, nothing has changed.
    pub fn ask(
        &mut self,
        k: u32,
        query: Shared<Query>,
        why: Ground,
    ) -> Result<Asked, Failure<CoreFault>>
        ensures step { IfOk result (λ asked. Steps self.old
            (Event.Ask k query why) (CoreReply.Asked asked) self.new) }
        ensures refused { IfErr result (λ e. OfFault e (λ fault. Steps self.old
            (Event.Ask k query why) (CoreReply.Refused fault) self.new)) }
        ensures err { OnErr result (self.new ≡ self.old) }

        // An answer complies with the policy after what the request was told before.
        ensures compliant { IfOk result (TellsCompliantly self.old k query) }
    {
        let asked = self.decide(k, &query, &why)?;
        self.record(k, query, &asked)?;
        Ok(asked)
    }

    /// Whether the request may read what lies behind these queries, each with its ground: where no
    /// ground is a refusal. Nothing changes, since no rows are told: what is read is computed from
    /// the queries' answers alone, and each of the queries is compliant after the request's trace.
    ///
    /// Refused are, in this order, a request that isn't open (`NoRequest`), a ground that names a
    /// template that isn't there (`NoTemplate`), and grounds that aren't as many as the queries, or
    /// one that isn't a ground for its query after this request's trace (`Unfit`).
    pub fn read(
        &mut self,
        k: u32,
        queries: &[Shared<Query>],
        grounds: &[Ground],
    ) -> Result<bool, Failure<CoreFault>>
        ensures step { IfOk result (λ allowed. Steps self.old
            (Event.Read k queries.now grounds.now) (CoreReply.Read allowed) self.new) }
        ensures refused { IfErr result (λ e. OfFault e (λ fault. Steps self.old
            (Event.Read k queries.now grounds.now) (CoreReply.Refused fault) self.new)) }
        ensures same { self.new ≡ self.old }

        // Each query behind an allowed read complies with the policy after what the request was
        // told before.
        ensures compliant { IfOk result (AllowsCompliantly self.old k queries.now) }
    {
        self.decide_read(k, queries, grounds)
    }

    /// Ends the request. Its number may be begun again. A request that isn't open is refused (`NoRequest`), and nothing changes.
    pub fn end(&mut self, k: u32) -> Result<(), CoreFault>
        ensures step { OnOk result (Steps self.old (Event.End k) CoreReply.Ended self.new) }
        ensures refused { IfErr result (λ fault.
            Steps self.old (Event.End k) (CoreReply.Refused fault) self.new) }
    {
        match close(&mut self.requests, k) {
            Some(_) => Ok(()),
            None => Err(CoreFault::NoRequest),
        }
    }

    /// Takes the event, and answers with its reply. After want of memory nothing has changed, and the event is dropped.
    pub fn apply(&mut self, event: Event) -> Result<CoreReply, AllocError>
        requires { EventFits self.old.policy event }
        ensures step { IfOk result (λ reply. IsStep self.old event reply self.new) }
        ensures err { OnErr result (self.new ≡ self.old) }
    {
        match event {
            Event::Publish(tables) => {
                let number = self.publish(tables)?;
                Ok(CoreReply::Number(number))
            }
            Event::Begin(k, context, version) => match self.begin(k, context, version) {
                Ok(()) => Ok(CoreReply::Begun),
                Err(failure) => refused(failure),
            },
            Event::Ask(k, query, why) => match self.ask(k, query, why) {
                Ok(asked) => Ok(CoreReply::Asked(asked)),
                Err(failure) => refused(failure),
            },
            Event::Read(k, queries, grounds) => {
                match self.read(k, queries.as_slice(), grounds.as_slice()) {
                    Ok(allowed) => Ok(CoreReply::Read(allowed)),
                    Err(failure) => refused(failure),
                }
            }
            Event::Admit(template) => {
                let number = self.admit(template)?;
                Ok(CoreReply::Number(number))
            }
            Event::End(k) => match self.end(k) {
                Ok(()) => Ok(CoreReply::Ended),
                Err(fault) => Ok(CoreReply::Refused(fault)),
            },
        }
    }

    /// What becomes of the question, before it is recorded.
    fn decide(
        &self,
        k: u32,
        query: &Shared<Query>,
        why: &Ground,
    ) -> Result<Asked, Failure<CoreFault>>
        ensures decides { IfOk result (Decides self.now k query.now why.now) }
        ensures compliant { IfOk result (TellsCompliantly self.now k query.now) }
        ensures refused { IfErr result (λ e. OfFault e (RefusesAsk self.now k query.now why.now)) }
    {
        let Some(asker) = self.request(k) else {
            return Err(Failure::Fault(CoreFault::NoRequest));
        };
        if !has_template(self.templates(), why) {
            return Err(Failure::Fault(CoreFault::NoTemplate));
        }
        let fit = fits(
            self.alloc,
            self.policy(),
            self.templates(),
            asker,
            query,
            why,
        )?;
        if !fit {
            return Err(Failure::Fault(CoreFault::Unfit));
        }
        if is_refusal(why) {
            return Ok(Asked::Blocked);
        }
        strong_complies();
        let rows = self.rows_of(asker, query)?;
        Ok(Asked::Answer(rows))
    }

    /// Whether the request may read what lies behind the queries.
    fn decide_read(
        &self,
        k: u32,
        queries: &[Shared<Query>],
        grounds: &[Ground],
    ) -> Result<bool, Failure<CoreFault>>
        ensures reads { IfOk result (Reads self.now k queries.now grounds.now) }
        ensures compliant { IfOk result (AllowsCompliantly self.now k queries.now) }
        ensures refused { IfErr result (λ e. OfFault e
            (RefusesRead self.now k queries.now grounds.now)) }
    {
        let Some(asker) = self.request(k) else {
            return Err(Failure::Fault(CoreFault::NoRequest));
        };
        if !have_templates(self.templates(), grounds) {
            return Err(Failure::Fault(CoreFault::NoTemplate));
        }
        let fit = all_fit(
            self.alloc,
            self.policy(),
            self.templates(),
            asker,
            queries,
            grounds,
        )?;
        if !fit {
            return Err(Failure::Fault(CoreFault::Unfit));
        }
        strong_complies();
        let _pinned = self.tables_of(asker);
        Ok(allows(grounds))
    }

    /// The query's rows in the tables of the request's version.
    fn rows_of(&self, asker: &Opened, query: &Query) -> Result<Shared<List<Row>>, AllocError>
        requires { IsOpenRequest self.now.policy self.now.versions asker.now }
        ensures { IfOk result (IsAnswerIn self.now asker.now query.now) }
    {
        let tables = self.tables_of(asker);
        let rows = answer_indexed(self.alloc, tables.indexed(), &asker.context, query)?;
        Shared::new(self.alloc, rows)
    }

    /// The tables of the request's version.
    fn tables_of(&self, asker: &Opened) -> &Tables
        requires { IsOpenRequest self.now.policy self.now.versions asker.now }
        ensures pinned { slice_get self.now.versions asker.now.version ≡ Some result.now }
        ensures version { IsVersion self.now.policy result.now }
    {
        &self.versions[asker.version as usize]
    }

    /// Records what is told of the question: the rows of an answer join the request's trace and the log.
    fn record(&mut self, k: u32, query: Shared<Query>, asked: &Asked) -> Result<(), AllocError>
        requires { TellsCompliantly self.old k query asked.now }
        ensures ok { OnOk result (Keeps self.old k query asked.now self.new) }
        ensures err { OnErr result (self.new ≡ self.old) }
    {
        match asked {
            Asked::Answer(rows) => keep(
                self.alloc,
                &mut self.requests,
                &mut self.log,
                k,
                query,
                rows,
            ),
            Asked::Blocked => Ok(()),
        }
    }
}

fn is_refusal(why: &Ground) -> bool
    ensures { IsTrue result ↔ (why.now ≡ Ground.Refuse) }
{
    match why {
        Ground::Refuse => true,
        Ground::Cover(_) | Ground::Template(_, _) | Ground::Proof(_) => false,
    }
}

/// Whether no ground is a refusal.
fn allows(grounds: &[Ground]) -> bool
    ensures allowed { IsTrue result → All (λ why. why ≢ Ground.Refuse) grounds.now }
    ensures blocked { result ≡ false → Contains grounds.now Ground.Refuse }
{
    for why in grounds {
        if is_refusal(why) {
            return false;
        }
    }
    true
}

/// The reply to an event that failed, unless memory ran out.
fn refused(failure: Failure<CoreFault>) -> Result<CoreReply, AllocError>
    ensures { IfOk result (IsRefusal failure) }
{
    match failure {
        Failure::NoMemory => Err(AllocError),
        Failure::Fault(fault) => Ok(CoreReply::Refused(fault)),
    }
}
