//! The lines of decisions that tell their evidence.
ghost use Rattle.std.specs.Prelude.{◌≡◌, [], IfOk, OnOk, map, string_bytes};
ghost use Rattle.ba_evidence.specs.Evidence.{evidence};
ghost use Rattle.ba_judge.specs.Judging.{part_of, seen};
ghost use Rattle.ba_kernel.specs.Drafts.{IsChecked};
ghost use Rattle.ba_live.specs.Steps.{question_in};
ghost use Rattle.ba_live.specs.Wellformed.{IsSound};
ghost use Rattle.ba_decide.specs.Evident.{AddsBased, AreEvidence, HoldsBased, IsEvidence, IsEvident, IsInstance, TellsAllowed, TellsBasis, TellsBlocked, TellsKeyBlocked, TellsKeyed, TellsNamed, TellsRead, TellsReadable, TellsWeaker, told_evidence};

use crate::answer::{answer_text, by_of, keyed_text, last_in, named_text, needed};
use ba_evidence::{
    Ground, Grounds, ReadGrounds, allowed_line, allowed_read_line, pair_line, pair_read_line,
    weaker_line,
};
use ba_judge::{Allowed, Asking, By, Read, Reason};
use ba_kernel::Step;
use ba_kernel::laws::checked_links_fit;
use ba_live::{Decision, Live, Open, Subject};
use ba_match::{closes_question, instance};
use ba_model::{List, Parameter, Part, Query, Shared, Str};
use ba_template::{Match, Template};
use ba_told::alone;
use ba_weaker::weakened;
use std::alloc::{AllocError, Global};

/// A ground as it is told: of a template with the steps of its instance.
#[derive(Drop)]
pub(crate) struct Told<'a> {
    pub(crate) ground: &'a By,
    pub(crate) steps: List<Step>,
}

impl<'a> Told<'a> {
    fn ground(&self) -> Ground<'_>
        ensures { evidence result ≡ told_evidence self.now }
    {
        match self.ground {
            By::Cover(cover) => Ground::Cover(cover),
            By::Template { .. } => Ground::Template(&self.steps),
            By::Proof(steps) => Ground::Proof(steps),
        }
    }
}

// The steps of the template's instance, where they are found to close the question's problem.
fn instance_steps(
    alloc: Global,
    asking: &Asking<'_>,
    template: &Template,
    found: &Match,
) -> Result<List<Step>, AllocError>
    requires checked { IsChecked (seen asking.now).policy }
    ensures { IfOk result (IsInstance (seen asking.now) template.now found.now) }
{
    let closes = closes_question(
        alloc,
        template,
        found,
        asking.policy,
        asking.context,
        asking.trace,
        asking.query,
    )?;
    if !closes {
        return Err(AllocError);
    }
    instance(alloc, template, found, asking.trace)
}

fn told_of<'a>(alloc: Global, asking: &Asking<'_>, ground: &'a By) -> Result<Told<'a>, AllocError>
    requires checked { IsChecked (seen asking.now).policy }
    ensures { IfOk result (λ it. IsEvidence (seen asking.now) ground.now (told_evidence it)) }
{
    match ground {
        By::Template { template, found } => {
            let steps = instance_steps(alloc, asking, template, found)?;
            Ok(Told { ground, steps })
        }
        By::Cover(_) | By::Proof(_) => {
            let steps = List::new(alloc);
            Ok(Told { ground, steps })
        }
    }
}

// Of a part, as a question of its own.
fn part_told<'a>(
    alloc: Global,
    asking: &Asking<'_>,
    part: &Part,
    ground: &'a By,
) -> Result<Told<'a>, AllocError>
    requires checked { IsChecked (seen asking.now).policy }
    ensures { IfOk result (λ it.
        IsEvidence (part_of (seen asking.now) part.now) ground.now (told_evidence it)) }
{
    let query = Shared::new(alloc, alone(alloc, part)?)?;
    let own = Asking {
        policy: asking.policy,
        context: asking.context,
        trace: asking.trace,
        query: &query,
    };
    told_of(alloc, &own, ground)
}

// Of each part.
fn parts_told<'a>(
    alloc: Global,
    asking: &Asking<'_>,
    parts: &[Part],
    grounds: &'a [By],
) -> Result<Vec<Told<'a>>, AllocError>
    requires checked { IsChecked (seen asking.now).policy }
    ensures { IfOk result (λ all.
        AreEvidence (seen asking.now) parts.now grounds.now (map told_evidence all.items)) }
{
    if parts.len() != grounds.len() {
        return Err(AllocError);
    }
    let mut all = Vec::new(alloc);
    for i in 0..parts.len() {
        let told = part_told(alloc, asking, &parts[i], &grounds[i])?;
        all.push(told)?;
    }
    Ok(all)
}

fn grounds_of<'a>(alloc: Global, all: &'a [Told<'a>]) -> Result<Vec<Ground<'a>>, AllocError>
    ensures { IfOk result (λ its. map evidence its.items ≡ map told_evidence all.now) }
{
    let mut its = Vec::new(alloc);
    for told in all {
        its.push(told.ground())?;
    }
    Ok(its)
}

// The line of a question that is allowed as a whole after the weaker trace.
fn weaker_whole_text(
    alloc: Global,
    params: &[Parameter],
    asking: &Asking<'_>,
    line: u64,
    name: &Str,
    ground: &By,
    send: &Str,
) -> Result<String, AllocError>
    requires checked { IsChecked (seen asking.now).policy }
    ensures { IfOk result (λ text. TellsWeaker params.now (seen asking.now) line name.now
        (Allowed.Whole ground.now) send.now (string_bytes text)) }
{
    let weaker = weakened(alloc, asking.trace)?;
    let Some(trace) = weaker else {
        return Err(AllocError);
    };
    let own = Asking {
        policy: asking.policy,
        context: asking.context,
        trace: &trace,
        query: asking.query,
    };
    let by = by_of(ground);
    let told = told_of(alloc, &own, ground)?;
    let ground = told.ground();
    weaker_line(
        alloc,
        params,
        by,
        &Grounds::Whole(&ground),
        line,
        name,
        send,
    )
}

// The line of one whose parts are.
fn weaker_parts_text(
    alloc: Global,
    params: &[Parameter],
    asking: &Asking<'_>,
    line: u64,
    name: &Str,
    grounds: &List<By>,
    send: &Str,
) -> Result<String, AllocError>
    requires checked { IsChecked (seen asking.now).policy }
    ensures { IfOk result (λ text. TellsWeaker params.now (seen asking.now) line name.now
        (Allowed.Parts grounds.now) send.now (string_bytes text)) }
{
    let weaker = weakened(alloc, asking.trace)?;
    let Some(trace) = weaker else {
        return Err(AllocError);
    };
    let own = Asking {
        policy: asking.policy,
        context: asking.context,
        trace: &trace,
        query: asking.query,
    };
    let by = last_in(grounds.as_slice());
    let parts = asking.query.parts.as_slice();
    let all = parts_told(alloc, &own, parts, grounds.as_slice())?;
    let its = grounds_of(alloc, all.as_slice())?;
    weaker_line(
        alloc,
        params,
        by,
        &Grounds::Parts(its.as_slice()),
        line,
        name,
        send,
    )
}

// The line of an allowed question.
fn basis_text(
    alloc: Global,
    params: &[Parameter],
    asking: &Asking<'_>,
    line: u64,
    name: &Str,
    allowed: &Allowed,
    send: &Str,
) -> Result<String, AllocError>
    requires checked { IsChecked (seen asking.now).policy }
    ensures { IfOk result (λ text. TellsBasis params.now (seen asking.now) line name.now
        allowed.now send.now (string_bytes text)) }
{
    let by = needed(allowed);
    match allowed {
        Allowed::Whole(ground) => {
            let told = told_of(alloc, asking, ground)?;
            let ground = told.ground();
            allowed_line(
                alloc,
                params,
                by,
                &Grounds::Whole(&ground),
                line,
                name,
                send,
            )
        }
        Allowed::Parts(grounds) => {
            let parts = asking.query.parts.as_slice();
            let all = parts_told(alloc, asking, parts, grounds.as_slice())?;
            let its = grounds_of(alloc, all.as_slice())?;
            allowed_line(
                alloc,
                params,
                by,
                &Grounds::Parts(its.as_slice()),
                line,
                name,
                send,
            )
        }
        Allowed::WeakerWhole(ground) => {
            weaker_whole_text(alloc, params, asking, line, name, ground, send)
        }
        Allowed::WeakerParts(grounds) => {
            weaker_parts_text(alloc, params, asking, line, name, grounds, send)
        }
    }
}

fn allowed_text(
    alloc: Global,
    live: &Live,
    line: u64,
    name: &Str,
    allowed: &Allowed,
    send: &Str,
) -> Result<String, AllocError>
    requires sound { IsSound live.now }
    ensures { IfOk result (λ text. TellsAllowed live.now line name.now allowed.now send.now
        (string_bytes text)) }
{
    checked_links_fit();
    let Some(asker) = live.request(name) else {
        return Err(AllocError);
    };
    let Some(question) = live.question(line) else {
        return Err(AllocError);
    };
    let policy = live.policy();
    let asking = Asking {
        policy,
        context: &asker.context,
        trace: &asker.trace,
        query: &question.query,
    };
    basis_text(
        alloc,
        policy.params.as_slice(),
        &asking,
        line,
        name,
        allowed,
        send,
    )
}

fn blocked_text(
    alloc: Global,
    live: &Live,
    line: u64,
    name: &Str,
    decision: &Decision,
    reason: &Reason,
) -> Result<String, AllocError>
    requires decision { decision.now ≡ Decision.Blocked reason.now }
    ensures { IfOk result (λ text. TellsBlocked live.now line name.now reason.now
        (string_bytes text)) }
{
    match reason {
        Reason::Refuted(pair) => pair_line(alloc, &live.policy().schema, pair, line, name),
        Reason::Spent(_) | Reason::Stuck(..) | Reason::Contradiction(_) => {
            named_text(alloc, line, name, decision)
        }
    }
}

fn named_evident(
    alloc: Global,
    live: &Live,
    line: u64,
    name: &Str,
    decision: &Decision,
) -> Result<String, AllocError>
    requires sound { IsSound live.now }
    ensures { IfOk result (λ text. TellsNamed live.now line name.now decision.now
        (string_bytes text)) }
{
    match decision {
        Decision::Allowed { by, send } => allowed_text(alloc, live, line, name, by, send),
        Decision::Blocked(reason) => blocked_text(alloc, live, line, name, decision, reason),
        _ => named_text(alloc, line, name, decision),
    }
}

// Takes on what one more query rests.
fn push_basis(
    alloc: Global,
    grounds: &mut ReadGrounds,
    params: &[Parameter],
    asking: &Asking<'_>,
    allowed: &Allowed,
) -> Result<(), AllocError>
    requires checked { IsChecked (seen asking.now).policy }
    ensures { OnOk result
        (AddsBased params.now (seen asking.now) allowed.now grounds.old grounds.new) }
{
    let by = needed(allowed);
    match allowed {
        Allowed::Whole(ground) => {
            let told = told_of(alloc, asking, ground)?;
            let ground = told.ground();
            grounds.push(alloc, params, by, &Grounds::Whole(&ground))
        }
        Allowed::Parts(list) => {
            let parts = asking.query.parts.as_slice();
            let all = parts_told(alloc, asking, parts, list.as_slice())?;
            let its = grounds_of(alloc, all.as_slice())?;
            grounds.push(alloc, params, by, &Grounds::Parts(its.as_slice()))
        }
        // No query of a read rests on a weaker trace.
        Allowed::WeakerWhole(_) | Allowed::WeakerParts(_) => Err(AllocError),
    }
}

// On what the queries of a key rest.
fn all_based(
    alloc: Global,
    live: &Live,
    asker: &Open,
    queries: &[Shared<Query>],
    by: &[Allowed],
) -> Result<ReadGrounds, AllocError>
    requires checked { IsChecked live.now.policy }
    ensures { IfOk result
        (HoldsBased live.now.policy asker.now queries.now by.now) }
{
    if queries.len() != by.len() {
        return Err(AllocError);
    }
    let policy = live.policy();
    let mut grounds = ReadGrounds::new(alloc);
    for i in 0..queries.len() {
        let asking = Asking {
            policy,
            context: &asker.context,
            trace: &asker.trace,
            query: &queries[i],
        };
        push_basis(
            alloc,
            &mut grounds,
            policy.params.as_slice(),
            &asking,
            &by[i],
        )?;
    }
    Ok(grounds)
}

fn readable_text(
    alloc: Global,
    live: &Live,
    line: u64,
    name: &Str,
    key: &Str,
    queries: &[Shared<Query>],
    by: &[Allowed],
) -> Result<String, AllocError>
    requires sound { IsSound live.now }
    ensures { IfOk result (λ text. TellsReadable live.now line name.now key.now queries.now
        by.now (string_bytes text)) }
{
    checked_links_fit();
    let Some(asker) = live.request(name) else {
        return Err(AllocError);
    };
    let grounds = all_based(alloc, live, asker, queries, by)?;
    allowed_read_line(alloc, grounds, key, line, name)
}

fn read_evident(
    alloc: Global,
    live: &Live,
    line: u64,
    name: &Str,
    key: &Str,
    decision: &Decision,
    read: &Read,
) -> Result<String, AllocError>
    requires decision { decision.now ≡ Decision.Read read.now }
    requires sound { IsSound live.now }
    ensures { IfOk result (λ text. TellsRead live.now line name.now key.now read.now
        (string_bytes text)) }
{
    match read {
        Read::Allowed { queries, by } => {
            let queries = queries.as_slice();
            readable_text(alloc, live, line, name, key, queries, by.as_slice())
        }
        Read::Blocked { before, reason, .. } => match reason {
            Reason::Refuted(pair) => {
                let schema = &live.policy().schema;
                let query = before.len() as u64;
                pair_read_line(alloc, schema, pair, key, line, query, name)
            }
            Reason::Spent(_) | Reason::Stuck(..) | Reason::Contradiction(_) => {
                keyed_text(alloc, line, name, key, decision)
            }
        },
    }
}

fn keyed_evident(
    alloc: Global,
    live: &Live,
    line: u64,
    name: &Str,
    key: &Str,
    decision: &Decision,
) -> Result<String, AllocError>
    requires sound { IsSound live.now }
    ensures { IfOk result (λ text. TellsKeyed live.now line name.now key.now decision.now
        (string_bytes text)) }
{
    match decision {
        Decision::Read(read) => read_evident(alloc, live, line, name, key, decision, read),
        _ => keyed_text(alloc, line, name, key, decision),
    }
}

/// The line of the decision on the event of a line, with the evidence of the decision, where it has
/// one.
pub(crate) fn evident_text(
    alloc: Global,
    live: &Live,
    line: u64,
    subject: &Subject,
    decision: &Decision,
) -> Result<String, AllocError>
    requires sound { IsSound live.now }
    ensures { IfOk result (λ text. IsEvident live.now line subject.now decision.now
        (string_bytes text)) }
{
    match subject {
        Subject::Request(name) => named_evident(alloc, live, line, name, decision),
        Subject::Key { name, key } => keyed_evident(alloc, live, line, name, key, decision),
        Subject::Line(_) | Subject::Nobody => answer_text(alloc, line, subject, decision),
    }
}
