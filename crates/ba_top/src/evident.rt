//! Lines that tell their evidence.
ghost use Rattle.std.specs.Prelude.{All, IfOk, List as Sequence, OnOk, Some, [], length, map, slice_get, string_bytes, ◌++◌, ◌+◌, ◌∷◌, ◌≡◌, ◌≤◌};
ghost use Rattle.ba_input.specs.Inputs.{IsInput};
ghost use Rattle.ba_kernel.specs.Drafts.{IsChecked};
ghost use Rattle.ba_lanes.specs.Legal.{contexts_of, trace_in};
ghost use Rattle.ba_lanes.specs.declared.journal.Entry.{Entry as EntryOf};
ghost use Rattle.ba_evidence.specs.Evidence.{AnswerHasBits, Evidence, EvidenceHasBits, TellsGrounds, answer_json, read_json};
ghost use Rattle.ba_match.specs.Instances.{instance_of};
ghost use Rattle.ba_model.specs.Limits.{most_steps};
ghost use Rattle.ba_plan.specs.Sent.{SentLines};
ghost use Rattle.ba_top.specs.Audited.{EntryHasBits, EntryIsWritten, GroundHasBits, IsFew, KeyHasBits, ReplyHasBits, barred_value, blocked_value, key_value, reply_value, told_value};
ghost use Rattle.ba_top.specs.Evidence.{AreAfter, EntryCloses, GroundCloses, GroundsClose, InstanceCloses, ReadCloses, ReplyCloses, barred_bytes, blocked_bytes, evidence_of, evident_bytes, key_bytes, reply_bytes, told_bytes, trace_at};
ghost use Rattle.ba_wire.specs.Printed.{ReadsBack, json_line};
ghost use Rattle.ba_top.specs.Text.{ReadsKey};

use crate::print::{entry_text, key_name, name_in, printed_block};
use crate::requests::Requests;
use ba_evidence::{Ground, Rests, answer_line, read_line, refuted_line, refuted_read_line};
use ba_input::Input;
use ba_kernel::Step;
use ba_kernel::laws::checked_links_fit;
use ba_lanes::Entry;
use ba_match::{closes_question, instance};
use ba_model::{List, Policy, Query, Row, Shared, Str};
use ba_outside::{Sink, WriteFail};
use ba_plan::send;
use ba_script::ScriptEntry;
use ba_session::{By, KeyReply, Reply, Why};
use ba_template::{Match, Template};
use ba_wire::{Line, line_text};
use std::alloc::{AllocError, Global};

// A template has no more steps than a proof may have.
fn has_few_steps(template: &Template)
    ensures { length template.now.steps ≤ most_steps }
{
    template.steps();
}

// The steps of a template's instance, where they are found to close the question's problem.
fn closing_steps(
    alloc: Global,
    policy: &Shared<Policy>,
    requests: &Requests,
    request: u32,
    query: &Shared<Query>,
    template: &Template,
    found: &Match,
) -> Result<List<Step>, AllocError>
    requires checked { IsChecked policy.now }
    requires nothing { requests.now.nothing ≡ [] }
    ensures steps { IfOk result (λ steps. steps ≡ instance_of found.now
        (trace_at requests.now.traces.items request) template.now.steps) }
    ensures closes { IfOk result (λ _. InstanceCloses policy.now requests.now.contexts
        (trace_at requests.now.traces.items request) request query.now template.now found.now) }
    ensures few { IfOk result (λ _. length (instance_of found.now
        (trace_at requests.now.traces.items request) template.now.steps) ≤ most_steps) }
{
    has_few_steps(template);
    let Some(context) = requests.context(request) else {
        return Err(AllocError);
    };
    let trace = requests.trace(request);
    let closes = closes_question(alloc, template, found, policy, context, trace, query)?;
    if closes {
        instance(alloc, template, found, trace)
    } else {
        Err(AllocError)
    }
}

// The line of an answer, with what it rests on.
fn answer_text(
    alloc: Global,
    policy: &Shared<Policy>,
    requests: &Requests,
    request: u32,
    name: &Str,
    line: u64,
    version: u32,
    query: &Shared<Query>,
    rows: &List<Row>,
    by: &By,
) -> Result<String, AllocError>
    requires checked { IsChecked policy.now }
    requires nothing { requests.now.nothing ≡ [] }
    ensures text { IfOk result (λ text. string_bytes text ≡ json_line
        (answer_json policy.now.params
        (evidence_of (trace_at requests.now.traces.items request) by.now)
        line name.now rows.now version)) }
    ensures closes { IfOk result (λ _. GroundCloses policy.now requests.now.contexts
        (trace_at requests.now.traces.items request) request query.now by.now) }
    ensures reads_back { IfOk result (λ text. ReadsBack (string_bytes text)
        (answer_json policy.now.params
        (evidence_of (trace_at requests.now.traces.items request) by.now)
        line name.now rows.now version)) }
    ensures bits { IfOk result (λ _. AnswerHasBits
        (evidence_of (trace_at requests.now.traces.items request) by.now) rows.now) }
    ensures few { IfOk result (λ _. IsFew
        (evidence_of (trace_at requests.now.traces.items request) by.now)) }
{
    let params = policy.params.as_slice();
    match by {
        By::Cover(cover) => {
            let ground = Ground::Cover(cover);
            answer_line(alloc, params, &ground, line, name, rows, version)
        }
        By::Template {
            template,
            found,
            ..
        } => {
            let steps = closing_steps(alloc, policy, requests, request, query, template, found)?;
            let ground = Ground::Template(&steps);
            answer_line(alloc, params, &ground, line, name, rows, version)
        }
        By::Proof(steps, _) => {
            let ground = Ground::Proof(steps);
            answer_line(alloc, params, &ground, line, name, rows, version)
        }
    }
}

// The line of a block, with the pair that refutes the question, where one does.
fn blocked_text(
    alloc: Global,
    policy: &Policy,
    name: &Str,
    line: u64,
    version: u32,
    why: &Why,
) -> Result<String, AllocError>
    ensures text { IfOk result (λ text. string_bytes text
        ≡ blocked_bytes policy.now name.now line version why.now) }
    ensures reads_back { IfOk result (λ text. ReadsBack (string_bytes text)
        (blocked_value policy.now name.now line version why.now)) }
{
    match why {
        Why::Refuted(pair) => refuted_line(alloc, &policy.schema, pair, line, name, version),
        Why::Spent(_) | Why::Stuck(..) => {
            let blocked = printed_block(why);
            let request = name;
            let told = Line::Block {
                blocked,
                line,
                request,
                version,
            };
            line_text(alloc, &told)
        }
    }
}

// The line of a reply, with its evidence.
fn reply_text(
    alloc: Global,
    policy: &Shared<Policy>,
    requests: &Requests,
    request: u32,
    name: &Str,
    line: u64,
    version: u32,
    reply: &Reply,
) -> Result<String, AllocError>
    requires checked { IsChecked policy.now }
    requires nothing { requests.now.nothing ≡ [] }
    ensures text { IfOk result (λ text. string_bytes text ≡ reply_bytes policy.now
        (trace_at requests.now.traces.items request) name.now line version reply.now) }
    ensures closes { IfOk result (λ _. ReplyCloses policy.now requests.now.contexts
        (trace_at requests.now.traces.items request) request reply.now) }
    ensures reads_back { IfOk result (λ text. ReadsBack (string_bytes text)
        (reply_value policy.now (trace_at requests.now.traces.items request) name.now line version
        reply.now)) }
    ensures bits { IfOk result (λ _. ReplyHasBits (trace_at requests.now.traces.items request)
        reply.now) }
{
    match reply {
        Reply::Answer { query, rows, by } => answer_text(
            alloc, policy, requests, request, name, line, version, query, rows, by,
        ),
        Reply::Blocked { why, .. } => blocked_text(alloc, policy, name, line, version, why),
        Reply::Unread(fault) => {
            let told = Line::Unread {
                line,
                request: name,
                unread: fault,
                version,
            };
            line_text(alloc, &told)
        }
        Reply::NoMemory => line_text(alloc, &Line::Memory { line }),
    }
}

// Takes what the next query of a read rests on.
fn add_ground(
    alloc: Global,
    policy: &Shared<Policy>,
    requests: &Requests,
    request: u32,
    query: &Shared<Query>,
    by: &By,
    rests: &mut Rests,
) -> Result<(), AllocError>
    requires checked { IsChecked policy.now }
    requires nothing { requests.now.nothing ≡ [] }
    ensures told { OnOk result ((before : Sequence Evidence)
        → TellsGrounds policy.now.params before rests.old
        → TellsGrounds policy.now.params
        (before ++ evidence_of (trace_at requests.now.traces.items request) by.now ∷ []) rests.new) }
    ensures closes { OnOk result (GroundCloses policy.now requests.now.contexts
        (trace_at requests.now.traces.items request) request query.now by.now) }
    ensures bits { OnOk result (EvidenceHasBits
        (evidence_of (trace_at requests.now.traces.items request) by.now)) }
    ensures few { OnOk result (IsFew
        (evidence_of (trace_at requests.now.traces.items request) by.now)) }
{
    let params = policy.params.as_slice();
    match by {
        By::Cover(cover) => rests.push(alloc, params, &Ground::Cover(cover)),
        By::Template {
            template,
            found,
            ..
        } => {
            let steps = closing_steps(alloc, policy, requests, request, query, template, found)?;
            rests.push(alloc, params, &Ground::Template(&steps))
        }
        By::Proof(steps, _) => rests.push(alloc, params, &Ground::Proof(steps)),
    }
}

// What the queries of a read rest on, each after what its request was told.
fn rests_of(
    alloc: Global,
    policy: &Shared<Policy>,
    requests: &Requests,
    request: u32,
    queries: &List<Shared<Query>>,
    by: &List<By>,
) -> Result<Rests, AllocError>
    requires checked { IsChecked policy.now }
    requires nothing { requests.now.nothing ≡ [] }
    ensures told { IfOk result (λ rests. TellsGrounds policy.now.params
        (map (evidence_of (trace_at requests.now.traces.items request)) by.now) rests) }
    ensures closes { IfOk result (λ _. GroundsClose policy.now requests.now.contexts
        (trace_at requests.now.traces.items request) request queries.now by.now) }
    ensures bits { IfOk result (λ _.
        All (GroundHasBits (trace_at requests.now.traces.items request)) by.now) }
{
    let mut rests = Rests::new(alloc);
    for place in 0..by.len() {
        let Some(query) = queries.find(place) else {
            return Err(AllocError);
        };
        let it = by.get(place);
        add_ground(alloc, policy, requests, request, query, it, &mut rests)?;
    }
    Ok(rests)
}

// The line of a read that is let through, with what its queries rest on.
fn allowed_text(
    alloc: Global,
    policy: &Shared<Policy>,
    requests: &Requests,
    request: u32,
    name: &Str,
    line: u64,
    version: u32,
    key: &Str,
    queries: &List<Shared<Query>>,
    by: &List<By>,
) -> Result<String, AllocError>
    requires checked { IsChecked policy.now }
    requires nothing { requests.now.nothing ≡ [] }
    ensures text { IfOk result (λ text. string_bytes text ≡ json_line
        (read_json policy.now.params
        (map (evidence_of (trace_at requests.now.traces.items request)) by.now)
        key.now line name.now version)) }
    ensures closes { IfOk result (λ _. GroundsClose policy.now requests.now.contexts
        (trace_at requests.now.traces.items request) request queries.now by.now) }
    ensures reads_back { IfOk result (λ text. ReadsBack (string_bytes text)
        (read_json policy.now.params
        (map (evidence_of (trace_at requests.now.traces.items request)) by.now)
        key.now line name.now version)) }
    ensures bits { IfOk result (λ _.
        All (GroundHasBits (trace_at requests.now.traces.items request)) by.now) }
{
    let rests = rests_of(alloc, policy, requests, request, queries, by)?;
    read_line(alloc, rests, key, line, name, version)
}

// The line of a block of a read, with the pair that refutes the query, where one does.
fn barred_text(
    alloc: Global,
    policy: &Policy,
    name: &Str,
    line: u64,
    version: u32,
    key: &Str,
    query: u64,
    why: &Why,
) -> Result<String, AllocError>
    ensures text { IfOk result (λ text. string_bytes text
        ≡ barred_bytes policy.now name.now line version key.now query why.now) }
    ensures reads_back { IfOk result (λ text. ReadsBack (string_bytes text)
        (barred_value policy.now name.now line version key.now query why.now)) }
{
    match why {
        Why::Refuted(pair) => {
            refuted_read_line(alloc, &policy.schema, pair, key, line, query, name, version)
        }
        Why::Spent(_) | Why::Stuck(..) => {
            let told = Line::ReadBlock {
                blocked: printed_block(why),
                key,
                line,
                query,
                read: name,
                version,
            };
            line_text(alloc, &told)
        }
    }
}

// The line of a read, with its evidence.
fn key_text(
    alloc: Global,
    policy: &Shared<Policy>,
    requests: &Requests,
    request: u32,
    name: &Str,
    line: u64,
    version: u32,
    key: &Str,
    reply: &KeyReply,
) -> Result<String, AllocError>
    requires checked { IsChecked policy.now }
    requires nothing { requests.now.nothing ≡ [] }
    ensures text { IfOk result (λ text. string_bytes text ≡ key_bytes policy.now
        (trace_at requests.now.traces.items request) name.now line version key.now reply.now) }
    ensures closes { IfOk result (λ _. ReadCloses policy.now requests.now.contexts
        (trace_at requests.now.traces.items request) request reply.now) }
    ensures reads_back { IfOk result (λ text. ReadsBack (string_bytes text)
        (key_value policy.now (trace_at requests.now.traces.items request) name.now line version
        key.now reply.now)) }
    ensures bits { IfOk result (λ _. KeyHasBits (trace_at requests.now.traces.items request)
        reply.now) }
{
    match reply {
        KeyReply::Allowed { queries, by } => allowed_text(
            alloc, policy, requests, request, name, line, version, key, queries, by,
        ),
        KeyReply::Blocked { before, why, .. } => {
            let query = before.len() as u64;
            barred_text(alloc, policy, name, line, version, key, query, why)
        }
        KeyReply::NoMemory => line_text(alloc, &Line::Memory { line }),
    }
}

// The line of an entry, with its evidence.
fn evident_text(
    alloc: Global,
    policy: &Shared<Policy>,
    requests: &Requests,
    name: &Str,
    line: u64,
    entry: &Entry,
) -> Result<String, AllocError>
    requires checked { IsChecked policy.now }
    requires nothing { requests.now.nothing ≡ [] }
    requires key { ReadsKey policy.now entry.now }
    ensures text { IfOk result (λ text. string_bytes text ≡ told_bytes policy.now
        (trace_at requests.now.traces.items) name.now line entry.now) }
    ensures closes { IfOk result (λ _. EntryCloses policy.now requests.now.contexts
        (trace_at requests.now.traces.items) entry.now) }
    ensures reads_back { IfOk result (λ text. ReadsBack (string_bytes text)
        (told_value policy.now (trace_at requests.now.traces.items) name.now line entry.now)) }
    ensures bits { IfOk result (λ _. EntryHasBits (trace_at requests.now.traces.items) entry.now) }
{
    match entry {
        Entry::Ask {
            request,
            version,
            reply,
        } => reply_text(
            alloc, policy, requests, *request, name, line, *version, reply,
        ),
        Entry::Read {
            request,
            version,
            key,
            reply,
        } => {
            let key = key_name(policy, *key);
            key_text(
                alloc, policy, requests, *request, name, line, *version, key, reply,
            )
        }
        Entry::Begin { .. } | Entry::End { .. } | Entry::Publish { .. } | Entry::Memory { .. } => {
            entry_text(alloc, policy, name, line, entry)
        }
    }
}

/// Writes the line of an entry with its evidence, for a line of the script with its number. Steps of
/// a template's instance are taken by the kernel first; where they aren't accepted or leave a branch
/// open, the writing ends as it does for want of memory.
pub(crate) fn print_evident<S: Sink>(
    alloc: Global,
    input: &Input,
    requests: &Requests,
    said: &ScriptEntry,
    line: u64,
    entry: &Entry,
    sink: &mut S,
) -> Result<(), WriteFail>
    requires input { IsInput input.now }
    requires nothing { requests.now.nothing ≡ [] }
    requires key { ReadsKey input.now.policy entry.now }
    ensures sent { (earlier : Sequence EntryOf)
        → slice_get input.now.script.entries (length earlier) ≡ Some said.now
        → line ≡ length earlier + 1 → AreAfter input.now earlier requests.now
        → SentLines (evident_bytes input.now earlier entry.now ∷ [])
        (S.seen sink.old) (S.seen sink.new) result }
    ensures closes { (earlier : Sequence EntryOf) → AreAfter input.now earlier requests.now
        → IfOk result (λ _. EntryCloses input.now.policy (contexts_of input.now.script.entries)
        (λ request. trace_in request earlier) entry.now) }
    ensures written { (earlier : Sequence EntryOf)
        → slice_get input.now.script.entries (length earlier) ≡ Some said.now
        → line ≡ length earlier + 1 → AreAfter input.now earlier requests.now
        → IfOk result (λ _. EntryIsWritten input.now earlier entry.now) }
{
    checked_links_fit();
    let name = name_in(said);
    let Ok(text) = evident_text(alloc, &input.policy, requests, name, line, entry) else {
        return Err(WriteFail::NoMemory);
    };
    send(sink, text.as_bytes())
}
