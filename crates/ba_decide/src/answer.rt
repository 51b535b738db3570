//! The line of a decision.
ghost use Rattle.std.specs.Prelude.{◌≡◌, IfOk, map, string_bytes};
ghost use Rattle.ba_decide.specs.Text.{block_of, by_of, contradiction_bytes, decision_bytes, faulty_bytes, keyed_bytes, last_in, last_of, memory_bytes, named_bytes, needed as needed_for, other_bytes, read_blocked_bytes, read_bytes, reason_name, told_bytes};

use ba_judge::{Allowed, By as Ground, Read, Reason};
use ba_live::{Decision, Refusal, Subject};
use ba_model::{List, Str};
use ba_wire::{Block, By, Line, SaidLine, line_text, said_text};
use std::alloc::{AllocError, Global};

fn reason_name(reason: Refusal) -> &'static str
    ensures { result.now ≡ reason_name reason }
{
    match reason {
        Refusal::Long => "long",
        Refusal::Json => "json",
        Refusal::Shape => "shape",
        Refusal::Begun => "begun",
        Refusal::Unbegun => "unbegun",
        Refusal::Closed => "closed",
        Refusal::Context => "context",
        Refusal::Requests => "requests",
        Refusal::Key => "key",
        Refusal::Args => "args",
        Refusal::Asks => "asks",
        Refusal::NullTest => "null_test",
        Refusal::ZeroByte => "zero_byte",
        Refusal::LongSend => "long_send",
        Refusal::Unasked => "unasked",
        Refusal::Rows => "rows",
        Refusal::Misfit => "misfit",
    }
}

pub(crate) fn by_of(ground: &Ground) -> By
    ensures { result ≡ by_of ground.now }
{
    match ground {
        Ground::Cover(_) => By::Cover,
        Ground::Template { .. } => By::Template,
        Ground::Proof(_) => By::Proof,
    }
}

// The later of two grounds: a cover comes first, then a template, then a proof.
fn last_of(one: By, other: By) -> By
    ensures { result ≡ last_of one other }
{
    match (one, other) {
        (By::Cover, other) => other,
        (By::Template, By::Proof) => By::Proof,
        (By::Template, _) => By::Template,
        (By::Proof, _) => By::Proof,
    }
}

pub(crate) fn last_in(grounds: &[Ground]) -> By
    ensures { result ≡ last_in grounds.now }
{
    match grounds.split_first() {
        Some((ground, rest)) => last_of(by_of(ground), last_in(rest)),
        None => By::Cover,
    }
}

// What was needed last for the whole or for a part.
pub(crate) fn needed(allowed: &Allowed) -> By
    ensures { result ≡ needed_for allowed.now }
{
    match allowed {
        Allowed::Whole(ground) => by_of(ground),
        Allowed::Parts(grounds) => last_in(grounds.as_slice()),
        Allowed::WeakerWhole(ground) => by_of(ground),
        Allowed::WeakerParts(grounds) => last_in(grounds.as_slice()),
    }
}

// What blocks the question; nothing where what was told contradicts itself, which is a fault.
fn block_of(reason: &Reason) -> Option<Block>
    ensures { result ≡ block_of reason.now }
{
    match reason {
        Reason::Refuted(_) => Some(Block::Refuted),
        Reason::Spent(steps) => Some(Block::Spent {
            steps: steps.len() as u64,
        }),
        Reason::Stuck(_, clause) => Some(Block::Stuck { clause: *clause }),
        Reason::Contradiction(_) => None,
    }
}

fn all_needed(alloc: Global, all: &[Allowed]) -> Result<List<By>, AllocError>
    ensures { IfOk result (λ found. found ≡ map needed_for all.now) }
{
    let mut found = List::new(alloc);
    for allowed in all {
        found.push(needed(allowed))?;
    }
    Ok(found)
}

fn refusal_text(alloc: Global, line: u64, reason: Refusal) -> Result<String, AllocError>
    ensures { IfOk result (λ text. string_bytes text ≡ faulty_bytes line reason) }
{
    let fault = reason_name(reason);
    said_text(alloc, &SaidLine::Faulty { fault, line })
}

// The line that says that what was told contradicts itself.
fn contradiction_text(alloc: Global, line: u64) -> Result<String, AllocError>
    ensures { IfOk result (λ text. string_bytes text ≡ contradiction_bytes line) }
{
    let fault = "contradiction";
    said_text(alloc, &SaidLine::Faulty { fault, line })
}

/// The line that says that there was no memory.
pub(crate) fn memory_text(alloc: Global, line: u64) -> Result<String, AllocError>
    ensures { IfOk result (λ text. string_bytes text ≡ memory_bytes line) }
{
    line_text(alloc, &Line::Memory { line })
}

fn allowed_text(
    alloc: Global,
    line: u64,
    request: &Str,
    allowed: &Allowed,
    send: &Str,
) -> Result<String, AllocError>
    ensures { IfOk result (λ text. string_bytes text
        ≡ named_bytes line request.now (Decision.Allowed allowed.now send.now)) }
{
    let said = SaidLine::Allowed {
        by: needed(allowed),
        line,
        request,
        send,
    };
    said_text(alloc, &said)
}

fn blocked_text(
    alloc: Global,
    line: u64,
    request: &Str,
    reason: &Reason,
) -> Result<String, AllocError>
    ensures { IfOk result (λ text. string_bytes text
        ≡ named_bytes line request.now (Decision.Blocked reason.now)) }
{
    match block_of(reason) {
        Some(blocked) => {
            let said = SaidLine::Blocked {
                blocked,
                line,
                request,
            };
            said_text(alloc, &said)
        }
        None => contradiction_text(alloc, line),
    }
}

// The line of a decision on a request's event.
pub(crate) fn named_text(
    alloc: Global,
    line: u64,
    name: &Str,
    decision: &Decision,
) -> Result<String, AllocError>
    ensures { IfOk result (λ text. string_bytes text ≡ named_bytes line name.now decision.now) }
{
    match decision {
        Decision::Begun => said_text(alloc, &SaidLine::Begun { begin: name, line }),
        Decision::Allowed { by, send } => allowed_text(alloc, line, name, by, send),
        Decision::Blocked(reason) => blocked_text(alloc, line, name, reason),
        Decision::Unread(unread) => {
            let said = SaidLine::Unread {
                line,
                request: name,
                unread,
            };
            said_text(alloc, &said)
        }
        Decision::Ended => line_text(alloc, &Line::End { end: name, line }),
        Decision::Refused(reason) => refusal_text(alloc, line, *reason),
        Decision::Contradiction => contradiction_text(alloc, line),
        Decision::Read(_) | Decision::Told | Decision::Memory => memory_text(alloc, line),
    }
}

// The line of a read of a key of which the query behind so many is blocked.
fn read_blocked_text(
    alloc: Global,
    line: u64,
    name: &Str,
    key: &Str,
    query: u64,
    reason: &Reason,
) -> Result<String, AllocError>
    ensures { IfOk result (λ text. string_bytes text
        ≡ read_blocked_bytes line name.now key.now query reason.now) }
{
    match block_of(reason) {
        Some(blocked) => {
            let said = SaidLine::BlockedRead {
                blocked,
                key,
                line,
                query,
                read: name,
            };
            said_text(alloc, &said)
        }
        None => contradiction_text(alloc, line),
    }
}

// The line of a read of a key.
fn read_text(
    alloc: Global,
    line: u64,
    name: &Str,
    key: &Str,
    read: &Read,
) -> Result<String, AllocError>
    ensures { IfOk result (λ text. string_bytes text
        ≡ read_bytes line name.now key.now read.now) }
{
    match read {
        Read::Allowed { by, .. } => {
            let by = all_needed(alloc, by.as_slice())?;
            let said = SaidLine::AllowedRead {
                by: &by,
                key,
                line,
                read: name,
            };
            said_text(alloc, &said)
        }
        Read::Blocked { before, reason, .. } => {
            let query = before.len() as u64;
            read_blocked_text(alloc, line, name, key, query, reason)
        }
    }
}

// The line of a decision on what names no request.
fn other_text(alloc: Global, line: u64, decision: &Decision) -> Result<String, AllocError>
    ensures { IfOk result (λ text. string_bytes text ≡ other_bytes line decision.now) }
{
    match decision {
        Decision::Refused(reason) => refusal_text(alloc, line, *reason),
        Decision::Contradiction => contradiction_text(alloc, line),
        _ => memory_text(alloc, line),
    }
}

pub(crate) fn keyed_text(
    alloc: Global,
    line: u64,
    name: &Str,
    key: &Str,
    decision: &Decision,
) -> Result<String, AllocError>
    ensures { IfOk result (λ text. string_bytes text
        ≡ keyed_bytes line name.now key.now decision.now) }
{
    match decision {
        Decision::Read(read) => read_text(alloc, line, name, key, read),
        _ => other_text(alloc, line, decision),
    }
}

fn told_text(alloc: Global, line: u64, told: u64, decision: &Decision) -> Result<String, AllocError>
    ensures { IfOk result (λ text. string_bytes text ≡ told_bytes line told decision.now) }
{
    match decision {
        Decision::Told => said_text(alloc, &SaidLine::Told { line, told }),
        _ => other_text(alloc, line, decision),
    }
}

/// The line of the decision on the event of a line.
pub(crate) fn answer_text(
    alloc: Global,
    line: u64,
    subject: &Subject,
    decision: &Decision,
) -> Result<String, AllocError>
    ensures { IfOk result (λ text. string_bytes text
        ≡ decision_bytes line subject.now decision.now) }
{
    match subject {
        Subject::Request(name) => named_text(alloc, line, name, decision),
        Subject::Key { name, key } => keyed_text(alloc, line, name, key, decision),
        Subject::Line(told) => told_text(alloc, line, *told, decision),
        Subject::Nobody => other_text(alloc, line, decision),
    }
}
