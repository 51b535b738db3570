//! What an audit of an output finds, and the one line of it.
#![tactic(auto, unfolding(crate::specs::Audits::finding_json, crate::specs::Audits::reason_name))]

ghost use Rattle.std.specs.Prelude.{◌≡◌, Err, IfOk, Ok, string_bytes};
ghost use Rattle.ba_wire.specs.Audits.{finding_bytes, finding_json, reason_name};
ghost use Rattle.ba_wire.specs.Object.{made};
ghost use Rattle.ba_wire.specs.Printed.{ReadsBack};

use crate::object::Object;
use serde_json::Value as Json;
use std::alloc::{AllocError, Global};

/// The test that a line of an output fails, in the order in which they are made. Each presupposes
/// that those before it are met.
#[derive(Clone, Copy, Debug, PartialEq, Eq)]
pub enum AuditReason {
    /// The line is missing, or one too many.
    Count,
    /// It isn't JSON that a line feed ends.
    Json,
    /// Its keys or fields are those of no form.
    Shape,
    /// It isn't of the form, the number, the name or the key of the script's line; a read has more or
    /// fewer queries than its key, or is blocked at one that its key hasn't; or its request was begun
    /// with a memory line and it isn't one.
    Kind,
    /// A set is published under a number outside 1 to the number of printed publications, or one used
    /// before; a request begins over a version that is neither 0 nor a publication's; or a question
    /// is asked, or a key read, over another version than its request began over.
    Version,
    /// It isn't a memory line, and says otherwise than the question's text whether this has a
    /// reading, or which fault it has.
    Unread,
    /// An answer, or a read, is by cover and its query isn't covered, or the other way round.
    By,
    /// The query is covered, and blocked.
    Covered,
    /// The rows aren't the question's answer in the request's version.
    Rows,
    /// The views and pairings don't cover the query, or the steps are more than
    /// [`ba_model::MAX_STEPS`], or aren't accepted one after another, or leave a branch open.
    Proof,
    /// The pair isn't a counterexample to strong compliance.
    Pair,
    /// The numbers of the last line differ from those of the lines before it.
    Summary,
}

/// Why an output isn't accepted: the number of the first line that fails a test, from 1, and the
/// first test that it fails.
#[derive(Clone, Copy, Debug, PartialEq, Eq)]
pub enum AuditFault {
    At(u64, AuditReason),
}

/// What is told of an output that is accepted.
#[derive(Clone, Copy, Debug, PartialEq, Eq)]
pub struct Audited {
    /// Lines of the script.
    pub lines: u64,
    /// Lines of which there is nothing to test but form, number and version: memory lines, and blocks
    /// as spent or stuck, whose queries aren't covered.
    pub unaudited: u64,
}

fn reason_name(reason: AuditReason) -> &'static str
    ensures { result.now ≡ reason_name reason }
{
    match reason {
        AuditReason::Count => "count",
        AuditReason::Json => "json",
        AuditReason::Shape => "shape",
        AuditReason::Kind => "kind",
        AuditReason::Version => "version",
        AuditReason::Unread => "unread",
        AuditReason::By => "by",
        AuditReason::Covered => "covered",
        AuditReason::Rows => "rows",
        AuditReason::Proof => "proof",
        AuditReason::Pair => "pair",
        AuditReason::Summary => "summary",
    }
}

fn audited_object(alloc: Global, audited: Audited) -> Result<Object, AllocError>
    ensures { IfOk result (λ it. made it ≡ finding_json (Ok audited)) }
{
    Object::new(alloc)
        .with("audited", Json::Bool(true))?
        .with_count("lines", audited.lines)?
        .with_count("unaudited", audited.unaudited)
}

fn failed_object(alloc: Global, line: u64, reason: AuditReason) -> Result<Object, AllocError>
    ensures { IfOk result (λ it. made it ≡ finding_json (Err (AuditFault.At line reason))) }
{
    Object::new(alloc)
        .with("audited", Json::Bool(false))?
        .with_count("line", line)?
        .with_text("reason", reason_name(reason))
}

fn finding_object(alloc: Global, finding: Result<Audited, AuditFault>) -> Result<Object, AllocError>
    ensures { IfOk result (λ it. made it ≡ finding_json finding) }
{
    match finding {
        Ok(audited) => audited_object(alloc, audited),
        Err(AuditFault::At(line, reason)) => failed_object(alloc, line, reason),
    }
}

/// The text of an audit's line with its line feed.
pub fn finding_text(
    alloc: Global,
    finding: Result<Audited, AuditFault>,
) -> Result<String, AllocError>
    ensures text { IfOk result (λ s. string_bytes s ≡ finding_bytes finding) }
    ensures reads_back { IfOk result (λ s. ReadsBack (string_bytes s) (finding_json finding)) }
{
    finding_object(alloc, finding)?.line()
}
