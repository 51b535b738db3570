//! Outputs that an audit doesn't accept.

use ba_wire::{AuditFault, AuditReason};
use std::alloc::{AllocError, Global};

// Why a line doesn't follow.
fn reason_text(reason: AuditReason) -> &'static str {
    match reason {
        AuditReason::Count => {
            "it isn't there, or is one too many: each line of the script has one, and the summary is the last"
        }
        AuditReason::Json => "it isn't JSON that a line feed ends",
        AuditReason::Shape => {
            "its keys or fields are those of no line that run prints with --proofs"
        }
        AuditReason::Kind => {
            "it isn't of the form, the number, the name or the key of the script's line, a read has more or fewer queries than its key, or its request was begun without memory"
        }
        AuditReason::Version => {
            "its version is none that it may have, by the lines that publish and begin"
        }
        AuditReason::Unread => {
            "whether the question's text has a reading, or which fault it has, is otherwise"
        }
        AuditReason::By => { "an answer is by cover exactly where single views cover its query" }
        AuditReason::Covered => "its query is blocked, and single views cover it",
        AuditReason::Rows => "its rows aren't the answer of its question",
        AuditReason::Proof => "its proof isn't one of its query",
        AuditReason::Pair => "its pair doesn't refute its query",
        AuditReason::Summary => "its numbers aren't those of the lines before it",
    }
}

/// Which line of an output is the first that doesn't follow, and why.
pub fn audit_text(alloc: Global, fault: AuditFault) -> Result<String, AllocError> {
    let AuditFault::At(line, reason) = fault;
    let why = reason_text(reason);
    format!(in alloc; "line {line} doesn't follow: {why}")
}
