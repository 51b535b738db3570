//! How a command ends.

use ba_proof::CheckFault;
use ba_wire::{AuditFault, Fault};

/// How a command ended.
#[derive(Debug, Drop)]
pub enum Detail {
    /// What was read was read to its end, and no line lacked memory; or the proof, or the output, that
    /// was read is accepted.
    Done,
    /// The proof that was read isn't accepted.
    NotAccepted(CheckFault),
    /// The output that was read isn't accepted.
    NotAudited(AuditFault),
    /// The words or the files have this fault, which the one line tells: words of no command's form, a
    /// file without a reading, one that could not be read, or a count above its limit.
    Fault(Fault),
    /// A write that failed.
    Write,
    /// Want of memory.
    Memory,
}
