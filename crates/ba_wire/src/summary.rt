//! The last line of a run.
#![tactic(auto, unfolding(crate::specs::Printed::summary_json))]

ghost use Rattle.std.specs.Prelude.{◌≡◌, IfOk, string_bytes};
ghost use Rattle.ba_wire.specs.Object.{made};
ghost use Rattle.ba_wire.specs.Printed.{ReadsBack, summary_json, summary_bytes};

use crate::object::Object;
use std::alloc::{AllocError, Global};

/// What a run counts over its script.
#[derive(Clone, Copy, Debug, PartialEq, Eq)]
pub struct Summary {
    /// Questions that were answered.
    pub answered: u64,
    /// Questions that were blocked.
    pub blocked: u64,
    /// Lines of the script.
    pub lines: u64,
    /// Lines that found no memory.
    pub memory: u64,
    /// Begin lines.
    pub requests: u64,
    /// The sum of the lengths of all answers.
    pub rows: u64,
    /// Questions without a reading.
    pub unread: u64,
}

fn summary_object(alloc: Global, summary: &Summary) -> Result<Object, AllocError>
    ensures { IfOk result (λ it. made it ≡ summary_json summary.now) }
{
    Object::new(alloc)
        .with_count("answered", summary.answered)?
        .with_count("blocked", summary.blocked)?
        .with_count("lines", summary.lines)?
        .with_count("memory", summary.memory)?
        .with_count("requests", summary.requests)?
        .with_count("rows", summary.rows)?
        .with_count("unread", summary.unread)
}

/// The text of the summary with its line feed.
pub fn summary_text(alloc: Global, summary: &Summary) -> Result<String, AllocError>
    ensures text { IfOk result (λ s. string_bytes s ≡ summary_bytes summary.now) }
    ensures reads_back { IfOk result (λ s. ReadsBack (string_bytes s) (summary_json summary.now)) }
{
    summary_object(alloc, summary)?.line()
}
