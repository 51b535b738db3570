//! The lines of a request that begins or ends and of a question that is refuted, each written into one text.
#![tactic(auto, unfolding(crate::specs::Printed::json_of))]

ghost use Rattle.std.specs.Prelude.{◌≡◌, IfOk, OnOk, string_bytes};
ghost use Rattle.ba_wire.specs.Appended.{Adds};
ghost use Rattle.ba_wire.specs.Printed.{ReadsBack, begin, block, end, json_of, line_bytes};
ghost use Rattle.ba_wire.specs.declared.line.Block.TheVariants.{Refuted};

use crate::answer::{line_of, push_count_member, push_text_member};
use ba_model::Str;
use json::Writer;
use std::alloc::{AllocError, Global};

/// Writes the object of a request that begins.
fn push_begin(out: &mut Writer, request: &Str, line: u64, version: u32) -> Result<(), AllocError>
    ensures { OnOk result (Adds (json_of (begin request.now line version)) out.old out.new) }
{
    out.begin_object()?;
    push_text_member(out, "begin", request.as_str())?;
    push_count_member(out, "line", line)?;
    push_count_member(out, "version", version as u64)?;
    out.end_object()
}

/// The line of a request that begins.
pub fn begin_text(
    alloc: Global,
    request: &Str,
    line: u64,
    version: u32,
) -> Result<String, AllocError>
    ensures text { IfOk result (λ s. string_bytes s
        ≡ line_bytes (begin request.now line version)) }
    ensures reads_back { IfOk result (λ s.
        ReadsBack (string_bytes s) (json_of (begin request.now line version))) }
{
    let mut out = Writer::new(Vec::new(alloc));
    push_begin(&mut out, request, line, version)?;
    line_of(out)
}

/// Writes the object of a request that ends.
fn push_end(out: &mut Writer, request: &Str, line: u64) -> Result<(), AllocError>
    ensures { OnOk result (Adds (json_of (end request.now line)) out.old out.new) }
{
    out.begin_object()?;
    push_text_member(out, "end", request.as_str())?;
    push_count_member(out, "line", line)?;
    out.end_object()
}

/// The line of a request that ends.
pub fn end_text(alloc: Global, request: &Str, line: u64) -> Result<String, AllocError>
    ensures text { IfOk result (λ s. string_bytes s ≡ line_bytes (end request.now line)) }
    ensures reads_back { IfOk result (λ s.
        ReadsBack (string_bytes s) (json_of (end request.now line))) }
{
    let mut out = Writer::new(Vec::new(alloc));
    push_end(&mut out, request, line)?;
    line_of(out)
}

/// Writes the object of a question that is refuted.
fn push_refuted(out: &mut Writer, line: u64, request: &Str, version: u32) -> Result<(), AllocError>
    ensures { OnOk result
        (Adds (json_of (block Refuted line request.now version)) out.old out.new) }
{
    out.begin_object()?;
    push_text_member(out, "blocked", "refuted")?;
    push_count_member(out, "line", line)?;
    push_text_member(out, "request", request.as_str())?;
    push_count_member(out, "version", version as u64)?;
    out.end_object()
}

/// The line of a question that is refuted.
pub fn refuted_text(
    alloc: Global,
    line: u64,
    request: &Str,
    version: u32,
) -> Result<String, AllocError>
    ensures text { IfOk result (λ s. string_bytes s
        ≡ line_bytes (block Refuted line request.now version)) }
    ensures reads_back { IfOk result (λ s.
        ReadsBack (string_bytes s) (json_of (block Refuted line request.now version))) }
{
    let mut out = Writer::new(Vec::new(alloc));
    push_refuted(&mut out, line, request, version)?;
    line_of(out)
}
