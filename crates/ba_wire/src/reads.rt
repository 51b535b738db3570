//! The line of a read that is allowed.
ghost use Rattle.std.specs.Prelude.{◌≡◌, IfOk, string_bytes};
ghost use Rattle.serde_json.specs.View.{view};
ghost use Rattle.ba_wire.specs.Object.{made};
ghost use Rattle.ba_wire.specs.Printed.{ReadsBack, json_line, names_json, read_json};

use crate::line::By;
use crate::object::Object;
use ba_model::Str;
use serde_json::Value as Json;
use std::alloc::{AllocError, Global};

// What each of the queries rests on.
pub(crate) fn names_json(alloc: Global, by: &[By]) -> Result<Json, AllocError>
    ensures { IfOk result (λ v. view v ≡ names_json by.now) }
{
    let mut items = Vec::with_capacity(alloc, by.len())?;
    for it in by {
        items.push(Json::try_from_str(alloc, it.name())?)?;
    }
    Ok(Json::Array(items))
}

#[tactic(auto, unfolding(crate::specs::Printed::read_json))]
fn read_object(
    alloc: Global,
    by: &[By],
    key: &Str,
    line: u64,
    request: &Str,
    version: u32,
) -> Result<Object, AllocError>
    ensures { IfOk result (λ it. made it
        ≡ read_json by.now key.now line request.now version) }
{
    let names = names_json(alloc, by)?;
    Object::new(alloc)
        .with("by", names)?
        .with_text("key", key.as_str())?
        .with_count("line", line)?
        .with_text("read", request.as_str())?
        .with_count("version", version as u64)
}

/// The text of the line with its line feed.
pub fn read_text(
    alloc: Global,
    by: &[By],
    key: &Str,
    line: u64,
    request: &Str,
    version: u32,
) -> Result<String, AllocError>
    ensures text { IfOk result (λ s. string_bytes s
        ≡ json_line (read_json by.now key.now line request.now version)) }
    ensures reads_back { IfOk result (λ s.
        ReadsBack (string_bytes s) (read_json by.now key.now line request.now version)) }
{
    let object = read_object(alloc, by, key, line, request, version)?;
    object.line()
}
