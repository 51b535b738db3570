//! The lines of a decision service on questions, with their evidence.
ghost use Rattle.std.specs.Prelude.{◌≡◌, IfOk, map, string_bytes};
ghost use Rattle.serde_json.specs.View.{view};
ghost use Rattle.ba_evidence.specs.Evidence.{evidence};
ghost use Rattle.ba_evidence.specs.Said.{allowed_json, basis, basis_json, pair_said_json, part_ground_json, weaker_json};
ghost use Rattle.ba_proof.specs.Written.{list_json};
ghost use Rattle.ba_wire.specs.Printed.{ReadsBack, json_line};

use crate::answer::{Ground, ground_json};
use crate::line::line_of;
use crate::refuted::pair_json;
use ba_model::{Parameter, Schema, Str};
use ba_refute::Counterexample;
use ba_wire::By;
use serde_json::{Map, Value as Json, put};
use std::alloc::{AllocError, Global};

/// On what an allowed question rests: its own ground, or that of each part, as a question of its
/// own.
#[derive(Clone, Copy, Debug)]
pub enum Grounds<'a> {
    Whole(&'a Ground<'a>),
    Parts(&'a [Ground<'a>]),
}

// A part's ground: its name, and what it is.
#[tactic(auto, unfolding(crate::specs::Said::part_ground_json))]
fn part_ground_json(
    alloc: Global,
    params: &[Parameter],
    ground: &Ground,
) -> Result<Json, AllocError>
    ensures { IfOk result (λ v. view v ≡ part_ground_json params.now (evidence ground.now)) }
{
    let mut members = Map::new(alloc);
    let by = Json::try_from_str(alloc, ground.name())?;
    put(&mut members, alloc, "by", by)?;
    let proof = ground_json(alloc, params, ground)?;
    put(&mut members, alloc, "proof", proof)?;
    Ok(Json::Object(members))
}

fn parts_json(alloc: Global, params: &[Parameter], parts: &[Ground]) -> Result<Json, AllocError>
    ensures { IfOk result (λ v. view v
        ≡ list_json (map (part_ground_json params.now) (map evidence parts.now))) }
{
    let mut items = Vec::with_capacity(alloc, parts.len())?;
    for part in parts {
        items.push(part_ground_json(alloc, params, part)?)?;
    }
    Ok(Json::Array(items))
}

// What the question's ground is, or the grounds of its parts.
pub(crate) fn basis_json(
    alloc: Global,
    params: &[Parameter],
    it: &Grounds,
) -> Result<Json, AllocError>
    ensures { IfOk result (λ v. view v ≡ basis_json params.now (basis it.now)) }
{
    match it {
        Grounds::Whole(ground) => ground_json(alloc, params, ground),
        Grounds::Parts(parts) => parts_json(alloc, params, parts),
    }
}

#[tactic(auto, unfolding(crate::specs::Said::allowed_json))]
fn allowed_json(
    alloc: Global,
    params: &[Parameter],
    by: By,
    it: &Grounds,
    line: u64,
    request: &Str,
    send: &Str,
) -> Result<Json, AllocError>
    ensures { IfOk result (λ v. view v
        ≡ allowed_json params.now by (basis it.now) line request.now send.now) }
{
    let mut members = Map::new(alloc);
    let by = Json::try_from_str(alloc, by.name())?;
    put(&mut members, alloc, "allowed", by)?;
    put(&mut members, alloc, "line", Json::from(line))?;
    let proof = basis_json(alloc, params, it)?;
    put(&mut members, alloc, "proof", proof)?;
    let request = Json::try_from_str(alloc, request.as_str())?;
    put(&mut members, alloc, "request", request)?;
    let send = Json::try_from_str(alloc, send.as_str())?;
    put(&mut members, alloc, "send", send)?;
    Ok(Json::Object(members))
}

/// The line of an allowed question with what it rests on, and a line feed: what a cover, a template
/// or a proof is stands under `proof`, or for each part an object of its own with `by` and `proof`.
/// `by` is what it rests on by name, `line` the line that it answers, from 1, and `send` the text by
/// which it may be put to the database. The only error is want of memory, which leaves nothing
/// behind.
pub fn allowed_line(
    alloc: Global,
    params: &[Parameter],
    by: By,
    it: &Grounds,
    line: u64,
    request: &Str,
    send: &Str,
) -> Result<String, AllocError>
    ensures text { IfOk result (λ s. string_bytes s ≡ json_line
        (allowed_json params.now by (basis it.now) line request.now send.now)) }
    ensures reads_back { IfOk result (λ s. ReadsBack (string_bytes s)
        (allowed_json params.now by (basis it.now) line request.now send.now)) }
{
    let value = allowed_json(alloc, params, by, it, line, request, send)?;
    line_of(alloc, &value)
}

#[tactic(auto, unfolding(crate::specs::Said::weaker_json))]
fn weaker_json(
    alloc: Global,
    params: &[Parameter],
    by: By,
    it: &Grounds,
    line: u64,
    request: &Str,
    send: &Str,
) -> Result<Json, AllocError>
    ensures { IfOk result (λ v. view v
        ≡ weaker_json params.now by (basis it.now) line request.now send.now) }
{
    let mut members = Map::new(alloc);
    let by = Json::try_from_str(alloc, by.name())?;
    put(&mut members, alloc, "allowed", by)?;
    put(&mut members, alloc, "line", Json::from(line))?;
    let proof = basis_json(alloc, params, it)?;
    put(&mut members, alloc, "proof", proof)?;
    let request = Json::try_from_str(alloc, request.as_str())?;
    put(&mut members, alloc, "request", request)?;
    let rows = Json::try_from_str(alloc, "weaker")?;
    put(&mut members, alloc, "rows", rows)?;
    let send = Json::try_from_str(alloc, send.as_str())?;
    put(&mut members, alloc, "send", send)?;
    Ok(Json::Object(members))
}

/// The line of a question that is allowed after the weaker rows of what was told: as
/// [`allowed_line`], and under `rows` it says `weaker`, since what stands under `proof` speaks of
/// them. The only error is want of memory, which leaves nothing behind.
pub fn weaker_line(
    alloc: Global,
    params: &[Parameter],
    by: By,
    it: &Grounds,
    line: u64,
    request: &Str,
    send: &Str,
) -> Result<String, AllocError>
    ensures text { IfOk result (λ s. string_bytes s ≡ json_line
        (weaker_json params.now by (basis it.now) line request.now send.now)) }
    ensures reads_back { IfOk result (λ s. ReadsBack (string_bytes s)
        (weaker_json params.now by (basis it.now) line request.now send.now)) }
{
    let value = weaker_json(alloc, params, by, it, line, request, send)?;
    line_of(alloc, &value)
}

#[tactic(auto, unfolding(crate::specs::Said::pair_said_json))]
fn pair_said_json(
    alloc: Global,
    schema: &Schema,
    pair: &Counterexample,
    line: u64,
    request: &Str,
) -> Result<Json, AllocError>
    ensures { IfOk result (λ v. view v ≡ pair_said_json schema.now pair.now line request.now) }
{
    let mut members = Map::new(alloc);
    let refuted = Json::try_from_str(alloc, "refuted")?;
    put(&mut members, alloc, "blocked", refuted)?;
    put(&mut members, alloc, "line", Json::from(line))?;
    let pair = pair_json(alloc, schema, pair)?;
    put(&mut members, alloc, "pair", pair)?;
    let request = Json::try_from_str(alloc, request.as_str())?;
    put(&mut members, alloc, "request", request)?;
    Ok(Json::Object(members))
}

/// The line of a refuted question with the pair that refutes it, and a line feed. `line` is the
/// line that it answers, from 1. The only error is want of memory, which leaves nothing behind.
pub fn pair_line(
    alloc: Global,
    schema: &Schema,
    pair: &Counterexample,
    line: u64,
    request: &Str,
) -> Result<String, AllocError>
    ensures text { IfOk result (λ s. string_bytes s
        ≡ json_line (pair_said_json schema.now pair.now line request.now)) }
    ensures reads_back { IfOk result (λ s. ReadsBack (string_bytes s)
        (pair_said_json schema.now pair.now line request.now)) }
{
    let value = pair_said_json(alloc, schema, pair, line, request)?;
    line_of(alloc, &value)
}
