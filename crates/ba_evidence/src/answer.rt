//! The line of an answer, with what it rests on.
ghost use Rattle.std.specs.Prelude.{◌≡◌, IfOk, map, string_bytes};
ghost use Rattle.serde_json.specs.View.{view};
ghost use Rattle.ba_proof.specs.Written.{count, list_json};
ghost use Rattle.ba_wire.specs.Printed.{ReadsBack, json_line};
ghost use Rattle.ba_evidence.specs.Evidence.{AnswerHasBits, EvidenceHasBits, answer_json, by_name, evidence, evidence_json, part_json};

use crate::line::line_of;
use crate::rows::rows_json;
use ba_direct::{Cover, PartCover};
use ba_kernel::Step;
use ba_model::{List, Parameter, Row, Str};
use ba_proof::steps_json;
use serde_json::{Map, Value as Json, put};
use std::alloc::{AllocError, Global};

/// What an answer rests on.
#[derive(Clone, Copy, Debug)]
pub enum Ground<'a> {
    /// For each part of the question a view that covers it, with the pairing of their tables.
    Cover(&'a Cover),
    /// The instance of a template: steps that close the question's problem.
    Template(&'a List<Step>),
    /// Steps that were found for the question, and close its problem.
    Proof(&'a List<Step>),
}

impl<'a> Ground<'a> {
    pub(crate) fn name(&self) -> &'static str
        ensures { result.now ≡ by_name (evidence self.now) }
    {
        match self {
            Ground::Cover(_) => "cover",
            Ground::Template(_) => "template",
            Ground::Proof(_) => "proof",
        }
    }
}

fn places_json(alloc: Global, places: &[usize]) -> Result<Json, AllocError>
    ensures { IfOk result (λ v. view v ≡ list_json (map count places.now)) }
{
    let mut items = Vec::with_capacity(alloc, places.len())?;
    for place in places {
        items.push(Json::from(*place))?;
    }
    Ok(Json::Array(items))
}

#[tactic(auto, unfolding(crate::specs::Evidence::part_json))]
fn part_json(alloc: Global, part: &PartCover) -> Result<Json, AllocError>
    ensures { IfOk result (λ v. view v ≡ part_json part.now) }
{
    let mut members = Map::new(alloc);
    let pairing = places_json(alloc, part.places.as_slice())?;
    put(&mut members, alloc, "pairing", pairing)?;
    put(&mut members, alloc, "view", Json::from(part.view))?;
    Ok(Json::Object(members))
}

fn cover_json(alloc: Global, parts: &[PartCover]) -> Result<Json, AllocError>
    ensures { IfOk result (λ v. view v ≡ list_json (map part_json parts.now)) }
{
    let mut items = Vec::with_capacity(alloc, parts.len())?;
    for part in parts {
        items.push(part_json(alloc, part)?)?;
    }
    Ok(Json::Array(items))
}

pub(crate) fn ground_json(
    alloc: Global,
    params: &[Parameter],
    ground: &Ground,
) -> Result<Json, AllocError>
    ensures json { IfOk result (λ v. view v ≡ evidence_json params.now (evidence ground.now)) }
    ensures bits { IfOk result (λ _. EvidenceHasBits (evidence ground.now)) }
{
    match ground {
        Ground::Cover(cover) => cover_json(alloc, cover.parts.as_slice()),
        Ground::Template(steps) => steps_json(alloc, params, 0, steps.as_slice()),
        Ground::Proof(steps) => steps_json(alloc, params, 0, steps.as_slice()),
    }
}

#[tactic(auto, unfolding(crate::specs::Evidence::answer_json))]
fn answer_json(
    alloc: Global,
    params: &[Parameter],
    ground: &Ground,
    line: u64,
    request: &Str,
    rows: &List<Row>,
    version: u32,
) -> Result<Json, AllocError>
    ensures json { IfOk result (λ v. view v
        ≡ answer_json params.now (evidence ground.now) line request.now rows.now version) }
    ensures bits { IfOk result (λ _. AnswerHasBits (evidence ground.now) rows.now) }
{
    let mut members = Map::new(alloc);
    let by = Json::try_from_str(alloc, ground.name())?;
    put(&mut members, alloc, "by", by)?;
    put(&mut members, alloc, "line", Json::from(line))?;
    let proof = ground_json(alloc, params, ground)?;
    put(&mut members, alloc, "proof", proof)?;
    let request = Json::try_from_str(alloc, request.as_str())?;
    put(&mut members, alloc, "request", request)?;
    let rows = rows_json(alloc, rows.as_slice())?;
    put(&mut members, alloc, "rows", rows)?;
    put(&mut members, alloc, "version", Json::from(version))?;
    Ok(Json::Object(members))
}

/// The line of an answer with what it rests on, and a line feed. `params` are the policy's
/// parameters, by whose names steps have them; `line` is the script's line, from 1, and `version`
/// that of the request's tables, from 0. Steps are written as a proof file has them. The numbers of
/// the rows and of the steps have the bits of their types. The only error is want of memory, which
/// leaves nothing behind.
pub fn answer_line(
    alloc: Global,
    params: &[Parameter],
    ground: &Ground,
    line: u64,
    request: &Str,
    rows: &List<Row>,
    version: u32,
) -> Result<String, AllocError>
    ensures text { IfOk result (λ s. string_bytes s ≡ json_line
        (answer_json params.now (evidence ground.now) line request.now rows.now version)) }
    ensures reads_back { IfOk result (λ s. ReadsBack (string_bytes s)
        (answer_json params.now (evidence ground.now) line request.now rows.now version)) }
    ensures bits { IfOk result (λ _. AnswerHasBits (evidence ground.now) rows.now) }
{
    let value = answer_json(alloc, params, ground, line, request, rows, version)?;
    line_of(alloc, &value)
}
