//! The lines of a decision service on reads of cache keys, with their evidence.
ghost use Rattle.std.specs.Prelude.{◌≡◌, ◌++◌, ◌∷◌, [], IfOk, List as Sequence, OnOk, string_bytes};
ghost use Rattle.serde_json.specs.View.{view};
ghost use Rattle.ba_model.specs.declared.policy.Parameter.{Parameter as Named};
ghost use Rattle.ba_evidence.specs.Said.{Based, TellsBased, basis, pair_read_json, read_said_json, told_read_json};
ghost use Rattle.ba_wire.specs.Printed.{ReadsBack, json_line};

use crate::line::line_of;
use crate::refuted::pair_json;
use crate::said::{Grounds, basis_json};
use ba_model::{Parameter, Schema, Str};
use ba_refute::Counterexample;
use ba_wire::By;
use serde_json::{Map, Value as Json, put};
use std::alloc::{AllocError, Global};

/// What the queries of an allowed read rest on, one after another, as the read's line tells it.
#[derive(Drop)]
pub struct ReadGrounds {
    names: Vec<Json>,
    proofs: Vec<Json>,
}

impl ReadGrounds {
    /// Of no query.
    pub fn new(alloc: Global) -> ReadGrounds
        ensures { (params : Sequence Named) → TellsBased params [] result }
    {
        ReadGrounds {
            names: Vec::new(alloc),
            proofs: Vec::new(alloc),
        }
    }

    /// Takes what the next query rests on, and by which name. `params` are the policy's parameters,
    /// by whose names steps have them. After an error, which is want of memory, they are good for
    /// nothing.
    pub fn push(
        &mut self,
        alloc: Global,
        params: &[Parameter],
        by: By,
        it: &Grounds,
    ) -> Result<(), AllocError>
        ensures { OnOk result ((before : Sequence Based) → TellsBased params.now before self.old
            → TellsBased params.now
            (before ++ record { by = by; on = basis it.now } ∷ []) self.new) }
    {
        self.names.push(Json::try_from_str(alloc, by.name())?)?;
        self.proofs.push(basis_json(alloc, params, it)?)?;
        Ok(())
    }
}

#[tactic(auto, unfolding(crate::specs::Said::told_read_json))]
fn told_read_json(
    alloc: Global,
    grounds: ReadGrounds,
    key: &Str,
    line: u64,
    request: &Str,
) -> Result<Json, AllocError>
    ensures { IfOk result (λ v. view v ≡ told_read_json grounds key.now line request.now) }
{
    let mut members = Map::new(alloc);
    put(&mut members, alloc, "allowed", Json::Array(grounds.names))?;
    let key = Json::try_from_str(alloc, key.as_str())?;
    put(&mut members, alloc, "key", key)?;
    put(&mut members, alloc, "line", Json::from(line))?;
    put(&mut members, alloc, "proof", Json::Array(grounds.proofs))?;
    let request = Json::try_from_str(alloc, request.as_str())?;
    put(&mut members, alloc, "read", request)?;
    Ok(Json::Object(members))
}

/// The line of an allowed read with what each of the key's queries rests on, and a line feed.
/// `line` is the line that it answers, from 1. The only error is want of memory, which leaves
/// nothing behind.
pub fn allowed_read_line(
    alloc: Global,
    grounds: ReadGrounds,
    key: &Str,
    line: u64,
    request: &Str,
) -> Result<String, AllocError>
    ensures text { IfOk result (λ s. (params : Sequence Named) (list : Sequence Based)
        → TellsBased params list grounds → string_bytes s
        ≡ json_line (read_said_json params list key.now line request.now)) }
    ensures reads_back { IfOk result (λ s. (params : Sequence Named) (list : Sequence Based)
        → TellsBased params list grounds → ReadsBack (string_bytes s)
        (read_said_json params list key.now line request.now)) }
{
    let value = told_read_json(alloc, grounds, key, line, request)?;
    line_of(alloc, &value)
}

#[tactic(auto, unfolding(crate::specs::Said::pair_read_json))]
fn pair_read_json(
    alloc: Global,
    schema: &Schema,
    pair: &Counterexample,
    key: &Str,
    line: u64,
    query: u64,
    request: &Str,
) -> Result<Json, AllocError>
    ensures { IfOk result (λ v. view v
        ≡ pair_read_json schema.now pair.now key.now line query request.now) }
{
    let mut members = Map::new(alloc);
    let refuted = Json::try_from_str(alloc, "refuted")?;
    put(&mut members, alloc, "blocked", refuted)?;
    let key = Json::try_from_str(alloc, key.as_str())?;
    put(&mut members, alloc, "key", key)?;
    put(&mut members, alloc, "line", Json::from(line))?;
    let pair = pair_json(alloc, schema, pair)?;
    put(&mut members, alloc, "pair", pair)?;
    put(&mut members, alloc, "query", Json::from(query))?;
    let request = Json::try_from_str(alloc, request.as_str())?;
    put(&mut members, alloc, "read", request)?;
    Ok(Json::Object(members))
}

/// The line of a read that is blocked, since a pair refutes the key's query of this number, from
/// 0, with the pair and a line feed. `line` is the line that it answers, from 1. The only error is
/// want of memory, which leaves nothing behind.
pub fn pair_read_line(
    alloc: Global,
    schema: &Schema,
    pair: &Counterexample,
    key: &Str,
    line: u64,
    query: u64,
    request: &Str,
) -> Result<String, AllocError>
    ensures text { IfOk result (λ s. string_bytes s
        ≡ json_line (pair_read_json schema.now pair.now key.now line query request.now)) }
    ensures reads_back { IfOk result (λ s. ReadsBack (string_bytes s)
        (pair_read_json schema.now pair.now key.now line query request.now)) }
{
    let value = pair_read_json(alloc, schema, pair, key, line, query, request)?;
    line_of(alloc, &value)
}
