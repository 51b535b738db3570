//! The line of a read of a cache key that is allowed, with what its queries rest on.
ghost use Rattle.std.specs.Prelude.{◌≡◌, ◌++◌, ◌∷◌, [], IfOk, List as Sequence, OnOk, string_bytes};
ghost use Rattle.serde_json.specs.View.{view};
ghost use Rattle.ba_model.specs.declared.policy.Parameter.{Parameter as Named};
ghost use Rattle.ba_wire.specs.Printed.{ReadsBack, json_line};
ghost use Rattle.ba_evidence.specs.Evidence.{Evidence, EvidenceHasBits, TellsGrounds, evidence, read_json, rests_json};

use crate::answer::{Ground, ground_json};
use crate::line::line_of;
use ba_model::{Parameter, Str};
use serde_json::{Map, Value as Json, put};
use std::alloc::{AllocError, Global};

/// What the queries of a read rest on, one after another, as the read's line tells it.
#[derive(Drop)]
pub struct Rests {
    names: Vec<Json>,
    proofs: Vec<Json>,
}

impl Rests {
    /// Of no query.
    pub fn new(alloc: Global) -> Rests
        ensures { (params : Sequence Named) → TellsGrounds params [] result }
    {
        Rests {
            names: Vec::new(alloc),
            proofs: Vec::new(alloc),
        }
    }

    /// Takes what the next query rests on. `params` are the policy's parameters, by whose names steps
    /// have them. The numbers of the steps have the bits of their types. After an error, which is want
    /// of memory, they are good for nothing.
    pub fn push(
        &mut self,
        alloc: Global,
        params: &[Parameter],
        ground: &Ground,
    ) -> Result<(), AllocError>
        ensures told { OnOk result ((before : Sequence Evidence)
            → TellsGrounds params.now before self.old
            → TellsGrounds params.now (before ++ evidence ground.now ∷ []) self.new) }
        ensures bits { OnOk result (EvidenceHasBits (evidence ground.now)) }
    {
        self.names.push(Json::try_from_str(alloc, ground.name())?)?;
        self.proofs.push(ground_json(alloc, params, ground)?)?;
        Ok(())
    }
}

#[tactic(auto, unfolding(crate::specs::Evidence::rests_json))]
fn rests_json(
    alloc: Global,
    rests: Rests,
    key: &Str,
    line: u64,
    request: &Str,
    version: u32,
) -> Result<Json, AllocError>
    ensures { IfOk result (λ v. view v ≡ rests_json rests key.now line request.now version) }
{
    let mut members = Map::new(alloc);
    put(&mut members, alloc, "by", Json::Array(rests.names))?;
    let key = Json::try_from_str(alloc, key.as_str())?;
    put(&mut members, alloc, "key", key)?;
    put(&mut members, alloc, "line", Json::from(line))?;
    put(&mut members, alloc, "proof", Json::Array(rests.proofs))?;
    let request = Json::try_from_str(alloc, request.as_str())?;
    put(&mut members, alloc, "read", request)?;
    put(&mut members, alloc, "version", Json::from(version))?;
    Ok(Json::Object(members))
}

/// The line of a read that is allowed, with what each of the key's queries rests on, and a line
/// feed. `line` is the script's line, from 1, and `version` that of the request's tables, from 0. The
/// only error is want of memory, which leaves nothing behind.
pub fn read_line(
    alloc: Global,
    rests: Rests,
    key: &Str,
    line: u64,
    request: &Str,
    version: u32,
) -> Result<String, AllocError>
    ensures text { IfOk result (λ s. (params : Sequence Named) (grounds : Sequence Evidence)
        → TellsGrounds params grounds rests → string_bytes s
        ≡ json_line (read_json params grounds key.now line request.now version)) }
    ensures reads_back { IfOk result (λ s. (params : Sequence Named) (grounds : Sequence Evidence)
        → TellsGrounds params grounds rests → ReadsBack (string_bytes s)
        (read_json params grounds key.now line request.now version)) }
{
    let value = rests_json(alloc, rests, key, line, request, version)?;
    line_of(alloc, &value)
}
