//! What an answer is said to rest on.
ghost use Rattle.std.specs.Prelude.{◌≡◌, map};
ghost use Rattle.serde_json.specs.View.{members_view, view};
ghost use Rattle.ba_model.specs.Readings.{Gives, each};
ghost use Rattle.ba_printed.specs.Reading.{evidence_in, evidence_named, ground_of, part_form, part_from, part_of, steps_of, unnamed_of};

use crate::line::Evidence;
use crate::shapes::{
    FormFault, field, keys_are, list_of, long_in, longs_of, no_form, text_in, text_of,
};
use ba_direct::{Cover, PartCover};
use ba_kernel::Step;
use ba_model::{Failure, List, Parameter};
use ba_proof::LAST_VERSION;
use serde_json::{Map, Value};
use std::alloc::Global;

#[tactic(auto, unfolding(crate::specs::Reading::part_from))]
fn part_from(alloc: Global, value: &Value) -> Result<PartCover, Failure<FormFault>>
    ensures { Gives result (part_from (view value.now)) }
{
    let view = long_in(value, "view")?;
    let found = field(value, "pairing")?;
    let places = longs_of(alloc, found)?;
    let view = view as usize;
    Ok(PartCover { view, places })
}

fn part_form(
    alloc: Global,
    value: &Value,
    members: &Map<String, Value>,
) -> Result<PartCover, Failure<FormFault>>
    ensures { Gives result (part_form (view value.now) (members_view members.now.entries)) }
{
    if keys_are(&["pairing", "view"], members) {
        part_from(alloc, value)
    } else {
        no_form()
    }
}

/// A view, and the places of its tables.
fn part_of(alloc: Global, value: &Value) -> Result<PartCover, Failure<FormFault>>
    ensures { Gives result (part_of (view value.now)) }
{
    match value.as_object() {
        Some(members) => part_form(alloc, value, members),
        None => no_form(),
    }
}

fn parts_of(alloc: Global, items: &[Value]) -> Result<List<PartCover>, Failure<FormFault>>
    ensures { Gives result (each part_of (map view items.now)) }
{
    let mut parts = List::new(alloc);
    for item in items {
        let part = part_of(alloc, item)?;
        parts.push(part)?;
    }
    Ok(parts)
}

/// Steps as proof files have them, those by rules too, without variables.
fn steps_of(
    alloc: Global,
    params: &[Parameter],
    items: &[Value],
) -> Result<List<Step>, Failure<FormFault>>
    ensures { Gives result (steps_of params.now (map view items.now)) }
{
    match ba_proof::steps_of(alloc, params, 0, LAST_VERSION, items) {
        Ok(steps) => Ok(steps),
        Err(Failure::NoMemory) => Err(Failure::NoMemory),
        Err(Failure::Fault(_)) => no_form(),
    }
}

#[tactic(auto, unfolding(crate::specs::Reading::evidence_named))]
fn evidence_named(
    alloc: Global,
    params: &[Parameter],
    name: &str,
    items: &[Value],
) -> Result<Evidence, Failure<FormFault>>
    ensures { Gives result (evidence_named params.now name.now (map view items.now)) }
{
    if name == "cover" {
        let parts = parts_of(alloc, items)?;
        return Ok(Evidence::Cover(Cover { parts }));
    }
    if name == "template" {
        let steps = steps_of(alloc, params, items)?;
        return Ok(Evidence::Template(steps));
    }
    if name == "proof" {
        let steps = steps_of(alloc, params, items)?;
        return Ok(Evidence::Proof(steps));
    }
    no_form()
}

/// By what an answer is, and its proof.
#[tactic(auto, unfolding(crate::specs::Reading::evidence_in))]
pub(crate) fn evidence_in(
    alloc: Global,
    params: &[Parameter],
    value: &Value,
) -> Result<Evidence, Failure<FormFault>>
    ensures { Gives result (evidence_in params.now (view value.now)) }
{
    let name = text_in(value, "by")?;
    let found = field(value, "proof")?;
    let items = list_of(found)?;
    evidence_named(alloc, params, name, items)
}

/// What a query rests on, by its name and its proof.
#[tactic(auto, unfolding(crate::specs::Reading::ground_of))]
pub(crate) fn ground_of(
    alloc: Global,
    params: &[Parameter],
    name: &Value,
    proof: &Value,
) -> Result<Evidence, Failure<FormFault>>
    ensures { Gives result (ground_of params.now (view name.now) (view proof.now)) }
{
    let name = text_of(name)?;
    let items = list_of(proof)?;
    evidence_named(alloc, params, name, items)
}

/// A proof that no name stands beside: views of a cover, else steps.
#[tactic(auto, unfolding(crate::specs::Reading::unnamed_of))]
pub(crate) fn unnamed_of(
    alloc: Global,
    params: &[Parameter],
    proof: &Value,
) -> Result<Evidence, Failure<FormFault>>
    ensures { Gives result (unnamed_of params.now (view proof.now)) }
{
    let items = list_of(proof)?;
    match evidence_named(alloc, params, "cover", items) {
        Ok(evidence) => Ok(evidence),
        Err(Failure::NoMemory) => Err(Failure::NoMemory),
        Err(Failure::Fault(_)) => evidence_named(alloc, params, "proof", items),
    }
}
