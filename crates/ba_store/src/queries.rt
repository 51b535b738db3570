//! Queries.
ghost use Rattle.std.specs.Prelude.{◌≡◌, map};
ghost use Rattle.std.specs.List.{position};
ghost use Rattle.std.specs.Str.{bytes_eq};
ghost use Rattle.serde_json.specs.View.{members_view, view};
ghost use Rattle.ba_model.specs.Readings.{Gives, each};
ghost use Rattle.ba_store.specs.Reading.{checked, part_at, part_form, part_of, parts_at, parts_form, query_at, table_at, table_named};

use crate::fault::{StoreField, bad};
use crate::operands::{atoms_of, operands_of};
use crate::shapes::{list_at, text_at};
use ba_model::{Failure, Kind, List, Parameter, Part, Policy, Query, QueryDraft, Schema, Table};
use serde_json::{Map, Value};
use std::alloc::Global;

fn is_named(table: &Table, name: &str) -> bool
    ensures { result ≡ bytes_eq table.now.name name.now }
{
    table.name.as_str() == name
}

fn place_of(tables: &[Table], name: &str) -> Option<usize>
    ensures { result ≡ position (λ table. bytes_eq table.name name.now) tables.now }
{
    tables.iter().position(|table| is_named(table, name))
}

fn table_named(field: StoreField, schema: &Schema, name: &str) -> Result<u32, Failure<StoreField>>
    ensures { Gives result (table_named field schema.now name.now) }
{
    match place_of(schema.tables.as_slice(), name) {
        Some(n) if n <= u32::MAX as usize => Ok(n as u32),
        _ => bad(field),
    }
}

#[tactic(auto, unfolding(crate::specs::Reading::table_at))]
fn table_at(field: StoreField, schema: &Schema, value: &Value) -> Result<u32, Failure<StoreField>>
    ensures { Gives result (table_at field schema.now (view value.now)) }
{
    let name = text_at(field, value)?;
    table_named(field, schema, name)
}

fn tables_of(
    alloc: Global,
    field: StoreField,
    schema: &Schema,
    items: &[Value],
) -> Result<List<u32>, Failure<StoreField>>
    ensures { Gives result (each (table_at field schema.now) (map view items.now)) }
{
    let mut found = List::new(alloc);
    for item in items {
        let table = table_at(field, schema, item)?;
        found.push(table)?;
    }
    Ok(found)
}

#[tactic(auto, unfolding(crate::specs::Reading::part_of))]
fn part_of(
    alloc: Global,
    field: StoreField,
    policy: &Policy,
    conds: &Value,
    from: &Value,
    head: &Value,
) -> Result<Part, Failure<StoreField>>
    ensures { Gives result (part_of field policy.now.schema policy.now.params
        (view conds.now) (view from.now) (view head.now)) }
{
    let items = list_at(field, conds)?;
    let conds = atoms_of(alloc, field, policy.params.as_slice(), items)?;
    let items = list_at(field, from)?;
    let from = tables_of(alloc, field, &policy.schema, items)?;
    let items = list_at(field, head)?;
    let head = operands_of(alloc, field, policy.params.as_slice(), items)?;
    Ok(Part { from, conds, head })
}

fn part_form(
    alloc: Global,
    field: StoreField,
    policy: &Policy,
    members: &Map<String, Value>,
) -> Result<Part, Failure<StoreField>>
    ensures { Gives result (part_form field policy.now.schema policy.now.params
        (members_view members.now.entries)) }
{
    let mut members = members.iter();
    let Some((first, conds)) = members.next() else {
        return bad(field);
    };
    let Some((second, from)) = members.next() else {
        return bad(field);
    };
    let Some((third, head)) = members.next() else {
        return bad(field);
    };
    if members.next().is_some() {
        return bad(field);
    }
    if first.as_str() == "conds" && second.as_str() == "from" && third.as_str() == "head" {
        part_of(alloc, field, policy, conds, from, head)
    } else {
        bad(field)
    }
}

fn part_at(
    alloc: Global,
    field: StoreField,
    policy: &Policy,
    value: &Value,
) -> Result<Part, Failure<StoreField>>
    ensures { Gives result
        (part_at field policy.now.schema policy.now.params (view value.now)) }
{
    match value.as_object() {
        Some(members) => part_form(alloc, field, policy, members),
        None => bad(field),
    }
}

fn parts_of(
    alloc: Global,
    field: StoreField,
    policy: &Policy,
    items: &[Value],
) -> Result<List<Part>, Failure<StoreField>>
    ensures { Gives result
        (each (part_at field policy.now.schema policy.now.params) (map view items.now)) }
{
    let mut found = List::new(alloc);
    for item in items {
        let part = part_at(alloc, field, policy, item)?;
        found.push(part)?;
    }
    Ok(found)
}

fn parts_form(
    alloc: Global,
    field: StoreField,
    policy: &Policy,
    members: &Map<String, Value>,
) -> Result<List<Part>, Failure<StoreField>>
    ensures { Gives result (parts_form field policy.now.schema policy.now.params
        (members_view members.now.entries)) }
{
    let mut members = members.iter();
    let Some((name, parts)) = members.next() else {
        return bad(field);
    };
    if members.next().is_some() {
        return bad(field);
    }
    if name.as_str() == "parts" {
        let items = list_at(field, parts)?;
        parts_of(alloc, field, policy, items)
    } else {
        bad(field)
    }
}

fn parts_at(
    alloc: Global,
    field: StoreField,
    policy: &Policy,
    value: &Value,
) -> Result<List<Part>, Failure<StoreField>>
    ensures { Gives result
        (parts_at field policy.now.schema policy.now.params (view value.now)) }
{
    match value.as_object() {
        Some(members) => parts_form(alloc, field, policy, members),
        None => bad(field),
    }
}

/// The parts as a query, where they are one.
#[tactic(auto, using(crate::proofs::FitLemmas::not_checked))]
fn checked(
    field: StoreField,
    policy: &Policy,
    vars: &List<Kind>,
    parts: List<Part>,
) -> Result<Query, Failure<StoreField>>
    ensures { Gives result
        (checked field policy.now.schema policy.now.params vars.now parts) }
{
    match Query::check(&policy.schema, &policy.params, vars, QueryDraft { parts }) {
        Ok(query) => Ok(query),
        Err(_) => bad(field),
    }
}

/// A query for the policy and variables of these kinds.
#[tactic(auto, unfolding(crate::specs::Reading::query_at))]
pub(crate) fn query_at(
    alloc: Global,
    field: StoreField,
    policy: &Policy,
    vars: &List<Kind>,
    value: &Value,
) -> Result<Query, Failure<StoreField>>
    ensures { Gives result
        (query_at field policy.now.schema policy.now.params vars.now (view value.now)) }
{
    let parts = parts_at(alloc, field, policy, value)?;
    checked(field, policy, vars, parts)
}
