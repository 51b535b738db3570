//! The rows that a proof file says were shown, each with its query.
ghost use Rattle.std.specs.Prelude.{◌≡◌, ◌==◌, [], ◌∷◌, map, option_map, IfOk, IfErr, All, length};
ghost use Rattle.serde_json.specs.View.{view, members_view};
ghost use Rattle.ba_model.specs.Fit.{IsQuery, kinds_of};
ghost use Rattle.ba_model.specs.Readings.{Gives, each};
ghost use Rattle.ba_kernel.specs.Asked.{RecordFits};
ghost use Rattle.ba_proof.specs.Reading.{entries_at, entry_at, entry_form, entry_of, entry_with, head_kind, query_at, row_of, row_under, row_value, value_at, values_from};

use crate::fault::{ProofFault, ProofField, bad};
use crate::shapes::{as_list, list_at, text_at};
use ba_comply::{Trace, TraceEntry};
use ba_model::{Failure, Kind, List, Part, Policy, Query, Row, Shared, Value, operand_kind};
use ba_script::{given_value, of_kind};
use ba_sql_query::read_query;
use serde_json::{Map, Value as Json};
use std::alloc::{AllocError, Global};

/// The query that a text is.
pub(crate) fn query_at(
    alloc: Global,
    policy: &Policy,
    field: ProofField,
    value: &Json,
) -> Result<Query, Failure<ProofFault>>
    ensures exact { Gives result
        (query_at field policy.now.schema policy.now.params (view value.now)) }
    ensures query { IfOk result
        (IsQuery policy.now.schema (kinds_of policy.now.params) []) }
{
    let text = text_at(field, value)?;
    match read_query(alloc, &policy.schema, &policy.params, text) {
        Ok(query) => Ok(query),
        Err(Failure::NoMemory) => Err(Failure::NoMemory),
        Err(Failure::Fault(_)) => bad(field),
    }
}

/// The kind of the head's operand at a place.
fn head_kind(policy: &Policy, part: &Part, place: usize) -> Option<Kind>
    ensures { result ≡ head_kind policy.now.schema policy.now.params part.now place }
{
    match part.head.find(place) {
        Some(operand) => operand_kind(
            &policy.schema,
            policy.params.as_slice(),
            &[],
            part.from.as_slice(),
            operand,
        ),
        None => None,
    }
}

/// A row's value where its query's head has the kind: NULL, or one of that kind, if it is one.
fn row_value(alloc: Global, kind: Kind, item: &Json) -> Result<Option<Value>, AllocError>
    ensures { IfOk result (λ value. value ≡ row_value kind (view item.now)) }
{
    if item.is_null() {
        return Ok(Some(Value::Null));
    }
    let given = given_value(alloc, item)?;
    of_kind(alloc, kind, &given)
}

#[tactic(auto, unfolding(crate::specs::Reading::value_at))]
fn value_at(
    alloc: Global,
    policy: &Policy,
    part: &Part,
    place: usize,
    item: &Json,
) -> Result<Value, Failure<ProofFault>>
    ensures { Gives result
        (value_at policy.now.schema policy.now.params part.now place (view item.now)) }
{
    let Some(kind) = head_kind(policy, part, place) else {
        return bad(ProofField::Entries);
    };
    let value = row_value(alloc, kind, item)?;
    match value {
        Some(value) => Ok(value),
        None => bad(ProofField::Entries),
    }
}

fn values_of(
    alloc: Global,
    policy: &Policy,
    part: &Part,
    items: &[Json],
) -> Result<Row, Failure<ProofFault>>
    ensures { Gives result
        (values_from policy.now.schema policy.now.params part.now 0 (map view items.now)) }
{
    let mut row = List::new(alloc);
    for item in items {
        let value = value_at(alloc, policy, part, row.len(), item)?;
        row.push(value)?;
    }
    Ok(row)
}

#[tactic(auto, unfolding(crate::specs::Reading::row_under))]
fn row_under(
    alloc: Global,
    policy: &Policy,
    part: &Part,
    items: &[Json],
) -> Result<Row, Failure<ProofFault>>
    ensures { Gives result
        (row_under policy.now.schema policy.now.params part.now (map view items.now)) }
{
    if items.len() == part.head.len() {
        values_of(alloc, policy, part, items)
    } else {
        bad(ProofField::Entries)
    }
}

fn row_of(
    alloc: Global,
    policy: &Policy,
    query: &Query,
    items: &[Json],
) -> Result<Row, Failure<ProofFault>>
    ensures { Gives result
        (row_of policy.now.schema policy.now.params query.now (map view items.now)) }
{
    match query.parts.find(0) {
        Some(part) => row_under(alloc, policy, part, items),
        None => bad(ProofField::Entries),
    }
}

/// A recorded row of the query.
fn recorded(alloc: Global, query: Query, row: Row) -> Result<TraceEntry, Failure<ProofFault>>
    ensures entry { IfOk result (λ it. it ≡ entry_with query row) }
    ensures memory { IfErr result (λ e. e ≡ Failure.NoMemory) }
{
    let mut rows = List::new(alloc);
    rows.push(row)?;
    let rows = Shared::new(alloc, rows)?;
    let query = Shared::new(alloc, query)?;
    Ok(TraceEntry { query, rows })
}

#[tactic(auto, using(crate::proofs::FitLemmas::record_fits), unfolding(crate::specs::Reading::entry_of))]
fn entry_of(
    alloc: Global,
    policy: &Policy,
    text: &Json,
    values: &Json,
) -> Result<TraceEntry, Failure<ProofFault>>
    ensures exact { Gives result
        (entry_of policy.now.schema policy.now.params (view text.now) (view values.now)) }
    ensures fits { IfOk result (RecordFits policy.now) }
{
    let query = query_at(alloc, policy, ProofField::Entries, text)?;
    let items = list_at(ProofField::Entries, values)?;
    let row = row_of(alloc, policy, &query, items)?;
    recorded(alloc, query, row)
}

fn entry_form(
    alloc: Global,
    policy: &Policy,
    members: &Map<String, Json>,
) -> Result<TraceEntry, Failure<ProofFault>>
    ensures exact { Gives result (entry_form policy.now.schema policy.now.params
        (members_view members.now.entries)) }
    ensures fits { IfOk result (RecordFits policy.now) }
{
    let mut members = members.iter();
    let Some((first, text)) = members.next() else {
        return bad(ProofField::Entries);
    };
    let Some((second, values)) = members.next() else {
        return bad(ProofField::Entries);
    };
    if members.next().is_some() {
        return bad(ProofField::Entries);
    }
    if first.as_str() == "query" && second.as_str() == "row" {
        entry_of(alloc, policy, text, values)
    } else {
        bad(ProofField::Entries)
    }
}

fn entry_at(alloc: Global, policy: &Policy, value: &Json) -> Result<TraceEntry, Failure<ProofFault>>
    ensures exact { Gives result
        (entry_at policy.now.schema policy.now.params (view value.now)) }
    ensures fits { IfOk result (RecordFits policy.now) }
{
    match value.as_object() {
        Some(members) => entry_form(alloc, policy, members),
        None => bad(ProofField::Entries),
    }
}

fn entries_of(alloc: Global, policy: &Policy, items: &[Json]) -> Result<Trace, Failure<ProofFault>>
    ensures exact { Gives result
        (each (entry_at policy.now.schema policy.now.params) (map view items.now)) }
    ensures fits { IfOk result (All (RecordFits policy.now)) }
{
    let mut trace = Trace::new(alloc);
    for item in items {
        let entry = entry_at(alloc, policy, item)?;
        trace.push(entry)?;
    }
    Ok(trace)
}

/// The rows that were shown, one after another.
#[tactic(auto, unfolding(crate::specs::Reading::entries_at))]
pub(crate) fn entries_at(
    alloc: Global,
    policy: &Policy,
    found: Option<&Json>,
) -> Result<Trace, Failure<ProofFault>>
    ensures exact { Gives result (entries_at policy.now.schema policy.now.params
        (option_map (λ v. view v.now) found.entry)) }
    ensures fits { IfOk result (All (RecordFits policy.now)) }
{
    let Some(value) = found else {
        return bad(ProofField::Entries);
    };
    let items = list_at(ProofField::Entries, value)?;
    entries_of(alloc, policy, items)
}
