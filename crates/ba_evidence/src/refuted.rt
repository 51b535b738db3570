//! The line of a refuted question, with the pair that refutes it.
ghost use Rattle.std.specs.Prelude.{◌≡◌, IfOk, OnOk, string_bytes};
ghost use Rattle.serde_json.specs.View.{members_view, view};
ghost use Rattle.ba_wire.specs.Printed.{ReadsBack, json_line};
ghost use Rattle.ba_evidence.specs.Evidence.{database_json, pair_json, refuted_json, refuted_read_json, with_tables};

use crate::line::line_of;
use crate::rows::{row_json, rows_json};
use ba_model::{List, Row, RowSet, Schema, Str, Table};
use ba_refute::Counterexample;
use serde_json::{Map, Value as Json, put};
use std::alloc::{AllocError, Global};

/// Puts the rows of each table under its name.
fn put_tables(
    alloc: Global,
    tables: &[Table],
    sets: &[List<Row>],
    members: &mut Map<String, Json>,
) -> Result<(), AllocError>
    ensures { OnOk result (members_view members.new.entries
        ≡ with_tables tables.now sets.now (members_view members.old.entries)) }
{
    let Some((table, tables)) = tables.split_first() else {
        return Ok(());
    };
    let Some((rows, sets)) = sets.split_first() else {
        return Ok(());
    };
    let rows = rows_json(alloc, rows.as_slice())?;
    put(members, alloc, table.name.as_str(), rows)?;
    put_tables(alloc, tables, sets, members)
}

fn database_json(alloc: Global, schema: &Schema, database: &RowSet) -> Result<Json, AllocError>
    ensures { IfOk result (λ v. view v ≡ database_json schema.now database.now) }
{
    let mut members = Map::new(alloc);
    put_tables(
        alloc,
        schema.tables.as_slice(),
        database.tables.as_slice(),
        &mut members,
    )?;
    Ok(Json::Object(members))
}

#[tactic(auto, unfolding(crate::specs::Evidence::pair_json))]
pub(crate) fn pair_json(
    alloc: Global,
    schema: &Schema,
    pair: &Counterexample,
) -> Result<Json, AllocError>
    ensures { IfOk result (λ v. view v ≡ pair_json schema.now pair.now) }
{
    let mut members = Map::new(alloc);
    let one = database_json(alloc, schema, &pair.one)?;
    put(&mut members, alloc, "one", one)?;
    let row = row_json(alloc, pair.row.as_slice())?;
    put(&mut members, alloc, "row", row)?;
    let two = database_json(alloc, schema, &pair.two)?;
    put(&mut members, alloc, "two", two)?;
    Ok(Json::Object(members))
}

#[tactic(auto, unfolding(crate::specs::Evidence::refuted_json))]
fn refuted_json(
    alloc: Global,
    schema: &Schema,
    pair: &Counterexample,
    line: u64,
    request: &Str,
    version: u32,
) -> Result<Json, AllocError>
    ensures { IfOk result (λ v. view v
        ≡ refuted_json schema.now pair.now line request.now version) }
{
    let mut members = Map::new(alloc);
    put(
        &mut members,
        alloc,
        "blocked",
        Json::try_from_str(alloc, "refuted")?,
    )?;
    put(&mut members, alloc, "line", Json::from(line))?;
    let pair = pair_json(alloc, schema, pair)?;
    put(&mut members, alloc, "pair", pair)?;
    let request = Json::try_from_str(alloc, request.as_str())?;
    put(&mut members, alloc, "request", request)?;
    put(&mut members, alloc, "version", Json::from(version))?;
    Ok(Json::Object(members))
}

/// The line of a refuted question with the pair that refutes it: two databases, each with the rows
/// of every table of the schema under the table's name, and the row; and a line feed. `line` is the
/// script's line, from 1, and `version` that of the request's tables, from 0. The only error is want
/// of memory, which leaves nothing behind.
pub fn refuted_line(
    alloc: Global,
    schema: &Schema,
    pair: &Counterexample,
    line: u64,
    request: &Str,
    version: u32,
) -> Result<String, AllocError>
    ensures text { IfOk result (λ s. string_bytes s
        ≡ json_line (refuted_json schema.now pair.now line request.now version)) }
    ensures reads_back { IfOk result (λ s. ReadsBack (string_bytes s)
        (refuted_json schema.now pair.now line request.now version)) }
{
    let value = refuted_json(alloc, schema, pair, line, request, version)?;
    line_of(alloc, &value)
}

#[tactic(auto, unfolding(crate::specs::Evidence::refuted_read_json))]
fn refuted_read_json(
    alloc: Global,
    schema: &Schema,
    pair: &Counterexample,
    key: &Str,
    line: u64,
    query: u64,
    request: &Str,
    version: u32,
) -> Result<Json, AllocError>
    ensures { IfOk result (λ v. view v
        ≡ refuted_read_json schema.now pair.now key.now line query request.now version) }
{
    let mut members = Map::new(alloc);
    let blocked = Json::try_from_str(alloc, "refuted")?;
    put(&mut members, alloc, "blocked", blocked)?;
    let key = Json::try_from_str(alloc, key.as_str())?;
    put(&mut members, alloc, "key", key)?;
    put(&mut members, alloc, "line", Json::from(line))?;
    let pair = pair_json(alloc, schema, pair)?;
    put(&mut members, alloc, "pair", pair)?;
    put(&mut members, alloc, "query", Json::from(query))?;
    let request = Json::try_from_str(alloc, request.as_str())?;
    put(&mut members, alloc, "read", request)?;
    put(&mut members, alloc, "version", Json::from(version))?;
    Ok(Json::Object(members))
}

/// The line of a read of a cache key of which a query is refuted, with the pair that refutes it, as
/// in `refuted_line`. `query` is that query's number among the key's, from 0. The only error is want
/// of memory, which leaves nothing behind.
pub fn refuted_read_line(
    alloc: Global,
    schema: &Schema,
    pair: &Counterexample,
    key: &Str,
    line: u64,
    query: u64,
    request: &Str,
    version: u32,
) -> Result<String, AllocError>
    ensures text { IfOk result (λ s. string_bytes s
        ≡ json_line (refuted_read_json schema.now pair.now key.now line query request.now version)) }
    ensures reads_back { IfOk result (λ s. ReadsBack (string_bytes s)
        (refuted_read_json schema.now pair.now key.now line query request.now version)) }
{
    let value = refuted_read_json(alloc, schema, pair, key, line, query, request, version)?;
    line_of(alloc, &value)
}
