//! The rows of an answer, and pairs of databases.
ghost use Rattle.std.specs.Prelude.{◌≡◌, map};
ghost use Rattle.std.specs.List.{list_any};
ghost use Rattle.serde_json.specs.View.{members_view, view};
ghost use Rattle.ba_model.specs.Readings.{Gives, each};
ghost use Rattle.ba_printed.specs.Reading.{are_tables, is_table, pair_form, pair_from, pair_of, row_in, row_of, rows_of, set_from, set_in, set_of, table_of, value_of};

use crate::shapes::{FormFault, field, keys_are, list_of, no_form};
use ba_model::{Failure, List, Row, RowSet, Table, Value};
use ba_refute::Counterexample;
use ba_script::{Given, given_value};
use serde_json::{Map, Value as Json};
use std::alloc::Global;

/// NULL, a whole number of 64 bits with a sign, or a text.
#[tactic(auto, unfolding(crate::specs::Reading::value_of))]
fn value_of(alloc: Global, value: &Json) -> Result<Value, Failure<FormFault>>
    ensures { Gives result (value_of (view value.now)) }
{
    if value.is_null() {
        return Ok(Value::Null);
    }
    let given = given_value(alloc, value)?;
    match given {
        Given::Int(n) => Ok(Value::Int(n)),
        Given::Text(text) => Ok(Value::text(alloc, text)?),
        Given::Other => no_form(),
    }
}

fn each_value(alloc: Global, items: &[Json]) -> Result<Row, Failure<FormFault>>
    ensures { Gives result (each value_of (map view items.now)) }
{
    let mut row = List::new(alloc);
    for item in items {
        let value = value_of(alloc, item)?;
        row.push(value)?;
    }
    Ok(row)
}

/// A row of any width and kinds.
#[tactic(auto, unfolding(crate::specs::Reading::row_of))]
fn row_of(alloc: Global, value: &Json) -> Result<Row, Failure<FormFault>>
    ensures { Gives result (row_of (view value.now)) }
{
    let items = list_of(value)?;
    each_value(alloc, items)
}

fn each_row(alloc: Global, items: &[Json]) -> Result<List<Row>, Failure<FormFault>>
    ensures { Gives result (each row_of (map view items.now)) }
{
    let mut rows = List::new(alloc);
    for item in items {
        let row = row_of(alloc, item)?;
        rows.push(row)?;
    }
    Ok(rows)
}

/// Rows, in order.
#[tactic(auto, unfolding(crate::specs::Reading::rows_of))]
pub(crate) fn rows_of(alloc: Global, value: &Json) -> Result<List<Row>, Failure<FormFault>>
    ensures { Gives result (rows_of (view value.now)) }
{
    let items = list_of(value)?;
    each_row(alloc, items)
}

fn is_table(name: &str, table: &Table) -> bool
    ensures { result ≡ is_table name.now table.now }
{
    table.name.as_str() == name
}

fn is_any_table(tables: &[Table], name: &str) -> bool
    ensures { result ≡ list_any (is_table name.now) tables.now }
{
    tables.iter().any(|table| is_table(name, table))
}

/// Whether each key is a table's name.
fn are_tables(tables: &[Table], members: &Map<String, Json>) -> bool
    ensures { result ≡ are_tables tables.now (members_view members.now.entries) }
{
    for (name, _) in members.iter() {
        if !is_any_table(tables, name.as_str()) {
            return false;
        }
    }
    true
}

/// The rows under the table's name.
#[tactic(auto, unfolding(crate::specs::Reading::table_of))]
fn table_of(alloc: Global, value: &Json, table: &Table) -> Result<List<Row>, Failure<FormFault>>
    ensures { Gives result (table_of (view value.now) table.now) }
{
    let found = field(value, table.name.as_str())?;
    rows_of(alloc, found)
}

fn each_table(
    alloc: Global,
    tables: &[Table],
    value: &Json,
) -> Result<List<List<Row>>, Failure<FormFault>>
    ensures { Gives result (each (table_of (view value.now)) tables.now) }
{
    let mut sets = List::new(alloc);
    for table in tables {
        let rows = table_of(alloc, value, table)?;
        sets.push(rows)?;
    }
    Ok(sets)
}

fn set_from(
    alloc: Global,
    tables: &[Table],
    value: &Json,
    members: &Map<String, Json>,
) -> Result<RowSet, Failure<FormFault>>
    ensures { Gives result
        (set_from tables.now (view value.now) (members_view members.now.entries)) }
{
    if !are_tables(tables, members) {
        return no_form();
    }
    let tables = each_table(alloc, tables, value)?;
    Ok(RowSet { tables })
}

/// The rows of each table, in the tables' order, under exactly their names.
#[tactic(auto, unfolding(crate::specs::Reading::set_of))]
fn set_of(alloc: Global, tables: &[Table], value: &Json) -> Result<RowSet, Failure<FormFault>>
    ensures { Gives result (set_of tables.now (view value.now)) }
{
    match value.as_object() {
        Some(members) => set_from(alloc, tables, value, members),
        None => no_form(),
    }
}

fn set_in(
    alloc: Global,
    tables: &[Table],
    value: &Json,
    name: &str,
) -> Result<RowSet, Failure<FormFault>>
    ensures { Gives result (set_in tables.now name.now (view value.now)) }
{
    let found = field(value, name)?;
    set_of(alloc, tables, found)
}

fn row_in(alloc: Global, value: &Json, name: &str) -> Result<Row, Failure<FormFault>>
    ensures { Gives result (row_in name.now (view value.now)) }
{
    let found = field(value, name)?;
    row_of(alloc, found)
}

#[tactic(auto, unfolding(crate::specs::Reading::pair_from))]
fn pair_from(
    alloc: Global,
    tables: &[Table],
    value: &Json,
) -> Result<Counterexample, Failure<FormFault>>
    ensures { Gives result (pair_from tables.now (view value.now)) }
{
    let row = row_in(alloc, value, "row")?;
    let one = set_in(alloc, tables, value, "one")?;
    let two = set_in(alloc, tables, value, "two")?;
    Ok(Counterexample { one, two, row })
}

fn pair_form(
    alloc: Global,
    tables: &[Table],
    value: &Json,
    members: &Map<String, Json>,
) -> Result<Counterexample, Failure<FormFault>>
    ensures { Gives result
        (pair_form tables.now (view value.now) (members_view members.now.entries)) }
{
    if keys_are(&["one", "row", "two"], members) {
        pair_from(alloc, tables, value)
    } else {
        no_form()
    }
}

/// Two databases and a row.
pub(crate) fn pair_of(
    alloc: Global,
    tables: &[Table],
    value: &Json,
) -> Result<Counterexample, Failure<FormFault>>
    ensures { Gives result (pair_of tables.now (view value.now)) }
{
    match value.as_object() {
        Some(members) => pair_form(alloc, tables, value, members),
        None => no_form(),
    }
}
