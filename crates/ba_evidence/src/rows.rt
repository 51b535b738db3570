//! Rows as JSON.
ghost use Rattle.std.specs.Prelude.{◌≡◌, All, IfOk};
ghost use Rattle.serde_json.specs.View.{view};
ghost use Rattle.ba_proof.specs.ReadBack.{ValueSpells};
ghost use Rattle.ba_wire.specs.Printed.{row_json, rows_json, value_json};

use ba_model::{Row, Value};
use ba_proof::value_json as proof_value;
use serde_json::Value as Json;
use std::alloc::{AllocError, Global};

/// A value: NULL is `null`, a whole number is that number, a text is that string.
fn value_json(alloc: Global, value: &Value) -> Result<Json, AllocError>
    ensures json { IfOk result (λ v. view v ≡ value_json value.now) }
    ensures bits { IfOk result (λ _. ValueSpells value.now) }
{
    proof_value(alloc, value)
}

/// The array of a row's values, whose numbers have 64 bits.
pub(crate) fn row_json(alloc: Global, row: &[Value]) -> Result<Json, AllocError>
    ensures json { IfOk result (λ v. view v ≡ row_json row.now) }
    ensures bits { IfOk result (λ _. All ValueSpells row.now) }
{
    let mut items = Vec::with_capacity(alloc, row.len())?;
    for value in row {
        items.push(value_json(alloc, value)?)?;
    }
    Ok(Json::Array(items))
}

/// The array of the rows, whose numbers have 64 bits.
pub(crate) fn rows_json(alloc: Global, rows: &[Row]) -> Result<Json, AllocError>
    ensures json { IfOk result (λ v. view v ≡ rows_json rows.now) }
    ensures bits { IfOk result (λ _. All (All ValueSpells) rows.now) }
{
    let mut items = Vec::with_capacity(alloc, rows.len())?;
    for row in rows {
        items.push(row_json(alloc, row.as_slice())?)?;
    }
    Ok(Json::Array(items))
}
