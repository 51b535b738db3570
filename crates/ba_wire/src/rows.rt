//! The rows of an answer, written as JSON.
ghost use Rattle.std.specs.Prelude.{OnOk};
ghost use Rattle.serde_json.specs.Data.{number};
ghost use Rattle.serde_json.specs.Find.{of_integer};
ghost use Rattle.ba_wire.specs.Printed.{value_json, row_json, rows_json};
ghost use Rattle.ba_wire.specs.Appended.{Adds};

use ba_model::{List, Row, Value};
use json::Writer;
use std::alloc::AllocError;

/// Writes a number, of which a reader gives the same number back since it has 64 bits.
fn push_int(out: &mut Writer, n: i64) -> Result<(), AllocError>
    ensures { OnOk result (Adds (number (of_integer n)) out.old out.new) }
{
    out.i64(n)
}

/// Writes a value: NULL as `null`, a whole number in digits, a text as a JSON string.
fn push_value(out: &mut Writer, value: &Value) -> Result<(), AllocError>
    ensures { OnOk result (Adds (value_json value.now) out.old out.new) }
{
    match value {
        Value::Null => out.null(),
        Value::Int(n) => push_int(out, *n),
        Value::Text(text) => out.string(text.as_str()),
    }
}

/// Writes the array of a row's values.
pub fn push_row(out: &mut Writer, row: &Row) -> Result<(), AllocError>
    ensures { OnOk result (Adds (row_json row.now) out.old out.new) }
{
    out.begin_array()?;
    for value in row.as_slice() {
        push_value(out, value)?;
    }
    out.end_array()
}

/// Writes the array of the rows. `out` places the commas.
pub fn push_rows(out: &mut Writer, rows: &List<Row>) -> Result<(), AllocError>
    ensures { OnOk result (Adds (rows_json rows.now) out.old out.new) }
{
    out.begin_array()?;
    for row in rows.as_slice() {
        push_row(out, row)?;
    }
    out.end_array()
}
