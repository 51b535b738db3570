//! The tables' files.
ghost use Rattle.std.specs.Prelude.{◌≡◌, ◌++◌, ◌∷◌, IfOk, OnOk, codes, string_bytes};
ghost use Rattle.std.specs.List.{flat_map};
ghost use Rattle.ba_workload.specs.Tables.{field_of, fields_of, line_of, lines_of, next_field};

use ba_model::{Row, Value};
use std::alloc::{AllocError, Global};

/// Adds a value's field, as it is: none of a workload's texts needs quotes.
fn push_field(alloc: Global, text: &mut String, value: &Value) -> Result<(), AllocError>
    ensures { OnOk result (string_bytes text.new ≡ string_bytes text.old ++ field_of value.now) }
{
    match value {
        Value::Null => text.push_str("\\N"),
        Value::Int(n) => {
            let digits = format!(in alloc; "{n}")?;
            text.push_str(digits.as_str())
        }
        Value::Text(it) => text.push_str(it.as_str()),
    }
}

/// Adds the fields behind the first, each behind a comma.
fn push_next(alloc: Global, text: &mut String, values: &[Value]) -> Result<(), AllocError>
    ensures { OnOk result (string_bytes text.new
        ≡ string_bytes text.old ++ flat_map next_field values.now) }
{
    for value in values {
        text.push_str(",")?;
        push_field(alloc, text, value)?;
    }
    Ok(())
}

/// Adds a row's fields with commas between them.
fn push_fields(alloc: Global, text: &mut String, row: &[Value]) -> Result<(), AllocError>
    ensures { OnOk result (string_bytes text.new ≡ string_bytes text.old ++ fields_of row.now) }
{
    match row {
        [] => Ok(()),
        [first, next @ ..] => {
            push_field(alloc, text, first)?;
            push_next(alloc, text, next)
        }
    }
}

/// Adds a row's line.
fn push_line(alloc: Global, text: &mut String, row: &[Value]) -> Result<(), AllocError>
    ensures { OnOk result (string_bytes text.new ≡ string_bytes text.old ++ line_of row.now) }
{
    push_fields(alloc, text, row)?;
    text.push_str("\n")?;
    Ok(())
}

/// The file of a table: the header, and a line for each row.
pub(crate) fn table_text(alloc: Global, header: &str, rows: &[Row]) -> Result<String, AllocError>
    ensures { IfOk result (λ text. string_bytes text
        ≡ header.now ++ (codes "\n" ++ lines_of rows.now)) }
{
    let mut text = String::from_str(alloc, header)?;
    text.push_str("\n")?;
    for row in rows {
        push_line(alloc, &mut text, row.as_slice())?;
    }
    Ok(text)
}
