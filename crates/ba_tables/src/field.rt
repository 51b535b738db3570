//! One field of a row.
ghost use Rattle.std.specs.Prelude.{◌≡◌, IsErrOf};
ghost use Rattle.std.specs.Str.{bytes_eq};
ghost use Rattle.ba_model.specs.Readings.{Gives};
ghost use Rattle.ba_tables.specs.TableFile.{is_null_text, null_field, number_of, says_null, some_value, value_at};

use crate::fault::TableFault;
use ba_model::{Column, Failure, Kind, Str, Value};
use std::alloc::Global;

const PLUS: u8 = b'+';

/// The number that a field spells: a minus sign or nothing, then digits, in 64 bits.
pub fn number_of(field: &str) -> Option<i64>
    ensures { result ≡ number_of field.now }
{
    let bytes = field.as_bytes();
    if bytes.is_empty() || bytes[0] == PLUS {
        return None;
    }
    field.parse::<i64>().ok()
}

fn is_null_field(field: &str) -> bool
    ensures { result ≡ bytes_eq field.now null_field }
{
    field == "\\N"
}

/// Whether a field says NULL in a column of this kind that may hold it.
fn is_null_text(kind: Kind, field: &str) -> bool
    ensures { result ≡ is_null_text kind field.now }
{
    match kind {
        Kind::Int => field.is_empty() || is_null_field(field),
        Kind::Text => is_null_field(field),
    }
}

fn says_null(column: &Column, field: &str) -> bool
    ensures { result ≡ says_null column.now field.now }
{
    column.nullable && is_null_text(column.kind, field)
}

/// The value of the field of a row and column. NULL and a number take no memory.
#[tactic(auto, unfolding(crate::specs::TableFile::value_at))]
pub fn value_at(
    alloc: Global,
    row: u64,
    place: u32,
    column: &Column,
    field: &str,
) -> Result<Value, Failure<TableFault>>
    ensures reads { Gives result (value_at row place column.now field.now) }
    ensures number { IsErrOf result Failure.NoMemory → column.now.kind ≡ Kind.Text }
{
    if says_null(column, field) {
        return Ok(Value::Null);
    }
    some_value(alloc, row, place, column.kind, field)
}

/// The value of a field that doesn't say NULL.
fn some_value(
    alloc: Global,
    row: u64,
    place: u32,
    kind: Kind,
    field: &str,
) -> Result<Value, Failure<TableFault>>
    ensures reads { Gives result (some_value row place kind field.now) }
    ensures number { IsErrOf result Failure.NoMemory → kind ≡ Kind.Text }
{
    match kind {
        Kind::Int => match number_of(field) {
            Some(number) => Ok(Value::Int(number)),
            None => Err(Failure::Fault(TableFault::BadNumber(row, place))),
        },
        Kind::Text => {
            let text = Str::new(alloc, field)?;
            Ok(Value::text(alloc, text)?)
        }
    }
}
