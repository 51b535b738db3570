//! NULL in columns of a row.
ghost use Rattle.std.specs.Prelude.{◌≡◌, option_copied};
ghost use Rattle.ba_tables.specs.Broken.{has_no_null, is_null};

use ba_model::{Row, Value};

/// Whether the value is there and is NULL.
pub fn is_null(value: Option<&Value>) -> bool
    ensures { result ≡ is_null (option_copied value.entry) }
{
    matches!(value, Some(Value::Null))
}

/// Whether the row has no NULL on the columns.
pub fn has_no_null(row: &Row, columns: &[u32]) -> bool
    ensures { result ≡ has_no_null row.now columns.now }
{
    match columns.split_first() {
        None => true,
        Some((column, rest)) => { !is_null(row.find(*column as usize)) && has_no_null(row, rest) }
    }
}
