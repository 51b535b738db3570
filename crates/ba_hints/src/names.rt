//! Literals and names in the words of a hint.

use ba_model::{Policy, Table, Value};
use ba_place::{WORD_CHARS, shown};
use std::alloc::{AllocError, Global};

/// A value as a literal of SQL: a text stands between quotes, and a quote inside it is doubled. Of
/// a text no more than `WORD_CHARS` characters are shown.
pub fn literal_text(alloc: Global, value: &Value) -> Result<String, AllocError> {
    match value {
        Value::Null => String::from_str(alloc, "NULL"),
        Value::Int(number) => number.to_string(alloc),
        Value::Text(text) => {
            let front = shown(alloc, text.as_bytes(), WORD_CHARS)?;
            let inside = front.as_str().replace(alloc, '\'', "''")?;
            format!(in alloc; "'{inside}'")
        }
    }
}

/// The name of the column of a number, from 0, of a table: `?` where there is none.
pub fn column_name(table: &Table, column: u32) -> &str {
    match table.columns.find(column as usize) {
        Some(column) => column.name.as_str(),
        None => "?",
    }
}

/// The name of the view of a number, from 0, of a policy: `?` where there is none.
pub fn view_name(policy: &Policy, number: usize) -> &str {
    match policy.views.find(number) {
        Some(view) => view.name.as_str(),
        None => "?",
    }
}
