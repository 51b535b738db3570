//! Lines of files that have an object in each.

use ba_script::script_lines;
use serde_json::Value;
use std::alloc::{AllocError, Global};

/// The line of a number, from 1.
pub(crate) fn line_at(bytes: &[u8], line: u64) -> &[u8] {
    let mut number = 0u64;
    for found in script_lines(bytes) {
        number = number.saturating_add(1);
        if number == line {
            return found;
        }
    }
    &[]
}

/// Why a line is no JSON.
pub(crate) fn json_text(alloc: Global, line: &[u8]) -> Result<String, AllocError> {
    if line.is_empty() {
        return String::from_str(alloc, "an empty line is no JSON: each line is an object");
    }
    match Value::from_slice(alloc, line) {
        Err(e) if e.is_memory() => Err(AllocError),
        Err(e) if e.column() > 0 => format!(in alloc;
            "it is no JSON from byte {} of the line on",
            e.column()
        ),
        _ => String::from_str(alloc, "it is no JSON"),
    }
}
