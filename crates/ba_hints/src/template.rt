//! Lines of a template file that are none.

use crate::hint::{Hint, Spot};
use crate::lines::{json_text, line_at};
use ba_place::{WORD_CHARS, shown};
use serde_json::Value;
use std::alloc::{AllocError, Global};

/// The fields of a template's line.
const FIELDS: [&str; 6] = ["condition", "entries", "goal", "steps", "vars", "version"];

/// What is told of a line of which no more is known.
const NO_OBJECT: &str = "it is no JSON object";

// What a field has to be.
fn field_text(field: &str) -> &'static str {
    match field {
        "version" => "version must be 1",
        "vars" => {
            "vars must list INT or TEXT for each variable, at most 64 with the policy's parameters"
        }
        "goal" =>
            "goal must be a query of the schema's tables, the policy's parameters and the vars",
        "entries" => {
            "entries must be at most 8, each a query and a row of its width and kinds, and each of the vars must stand in the goal or in one of them"
        }
        "condition" => {
            "each of condition must compare vars, the policy's parameters and literals of one kind"
        }
        "steps" => "steps must be at most 100000, each of the form of a step",
        _ => "the fields are condition, entries, goal, steps, vars and version, and no others",
    }
}

// Why the field of a name is bad; another name stands for a field that is none.
fn bad_field_text(alloc: Global, value: &Value, field: &str) -> Result<String, AllocError> {
    let must = field_text(field);
    if FIELDS.contains(&field) {
        return match value.get(field) {
            Some(_) => String::from_str(alloc, must),
            None => format!(in alloc; "it lacks {field}: {must}"),
        };
    }
    if let Some(members) = value.as_object() {
        for (key, _) in members.iter() {
            if !FIELDS.contains(&key.as_str()) {
                let key = shown(alloc, key.as_bytes(), WORD_CHARS)?;
                return format!(in alloc; "{key} is no field of it: {must}");
            }
        }
    }
    String::from_str(alloc, must)
}

// Why a line has no reading.
fn line_text(alloc: Global, line: &[u8], field: Option<&str>) -> Result<String, AllocError> {
    match Value::from_slice(alloc, line) {
        Err(_) => json_text(alloc, line),
        Ok(value) => match field {
            Some(field) => bad_field_text(alloc, &value, field),
            None => String::from_str(alloc, NO_OBJECT),
        },
    }
}

/// A hint on the line of a number, from 1, of a template file: the field of this name is bad,
/// `keys` where there is another one; or it is no JSON object, where none is named. Where the
/// file's bytes are given, it tells what the line has.
pub fn template_hint(
    alloc: Global,
    bytes: Option<&[u8]>,
    line: u64,
    field: Option<&str>,
) -> Result<Hint, AllocError> {
    let text = match (bytes, field) {
        (Some(bytes), _) => line_text(alloc, line_at(bytes, line), field)?,
        (None, Some(field)) => String::from_str(alloc, field_text(field))?,
        (None, None) => String::from_str(alloc, NO_OBJECT)?,
    };
    let spot = Spot::Line(line);
    Ok(Hint { spot, text })
}
