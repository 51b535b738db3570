//! Sets of tables that break a rule of their schema.
ghost use Rattle.std.specs.Prelude.{[]};
ghost use Rattle.ba_model.specs.Fit.{IsQuery};
ghost use Rattle.ba_model.specs.RuleFaults.{AreRules};

use crate::hint::{Hint, Spot};
use crate::names::literal_text;
use ba_model::{List, Query, Row, Schema, Value};
use ba_place::{LIST_CHARS, shown};
use ba_sql_print::print_query;
use std::alloc::{AllocError, Global};

// The values of a row between brackets.
fn row_text(alloc: Global, row: &[Value]) -> Result<String, AllocError> {
    let mut texts = Vec::new(alloc);
    for value in row {
        let text = literal_text(alloc, value)?;
        texts.push(text)?;
    }
    let inside = texts.join(alloc, ", ")?;
    format!(in alloc; "({inside})")
}

// A query without parameters, in SQL.
fn query_text(alloc: Global, schema: &Schema, query: &Query) -> Result<String, AllocError>
    requires { IsQuery schema.now [] [] query.now }
{
    let none = List::new(alloc);
    let text = print_query(alloc, schema, &none, query)?;
    shown(alloc, text.as_bytes(), LIST_CHARS)
}

/// A hint on a row of a rule's left query that isn't one of its right query: both queries in SQL,
/// and the row.
pub fn rule_hint(
    alloc: Global,
    schema: &Schema,
    number: u32,
    row: &Row,
) -> Result<Option<Hint>, AllocError>
    requires { AreRules schema.now }
{
    let Some(rule) = schema.rules.find(number as usize) else {
        return Ok(None);
    };
    let left = query_text(alloc, schema, &rule.left)?;
    let right = query_text(alloc, schema, &rule.right)?;
    let row = row_text(alloc, row.as_slice())?;
    let text = format!(in alloc;
        "rule {number} is broken: {row} is a row of {left}, and no row of {right}"
    )?;
    let spot = Spot::Unknown;
    Ok(Some(Hint { spot, text }))
}
