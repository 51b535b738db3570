//! Lines that tell rows.
ghost use Rattle.std.specs.Prelude.{◌≡◌, IfOk};
ghost use Rattle.serde_json.specs.View.{items_view, view};
ghost use Rattle.ba_model.specs.Readings.{Gives};
ghost use Rattle.ba_event.specs.Events.{each_item, row_at, rows_at, told_at, told_of, value_at};

use crate::event::{Event, EventFault};
use ba_model::{Failure, List, Row, Str, Value};
use serde_json::Value as Json;
use std::alloc::Global;

/// The told rows that bytes are.
pub(crate) fn read_told(alloc: Global, bytes: &[u8]) -> Result<Event, Failure<EventFault>>
    ensures { Gives result (told_of bytes.now) }
{
    match Json::from_slice(alloc, bytes) {
        Ok(value) => told_at(alloc, &value),
        Err(e) => {
            if e.is_memory() {
                Err(Failure::NoMemory)
            } else {
                Err(Failure::Fault(EventFault::Json))
            }
        }
    }
}

fn told_at(alloc: Global, value: &Json) -> Result<Event, Failure<EventFault>>
    ensures { Gives result (told_at (view value.now)) }
{
    let Some(map) = value.as_object() else {
        return Err(Failure::Fault(EventFault::Shape));
    };
    let mut members = map.iter();
    let (Some((first, head)), Some((second, tail)), None) = (
        members.next(),
        members.next(),
        members.next(),
    ) else {
        return Err(Failure::Fault(EventFault::Shape));
    };
    if first.as_str() != "rows" || second.as_str() != "told" {
        return Err(Failure::Fault(EventFault::Shape));
    }
    let Some(line) = tail.as_u64() else {
        return Err(Failure::Fault(EventFault::Shape));
    };
    let rows = rows_at(alloc, head)?;
    Ok(Event::Told { line, rows })
}

#[tactic(auto, unfolding(crate::specs::Events::rows_at))]
fn rows_at(alloc: Global, value: &Json) -> Result<List<Row>, Failure<EventFault>>
    ensures { Gives result (rows_at (view value.now)) }
{
    match value.as_array() {
        Some(items) => each_row(alloc, items.as_slice()),
        None => Err(Failure::Fault(EventFault::Shape)),
    }
}

fn each_row(alloc: Global, items: &[Json]) -> Result<List<Row>, Failure<EventFault>>
    ensures { Gives result (each_item row_at (items_view items.now)) }
{
    let mut rows = List::new(alloc);
    for item in items {
        let row = row_at(alloc, item)?;
        rows.push(row)?;
    }
    Ok(rows)
}

#[tactic(auto, unfolding(crate::specs::Events::row_at))]
fn row_at(alloc: Global, value: &Json) -> Result<Row, Failure<EventFault>>
    ensures { Gives result (row_at (view value.now)) }
{
    match value.as_array() {
        Some(items) => each_value(alloc, items.as_slice()),
        None => Err(Failure::Fault(EventFault::Shape)),
    }
}

fn each_value(alloc: Global, items: &[Json]) -> Result<Row, Failure<EventFault>>
    ensures { Gives result (each_item value_at (items_view items.now)) }
{
    let mut row = List::new(alloc);
    for item in items {
        let value = value_at(alloc, item)?;
        row.push(value)?;
    }
    Ok(row)
}

#[tactic(auto, unfolding(crate::specs::Events::value_at))]
fn value_at(alloc: Global, value: &Json) -> Result<Value, Failure<EventFault>>
    ensures { Gives result (value_at (view value.now)) }
{
    if value.is_null() {
        return Ok(Value::Null);
    }
    if let Some(text) = value.as_str() {
        let text = Str::new(alloc, text)?;
        return Ok(Value::text(alloc, text)?);
    }
    match value.as_i64() {
        Some(n) => Ok(Value::Int(n)),
        None => Err(Failure::Fault(EventFault::Shape)),
    }
}
