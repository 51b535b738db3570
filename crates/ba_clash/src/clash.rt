//! Whether told rows clash.
ghost use Rattle.std.specs.Prelude.{◌≡◌, ◌≢◌, ◌↔◌, ◌<◌, ℕ, All, Any, IsTrue, length};
ghost use Rattle.std.specs.Option.{option_copied};
ghost use Rattle.ba_model.specs.declared.value.Value.TheVariants.{Null};
ghost use Rattle.ba_clash.specs.Clash.{AreFew, Clashes, IsApart, IsShared};
ghost use Rattle.ba_clash.specs.Steps.{AreOne, Clash, Differ, IsFilled, IsMet, IsMetAt, IsMetEntry, IsMetIn, KnowsKey, MeetsAt, MeetsEntry, MeetsIn, MeetsNew, MeetsOld, only_of, told, told_of};

use crate::count::are_few;
use crate::known::{Read, known};
use ba_comply::{Trace, TraceEntry};
use ba_model::{Context, List, Part, Query, Row, Same, Schema, Table, Value};

fn is_null(value: &Value) -> bool
    ensures { IsTrue result ↔ (value.now ≡ Null) }
{
    match value {
        Value::Null => true,
        Value::Int(_) | Value::Text(_) => false,
    }
}

// ---- one new row

// Whether the row knows a value of the column that isn't NULL.
fn is_filled(context: &Context, it: &Read<'_>, column: usize) -> bool
    ensures { IsTrue result ↔ IsFilled context.now (told_of it.now) column }
{
    match known(context, it, column) {
        Some(value) => !is_null(value),
        None => false,
    }
}

// Whether it knows values of all columns, none of them NULL.
fn are_filled(context: &Context, it: &Read<'_>, columns: &[u32]) -> bool
    ensures { IsTrue result ↔ All (IsFilled context.now (told_of it.now)) columns.now }
{
    columns
        .iter()
        .all(|column| is_filled(context, it, *column as usize))
}

// Whether the row knows a key of the table.
fn knows_key(context: &Context, table: &Table, it: &Read<'_>) -> bool
    ensures { IsTrue result ↔ KnowsKey context.now table.now (told_of it.now) }
{
    let keys = table.keys.as_slice();
    keys.iter()
        .any(|key| are_filled(context, it, key.as_slice()))
}

// ---- two rows

// Whether both know the same value of the column, and it isn't NULL.
fn is_shared(context: &Context, one: &Read<'_>, other: &Read<'_>, column: usize) -> bool
    ensures { IsTrue result ↔ IsShared context.now (told_of one.now) (told_of other.now) column }
{
    match known(context, one, column) {
        Some(mine) => match known(context, other, column) {
            Some(its) => mine.same(its) && !is_null(mine),
            None => false,
        },
        None => false,
    }
}

// Whether they know different values of the column.
fn is_apart(context: &Context, one: &Read<'_>, other: &Read<'_>, column: usize) -> bool
    ensures { IsTrue result ↔ IsApart context.now (told_of one.now) (told_of other.now) column }
{
    match known(context, one, column) {
        Some(mine) => match known(context, other, column) {
            Some(its) => !mine.same(its),
            None => false,
        },
        None => false,
    }
}

// Whether both know the same values of all columns, none of them NULL.
fn are_shared(context: &Context, one: &Read<'_>, other: &Read<'_>, columns: &[u32]) -> bool
    ensures { IsTrue result
        ↔ All (IsShared context.now (told_of one.now) (told_of other.now)) columns.now }
{
    columns
        .iter()
        .all(|column| is_shared(context, one, other, *column as usize))
}

// Whether they are one row of the table by a key.
fn are_one(context: &Context, table: &Table, one: &Read<'_>, other: &Read<'_>) -> bool
    ensures { IsTrue result
        ↔ AreOne context.now table.now (told_of one.now) (told_of other.now) }
{
    let keys = table.keys.as_slice();
    keys.iter()
        .any(|key| are_shared(context, one, other, key.as_slice()))
}

// Whether they differ in a column of the table.
fn differ(context: &Context, table: &Table, one: &Read<'_>, other: &Read<'_>) -> bool
    ensures { IsTrue result
        ↔ Differ context.now table.now (told_of one.now) (told_of other.now) }
{
    for column in 0..table.columns.len() {
        if is_apart(context, one, other, column) {
            return true;
        }
    }
    false
}

// Whether they are one row of the table and differ.
fn clash(context: &Context, table: &Table, one: &Read<'_>, other: &Read<'_>) -> bool
    ensures { IsTrue result
        ↔ Clash context.now table.now (told_of one.now) (told_of other.now) }
{
    are_one(context, table, one, other) && differ(context, table, one, other)
}

// ---- the rows of entries

// The part of a question that has no other.
fn only_part(query: &Query) -> Option<&Part>
    ensures { option_copied result ≡ only_of query.now.parts }
{
    match query.parts.as_slice() {
        [part] => Some(part),
        _ => None,
    }
}

// Whether one of the rows, read at the place, clashes with the one.
fn meets_row(
    context: &Context,
    table: &Table,
    one: &Read<'_>,
    part: &Part,
    rows: &[Row],
    place: usize,
) -> bool
    ensures { IsTrue result ↔ Any (λ row. Clash context.now table.now (told_of one.now)
        (told part.now row place)) rows.now }
{
    rows.iter().any(|row| {
        let other = Read {
            part,
            row: row.as_slice(),
            place,
        };
        clash(context, table, one, &other)
    })
}

// Whether the place has the table of this number, and a row read there clashes with the one.
fn meets_at(
    context: &Context,
    number: u32,
    table: &Table,
    one: &Read<'_>,
    part: &Part,
    rows: &[Row],
    place: usize,
) -> bool
    ensures { IsTrue result ↔ MeetsAt context.now number table.now (told_of one.now) part.now
        rows.now place }
{
    match part.from.find(place) {
        Some(at) => *at == number && meets_row(context, table, one, part, rows, place),
        None => false,
    }
}

// Whether at some place of the part a row clashes with the one.
fn meets_in(
    context: &Context,
    number: u32,
    table: &Table,
    one: &Read<'_>,
    part: &Part,
    rows: &[Row],
) -> bool
    ensures { IsTrue result ↔ MeetsIn context.now number table.now (told_of one.now) part.now
        rows.now }
{
    for place in 0..part.from.len() {
        if meets_at(context, number, table, one, part, rows, place) {
            return true;
        }
    }
    false
}

// Whether a row of the entry clashes with the one, and its question has one part.
fn meets_entry(
    context: &Context,
    number: u32,
    table: &Table,
    one: &Read<'_>,
    entry: &TraceEntry,
) -> bool
    ensures { IsTrue result
        ↔ MeetsEntry context.now number table.now (told_of one.now) entry.now }
{
    match only_part(&entry.query) {
        Some(part) => meets_in(context, number, table, one, part, entry.rows.as_slice()),
        None => false,
    }
}

// Whether a row that was told before clashes with the one.
fn meets_old(context: &Context, number: u32, table: &Table, one: &Read<'_>, old: &Trace) -> bool
    ensures { IsTrue result ↔ MeetsOld context.now number table.now (told_of one.now) old.now }
{
    for at in 0..old.len() {
        if meets_entry(context, number, table, one, old.entry(at)) {
            return true;
        }
    }
    false
}

// Whether a new row clashes with the one.
fn meets_new(
    context: &Context,
    number: u32,
    table: &Table,
    one: &Read<'_>,
    new: &[TraceEntry],
) -> bool
    ensures { IsTrue result ↔ MeetsNew context.now number table.now (told_of one.now) new.now }
{
    new.iter()
        .any(|entry| meets_entry(context, number, table, one, entry))
}

// ---- the new rows

// Whether any told row clashes with the new one. A row that knows no key is compared with none.
fn is_met(
    context: &Context,
    old: &Trace,
    new: &[TraceEntry],
    number: u32,
    table: &Table,
    one: &Read<'_>,
) -> bool
    ensures { IsTrue result
        ↔ IsMet context.now old.now new.now number table.now (told_of one.now) }
{
    knows_key(context, table, one)
        && (meets_old(context, number, table, one, old)
            || meets_new(context, number, table, one, new))
}

// Whether one of the new rows, read at the place, clashes with a told row.
fn is_row_met(
    context: &Context,
    old: &Trace,
    new: &[TraceEntry],
    number: u32,
    table: &Table,
    part: &Part,
    rows: &[Row],
    place: usize,
) -> bool
    ensures { IsTrue result ↔ Any (λ row. IsMet context.now old.now new.now number table.now
        (told part.now row place)) rows.now }
{
    rows.iter().any(|row| {
        let one = Read {
            part,
            row: row.as_slice(),
            place,
        };
        is_met(context, old, new, number, table, &one)
    })
}

// Whether one of them does, read at the place with the table that stands there.
fn is_met_at(
    schema: &Schema,
    context: &Context,
    old: &Trace,
    new: &[TraceEntry],
    part: &Part,
    rows: &[Row],
    place: usize,
) -> bool
    ensures { IsTrue result
        ↔ IsMetAt schema.now context.now old.now new.now part.now rows.now place }
{
    match part.from.find(place) {
        Some(number) => match schema.tables.find(*number as usize) {
            Some(table) => is_row_met(context, old, new, *number, table, part, rows, place),
            None => false,
        },
        None => false,
    }
}

// Whether one of them does at some place of the part.
fn is_met_in(
    schema: &Schema,
    context: &Context,
    old: &Trace,
    new: &[TraceEntry],
    part: &Part,
    rows: &[Row],
) -> bool
    ensures { IsTrue result
        ↔ IsMetIn schema.now context.now old.now new.now part.now rows.now }
{
    for place in 0..part.from.len() {
        if is_met_at(schema, context, old, new, part, rows, place) {
            return true;
        }
    }
    false
}

// Whether a row of the new entry clashes with a told row, and its question has one part.
fn is_met_entry(
    schema: &Schema,
    context: &Context,
    old: &Trace,
    new: &[TraceEntry],
    entry: &TraceEntry,
) -> bool
    ensures { IsTrue result ↔ IsMetEntry schema.now context.now old.now new.now entry.now }
{
    match only_part(&entry.query) {
        Some(part) => is_met_in(schema, context, old, new, part, entry.rows.as_slice()),
        None => false,
    }
}

// Whether one of the new entries has such a row.
fn is_some_met(schema: &Schema, context: &Context, old: &Trace, new: &[TraceEntry]) -> bool
    ensures { IsTrue result ↔ Any (IsMetEntry schema.now context.now old.now new.now) new.now }
{
    new.iter()
        .any(|entry| is_met_entry(schema, context, old, new, entry))
}

// Whether told rows clash, however many pairs there are.
fn has_clash(schema: &Schema, context: &Context, old: &Trace, new: &[TraceEntry]) -> bool
    ensures { IsTrue result ↔ Clashes schema.now context.now old.now new.now }
{
    is_some_met(schema, context, old, new)
}

/// Whether a new row and any told row are plainly one row of a table and differ: they agree on a
/// key of the table, without NULL, and tell different values of a column of it. No database that
/// conforms to the schema shows two such rows ([`crate::laws::clashing_has_no_database`]).
///
/// A row tells the values of the columns in its part's head, and the constants that an equation of
/// the part fixes a column by. Rows of a question that has several parts tell nothing here.
///
/// The answer is exact where the pairs of each new row with each told row, old or new, are at most
/// [`MAX_COMPARED`](crate::MAX_COMPARED); where they are more, it is false. Takes no memory.
pub fn clashes(schema: &Schema, context: &Context, old: &Trace, new: &[TraceEntry]) -> bool
    ensures { IsTrue result
        ↔ (AreFew old.now new.now × Clashes schema.now context.now old.now new.now) }
{
    are_few(old, new) && has_clash(schema, context, old, new)
}
