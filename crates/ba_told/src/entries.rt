//! Told rows under the parts that they can be of.
ghost use Rattle.std.specs.Prelude.{◌≡◌, ◌<◌, ◌≤◌, ◌++◌, [], All, IfOk, OnOk, length};
ghost use Rattle.ba_model.specs.Limits.{most_parts};
ghost use Rattle.ba_parts.specs.Parts.{alone};
ghost use Rattle.ba_parts.specs.Recording.{AreEntries, HasMisfit, Misfits};
ghost use Rattle.ba_told.specs.Places.{AreByPlace, IsPlace, IsPut, IsShort, behind, entry_in, question_at};

use crate::can_be::can_be_of;
use ba_comply::TraceEntry;
use ba_model::{Context, Duplicate, Failure, List, Part, Query, Row, Schema, Shared};
use std::alloc::{AllocError, Global};

/// Why told rows are refused: one can be of no part of the question.
#[derive(Clone, Copy, Debug, PartialEq, Eq)]
pub struct Misfit;

/// The part as a question of its own.
pub fn alone(alloc: Global, part: &Part) -> Result<Query, AllocError>
    ensures { IfOk result (λ query. query ≡ alone part.now) }
{
    let mut parts = List::new(alloc);
    parts.push(part.copy(alloc)?)?;
    Ok(Query { parts })
}

/// Under what a row is recorded.
#[derive(Clone, Copy, Debug, PartialEq, Eq)]
pub(crate) enum Place {
    /// It can be of no part.
    Nowhere,
    /// The part of this number alone, which is the only one that it can be of.
    Alone(usize),
    /// It can be of several parts.
    Whole,
}

// Where the row is recorded, if a part more stands in front of those that this place is of.
fn behind(is_of_first: bool, place: Place) -> Place
    requires { IsShort place }
    ensures { result ≡ behind is_of_first place }
{
    match (is_of_first, place) {
        (false, Place::Nowhere) => Place::Nowhere,
        (false, Place::Alone(number)) => Place::Alone(number + 1),
        (true, Place::Nowhere) => Place::Alone(0),
        (_, Place::Whole) | (true, Place::Alone(_)) => Place::Whole,
    }
}

// Where the row is recorded of these parts.
fn place_of(schema: &Schema, context: &Context, parts: &[Part], row: &Row) -> Place
    requires { length parts.now ≤ most_parts }
    ensures { IsPlace schema.now context.now row.now parts.now result }
{
    let Some((part, parts)) = parts.split_first() else {
        return Place::Nowhere;
    };
    let place = place_of(schema, context, parts, row);
    behind(can_be_of(schema, context, part, row), place)
}

// So many empty lists.
fn empty_lists(alloc: Global, count: usize) -> Result<Vec<List<Row>>, AllocError>
    ensures many { IfOk result (λ lists. length lists.items ≡ count) }
    ensures empty { IfOk result (λ lists. All (λ list. list ≡ []) lists.items) }
{
    let mut lists = Vec::with_capacity(alloc, count)?;
    for _ in 0..count {
        lists.push(List::new(alloc))?;
    }
    Ok(lists)
}

// Puts a row behind those of the list of this number.
fn put(lists: &mut Vec<List<Row>>, number: usize, row: Row) -> Result<(), AllocError>
    requires { number < length lists.old.items }
    ensures { OnOk result (IsPut number row lists.old.items lists.new.items) }
{
    lists[number].push(row)
}

// The rows by their places: those of a part alone at its number, and those of the whole behind them.
fn by_place(
    alloc: Global,
    schema: &Schema,
    context: &Context,
    query: &Query,
    rows: List<Row>,
) -> Result<Vec<List<Row>>, Failure<Misfit>>
    requires { length query.now.parts ≤ most_parts }
    ensures sorted { IfOk result (λ lists.
        AreByPlace schema.now context.now query.now.parts rows lists.items) }
    ensures misfit { Misfits result (HasMisfit schema.now context.now query.now rows) }
{
    let parts = query.parts.as_slice();
    let mut lists = empty_lists(alloc, parts.len() + 1)?;
    for row in rows.into_vec() {
        match place_of(schema, context, parts, &row) {
            Place::Nowhere => return Err(Failure::Fault(Misfit)),
            Place::Alone(number) => put(&mut lists, number, row)?,
            Place::Whole => put(&mut lists, parts.len(), row)?,
        }
    }
    Ok(lists)
}

// The question under which the rows of a place are recorded.
fn question_at(
    alloc: Global,
    query: &Shared<Query>,
    place: usize,
) -> Result<Shared<Query>, AllocError>
    ensures { IfOk result (λ it. it ≡ question_at query.now place) }
{
    if query.parts.len() < 2 {
        return query.copy(alloc);
    }
    match query.parts.find(place) {
        Some(part) => Shared::new(alloc, alone(alloc, part)?),
        None => query.copy(alloc),
    }
}

// Adds the entry of the list of this number, unless that is empty.
fn push_entry(
    alloc: Global,
    query: &Shared<Query>,
    place: usize,
    rows: List<Row>,
    entries: &mut Vec<TraceEntry>,
) -> Result<(), AllocError>
    ensures { OnOk result (entries.new.items ≡ entries.old.items ++ entry_in query.now place rows) }
{
    if rows.len() == 0 {
        return Ok(());
    }
    let query = question_at(alloc, query, place)?;
    let rows = Shared::new(alloc, rows)?;
    entries.push(TraceEntry { query, rows })?;
    Ok(())
}

/// The entries of a trace that tell these rows of the question: each row stands under the one part
/// that it can be of, or, where it can be of several, under the whole question. The order of the
/// entries is that of the parts, with the whole behind them, and an entry has at least one row.
///
/// # Errors
/// `Fault` where a row can be of no part of the question: it has another width, another kind of
/// value, or NULL where the question gives none, or it breaks the conditions of each part.
pub fn entries_of(
    alloc: Global,
    schema: &Schema,
    context: &Context,
    query: &Shared<Query>,
    rows: List<Row>,
) -> Result<Vec<TraceEntry>, Failure<Misfit>>
    requires { length query.now.parts ≤ most_parts }
    ensures entries { IfOk result (λ entries.
        AreEntries schema.now context.now query.now rows entries.items) }
    ensures misfit { Misfits result (HasMisfit schema.now context.now query.now rows) }
{
    let lists = by_place(alloc, schema, context, query, rows)?;
    let mut entries = Vec::new(alloc);
    let mut place = 0;
    for rows in lists {
        push_entry(alloc, query, place, rows, &mut entries)?;
        place += 1;
    }
    Ok(entries)
}
