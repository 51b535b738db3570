//! The rows that a place of a part can take, found by the values that equations tie them to.
ghost use Rattle.std.specs.Prelude.{◌≡◌, ◌+◌, ◌<◌, ◌≤◌, All, IfOk, Some, length, map, slice_get};
ghost use Rattle.ba_eval.specs.Visits.{rows_read};
ghost use Rattle.ba_model.specs.Meaning.{rows_of};
ghost use Rattle.ba_eval.specs.Index.{key_of, AreCandidates, ArePlaces, AreTies, Entered, HaveKey, HaveKeyIfAny, HaveNumbers, IsEntryOf, IsOrdered, IsPlace};
ghost use Rattle.ba_index.specs.Orders.{IsOrderOf};
ghost use Rattle.ba_model.specs.Order.{row_cmp};
ghost use Rattle.std.specs.List.Sorted.{IsSortedByKey};

use crate::kept::{kept_by, numbers_in_order};
use crate::part::{Search, rows_of_table};
use crate::steps::Steps;
use crate::tie::{Tie, key_of_chosen, key_of_row, meets_within, ties_of};
use ba_index::Order;
use ba_model::{List, Row, Value};
use std::alloc::{AllocError, Global};
use std::cmp::Ordering;
use std::sync::ledger::Ledger;

/// A row of a table: its number and the values of its tied columns, none of which is NULL.
#[derive(Drop)]
pub struct Entry<'a> {
    pub key: List<&'a Value>,
    pub number: usize,
}

/// What the rows of a place are found by.
#[derive(Drop)]
pub enum Source<'a> {
    /// The entries of the table's rows that meet the equations within the place, by key.
    Made(Vec<Entry<'a>>),
    /// An order of the table, whose first columns are tied: in a bounded search by every equation that the place settles.
    Kept(&'a Order),
}

/// A place of a part: an index of its table's rows by the columns that equations tie to what stands outside the place and
/// those after it.
#[derive(Drop)]
pub struct Place<'a> {
    pub table: u32,
    pub rows: &'a [Row],
    pub ties: Vec<Tie<'a>>,
    pub source: Source<'a>,
}

impl<'a> Place<'a> {
    /// The place with this number, over the table's rows; `once` says that it is asked for rows once.
    pub fn new<L: Ledger>(
        alloc: Global,
        search: &Search<'a>,
        at: usize,
        once: bool,
        table: u32,
        steps: &mut Steps<L>,
    ) -> Result<Place<'a>, AllocError>
        requires { All (IsOrderOf search.now.rows.now) search.now.orders.now }
        ensures table { IfOk result (λ place. place.table ≡ table) }
        ensures place { IfOk result (IsPlace search.now.bounded search.now.ctx.now search.now.rows.now search.now.part.now at) }
        ensures steps { steps.new ≤ steps.old + length (rows_of search.now.rows.now table) }
    {
        let rows = rows_of_table(search.rows, table);
        let ties = ties_of(alloc, search.part.conds.as_slice(), at)?;
        let kept = kept_by(alloc, search, at, once, table, ties.as_slice())?;
        match kept {
            Some(by) => Ok(Place {
                table,
                rows,
                ties: by.ties,
                source: Source::Kept(by.order),
            }),
            None => Place::made(alloc, search, at, table, ties, steps),
        }
    }

    /// The place over an index that is made for the answer. Each row of the table is read once.
    fn made<L: Ledger>(
        alloc: Global,
        search: &Search<'a>,
        at: usize,
        table: u32,
        ties: Vec<Tie<'a>>,
        steps: &mut Steps<L>,
    ) -> Result<Place<'a>, AllocError>
        requires { AreTies at search.now.part.now.conds ties.items }
        ensures table { IfOk result (λ place. place.table ≡ table) }
        ensures place { IfOk result (IsPlace search.now.bounded search.now.ctx.now search.now.rows.now search.now.part.now at) }
        ensures steps { steps.new ≤ steps.old + length (rows_of search.now.rows.now table) }
    {
        let rows = rows_of_table(search.rows, table);
        let mut entries = entries_of(alloc, search, at, rows, ties.as_slice(), steps)?;
        put_in_order(&mut entries);
        Ok(Place {
            table,
            rows,
            ties,
            source: Source::Made(entries),
        })
    }

    /// Whether it finds one row at most, if the columns of an order are a key.
    fn finds_one(&self) -> bool {
        match &self.source {
            Source::Made(entries) => entries.len() < 2,
            Source::Kept(order) => self.ties.len() >= order.columns.len(),
        }
    }

    /// The numbers of the rows that make the place's equations true beside the chosen rows: in a bounded search of no other rows.
    pub fn candidates(
        &self,
        alloc: Global,
        search: &Search<'a>,
        chosen: &[&'a Row],
    ) -> Result<Vec<usize>, AllocError>
        requires { IsPlace search.now.bounded search.now.ctx.now search.now.rows.now search.now.part.now (length (map (λ row. row.now) chosen.now)) self.now }
        ensures { IfOk result (λ numbers. AreCandidates search.now.bounded search.now.ctx.now search.now.rows.now search.now.part.now self.now.table (map (λ row. row.now) chosen.now) numbers.items) }
    {
        let key = key_of_chosen(alloc, self.ties.as_slice(), search.ctx, chosen)?;
        match &self.source {
            Source::Made(entries) => numbers_at(alloc, entries.as_slice(), &key),
            Source::Kept(order) => numbers_in_order(alloc, order, self.rows, &key),
        }
    }
}

/// The numbers of the entries that have the key.
fn numbers_at<'a>(
    alloc: Global,
    entries: &[Entry<'a>],
    key: &Option<List<&'a Value>>,
) -> Result<Vec<usize>, AllocError>
    requires { IsSortedByKey key_of row_cmp entries.now }
    ensures { IfOk result (λ numbers. HaveNumbers entries.now key.now numbers.items) }
{
    let found = entries_at(entries, key);
    let mut numbers = Vec::new(alloc);
    for entry in found {
        numbers.push(entry.number)?;
    }
    Ok(numbers)
}

/// The entries that have the key.
fn entries_at<'b, 'a>(entries: &'b [Entry<'a>], key: &Option<List<&'a Value>>) -> &'b [Entry<'a>]
    requires { IsSortedByKey key_of row_cmp entries.now }
    ensures { HaveKeyIfAny entries.now key.now result.now }
{
    match key {
        Some(values) => entries_with(entries, values.as_slice()),
        None => &[],
    }
}

/// The entries of the rows that meet the equations within the place.
fn entries_of<'a, L: Ledger>(
    alloc: Global,
    search: &Search<'a>,
    at: usize,
    rows: &'a [Row],
    ties: &[Tie<'a>],
    steps: &mut Steps<L>,
) -> Result<Vec<Entry<'a>>, AllocError>
    ensures entries { IfOk result (λ entries. Entered search.now.ctx.now search.now.part.now.conds at rows.now ties.now (length rows.now) entries.items) }
    ensures steps { steps.new ≤ steps.old + length rows.now }
{
    let mut entries = Vec::new(alloc);
    for number in 0..rows.len() {
        let row = read_row(rows, number, steps);
        let entry = entry_of(alloc, search, at, row, number, ties)?;
        match entry {
            Some(own) => entries.push(own)?,
            None => {}
        }
    }
    Ok(entries)
}

/// The row with this number. Each reading of a row is a step.
pub fn read_row<'a, L: Ledger>(rows: &'a [Row], number: usize, steps: &mut Steps<L>) -> &'a Row
    requires { number < length rows.now }
    ensures row { slice_get rows.now number ≡ Some result.now }
    ensures steps { steps.new ≡ steps.old + 1 }
{
    steps.tick();
    &rows[number]
}

/// The entry of a row, if it meets the equations within the place and can be equal to something in its tied columns.
fn entry_of<'a>(
    alloc: Global,
    search: &Search<'a>,
    at: usize,
    row: &'a Row,
    number: usize,
    ties: &[Tie<'a>],
) -> Result<Option<Entry<'a>>, AllocError>
    ensures { IfOk result (IsEntryOf search.now.ctx.now search.now.part.now.conds at row.now ties.now number) }
{
    if !meets_within(search.part.conds.as_slice(), search.ctx, at, row) {
        return Ok(None);
    }
    let key = key_of_row(alloc, ties, row)?;
    match key {
        Some(values) => Ok(Some(Entry {
            key: values,
            number,
        })),
        None => Ok(None),
    }
}

fn put_in_order(entries: &mut Vec<Entry>)
    ensures { IsOrdered entries.old.items entries.new.items }
{
    entries.sort_unstable_by(|a, b| key_order(a.key.as_slice(), b.key.as_slice()));
}

/// Those of the entries in order that have the key.
fn entries_with<'b, 'a>(entries: &'b [Entry<'a>], key: &[&'a Value]) -> &'b [Entry<'a>]
    requires { IsSortedByKey key_of row_cmp entries.now }
    ensures { HaveKey entries.now (map (λ v. v.now) key.now) result.now }
{
    let lesser = entries.partition_point(|entry| key_order(entry.key.as_slice(), key).is_lt());
    let rest = &entries[lesser..];
    let same = rest.partition_point(|entry| key_order(entry.key.as_slice(), key).is_le());
    &rest[..same]
}

fn key_order(a: &[&Value], b: &[&Value]) -> Ordering
    ensures { result ≡ row_cmp (map (λ v. v.now) a.now) (map (λ v. v.now) b.now) }
{
    a.cmp(b)
}

/// The places of the part in turn. Each row of their tables is read once at most.
pub fn places_of<'a, L: Ledger>(
    alloc: Global,
    search: &Search<'a>,
    steps: &mut Steps<L>,
) -> Result<Vec<Place<'a>>, AllocError>
    requires { All (IsOrderOf search.now.rows.now) search.now.orders.now }
    ensures tables { IfOk result (λ places. map (λ place. place.table) places.items ≡ search.now.part.now.from) }
    ensures places { IfOk result (λ places. ArePlaces search.now.bounded search.now.ctx.now search.now.rows.now search.now.part.now 0 places.items) }
    ensures steps { steps.new ≤ steps.old + rows_read search.now.rows.now search.now.part.now }
{
    let mut places = Vec::new(alloc);
    let mut once = true;
    for table in search.part.from.as_slice() {
        let place = Place::new(alloc, search, places.len(), once, *table, steps)?;
        once = once && place.finds_one();
        places.push(place)?;
    }
    Ok(places)
}
