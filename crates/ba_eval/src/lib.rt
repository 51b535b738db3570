//! The answer of a query over a database: place by place of each part, by the orders that the database keeps and by indexes that
//! are made for the answer.
#![tactic(auto)]

mod found;
mod kept;
mod part;
mod place;
mod plain;
mod plan;
mod steps;
mod tie;
mod turn;

ghost use Rattle.std.specs.Prelude.{◌≡◌, ◌↔◌, ◌<◌, [], All, IsTrue, IfOk};
ghost use Rattle.ba_index.specs.Orders.{IsOrderOf};
ghost use Rattle.ba_model.specs.Meaning.{InAnswer, IsAnswer};
ghost use Rattle.ba_eval.specs.Search.{Adds};
ghost use Rattle.ba_eval.specs.Visits.{StepsWithin};

use crate::found::Found;
use crate::part::Search;
use crate::place::places_of;
use crate::plain::{are_few, plain_rows};
use crate::turn::turned;
use ba_index::{Indexed, Order};
use ba_model::{Context, List, Query, Row, RowSet};
use std::alloc::{AllocError, Global};
use std::marker::Brand;
use std::sync::ledger::{Blank, Ledger};
pub use steps::Steps;

/// The query's answer: the strictly rising list of exactly its rows.
///
/// Rows are ordered and compared with NULL as a value like any other, before all whole numbers, which are before all texts.
pub fn answer(
    alloc: Global,
    rows: &RowSet,
    ctx: &Context,
    query: &Query,
) -> Result<List<Row>, AllocError>
    ensures { IfOk result (λ list. IsAnswer query.now ctx.now rows.now list) }
{
    if are_few(rows, query) {
        let found = plain_rows(alloc, rows, ctx, query)?;
        return Ok(found.in_order());
    }
    answer_with::<Brand>(alloc, rows, ctx, query, Blank::new(1))
}

/// `answer`, which tells how many rows it reads: at most each row of each part's tables once, and once more for each
/// choice of rows for some of a part's first tables that makes true every equation between their columns, with
/// constants too.
///
/// The bound holds for an answer that is refused memory too.
pub fn answer_counted<L: Ledger>(
    alloc: Global,
    rows: &RowSet,
    ctx: &Context,
    query: &Query,
    steps: &mut Steps<L>,
) -> Result<List<Row>, AllocError>
    ensures answer { IfOk result (λ list. IsAnswer query.now ctx.now rows.now list) }
    ensures steps { StepsWithin ctx.now rows.now query.now.parts steps.old steps.new }
{
    let found = all_rows(alloc, rows, &[], ctx, query, true, steps)?;
    Ok(found.in_order())
}

/// `answer` over rows with the orders of their keys.
///
/// Where equations tie all columns of a key to constants, parameters or the tables before, the rows are found by that key's order,
/// and what else is asked of them is tested on these rows: a question for the row with a key reads that row alone. So it is where
/// they tie the first columns of a key and nothing else of the table. The tables of a part are taken in the turn that its equations
/// serve, whatever their turn in the text: what constants and parameters tie first, then what these tie.
pub fn answer_indexed(
    alloc: Global,
    rows: &Indexed,
    ctx: &Context,
    query: &Query,
) -> Result<List<Row>, AllocError>
    ensures { IfOk result (λ list. IsAnswer query.now ctx.now rows.now list) }
{
    let other = turned(alloc, rows.orders(), query)?;
    answer_unbounded::<Brand>(alloc, rows, ctx, &other, Blank::new(1))
}

/// `answer_indexed` in the turn of the text, which tells how many rows it reads: never more than [`answer_counted`] may. So a key's
/// order serves only where equations tie its first columns and nothing else of the table.
pub fn answer_indexed_counted<L: Ledger>(
    alloc: Global,
    rows: &Indexed,
    ctx: &Context,
    query: &Query,
    steps: &mut Steps<L>,
) -> Result<List<Row>, AllocError>
    ensures answer { IfOk result (λ list. IsAnswer query.now ctx.now rows.now list) }
    ensures steps { StepsWithin ctx.now rows.now query.now.parts steps.old steps.new }
{
    let found = all_rows(alloc, rows.rows(), rows.orders(), ctx, query, true, steps)?;
    Ok(found.in_order())
}

/// `answer_indexed` in the turn of the text.
fn answer_unbounded<L: Ledger>(
    alloc: Global,
    rows: &Indexed,
    ctx: &Context,
    query: &Query,
    blank: Blank,
) -> Result<List<Row>, AllocError>
    requires name { blank.name ≡ L.name }
    requires parts { blank.parts ≡ L.parts }
    requires some { 0 < blank.parts }
    ensures { IfOk result (λ list. IsAnswer query.now ctx.now rows.now list) }
{
    let mut steps = Steps::<L>::new(blank);
    let found = all_rows(
        alloc,
        rows.rows(),
        rows.orders(),
        ctx,
        query,
        false,
        &mut steps,
    )?;
    Ok(found.in_order())
}

fn answer_with<L: Ledger>(
    alloc: Global,
    rows: &RowSet,
    ctx: &Context,
    query: &Query,
    blank: Blank,
) -> Result<List<Row>, AllocError>
    requires name { blank.name ≡ L.name }
    requires parts { blank.parts ≡ L.parts }
    requires some { 0 < blank.parts }
    ensures { IfOk result (λ list. IsAnswer query.now ctx.now rows.now list) }
{
    let mut steps = Steps::<L>::new(blank);
    answer_counted(alloc, rows, ctx, query, &mut steps)
}

/// Whether the row is one of the query's. The search ends at the first part and the first rows that give it.
pub fn contains(
    alloc: Global,
    rows: &RowSet,
    ctx: &Context,
    query: &Query,
    row: &Row,
) -> Result<bool, AllocError>
    ensures { IfOk result (λ found. IsTrue found ↔ InAnswer query.now ctx.now rows.now row.now) }
{
    for part in query.parts.as_slice() {
        let mut chosen = Vec::new(alloc);
        let search = Search {
            rows,
            orders: &[],
            ctx,
            part,
            bounded: true,
        };
        let found = search.finds(part.from.as_slice(), &mut chosen, row)?;
        if found {
            return Ok(true);
        }
    }
    Ok(false)
}

/// The rows that the parts give.
fn all_rows<L: Ledger>(
    alloc: Global,
    rows: &RowSet,
    orders: &[Order],
    ctx: &Context,
    query: &Query,
    bounded: bool,
    steps: &mut Steps<L>,
) -> Result<Found, AllocError>
    requires { All (IsOrderOf rows.now) orders.now }
    ensures found { IfOk result (λ found. Adds (InAnswer query.now ctx.now rows.now) [] found) }
    ensures steps { IsTrue bounded → StepsWithin ctx.now rows.now query.now.parts steps.old steps.new }
{
    let mut found = Found::new(alloc);
    for part in query.parts.as_slice() {
        let mut chosen = Vec::new(alloc);
        let search = Search {
            rows,
            orders,
            ctx,
            part,
            bounded,
        };
        let places = places_of(alloc, &search, steps)?;
        search.gather(alloc, places.as_slice(), &mut chosen, &mut found, steps)?;
    }
    Ok(found)
}
