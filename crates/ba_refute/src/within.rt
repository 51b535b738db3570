//! Whether rows of one query are rows of another.
ghost use Rattle.std.specs.Prelude.{◌↔◌, All, IfOk, IsTrue};
ghost use Rattle.ba_comply.specs.Comply.{Shows, Within};
ghost use Rattle.ba_model.specs.Meaning.{InAnswer};
ghost use Rattle.ba_refute.specs.Counterexamples.{EntryIsShown, RowsPass, ViewsWithin};

use ba_comply::{Trace, TraceEntry};
use ba_eval::{answer, contains};
use ba_model::{Context, Policy, Query, Row, RowSet, View};
use std::alloc::{AllocError, Global};

/// Whether each row is one of the query's.
fn all_in(
    alloc: Global,
    ctx: &Context,
    rows: &[Row],
    query: &Query,
    database: &RowSet,
) -> Result<bool, AllocError>
    ensures { IfOk result
        (λ found. IsTrue found ↔ All (InAnswer query.now ctx.now database.now) rows.now) }
{
    for row in rows {
        let found = contains(alloc, database, ctx, query, row)?;
        if !found {
            return Ok(false);
        }
    }
    Ok(true)
}

/// Whether each row of one query in a database is a row of another in another.
pub fn rows_pass(
    alloc: Global,
    ctx: &Context,
    query: &Query,
    one: &RowSet,
    other: &Query,
    two: &RowSet,
) -> Result<bool, AllocError>
    ensures { IfOk result
        (λ found. IsTrue found ↔ RowsPass ctx.now query.now one.now other.now two.now) }
{
    let rows = answer(alloc, one, ctx, query)?;
    all_in(alloc, ctx, rows.as_slice(), other, two)
}

fn views_pass(
    alloc: Global,
    ctx: &Context,
    views: &[View],
    one: &RowSet,
    two: &RowSet,
) -> Result<bool, AllocError>
    ensures { IfOk result (λ found. IsTrue found ↔ ViewsWithin views.now ctx.now one.now two.now) }
{
    for view in views {
        let passes = rows_pass(alloc, ctx, &view.query, one, &view.query, two)?;
        if !passes {
            return Ok(false);
        }
    }
    Ok(true)
}

/// Whether each view's rows in one database are among its rows in another.
pub fn is_within(
    alloc: Global,
    policy: &Policy,
    ctx: &Context,
    one: &RowSet,
    two: &RowSet,
) -> Result<bool, AllocError>
    ensures { IfOk result (λ found. IsTrue found ↔ Within policy.now ctx.now one.now two.now) }
{
    views_pass(alloc, ctx, policy.views.as_slice(), one, two)
}

/// Whether each of the entry's rows is in its query's answer.
fn entry_is_shown(
    alloc: Global,
    ctx: &Context,
    entry: &TraceEntry,
    one: &RowSet,
) -> Result<bool, AllocError>
    ensures { IfOk result (λ found. IsTrue found ↔ EntryIsShown ctx.now one.now entry.now) }
{
    all_in(alloc, ctx, entry.rows.as_slice(), &entry.query, one)
}

fn entries_are_shown(
    alloc: Global,
    ctx: &Context,
    trace: &Trace,
    one: &RowSet,
) -> Result<bool, AllocError>
    ensures { IfOk result (λ found. IsTrue found ↔ All (EntryIsShown ctx.now one.now) trace.now) }
{
    for i in 0..trace.len() {
        let shown = entry_is_shown(alloc, ctx, trace.entry(i), one)?;
        if !shown {
            return Ok(false);
        }
    }
    Ok(true)
}

/// Whether each recorded row is in its query's answer in the database.
pub fn shows(alloc: Global, ctx: &Context, trace: &Trace, one: &RowSet) -> Result<bool, AllocError>
    ensures { IfOk result (λ found. IsTrue found ↔ Shows trace.now ctx.now one.now) }
{
    entries_are_shown(alloc, ctx, trace, one)
}
