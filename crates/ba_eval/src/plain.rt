//! Answers over few rows, found with no index. Which rows are few changes no answer: it chooses what is cheap.
ghost use Rattle.std.specs.Prelude.{[], IfOk};
ghost use Rattle.ba_model.specs.Meaning.{InAnswer};
ghost use Rattle.ba_eval.specs.Search.{Adds};

use crate::found::Found;
use crate::part::{Search, rows_of_table};
use ba_model::{Context, Part, Query, RowSet};
use std::alloc::{AllocError, Global};

/// The most choices of rows for a part's places that are tried one by one.
const CHOICES: usize = 32;

/// Whether each part of the query has few choices of rows for its places.
pub fn are_few(rows: &RowSet, query: &Query) -> bool {
    query
        .parts
        .as_slice()
        .iter()
        .all(|part| choices(rows, part) <= CHOICES)
}

/// How many choices there are of one row for each place.
fn choices(rows: &RowSet, part: &Part) -> usize {
    let mut choices = 1usize;
    for table in part.from.as_slice() {
        choices = choices.saturating_mul(rows_of_table(rows, *table).len());
    }
    choices
}

/// The rows that the parts give, of which each choice of rows is tried.
pub fn plain_rows(
    alloc: Global,
    rows: &RowSet,
    ctx: &Context,
    query: &Query,
) -> Result<Found, AllocError>
    ensures { IfOk result (λ found. Adds (InAnswer query.now ctx.now rows.now) [] found) }
{
    let mut found = Found::new(alloc);
    for part in query.parts.as_slice() {
        let mut chosen = Vec::new(alloc);
        let search = Search {
            rows,
            orders: &[],
            ctx,
            part,
            bounded: false,
        };
        search.gather_plainly(alloc, part.from.as_slice(), &mut chosen, &mut found)?;
    }
    Ok(found)
}
