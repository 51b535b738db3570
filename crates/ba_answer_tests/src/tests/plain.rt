//! The answer of a query over a database, by nested loops over the tables of each part: every choice of rows is tried. It is the
//! plain counterpart of the answer by indexes, and serves to compare with it.
ghost use Rattle.std.specs.Prelude.{[], IfOk};
ghost use Rattle.ba_model.specs.Meaning.{InAnswer, IsAnswer};
ghost use Rattle.ba_answer_tests.specs.PlainSearch.{Adds, IsRisingListOf};

mod part;

use crate::tests::plain::part::Search;
use ba_model::{Context, List, Query, Row, RowSet};
use std::alloc::{AllocError, Global};

/// The query's answer: the strictly rising list of exactly its rows.
///
/// Rows are ordered and compared with NULL as a value like any other, before all whole numbers, which are before all texts.
pub fn answer(
    alloc: Global,
    rows: &RowSet,
    ctx: &Context,
    query: &Query,
) -> Result<List<Row>, AllocError>
    ensures { IfOk result (λ list. IsAnswer query.now ctx.now rows.now list) }
{
    let found = all_rows(alloc, rows, ctx, query)?;
    Ok(in_order(found))
}

/// The rows that the parts give, in the order of the loops.
fn all_rows(
    alloc: Global,
    rows: &RowSet,
    ctx: &Context,
    query: &Query,
) -> Result<Vec<Row>, AllocError>
    ensures { IfOk result (λ found. Adds (InAnswer query.now ctx.now rows.now) [] found.items) }
{
    let mut found = Vec::new(alloc);
    for part in query.parts.as_slice() {
        let mut chosen = Vec::new(alloc);
        let search = Search { rows, ctx, part };
        search.gather(alloc, part.from.as_slice(), &mut chosen, &mut found)?;
    }
    Ok(found)
}

/// The strictly rising list of the rows.
fn in_order(mut found: Vec<Row>) -> List<Row>
    ensures { IsRisingListOf found.items result }
{
    found.sort_unstable();
    found.dedup();
    List::from_vec(found)
}
