//! Queries.
ghost use Rattle.std.specs.Prelude.{◌≡◌, [], IfOk, string_bytes};
ghost use Rattle.ba_model.specs.Fit.{IsQuery, kinds_of};
ghost use Rattle.ba_sql_print.specs.Printed.{query_text};

use crate::part::part;
use ba_model::{List, Parameter, Query, Schema};
use std::alloc::{AllocError, Global};

/// The text of a query for a schema and parameters, in SQL.
///
/// The parts are joined by ` UNION `. Each is `SELECT h, .. FROM "T" t0, "U" t1 WHERE a AND b`, without WHERE where there is no atom: a
/// part's tables are called `t0`, `t1` and so on in their order, a column is `t0."C"`, a whole number stands in decimal, a text in quotes
/// with those inside doubled, a parameter is `?p`. An atom is `x = y`, `x <> y`, `x < y`, `x <= y`, `x IS NULL` or `x IS NOT NULL`.
///
/// The only error is want of memory, which leaves nothing behind.
#[tactic(auto, unfolding(crate::specs::Printed::query_text))]
pub fn print_query(
    alloc: Global,
    schema: &Schema,
    params: &List<Parameter>,
    query: &Query,
) -> Result<String, AllocError>
    requires { IsQuery schema.now (kinds_of params.now) [] query.now }
    ensures text { IfOk result (λ s. string_bytes s ≡ query_text schema.now params.now query.now) }
{
    let mut texts = Vec::new(alloc);
    for x in query.parts.as_slice() {
        let text = part(alloc, schema, params.as_slice(), x)?;
        texts.push(text)?;
    }
    texts.join(alloc, " UNION ")
}
