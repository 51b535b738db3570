//! The first broken inclusion rule of tables.
ghost use Rattle.std.specs.Prelude.{◌≡◌, ◌↔◌, IfOk, IsTrue, Some, slice_get};
ghost use Rattle.std.specs.List.{position_from};
ghost use Rattle.std.specs.List.Sorted.{IsStrictlySortedBy};
ghost use Rattle.ba_model.specs.Conform.{no_context};
ghost use Rattle.ba_model.specs.Order.{row_cmp};
ghost use Rattle.ba_tables.specs.Rules.{IsFirstFrom, broken_rule, is_missing, least_breaking};

use crate::broken::TablesFault;
use ba_eval::answer_indexed;
use ba_index::Indexed;
use ba_model::{Context, Duplicate, List, Row, Rule, Same};
use std::alloc::{AllocError, Global};

/// No parameters.
fn no_context(alloc: Global) -> Context
    ensures { result ≡ no_context }
{
    Context {
        values: List::new(alloc),
    }
}

/// The number of the first of the rows, from a number on, that isn't before the row.
fn first_from(rows: &[Row], from: usize, row: &Row) -> usize
    ensures { IsFirstFrom rows.now from row.now result }
{
    for at in from..rows.len() {
        if !rows[at].cmp(row).is_lt() {
            return at;
        }
    }
    rows.len()
}

/// Whether the row has the number.
fn is_at(rows: &[Row], at: usize, row: &Row) -> bool
    ensures { IsTrue result ↔ (slice_get rows.now at ≡ Some row.now) }
{
    match rows.get(at) {
        Some(other) => other.same(row),
        None => false,
    }
}

/// The number of the first row of a rising list that isn't in another. Each list is gone through once.
fn first_missing(left: &[Row], right: &[Row]) -> Option<usize>
    requires left { IsStrictlySortedBy row_cmp left.now }
    requires right { IsStrictlySortedBy row_cmp right.now }
    ensures { result ≡ position_from (is_missing right.now) 0 left.now }
{
    let mut at = 0;
    for i in 0..left.len() {
        let row = &left[i];
        at = first_from(right, at, row);
        if !is_at(right, at, row) {
            return Some(i);
        }
    }
    None
}

/// The least row of the rule's left query that isn't one of its right query.
fn least_breaking(
    alloc: Global,
    rule: &Rule,
    rows: &Indexed,
    context: &Context,
) -> Result<Option<Row>, AllocError>
    requires { context.now ≡ no_context }
    ensures { IfOk result (λ found. found ≡ least_breaking rows.now rule.now) }
{
    let left = answer_indexed(alloc, rows, context, &rule.left)?;
    let right = answer_indexed(alloc, rows, context, &rule.right)?;
    let Some(i) = first_missing(left.as_slice(), right.as_slice()) else {
        return Ok(None);
    };
    let row = left.get(i).copy(alloc)?;
    Ok(Some(row))
}

/// The first rule of whose left query some row isn't a row of its right query, with the least such
/// row.
///
/// Each rule takes the time of answering its two queries by the orders of the rows, and one walk
/// through both answers.
pub fn broken_rule(
    alloc: Global,
    rules: &List<Rule>,
    rows: &Indexed,
) -> Result<Option<TablesFault>, AllocError>
    ensures { IfOk result (λ found. found ≡ broken_rule 0 rows.now rules.now) }
{
    let Ok(count) = u32::try_from(rules.len()) else {
        return Err(AllocError);
    };
    let context = no_context(alloc);
    for rule in 0..count {
        let it = rules.get(rule as usize);
        if let Some(row) = least_breaking(alloc, it, rows, &context)? {
            return Ok(Some(TablesFault::RuleBroken { rule, row }));
        }
    }
    Ok(None)
}
