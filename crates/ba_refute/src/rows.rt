//! The databases of a branch's facts, where the unknowns have values.
ghost use Rattle.std.specs.Prelude.{◌≡◌, ◌↔◌, All, IfOk, IsTrue, Some, length};
ghost use Rattle.ba_facts.specs.Fits.{value_of_term};
ghost use Rattle.ba_refute.specs.Images.{AreFactRows, AreSideRows, FactIsValued, IsValued, IsRowAt, given};

use crate::once::add_row;
use crate::wide::{WideRow, WideValue};
use ba_facts::{Fact, Side, Term};
use ba_model::{Context, Duplicate, List, Shared};
use std::alloc::{AllocError, Global};
use std::collections::BTreeSet;

/// The value of a term.
fn value_of(
    alloc: Global,
    ctx: &Context,
    values: &[WideValue],
    term: &Term,
) -> Result<WideValue, AllocError>
    requires { IsValued (length values.now) ctx.now term.now }
    ensures { IfOk result (λ v. value_of_term (given ctx.now) values.now term.now ≡ Some v) }
{
    match term {
        Term::Unknown(n) => values[*n as usize].copy(alloc),
        Term::Val(value) => WideValue::of(alloc, value),
        Term::Param(n) => WideValue::of(alloc, ctx.values.get(*n as usize)),
        Term::Var(_) => unreachable!(),
    }
}

/// The row of the terms' values.
pub(crate) fn row_of(
    alloc: Global,
    ctx: &Context,
    values: &[WideValue],
    terms: &[Term],
) -> Result<WideRow, AllocError>
    requires { All (IsValued (length values.now) ctx.now) terms.now }
    ensures { IfOk result (IsRowAt ctx.now values.now terms.now) }
{
    let mut row = Vec::with_capacity(alloc, terms.len())?;
    for term in terms {
        row.push(value_of(alloc, ctx, values, term)?)?;
    }
    Ok(List::from_vec(row))
}

/// Whether the fact is of the table on the side.
fn is_of(fact: &Fact, side: Side, table: usize) -> bool
    ensures { IsTrue result ↔ ((fact.now.side ≡ side) × (fact.now.table ≡ table)) }
{
    match (fact.side, side) {
        (Side::One, Side::One) => fact.table as usize == table,
        (Side::Two, Side::Two) => fact.table as usize == table,
        _ => false,
    }
}

/// The rows of a table on a side, each once, in the order of the facts.
fn fact_rows(
    alloc: Global,
    ctx: &Context,
    values: &[WideValue],
    facts: &[Shared<Fact>],
    side: Side,
    table: usize,
) -> Result<Vec<WideRow>, AllocError>
    requires { All (FactIsValued (length values.now) ctx.now) facts.now }
    ensures { IfOk result
        (λ it. AreFactRows ctx.now values.now facts.now side table it.items) }
{
    let mut rows = Vec::new(alloc);
    let mut seen = BTreeSet::new(alloc);
    for fact in facts {
        if is_of(fact, side, table) {
            let row = row_of(alloc, ctx, values, fact.terms.as_slice())?;
            add_row(alloc, &mut rows, &mut seen, row)?;
        }
    }
    Ok(rows)
}

/// The rows of each table on a side.
pub(crate) fn side_of(
    alloc: Global,
    ctx: &Context,
    values: &[WideValue],
    facts: &[Shared<Fact>],
    tables: usize,
    side: Side,
) -> Result<List<List<WideRow>>, AllocError>
    requires { All (FactIsValued (length values.now) ctx.now) facts.now }
    ensures { IfOk result (AreSideRows ctx.now values.now facts.now tables side) }
{
    let mut all = Vec::with_capacity(alloc, tables)?;
    for table in 0..tables {
        let rows = fact_rows(alloc, ctx, values, facts, side, table)?;
        all.push(List::from_vec(rows))?;
    }
    Ok(List::from_vec(all))
}
