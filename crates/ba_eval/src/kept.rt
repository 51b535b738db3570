//! Places that are searched by an order of their table.
ghost use Rattle.std.specs.Prelude.{◌≡◌, ◌↔◌, ◌⊎◌, Some, All, Contains, IfOk, IfSome, IsTrue};
ghost use Rattle.ba_index.specs.Orders.{IsInOrder, IsOrderOf};
ghost use Rattle.ba_model.specs.Meaning.{rows_of};
ghost use Rattle.ba_eval.specs.Index.{AreTies, HaveFrontIfAny, IsCovered, IsFront, IsKept, IsSettledAt, IsTied, IsTiedOrder};

use crate::part::Search;
use crate::tie::{Tie, is_within, tie_of};
use ba_index::Order;
use ba_model::{Atom, List, Row, Same, Value};
use std::alloc::{AllocError, Global};

/// An order of a table with ties on its first columns.
#[derive(Drop)]
pub struct Kept<'a> {
    pub order: &'a Order,
    pub ties: Vec<Tie<'a>>,
}

/// An order of the table that serves the place, if there is one; `once` says that the place is asked for rows once.
///
/// A search that isn't bounded tests on the rows found what the ties don't say. Where it asks for rows once it takes the order
/// with the most ties rather than make an index.
pub fn kept_by<'a>(
    alloc: Global,
    search: &Search<'a>,
    at: usize,
    once: bool,
    table: u32,
    ties: &[Tie<'a>],
) -> Result<Option<Kept<'a>>, AllocError>
    requires orders { All (IsOrderOf search.now.rows.now) search.now.orders.now }
    requires ties { AreTies at search.now.part.now.conds ties.now }
    ensures { IfOk result (λ kept. IfSome kept (λ by. IsKept search.now.bounded search.now.part.now.conds at (rows_of search.now.rows.now table) by.ties.items by.order.now)) }
{
    let serving = serving_order(alloc, search, at, table, ties)?;
    if serving.is_some() || search.bounded || !once {
        return Ok(serving);
    }
    longest_front(alloc, search, table, ties)
}

/// The first order of the table that serves the place however often it is asked.
fn serving_order<'a>(
    alloc: Global,
    search: &Search<'a>,
    at: usize,
    table: u32,
    ties: &[Tie<'a>],
) -> Result<Option<Kept<'a>>, AllocError>
    requires orders { All (IsOrderOf search.now.rows.now) search.now.orders.now }
    requires ties { AreTies at search.now.part.now.conds ties.now }
    ensures { IfOk result (λ kept. IfSome kept (λ by. IsKept search.now.bounded search.now.part.now.conds at (rows_of search.now.rows.now table) by.ties.items by.order.now)) }
{
    for order in search.orders {
        if order.table == table {
            let front = front_of(alloc, ties, order.columns.as_slice())?;
            if serves(search, at, order, front.as_slice()) {
                return Ok(Some(Kept { order, ties: front }));
            }
        }
    }
    Ok(None)
}

/// Whether the ties are all that the place settles or, in a search that isn't bounded, on all columns of the order.
fn serves(search: &Search, at: usize, order: &Order, front: &[Tie]) -> bool
    ensures { IsTrue result → IsTrue search.now.bounded → IsCovered at search.now.part.now.conds front.now }
{
    let whole = !search.bounded && front.len() >= order.columns.len();
    whole || are_covered(search.part.conds.as_slice(), at, front)
}

/// The order of the table with the most ties on its first columns, if the table has an order.
fn longest_front<'a>(
    alloc: Global,
    search: &Search<'a>,
    table: u32,
    ties: &[Tie<'a>],
) -> Result<Option<Kept<'a>>, AllocError>
    requires { All (IsOrderOf search.now.rows.now) search.now.orders.now }
    ensures { IfOk result (λ kept. IfSome kept (λ by. IsTiedOrder (rows_of search.now.rows.now table) ties.now by.ties.items by.order.now)) }
{
    let mut longest = None;
    for order in search.orders {
        if order.table == table {
            let front = front_of(alloc, ties, order.columns.as_slice())?;
            longest = longer(longest, Kept { order, ties: front });
        }
    }
    Ok(longest)
}

/// The one with more ties; of equals the first.
fn longer<'a>(best: Option<Kept<'a>>, other: Kept<'a>) -> Option<Kept<'a>>
    ensures { (result ≡ best.entry) ⊎ (result ≡ Some other.entry) }
{
    match best {
        Some(own) => {
            if own.ties.len() < other.ties.len() {
                Some(other)
            } else {
                Some(own)
            }
        }
        None => Some(other),
    }
}

/// The ties on the columns in turn, up to the first column that has none.
fn front_of<'a>(
    alloc: Global,
    ties: &[Tie<'a>],
    columns: &[u32],
) -> Result<Vec<Tie<'a>>, AllocError>
    ensures { IfOk result (λ front. IsFront ties.now columns.now front.items) }
{
    let mut front = Vec::new(alloc);
    for column in columns {
        match tie_on(ties, *column) {
            Some(tie) => front.push(tie)?,
            None => return Ok(front),
        }
    }
    Ok(front)
}

/// The first tie on the column.
fn tie_on<'a>(ties: &[Tie<'a>], column: u32) -> Option<Tie<'a>>
    ensures there { IfSome result (Contains ties.now) }
    ensures column { IfSome result (λ tie. tie.column ≡ column) }
{
    for tie in ties {
        if tie.column == column {
            return Some(Tie {
                column,
                other: tie.other,
            });
        }
    }
    None
}

/// Whether each equation that the place settles is one of the ties.
fn are_covered(atoms: &[Atom], at: usize, ties: &[Tie]) -> bool
    ensures { IsTrue result → IsCovered at atoms.now ties.now }
{
    atoms.iter().all(|atom| is_covered(atom, at, ties))
}

fn is_covered(atom: &Atom, at: usize, ties: &[Tie]) -> bool
    ensures { IsTrue result → IsSettledAt at atom.now → IsTied at ties.now atom.now }
{
    match tie_of(atom, at) {
        Some(tie) => has_tie(ties, &tie),
        None => !is_within(atom, at),
    }
}

/// Whether the tie is one of these.
fn has_tie(ties: &[Tie], tie: &Tie) -> bool
    ensures { IsTrue result → ((own : Tie) × Contains ties.now own × (own.column ≡ tie.now.column) × (own.other.now ≡ tie.now.other.now)) }
{
    for own in ties {
        if own.column == tie.column && own.other.same(tie.other) {
            return true;
        }
    }
    false
}

/// The numbers of the rows that have the key as their front in the order.
pub fn numbers_in_order(
    alloc: Global,
    order: &Order,
    rows: &[Row],
    key: &Option<List<&Value>>,
) -> Result<Vec<usize>, AllocError>
    requires { IsInOrder rows.now order.now }
    ensures { IfOk result (λ numbers. HaveFrontIfAny rows.now order.now key.now numbers.items) }
{
    match key {
        Some(values) => copied(alloc, order.with_front(rows, values.as_slice())),
        None => Ok(Vec::new(alloc)),
    }
}

fn copied(alloc: Global, numbers: &[usize]) -> Result<Vec<usize>, AllocError>
    ensures { IfOk result (λ copy. copy.items ≡ numbers.now) }
{
    let mut copy = Vec::new(alloc);
    for number in numbers {
        copy.push(*number)?;
    }
    Ok(copy)
}
