//! Parts with their places in another turn.
ghost use Rattle.std.specs.Prelude.{◌≡◌, ◌≤◌, IfOk, IfSome, IsTrue, length, map, Some, slice_get};
ghost use Rattle.ba_eval.specs.Turn.{rename, rename_atom, IsTurn, SameAnswers, SameRows, TurnedBy};

use crate::plan::places_in_turn;
use ba_index::Order;
use ba_model::{Atom, Duplicate, List, Operand, Part, Query};
use std::alloc::{AllocError, Global};

/// A query of the same rows, with the places of each part in the turn that its equations and the orders serve.
pub fn turned(alloc: Global, orders: &[Order], query: &Query) -> Result<Query, AllocError>
    ensures { IfOk result (SameAnswers query.now) }
{
    let mut parts = List::new(alloc);
    for part in query.parts.as_slice() {
        let other = turned_part(alloc, orders, part)?;
        parts.push(other)?;
    }
    Ok(Query { parts })
}

fn turned_part(alloc: Global, orders: &[Order], part: &Part) -> Result<Part, AllocError>
    ensures { IfOk result (SameRows part.now) }
{
    let to = places_in_turn(alloc, orders, part)?;
    let back = way_back(alloc, to.as_slice())?;
    if !is_turn(part.from.len(), to.as_slice(), back.as_slice()) {
        return part.copy(alloc);
    }
    let tables = tables_at(alloc, part.from.as_slice(), to.as_slice())?;
    match tables {
        Some(from) => with_tables(alloc, part, from, to.as_slice(), back.as_slice()),
        None => part.copy(alloc),
    }
}

/// The part whose places are these of the given one.
fn with_tables(
    alloc: Global,
    part: &Part,
    from: List<u32>,
    to: &[u32],
    back: &[u32],
) -> Result<Part, AllocError>
    requires tables { map (slice_get part.now.from) to.now ≡ map Some from }
    ensures { IfOk result (TurnedBy part.now to.now back.now) }
{
    let conds = renamed_atoms(alloc, back, part.conds.as_slice())?;
    let head = renamed_operands(alloc, back, part.head.as_slice())?;
    Ok(Part { from, conds, head })
}

/// For each place its number in the new turn; 0 where it has none.
fn way_back(alloc: Global, to: &[u32]) -> Result<Vec<u32>, AllocError> {
    let mut back = Vec::new(alloc);
    for place in 0..to.len() {
        back.push(position_of(to, place))?;
    }
    Ok(back)
}

fn position_of(to: &[u32], place: usize) -> u32 {
    let mut position = 0u32;
    for other in to {
        if *other as usize == place {
            return position;
        }
        position = position.saturating_add(1);
    }
    0
}

/// Whether the lists have so many places, and one is the way back of the other.
fn is_turn(places: usize, to: &[u32], back: &[u32]) -> bool
    ensures { IsTrue result → IsTurn places to.now back.now }
{
    if to.len() != places || back.len() != places {
        return false;
    }
    for place in 0..places {
        if !leads_back(to, back[place], place) {
            return false;
        }
    }
    true
}

fn leads_back(to: &[u32], position: u32, place: usize) -> bool
    ensures { IsTrue result → slice_get to.now position ≡ Some place }
{
    match to.get(position as usize) {
        Some(there) => *there as usize == place,
        None => false,
    }
}

/// The tables at the places, if all are there.
fn tables_at(alloc: Global, from: &[u32], to: &[u32]) -> Result<Option<List<u32>>, AllocError>
    ensures { IfOk result (λ found. IfSome found (λ tables. map (slice_get from.now) to.now ≡ map Some tables)) }
{
    let mut tables = List::new(alloc);
    for place in to {
        match from.get(*place as usize) {
            Some(table) => tables.push(*table)?,
            None => return Ok(None),
        }
    }
    Ok(Some(tables))
}

/// The operand, with its place's number in the new turn.
fn renamed(alloc: Global, back: &[u32], operand: &Operand) -> Result<Operand, AllocError>
    ensures { IfOk result (λ other. other ≡ rename back.now operand.now) }
{
    match operand {
        Operand::Col(place, column) => match back.get(*place as usize) {
            Some(position) => Ok(Operand::Col(*position, *column)),
            None => Ok(Operand::Col(*place, *column)),
        },
        _ => operand.copy(alloc),
    }
}

fn renamed_atom(alloc: Global, back: &[u32], atom: &Atom) -> Result<Atom, AllocError>
    ensures { IfOk result (λ other. other ≡ rename_atom back.now atom.now) }
{
    let left = renamed(alloc, back, &atom.left)?;
    let right = renamed(alloc, back, &atom.right)?;
    Ok(Atom {
        op: atom.op,
        left,
        right,
    })
}

fn renamed_atoms(alloc: Global, back: &[u32], atoms: &[Atom]) -> Result<List<Atom>, AllocError>
    ensures { IfOk result (λ others. others ≡ map (rename_atom back.now) atoms.now) }
{
    let mut others = List::new(alloc);
    for atom in atoms {
        let other = renamed_atom(alloc, back, atom)?;
        others.push(other)?;
    }
    Ok(others)
}

fn renamed_operands(
    alloc: Global,
    back: &[u32],
    operands: &[Operand],
) -> Result<List<Operand>, AllocError>
    ensures { IfOk result (λ others. others ≡ map (rename back.now) operands.now) }
{
    let mut others = List::new(alloc);
    for operand in operands {
        let other = renamed(alloc, back, operand)?;
        others.push(other)?;
    }
    Ok(others)
}
