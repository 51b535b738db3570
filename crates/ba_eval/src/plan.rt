//! The turn in which the places of a part are searched. Any turn gives the same rows: this one chooses what is cheap.
use ba_index::Order;
use ba_model::{Atom, List, Op, Operand, Part};
use std::alloc::{AllocError, Global};

/// The numbers of the part's places, each next one that which the places before tie best: by all columns of an order, by the
/// first column of one, by any column, by none; of equals the first in the text.
pub fn places_in_turn(
    alloc: Global,
    orders: &[Order],
    part: &Part,
) -> Result<Vec<u32>, AllocError> {
    let mut taken = Vec::new(alloc);
    for _ in 0..part.from.len() {
        match best_place(orders, part, taken.as_slice()) {
            Some(place) => taken.push(place)?,
            None => return Ok(taken),
        }
    }
    Ok(taken)
}

/// The best of the places that aren't taken.
fn best_place(orders: &[Order], part: &Part, taken: &[u32]) -> Option<u32> {
    let mut best = None;
    let mut most = 0u32;
    let mut place = 0u32;
    for table in part.from.as_slice() {
        if !is_taken(taken, place) {
            let worth = worth_of(orders, part.conds.as_slice(), *table, place, taken);
            if worth > most {
                most = worth;
                best = Some(place);
            }
        }
        place = place.saturating_add(1);
    }
    best
}

fn is_taken(taken: &[u32], place: u32) -> bool {
    taken.iter().any(|other| *other == place)
}

/// How well the place is tied to constants, parameters and the places that are taken: 4 by an order's columns, 3 by the first
/// of them, 2 by any column, 1 by none.
fn worth_of(orders: &[Order], atoms: &[Atom], table: u32, place: u32, taken: &[u32]) -> u32 {
    let mut worth = if is_tied(atoms, place, taken) { 2 } else { 1 };
    for order in orders {
        if order.table == table {
            let own = worth_of_order(order, atoms, place, taken);
            if own > worth {
                worth = own;
            }
        }
    }
    worth
}

fn worth_of_order(order: &Order, atoms: &[Atom], place: u32, taken: &[u32]) -> u32 {
    let columns = order.columns.as_slice();
    if columns.is_empty() {
        return 1;
    }
    if are_tied(columns, atoms, place, taken) {
        return 4;
    }
    if is_column_tied(columns[0], atoms, place, taken) {
        return 3;
    }
    1
}

fn are_tied(columns: &[u32], atoms: &[Atom], place: u32, taken: &[u32]) -> bool {
    columns
        .iter()
        .all(|column| is_column_tied(*column, atoms, place, taken))
}

/// Whether an equation ties the column.
fn is_column_tied(column: u32, atoms: &[Atom], place: u32, taken: &[u32]) -> bool {
    atoms.iter().any(|atom| {
        ties(atom, place, taken)
            && (has_column(&atom.left, place, column) || has_column(&atom.right, place, column))
    })
}

/// Whether an equation ties any column of the place.
fn is_tied(atoms: &[Atom], place: u32, taken: &[u32]) -> bool {
    atoms.iter().any(|atom| ties(atom, place, taken))
}

/// Whether the atom is an equation of a column of the place and what is known before it.
fn ties(atom: &Atom, place: u32, taken: &[u32]) -> bool {
    match atom.op {
        Op::Eq => {
            (stands_at(&atom.left, place) && is_known(&atom.right, taken))
                || (stands_at(&atom.right, place) && is_known(&atom.left, taken))
        }
        _ => false,
    }
}

fn stands_at(operand: &Operand, place: u32) -> bool {
    match operand {
        Operand::Col(own, _) => *own == place,
        _ => false,
    }
}

fn has_column(operand: &Operand, place: u32, column: u32) -> bool {
    match operand {
        Operand::Col(own, other) => *own == place && *other == column,
        _ => false,
    }
}

fn is_known(operand: &Operand, taken: &[u32]) -> bool {
    match operand {
        Operand::Col(own, _) => is_taken(taken, *own),
        _ => true,
    }
}
