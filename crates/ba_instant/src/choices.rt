//! A choice of terms in place of the facts that a query asks for. Nothing is promised of it:
//! whoever uses it tests it.
use ba_facts::{Term, number_of};
use ba_model::{Atom, Duplicate, List, Op, Operand, Part, Schema, Value};
use std::alloc::{AllocError, Global};

/// A column of a table of a part.
#[derive(Clone, Copy)]
struct Cell {
    place: u32,
    column: u32,
}

impl Cell {
    fn is(self, operand: &Operand) -> bool {
        match operand {
            Operand::Col(place, column) => self.place == *place && self.column == *column,
            _ => false,
        }
    }
}

/// What a column is chosen to be.
enum Choice<'a> {
    Null,
    Constant(&'a Operand),
}

/// For each table of the part a row of what its columns are told to be: by its head and the row, or
/// by its atoms. Any other column has the row's first constant.
pub fn chosen_rows(
    alloc: Global,
    schema: &Schema,
    part: &Part,
    row: &[Operand],
) -> Result<List<List<Term>>, AllocError> {
    let from = part.from.as_slice();
    let count = number_of(from.len())?;
    let mut rows = Vec::new(alloc);
    for place in 0..count {
        let width = width_of(schema, from[place as usize])?;
        rows.push(chosen_row(alloc, part, row, place, width)?)?;
    }
    Ok(List::from_vec(rows))
}

fn width_of(schema: &Schema, table: u32) -> Result<u32, AllocError> {
    match schema.tables.find(table as usize) {
        Some(it) => number_of(it.columns.len()),
        None => Ok(0),
    }
}

fn chosen_row(
    alloc: Global,
    part: &Part,
    row: &[Operand],
    place: u32,
    width: u32,
) -> Result<List<Term>, AllocError> {
    let mut terms = Vec::new(alloc);
    for column in 0..width {
        let choice = chosen(part, row, Cell { place, column });
        terms.push(term_of(alloc, choice)?)?;
    }
    Ok(List::from_vec(terms))
}

fn chosen<'a>(part: &'a Part, row: &'a [Operand], cell: Cell) -> Choice<'a> {
    if is_told_null(part.conds.as_slice(), cell) {
        return Choice::Null;
    }
    match told(part, row, cell) {
        Some(constant) => Choice::Constant(constant),
        None => match told_by_another(part, row, cell) {
            Some(constant) => Choice::Constant(constant),
            None => among(part.conds.as_slice(), row, cell),
        },
    }
}

/// Whether an atom says that the column is NULL.
fn is_told_null(conds: &[Atom], cell: Cell) -> bool {
    for atom in conds {
        match atom.op {
            Op::IsNull if cell.is(&atom.left) => return true,
            _ => (),
        }
    }
    false
}

/// The constant that the column is told to be by the row or by an atom.
fn told<'a>(part: &'a Part, row: &'a [Operand], cell: Cell) -> Option<&'a Operand> {
    match told_by_row(part.head.as_slice(), row, cell) {
        Some(constant) => Some(constant),
        None => told_by_atom(part.conds.as_slice(), cell),
    }
}

fn told_by_row<'a>(head: &[Operand], row: &'a [Operand], cell: Cell) -> Option<&'a Operand> {
    for (number, operand) in head.iter().enumerate() {
        if cell.is(operand) {
            return row.get(number);
        }
    }
    None
}

fn told_by_atom<'a>(conds: &'a [Atom], cell: Cell) -> Option<&'a Operand> {
    for atom in conds {
        match equal_side(atom, cell) {
            Some(Operand::Col(_, _)) => (),
            Some(constant) => return Some(constant),
            None => (),
        }
    }
    None
}

/// What an equation says that the column is.
fn equal_side<'a>(atom: &'a Atom, cell: Cell) -> Option<&'a Operand> {
    match atom.op {
        Op::Eq => other_side(atom, cell),
        _ => None,
    }
}

/// What the atom compares the column with, if it does.
fn other_side<'a>(atom: &'a Atom, cell: Cell) -> Option<&'a Operand> {
    if cell.is(&atom.left) {
        return Some(&atom.right);
    }
    if cell.is(&atom.right) {
        return Some(&atom.left);
    }
    None
}

/// The constant that a column is told to be to which the column is told to be equal.
fn told_by_another<'a>(part: &'a Part, row: &'a [Operand], cell: Cell) -> Option<&'a Operand> {
    for atom in part.conds.as_slice() {
        match equal_side(atom, cell) {
            Some(Operand::Col(place, column)) => {
                let other = Cell {
                    place: *place,
                    column: *column,
                };
                match told(part, row, other) {
                    Some(constant) => return Some(constant),
                    None => (),
                }
            }
            _ => (),
        }
    }
    None
}

/// A constant that the column may be: the first that an atom lets it reach, or else the row's first.
fn among<'a>(conds: &'a [Atom], row: &'a [Operand], cell: Cell) -> Choice<'a> {
    for atom in conds {
        match reached_side(atom, cell) {
            Some(Operand::Col(_, _)) => (),
            Some(constant) => return Choice::Constant(constant),
            None => (),
        }
    }
    match row.first() {
        Some(constant) => Choice::Constant(constant),
        None => Choice::Null,
    }
}

/// The bound that an atom lets the column reach.
fn reached_side<'a>(atom: &'a Atom, cell: Cell) -> Option<&'a Operand> {
    match atom.op {
        Op::Le => other_side(atom, cell),
        _ => None,
    }
}

fn term_of(alloc: Global, choice: Choice<'_>) -> Result<Term, AllocError> {
    match choice {
        Choice::Constant(Operand::Val(value)) => Ok(Term::Val(value.copy(alloc)?)),
        Choice::Constant(Operand::Param(n)) => Ok(Term::Param(*n)),
        Choice::Constant(Operand::Var(n)) => Ok(Term::Var(*n)),
        Choice::Constant(Operand::Col(_, _)) => Ok(Term::Val(Value::Null)),
        Choice::Null => Ok(Term::Val(Value::Null)),
    }
}
