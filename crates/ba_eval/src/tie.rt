//! The equations of a part that a place of it can be searched by.
ghost use Rattle.std.specs.Prelude.{◌≡◌, ◌↔◌, IsTrue, IfOk, map};
ghost use Rattle.std.specs.Option.{option_copied};
ghost use Rattle.ba_eval.specs.Index.{known, value_in, AreEqual, AreTies, IsKey, IsOutside, IsTieOf, IsWithin, MeetsWithin, StandsAt, TieBetween};
ghost use Rattle.ba_model.specs.Meaning.{value_of};
ghost use Rattle.std.specs.Prelude.{slice_get};

use ba_model::{Atom, Context, List, Op, Operand, Row, Same, Value};
use std::alloc::{AllocError, Global};

/// An equation of a column of a place's table with a column of an earlier place, a constant or a parameter.
#[derive(Drop)]
pub struct Tie<'a> {
    pub column: u32,
    pub other: &'a Operand,
}

/// The ties of the place.
pub fn ties_of<'a>(alloc: Global, atoms: &'a [Atom], at: usize) -> Result<Vec<Tie<'a>>, AllocError>
    ensures { IfOk result (λ ties. AreTies at atoms.now ties.items) }
{
    let mut ties = Vec::new(alloc);
    for atom in atoms {
        match tie_of(atom, at) {
            Some(tie) => ties.push(tie)?,
            None => {}
        }
    }
    Ok(ties)
}

/// The tie that the atom is, if it is one.
pub fn tie_of<'a>(atom: &'a Atom, at: usize) -> Option<Tie<'a>>
    ensures { IsTieOf at atom.now result }
{
    match atom.op {
        Op::Eq => match tie_between(&atom.left, &atom.right, at) {
            Some(tie) => Some(tie),
            None => tie_between(&atom.right, &atom.left, at),
        },
        _ => None,
    }
}

/// The tie of an own column to what stands outside the place and those after it, if they are these.
fn tie_between<'a>(own: &Operand, other: &'a Operand, at: usize) -> Option<Tie<'a>>
    ensures { TieBetween at own.now other.now result }
{
    match own {
        Operand::Col(place, column) => {
            if *place as usize == at && is_outside(other, at) {
                Some(Tie {
                    column: *column,
                    other,
                })
            } else {
                None
            }
        }
        _ => None,
    }
}

/// Whether the operand's value is the same whatever rows stand at this place and those after it.
fn is_outside(operand: &Operand, at: usize) -> bool
    ensures { IsTrue result ↔ IsOutside at operand.now }
{
    match operand {
        Operand::Col(place, _) => (*place as usize) < at,
        _ => true,
    }
}

/// Whether the row makes each equation true whose columns all stand at its own place.
pub fn meets_within(atoms: &[Atom], ctx: &Context, at: usize, row: &Row) -> bool
    ensures { IsTrue result ↔ MeetsWithin ctx.now at row.now atoms.now }
{
    atoms.iter().all(|atom| !is_within(atom, at) || are_equal_in(atom, ctx, row))
}

/// Whether the atom is an equation whose columns all stand at the place.
pub fn is_within(atom: &Atom, at: usize) -> bool
    ensures { IsTrue result ↔ IsWithin at atom.now }
{
    match atom.op {
        Op::Eq => stands_at(&atom.left, at) && stands_at(&atom.right, at),
        _ => false,
    }
}

fn stands_at(operand: &Operand, at: usize) -> bool
    ensures { IsTrue result ↔ StandsAt at operand.now }
{
    match operand {
        Operand::Col(place, _) => *place as usize == at,
        _ => true,
    }
}

fn are_equal_in(atom: &Atom, ctx: &Context, row: &Row) -> bool
    ensures { IsTrue result ↔ AreEqual (value_in ctx.now row.now atom.now.left) (value_in ctx.now row.now atom.now.right) }
{
    match (
        known_value(value_in_row(&atom.left, ctx, row)),
        known_value(value_in_row(&atom.right, ctx, row)),
    ) {
        (Some(left), Some(right)) => left.same(right),
        _ => false,
    }
}

/// The operand's value where its column is one of the row's.
fn value_in_row<'a>(operand: &'a Operand, ctx: &'a Context, row: &'a Row) -> Option<&'a Value>
    ensures { option_copied result ≡ value_in ctx.now row.now operand.now }
{
    match operand {
        Operand::Col(_, column) => row.find(*column as usize),
        Operand::Val(value) => Some(value),
        Operand::Param(n) => ctx.values.find(*n as usize),
        Operand::Var(_) => None,
    }
}

/// The value if it is there and not NULL, which is equal to nothing.
fn known_value<'a>(value: Option<&'a Value>) -> Option<&'a Value>
    ensures { option_copied result ≡ known (option_copied value.entry) }
{
    match value {
        Some(own) => { if own.is_null() { None } else { Some(own) } }
        None => None,
    }
}

/// The values of the row's tied columns, if none is NULL.
pub fn key_of_row<'a>(
    alloc: Global,
    ties: &[Tie],
    row: &'a Row,
) -> Result<Option<List<&'a Value>>, AllocError>
    ensures { IfOk result (IsKey (λ tie. known (slice_get row.now tie.column)) ties.now) }
{
    let mut values = Vec::new(alloc);
    for tie in ties {
        match known_value(row.find(tie.column as usize)) {
            Some(value) => values.push(value)?,
            None => return Ok(None),
        }
    }
    Ok(Some(List::from_vec(values)))
}

/// The values that the chosen rows give to what the columns are tied to, if none is NULL.
pub fn key_of_chosen<'a>(
    alloc: Global,
    ties: &[Tie<'a>],
    ctx: &'a Context,
    chosen: &[&'a Row],
) -> Result<Option<List<&'a Value>>, AllocError>
    ensures { IfOk result (IsKey (λ tie. known (value_of ctx.now (map (λ row. row.now) chosen.now) tie.other.now)) ties.now) }
{
    let mut values = Vec::new(alloc);
    for tie in ties {
        match known_value(tie.other.value_of_chosen(ctx, chosen)) {
            Some(value) => values.push(value)?,
            None => return Ok(None),
        }
    }
    Ok(Some(List::from_vec(values)))
}
