//! What a told row knows of a column.
ghost use Rattle.std.specs.Prelude.{◌≡◌};
ghost use Rattle.std.specs.Option.{option_copied};
ghost use Rattle.ba_parts.specs.Parts.{column_in, is_column};
ghost use Rattle.ba_clash.specs.Clash.{across, constant_of, fixed_by, fixed_in, known};
ghost use Rattle.ba_clash.specs.Steps.{told_of};

use ba_model::{Atom, Context, Op, Operand, Part, Value};

fn is_column(operand: &Operand, place: usize, column: usize) -> bool
    ensures { result ≡ is_column place column operand.now }
{
    match operand {
        Operand::Col(p, k) => *p as usize == place && *k as usize == column,
        Operand::Val(_) | Operand::Param(_) | Operand::Var(_) => false,
    }
}

// The value of the row where the column stands first in the head.
fn column_in<'a>(
    head: &[Operand],
    row: &'a [Value],
    place: usize,
    column: usize,
) -> Option<&'a Value>
    ensures { option_copied result ≡ column_in head.now row.now place column }
{
    match (head.split_first(), row.split_first()) {
        (Some((operand, head)), Some((value, row))) => {
            if is_column(operand, place, column) {
                Some(value)
            } else {
                column_in(head, row, place, column)
            }
        }
        _ => None,
    }
}

// The value of a constant: a literal's own, or that of a parameter.
fn constant_of<'a>(context: &'a Context, operand: &'a Operand) -> Option<&'a Value>
    ensures { option_copied result ≡ constant_of context.now operand.now }
{
    match operand {
        Operand::Val(value) => Some(value),
        Operand::Param(n) => context.values.find(*n as usize),
        Operand::Col(_, _) | Operand::Var(_) => None,
    }
}

// The value of the one operand where the other one is the column.
fn across<'a>(
    context: &'a Context,
    place: usize,
    column: usize,
    it: &Operand,
    other: &'a Operand,
) -> Option<&'a Value>
    ensures { option_copied result ≡ across context.now place column it.now other.now }
{
    if is_column(it, place, column) {
        constant_of(context, other)
    } else {
        None
    }
}

// The constant that the condition fixes the column by.
fn fixed_by<'a>(
    context: &'a Context,
    place: usize,
    column: usize,
    atom: &'a Atom,
) -> Option<&'a Value>
    ensures { option_copied result
        ≡ fixed_by context.now place column atom.now.op atom.now.left atom.now.right }
{
    match atom.op {
        Op::Eq => match across(context, place, column, &atom.left, &atom.right) {
            Some(value) => Some(value),
            None => across(context, place, column, &atom.right, &atom.left),
        },
        Op::Ne | Op::Lt | Op::Le | Op::IsNull | Op::NotNull => None,
    }
}

// The constant that the first such condition fixes the column by.
fn fixed_in<'a>(
    context: &'a Context,
    atoms: &'a [Atom],
    place: usize,
    column: usize,
) -> Option<&'a Value>
    ensures { option_copied result ≡ fixed_in context.now atoms.now place column }
{
    match atoms.split_first() {
        Some((atom, atoms)) => match fixed_by(context, place, column, atom) {
            Some(value) => Some(value),
            None => fixed_in(context, atoms, place, column),
        },
        None => None,
    }
}

/// A row of the part's answer, read at a place of the part's tables.
#[derive(Clone, Copy)]
pub(crate) struct Read<'a> {
    pub part: &'a Part,
    pub row: &'a [Value],
    pub place: usize,
}

/// What the row tells of a column: its value where the column stands in the head, or else the
/// constant that a condition fixes it by.
pub(crate) fn known<'a>(context: &'a Context, it: &Read<'a>, column: usize) -> Option<&'a Value>
    ensures { option_copied result ≡ known context.now (told_of it.now) column }
{
    match column_in(it.part.head.as_slice(), it.row, it.place, column) {
        Some(value) => Some(value),
        None => fixed_in(context, it.part.conds.as_slice(), it.place, column),
    }
}
