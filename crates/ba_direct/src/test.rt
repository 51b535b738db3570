//! The tests of operands and atoms under a pairing.
ghost use Rattle.std.specs.Prelude.{◌≡◌, ◌==◌, slice_get};
ghost use Rattle.std.specs.Option.{option_copied};
ghost use Rattle.std.specs.List.{list_all, list_any};
ghost use Rattle.ba_direct.specs.Cover.{constant_of};
ghost use Rattle.ba_direct.specs.Test.{same_op as same_op_test, is_equation as is_equation_test, same_value, is_number, maps as maps_test, maps_atom as maps_atom_test, outputs as outputs_test, is_known as is_known_test, has_image as has_image_test, is_covered_atom as is_covered_atom_test, operands_covered as operands_covered_test, is_reached as is_reached_test, may_have_image as may_have_image_test, is_settled as is_settled_test, may_be_known as may_be_known_test, may_be_covered as may_be_covered_test, may_cover as may_cover_test};

use ba_model::{Atom, Context, Op, Operand, Part, Value};

/// The value of a constant, or of a parameter.
fn constant<'a>(ctx: &'a Context, operand: &'a Operand) -> Option<&'a Value>
    ensures { option_copied result ≡ constant_of ctx.now operand.now }
{
    match operand {
        Operand::Col(_, _) => None,
        Operand::Val(value) => Some(value),
        Operand::Param(n) => ctx.values.find(*n as usize),
        Operand::Var(_) => None,
    }
}

fn same_constant(ctx: &Context, x: &Operand, y: &Operand) -> bool
    ensures { result ≡ same_value (constant_of ctx.now x.now) (constant_of ctx.now y.now) }
{
    match (constant(ctx, x), constant(ctx, y)) {
        (Some(v), Some(w)) => v.order(w).is_eq(),
        _ => false,
    }
}

/// Whether the view's place is paired with the query's.
fn is_paired(to: &[usize], place: u32, paired: u32) -> bool
    ensures { result ≡ is_number (slice_get to.now place) paired }
{
    match to.get(place as usize) {
        Some(i) => *i == paired as usize,
        None => false,
    }
}

/// Whether the view's operand maps to the query's.
fn maps(ctx: &Context, to: &[usize], view: &Operand, mine: &Operand) -> bool
    ensures { result ≡ maps_test ctx.now to.now view.now mine.now }
{
    match (view, mine) {
        (Operand::Col(place, column), Operand::Col(paired, other)) => {
            is_paired(to, *place, *paired) && *other == *column
        }
        _ => same_constant(ctx, view, mine),
    }
}

fn same_op(a: Op, b: Op) -> bool
    ensures { result ≡ same_op_test a b }
{
    match (a, b) {
        (Op::Eq, Op::Eq) => true,
        (Op::Ne, Op::Ne) => true,
        (Op::Lt, Op::Lt) => true,
        (Op::Le, Op::Le) => true,
        (Op::IsNull, Op::IsNull) => true,
        (Op::NotNull, Op::NotNull) => true,
        _ => false,
    }
}

fn is_equation(op: Op) -> bool
    ensures { result ≡ is_equation_test op }
{
    match op {
        Op::Eq => true,
        _ => false,
    }
}

/// Whether the view's atom maps to the query's, an equation either way round.
fn maps_atom(ctx: &Context, to: &[usize], view: &Atom, mine: &Atom) -> bool
    ensures { result ≡ maps_atom_test ctx.now to.now view.now mine.now }
{
    (same_op(view.op, mine.op)
        && (maps(ctx, to, &view.left, &mine.left) && maps(ctx, to, &view.right, &mine.right)))
        || ((is_equation(view.op) && is_equation(mine.op))
            && (maps(ctx, to, &view.left, &mine.right) && maps(ctx, to, &view.right, &mine.left)))
}

/// Whether the operand of the view's head is the query's column.
fn outputs(to: &[usize], paired: u32, column: u32, operand: &Operand) -> bool
    ensures { result ≡ outputs_test to.now paired column operand.now }
{
    match operand {
        Operand::Col(place, other) => is_paired(to, *place, paired) && *other == column,
        _ => false,
    }
}

fn is_output(to: &[usize], head: &[Operand], paired: u32, column: u32) -> bool
    ensures { result ≡ list_any (outputs_test to.now paired column) head.now }
{
    head.iter()
        .any(|operand| outputs(to, paired, column, operand))
}

/// Whether the query's operand is a constant or a column that the view outputs.
fn is_known(ctx: &Context, to: &[usize], view: &Part, mine: &Operand) -> bool
    ensures { result ≡ is_known_test ctx.now to.now view.now mine.now }
{
    match mine {
        Operand::Col(paired, column) => is_output(to, view.head.as_slice(), *paired, *column),
        Operand::Val(_) => true,
        Operand::Param(n) => ctx.values.find(*n as usize).is_some(),
        Operand::Var(_) => false,
    }
}

/// Whether some atom of the query is the image of the view's atom.
fn has_image(ctx: &Context, to: &[usize], part: &Part, view: &Atom) -> bool
    ensures { result ≡ has_image_test ctx.now to.now part.now view.now }
{
    part.conds
        .as_slice()
        .iter()
        .any(|mine| maps_atom(ctx, to, view, mine))
}

/// Whether the query's atom is the image of some atom of the view.
fn is_image(ctx: &Context, to: &[usize], atoms: &[Atom], mine: &Atom) -> bool
    ensures { result ≡ list_any (λ a. maps_atom_test ctx.now to.now a mine.now) atoms.now }
{
    atoms.iter().any(|atom| maps_atom(ctx, to, atom, mine))
}

fn is_covered_atom(ctx: &Context, to: &[usize], view: &Part, mine: &Atom) -> bool
    ensures { result ≡ is_covered_atom_test ctx.now to.now view.now mine.now }
{
    is_image(ctx, to, view.conds.as_slice(), mine)
        || (is_known(ctx, to, view, &mine.left) && is_known(ctx, to, view, &mine.right))
}

fn all_have_images(ctx: &Context, to: &[usize], part: &Part, atoms: &[Atom]) -> bool
    ensures { result ≡ list_all (has_image_test ctx.now to.now part.now) atoms.now }
{
    atoms.iter().all(|atom| has_image(ctx, to, part, atom))
}

fn all_covered(ctx: &Context, to: &[usize], view: &Part, atoms: &[Atom]) -> bool
    ensures { result ≡ list_all (is_covered_atom_test ctx.now to.now view.now) atoms.now }
{
    atoms
        .iter()
        .all(|atom| is_covered_atom(ctx, to, view, atom))
}

fn all_known(ctx: &Context, to: &[usize], view: &Part, operands: &[Operand]) -> bool
    ensures { result ≡ list_all (is_known_test ctx.now to.now view.now) operands.now }
{
    operands
        .iter()
        .all(|operand| is_known(ctx, to, view, operand))
}

/// Whether each atom of the view has its image in the query, and the query's other atoms and its head are known by the view.
pub fn operands_covered(ctx: &Context, view: &Part, part: &Part, to: &[usize]) -> bool
    ensures { result ≡ operands_covered_test ctx.now view.now part.now to.now }
{
    all_have_images(ctx, to, part, view.conds.as_slice())
        && (all_covered(ctx, to, view, part.conds.as_slice())
            && all_known(ctx, to, view, part.head.as_slice()))
}

/// Whether the pairing so far has the operand's table.
fn is_reached(to: &[usize], operand: &Operand) -> bool
    ensures { result ≡ is_reached_test to.now operand.now }
{
    match operand {
        Operand::Col(place, _) => (*place as usize) < to.len(),
        _ => true,
    }
}

fn may_have_image(ctx: &Context, to: &[usize], part: &Part, atom: &Atom) -> bool
    ensures { result ≡ may_have_image_test ctx.now to.now part.now atom.now }
{
    if is_reached(to, &atom.left) && is_reached(to, &atom.right) {
        has_image(ctx, to, part, atom)
    } else {
        true
    }
}

fn all_may_have_images(ctx: &Context, to: &[usize], part: &Part, atoms: &[Atom]) -> bool
    ensures { result ≡ list_all (may_have_image_test ctx.now to.now part.now) atoms.now }
{
    atoms.iter().all(|atom| may_have_image(ctx, to, part, atom))
}

/// Whether a table of the view is paired with the query's place so far.
fn is_taken(to: &[usize], paired: u32) -> bool
    ensures { result ≡ list_any (λ i. i == paired) to.now }
{
    to.iter().any(|i| *i == paired as usize)
}

/// Whether the query's operand is no column, or one of a place that is paired so far.
fn is_settled(to: &[usize], mine: &Operand) -> bool
    ensures { result ≡ is_settled_test to.now mine.now }
{
    match mine {
        Operand::Col(paired, _) => is_taken(to, *paired),
        _ => true,
    }
}

fn may_be_known(ctx: &Context, to: &[usize], view: &Part, mine: &Operand) -> bool
    ensures { result ≡ may_be_known_test ctx.now to.now view.now mine.now }
{
    if is_settled(to, mine) {
        is_known(ctx, to, view, mine)
    } else {
        true
    }
}

fn may_be_covered(ctx: &Context, to: &[usize], view: &Part, mine: &Atom) -> bool
    ensures { result ≡ may_be_covered_test ctx.now to.now view.now mine.now }
{
    if is_settled(to, &mine.left) && is_settled(to, &mine.right) {
        is_covered_atom(ctx, to, view, mine)
    } else {
        true
    }
}

fn all_may_be_covered(ctx: &Context, to: &[usize], view: &Part, atoms: &[Atom]) -> bool
    ensures { result ≡ list_all (may_be_covered_test ctx.now to.now view.now) atoms.now }
{
    atoms.iter().all(|atom| may_be_covered(ctx, to, view, atom))
}

fn all_may_be_known(ctx: &Context, to: &[usize], view: &Part, operands: &[Operand]) -> bool
    ensures { result ≡ list_all (may_be_known_test ctx.now to.now view.now) operands.now }
{
    operands
        .iter()
        .all(|operand| may_be_known(ctx, to, view, operand))
}

/// Whether each atom of the view whose tables are paired so far has its image in the query, and the query's other atoms and what
/// its head has of these tables are known by the view.
pub fn may_cover(ctx: &Context, view: &Part, part: &Part, to: &[usize]) -> bool
    ensures { result ≡ may_cover_test ctx.now view.now part.now to.now }
{
    all_may_have_images(ctx, to, part, view.conds.as_slice())
        && (all_may_be_covered(ctx, to, view, part.conds.as_slice())
            && all_may_be_known(ctx, to, view, part.head.as_slice()))
}
