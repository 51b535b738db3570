//! Whether values are of their variables' kinds and meet a template's condition.
ghost use Rattle.std.specs.Prelude.{◌↔◌, ◌≡◌, [], All, IsTrue};
ghost use Rattle.std.specs.List.{AllZip};
ghost use Rattle.std.specs.Option.{option_copied};
ghost use Rattle.ba_facts.specs.Matches.{Under};
ghost use Rattle.ba_kernel.specs.Problems.{HoldsOf, fixed_value};
ghost use Rattle.ba_match.specs.Conditions.{MayHold, known_value};
ghost use Rattle.ba_model.specs.Conform.{IsOfKind};
ghost use Rattle.ba_template.specs.Found.{with_values};

use crate::bindings::Bindings;
use ba_model::{Atom, Context, Kind, Operand, Value};

/// Whether there is a value for each variable, of its kind.
pub fn are_of_kinds(vars: &[Kind], values: &[Value]) -> bool
    ensures { IsTrue result ↔ AllZip IsOfKind vars.now values.now }
{
    match (vars.split_first(), values.split_first()) {
        (None, None) => true,
        (Some((kind, vars)), Some((value, values))) => {
            is_of_kind(*kind, value) && are_of_kinds(vars, values)
        }
        _ => false,
    }
}

fn is_of_kind(kind: Kind, value: &Value) -> bool
    ensures { IsTrue result ↔ IsOfKind kind value.now }
{
    match (kind, value) {
        (Kind::Int, Value::Int(_)) => true,
        (Kind::Text, Value::Text(_)) => true,
        _ => false,
    }
}

/// Whether each atom is true in the context with these values for the variables.
pub fn all_hold(ctx: &Context, values: &[Value], atoms: &[Atom]) -> bool
    ensures { IsTrue result ↔ All (Under (HoldsOf (with_values ctx.now values.now)) []) atoms.now }
{
    atoms.iter().all(|atom| holds(ctx, values, atom))
}

fn holds(ctx: &Context, values: &[Value], atom: &Atom) -> bool
    ensures { IsTrue result ↔ Under (HoldsOf (with_values ctx.now values.now)) [] atom.now }
{
    match (
        value(ctx, values, &atom.left),
        value(ctx, values, &atom.right),
    ) {
        (Some(left), Some(right)) => atom.op.compares(left, right),
        _ => false,
    }
}

/// The value of an operand that is no column.
pub fn value<'a>(ctx: &'a Context, values: &'a [Value], operand: &'a Operand) -> Option<&'a Value>
    ensures { option_copied result ≡ fixed_value (with_values ctx.now values.now) operand.now }
{
    match operand {
        Operand::Col(_, _) => None,
        Operand::Val(value) => Some(value),
        Operand::Param(n) => ctx.values.find(*n as usize),
        Operand::Var(n) => values.get(*n as usize),
    }
}

/// Whether each atom is true as far as the values of its sides are known.
pub fn may_hold(ctx: &Context, bound: &Bindings, atoms: &[Atom]) -> bool
    ensures { IsTrue result ↔ All (MayHold ctx.now bound.now) atoms.now }
{
    atoms.iter().all(|atom| may_be_true(ctx, bound, atom))
}

fn may_be_true(ctx: &Context, bound: &Bindings, atom: &Atom) -> bool
    ensures { IsTrue result ↔ MayHold ctx.now bound.now atom.now }
{
    match (
        known(ctx, bound, &atom.left),
        known(ctx, bound, &atom.right),
    ) {
        (Some(left), Some(right)) => atom.op.compares(left, right),
        _ => true,
    }
}

fn known<'a>(ctx: &'a Context, bound: &'a Bindings, operand: &'a Operand) -> Option<&'a Value>
    ensures { option_copied result ≡ known_value ctx.now bound.now operand.now }
{
    match operand {
        Operand::Col(_, _) => None,
        Operand::Val(value) => Some(value),
        Operand::Param(n) => ctx.values.find(*n as usize),
        Operand::Var(n) => bound.fixed(*n),
    }
}
