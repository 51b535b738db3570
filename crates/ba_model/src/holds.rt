//! The value of an operand and the truth of an atom, over one row for each place of a part.
ghost use Rattle.std.specs.Prelude.{◌≡◌, ◌↔◌, IsTrue, map};
ghost use Rattle.std.specs.Option.{option_copied};
ghost use Rattle.ba_model.specs.Meaning.{value_of, Compares, Holds};

use crate::policy::Context;
use crate::query::{Atom, Op, Operand};
use crate::same::Same;
use crate::value::{Row, Value};

impl Value {
    /// Whether it is NULL.
    pub fn is_null(&self) -> bool
        ensures { IsTrue result ↔ (self.now ≡ Value.Null) }
    {
        match self {
            Value::Null => true,
            Value::Int(_) => false,
            Value::Text(_) => false,
        }
    }
}

impl Op {
    /// Whether the comparison is true of the two values.
    ///
    /// `=`, `<>`, `<` and `<=` are true of no NULL, and the last two of whole numbers alone. IS NULL and IS NOT NULL look at the left value.
    pub fn compares(self, left: &Value, right: &Value) -> bool
        ensures { IsTrue result ↔ Compares self left.now right.now }
    {
        match self {
            Op::Eq => !left.is_null() && left.same(right),
            Op::Ne => !left.is_null() && !right.is_null() && !left.same(right),
            Op::Lt => match (left, right) {
                (Value::Int(n), Value::Int(m)) => *n < *m,
                _ => false,
            },
            Op::Le => match (left, right) {
                (Value::Int(n), Value::Int(m)) => *n <= *m,
                _ => false,
            },
            Op::IsNull => left.is_null(),
            Op::NotNull => !left.is_null(),
        }
    }
}

impl Operand {
    /// The value over one row for each place of the part, if it has one.
    ///
    /// A variable has none, nor has a place, column or parameter that isn't there.
    pub fn value<'a>(&'a self, ctx: &'a Context, rows: &'a [Row]) -> Option<&'a Value>
        ensures { option_copied result ≡ value_of ctx.now rows.now self.now }
    {
        match self {
            Operand::Col(place, column) => match rows.get(*place as usize) {
                Some(row) => row.find(*column as usize),
                None => None,
            },
            Operand::Val(value) => Some(value),
            Operand::Param(n) => ctx.values.find(*n as usize),
            Operand::Var(_) => None,
        }
    }

    /// `value` over rows that are chosen by reference.
    pub fn value_of_chosen<'a>(&'a self, ctx: &'a Context, rows: &[&'a Row]) -> Option<&'a Value>
        ensures { option_copied result ≡ value_of ctx.now (map (λ row. row.now) rows.now) self.now }
    {
        match self {
            Operand::Col(place, column) => match rows.get(*place as usize) {
                Some(row) => row.find(*column as usize),
                None => None,
            },
            Operand::Val(value) => Some(value),
            Operand::Param(n) => ctx.values.find(*n as usize),
            Operand::Var(_) => None,
        }
    }
}

impl Atom {
    /// Whether the atom is true of one row for each place of its part.
    ///
    /// It isn't where a side has no value.
    pub fn holds(&self, ctx: &Context, rows: &[Row]) -> bool
        ensures { IsTrue result ↔ Holds ctx.now rows.now self.now }
    {
        match (self.left.value(ctx, rows), self.right.value(ctx, rows)) {
            (Some(left), Some(right)) => self.op.compares(left, right),
            _ => false,
        }
    }

    /// `holds` over rows that are chosen by reference.
    pub fn holds_of_chosen(&self, ctx: &Context, rows: &[&Row]) -> bool
        ensures { IsTrue result ↔ Holds ctx.now (map (λ row. row.now) rows.now) self.now }
    {
        match (
            self.left.value_of_chosen(ctx, rows),
            self.right.value_of_chosen(ctx, rows),
        ) {
            (Some(left), Some(right)) => self.op.compares(left, right),
            _ => false,
        }
    }
}
