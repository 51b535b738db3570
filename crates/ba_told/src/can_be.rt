//! Which parts of a question a told row can be of.
ghost use Rattle.std.specs.Prelude.{◌≡◌, ◌↔◌, All, IsTrue, Some};
ghost use Rattle.std.specs.List.{AllZip};
ghost use Rattle.std.specs.Option.{option_copied};
ghost use Rattle.ba_model.specs.Conform.{IsOfColumn};
ghost use Rattle.ba_parts.specs.Parts.{CanBeOf, IsHeadOf, MayHold, MayStand, column_at, column_in, is_column, told_by};

use ba_model::{Atom, Column, Context, Kind, Operand, Part, Row, Same, Schema, Value};

fn is_column(operand: &Operand, place: u32, column: u32) -> bool
    ensures { result ≡ is_column place column operand.now }
{
    match operand {
        Operand::Col(p, k) => *p == place && *k == column,
        Operand::Val(_) | Operand::Param(_) | Operand::Var(_) => false,
    }
}

// The value of the row where the column stands first in the head.
fn column_in<'a>(head: &[Operand], row: &'a [Value], place: u32, column: u32) -> Option<&'a Value>
    ensures { option_copied result ≡ column_in head.now row.now place column }
{
    match (head.split_first(), row.split_first()) {
        (Some((operand, head)), Some((value, row))) => {
            if is_column(operand, place, column) {
                Some(value)
            } else {
                column_in(head, row, place, column)
            }
        }
        _ => None,
    }
}

// The value of the operand that a row with this head tells, if it does.
fn told_by<'a>(
    context: &'a Context,
    head: &[Operand],
    row: &'a [Value],
    operand: &'a Operand,
) -> Option<&'a Value>
    ensures { option_copied result ≡ told_by context.now head.now row.now operand.now }
{
    match operand {
        Operand::Col(place, column) => column_in(head, row, *place, *column),
        Operand::Val(value) => Some(value),
        Operand::Param(n) => context.values.find(*n as usize),
        Operand::Var(_) => None,
    }
}

// Whether the comparison is true of the values that the row tells, where both sides are told.
fn may_hold(context: &Context, head: &[Operand], row: &[Value], atom: &Atom) -> bool
    ensures { IsTrue result ↔ MayHold context.now head.now row.now atom.now }
{
    match (
        told_by(context, head, row, &atom.left),
        told_by(context, head, row, &atom.right),
    ) {
        (Some(left), Some(right)) => atom.op.compares(left, right),
        _ => true,
    }
}

fn all_may_hold(context: &Context, head: &[Operand], row: &[Value], atoms: &[Atom]) -> bool
    ensures { IsTrue result ↔ All (MayHold context.now head.now row.now) atoms.now }
{
    atoms.iter().all(|atom| may_hold(context, head, row, atom))
}

// Whether the value may stand in the column.
fn is_of_column(column: &Column, value: &Value) -> bool
    ensures { IsTrue result ↔ IsOfColumn column.now value.now }
{
    match (value, column.kind) {
        (Value::Null, _) => column.nullable,
        (Value::Int(_), Kind::Int) => true,
        (Value::Text(_), Kind::Text) => true,
        _ => false,
    }
}

fn column_at<'a>(schema: &'a Schema, from: &[u32], place: u32, column: u32) -> Option<&'a Column>
    ensures { option_copied result ≡ column_at schema.now from.now place column }
{
    let table = from.get(place as usize)?;
    let table = schema.tables.find(*table as usize)?;
    table.columns.find(column as usize)
}

// Whether the value may stand where the operand stands.
fn may_stand(schema: &Schema, from: &[u32], operand: &Operand, value: &Value) -> bool
    ensures { IsTrue result ↔ MayStand schema.now from.now operand.now value.now }
{
    match operand {
        Operand::Col(place, column) => match column_at(schema, from, *place, *column) {
            Some(column) => is_of_column(column, value),
            None => false,
        },
        Operand::Val(_) | Operand::Param(_) | Operand::Var(_) => true,
    }
}

// Whether the value is what the row tells of the operand.
fn is_told(
    context: &Context,
    head: &[Operand],
    row: &[Value],
    operand: &Operand,
    value: &Value,
) -> bool
    ensures { IsTrue result
        ↔ (told_by context.now head.now row.now operand.now ≡ Some value.now) }
{
    match told_by(context, head, row, operand) {
        Some(told) => told.same(value),
        None => false,
    }
}

// Whether each of these values is what the row tells of its operand, and may stand there.
fn is_head_of(
    schema: &Schema,
    context: &Context,
    part: &Part,
    row: &Row,
    operands: &[Operand],
    values: &[Value],
) -> bool
    ensures { IsTrue result ↔ AllZip (IsHeadOf schema.now context.now part.now row.now)
        operands.now values.now }
{
    match (operands.split_first(), values.split_first()) {
        (None, None) => true,
        (Some((operand, operands)), Some((value, values))) => {
            is_told(
                context,
                part.head.as_slice(),
                row.as_slice(),
                operand,
                value,
            ) && may_stand(schema, part.from.as_slice(), operand, value)
                && is_head_of(schema, context, part, row, operands, values)
        }
        _ => false,
    }
}

/// Whether a row can be of the part: it has the width, kinds and constants of its head, NULL only
/// where the head's column may be NULL, and breaks none of its conditions as far as it tells their
/// sides. A row that the part gives in some database that conforms to the schema always can
/// ([`ba_parts::laws::given_can_be`]).
pub fn can_be_of(schema: &Schema, context: &Context, part: &Part, row: &Row) -> bool
    ensures { IsTrue result ↔ CanBeOf schema.now context.now row.now part.now }
{
    let head = part.head.as_slice();
    let values = row.as_slice();
    // The conditions first: their constants refuse nearly every part, and the head costs a walk over
    // its columns for each of them.
    all_may_hold(context, head, values, part.conds.as_slice())
        && is_head_of(schema, context, part, row, head, values)
}
