//! Operands, each behind a blank.
ghost use Rattle.std.specs.Prelude.{◌≡◌, ◌++◌, [], ◌∷◌, OnOk, slice_get, string_bytes};
ghost use Rattle.std.specs.Option.{option_copied};
ghost use Rattle.ba_keys.specs.Literals.{operand_with};
ghost use Rattle.ba_send.specs.Sent.{column_piece, literal_of, literal_pieces, operand_pieces, pieces_text, value_pieces};

use crate::column::column_name;
use crate::name::{push_name, push_source_name};
use crate::text::push_text;
use ba_model::{Operand, Schema, Value};
use ba_target::Database;
use std::alloc::AllocError;

fn push_column(
    out: &mut String,
    database: Database,
    schema: &Schema,
    from: &[u32],
    place: u32,
    column: u32,
) -> Result<(), AllocError>
    ensures { OnOk result (string_bytes out.new ≡ string_bytes out.old
        ++ pieces_text database (column_piece schema.now from.now place column ∷ [])) }
{
    push_source_name(out, place as usize)?;
    out.push_str(".")?;
    let name = column_name(schema, from, place, column);
    push_name(out, database, name)?;
    Ok(())
}

#[tactic(auto, unfolding(crate::specs::Sent::value_pieces, crate::specs::Sent::pieces_text))]
fn push_value(
    out: &mut String,
    database: Database,
    exact: bool,
    value: &Value,
) -> Result<(), AllocError>
    ensures { OnOk result (string_bytes out.new
        ≡ string_bytes out.old ++ pieces_text database (value_pieces database exact value.now)) }
{
    match value {
        Value::Null => out.push_str(" NULL"),
        Value::Int(n) => write!(out, " {n}"),
        Value::Text(text) => push_text(out, database, exact, text.as_str()),
    }
}

/// The value of a parameter; none where it isn't there.
pub fn value_at<'a>(values: &'a [Value], n: u32) -> Option<&'a Value>
    ensures { option_copied result ≡ slice_get values.now n }
{
    values.get(n as usize)
}

/// The literal that an operand is, or its parameter's value.
#[tactic(auto, using(crate::proofs::ZeroLemmas::literals))]
pub fn literal<'a>(values: &'a [Value], operand: &'a Operand) -> Option<&'a Value>
    ensures { option_copied result ≡ literal_of (operand_with 0 values.now operand.now) }
{
    match operand {
        Operand::Val(value) => Some(value),
        Operand::Param(n) => value_at(values, *n),
        Operand::Col(_, _) => None,
        Operand::Var(_) => None,
    }
}

#[tactic(auto, unfolding(crate::specs::Sent::pieces_text))]
fn push_literal(
    out: &mut String,
    database: Database,
    exact: bool,
    value: Option<&Value>,
) -> Result<(), AllocError>
    ensures { OnOk result (string_bytes out.new ≡ string_bytes out.old
        ++ pieces_text database (literal_pieces database exact (option_copied value.entry))) }
{
    match value {
        Some(value) => push_value(out, database, exact, value),
        None => Ok(()),
    }
}

/// Adds an operand of a part with these tables, a parameter by its value.
#[tactic(auto, using(crate::proofs::ZeroLemmas::printed), unfolding(crate::specs::Sent::pieces_text))]
pub fn push_operand(
    out: &mut String,
    database: Database,
    schema: &Schema,
    values: &[Value],
    from: &[u32],
    exact: bool,
    operand: &Operand,
) -> Result<(), AllocError>
    ensures { OnOk result (string_bytes out.new ≡ string_bytes out.old ++ pieces_text database
        (operand_pieces database schema.now from.now exact
        (operand_with 0 values.now operand.now))) }
{
    match operand {
        Operand::Col(place, column) => push_column(out, database, schema, from, *place, *column),
        Operand::Val(value) => push_value(out, database, exact, value),
        Operand::Param(n) => push_literal(out, database, exact, value_at(values, *n)),
        Operand::Var(_) => Ok(()),
    }
}
