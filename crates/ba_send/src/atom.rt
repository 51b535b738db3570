//! Atoms, in brackets.
ghost use Rattle.std.specs.Prelude.{◌≡◌, ◌++◌, [], ◌∷◌, OnOk, string_bytes};
ghost use Rattle.ba_keys.specs.Literals.{atom_with, operand_with};
ghost use Rattle.ba_send.specs.Sent.{atom_pieces, if_right, is_exact, is_text, operand_pieces, pieces_text, sign_pieces};

use crate::operand::{literal, push_operand};
use ba_model::{Atom, Op, Operand, Schema, Value};
use ba_target::Database;
use std::alloc::AllocError;

fn is_text(values: &[Value], operand: &Operand) -> bool
    ensures { result ≡ is_text (operand_with 0 values.now operand.now) }
{
    matches!(literal(values, operand), Some(Value::Text(_)))
}

fn is_exact(values: &[Value], atom: &Atom) -> bool
    ensures { result ≡ is_exact (atom_with 0 values.now atom.now) }
{
    is_text(values, &atom.left) && is_text(values, &atom.right)
}

#[tactic(auto, unfolding(crate::specs::Sent::pieces_text, crate::specs::Sent::sign_pieces))]
fn push_sign(out: &mut String, database: Database, op: Op) -> Result<(), AllocError>
    ensures { OnOk result (string_bytes out.new
        ≡ string_bytes out.old ++ pieces_text database (sign_pieces op)) }
{
    match op {
        Op::Eq => out.push_str(" ="),
        Op::Ne => out.push_str(" <>"),
        Op::Lt => out.push_str(" <"),
        Op::Le => out.push_str(" <="),
        Op::IsNull => out.push_str(" IS NULL"),
        Op::NotNull => out.push_str(" IS NOT NULL"),
    }
}

/// Adds the right side of an atom; nothing for IS NULL and IS NOT NULL.
#[tactic(auto, unfolding(crate::specs::Sent::pieces_text))]
fn push_right(
    out: &mut String,
    database: Database,
    schema: &Schema,
    values: &[Value],
    from: &[u32],
    exact: bool,
    atom: &Atom,
) -> Result<(), AllocError>
    ensures { OnOk result (string_bytes out.new ≡ string_bytes out.old ++ pieces_text database
        (if_right atom.now.op (operand_pieces database schema.now from.now exact
        (operand_with 0 values.now atom.now.right)))) }
{
    match atom.op {
        Op::IsNull => Ok(()),
        Op::NotNull => Ok(()),
        _ => push_operand(out, database, schema, values, from, exact, &atom.right),
    }
}

/// Adds an atom of a part with these tables, in brackets, each parameter by its value.
pub fn push_atom(
    out: &mut String,
    database: Database,
    schema: &Schema,
    values: &[Value],
    from: &[u32],
    atom: &Atom,
) -> Result<(), AllocError>
    ensures { OnOk result (string_bytes out.new ≡ string_bytes out.old
        ++ pieces_text database
        (atom_pieces database schema.now from.now (atom_with 0 values.now atom.now))) }
{
    let exact = is_exact(values, atom);
    out.push_str(" (")?;
    push_operand(out, database, schema, values, from, exact, &atom.left)?;
    push_sign(out, database, atom.op)?;
    push_right(out, database, schema, values, from, exact, atom)?;
    out.push_str(" )")?;
    Ok(())
}
