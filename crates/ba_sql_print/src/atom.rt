//! Atoms.
ghost use Rattle.std.specs.Prelude.{◌≡◌, IfOk, string_bytes};
ghost use Rattle.ba_sql_print.specs.Printed.{atom_text, compared_text};

use crate::operand::operand;
use ba_model::{Atom, Op, Parameter, Schema};
use std::alloc::{AllocError, Global};

#[tactic(auto, unfolding(crate::specs::Printed::compared_text))]
fn compared(alloc: Global, op: Op, left: &str, right: &str) -> Result<String, AllocError>
    ensures { IfOk result (λ s. string_bytes s ≡ compared_text op left.now right.now) }
{
    match op {
        Op::Eq => format!(in alloc; "{left} = {right}"),
        Op::Ne => format!(in alloc; "{left} <> {right}"),
        Op::Lt => format!(in alloc; "{left} < {right}"),
        Op::Le => format!(in alloc; "{left} <= {right}"),
        Op::IsNull => format!(in alloc; "{left} IS NULL"),
        Op::NotNull => format!(in alloc; "{left} IS NOT NULL"),
    }
}

/// An atom of a part with these tables.
#[tactic(auto, unfolding(crate::specs::Printed::atom_text))]
pub fn atom(
    alloc: Global,
    schema: &Schema,
    params: &[Parameter],
    from: &[u32],
    atom: &Atom,
) -> Result<String, AllocError>
    ensures { IfOk result
        (λ s. string_bytes s ≡ atom_text schema.now params.now from.now atom.now) }
{
    let left = operand(alloc, schema, params, from, &atom.left)?;
    let right = operand(alloc, schema, params, from, &atom.right)?;
    compared(alloc, atom.op, left.as_str(), right.as_str())
}
