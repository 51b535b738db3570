//! Texts with the byte 0.
ghost use Rattle.std.specs.Prelude.{◌≡◌, ◌==◌, All, map};
ghost use Rattle.std.specs.List.{list_any};
ghost use Rattle.ba_keys.specs.Literals.{atom_with, operand_with, part_with, query_with};
ghost use Rattle.ba_model.specs.declared.query.Operand.TheVariants.{Val};
ghost use Rattle.ba_send.specs.Sendable.{atom_has_zero, has_zero, part_has_zero, query_has_zero};
ghost use Rattle.ba_sql_print.specs.Spelling.{AtomInRange, IsInRange, PartInRange};

use ba_model::{Atom, Operand, Part, Query, Value};

fn text_has_zero(bytes: &[u8]) -> bool
    ensures { result ≡ list_any (λ b. b == 0) bytes.now }
{
    bytes.contains(&0)
}

fn value_has_zero(value: &Value) -> bool
    ensures zero { result ≡ has_zero (Val value.now) }
    ensures range { IsInRange (Val value.now) }
{
    match value {
        Value::Null => false,
        Value::Int(n) => {
            let _n = *n;
            false
        }
        Value::Text(text) => text_has_zero(text.as_bytes()),
    }
}

#[tactic(auto, unfolding(ba_keys::specs::Literals::operand_with))]
fn operand_has_zero(values: &[Value], operand: &Operand) -> bool
    ensures zero { result ≡ has_zero (operand_with 0 values.now operand.now) }
    ensures range { IsInRange (operand_with 0 values.now operand.now) }
{
    match operand {
        Operand::Val(value) => value_has_zero(value),
        Operand::Param(n) => match values.get(*n as usize) {
            Some(value) => value_has_zero(value),
            None => false,
        },
        Operand::Col(_, _) => false,
        Operand::Var(_) => false,
    }
}

fn atom_has_zero(values: &[Value], atom: &Atom) -> bool
    ensures zero { result ≡ atom_has_zero (atom_with 0 values.now atom.now) }
    ensures range { AtomInRange (atom_with 0 values.now atom.now) }
{
    let left = operand_has_zero(values, &atom.left);
    let right = operand_has_zero(values, &atom.right);
    left || right
}

fn head_has_zero(values: &[Value], head: &[Operand]) -> bool
    ensures zero { result ≡ list_any has_zero (map (operand_with 0 values.now) head.now) }
    ensures range { All IsInRange (map (operand_with 0 values.now) head.now) }
{
    let mut found = false;
    for operand in head {
        let here = operand_has_zero(values, operand);
        found = found || here;
    }
    found
}

fn atoms_have_zero(values: &[Value], atoms: &[Atom]) -> bool
    ensures zero { result ≡ list_any atom_has_zero (map (atom_with 0 values.now) atoms.now) }
    ensures range { All AtomInRange (map (atom_with 0 values.now) atoms.now) }
{
    let mut found = false;
    for atom in atoms {
        let here = atom_has_zero(values, atom);
        found = found || here;
    }
    found
}

fn part_has_zero(values: &[Value], part: &Part) -> bool
    ensures zero { result ≡ part_has_zero (part_with 0 values.now part.now) }
    ensures range { PartInRange (part_with 0 values.now part.now) }
{
    let head = head_has_zero(values, part.head.as_slice());
    let atoms = atoms_have_zero(values, part.conds.as_slice());
    head || atoms
}

fn parts_have_zero(values: &[Value], parts: &[Part]) -> bool
    ensures zero { result ≡ list_any part_has_zero (map (part_with 0 values.now) parts.now) }
    ensures range { All PartInRange (map (part_with 0 values.now) parts.now) }
{
    let mut found = false;
    for part in parts {
        let here = part_has_zero(values, part);
        found = found || here;
    }
    found
}

/// Whether a query has a text with the byte 0, with these values of its parameters. Its whole
/// numbers have 64 bits.
pub fn query_has_zero(values: &[Value], query: &Query) -> bool
    ensures zero { result ≡ query_has_zero (query_with 0 values.now query.now) }
    ensures range { All PartInRange (map (part_with 0 values.now) query.now.parts) }
{
    parts_have_zero(values, query.parts.as_slice())
}
