//! Whether a query can become another at all, as far as its variables are fixed. It takes no
//! memory, so it is asked before what is fixed is copied.
ghost use Rattle.std.specs.Prelude.{◌↔◌, IsTrue};
ghost use Rattle.std.specs.List.{AllZip};
ghost use Rattle.ba_match.specs.Alike.{AreAlike, AreAlikeAtoms, AreAlikeParts, MayBecome};

use crate::bindings::Bindings;
use ba_model::{Atom, Operand, Part, Query, Same};

/// Whether the queries have as many parts, and part by part the same tables and as many conditions
/// and columns, each of which may become the other's. Where they haven't, no values that extend the
/// fixed ones make the one the other.
pub fn are_alike(bound: &Bindings, pattern: &Query, query: &Query) -> bool
    ensures { IsTrue result ↔ AreAlike bound.now pattern.now query.now }
{
    are_all_alike(bound, pattern.parts.as_slice(), query.parts.as_slice())
}

fn are_all_alike(bound: &Bindings, patterns: &[Part], parts: &[Part]) -> bool
    ensures { IsTrue result ↔ AllZip (AreAlikeParts bound.now) patterns.now parts.now }
{
    match (patterns.split_first(), parts.split_first()) {
        (None, None) => true,
        (Some((pattern, patterns)), Some((part, parts))) => {
            are_alike_parts(bound, pattern, part) && are_all_alike(bound, patterns, parts)
        }
        _ => false,
    }
}

fn are_alike_parts(bound: &Bindings, pattern: &Part, part: &Part) -> bool
    ensures { IsTrue result ↔ AreAlikeParts bound.now pattern.now part.now }
{
    pattern.from.same(&part.from)
        && atoms_may_become(bound, pattern.conds.as_slice(), part.conds.as_slice())
        && operands_may_become(bound, pattern.head.as_slice(), part.head.as_slice())
}

fn atoms_may_become(bound: &Bindings, patterns: &[Atom], atoms: &[Atom]) -> bool
    ensures { IsTrue result ↔ AllZip (AreAlikeAtoms bound.now) patterns.now atoms.now }
{
    match (patterns.split_first(), atoms.split_first()) {
        (None, None) => true,
        (Some((pattern, patterns)), Some((atom, atoms))) => {
            are_alike_atoms(bound, pattern, atom) && atoms_may_become(bound, patterns, atoms)
        }
        _ => false,
    }
}

fn are_alike_atoms(bound: &Bindings, pattern: &Atom, atom: &Atom) -> bool
    ensures { IsTrue result ↔ AreAlikeAtoms bound.now pattern.now atom.now }
{
    pattern.op.same(&atom.op)
        && bound.may_become(&pattern.left, &atom.left)
        && bound.may_become(&pattern.right, &atom.right)
}

fn operands_may_become(bound: &Bindings, patterns: &[Operand], operands: &[Operand]) -> bool
    ensures { IsTrue result ↔ AllZip (MayBecome bound.now) patterns.now operands.now }
{
    match (patterns.split_first(), operands.split_first()) {
        (None, None) => true,
        (Some((pattern, patterns)), Some((operand, operands))) => {
            bound.may_become(pattern, operand) && operands_may_become(bound, patterns, operands)
        }
        _ => false,
    }
}
