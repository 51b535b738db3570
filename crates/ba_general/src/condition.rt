//! The full condition of a pattern: what its operands' values tell of them.
ghost use Rattle.std.specs.Prelude.{◌≡◌, ◌↔◌, ◌+◌, ◌<◌, ◌++◌, IfOk, IsTrue, OnOk, drop, length, map};
ghost use Rattle.ba_general.specs.Conditions.{AddsGroup, AddsOnes, AreOfOneKind, IsOne, fixed_of, pairs, sided, those};
ghost use Rattle.ba_general.specs.declared.condition.Group.TheVariants.{Less, Apart, Equal};

use crate::pattern::Valued;
use ba_model::{Atom, Duplicate, Kind, List, Op, Operand, Same, Value};
use std::alloc::{AllocError, Global};

/// What the atoms of a group say.
#[derive(Clone, Copy, Debug, PartialEq, Eq)]
pub enum Group {
    /// An operand has its value.
    Fixed,
    /// Of two whole numbers that differ, the lesser is less.
    Less,
    /// Two of one kind differ.
    Apart,
    /// Two are equal.
    Equal,
}

/// Adds the atoms of a group, in the order of the operands; pairs by the first, then by the second.
pub fn add_group(
    alloc: Global,
    atoms: &mut Vec<Atom>,
    group: Group,
    operands: &List<Valued>,
) -> Result<(), AllocError>
    ensures { OnOk result (AddsGroup group operands.now atoms.old.items atoms.new.items) }
{
    match group {
        Group::Fixed => add_fixed(alloc, atoms, operands.as_slice()),
        Group::Less | Group::Apart | Group::Equal => add_all_pairs(alloc, atoms, group, operands),
    }
}

fn add_fixed(alloc: Global, atoms: &mut Vec<Atom>, operands: &[Valued]) -> Result<(), AllocError>
    ensures { OnOk result (atoms.new.items ≡ atoms.old.items ++ map fixed_of operands.now) }
{
    for operand in operands {
        atoms.push(fixed(alloc, operand)?)?;
    }
    Ok(())
}

fn fixed(alloc: Global, it: &Valued) -> Result<Atom, AllocError>
    ensures { IfOk result (λ atom. atom ≡ fixed_of it.now) }
{
    let left = it.operand.copy(alloc)?;
    let right = Operand::Val(it.value.copy(alloc)?);
    Ok(Atom {
        op: Op::Eq,
        left,
        right,
    })
}

fn add_all_pairs(
    alloc: Global,
    atoms: &mut Vec<Atom>,
    group: Group,
    operands: &List<Valued>,
) -> Result<(), AllocError>
    ensures { OnOk result (AddsOnes group (pairs operands.now) atoms.old.items atoms.new.items) }
{
    for n in 0..operands.len() {
        add_pairs(alloc, atoms, group, operands.get(n), behind(operands, n))?;
    }
    Ok(())
}

/// The operands behind the one of the number.
fn behind(operands: &List<Valued>, n: usize) -> &[Valued]
    requires { n < length operands.now }
    ensures { result.now ≡ drop (n + 1) operands.now }
{
    &operands.as_slice()[n + 1..]
}

/// Adds the group's atoms of an operand and each of the others.
fn add_pairs(
    alloc: Global,
    atoms: &mut Vec<Atom>,
    group: Group,
    operand: &Valued,
    others: &[Valued],
) -> Result<(), AllocError>
    ensures { OnOk result (AddsOnes group (map (λ y. (operand.now, y)) others.now) atoms.old.items atoms.new.items) }
{
    for other in others {
        let atom = pair(alloc, group, operand, other)?;
        add_if(atoms, atom)?;
    }
    Ok(())
}

fn add_if(atoms: &mut Vec<Atom>, atom: Option<Atom>) -> Result<(), AllocError>
    ensures { OnOk result (atoms.new.items ≡ atoms.old.items ++ those atom) }
{
    if let Some(atom) = atom {
        atoms.push(atom)?;
    }
    Ok(())
}

/// The group's atom of two operands, if there is one.
fn pair(
    alloc: Global,
    group: Group,
    left: &Valued,
    right: &Valued,
) -> Result<Option<Atom>, AllocError>
    ensures { IfOk result (IsOne group (left.now, right.now)) }
{
    match group {
        Group::Fixed => Ok(None),
        Group::Less => less(alloc, left, right),
        Group::Apart => apart(alloc, left, right),
        Group::Equal => equal(alloc, left, right),
    }
}

fn less(alloc: Global, left: &Valued, right: &Valued) -> Result<Option<Atom>, AllocError>
    ensures { IfOk result (IsOne Less (left.now, right.now)) }
{
    match (&left.value, &right.value) {
        (Value::Int(a), Value::Int(b)) => {
            if *a < *b {
                Ok(Some(atom(alloc, Op::Lt, left, right)?))
            } else if *b < *a {
                Ok(Some(atom(alloc, Op::Lt, right, left)?))
            } else {
                Ok(None)
            }
        }
        _ => Ok(None),
    }
}

fn apart(alloc: Global, left: &Valued, right: &Valued) -> Result<Option<Atom>, AllocError>
    ensures { IfOk result (IsOne Apart (left.now, right.now)) }
{
    if are_of_one_kind(&left.value, &right.value) && !left.value.same(&right.value) {
        return Ok(Some(atom(alloc, Op::Ne, left, right)?));
    }
    Ok(None)
}

fn equal(alloc: Global, left: &Valued, right: &Valued) -> Result<Option<Atom>, AllocError>
    ensures { IfOk result (IsOne Equal (left.now, right.now)) }
{
    if left.value.same(&right.value) {
        return Ok(Some(atom(alloc, Op::Eq, left, right)?));
    }
    Ok(None)
}

fn are_of_one_kind(left: &Value, right: &Value) -> bool
    ensures { IsTrue result ↔ AreOfOneKind left.now right.now }
{
    match (left.kind(), right.kind()) {
        (Some(Kind::Int), Some(Kind::Int)) => true,
        (Some(Kind::Text), Some(Kind::Text)) => true,
        _ => false,
    }
}

fn atom(alloc: Global, op: Op, left: &Valued, right: &Valued) -> Result<Atom, AllocError>
    ensures { IfOk result (λ it. it ≡ sided op left.now right.now) }
{
    let left = left.operand.copy(alloc)?;
    let right = right.operand.copy(alloc)?;
    Ok(Atom { op, left, right })
}
