//! The parts of a query.
ghost use Rattle.std.specs.Prelude.{◌≡◌, ◌++◌, [], ◌∷◌, IfOk, OnOk, map, reverse};
ghost use Rattle.ba_sql_query.specs.Parts.{after, alternatives, both_top, equation, join_top, members, part_of, parts_of, product, select_parts};

use crate::resolved::{ResolvedNode, ResolvedSelect, ResolvedTest};
use ba_model::{Atom, Duplicate, List, Op, Operand, Part};
use std::alloc::{AllocError, Global};

/// The members of a disjunctive form, each a list of atoms.
type Members = List<List<Atom>>;

fn one<T: Drop>(alloc: Global, item: T) -> Result<List<T>, AllocError>
    ensures { IfOk result (λ list. list ≡ item ∷ []) }
{
    let mut list = List::new(alloc);
    list.push(item)?;
    Ok(list)
}

fn equation(alloc: Global, side: &Operand, constant: &Operand) -> Result<List<Atom>, AllocError>
    ensures { IfOk result (λ atoms. atoms ≡ equation side.now constant.now ∷ []) }
{
    let left = side.copy(alloc)?;
    let right = constant.copy(alloc)?;
    let op = Op::Eq;
    one(alloc, Atom { op, left, right })
}

fn equations(alloc: Global, side: &Operand, among: &[Operand]) -> Result<Members, AllocError>
    ensures { IfOk result (λ ms. ms ≡ map (λ c. equation side.now c ∷ []) among.now) }
{
    let mut found = List::new(alloc);
    for constant in among {
        let atoms = equation(alloc, side, constant)?;
        found.push(atoms)?;
    }
    Ok(found)
}

fn alternatives(alloc: Global, test: &ResolvedTest) -> Result<Members, AllocError>
    ensures { IfOk result (λ ms. ms ≡ alternatives test.now) }
{
    match test {
        ResolvedTest::One(atom) => {
            let atom = atom.copy(alloc)?;
            let atoms = one(alloc, atom)?;
            one(alloc, atoms)
        }
        ResolvedTest::Among { side, among } => equations(alloc, side, among.as_slice()),
    }
}

fn joined(alloc: Global, left: &List<Atom>, right: &List<Atom>) -> Result<List<Atom>, AllocError>
    ensures { IfOk result (λ atoms. atoms ≡ left.now ++ right.now) }
{
    let mut atoms = left.copy(alloc)?.into_vec();
    let mut more = right.copy(alloc)?.into_vec();
    atoms.append(&mut more)?;
    Ok(List::from_vec(atoms))
}

// The atoms of a member and of each of the others.
fn joined_with(
    alloc: Global,
    left: &List<Atom>,
    others: &[List<Atom>],
) -> Result<Vec<List<Atom>>, AllocError>
    ensures { IfOk result (λ v. v.items ≡ map (λ other. left.now ++ other) others.now) }
{
    let mut found = Vec::new(alloc);
    for other in others {
        let atoms = joined(alloc, left, other)?;
        found.push(atoms)?;
    }
    Ok(found)
}

fn product(alloc: Global, left: &[List<Atom>], right: &[List<Atom>]) -> Result<Members, AllocError>
    ensures { IfOk result (λ ms. ms ≡ product left.now right.now) }
{
    let mut found = Vec::new(alloc);
    for member in left {
        let mut more = joined_with(alloc, member, right)?;
        found.append(&mut more)?;
    }
    Ok(List::from_vec(found))
}

// A AND B
fn join_top(alloc: Global, stack: &mut Vec<Members>) -> Result<(), AllocError>
    ensures { OnOk result (reverse stack.new.items ≡ join_top (reverse stack.old.items)) }
{
    let Some(right) = stack.pop() else {
        return Ok(());
    };
    match stack.pop() {
        Some(left) => {
            let both = product(alloc, left.as_slice(), right.as_slice())?;
            stack.push(both)?;
        }
        None => stack.push(right)?,
    }
    Ok(())
}

fn appended(left: Members, right: Members) -> Result<Members, AllocError>
    ensures { IfOk result (λ ms. ms ≡ left ++ right) }
{
    let mut all = left.into_vec();
    let mut more = right.into_vec();
    all.append(&mut more)?;
    Ok(List::from_vec(all))
}

// A OR B
fn both_top(stack: &mut Vec<Members>) -> Result<(), AllocError>
    ensures { OnOk result (reverse stack.new.items ≡ both_top (reverse stack.old.items)) }
{
    let Some(right) = stack.pop() else {
        return Ok(());
    };
    match stack.pop() {
        Some(left) => {
            let both = appended(left, right)?;
            stack.push(both)?;
        }
        None => stack.push(right)?,
    }
    Ok(())
}

#[tactic(auto, unfolding(crate::specs::Parts::after))]
fn after(alloc: Global, stack: &mut Vec<Members>, node: &ResolvedNode) -> Result<(), AllocError>
    ensures { OnOk result (reverse stack.new.items ≡ after node.now (reverse stack.old.items)) }
{
    match node {
        ResolvedNode::Test(test) => {
            let members = alternatives(alloc, test)?;
            stack.push(members)?;
            Ok(())
        }
        ResolvedNode::And => join_top(alloc, stack),
        ResolvedNode::Or => both_top(stack),
    }
}

// The members of a condition's disjunctive form.
fn members(alloc: Global, condition: &[ResolvedNode]) -> Result<Members, AllocError>
    ensures { IfOk result (λ ms. ms ≡ members condition.now) }
{
    let mut stack = Vec::new(alloc);
    for node in condition {
        after(alloc, &mut stack, node)?;
    }
    match stack.pop() {
        Some(members) => Ok(members),
        None => one(alloc, List::new(alloc)),
    }
}

fn part_of(alloc: Global, select: &ResolvedSelect, conds: &List<Atom>) -> Result<Part, AllocError>
    ensures { IfOk result (λ part. part ≡ part_of select.now conds.now) }
{
    let from = select.from.copy(alloc)?;
    let conds = conds.copy(alloc)?;
    let head = select.head.copy(alloc)?;
    Ok(Part { from, conds, head })
}

fn parts_with(
    alloc: Global,
    select: &ResolvedSelect,
    members: &[List<Atom>],
) -> Result<Vec<Part>, AllocError>
    ensures { IfOk result (λ v. v.items ≡ map (part_of select.now) members.now) }
{
    let mut found = Vec::new(alloc);
    for conds in members {
        let part = part_of(alloc, select, conds)?;
        found.push(part)?;
    }
    Ok(found)
}

#[tactic(auto, unfolding(crate::specs::Parts::select_parts))]
fn select_parts(alloc: Global, select: &ResolvedSelect) -> Result<Vec<Part>, AllocError>
    ensures { IfOk result (λ v. v.items ≡ select_parts select.now) }
{
    let members = members(alloc, select.condition.as_slice())?;
    parts_with(alloc, select, members.as_slice())
}

/// The parts of the selects, which follow each other.
pub fn parts_of(alloc: Global, selects: &[ResolvedSelect]) -> Result<List<Part>, AllocError>
    ensures { IfOk result (λ parts. parts ≡ parts_of selects.now) }
{
    let mut found = Vec::new(alloc);
    for select in selects {
        let mut parts = select_parts(alloc, select)?;
        found.append(&mut parts)?;
    }
    Ok(List::from_vec(found))
}
