//! The case of a part: a branch with its facts and lessons added.
ghost use Rattle.std.specs.Prelude.{◌≡◌, All, IfOk, OnOk, length, map};
ghost use Rattle.std.specs.List.{AllZip, range_with_len, zip};
ghost use Rattle.ba_kernel.specs.Effects.{IsCase, lesson_of, rows_at, same_of, with_facts};
ghost use Rattle.ba_kernel.specs.Tidy.{FactsAreThere, HasTerm, HasTerms, IsPartFor, IsReady, Learns, TermsAreThere};

use crate::cases::terms::operand_term;
use crate::problem::Problem;
use ba_facts::{Branch, Side, Term, TermAtom, number_after};
use ba_model::{Atom, Duplicate, Operand, Owned, Part};
use std::alloc::{AllocError, Global};

/// For each of the parts the case where it gives the row. The last one is made of the branch
/// itself, and the others of copies.
pub fn part_cases(
    alloc: Global,
    problem: &Problem,
    old: Owned<Branch>,
    side: Side,
    round: u32,
    row: &[Term],
    parts: &[Part],
) -> Result<Vec<Owned<Branch>>, AllocError>
    requires ready { IsReady old row.now }
    requires fits { All (IsPartFor problem.now.policy.schema (length row.now)) parts.now }
    ensures { IfOk result (λ cases.
        AllZip (IsCase problem.now.policy.schema old side round row.now)
        parts.now cases.items) }
{
    let Some((last, front)) = parts.split_last() else {
        return Ok(Vec::new(alloc));
    };
    let mut cases = copied_cases(alloc, problem, &old, side, round, row, front)?;
    let mut new = old;
    add_part(alloc, problem, new.get_mut(), side, round, last, row)?;
    cases.push(new)?;
    Ok(cases)
}

/// The same of copies alone.
fn copied_cases(
    alloc: Global,
    problem: &Problem,
    old: &Branch,
    side: Side,
    round: u32,
    row: &[Term],
    parts: &[Part],
) -> Result<Vec<Owned<Branch>>, AllocError>
    requires ready { IsReady old.now row.now }
    requires fits { All (IsPartFor problem.now.policy.schema (length row.now)) parts.now }
    ensures { IfOk result (λ cases.
        AllZip (IsCase problem.now.policy.schema old.now side round row.now)
        parts.now cases.items) }
{
    let mut cases = Vec::new(alloc);
    for part in parts {
        cases.push(part_case(alloc, problem, old, side, round, part, row)?)?;
    }
    Ok(cases)
}

/// The branch where the part gives the row on the side: a fact for each of its tables, its atoms,
/// and its head the same as the row. Facts past the numbers of 32 bits are told as want of memory.
fn part_case(
    alloc: Global,
    problem: &Problem,
    old: &Branch,
    side: Side,
    round: u32,
    part: &Part,
    row: &[Term],
) -> Result<Owned<Branch>, AllocError>
    requires ready { IsReady old.now row.now }
    requires fits { IsPartFor problem.now.policy.schema (length row.now) part.now }
    ensures { IfOk result (IsCase problem.now.policy.schema old.now side round row.now part.now) }
{
    let mut new = old.owned_copy(alloc)?;
    add_part(alloc, problem, new.get_mut(), side, round, part, row)?;
    Ok(new)
}

/// Adds a fact for each of the part's tables, its atoms, and that its head is the same as the row.
fn add_part(
    alloc: Global,
    problem: &Problem,
    new: &mut Branch,
    side: Side,
    round: u32,
    part: &Part,
    row: &[Term],
) -> Result<(), AllocError>
    requires ready { IsReady new.old row.now }
    requires fits { IsPartFor problem.now.policy.schema (length row.now) part.now }
    ensures { OnOk result
        (IsCase problem.now.policy.schema new.old side round row.now part.now new.new) }
{
    let numbers = numbers_from(alloc, new.facts.len(), part.from.len())?;
    let facts = numbers.as_slice();
    let from = part.from.as_slice();
    let conds = part.conds.as_slice();
    let head = part.head.as_slice();
    add_facts(alloc, problem, new, side, round, from)?;
    assume_all(alloc, new, facts, conds)?;
    equate_all(alloc, new, facts, head, row)?;
    Ok(())
}

/// So many numbers, on from the first.
pub fn numbers_from(alloc: Global, first: usize, count: usize) -> Result<Vec<u32>, AllocError>
    ensures { IfOk result (λ numbers. numbers.items ≡ range_with_len first count) }
{
    number_after(first, count)?;
    let mut numbers = Vec::new(alloc);
    for i in 0..count {
        numbers.push((first + i) as u32)?;
    }
    Ok(numbers)
}

/// Adds a row of each table in turn.
pub fn add_facts(
    alloc: Global,
    problem: &Problem,
    new: &mut Branch,
    side: Side,
    round: u32,
    from: &[u32],
) -> Result<(), AllocError>
    ensures { OnOk result
        (new.new ≡ with_facts problem.now.policy.schema side round new.old from.now) }
{
    for table in from {
        new.add_fact(alloc, side, *table, problem.columns(*table), round)?;
    }
    Ok(())
}

/// Learns that each atom is true of the facts' terms.
pub fn assume_all(
    alloc: Global,
    new: &mut Branch,
    facts: &[u32],
    conds: &[Atom],
) -> Result<(), AllocError>
    requires there { FactsAreThere new.old }
    requires terms { All (HasTerms (rows_at new.old facts.now)) conds.now }
    ensures { OnOk result
        (Learns (map (lesson_of (rows_at new.old facts.now)) conds.now) new.old new.new) }
{
    for atom in conds {
        let left = operand_term(alloc, new, facts, &atom.left)?;
        let right = operand_term(alloc, new, facts, &atom.right)?;
        new.assume(TermAtom {
            op: atom.op,
            left,
            right,
        })?;
    }
    Ok(())
}

/// Learns that the head is the same as the row.
fn equate_all(
    alloc: Global,
    new: &mut Branch,
    facts: &[u32],
    head: &[Operand],
    row: &[Term],
) -> Result<(), AllocError>
    requires wide { length head.now ≡ length row.now }
    requires there { FactsAreThere new.old }
    requires terms { All (HasTerm (rows_at new.old facts.now)) head.now }
    requires row { TermsAreThere new.old.known row.now }
    ensures { OnOk result
        (Learns (map (same_of (rows_at new.old facts.now)) (zip head.now row.now))
        new.old new.new) }
{
    for (i, operand) in head.iter().enumerate() {
        let left = operand_term(alloc, new, facts, operand)?;
        let right = row[i].copy(alloc)?;
        new.equate(left, right)?;
    }
    Ok(())
}
