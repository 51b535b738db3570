//! The rounds of new facts.
ghost use Rattle.std.specs.Prelude.{◌≡◌, ◌↔◌, ◌+◌, ◌≤◌, ◌^◌, Any, IfErr, IfOk, IsTrue, max, option_map, slice_get, unwrap_or};
ghost use Rattle.ba_model.specs.declared.query.Operand.TheVariants.{Val};
ghost use Rattle.ba_facts.specs.Matches.{round_of};
ghost use Rattle.ba_kernel.specs.Effects.{IsEntryRound, IsSide};
ghost use Rattle.ba_kernel.specs.Tidy.{MentionsLiteral, IsLiteral, IsLiteralOfSome};

use crate::problem::Problem;
use ba_facts::Branch;
use ba_model::{Atom, Operand, Part, Same, Value};
use std::alloc::AllocError;

/// One more than the greatest round of the facts, in 32 bits. No memory is taken for it: exactly a
/// round past 32 bits is told as want of memory.
pub fn next_round(branch: &Branch, facts: &[u32]) -> Result<u32, AllocError>
    ensures value { IfOk result (λ round. round ≡ 1 + round_of branch.now facts.now) }
    ensures past { IfErr result (λ _. 2 ^ 32 ≤ 1 + round_of branch.now facts.now) }
{
    round_after(greatest_round(branch, facts))
}

/// The round after this one, in 32 bits.
pub fn round_after(round: u32) -> Result<u32, AllocError>
    ensures value { IfOk result (λ next. next ≡ 1 + round) }
    ensures past { IfErr result (λ _. 2 ^ 32 ≤ 1 + round) }
{
    match round.checked_add(1) {
        Some(next) => Ok(next),
        None => Err(AllocError),
    }
}

/// The greatest round of the facts, or 0.
pub fn greatest_round(branch: &Branch, facts: &[u32]) -> u32
    ensures { result ≡ round_of branch.now facts.now }
{
    let mut greatest = 0;
    for number in facts {
        greatest = greater(greatest, fact_round(branch, *number));
    }
    greatest
}

fn greater(a: u32, b: u32) -> u32
    ensures { result ≡ max a b }
{
    if a < b { b } else { a }
}

fn fact_round(branch: &Branch, number: u32) -> u32
    ensures { result
        ≡ unwrap_or (option_map (λ fact. fact.round) (slice_get branch.now.facts number)) 0 }
{
    match branch.facts.find(number as usize) {
        Some(fact) => fact.round,
        None => 0,
    }
}

/// 1 where the entry's row has a literal of the goal, else 2.
pub fn entry_round(problem: &Problem, row: &[Operand]) -> u32
    ensures { IsEntryRound problem.now row.now result }
{
    if shares_literal(problem, row) { 1 } else { 2 }
}

fn shares_literal(problem: &Problem, row: &[Operand]) -> bool
    ensures { IsTrue result ↔ Any (IsLiteralOfSome problem.now.goal) row.now }
{
    row.iter()
        .any(|operand| is_literal_of_some(problem, operand))
}

fn is_literal_of_some(problem: &Problem, operand: &Operand) -> bool
    ensures { IsTrue result ↔ IsLiteralOfSome problem.now.goal operand.now }
{
    match operand {
        Operand::Val(value) => is_literal_of(problem.goal_parts(), value),
        _ => false,
    }
}

fn is_literal_of(parts: &[Part], value: &Value) -> bool
    ensures { IsTrue result ↔ Any (MentionsLiteral value.now) parts.now }
{
    parts.iter().any(|part| has_literal(part, value))
}

fn has_literal(part: &Part, value: &Value) -> bool
    ensures { IsTrue result ↔ MentionsLiteral value.now part.now }
{
    some_side(part.conds.as_slice(), value) || some_literal(part.head.as_slice(), value)
}

fn some_side(conds: &[Atom], value: &Value) -> bool
    ensures { IsTrue result ↔ Any (IsSide value.now) conds.now }
{
    conds.iter().any(|atom| is_side(atom, value))
}

fn some_literal(head: &[Operand], value: &Value) -> bool
    ensures { IsTrue result ↔ Any (IsLiteral value.now) head.now }
{
    head.iter().any(|operand| is_literal(operand, value))
}

fn is_side(atom: &Atom, value: &Value) -> bool
    ensures { IsTrue result ↔ IsSide value.now atom.now }
{
    is_literal(&atom.left, value) || is_literal(&atom.right, value)
}

fn is_literal(operand: &Operand, value: &Value) -> bool
    ensures { IsTrue result ↔ IsLiteral value.now operand.now }
{
    match operand {
        Operand::Val(own) => own.same(value),
        _ => false,
    }
}
