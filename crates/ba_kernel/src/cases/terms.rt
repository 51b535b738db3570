//! The terms that operands of a part stand for.
ghost use Rattle.std.specs.Prelude.{◌≡◌, All, IfOk, map};
ghost use Rattle.ba_kernel.specs.Effects.{rows_at};
ghost use Rattle.ba_facts.specs.Known.{seen};
ghost use Rattle.ba_facts.specs.Matches.{row_of, term_of};
ghost use Rattle.ba_kernel.specs.Tidy.{HasTerm};

use ba_facts::{Branch, Term, TermRef};
use ba_model::{Duplicate, Operand};
use std::alloc::{AllocError, Global};

/// A copy of the term.
#[inline(always)]
fn copy_seen(alloc: Global, term: TermRef<'_>) -> Result<Term, AllocError>
    ensures { IfOk result (λ it. it ≡ seen term.entry) }
{
    match term {
        TermRef::Unknown(n) => Ok(Term::Unknown(n)),
        TermRef::Val(value) => Ok(Term::Val(value.copy(alloc)?)),
        TermRef::Param(n) => Ok(Term::Param(n)),
        TermRef::Var(n) => Ok(Term::Var(n)),
    }
}

/// The term that the operand, which has one, stands for under these facts.
#[inline(always)]
pub fn operand_term(
    alloc: Global,
    branch: &Branch,
    facts: &[u32],
    operand: &Operand,
) -> Result<Term, AllocError>
    requires { HasTerm (rows_at branch.now facts.now) operand.now }
    ensures { IfOk result (λ it. term_of (rows_at branch.now facts.now) operand.now ≡ Some it) }
{
    match branch.term_of(facts, operand) {
        Some(term) => copy_seen(alloc, term),
        None => unreachable!(),
    }
}

/// The terms of the operands.
pub fn operand_row(
    alloc: Global,
    branch: &Branch,
    facts: &[u32],
    operands: &[Operand],
) -> Result<Vec<Term>, AllocError>
    requires { All (HasTerm (rows_at branch.now facts.now)) operands.now }
    ensures { IfOk result (λ row. row_of branch.now facts.now operands.now ≡ map Some row.items) }
{
    let mut row = Vec::new(alloc);
    for operand in operands {
        row.push(operand_term(alloc, branch, facts, operand)?)?;
    }
    Ok(row)
}
