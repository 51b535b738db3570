//! Which pairs of equal values a proof is most likely to need.
ghost use Rattle.std.specs.Prelude.{◌≡◌, IfOk, length};

use ba_kernel::ProblemEntry;
use ba_model::{Atom, Operand, Part, Same};
use std::alloc::{AllocError, Global};

/// What a variable or a parameter stands in.
#[derive(Clone, Copy, Debug, PartialEq, Eq)]
enum Owner {
    Question,
    Entry(usize),
    Parameter(u32),
    None,
}

/// Of the atoms from the first pair of equal values on those that join the first operand with a
/// value, which no earlier pair has as its second, to the first with it of another owner.
pub fn guessed(
    alloc: Global,
    entries: &[ProblemEntry],
    atoms: &[Atom],
    first: usize,
) -> Result<Vec<bool>, AllocError>
    ensures { IfOk result (λ it. length it.items ≡ length atoms.now) }
{
    let starts = starts(alloc, entries)?;
    let mut kept = Vec::new(alloc);
    for n in 0..atoms.len() {
        let told = first <= n && is_guessed(&starts, &atoms[first..n], &atoms[n]);
        kept.push(told)?;
    }
    Ok(kept)
}

fn is_guessed(starts: &[u32], earlier: &[Atom], atom: &Atom) -> bool {
    let owner = owner_of(starts, &atom.right);
    if owner_of(starts, &atom.left) == owner {
        return false;
    }
    for other in earlier {
        if other.right.same(&atom.left) {
            return false;
        }
        if other.left.same(&atom.left) && owner_of(starts, &other.right) == owner {
            return false;
        }
    }
    true
}

fn owner_of(starts: &[u32], operand: &Operand) -> Owner {
    match operand {
        Operand::Var(n) => owner_of_variable(starts, *n),
        Operand::Param(n) => Owner::Parameter(*n),
        _ => Owner::None,
    }
}

/// The last entry that starts at the variable or before it. Variables are numbered as they are
/// printed, the question's first, then entry by entry.
fn owner_of_variable(starts: &[u32], variable: u32) -> Owner {
    let mut owner = Owner::Question;
    for n in 0..starts.len() {
        if starts[n] <= variable {
            owner = Owner::Entry(n);
        }
    }
    owner
}

/// The least variable of each entry.
fn starts(alloc: Global, entries: &[ProblemEntry]) -> Result<Vec<u32>, AllocError> {
    let mut all = Vec::new(alloc);
    for entry in entries {
        all.push(start(entry))?;
    }
    Ok(all)
}

fn start(entry: &ProblemEntry) -> u32 {
    let mut least = u32::MAX;
    for part in entry.query.parts.as_slice() {
        least = least_of_part(least, part);
    }
    least_of_all(least, entry.row.as_slice())
}

fn least_of_part(least: u32, part: &Part) -> u32 {
    let mut least = least_of_all(least, part.head.as_slice());
    for atom in part.conds.as_slice() {
        least = lesser(lesser(least, &atom.left), &atom.right);
    }
    least
}

fn least_of_all(least: u32, operands: &[Operand]) -> u32 {
    let mut least = least;
    for operand in operands {
        least = lesser(least, operand);
    }
    least
}

fn lesser(least: u32, operand: &Operand) -> u32 {
    match operand {
        Operand::Var(n) if *n < least => *n,
        _ => least,
    }
}
