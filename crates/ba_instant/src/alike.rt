//! Facts that differ in nothing but which terms of the same classes they name.
ghost use Rattle.std.specs.Prelude.{◌↔◌, ◌≢◌, Any, IfOk, IsTrue};
ghost use Rattle.ba_facts.specs.Alike.{AreAlike};
ghost use Rattle.ba_instant.specs.Spreads.{AreLikes};

use ba_facts::{Branch, number_of};
use std::alloc::{AllocError, Global};

/// Whether the fact is alike to one of the others from a place on.
pub fn has_alike(branch: &Branch, others: &[usize], from: usize, fact: usize) -> bool
    ensures { IsTrue result → Any (λ other. AreAlike branch.now other fact) others.now }
{
    for i in from..others.len() {
        if branch.are_alike(others[i], fact) {
            return true;
        }
    }
    false
}

/// The fact itself and those that are alike to it.
pub fn likes_of(alloc: Global, branch: &Branch, fact: u32) -> Result<Vec<u32>, AllocError>
    ensures { IfOk result (λ it. AreLikes branch.now fact it.items) }
{
    let count = number_of(branch.facts.len())?;
    let mut likes = Vec::new(alloc);
    likes.push(fact)?;
    for other in 0..count {
        if is_another(branch, fact, other) {
            likes.push(other)?;
        }
    }
    Ok(likes)
}

/// Whether it is another fact that is alike to the first.
fn is_another(branch: &Branch, fact: u32, other: u32) -> bool
    ensures { IsTrue result ↔ ((fact ≢ other) × AreAlike branch.now fact other) }
{
    fact != other && branch.are_alike(fact as usize, other as usize)
}
