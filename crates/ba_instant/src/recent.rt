//! Recent facts.
ghost use Rattle.std.specs.Prelude.{◌≡◌, IfOk};
ghost use Rattle.ba_instant.specs.Agendas.{AreOlder};
ghost use Rattle.ba_instant.specs.Scans.{AreRecent};
ghost use Rattle.ba_instant.specs.Offers.{fact_round};

use ba_facts::{Branch, number_of};
use std::alloc::{AllocError, Global};

/// The first number of a fact whose round is at least the bound, or that past the last fact. Those
/// of a lesser number than `older` aren't looked at.
pub fn first_recent(branch: &Branch, older: u32, bound: u32) -> Result<u32, AllocError>
    requires { AreOlder branch.now older bound }
    ensures { IfOk result (λ it. AreOlder branch.now it bound) }
{
    let count = number_of(branch.facts.len())?;
    for number in older..count {
        if fact_round(branch, number) >= bound {
            return Ok(number);
        }
    }
    Ok(count)
}

/// The facts whose round is at least the bound, by number. Those of a lesser number than `older`
/// aren't looked at.
pub fn recent_facts(
    alloc: Global,
    branch: &Branch,
    older: u32,
    bound: u32,
) -> Result<Vec<u32>, AllocError>
    requires { AreOlder branch.now older bound }
    ensures { IfOk result (λ it. AreRecent branch.now bound it.items) }
{
    let count = number_of(branch.facts.len())?;
    let mut recent = Vec::new(alloc);
    for number in older..count {
        if fact_round(branch, number) >= bound {
            recent.push(number)?;
        }
    }
    Ok(recent)
}

/// The fact's round, or 0 where it isn't there.
pub fn fact_round(branch: &Branch, fact: u32) -> u32
    ensures { result ≡ fact_round branch.now fact }
{
    match branch.facts.find(fact as usize) {
        Some(it) => it.round,
        None => 0,
    }
}
