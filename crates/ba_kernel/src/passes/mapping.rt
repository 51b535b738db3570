//! Whether facts are a part's.
ghost use Rattle.std.specs.Prelude.{◌↔◌, IsTrue, MatchOption};
ghost use Rattle.ba_kernel.specs.Effects.{rows_at};
ghost use Rattle.ba_kernel.specs.Steps.{FactsPass, FactsRefuse, FirstWithout, SomeSide};
ghost use Rattle.ba_kernel.specs.SearchStates.{Tested};
ghost use Rattle.ba_facts.specs.Matches.{IsFactOf, IsMapping, IsShown};

use crate::step::StepFault;
use ba_facts::{Branch, Side};
use ba_model::Part;

/// Whether the facts are the part's on the side and show each of its atoms.
pub fn test_facts(branch: &Branch, side: Side, part: &Part, facts: &[u32]) -> Result<(), StepFault>
    ensures { Tested (FactsPass branch.now side part.now facts.now)
        (FactsRefuse branch.now side part.now facts.now) result }
{
    if !is_mapping(branch, side, part.from.as_slice(), facts) {
        return Err(StepFault::BadFact);
    }
    match first_hidden(branch, part, facts) {
        None => Ok(()),
        Some(n) => Err(StepFault::CondNotShown(n as u64)),
    }
}

/// The first atom of the part that isn't shown of the facts' terms, by its number.
pub fn first_hidden(branch: &Branch, part: &Part, facts: &[u32]) -> Option<usize>
    ensures { FirstWithout (IsShown branch.now.known (rows_at branch.now facts.now))
        part.now.conds result }
{
    branch.undecided(part, facts)
}

/// The side on which the facts are the part's. Both are for a part without tables: then it is One.
pub fn side_of(branch: &Branch, part: &Part, facts: &[u32]) -> Option<Side>
    ensures { MatchOption result (¬ (SomeSide branch.now part.now facts.now))
        (λ side. IsMapping branch.now side part.now.from facts.now) }
{
    if is_mapping(branch, Side::One, part.from.as_slice(), facts) {
        Some(Side::One)
    } else if is_mapping(branch, Side::Two, part.from.as_slice(), facts) {
        Some(Side::Two)
    } else {
        None
    }
}

/// Whether each of the tables has a fact on the side, in turn.
fn is_mapping(branch: &Branch, side: Side, from: &[u32], facts: &[u32]) -> bool
    ensures { IsTrue result ↔ IsMapping branch.now side from.now facts.now }
{
    if from.len() != facts.len() {
        return false;
    }
    for i in 0..from.len() {
        if !is_fact(branch, side, from[i], facts[i]) {
            return false;
        }
    }
    true
}

/// Whether the number is that of a fact of the table on the side.
fn is_fact(branch: &Branch, side: Side, table: u32, number: u32) -> bool
    ensures { IsTrue result ↔ IsFactOf branch.now side table number }
{
    match branch.facts.find(number as usize) {
        Some(fact) => fact.side == side && fact.table == table,
        None => false,
    }
}
