//! The mappings of a part's tables to facts, gathered by a walk.
ghost use Rattle.std.specs.Prelude.{◌≡◌, [], IfOk, OnOk};
ghost use Rattle.ba_facts.specs.Matches.{IsUndecided};
ghost use Rattle.ba_facts.specs.Walks.{Gathers, every, rows_in};

use crate::number::number_of;
use crate::term::Mapping;
use crate::walk::{Offered, Visit, Walk};
use ba_model::List;
use std::alloc::{AllocError, Global};

/// Gathers the mappings under which each atom is what is wanted.
#[derive(Clone, Copy)]
pub struct Gather {
    pub alloc: Global,
}

impl Visit for Gather {
    ghost use Rattle.std.specs.Prelude.{◌≡◌, []};
    ghost use Rattle.ba_facts.specs.Walks.{Gathers, every};

    type State = Vec<Mapping>;

    type Tried = ();

    type Stop = AllocError;

    ghost ready = { λ own walk. Unit {0} };

    ghost offers = { λ own walk from chosen numbers. numbers ≡ every walk.branch.now };

    ghost numbers = { λ tried. [] };

    ghost visited = { λ own walk from chosen numbers old new.
        Gathers walk.branch.now walk.side walk.part.now walk.wanted from chosen numbers old.items
        new.items };

    ghost stopped = { λ own walk from chosen stop. Unit {0} };

    fn offered<'a>(&'a self, walk: &'a Walk<'a>, _from: &[u32], _chosen: &[usize]) -> Offered<'a> {
        Offered::Every(walk.branch.facts.len())
    }

    fn none_tried(&self) {}

    fn takes(
        &self,
        walk: &Walk<'_>,
        _from: &[u32],
        chosen: &[usize],
        _number: usize,
        _tried: &mut (),
        _state: &Vec<Mapping>,
    ) -> Result<bool, AllocError> {
        Ok(!walk.is_hopeless(chosen))
    }

    fn end(
        &self,
        walk: &Walk<'_>,
        chosen: &[usize],
        found: &mut Vec<Mapping>,
    ) -> Result<(), AllocError> {
        if walk.is_met(chosen) {
            found.push(walk.mapping(self.alloc, chosen)?)?;
        }
        Ok(())
    }
}

impl Walk<'_> {
    /// The mapping to the chosen facts.
    fn mapping(&self, alloc: Global, chosen: &[usize]) -> Result<Mapping, AllocError>
        ensures { IfOk result (λ it. (it.facts ≡ chosen.now) ×
            IsUndecided self.now.branch.now.known (rows_in self.now it.facts)
            self.now.part.now.conds it.undecided) }
    {
        let facts = numbers_of(alloc, chosen)?;
        let undecided = self.undecided(facts.as_slice())?;
        Ok(Mapping { facts, undecided })
    }

    /// The part's first atom that isn't shown of the facts' terms, by its number.
    fn undecided(&self, facts: &[u32]) -> Result<Option<u32>, AllocError>
        ensures { IfOk result (IsUndecided self.now.branch.now.known
            (rows_in self.now facts.now) self.now.part.now.conds) }
    {
        match self.branch.undecided(self.part, facts) {
            None => Ok(None),
            Some(number) => Ok(Some(number_of(number)?)),
        }
    }
}

/// The same numbers, in 32 bits each.
pub fn numbers_of(alloc: Global, chosen: &[usize]) -> Result<List<u32>, AllocError>
    ensures { IfOk result (λ numbers. numbers ≡ chosen.now) }
{
    let mut numbers = Vec::new(alloc);
    for number in chosen {
        numbers.push(number_of(*number)?)?;
    }
    Ok(List::from_vec(numbers))
}
