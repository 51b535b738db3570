//! Facts that needn't be tried, since an earlier one does as well.
ghost use Rattle.std.specs.Prelude.{◌≡◌, ◌↔◌, IsTrue};
ghost use Rattle.ba_facts.specs.Walks.{DoesAsWell, HasEarlier, round_at};

use crate::branch::Branch;

impl Branch {
    /// Whether an earlier fact does as well as that of the number.
    pub(crate) fn has_earlier(&self, number: usize) -> bool
        ensures { IsTrue result ↔ HasEarlier self.now number }
    {
        for other in 0..number {
            if self.does_as_well(number, other) {
                return true;
            }
        }
        false
    }

    /// Whether the other fact does as well as that of the number: it is alike to it, and of no
    /// later a round.
    fn does_as_well(&self, number: usize, other: usize) -> bool
        ensures { IsTrue result ↔ DoesAsWell self.now number other }
    {
        self.round_at(other) <= self.round_at(number) && self.are_alike(number, other)
    }

    /// The round of the fact of the number, or 0.
    pub fn round_at(&self, number: usize) -> u32
        ensures { result ≡ round_at self.now number }
    {
        match self.facts.find(number) {
            Some(fact) => fact.round,
            None => 0,
        }
    }
}
