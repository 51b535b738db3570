//! Whether some facts give a row, found by a walk.
ghost use Rattle.std.specs.Prelude.{◌≡◌, ◌↔◌, ◌⊎◌, [], IsTrue, map};
ghost use Rattle.std.specs.List.{AllZip};
ghost use Rattle.ba_facts.specs.Matches.{AreTheSame, row_of, term_of, terms_at};
ghost use Rattle.ba_facts.specs.Walks.{CantGive, HasEarlier, IsAnsweredFrom, IsNoFront, IsOther, row_in, term_in};

use crate::walk::{Offered, Visit, Walk, places_of};
use ba_model::Operand;

/// A row, as operands over facts.
#[derive(Clone, Copy)]
pub struct GivenRow<'a> {
    pub operands: &'a [Operand],
    pub facts: &'a [u32],
}

/// Some facts give the row.
#[derive(Drop)]
pub struct Answered;

impl Visit for GivenRow<'_> {
    ghost use Rattle.std.specs.Prelude.{◌≡◌, []};
    ghost use Rattle.ba_facts.specs.Walks.{IsAnsweredFrom, NoneAnswers, every, row_in};

    type State = ();

    type Tried = ();

    type Stop = Answered;

    ghost ready = { λ own walk. Unit {0} };

    ghost offers = { λ own walk from chosen numbers. numbers ≡ every walk.branch.now };

    ghost numbers = { λ tried. [] };

    ghost visited = { λ own walk from chosen numbers old new.
        NoneAnswers walk.branch.now walk.side walk.part.now walk.wanted
        (row_in walk own) from chosen numbers };

    ghost stopped = { λ own walk from chosen stop.
        IsAnsweredFrom walk.branch.now walk.side walk.part.now walk.wanted
        (row_in walk own) from chosen };

    fn offered<'a>(&'a self, walk: &'a Walk<'a>, _from: &[u32], _chosen: &[usize]) -> Offered<'a> {
        Offered::Every(walk.branch.facts.len())
    }

    fn none_tried(&self) {}

    /// Of facts that are alike the earliest is taken. At the last place a try costs less than a
    /// look at the earlier ones.
    fn takes(
        &self,
        walk: &Walk<'_>,
        from: &[u32],
        chosen: &[usize],
        number: usize,
        _tried: &mut (),
        _state: &(),
    ) -> Result<bool, Answered> {
        Ok(!self.is_needless(walk, from, chosen, number))
    }

    fn end(&self, walk: &Walk<'_>, chosen: &[usize], _state: &mut ()) -> Result<(), Answered> {
        if self.is_given(walk, chosen) {
            return Err(Answered);
        }
        Ok(())
    }
}

impl GivenRow<'_> {
    /// Whether the last fact chosen, of this number, needn't be tried.
    fn is_needless(&self, walk: &Walk<'_>, from: &[u32], chosen: &[usize], number: usize) -> bool
        ensures { IsTrue result → CantGive walk.now (row_in walk.now self.now) chosen.now
            ⊎ HasEarlier walk.now.branch.now number }
    {
        self.is_lost(walk, chosen) || (from.len() > 1 && walk.branch.has_earlier(number))
    }

    /// Whether no facts that complete the chosen ones give the row.
    pub fn is_lost(&self, walk: &Walk<'_>, chosen: &[usize]) -> bool
        ensures { IsTrue result → CantGive walk.now (row_in walk.now self.now) chosen.now }
    {
        self.is_no_front(walk, walk.part.head.as_slice(), chosen) || walk.is_hopeless(chosen)
    }

    /// Whether the chosen facts meet the atoms and give the row.
    fn is_given(&self, walk: &Walk<'_>, chosen: &[usize]) -> bool
        ensures { IsTrue result ↔ IsAnsweredFrom walk.now.branch.now walk.now.side walk.now.part.now
            walk.now.wanted
            (row_in walk.now self.now) [] chosen.now }
    {
        self.is_head(walk, walk.part.head.as_slice(), chosen) && walk.is_met(chosen)
    }

    /// Whether the head over the chosen facts is the same as the row.
    fn is_head<'a>(&self, walk: &Walk<'a>, head: &'a [Operand], chosen: &[usize]) -> bool
        ensures { IsTrue result ↔ AllZip (AreTheSame walk.now.branch.now.known)
            (row_of walk.now.branch.now chosen.now head.now) (row_in walk.now self.now) }
    {
        if head.len() != self.operands.len() {
            return false;
        }
        for i in 0..head.len() {
            if !self.is_same(walk, chosen, &head[i], &self.operands[i]) {
                return false;
            }
        }
        true
    }

    /// Whether the head has a term since the last fact was chosen that isn't the same as the row's.
    /// Each term is looked at once on the way down.
    fn is_no_front<'a>(&self, walk: &Walk<'a>, head: &'a [Operand], chosen: &[usize]) -> bool
        ensures { IsTrue result → IsNoFront walk.now.branch.now head.now (row_in walk.now self.now)
            chosen.now }
    {
        for i in 0..head.len().min(self.operands.len()) {
            if places_of(&head[i]) == chosen.len()
                && self.is_other(walk, chosen, &head[i], &self.operands[i])
            {
                return true;
            }
        }
        false
    }

    /// Whether the operand stands for a term that isn't the same as that of the row's.
    fn is_other<'a>(
        &self,
        walk: &Walk<'a>,
        chosen: &[usize],
        own: &'a Operand,
        other: &Operand,
    ) -> bool
        ensures { IsTrue result ↔ IsOther walk.now.branch.now.known
            (term_in walk.now chosen.now own.now)
            (term_of (map (terms_at walk.now.branch.now) self.now.facts.now) other.now) }
    {
        match walk.term_of(chosen, own) {
            Some(_) => !self.is_same(walk, chosen, own, other),
            None => false,
        }
    }

    /// Whether the operand and that of the row stand for terms that are the same.
    fn is_same<'a>(
        &self,
        walk: &Walk<'a>,
        chosen: &[usize],
        own: &'a Operand,
        other: &Operand,
    ) -> bool
        ensures { IsTrue result ↔ AreTheSame walk.now.branch.now.known
            (term_in walk.now chosen.now own.now)
            (term_of (map (terms_at walk.now.branch.now) self.now.facts.now) other.now) }
    {
        match (
            walk.term_of(chosen, own),
            walk.branch.term_of(self.facts, other),
        ) {
            (Some(left), Some(right)) => walk.branch.known.same(left, right),
            _ => false,
        }
    }
}
