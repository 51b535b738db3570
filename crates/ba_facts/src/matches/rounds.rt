//! The least round of the facts of a part under which an atom is one of the part's, found by a
//! walk.
ghost use Rattle.std.specs.Prelude.{◌≡◌, ◌↔◌, ◌⊎◌, [], Any, IsTrue, Some, map, option_copied};
ghost use Rattle.ba_facts.specs.Known.{seen};
ghost use Rattle.ba_facts.specs.Matches.{GivesAtom, round_of, terms_at};
ghost use Rattle.ba_facts.specs.Walks.{HasAtom, HasEither, IsLate, IsPastHope, IsRepeated, MayGive, MayStandFor, lesser, rows_in, term_in};

use crate::branch::Branch;
use crate::term::{Term, TermAtom, TermRef};
use crate::walk::{Offered, Visit, Walk};
use ba_model::{Atom, List, Operand, Same};
use std::convert::Infallible;

/// An atom, and a row that the head has to be the same as, if there is one.
#[derive(Clone, Copy)]
pub struct GivenAtom<'a> {
    pub row: Option<&'a List<Term>>,
    pub atom: &'a TermAtom,
}

impl Visit for GivenAtom<'_> {
    ghost use Rattle.std.specs.Prelude.{◌≡◌, [], option_copied};
    ghost use Rattle.ba_facts.specs.Walks.{HasAtomBy, Lowers, every};

    type State = Option<u32>;

    type Tried = ();

    type Stop = Infallible;

    ghost ready = { λ own walk. Unit {0} };

    ghost offers = { λ own walk from chosen numbers. numbers ≡ every walk.branch.now };

    ghost numbers = { λ tried. [] };

    ghost visited = { λ own walk from chosen numbers old new.
        Lowers walk.branch.now
        (HasAtomBy walk.branch.now walk.side walk.part.now walk.wanted
        (option_copied own.row) own.atom.now from chosen numbers)
        old new };

    ghost stopped = { λ own walk from chosen stop. ⊥ };

    fn offered<'a>(&'a self, walk: &'a Walk<'a>, _from: &[u32], _chosen: &[usize]) -> Offered<'a> {
        Offered::Every(walk.branch.facts.len())
    }

    fn none_tried(&self) {}

    /// Of facts that are alike the earliest is taken, and those that the atom has a term of. At the
    /// last place a try costs less than a look at the earlier ones.
    fn takes(
        &self,
        walk: &Walk<'_>,
        from: &[u32],
        chosen: &[usize],
        number: usize,
        _tried: &mut (),
        least: &Option<u32>,
    ) -> Result<bool, Infallible> {
        Ok(!self.is_needless(walk, from, chosen, number, *least))
    }

    fn end(
        &self,
        walk: &Walk<'_>,
        chosen: &[usize],
        least: &mut Option<u32>,
    ) -> Result<(), Infallible> {
        if walk.is_met(chosen) && self.is_had(walk, chosen) {
            *least = lesser(*least, walk.branch.round_of(chosen));
        }
        Ok(())
    }
}

impl GivenAtom<'_> {
    /// Whether the last fact chosen, of this number, needn't be tried: it is of no round before the
    /// least so far, the row and the atom can't come any more, or an earlier fact does as well.
    fn is_needless(
        &self,
        walk: &Walk<'_>,
        from: &[u32],
        chosen: &[usize],
        number: usize,
        least: Option<u32>,
    ) -> bool
        ensures { IsTrue result → IsLate walk.now.branch.now least number
            ⊎ (IsPastHope walk.now (option_copied self.now.row) self.now.atom.now chosen.now
            ⊎ IsRepeated walk.now.branch.now self.now.atom.now number) }
    {
        walk.branch.is_late(least, number)
            || walk.is_hopeless(chosen)
            || (from.len() > 1 && (!self.may_come(walk, chosen) || self.is_repeated(walk, number)))
    }

    /// Whether the row and the atom may still come.
    fn may_come(&self, walk: &Walk<'_>, chosen: &[usize]) -> bool
        ensures { (IsTrue result → ⊥) → IsPastHope walk.now
            (option_copied self.now.row) self.now.atom.now chosen.now }
    {
        !walk.has_other(chosen, self.row)
            && walk.may_give(walk.part.conds.as_slice(), chosen, self.atom)
    }

    /// Whether no facts that complete the chosen ones have the row and the atom.
    pub fn is_lost(&self, walk: &Walk<'_>, chosen: &[usize]) -> bool
        ensures { IsTrue result → IsPastHope walk.now
            (option_copied self.now.row) self.now.atom.now chosen.now }
    {
        walk.is_hopeless(chosen) || !self.may_come(walk, chosen)
    }

    /// Whether an earlier fact does as well as that of the number, which has neither term of the
    /// atom.
    fn is_repeated(&self, walk: &Walk<'_>, number: usize) -> bool
        ensures { IsTrue result → IsRepeated walk.now.branch.now self.now.atom.now number }
    {
        !walk.branch.has_either(number, self.atom) && walk.branch.has_earlier(number)
    }

    /// Whether the head over the chosen facts is the same as the row, if one is given, and the atom
    /// is one of the part's.
    fn is_had(&self, walk: &Walk<'_>, chosen: &[usize]) -> bool
        ensures { IsTrue result ↔ HasAtom walk.now.branch.now walk.now.part.now
            (option_copied self.now.row) self.now.atom.now chosen.now }
    {
        walk.has_row(chosen, self.row)
            && walk.gives_atom(walk.part.conds.as_slice(), chosen, self.atom)
    }
}

impl<'a> Walk<'a> {
    /// Whether the atom is one of these over the chosen facts.
    fn gives_atom(&self, conds: &'a [Atom], chosen: &[usize], atom: &TermAtom) -> bool
        ensures { IsTrue result ↔ Any (GivesAtom (rows_in self.now chosen.now) atom.now) conds.now }
    {
        conds.iter().any(|cond| self.is_atom(cond, chosen, atom))
    }

    /// Whether the atom is this one over the chosen facts.
    fn is_atom(&self, cond: &'a Atom, chosen: &[usize], atom: &TermAtom) -> bool
        ensures { IsTrue result ↔ GivesAtom (rows_in self.now chosen.now) atom.now cond.now }
    {
        cond.op.same(&atom.op)
            && self.stands_for(&cond.left, chosen, &atom.left)
            && self.stands_for(&cond.right, chosen, &atom.right)
    }

    /// Whether one of these gives the atom, or may with further facts.
    fn may_give(&self, conds: &'a [Atom], chosen: &[usize], atom: &TermAtom) -> bool
        ensures { IsTrue result ↔ Any (MayGive (rows_in self.now chosen.now) atom.now) conds.now }
    {
        conds
            .iter()
            .any(|cond| self.may_be_atom(cond, chosen, atom))
    }

    fn may_be_atom(&self, cond: &'a Atom, chosen: &[usize], atom: &TermAtom) -> bool
        ensures { IsTrue result ↔ MayGive (rows_in self.now chosen.now) atom.now cond.now }
    {
        cond.op.same(&atom.op)
            && self.may_stand_for(&cond.left, chosen, &atom.left)
            && self.may_stand_for(&cond.right, chosen, &atom.right)
    }

    /// Whether the operand stands for this very term, or for none yet.
    fn may_stand_for(&self, own: &'a Operand, chosen: &[usize], term: &Term) -> bool
        ensures { IsTrue result ↔ MayStandFor (rows_in self.now chosen.now) own.now term.now }
    {
        match self.term_of(chosen, own) {
            Some(own) => is_term(own, term),
            None => true,
        }
    }

    /// Whether the operand stands for this very term.
    fn stands_for(&self, own: &'a Operand, chosen: &[usize], term: &Term) -> bool
        ensures { IsTrue result ↔ (term_in self.now chosen.now own.now ≡ Some term.now) }
    {
        match self.term_of(chosen, own) {
            Some(own) => is_term(own, term),
            None => false,
        }
    }
}

/// Whether the two are one term.
fn is_term(own: TermRef<'_>, term: &Term) -> bool
    ensures { IsTrue result ↔ (seen own.entry ≡ term.now) }
{
    match (own, term) {
        (TermRef::Unknown(n), Term::Unknown(m)) => n == *m,
        (TermRef::Val(v), Term::Val(w)) => v.same(w),
        (TermRef::Param(n), Term::Param(m)) => n == *m,
        (TermRef::Var(n), Term::Var(m)) => n == *m,
        _ => false,
    }
}

impl Branch {
    /// The greatest round of the facts of these numbers.
    pub fn round_of(&self, numbers: &[usize]) -> u32
        ensures { result ≡ round_of self.now numbers.now }
    {
        let mut round = 0;
        for number in numbers {
            round = round.max(self.round_at(*number));
        }
        round
    }

    /// Whether no mapping with the fact is of a round before the least so far.
    fn is_late(&self, least: Option<u32>, number: usize) -> bool
        ensures { IsTrue result ↔ IsLate self.now least number }
    {
        match least {
            Some(round) => round <= self.round_at(number),
            None => false,
        }
    }

    /// Whether one of the fact's terms is the atom's left or right.
    fn has_either(&self, number: usize, atom: &TermAtom) -> bool
        ensures { IsTrue result ↔ HasEither self.now atom.now number }
    {
        self.has_term(number, &atom.left) || self.has_term(number, &atom.right)
    }

    /// Whether the term is one of the fact's.
    fn has_term(&self, number: usize, term: &Term) -> bool
        ensures { IsTrue result ↔ Any (λ own. own ≡ term.now) (terms_at self.now number) }
    {
        match self.facts.find(number) {
            Some(fact) => is_one_of(fact.terms.as_slice(), term),
            None => false,
        }
    }
}

/// Whether the term is one of these.
fn is_one_of(terms: &[Term], term: &Term) -> bool
    ensures { IsTrue result ↔ Any (λ own. own ≡ term.now) terms.now }
{
    terms.iter().any(|own| is_term(own.by_ref(), term))
}

/// The lesser of the round and of the least one, if there is one.
fn lesser(least: Option<u32>, round: u32) -> Option<u32>
    ensures { result ≡ lesser least round }
{
    match least {
        Some(least) => Some(least.min(round)),
        None => Some(round),
    }
}
