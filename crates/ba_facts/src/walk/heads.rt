//! What the head of a part is over the facts that a walk has chosen, beside a row.
ghost use Rattle.std.specs.Prelude.{◌↔◌, ◌++◌, ℕ, List, IsTrue, Some, map, option_copied};
ghost use Rattle.std.specs.List.{AllZip};
ghost use Rattle.ba_facts.specs.Matches.{AreTheSame, HeadIs, row_of};
ghost use Rattle.ba_facts.specs.Walks.{IsLost, IsNoFront, IsOther, term_in};

use crate::term::Term;
use crate::walk::Walk;
use ba_model::{List, Operand};

impl<'a> Walk<'a> {
    /// Whether the head over the chosen facts is the same as the row, if one is given.
    pub fn has_row(&self, chosen: &[usize], row: Option<&List<Term>>) -> bool
        ensures { IsTrue result ↔ HeadIs self.now.branch.now self.now.part.now chosen.now
            (option_copied row.entry) }
    {
        match row {
            Some(row) => self.is_row(self.part.head.as_slice(), chosen, row.as_slice()),
            None => true,
        }
    }

    /// Whether the head over the chosen facts is the same as the row.
    fn is_row(&self, head: &'a [Operand], chosen: &[usize], row: &[Term]) -> bool
        ensures { IsTrue result ↔ AllZip (AreTheSame self.now.branch.now.known)
            (row_of self.now.branch.now chosen.now head.now) (map Some row.now) }
    {
        if head.len() != row.len() {
            return false;
        }
        for i in 0..head.len() {
            if !self.has_same(chosen, &head[i], &row[i]) {
                return false;
            }
        }
        true
    }

    /// Whether the head has a term already over the chosen facts that isn't the same as the row's,
    /// if one is given.
    pub fn has_other(&self, chosen: &[usize], row: Option<&List<Term>>) -> bool
        ensures { IsTrue result → (rest : List ℕ) →
            HeadIs self.now.branch.now self.now.part.now (chosen.now ++ rest)
            (option_copied row.entry) → ⊥ }
    {
        match row {
            Some(row) => self.is_no_front(self.part.head.as_slice(), chosen, row.as_slice()),
            None => false,
        }
    }

    /// Whether no facts that complete the chosen ones meet the atoms and give the row, if one is
    /// given.
    pub fn is_lost(&self, chosen: &[usize], row: Option<&List<Term>>) -> bool
        ensures { IsTrue result → IsLost self.now.branch.now self.now.part.now self.now.wanted
            (option_copied row.entry) chosen.now }
    {
        self.has_other(chosen, row) || self.is_hopeless(chosen)
    }

    fn is_no_front(&self, head: &'a [Operand], chosen: &[usize], row: &[Term]) -> bool
        ensures { IsTrue result → IsNoFront self.now.branch.now head.now
            (map Some row.now) chosen.now }
    {
        for i in 0..head.len().min(row.len()) {
            if self.is_not(chosen, &head[i], &row[i]) {
                return true;
            }
        }
        false
    }

    /// Whether the operand stands for a term that isn't the same as the other.
    fn is_not(&self, chosen: &[usize], own: &'a Operand, other: &Term) -> bool
        ensures { IsTrue result ↔ IsOther self.now.branch.now.known
            (term_in self.now chosen.now own.now) (Some other.now) }
    {
        match self.term_of(chosen, own) {
            Some(term) => !self.branch.known.same(term, other.by_ref()),
            None => false,
        }
    }

    /// Whether the operand stands for a term that is the same as the other.
    fn has_same(&self, chosen: &[usize], own: &'a Operand, other: &Term) -> bool
        ensures { IsTrue result ↔ AreTheSame self.now.branch.now.known
            (term_in self.now chosen.now own.now) (Some other.now) }
    {
        match self.term_of(chosen, own) {
            Some(term) => self.branch.known.same(term, other.by_ref()),
            None => false,
        }
    }
}
