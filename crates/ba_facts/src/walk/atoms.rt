//! What the atoms of a part are over the facts that a walk has chosen.
ghost use Rattle.std.specs.Prelude.{◌≡◌, ◌↔◌, ◌+◌, All, Any, IsTrue, max, option_map};
ghost use Rattle.ba_facts.specs.Known.{seen};
ghost use Rattle.ba_facts.specs.Matches.{IsFactOf};
ghost use Rattle.ba_facts.specs.Walks.{AreMet, Fails, IsDue, IsHopeless, IsMet, IsWantedIn, places_of, term_in};

use crate::term::TermRef;
use crate::walk::{Walk, Wanted};
use ba_model::{Atom, Op, Operand};

impl<'a> Walk<'a> {
    /// Whether the number is that of a fact of the table on the side.
    pub fn is_fact(&self, table: u32, number: usize) -> bool
        ensures { IsTrue result ↔ IsFactOf self.now.branch.now self.now.side table number }
    {
        match self.branch.facts.find(number) {
            Some(fact) => fact.side == self.side && fact.table == table,
            None => false,
        }
    }

    /// What the operand stands for, if the chosen facts have it.
    pub fn term_of(&self, chosen: &[usize], operand: &'a Operand) -> Option<TermRef<'a>>
        ensures { option_map seen result ≡ term_in self.now chosen.now operand.now }
    {
        match operand {
            Operand::Col(place, column) => match chosen.get(*place as usize) {
                Some(number) => self.branch.term_at(*number, *column),
                None => None,
            },
            Operand::Val(value) => Some(TermRef::Val(value)),
            Operand::Param(n) => Some(TermRef::Param(*n)),
            Operand::Var(n) => Some(TermRef::Var(*n)),
        }
    }

    /// Whether the comparison is what is wanted.
    fn is_wanted(&self, op: Op, left: TermRef<'_>, right: TermRef<'_>) -> bool
        ensures { IsTrue result ↔ IsWantedIn self.now op (seen left.entry) (seen right.entry) }
    {
        match self.wanted {
            Wanted::Live => self.branch.is_live(op, left, right),
            Wanted::Shown => self.branch.known.shows(op, left, right),
        }
    }

    /// Whether the atom is what is wanted of the chosen facts' terms.
    fn meets(&self, chosen: &[usize], atom: &'a Atom) -> bool
        ensures { IsTrue result ↔ IsMet self.now chosen.now atom.now }
    {
        match (
            self.term_of(chosen, &atom.left),
            self.term_of(chosen, &atom.right),
        ) {
            (Some(left), Some(right)) => self.is_wanted(atom.op, left, right),
            _ => false,
        }
    }

    /// Whether both terms are there since the last fact was chosen, and the atom isn't what is
    /// wanted.
    fn fails(&self, chosen: &[usize], atom: &'a Atom) -> bool
        ensures { IsTrue result ↔ Fails self.now chosen.now atom.now }
    {
        if !is_due(atom, chosen.len()) {
            return false;
        }
        match (
            self.term_of(chosen, &atom.left),
            self.term_of(chosen, &atom.right),
        ) {
            (Some(left), Some(right)) => !self.is_wanted(atom.op, left, right),
            _ => false,
        }
    }

    /// Whether each atom of the part is what is wanted.
    pub fn is_met(&self, chosen: &[usize]) -> bool
        ensures { IsTrue result ↔ AreMet self.now chosen.now }
    {
        self.all_meet(self.part.conds.as_slice(), chosen)
    }

    /// Whether the last fact chosen makes some atom of the part what isn't wanted. Each atom is
    /// looked at once on the way down, as soon as its terms are there.
    pub fn is_hopeless(&self, chosen: &[usize]) -> bool
        ensures { IsTrue result ↔ IsHopeless self.now chosen.now }
    {
        self.some_fails(self.part.conds.as_slice(), chosen)
    }

    fn all_meet(&self, atoms: &'a [Atom], chosen: &[usize]) -> bool
        ensures { IsTrue result ↔ All (IsMet self.now chosen.now) atoms.now }
    {
        atoms.iter().all(|atom| self.meets(chosen, atom))
    }

    fn some_fails(&self, atoms: &'a [Atom], chosen: &[usize]) -> bool
        ensures { IsTrue result ↔ Any (Fails self.now chosen.now) atoms.now }
    {
        atoms.iter().any(|atom| self.fails(chosen, atom))
    }
}

/// How many places have to be chosen until the operand has its term.
pub(crate) fn places_of(operand: &Operand) -> usize
    ensures { result ≡ places_of operand.now }
{
    match operand {
        Operand::Col(place, _) => *place as usize + 1,
        Operand::Val(_) => 0,
        Operand::Param(_) => 0,
        Operand::Var(_) => 0,
    }
}

/// Whether so many places of a part have to be chosen until both sides of the atom have their
/// terms.
fn is_due(atom: &Atom, places: usize) -> bool
    ensures { IsTrue result ↔ IsDue places atom.now }
{
    places_of(&atom.left).max(places_of(&atom.right)) == places
}
