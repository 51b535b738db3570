ghost use Rattle.std.specs.Prelude.{◌≡◌, ◌≤◌, ◌↔◌, IfOk, IsTrue, length, map, option_copied, option_map, slice_get};
ghost use Rattle.ba_model.specs.Limits.{most_part_tables};
ghost use Rattle.ba_facts.specs.Known.{seen};
ghost use Rattle.ba_facts.specs.Matches.{AreMatches, IsAnswered, IsLiveAtom, IsLiveOf, IsShown, IsUndecided, LeastRound, row_of, term_of, terms_at};

mod answered;
mod gather;
mod repeats;
mod rounds;

use crate::branch::Branch;
use crate::matches::answered::{Answered, GivenRow};
use crate::matches::gather::Gather;
use crate::matches::rounds::GivenAtom;
use crate::term::{Mapping, Side, Term, TermAtom, TermRef};
use crate::walk::{Walk, Wanted};
use ba_model::{Atom, List, MAX_PART_TABLES, Op, Operand, Part};
pub use gather::numbers_of;
use std::alloc::{AllocError, Global};

impl Branch {
    /// The mappings of the part's tables to facts of a side that are live: each `=` of the part is
    /// shown of the facts' terms, and no other atom is refuted. Each has its first atom that isn't
    /// shown. They rise by the facts' numbers from left to right. A fact or an atom in a mapping
    /// whose number isn't below 2^32 is told as want of memory ([`crate::number_of`]).
    pub fn matches(
        &self,
        alloc: Global,
        part: &Part,
        side: Side,
    ) -> Result<List<Mapping>, AllocError>
        ensures { IfOk result (AreMatches self.now side part.now) }
    {
        let walk = Walk {
            branch: self,
            side,
            part,
            wanted: Wanted::Live,
        };
        let mut found = Vec::new(alloc);
        if walk.is_hopeless(&[]) {
            return Ok(List::from_vec(found));
        }
        let mut chosen = vec![in alloc; 0; part.from.len()]?;
        walk.visit(&Gather { alloc }, &mut chosen, &mut found)?;
        Ok(List::from_vec(found))
    }

    /// What an operand of a part stands for, where these facts are the part's; `None` where the
    /// place or the column isn't there.
    pub fn term_of<'a>(&'a self, facts: &[u32], operand: &'a Operand) -> Option<TermRef<'a>>
        ensures { option_map seen result ≡ term_of (map (terms_at self.now) facts.now) operand.now }
    {
        match operand {
            Operand::Col(place, column) => match facts.get(*place as usize) {
                Some(number) => self.term_at(*number as usize, *column),
                None => None,
            },
            Operand::Val(value) => Some(TermRef::Val(value)),
            Operand::Param(n) => Some(TermRef::Param(*n)),
            Operand::Var(n) => Some(TermRef::Var(*n)),
        }
    }

    /// The term in a column of the fact of a number, if it is there.
    pub(crate) fn term_at(&self, number: usize, column: u32) -> Option<TermRef<'_>>
        ensures { option_map seen result ≡ slice_get (terms_at self.now number) column }
    {
        match self.facts.find(number) {
            Some(fact) => match fact.terms.find(column as usize) {
                Some(term) => Some(term.by_ref()),
                None => None,
            },
            None => None,
        }
    }

    /// The part's first atom that isn't shown of the facts' terms, by its number.
    pub fn undecided(&self, part: &Part, facts: &[u32]) -> Option<usize>
        ensures { IsUndecided self.now.known (map (terms_at self.now) facts.now) part.now.conds
            result }
    {
        self.first_hidden(part.conds.as_slice(), facts)
    }

    /// The first atom that isn't shown of the facts' terms, by its number.
    fn first_hidden(&self, conds: &[Atom], facts: &[u32]) -> Option<usize>
        ensures { IsUndecided self.now.known (map (terms_at self.now) facts.now) conds.now result }
    {
        for (number, atom) in conds.iter().enumerate() {
            if !self.shows_of(facts, atom) {
                return Some(number);
            }
        }
        None
    }

    /// Whether the atom is shown of the facts' terms.
    fn shows_of(&self, facts: &[u32], atom: &Atom) -> bool
        ensures { IsTrue result ↔ IsShown self.now.known
            (map (terms_at self.now) facts.now) atom.now }
    {
        match (
            self.term_of(facts, &atom.left),
            self.term_of(facts, &atom.right),
        ) {
            (Some(left), Some(right)) => self.known.shows(atom.op, left, right),
            _ => false,
        }
    }

    /// Whether an `=` is shown of the two terms, or another comparison isn't refuted: the condition
    /// of a live mapping for each atom.
    pub fn is_live(&self, op: Op, left: TermRef<'_>, right: TermRef<'_>) -> bool
        ensures { IsTrue result ↔ IsLiveOf self.now.known op (seen left.entry) (seen right.entry) }
    {
        match op {
            Op::Eq => self.known.shows(op, left, right),
            Op::Ne => !self.known.refutes(op, left, right),
            Op::Lt => !self.known.refutes(op, left, right),
            Op::Le => !self.known.refutes(op, left, right),
            Op::IsNull => !self.known.refutes(op, left, right),
            Op::NotNull => !self.known.refutes(op, left, right),
        }
    }

    /// Whether some facts of the side show all atoms of the part and give a head that is the same
    /// as a row, which is given as operands over other facts.
    pub fn is_answered(&self, part: &Part, side: Side, operands: &[Operand], facts: &[u32]) -> bool
        requires { length part.now.from ≤ most_part_tables }
        ensures { IsTrue result ↔ IsAnswered self.now side part.now
            (row_of self.now facts.now operands.now) }
    {
        let walk = Walk {
            branch: self,
            side,
            part,
            wanted: Wanted::Shown,
        };
        let row = GivenRow { operands, facts };
        if row.is_lost(&walk, &[]) {
            return false;
        }
        let mut chosen = [0; MAX_PART_TABLES];
        match walk.visit(&row, &mut chosen[..part.from.len()], &mut ()) {
            Ok(()) => false,
            Err(Answered) => true,
        }
    }

    /// The least round of the live mappings of the part to facts of the side of which the atom is
    /// one of the atoms, where a mapping's round is the greatest of its facts' rounds. Where a row
    /// is given, the part's head must be the same as it. `None` where there is no such mapping.
    pub fn least_round(
        &self,
        part: &Part,
        side: Side,
        row: Option<&List<Term>>,
        atom: &TermAtom,
    ) -> Option<u32>
        requires { length part.now.from ≤ most_part_tables }
        ensures { LeastRound self.now (IsLiveAtom self.now side part.now
            (option_copied row.entry) atom.now) result }
    {
        let walk = Walk {
            branch: self,
            side,
            part,
            wanted: Wanted::Live,
        };
        let given = GivenAtom { row, atom };
        if given.is_lost(&walk, &[]) {
            return None;
        }
        let mut least = None;
        let mut chosen = [0; MAX_PART_TABLES];
        match walk.visit(&given, &mut chosen[..part.from.len()], &mut least) {
            Ok(()) => least,
            Err(never) => match never {},
        }
    }
}
