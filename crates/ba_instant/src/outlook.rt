//! Whether a part can be mapped to facts at all. Of the places of the part that with the fewest
//! facts left comes first, and each fact that is chosen leaves to the other places only the facts
//! that agree with it.
ghost use Rattle.std.specs.Prelude.{◌≡◌, ◌↔◌, ◌<◌, ◌≤◌, IfOk, IsTrue, Some, length, option_map, slice_get};
ghost use Rattle.ba_facts.specs.Known.{seen};
ghost use Rattle.ba_facts.specs.Matches.{terms_at};
ghost use Rattle.ba_facts.specs.Walks.{IsWanted};
ghost use Rattle.ba_instant.specs.Outlooks.{AreApart, FailsWith, GivesOther, IsDifferent, IsNeedless, IsOut, Keeps, KeepsAt, Links, MeetsAt, NeedsOnly, NoneSought, NoneWithin, OffersLike, term_with};

use crate::alike::has_alike;
use crate::spread::is_at;
use ba_facts::{Branch, Term, TermRef, Walk, Wanted};
use ba_model::{Atom, List, Op, Operand, Part};
use std::alloc::{AllocError, Global};

/// How many tables a part has at least that is looked at here. Fewer are walked through at once.
const MANY_TABLES: usize = 3;

/// With how many of those that were taken before it a fact is compared.
const LAST_TAKEN: usize = 8;

/// A part that is to be mapped to facts, and the row, if one is given, for its head.
#[derive(Clone, Copy)]
pub struct Outlook<'a> {
    pub alloc: Global,
    pub walk: Walk<'a>,
    pub row: Option<&'a List<Term>>,
}

/// A place of the part for which no fact is chosen, and the facts that are left for it.
#[derive(Drop)]
pub struct Left {
    pub place: usize,
    pub facts: Vec<usize>,
}

/// A fact at a place of the part.
#[derive(Clone, Copy)]
pub struct Placed {
    pub place: usize,
    pub fact: usize,
}

/// Whether the part has so many tables that its outlook is worth the lists that it takes, and a walk
/// from left to right may go wrong: at a place that nothing ties to those before it goes over all
/// facts again and again; what is asked of a late place alone it asks too late; and so it does with
/// the row, if one is given, where the head has no column of the first place.
pub fn is_worthwhile(part: &Part, has_row: bool) -> bool {
    let conds = part.conds.as_slice();
    let places = part.from.len();
    let begins_blindly = has_row && !names_first(part.head.as_slice());
    places >= MANY_TABLES
        && (begins_blindly
            || (1..places).any(|place| is_loose(conds, place) || is_tested(conds, place)))
}

/// Whether a column of the first place is among these.
fn names_first(head: &[Operand]) -> bool {
    head.iter().any(|operand| is_at(0, operand))
}

/// Whether no `=` ties the place to an earlier one.
fn is_loose(conds: &[Atom], place: usize) -> bool {
    !conds
        .iter()
        .any(|atom| atom.op.is_equation() && ties(atom, place))
}

fn ties(atom: &Atom, place: usize) -> bool {
    (is_at(place, &atom.left) && is_before(place, &atom.right))
        || (is_at(place, &atom.right) && is_before(place, &atom.left))
}

/// Whether the operand is a column of an earlier place.
fn is_before(place: usize, operand: &Operand) -> bool {
    match operand {
        Operand::Col(p, _) => (*p as usize) < place,
        _ => false,
    }
}

/// Whether an atom is of the place alone. A `<>` counts for nothing: to test it takes longest.
fn is_tested(conds: &[Atom], place: usize) -> bool {
    conds
        .iter()
        .any(|atom| !is_inequality(atom.op) && is_of_alone(atom, place))
}

fn is_of_alone(atom: &Atom, place: usize) -> bool {
    needs_only(place, &atom.left)
        && needs_only(place, &atom.right)
        && (is_at(place, &atom.left) || is_at(place, &atom.right))
}

fn is_inequality(op: Op) -> bool {
    match op {
        Op::Ne => true,
        _ => false,
    }
}

impl<'a> Outlook<'a> {
    /// Whether there are no facts of the side, one for each table, that make each atom of the part
    /// what is wanted and give the row. There may be none even where this says no.
    pub fn is_bleak(&self) -> Result<bool, AllocError>
        ensures { IfOk result (λ bleak. IsTrue bleak → NoneSought self.now) }
    {
        let places = self.places()?;
        self.is_dead(&places, places.len())
    }

    /// Each place of the part with the facts that may stand there, up to the first that has none.
    fn places(&self) -> Result<Vec<Left>, AllocError>
        ensures { IfOk result (λ it. NoneWithin self.now it.items → NoneSought self.now) }
    {
        let from = self.walk.part.from.as_slice();
        let mut places = Vec::new(self.alloc);
        for place in 0..from.len() {
            let facts = self.candidates(place, from[place])?;
            let is_bare = facts.is_empty();
            places.push(Left { place, facts })?;
            if is_bare {
                return Ok(places);
            }
        }
        Ok(places)
    }

    /// The facts of the table that may stand at the place as far as this can be said of each alone.
    /// Of those that are alike mostly only the first is taken.
    fn candidates(&self, place: usize, table: u32) -> Result<Vec<usize>, AllocError>
        requires { slice_get self.now.walk.part.now.from place ≡ Some table }
        ensures { IfOk result (λ it. OffersLike self.now place it.items) }
    {
        let mut facts = Vec::new(self.alloc);
        for fact in 0..self.walk.branch.facts.len() {
            if !self.is_needless(table, Placed { place, fact }, &facts) {
                facts.push(fact)?;
            }
        }
        Ok(facts)
    }

    /// Whether the fact can't stand at the place, or is alike to one of those that were taken.
    fn is_needless(&self, table: u32, own: Placed, taken: &[usize]) -> bool
        requires { slice_get self.now.walk.part.now.from own.place ≡ Some table }
        ensures { IsTrue result → IsNeedless self.now own taken.now }
    {
        if self.is_out(table, own) {
            return true;
        }
        let first = taken.len().saturating_sub(LAST_TAKEN);
        has_alike(self.walk.branch, taken, first, own.fact)
    }

    /// Whether the fact is none of the table, some atom isn't what is wanted by this fact alone, or
    /// the head isn't the row.
    fn is_out(&self, table: u32, own: Placed) -> bool
        requires { slice_get self.now.walk.part.now.from own.place ≡ Some table }
        ensures { IsTrue result → IsOut self.now own }
    {
        !self.walk.is_fact(table, own.fact) || self.has_other(own) || self.is_unmet(own)
    }

    /// Whether some atom isn't what is wanted by the fact alone.
    fn is_unmet(&self, own: Placed) -> bool
        ensures { IsTrue result → IsOut self.now own }
    {
        for atom in self.walk.part.conds.as_slice() {
            if self.misses(atom, own, own) {
                return true;
            }
        }
        false
    }

    /// Whether the head can't be the row by the fact alone.
    fn has_other(&self, own: Placed) -> bool
        ensures { IsTrue result → IsOut self.now own }
    {
        match self.row {
            Some(row) => self.gives_other(own, self.walk.part.head.as_slice(), row.as_slice()),
            None => false,
        }
    }

    fn gives_other(&self, own: Placed, head: &'a [Operand], row: &[Term]) -> bool
        ensures { IsTrue result → GivesOther self.now own head.now row.now }
    {
        for i in 0..head.len().min(row.len()) {
            if self.is_different(own, &head[i], &row[i]) {
                return true;
            }
        }
        false
    }

    /// Whether by the fact alone the operand stands for a term that isn't the same as the other.
    fn is_different(&self, own: Placed, operand: &'a Operand, other: &Term) -> bool
        ensures { IsTrue result → IsDifferent self.now own operand.now other.now }
    {
        if !needs_only(own.place, operand) {
            return false;
        }
        match self.term(own.fact, operand) {
            Some(term) => !self.walk.branch.known.same(term, other.by_ref()),
            None => false,
        }
    }

    /// Whether no facts that are looked for are among those left for each place. `depth` says how
    /// many places are looked at: with none the answer is no.
    fn is_dead(&self, places: &[Left], depth: usize) -> Result<bool, AllocError>
        ensures { IfOk result (λ dead. IsTrue dead → NoneWithin self.now places.now) }
    {
        if depth == 0 || places.is_empty() {
            return Ok(false);
        }
        let next = &places[narrowest(places)];
        for fact in &next.facts {
            let chosen = Placed {
                place: next.place,
                fact: *fact,
            };
            let others = self.others(places, chosen)?;
            if !self.is_dead(&others, depth - 1)? {
                return Ok(false);
            }
        }
        Ok(true)
    }

    /// The other places with the facts that are left for them where one is chosen, up to the first
    /// that has none.
    fn others(&self, places: &[Left], chosen: Placed) -> Result<Vec<Left>, AllocError>
        ensures { IfOk result (λ it. Keeps self.now chosen places.now it.items) }
    {
        let mut others = Vec::new(self.alloc);
        for it in places {
            if it.place != chosen.place {
                let facts = self.agreeing(it, chosen)?;
                let is_bare = facts.is_empty();
                others.push(Left {
                    place: it.place,
                    facts,
                })?;
                if is_bare {
                    return Ok(others);
                }
            }
        }
        Ok(others)
    }

    /// The facts left for the place that agree with the chosen one.
    fn agreeing(&self, it: &Left, chosen: Placed) -> Result<Vec<usize>, AllocError>
        ensures { IfOk result
            (λ left. KeepsAt self.now chosen it.now.place it.now.facts.items left.items) }
    {
        let mut left = it.facts.clone()?;
        for atom in self.walk.part.conds.as_slice() {
            if are_linked(atom, chosen.place, it.place) {
                left = self.meeting(atom, chosen, it.place, &left)?;
            }
        }
        Ok(left)
    }

    /// Those of the facts for the place with which and with the chosen one the atom may be what is
    /// wanted.
    fn meeting(
        &self,
        atom: &'a Atom,
        chosen: Placed,
        place: usize,
        facts: &[usize],
    ) -> Result<Vec<usize>, AllocError>
        ensures { IfOk result
            (λ left. MeetsAt self.now atom.now chosen place facts.now left.items) }
    {
        let mut left = Vec::new(self.alloc);
        for fact in facts {
            if !self.are_apart(atom, chosen, Placed { place, fact: *fact }) {
                left.push(*fact)?;
            }
        }
        Ok(left)
    }

    /// Whether with the two facts the atom isn't what is wanted.
    fn are_apart(&self, atom: &'a Atom, one: Placed, other: Placed) -> bool
        ensures { IsTrue result → AreApart self.now one other atom.now }
    {
        self.misses(atom, one, other) || self.misses(atom, other, one)
    }

    /// Whether the atom isn't what is wanted by the one fact for its left side and the other for
    /// its right.
    fn misses(&self, atom: &'a Atom, left: Placed, right: Placed) -> bool
        ensures { IsTrue result → AreApart self.now left right atom.now }
    {
        needs_only(left.place, &atom.left)
            && needs_only(right.place, &atom.right)
            && self.fails(atom, left.fact, right.fact)
    }

    fn fails(&self, atom: &'a Atom, left: usize, right: usize) -> bool
        ensures { IsTrue result ↔ FailsWith self.now.walk left right atom.now }
    {
        match (self.term(left, &atom.left), self.term(right, &atom.right)) {
            (Some(left), Some(right)) => !self.is_wanted(atom.op, left, right),
            _ => false,
        }
    }

    /// Whether the comparison is what is wanted.
    fn is_wanted(&self, op: Op, left: TermRef<'_>, right: TermRef<'_>) -> bool
        ensures { IsTrue result ↔ IsWanted self.now.walk.branch.now.known self.now.walk.wanted op
            (seen left.entry) (seen right.entry) }
    {
        match self.walk.wanted {
            Wanted::Live => self.walk.branch.is_live(op, left, right),
            Wanted::Shown => self.walk.branch.known.shows(op, left, right),
        }
    }

    /// What the operand stands for where its place, if it names one, has the fact.
    fn term(&self, fact: usize, operand: &'a Operand) -> Option<TermRef<'a>>
        ensures { option_map seen result ≡ term_with self.now.walk.branch.now fact operand.now }
    {
        match operand {
            Operand::Col(_, column) => term_at(self.walk.branch, fact, *column),
            Operand::Val(value) => Some(TermRef::Val(value)),
            Operand::Param(n) => Some(TermRef::Param(*n)),
            Operand::Var(n) => Some(TermRef::Var(*n)),
        }
    }
}

/// The term in a column of the fact of a number, if it is there.
fn term_at(branch: &Branch, number: usize, column: u32) -> Option<TermRef<'_>>
    ensures { option_map seen result ≡ slice_get (terms_at branch.now number) column }
{
    match branch.facts.find(number) {
        Some(fact) => match fact.terms.find(column as usize) {
            Some(term) => Some(term.by_ref()),
            None => None,
        },
        None => None,
    }
}

/// A place of those for which the fewest facts are left.
fn narrowest(places: &[Left]) -> usize
    requires { 0 < length places.now }
    ensures { result < length places.now }
{
    let mut best = 0;
    for i in 1..places.len() {
        if places[i].facts.len() < places[best].facts.len() {
            best = i;
        }
    }
    best
}

/// Whether the operand names no other place.
fn needs_only(place: usize, operand: &Operand) -> bool
    ensures { IsTrue result ↔ NeedsOnly place operand.now }
{
    match operand {
        Operand::Col(p, _) => *p as usize == place,
        Operand::Val(_) => true,
        Operand::Param(_) => true,
        Operand::Var(_) => true,
    }
}

/// Whether one side of the atom is a column of the one place and the other side one of the other.
fn are_linked(atom: &Atom, one: usize, other: usize) -> bool
    ensures { IsTrue result ↔ Links one other atom.now }
{
    (is_at(one, &atom.left) && is_at(other, &atom.right))
        || (is_at(other, &atom.left) && is_at(one, &atom.right))
}
