ghost use Rattle.std.specs.Prelude.{◌≡◌, ◌∷◌, ◌++◌, ◌↔◌, ℕ, ◌+◌, ◌-◌, ◌≤◌, ◌^◌, [], length, map, slice_get, take, Any, IsTrue, IfOk, OnOk, OnErr, Some};
ghost use Rattle.std.specs.List.{range_with_len};
ghost use Rattle.std.specs.Option.{option_copied};
ghost use Rattle.ba_facts.specs.Knowing.{IsBound, IsLeastOf, IsLiteralIn, LessonIsThere, sort_of};
ghost use Rattle.ba_facts.specs.Laid.{BeginsBy, IsHolder, IsHolderAt, IsLaid};
ghost use Rattle.ba_facts.specs.Laws.{with_lesson};
ghost use Rattle.ba_facts.specs.Shown.{Absurd, Refutes, Shows, TheSame};
ghost use Rattle.ba_facts.specs.declared.term.Term.TheVariants.{Unknown};

use crate::copies::copy_shared;
use crate::knowledge::Knowledge;
use crate::number::number_after;
use crate::term::{Fact, Lesson, Side, Term, TermAtom};
use ba_model::{Column, Duplicate, Kind, List, Owned, Shared, Value};
use std::alloc::{AllocError, Global};
use std::mem;

/// A case of a proof: facts about two databases, what is known of their terms, and the goal row,
/// which is a row of the question on side One. The kinds are those of the parameters and variables.
#[derive(Drop)]
pub struct Branch {
    pub params: Shared<List<Kind>>,
    pub vars: Shared<List<Kind>>,
    pub known: Knowledge,
    pub facts: List<Shared<Fact>>,
    pub goal: Shared<List<Term>>,
}

impl Branch {
    /// A branch without facts, of which nothing is known, and with an empty goal row.
    pub fn new(alloc: Global, params: List<Kind>, vars: List<Kind>) -> Result<Branch, AllocError>
        ensures { IfOk result (λ it. it ≡ record {
          params = params;
          vars = vars;
          known = record { unknowns = []; learned = [] };
          facts = [];
          goal = [];
        }) }
    {
        Ok(Branch {
            params: Shared::new(alloc, params)?,
            vars: Shared::new(alloc, vars)?,
            known: Knowledge::new(alloc),
            facts: List::new(alloc),
            goal: Shared::new(alloc, List::new(alloc))?,
        })
    }

    /// Adds a row of a table on a side, with a new unknown for each column. Without memory nothing
    /// changes; 2^32 unknowns or more are told as want of memory ([`number_after`]).
    pub fn add_fact(
        &mut self,
        alloc: Global,
        side: Side,
        table: u32,
        columns: &[Column],
        round: u32,
    ) -> Result<(), AllocError>
        ensures ok { OnOk result (self.new ≡ record self.old {
          known = record self.old.known {
            unknowns = self.old.known.unknowns ++ map sort_of columns.now;
          };
          facts = self.old.facts ++ record {
            side = side;
            table = table;
            terms = map Term.Unknown
                (range_with_len (length self.old.known.unknowns) (length columns.now));
            round = round;
          } ∷ [];
        }) }
        ensures err { OnErr result (self.new ≡ self.old) }
    {
        let first = self.known.unknowns().len();
        number_after(first, columns.len())?;
        let terms = unknown_terms(alloc, first, columns.len())?;
        let fact = Fact {
            side,
            table,
            terms,
            round,
        };
        self.facts.push(Shared::new(alloc, fact)?)?;
        match self.known.add_unknowns(columns) {
            Ok(()) => Ok(()),
            Err(error) => {
                self.drop_last_fact(alloc);
                Err(error)
            }
        }
    }

    /// The number of the fact that the unknown is a term of, if it is one of a fact's. It is looked
    /// for by halving, since the facts' first terms rise; where one has no terms, from the newest on.
    pub fn holder(&self, unknown: u32) -> Option<usize>
        requires { IsLaid self.now }
        ensures { IsHolder self.now.facts unknown result }
    {
        let mut first = 0;
        let mut end = self.facts.len();
        while end - first > 1 {
            let middle = first + (end - first) / 2;
            match first_of(self.facts.get(middle)) {
                Some(begin) if begin <= unknown => first = middle,
                Some(_) => end = middle,
                None => return self.last_holder(unknown),
            }
        }
        self.holder_at(first, unknown)
    }

    /// The number, if it is that of a fact that the unknown is a term of.
    fn holder_at(&self, number: usize, unknown: u32) -> Option<usize>
        ensures { IsHolderAt self.now.facts unknown number result }
    {
        match self.facts.find(number) {
            Some(fact) => has_unknown(fact, unknown).then_some(number),
            None => None,
        }
    }

    /// The number of the fact that the unknown is a term of, looked for from the newest on.
    fn last_holder(&self, unknown: u32) -> Option<usize>
        requires { IsLaid self.now }
        ensures { IsHolder self.now.facts unknown result }
    {
        let mut number = self.facts.len();
        while number > 0 {
            number -= 1;
            let fact = self.facts.get(number);
            if begins_by(fact, unknown) {
                return has_unknown(fact, unknown).then_some(number);
            }
        }
        None
    }

    fn drop_last_fact(&mut self, alloc: Global)
        ensures { self.new ≡
            record self.old { facts = take (length self.old.facts - 1) self.old.facts } }
    {
        let mut facts = mem::replace(&mut self.facts, List::new(alloc)).into_vec();
        facts.pop();
        self.facts = List::from_vec(facts);
    }

    /// Learns that the two terms are the same, maybe NULL. Without memory nothing changes.
    pub fn equate(&mut self, a: Term, b: Term) -> Result<(), AllocError>
        requires { LessonIsThere self.old.known (Lesson.Same a b) }
        ensures ok { OnOk result (self.new ≡ with_lesson self.old (Lesson.Same a b)) }
        ensures err { OnErr result (self.new ≡ self.old) }
    {
        self.known.learn(Lesson::Same(a, b))
    }

    /// Learns that the atom is true. Without memory nothing changes.
    pub fn assume(&mut self, atom: TermAtom) -> Result<(), AllocError>
        requires { LessonIsThere self.old.known (Lesson.Holds atom) }
        ensures ok { OnOk result (self.new ≡ with_lesson self.old (Lesson.Holds atom)) }
        ensures err { OnErr result (self.new ≡ self.old) }
    {
        self.known.learn(Lesson::Holds(atom))
    }

    /// Whether the atom is shown, so that it is true in every fit.
    pub fn shows(&self, atom: &TermAtom) -> bool
        ensures { IsTrue result ↔ Shows self.now.known atom.now }
    {
        self.known
            .shows(atom.op, atom.left.by_ref(), atom.right.by_ref())
    }

    /// Whether the atom is refuted, so that it is false in every fit.
    pub fn refutes(&self, atom: &TermAtom) -> bool
        ensures { IsTrue result ↔ Refutes self.now.known atom.now }
    {
        self.known
            .refutes(atom.op, atom.left.by_ref(), atom.right.by_ref())
    }

    /// Whether the two terms are the same, so that they have one value in every fit.
    pub fn same(&self, a: &Term, b: &Term) -> bool
        ensures { IsTrue result ↔ TheSame self.now.known a.now b.now }
    {
        self.known.same(a.by_ref(), b.by_ref())
    }

    /// A literal of the term's class, if it has one.
    pub fn literal<'a>(&'a self, term: &'a Term) -> Option<&'a Value>
        ensures { IsLiteralIn self.now.known term.now (option_copied result) }
    {
        self.known.literal(term.by_ref())
    }

    /// The least unknown that is of one class with this one, by its number.
    pub fn least_of(&self, unknown: u32) -> u32
        ensures { IsLeastOf self.now.known unknown result }
    {
        self.known.least_of(unknown)
    }

    /// The greatest number by which the one term is shown to be less than the other, if any is
    /// shown.
    pub fn bound(&self, low: &Term, high: &Term) -> Option<i128>
        requires { ¬ (Absurd self.now.known) }
        ensures { IsBound self.now.known low.now high.now result }
    {
        self.known.bound(low.by_ref(), high.by_ref())
    }

    /// Whether the branch is absurd, so that it has no fit.
    pub fn absurd(&self) -> bool
        ensures { IsTrue result ↔ Absurd self.now.known }
    {
        self.known.absurd()
    }

    /// The same branch. It shares the facts and what was learned with this one.
    pub fn copy(&self, alloc: Global) -> Result<Branch, AllocError>
        ensures { IfOk result (λ other. other ≡ self.now) }
    {
        Ok(Branch {
            params: self.params.copy(alloc)?,
            vars: self.vars.copy(alloc)?,
            known: self.known.copy(alloc)?,
            facts: copy_facts(alloc, &self.facts)?,
            goal: self.goal.copy(alloc)?,
        })
    }

    /// The same branch behind a pointer.
    pub fn owned_copy(&self, alloc: Global) -> Result<Owned<Branch>, AllocError>
        ensures { IfOk result (λ other. other ≡ self.now) }
    {
        let copy = self.copy(alloc)?;
        Owned::new(alloc, copy)
    }
}

/// The number of the unknown that is the fact's first term, if it is one.
fn first_of(fact: &Fact) -> Option<u32>
    ensures { (u : ℕ) → (result ≡ Some u) ↔ (slice_get fact.now.terms 0 ≡ Some (Unknown u)) }
{
    match fact.terms.find(0) {
        Some(Term::Unknown(first)) => Some(*first),
        _ => None,
    }
}

/// Whether the fact's first term is an unknown of this number or a lesser one.
fn begins_by(fact: &Fact, unknown: u32) -> bool
    ensures { IsTrue result ↔ BeginsBy fact.now unknown }
{
    match fact.terms.find(0) {
        Some(Term::Unknown(first)) => *first <= unknown,
        _ => false,
    }
}

/// Whether the unknown is a term of the fact.
fn has_unknown(fact: &Fact, unknown: u32) -> bool
    ensures { IsTrue result ↔ Any (λ term. term ≡ Unknown unknown) fact.now.terms }
{
    let terms = fact.terms.as_slice();
    terms.iter().any(|term| is_unknown(term, unknown))
}

fn is_unknown(term: &Term, unknown: u32) -> bool
    ensures { IsTrue result ↔ (term.now ≡ Unknown unknown) }
{
    match term {
        Term::Unknown(number) => *number == unknown,
        _ => false,
    }
}

fn copy_facts(alloc: Global, facts: &List<Shared<Fact>>) -> Result<List<Shared<Fact>>, AllocError>
    ensures { IfOk result (λ it. it ≡ facts.now) }
{
    Ok(List::from_vec(copy_shared(alloc, facts.as_slice())?))
}

/// So many unknowns, numbered on from the first.
fn unknown_terms(alloc: Global, first: usize, count: usize) -> Result<List<Term>, AllocError>
    requires { first + count ≤ 2 ^ 32 }
    ensures { IfOk result (λ terms. terms ≡ map Term.Unknown (range_with_len first count)) }
{
    let mut terms = Vec::with_capacity(alloc, count)?;
    for i in 0..count {
        terms.push(Term::Unknown((first + i) as u32))?;
    }
    Ok(List::from_vec(terms))
}
