//! Numbers of terms.
ghost use Rattle.std.specs.Prelude.{◌≡◌, ◌≢◌, ℕ, ◌↔◌, ◌<◌, ◌^◌, [], ◌∷◌, ◌++◌, length, slice_get, slice_index_or, Some, None, IsTrue, IfOk, OnOk, OnErr};
ghost use Rattle.ba_facts.specs.Known.{seen};
ghost use Rattle.ba_facts.specs.Naming.{number_in};
ghost use Rattle.ba_facts.specs.declared.term.Term.{Term};
ghost use Rattle.ba_facts.specs.declared.term.Term.TheVariants.{Unknown};
ghost use Rattle.ba_model.specs.declared.value.Value.{Value};
ghost use Rattle.std.specs.Option.{option_copied};

use crate::copies::{add_item, make_first_room};
use crate::term::{Term, TermRef};
use ba_model::{Duplicate, Same, Value};
use std::alloc::{AllocError, Global};
use std::collections::BTreeMap;
use std::marker::Model;

impl TermRef<'_> {
    /// The term, with a copy of its value.
    pub(crate) fn copy(self, alloc: Global) -> Result<Term, AllocError>
        ensures { IfOk result (λ term. term ≡ seen self.entry) }
    {
        match self {
            TermRef::Unknown(n) => Ok(Term::Unknown(n)),
            TermRef::Val(value) => Ok(Term::Val(value.copy(alloc)?)),
            TermRef::Param(n) => Ok(Term::Param(n)),
            TermRef::Var(n) => Ok(Term::Var(n)),
        }
    }
}

impl TermRef<'_> {
    /// Whether the two stand for one term.
    pub(crate) fn same(self, other: TermRef<'_>) -> bool
        ensures { IsTrue result ↔ (seen self.entry ≡ seen other.entry) }
    {
        match (self, other) {
            (TermRef::Unknown(n), TermRef::Unknown(m)) => n == m,
            (TermRef::Val(v), TermRef::Val(w)) => v.same(w),
            (TermRef::Param(n), TermRef::Param(m)) => n == m,
            (TermRef::Var(n), TermRef::Var(m)) => n == m,
            _ => false,
        }
    }
}

/// The numbers of terms: of unknowns, parameters and variables by theirs, and of literals by value.
#[derive(Drop)]
pub(crate) struct Numbers {
    unknowns: Vec<Option<u32>>,
    values: BTreeMap<Value, u32>,
    params: Vec<Option<u32>>,
    vars: Vec<Option<u32>>,
}

impl Numbers {
    fn new(alloc: Global) -> Numbers
        ensures { (t : Term) → number_in result t ≡ None }
    {
        Numbers {
            unknowns: Vec::new(alloc),
            values: BTreeMap::new(alloc),
            params: Vec::new(alloc),
            vars: Vec::new(alloc),
        }
    }

    // Makes room for so many unknowns. No number changes.
    fn make_room(&mut self, unknowns: usize) -> Result<(), AllocError>
        ensures { (t : Term) → number_in self.new t ≡ number_in self.old t }
    {
        self.unknowns.reserve(unknowns)?;
        Ok(())
    }

    #[inline(always)]
    fn find(&self, term: TermRef<'_>) -> Option<u32>
        ensures { result ≡ number_in self.now (seen term.entry) }
    {
        match term {
            TermRef::Unknown(n) => number_at(&self.unknowns, n),
            TermRef::Val(value) => self.values.get(value).copied(),
            TermRef::Param(n) => number_at(&self.params, n),
            TermRef::Var(n) => number_at(&self.vars, n),
        }
    }

    // Gives the term this number. Without memory no number changes.
    #[inline(always)]
    fn put(&mut self, alloc: Global, term: TermRef<'_>, number: u32) -> Result<(), AllocError>
        ensures here { OnOk result (number_in self.new (seen term.entry) ≡ Some number) }
        ensures apart { OnOk result ((t : Term) →
            t ≢ seen term.entry → number_in self.new t ≡ number_in self.old t) }
        ensures err { OnErr result ((t : Term) → number_in self.new t ≡ number_in self.old t) }
    {
        match term {
            TermRef::Unknown(n) => {
                set_number(&mut self.unknowns, n, number)?;
            }
            TermRef::Val(value) => {
                self.values.insert(value.copy(alloc)?, number)?;
            }
            TermRef::Param(n) => {
                set_number(&mut self.params, n, number)?;
            }
            TermRef::Var(n) => {
                set_number(&mut self.vars, n, number)?;
            }
        }
        Ok(())
    }
}

#[inline(always)]
fn number_at(numbers: &[Option<u32>], n: u32) -> Option<u32>
    ensures { result ≡ slice_index_or numbers.now n None }
{
    match numbers.get(n as usize) {
        Some(number) => *number,
        None => None,
    }
}

// Puts the number at a place. Without memory no number changes.
#[inline(always)]
fn set_number(numbers: &mut Vec<Option<u32>>, n: u32, number: u32) -> Result<(), AllocError>
    ensures here { OnOk result (slice_index_or numbers.new.items n None ≡ Some number) }
    ensures apart { OnOk result ((m : ℕ) →
        m ≢ n → slice_index_or numbers.new.items m None ≡ slice_index_or numbers.old.items m None) }
    ensures err { OnErr result (numbers.new.items ≡ numbers.old.items) }
{
    let place = n as usize;
    if numbers.len() <= place {
        make_first_room(numbers)?;
        numbers.resize(place + 1, None)?;
    }
    numbers[place] = Some(number);
    Ok(())
}

/// Different terms, numbered from 0 in the order in which they came.
#[derive(Drop)]
pub(crate) struct Names {
    terms: Vec<Term>,
    numbers: Numbers,
}

impl Model for Names {
    ghost use Rattle.std.specs.Prelude.{List};
    ghost use Rattle.ba_facts.specs.declared.term.Term.{Term};

    ghost Value = { List Term };

    ghost use Rattle.ba_facts.specs.Naming.{IsIndexed};

    ghost view = { λ it. it.terms.items };

    ghost invariant = { λ it. IsIndexed it.numbers it.terms.items };
}

impl Names {
    pub(crate) fn new(alloc: Global) -> Names
        ensures { result ≡ [] }
    {
        Names {
            terms: Vec::new(alloc),
            numbers: Numbers::new(alloc),
        }
    }

    pub(crate) fn len(&self) -> usize
        ensures { result ≡ length self.now }
    {
        self.terms.len()
    }

    /// The number of a term, if it has one.
    #[inline(always)]
    pub(crate) fn find(&self, term: TermRef<'_>) -> Option<u32>
        ensures { (n : ℕ) → (result ≡ Some n) ↔ (slice_get self.now n ≡ Some (seen term.entry)) }
    {
        self.numbers.find(term)
    }

    /// The value of a number's term, if it is a literal.
    #[inline(always)]
    pub(crate) fn value(&self, n: u32) -> Option<&Value>
        requires { n < length self.now }
        ensures { (v : Value) → slice_get self.now n ≡ Some (Term.Val v) →
            option_copied result ≡ Some v }
    {
        match &self.terms[n as usize] {
            Term::Val(value) => Some(value),
            _ => None,
        }
    }

    /// The unknown that the number's term is, if it is one.
    #[inline(always)]
    pub(crate) fn unknown(&self, n: u32) -> Option<u32>
        requires { n < length self.now }
        ensures { (u : ℕ) → (result ≡ Some u) ↔ (slice_get self.now n ≡ Some (Unknown u)) }
    {
        match &self.terms[n as usize] {
            Term::Unknown(u) => Some(*u),
            _ => None,
        }
    }

    /// Adds a term that has no number. Without memory nothing changes.
    #[inline(always)]
    pub(crate) fn add(&mut self, term: TermRef<'_>) -> Result<(), AllocError>
        requires new { (n : ℕ) → slice_get self.old n ≢ Some (seen term) }
        requires few { length self.old < 2 ^ 32 }
        ensures ok { OnOk result (self.new ≡ self.old ++ seen term.entry ∷ []) }
        ensures err { OnErr result (self.new ≡ self.old) }
    {
        let alloc = *self.terms.allocator();
        let number = self.terms.len() as u32;
        add_item(&mut self.terms, term.copy(alloc)?)?;
        match self.numbers.put(alloc, term, number) {
            Ok(()) => Ok(()),
            Err(error) => {
                self.terms.pop();
                Err(error)
            }
        }
    }

    // Makes room for the terms of others. Nothing changes.
    fn make_room(&mut self, others: &Names) -> Result<(), AllocError>
        ensures { self.new ≡ self.old }
    {
        self.terms.reserve(others.terms.len())?;
        self.numbers.make_room(others.numbers.unknowns.len())
    }

    /// The same terms with the same numbers.
    pub(crate) fn copy(&self, alloc: Global) -> Result<Names, AllocError>
        ensures { IfOk result (λ other. other ≡ self.now) }
    {
        let mut other = Names::new(alloc);
        other.make_room(self)?;
        for term in &self.terms {
            other.add(term.by_ref())?;
        }
        Ok(other)
    }
}
