//! The one pass over the full condition that drops what the steps don't need.
ghost use Rattle.std.specs.Prelude.{◌≡◌, ◌↔◌, ◌-◌, ◌≤◌, ◌∷◌, ◌++◌, [], IfOk, IfSome, IsTrue, None, OnOk, drop, length, replicate, take, true};
ghost use Rattle.ba_model.specs.Limits.{most_steps};
ghost use Rattle.ba_general.specs.Conditions.{AtomsFit, IsAcceptedFully, AddsGroup, AreUp, DropsGroups, IsCondition, IsFullList, IsFullPass, PatternFits};
ghost use Rattle.ba_general.specs.Dropping.{AllKept, AreAmong, DropsRun, IsAccepted, IsGuess, IsLast, IsProofBy, IsRefusedAtOnce, IsTriedAtOnce, atom_if, between, kept_atoms, without_run};
ghost use Rattle.ba_general.specs.Patterns.{assuming};

use crate::condition::{Group, add_group};
use crate::copies::proof_by;
use crate::guessing::guessed;
use crate::pattern::Pattern;
use ba_kernel::{Proved, Step};
use ba_model::{Atom, Duplicate, List};
use std::alloc::{AllocError, Global};

/// The steps as a proof of the pattern's problem under its condition: of the full condition the
/// atoms that stay where, group by group, each from its last atom to its first, an atom is dropped
/// without which the steps are still accepted.
pub fn under_condition(
    alloc: Global,
    pattern: &Pattern,
    steps: &List<Step>,
) -> Result<Proved, AllocError>
    requires few { length steps.now ≤ most_steps }
    requires fits { PatternFits pattern.now }
    requires accepted { IsAcceptedFully pattern.now.problem pattern.now.operands steps.now }
    ensures condition { IfOk result (λ it. IsCondition pattern.now.problem pattern.now.operands steps.now it.problem.assumed) }
    ensures is { IfOk result (λ it. it ≡ record { problem = assuming pattern.now.problem it.problem.assumed; steps = steps.now }) }
{
    let mut pass = Pass::full(alloc, pattern, steps)?;
    let ends = pass.ends;
    let all = pass.atoms.len();
    let guess = pass.guess(alloc, ends.apart)?;
    pass.drop_unequal(alloc, ends, &guess)?;
    pass.drop_equal(alloc, ends.apart, all, &guess)?;
    pass.proof(alloc, guess)
}

/// Whether the steps are accepted under the full condition.
pub fn is_accepted(alloc: Global, pattern: &Pattern, steps: &List<Step>) -> Result<bool, AllocError>
    requires few { length steps.now ≤ most_steps }
    requires fits { PatternFits pattern.now }
    ensures { IfOk result (λ told. IsTrue told ↔ IsAcceptedFully pattern.now.problem pattern.now.operands steps.now) }
{
    let pass = Pass::full(alloc, pattern, steps)?;
    let proof = pass.tried(alloc)?;
    Ok(proof.is_some())
}

/// Fewer pairs of equal values are not worth a guess.
const FEWEST_PAIRS: usize = 3;

/// Where the atoms of each group but the last end.
#[derive(Clone, Copy, Debug)]
struct Ends {
    fixed: usize,
    less: usize,
    apart: usize,
}

/// Some atoms of the full condition with which the steps are accepted, and the proof that they are.
#[derive(Drop)]
struct Guess {
    kept: Vec<bool>,
    proof: Proved,
}

/// The full condition, and which of its atoms are still kept.
#[derive(Drop)]
struct Pass<'a> {
    pattern: &'a Pattern,
    steps: &'a List<Step>,
    atoms: Vec<Atom>,
    kept: Vec<bool>,
    ends: Ends,
    /// The proof under the atoms that are kept, once some were dropped by a try.
    last: Option<Proved>,
}

impl<'a> Pass<'a> {
    fn full(
        alloc: Global,
        pattern: &'a Pattern,
        steps: &'a List<Step>,
    ) -> Result<Pass<'a>, AllocError>
        ensures full { IfOk result (λ it. IsFullPass pattern.now.operands it.atoms.items it.kept.items it.ends) }
        ensures of { IfOk result (λ it. (it.pattern ≡ pattern.entry) × (it.steps ≡ steps.entry)) }
        ensures last { IfOk result (λ it. it.last ≡ None) }
    {
        let ends = Ends {
            fixed: 0,
            less: 0,
            apart: 0,
        };
        let mut pass = Pass {
            pattern,
            steps,
            atoms: Vec::new(alloc),
            kept: Vec::new(alloc),
            ends,
            last: None,
        };
        pass.add_groups(alloc)?;
        pass.keep_all()?;
        Ok(pass)
    }

    fn add_groups(&mut self, alloc: Global) -> Result<(), AllocError>
        requires { self.old.atoms.items ≡ [] }
        ensures full { OnOk result (IsFullList self.old.pattern.now.operands self.new.atoms.items self.new.ends) }
        ensures same { (self.new.kept ≡ self.old.kept) × (self.new.pattern ≡ self.old.pattern) × (self.new.steps ≡ self.old.steps) × (self.new.last ≡ self.old.last) }
    {
        self.ends.fixed = self.add(alloc, Group::Fixed)?;
        self.ends.less = self.add(alloc, Group::Less)?;
        self.ends.apart = self.add(alloc, Group::Apart)?;
        self.add(alloc, Group::Equal)?;
        Ok(())
    }

    /// Adds the atoms of a group, and tells where they end.
    fn add(&mut self, alloc: Global, group: Group) -> Result<usize, AllocError>
        ensures added { OnOk result (AddsGroup group self.old.pattern.now.operands self.old.atoms.items self.new.atoms.items) }
        ensures end { IfOk result (λ end. end ≡ length self.new.atoms.items) }
        ensures same { (self.new.ends ≡ self.old.ends) × (self.new.kept ≡ self.old.kept) × (self.new.pattern ≡ self.old.pattern) × (self.new.steps ≡ self.old.steps) × (self.new.last ≡ self.old.last) }
    {
        add_group(alloc, &mut self.atoms, group, &self.pattern.operands)?;
        Ok(self.atoms.len())
    }

    fn keep_all(&mut self) -> Result<(), AllocError>
        requires { self.old.kept.items ≡ [] }
        ensures kept { OnOk result (self.new.kept.items ≡ replicate (length self.old.atoms.items) true) }
        ensures same { (self.new.atoms ≡ self.old.atoms) × (self.new.ends ≡ self.old.ends) × (self.new.pattern ≡ self.old.pattern) × (self.new.steps ≡ self.old.steps) × (self.new.last ≡ self.old.last) }
    {
        for _ in 0..self.atoms.len() {
            self.kept.push(true)?;
        }
        Ok(())
    }

    /// The pairs of equal values that join what the question, the entries and the parameters have,
    /// if the steps are accepted with them alone. A few pairs are tried as soon one by one.
    fn guess(&self, alloc: Global, first: usize) -> Result<Option<Guess>, AllocError>
        requires fits { PatternFits self.now.pattern.now }
        requires few { length self.now.steps.now ≤ most_steps }
        requires atoms { AtomsFit self.now.pattern.now.problem self.now.atoms.items }
        requires first { first ≤ length self.now.atoms.items }
        ensures { IfOk result (λ it. IfSome it (IsGuess self.now.pattern.now.problem self.now.steps.now self.now.atoms.items)) }
    {
        if self.atoms.len() - first < FEWEST_PAIRS {
            return Ok(None);
        }
        let entries = self.pattern.problem.entries.as_slice();
        let kept = guessed(alloc, entries, &self.atoms, first)?;
        let proof = self.tried_with(alloc, &kept)?;
        match proof {
            Some(proof) => Ok(Some(Guess { kept, proof })),
            None => Ok(None),
        }
    }

    /// Drops what can be dropped of the groups but the last: all at once, as most proofs need
    /// equal values alone, or else group by group.
    fn drop_unequal(
        &mut self,
        alloc: Global,
        ends: Ends,
        guess: &Option<Guess>,
    ) -> Result<(), AllocError>
        requires fits { PatternFits self.old.pattern.now }
        requires few { length self.old.steps.now ≤ most_steps }
        requires atoms { AtomsFit self.old.pattern.now.problem self.old.atoms.items }
        requires ends { AreUp ends self.old.atoms.items }
        requires kept { self.old.kept.items ≡ replicate (length self.old.atoms.items) true }
        requires last { IsLast self.old.pattern.now.problem self.old.steps.now self.old.atoms.items self.old.kept.items self.old.last }
        requires guess { IfSome guess.now (IsGuess self.old.pattern.now.problem self.old.steps.now self.old.atoms.items) }
        ensures groups { OnOk result (DropsGroups (IsAccepted self.old.pattern.now.problem self.old.steps.now) self.old.atoms.items self.old.kept.items self.new.kept.items ends) }
        ensures last { OnOk result (IsLast self.old.pattern.now.problem self.old.steps.now self.old.atoms.items self.new.kept.items self.new.last) }
        ensures same { (self.new.atoms ≡ self.old.atoms) × (self.new.pattern ≡ self.old.pattern) × (self.new.steps ≡ self.old.steps) }
    {
        let Ends { fixed, less, apart } = ends;
        let gone = self.drops(alloc, 0, apart, fixed < apart, guess)?;
        if gone {
            return Ok(());
        }
        self.drop_run(alloc, 0, fixed, false, guess)?;
        self.drop_run(alloc, fixed, less, false, guess)?;
        self.drop_run(alloc, less, apart, false, guess)?;
        Ok(())
    }

    /// Drops what can be dropped of the last group, as from the last to the first: by halves at
    /// once, as it rarely goes as a whole.
    fn drop_equal(
        &mut self,
        alloc: Global,
        first: usize,
        end: usize,
        guess: &Option<Guess>,
    ) -> Result<(), AllocError>
        requires fits { PatternFits self.old.pattern.now }
        requires few { length self.old.steps.now ≤ most_steps }
        requires atoms { AtomsFit self.old.pattern.now.problem self.old.atoms.items }
        requires first { first ≤ end }
        requires there { end ≤ length self.old.atoms.items }
        requires flags { length self.old.kept.items ≡ length self.old.atoms.items }
        requires kept { AllKept (between first end self.old.kept.items) }
        requires last { IsLast self.old.pattern.now.problem self.old.steps.now self.old.atoms.items self.old.kept.items self.old.last }
        requires guess { IfSome guess.now (IsGuess self.old.pattern.now.problem self.old.steps.now self.old.atoms.items) }
        ensures run { OnOk result (DropsRun (IsAccepted self.old.pattern.now.problem self.old.steps.now) self.old.atoms.items self.old.kept.items self.new.kept.items first end) }
        ensures flags { OnOk result (length self.new.kept.items ≡ length self.new.atoms.items) }
        ensures last { OnOk result (IsLast self.old.pattern.now.problem self.old.steps.now self.old.atoms.items self.new.kept.items self.new.last) }
        ensures same { (self.new.atoms ≡ self.old.atoms) × (self.new.pattern ≡ self.old.pattern) × (self.new.steps ≡ self.old.steps) }
    {
        let half = first + (end - first) / 2;
        self.drop_run(alloc, half, end, false, guess)?;
        self.drop_run(alloc, first, half, false, guess)?;
        Ok(())
    }

    /// Drops what can be dropped of the atoms from one number up to another, as from the last to the
    /// first: all at once, unless that is known to be refused, or else half by half. What is
    /// accepted without all is accepted without each, since acceptance only grows with what is
    /// assumed; and where all of the later half is gone, the earlier one can't go at once.
    ///
    /// Told of a run that is gone as a whole.
    fn drop_run(
        &mut self,
        alloc: Global,
        first: usize,
        end: usize,
        refused: bool,
        guess: &Option<Guess>,
    ) -> Result<bool, AllocError>
        requires fits { PatternFits self.old.pattern.now }
        requires few { length self.old.steps.now ≤ most_steps }
        requires atoms { AtomsFit self.old.pattern.now.problem self.old.atoms.items }
        requires there { end ≤ length self.old.atoms.items }
        requires flags { length self.old.kept.items ≡ length self.old.atoms.items }
        requires kept { AllKept (between first end self.old.kept.items) }
        requires last { IsLast self.old.pattern.now.problem self.old.steps.now self.old.atoms.items self.old.kept.items self.old.last }
        requires refused { IsTrue refused → IsRefusedAtOnce (IsAccepted self.old.pattern.now.problem self.old.steps.now) self.old.atoms.items self.old.kept.items first end }
        requires guess { IfSome guess.now (IsGuess self.old.pattern.now.problem self.old.steps.now self.old.atoms.items) }
        ensures run { OnOk result (DropsRun (IsAccepted self.old.pattern.now.problem self.old.steps.now) self.old.atoms.items self.old.kept.items self.new.kept.items first end) }
        ensures gone { IfOk result (λ gone. IsTrue gone → self.new.kept.items ≡ without_run self.old.kept.items first end) }
        ensures flags { OnOk result (length self.new.kept.items ≡ length self.new.atoms.items) }
        ensures last { OnOk result (IsLast self.old.pattern.now.problem self.old.steps.now self.old.atoms.items self.new.kept.items self.new.last) }
        ensures same { (self.new.atoms ≡ self.old.atoms) × (self.new.pattern ≡ self.old.pattern) × (self.new.steps ≡ self.old.steps) }
    {
        if first >= end {
            return Ok(false);
        }
        let gone = self.drops(alloc, first, end, !refused, guess)?;
        if gone {
            return Ok(true);
        }
        if end - first == 1 {
            return Ok(false);
        }
        let middle = first + (end - first) / 2;
        let later = self.drop_run(alloc, middle, end, false, guess)?;
        self.drop_run(alloc, first, middle, later, guess)?;
        Ok(false)
    }

    /// Drops all of a run at once, if that is asked and the steps are accepted without it. Else
    /// what is kept is as before. Where all that was guessed is still kept, that needs no try.
    fn drops(
        &mut self,
        alloc: Global,
        first: usize,
        end: usize,
        asked: bool,
        guess: &Option<Guess>,
    ) -> Result<bool, AllocError>
        requires fits { PatternFits self.old.pattern.now }
        requires few { length self.old.steps.now ≤ most_steps }
        requires atoms { AtomsFit self.old.pattern.now.problem self.old.atoms.items }
        requires first { first ≤ end }
        requires there { end ≤ length self.old.atoms.items }
        requires flags { length self.old.kept.items ≡ length self.old.atoms.items }
        requires kept { AllKept (between first end self.old.kept.items) }
        requires last { IsLast self.old.pattern.now.problem self.old.steps.now self.old.atoms.items self.old.kept.items self.old.last }
        requires guess { IfSome guess.now (IsGuess self.old.pattern.now.problem self.old.steps.now self.old.atoms.items) }
        ensures tried { IfOk result (IsTriedAtOnce (IsAccepted self.old.pattern.now.problem self.old.steps.now) self.old.atoms.items self.old.kept.items self.new.kept.items first end asked) }
        ensures last { OnOk result (IsLast self.old.pattern.now.problem self.old.steps.now self.old.atoms.items self.new.kept.items self.new.last) }
        ensures same { (self.new.atoms ≡ self.old.atoms) × (self.new.pattern ≡ self.old.pattern) × (self.new.steps ≡ self.old.steps) }
    {
        if !asked {
            return Ok(false);
        }
        self.set(first, end, false);
        let known = self.keeps(guess);
        if known {
            self.last = None;
            return Ok(true);
        }
        let proof = self.tried(alloc)?;
        let Some(proof) = proof else {
            self.set(first, end, true);
            return Ok(false);
        };
        self.last = Some(proof);
        Ok(true)
    }

    /// Whether all that was guessed is kept. With it the steps are accepted, since acceptance only
    /// grows with what is assumed.
    fn keeps(&self, guess: &Option<Guess>) -> bool
        requires flags { length self.now.kept.items ≡ length self.now.atoms.items }
        requires atoms { AtomsFit self.now.pattern.now.problem self.now.atoms.items }
        requires guess { IfSome guess.now (IsGuess self.now.pattern.now.problem self.now.steps.now self.now.atoms.items) }
        ensures { IsTrue result → IsAccepted self.now.pattern.now.problem self.now.steps.now (kept_atoms self.now.atoms.items self.now.kept.items) }
    {
        match guess {
            Some(guess) => are_among(&guess.kept, &self.kept),
            None => false,
        }
    }

    fn set(&mut self, first: usize, end: usize, kept: bool)
        requires first { first ≤ end }
        requires there { end ≤ length self.old.kept.items }
        ensures kept { self.new.kept.items ≡ take first self.old.kept.items ++ replicate (end - first) kept ++ drop end self.old.kept.items }
        ensures same { (self.new.atoms ≡ self.old.atoms) × (self.new.pattern ≡ self.old.pattern) × (self.new.steps ≡ self.old.steps) × (self.new.ends ≡ self.old.ends) × (self.new.last ≡ self.old.last) }
    {
        for n in first..end {
            self.kept[n] = kept;
        }
    }

    /// The proof that the steps are under the atoms that are kept, if they are accepted so.
    fn tried(&self, alloc: Global) -> Result<Option<Proved>, AllocError>
        requires fits { PatternFits self.now.pattern.now }
        requires few { length self.now.steps.now ≤ most_steps }
        requires flags { length self.now.kept.items ≡ length self.now.atoms.items }
        requires atoms { AtomsFit self.now.pattern.now.problem self.now.atoms.items }
        ensures { IfOk result (IsProofBy (assuming self.now.pattern.now.problem (kept_atoms self.now.atoms.items self.now.kept.items)) self.now.steps.now) }
    {
        self.tried_with(alloc, &self.kept)
    }

    /// The same of other atoms that are kept.
    fn tried_with(&self, alloc: Global, kept: &Vec<bool>) -> Result<Option<Proved>, AllocError>
        requires fits { PatternFits self.now.pattern.now }
        requires few { length self.now.steps.now ≤ most_steps }
        requires flags { length kept.now.items ≡ length self.now.atoms.items }
        requires atoms { AtomsFit self.now.pattern.now.problem self.now.atoms.items }
        ensures { IfOk result (IsProofBy (assuming self.now.pattern.now.problem (kept_atoms self.now.atoms.items kept.now.items)) self.now.steps.now) }
    {
        let assumed = self.kept_atoms(alloc, kept)?;
        let problem = self.pattern.assuming(alloc, assumed)?;
        proof_by(alloc, problem, self.steps)
    }

    /// The proof that the steps are under the atoms that are kept, with which they are accepted. It
    /// is made already, if the last that were dropped were tried, or just the guess is left.
    fn proof(&mut self, alloc: Global, guess: Option<Guess>) -> Result<Proved, AllocError>
        requires fits { PatternFits self.old.pattern.now }
        requires few { length self.old.steps.now ≤ most_steps }
        requires flags { length self.old.kept.items ≡ length self.old.atoms.items }
        requires atoms { AtomsFit self.old.pattern.now.problem self.old.atoms.items }
        requires last { IsLast self.old.pattern.now.problem self.old.steps.now self.old.atoms.items self.old.kept.items self.old.last }
        requires guess { IfSome guess (IsGuess self.old.pattern.now.problem self.old.steps.now self.old.atoms.items) }
        requires accepted { IsAccepted self.old.pattern.now.problem self.old.steps.now (kept_atoms self.old.atoms.items self.old.kept.items) }
        ensures { IfOk result (λ it. it ≡ record { problem = assuming self.old.pattern.now.problem (kept_atoms self.old.atoms.items self.old.kept.items); steps = self.old.steps.now }) }
    {
        let last = self.last.take();
        if let Some(proof) = last {
            return Ok(proof);
        }
        if let Some(Guess { kept, proof }) = guess {
            if kept == self.kept {
                return Ok(proof);
            }
        }
        let proof = self.tried(alloc)?;
        match proof {
            Some(proof) => Ok(proof),
            None => unreachable!(),
        }
    }

    fn kept_atoms(&self, alloc: Global, kept: &Vec<bool>) -> Result<List<Atom>, AllocError>
        requires { length kept.now.items ≡ length self.now.atoms.items }
        ensures { IfOk result (λ it. it ≡ kept_atoms self.now.atoms.items kept.now.items) }
    {
        let mut all = List::new(alloc);
        for n in 0..self.atoms.len() {
            add_if(alloc, &mut all, &self.atoms[n], kept[n])?;
        }
        Ok(all)
    }
}

fn add_if(alloc: Global, all: &mut List<Atom>, atom: &Atom, kept: bool) -> Result<(), AllocError>
    ensures { OnOk result (all.new ≡ all.old ++ atom_if atom.now kept) }
{
    if kept {
        all.push(atom.copy(alloc)?)?;
    }
    Ok(())
}

/// Whether each that is kept of some is kept of all.
fn are_among(some: &Vec<bool>, all: &Vec<bool>) -> bool
    requires { length some.now.items ≡ length all.now.items }
    ensures { IsTrue result → AreAmong some.now.items all.now.items }
{
    for n in 0..some.len() {
        if some[n] && !all[n] {
            return false;
        }
    }
    true
}
