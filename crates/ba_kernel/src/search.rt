ghost use Rattle.std.specs.Prelude.{◌≡◌, ◌≢◌, ◌∷◌, ◌++◌, ◌<◌, ◌^◌, ◌↔◌, [], length, map, IfOk, IfErr, IsOk, IsTrue, OnOk, OnErr, Some, None, if◌then◌else◌, ◌==◌, slice_set};
ghost use Rattle.std.specs.Option.{option_copied};
ghost use Rattle.ba_model.specs.Limits.{most_steps};
ghost use Rattle.ba_kernel.specs.Courses.{AllClosed, IsStart, ProblemFits, Takes, after, branch_of};
ghost use Rattle.ba_kernel.specs.News.{IsNewAt, IsNewRound};
ghost use Rattle.ba_kernel.specs.Spares.{IsLastOn, IsSpare};
ghost use Rattle.ba_kernel.specs.SearchStates.{IsCourse, IsErrorOf, IsPassed, IsLed, IsTidy, LeadsAt, PassesAt, first_case, open_at, other_cases};

use crate::cases::{again, cases_of, closes};
use crate::laws::runs_are_tidy;
use crate::news::new_round;
use crate::passes::tested;
use crate::problem::Problem;
use crate::proved::Proved;
use crate::start::start_branches;
use crate::step::{Step, StepFault};
use ba_facts::Branch;
use ba_model::{Failure, List, Owned};
use std::alloc::{AllocError, Global};
use std::marker::Model;
use std::mem;

/// A derivation that is going on: a problem, the steps that were accepted, and the branches that
/// are still open, by number.
///
/// Whatever two databases and row break the strong compliance of an instance of the problem, they
/// fit one of the open branches: the type keeps that its steps are accepted from the problem's
/// start, and each accepted step is sound ([`crate::laws::runs_are_sound`]).
#[derive(Drop)]
pub struct Search {
    problem: Problem,
    steps: List<Step>,
    slots: Vec<Option<Owned<Branch>>>,
    /// The branch of the last step from before it, if the step made one case of it. The next step
    /// on that branch is made of it, after the last one, so that nothing is copied.
    before: Option<Owned<Branch>>,
}

impl Model for Search {
    ghost use Rattle.ba_kernel.specs.Spares.{IsSpare};
    ghost use Rattle.ba_kernel.specs.SearchStates.{Course, IsCourse};

    ghost Value = { Course };

    ghost view = { λ s. record { problem = s.problem; steps = s.steps; slots = s.slots.items } };

    ghost invariant = { λ s.
        IsCourse (record { problem = s.problem; steps = s.steps; slots = s.slots.items }) ×
        IsSpare (record { problem = s.problem; steps = s.steps; slots = s.slots.items })
        s.before };
}

impl Search {
    /// The start of a problem's derivation: for each part of the goal a branch, in which the part
    /// gives the goal row on side One and what is assumed is true. It takes no memory where the
    /// goal has no part.
    pub fn start(alloc: Global, problem: Problem) -> Result<Search, AllocError>
        requires { ProblemFits problem }
        ensures problem { IfOk result (λ it. it.problem ≡ problem) }
        ensures steps { IfOk result (λ it. it.steps ≡ []) }
        ensures slots { IfOk result (λ it. IsStart problem it.slots) }
        ensures err { IfErr result (λ _. problem.goal.parts ≢ []) }
    {
        let slots = start_branches(alloc, &problem)?;
        Ok(Search {
            problem,
            steps: List::new(alloc),
            slots,
            before: None,
        })
    }

    /// Takes a step, if it passes its tests.
    ///
    /// The cases that it leads to take the branch's place: the first keeps its number, and the
    /// others get the next ones. Else `Fault` says which test fails first. `NoMemory` may come in
    /// place of the cases, and never of a fault: it is told of a step that passes its tests alone.
    /// After either the search is as before, and the step is dropped.
    pub fn apply(&mut self, alloc: Global, step: Step) -> Result<(), Failure<StepFault>>
        requires { length self.old.steps < most_steps }
        ensures taken { OnOk result (Takes self.old.problem self.old.slots step self.new.slots) }
        ensures steps { OnOk result (self.new.steps ≡ self.old.steps ++ step ∷ []) }
        ensures problem { OnOk result (self.new.problem ≡ self.old.problem) }
        ensures fault { IfErr result (IsErrorOf self.old step) }
        ensures err { OnErr result (self.new ≡ self.old) }
    {
        self.test(&step)?;
        self.take(alloc, step)?;
        Ok(())
    }

    /// The search after a step, if it passes its tests: the same as by [`Search::apply`], but the
    /// step's branch isn't kept, so that nothing is copied. Where it fails the search is let go.
    pub fn go_on(self, alloc: Global, step: Step) -> Result<Search, Failure<StepFault>>
        requires { length self.steps < most_steps }
        ensures taken { IfOk result (λ it. Takes self.problem self.slots step it.slots) }
        ensures steps { IfOk result (λ it. it.steps ≡ self.steps ++ step ∷ []) }
        ensures problem { IfOk result (λ it. it.problem ≡ self.problem) }
        ensures fault { IfErr result (IsErrorOf self step) }
    {
        self.test(&step)?;
        let next = self.moved(alloc, step)?;
        Ok(next)
    }

    /// The same of a step that passes its tests, which aren't made again: a new step is one.
    pub fn moved(self, alloc: Global, step: Step) -> Result<Search, AllocError>
        requires few { length self.steps < most_steps }
        requires passes { IsPassed self step }
        ensures taken { IfOk result (λ it. Takes self.problem self.slots step it.slots) }
        ensures steps { IfOk result (λ it. it.steps ≡ self.steps ++ step ∷ []) }
        ensures problem { IfOk result (λ it. it.problem ≡ self.problem) }
    {
        runs_are_tidy();
        let problem = self.problem;
        let mut steps = self.steps;
        let mut slots = self.slots;
        let branch = take_branch(&mut slots, step.branch() as usize);
        let cases = cases_on(alloc, &problem, branch, &step)?;
        add_step(alloc, &mut slots, &mut steps, step, cases)?;
        Ok(Search {
            problem,
            steps,
            slots,
            before: None,
        })
    }

    /// Takes a step that passes its tests, which aren't made again: a new step is one.
    ///
    /// The cases that it leads to take the branch's place: the first keeps its number, and the
    /// others get the next ones. Without memory the search is as before, and the step is dropped.
    pub fn take(&mut self, alloc: Global, step: Step) -> Result<(), AllocError>
        requires few { length self.old.steps < most_steps }
        requires passes { IsPassed self.old step }
        ensures taken { OnOk result (Takes self.old.problem self.old.slots step self.new.slots) }
        ensures steps { OnOk result (self.new.steps ≡ self.old.steps ++ step ∷ []) }
        ensures problem { OnOk result (self.new.problem ≡ self.old.problem) }
        ensures err { OnErr result (self.new ≡ self.old) }
    {
        let cases = self.cases(alloc, &step)?;
        self.put(alloc, step, cases)
    }

    // Whether a step passes its tests on an open branch.
    fn test(&self, step: &Step) -> Result<(), Failure<StepFault>>
        ensures passed { IfOk result (λ _. IsPassed self.now step.now) }
        ensures err { IfErr result (IsErrorOf self.now step.now) }
    {
        runs_are_tidy();
        match self.branch(step.branch()) {
            Some(branch) => match tested(&self.problem, branch, step) {
                Ok(()) => Ok(()),
                Err(fault) => Err(Failure::Fault(fault)),
            },
            None => Err(Failure::Fault(StepFault::NoBranch)),
        }
    }

    // The cases that a step leads to, which passes its tests.
    fn cases(&mut self, alloc: Global, step: &Step) -> Result<Vec<Owned<Branch>>, AllocError>
        requires { IsPassed self.old step.now }
        ensures ok { IfOk result (λ cases. IsLed self.old step.now cases.items) }
        ensures same { self.new ≡ self.old }
    {
        runs_are_tidy();
        if closes(step) {
            return Ok(Vec::new(alloc));
        }
        let branch = self.base(alloc, step.branch())?;
        cases_of(alloc, &self.problem, branch, step)
    }

    // The branch of a number, which is open: as it was before the last step, brought up to it, or
    // else a copy.
    fn base(&mut self, alloc: Global, number: u32) -> Result<Owned<Branch>, AllocError>
        requires { (b : Branch) × (open_at self.old.slots number ≡ Some b) }
        ensures branch { IfOk result (λ branch. open_at self.old.slots number ≡ Some branch) }
        ensures same { self.new ≡ self.old }
    {
        if let Some(branch) = self.spare(alloc, number)? {
            return Ok(branch);
        }
        match self.branch(number) {
            Some(branch) => branch.owned_copy(alloc),
            None => unreachable!(),
        }
    }

    // The branch of a number, if it is kept from before the last step.
    fn spare(&mut self, alloc: Global, number: u32) -> Result<Option<Owned<Branch>>, AllocError>
        ensures spare { IfOk result (λ spare. (b : Branch) →
            spare ≡ Some b → open_at self.old.slots number ≡ Some b) }
        ensures same { self.new ≡ self.old }
    {
        let before = self.before.take();
        self.brought_up(alloc, number, before)
    }

    // What is kept from before the last step, brought up to it, if that was on the branch of the
    // number.
    fn brought_up(
        &self,
        alloc: Global,
        number: u32,
        before: Option<Owned<Branch>>,
    ) -> Result<Option<Owned<Branch>>, AllocError>
        requires { IsSpare self.now before }
        ensures { IfOk result (λ spare. (b : Branch) →
            spare ≡ Some b → open_at self.now.slots number ≡ Some b) }
    {
        let Some(old) = before else {
            return Ok(None);
        };
        let Some(step) = self.last_on(number) else {
            return Ok(None);
        };
        again(alloc, &self.problem, old, step)
    }

    // The last step, if it was on the branch of the number.
    fn last_on(&self, number: u32) -> Option<&Step>
        ensures { IsLastOn self.now number (option_copied result) }
    {
        match self.steps.as_slice().last() {
            Some(step) => {
                if step.branch() == number {
                    Some(step)
                } else {
                    None
                }
            }
            None => None,
        }
    }

    // Puts the cases that a step leads to in its branch's place. Without memory nothing changes.
    fn put(
        &mut self,
        alloc: Global,
        step: Step,
        cases: Vec<Owned<Branch>>,
    ) -> Result<(), AllocError>
        requires few { length self.old.steps < most_steps }
        requires leads { IsLed self.old step cases.items }
        ensures slots { OnOk result
            (self.new.slots ≡ after self.old.slots (branch_of step) cases.items) }
        ensures steps { OnOk result (self.new.steps ≡ self.old.steps ++ step ∷ []) }
        ensures problem { OnOk result (self.new.problem ≡ self.old.problem) }
        ensures err { OnErr result (self.new ≡ self.old) }
    {
        runs_are_tidy();
        let count = cases.len();
        let old = add_step(alloc, &mut self.slots, &mut self.steps, step, cases)?;
        keep(&mut self.before, count, old);
        Ok(())
    }

    // Whether no branch is open.
    fn is_closed(&self) -> bool
        ensures { IsTrue result ↔ AllClosed self.now.slots }
    {
        self.slots.iter().all(|slot| slot.is_none())
    }

    /// How many numbers were given to branches, of which some may be closed.
    pub fn branches(&self) -> u32
        ensures { result ≡ length self.now.slots }
    {
        self.slots.len() as u32
    }

    /// The branch of a number, if it is open.
    #[inline(always)]
    pub fn branch(&self, number: u32) -> Option<&Branch>
        ensures { option_copied result ≡ open_at self.now.slots number }
    {
        match self.slots.get(number as usize) {
            Some(Some(branch)) => Some(branch),
            _ => None,
        }
    }

    /// The problem. It fits.
    pub fn problem(&self) -> &Problem
        ensures is { result.now ≡ self.now.problem }
        ensures fits { ProblemFits result.now }
    {
        &self.problem
    }

    /// The problem alone; the steps and the branches are let go.
    pub fn into_problem(self) -> Problem
        ensures is { result ≡ self.problem }
        ensures fits { ProblemFits result }
    {
        self.problem
    }

    /// The steps that were accepted, the first one first. They are at most
    /// [`ba_model::MAX_STEPS`], and leave these
    /// branches.
    pub fn steps(&self) -> &List<Step>
        ensures is { result.now ≡ self.now.steps }
        ensures course { IsCourse self.now }
    {
        &self.steps
    }

    /// What the steps prove, if they leave no branch open; else the search as it was. They are
    /// accepted from the problem's start, and leave these branches.
    pub fn close(self) -> Result<Proved, Search>
        ensures exact { IsOk result ↔ AllClosed self.slots }
        ensures course { IsCourse self }
        ensures proved { IfOk result (λ it.
            it ≡ record { problem = self.problem; steps = self.steps }) }
        ensures err { IfErr result (λ it. it ≡ self) }
    {
        if !self.is_closed() {
            return Err(self);
        }
        Ok(Proved::of_closed(self.problem, self.steps, self.slots))
    }

    /// The round of the step, if it is new: its branch is open, it passes its tests, and it tells
    /// the branch what isn't there yet.
    pub fn new_round(&self, step: &Step) -> Option<u64>
        ensures { IsNewRound self.now.problem (open_at self.now.slots (branch_of step.now))
            step.now result }
    {
        runs_are_tidy();
        match self.branch(step.branch()) {
            Some(branch) => new_round(&self.problem, branch, step),
            None => None,
        }
    }

    /// Whether the step is new: its branch is open, it passes its tests, and it tells the branch
    /// what isn't there yet.
    pub fn is_new(&self, step: &Step) -> bool
        ensures { IsTrue result
            ↔ IsNewAt self.now.problem (open_at self.now.slots (branch_of step.now)) step.now }
    {
        self.new_round(step).is_some()
    }
}

// Takes the branch of the number away, which is open no more.
#[inline(always)]
fn take_branch(slots: &mut Vec<Option<Owned<Branch>>>, number: usize) -> Option<Owned<Branch>>
    requires { number < length slots.old.items }
    ensures branch { result ≡ open_at slots.old.items number }
    ensures slots { slots.new.items ≡ slice_set slots.old.items number None }
{
    slots[number].take()
}

// The cases that a step leads to on the branch, where it passes its tests.
#[inline(always)]
fn cases_on(
    alloc: Global,
    problem: &Problem,
    branch: Option<Owned<Branch>>,
    step: &Step,
) -> Result<Vec<Owned<Branch>>, AllocError>
    requires fits { ProblemFits problem.now }
    requires tidy { (b : Branch) → branch ≡ Some b → IsTidy problem.now b }
    requires passes { PassesAt problem.now branch step.now }
    ensures { IfOk result (λ cases. LeadsAt problem.now branch step.now cases.items) }
{
    match branch {
        Some(branch) => cases_of(alloc, problem, branch, step),
        None => unreachable!(),
    }
}

// The first case, and the others as open branches.
#[inline(always)]
fn first_and_others(
    alloc: Global,
    cases: Vec<Owned<Branch>>,
) -> Result<(Option<Owned<Branch>>, Vec<Option<Owned<Branch>>>), AllocError>
    ensures { IfOk result (λ two.
        (two.0 ≡ first_case cases.items) × (two.1.items ≡ other_cases cases.items)) }
{
    let mut rest = cases.into_iter();
    let first = rest.next();
    let others = rest.map(Some).collect(alloc)?;
    Ok((first, others))
}

// Puts the cases in the place of the step's branch, which it gives, and adds the step. Without
// memory neither changes.
fn add_step(
    alloc: Global,
    slots: &mut Vec<Option<Owned<Branch>>>,
    steps: &mut List<Step>,
    step: Step,
    cases: Vec<Owned<Branch>>,
) -> Result<Option<Owned<Branch>>, AllocError>
    requires { branch_of step < length slots.old.items }
    ensures old { IfOk result (λ old. old ≡ open_at slots.old.items (branch_of step)) }
    ensures slots { OnOk result
        (slots.new.items ≡ after slots.old.items (branch_of step) cases.items) }
    ensures steps { OnOk result (steps.new ≡ steps.old ++ step ∷ []) }
    ensures err { OnErr result ((slots.new.items ≡ slots.old.items) × (steps.new ≡ steps.old)) }
{
    let number = step.branch() as usize;
    let count = slots.len();
    let (first, mut others) = first_and_others(alloc, cases)?;
    slots.append(&mut others)?;
    match steps.push(step) {
        Ok(()) => Ok(mem::replace(&mut slots[number], first)),
        Err(error) => {
            slots.truncate(count);
            Err(error)
        }
    }
}

// Keeps what a branch was, if one case was made of it.
fn keep(before: &mut Option<Owned<Branch>>, cases: usize, old: Option<Owned<Branch>>)
    ensures { before.new ≡ if cases == 1 then old else None }
{
    *before = if cases == 1 { old } else { None };
}
