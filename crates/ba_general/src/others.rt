//! The other steps, where some that follow one another are left out.
ghost use Rattle.std.specs.Prelude.{◌≡◌, ◌<◌, ◌≤◌, ◌++◌, [], IfOk, OnOk, None, Some, length, replicate, slice_set, take};
ghost use Rattle.ba_general.specs.Leaving.{IsGone, IsMovedBy, IsNext, IsTaken, IsWithout, MaybeIs, gap_on, longer, longer_span};

use crate::gap::{Gap, Span};
use crate::layout::sum;
use crate::making::Made;
use ba_kernel::Step;
use ba_model::{Duplicate, List};
use std::alloc::{AllocError, Global};

/// Steps, and what each makes.
#[derive(Drop)]
pub struct Taken {
    pub steps: List<Step>,
    pub made: Vec<Made>,
}

impl Taken {
    /// The steps without those from one number up to another: the later ones get the numbers that
    /// their facts and unknowns have without those of the missing steps. None where a missing step
    /// makes no case or several, or a later one names what a missing one makes.
    pub fn without(
        &self,
        alloc: Global,
        first: usize,
        end: usize,
    ) -> Result<Option<List<Step>>, AllocError>
        requires there { first < length self.now.steps }
        requires made { length self.now.made.items ≡ length self.now.steps }
        ensures { IfOk result (MaybeIs (IsWithout self.now.steps self.now.made.items first end)) }
    {
        let mut others = Others::new(alloc, self.made[first].before)?;
        for n in first..self.steps.len() {
            let left = end.saturating_sub(n);
            let told = others.next(alloc, self.steps.get(n), &self.made[n], left)?;
            if !told {
                return Ok(None);
            }
        }
        let front = front(alloc, &self.steps, first)?;
        Ok(Some(joined(front, others.moved)?))
    }
}

/// The first steps.
fn front(alloc: Global, steps: &List<Step>, count: usize) -> Result<List<Step>, AllocError>
    requires { count ≤ length steps.now }
    ensures { IfOk result (λ it. it ≡ take count steps.now) }
{
    let mut all = List::from_vec(Vec::with_capacity(alloc, steps.len())?);
    for step in &steps.as_slice()[..count] {
        all.push(step.copy(alloc)?)?;
    }
    Ok(all)
}

fn joined(front: List<Step>, behind: List<Step>) -> Result<List<Step>, AllocError>
    ensures { IfOk result (λ it. it ≡ front ++ behind) }
{
    let mut all = front;
    for step in behind.into_vec() {
        all.push(step)?;
    }
    Ok(all)
}

/// What is missing on each branch, and the steps that stay.
#[derive(Drop)]
struct Others {
    gaps: Vec<Option<Gap>>,
    moved: List<Step>,
}

impl Others {
    /// Nothing is missing on so many branches.
    fn new(alloc: Global, branches: usize) -> Result<Others, AllocError>
        ensures gaps { IfOk result (λ it. it.gaps.items ≡ replicate branches None) }
        ensures moved { IfOk result (λ it. it.moved ≡ []) }
    {
        let mut gaps = Vec::new(alloc);
        add_gaps(&mut gaps, branches, None)?;
        Ok(Others {
            gaps,
            moved: List::new(alloc),
        })
    }

    /// Goes on to the next step, where so many are still to be left out. Not told where it can't be
    /// left out, or names what is missing.
    fn next(
        &mut self,
        alloc: Global,
        step: &Step,
        made: &Made,
        left: usize,
    ) -> Result<bool, AllocError>
        ensures { IfOk result (IsNext left self.old.gaps.items self.old.moved step.now made.now self.new.gaps.items self.new.moved) }
    {
        if left != 0 {
            return self.leave(step.branch(), made.gap);
        }
        self.take(alloc, step, made)
    }

    /// Leaves a step out that makes this gap; not told where it makes none.
    fn leave(&mut self, branch: u32, gap: Option<Gap>) -> Result<bool, AllocError>
        ensures gaps { IfOk result (IsGone self.old.gaps.items branch gap self.new.gaps.items) }
        ensures moved { self.new.moved ≡ self.old.moved }
    {
        let Some(gap) = gap else {
            return Ok(false);
        };
        let gap = longer(self.gap_on(branch), gap)?;
        self.set(branch, gap);
        Ok(true)
    }

    /// Takes a step that stays; not told where it names what is missing.
    fn take(&mut self, alloc: Global, step: &Step, made: &Made) -> Result<bool, AllocError>
        ensures { IfOk result (IsTaken self.old.gaps.items self.old.moved step.now made.now self.new.gaps.items self.new.moved) }
    {
        let gap = self.gap_on(step.branch());
        let moved = moved(alloc, gap, step)?;
        let Some(moved) = moved else {
            return Ok(false);
        };
        self.moved.push(moved)?;
        add_gaps(&mut self.gaps, made.after.saturating_sub(made.before), gap)?;
        Ok(true)
    }

    /// What is missing on the branch.
    fn gap_on(&self, branch: u32) -> Option<Gap>
        ensures { result ≡ gap_on self.now.gaps.items branch }
    {
        match self.gaps.get(branch as usize) {
            Some(gap) => *gap,
            None => None,
        }
    }

    fn set(&mut self, branch: u32, gap: Gap)
        ensures gaps { self.new.gaps.items ≡ slice_set self.old.gaps.items branch (Some gap) }
        ensures moved { self.new.moved ≡ self.old.moved }
    {
        if let Some(place) = self.gaps.get_mut(branch as usize) {
            *place = Some(gap);
        }
    }
}

/// What is missing on the branches that a step makes is what is missing on its own.
fn add_gaps(gaps: &mut Vec<Option<Gap>>, count: usize, gap: Option<Gap>) -> Result<(), AllocError>
    ensures { OnOk result (gaps.new.items ≡ gaps.old.items ++ replicate count gap) }
{
    for _ in 0..count {
        gaps.push(gap)?;
    }
    Ok(())
}

/// The step as it is without what is missing.
fn moved(alloc: Global, gap: Option<Gap>, step: &Step) -> Result<Option<Step>, AllocError>
    ensures { IfOk result (MaybeIs (IsMovedBy gap step.now)) }
{
    match gap {
        Some(gap) => gap.step(alloc, step),
        None => Ok(Some(step.copy(alloc)?)),
    }
}

/// What is missing of a branch once more facts and unknowns are, those that follow.
fn longer(old: Option<Gap>, gap: Gap) -> Result<Gap, AllocError>
    ensures { IfOk result (λ it. it ≡ longer old gap) }
{
    let Some(old) = old else {
        return Ok(gap);
    };
    Ok(Gap {
        facts: longer_span(old.facts, gap.facts)?,
        unknowns: longer_span(old.unknowns, gap.unknowns)?,
    })
}

fn longer_span(old: Span, more: Span) -> Result<Span, AllocError>
    ensures { IfOk result (λ it. it ≡ longer_span old more) }
{
    let count = sum(old.count, more.count)?;
    Ok(Span {
        first: old.first,
        count,
    })
}
