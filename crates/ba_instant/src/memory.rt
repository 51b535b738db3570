//! What is remembered of each branch of a search.
ghost use Rattle.std.specs.Prelude.{◌≡◌, ◌<◌, IfOk, OnOk, Some, length, slice_get};
ghost use Rattle.ba_facts.specs.declared.branch.Branch.{Branch as ABranch};
ghost use Rattle.ba_kernel.specs.Courses.{IsOpen, branch_of};
ghost use Rattle.ba_instant.specs.ToldSteps.{AreRemembered, AreTold, IsMoved, StaysTold, on_branch};

use crate::told::Told;
use ba_kernel::{Search, Step};
use ba_model::Duplicate;
use std::alloc::{AllocError, Global};
use std::mem;

/// Of each branch of a search, by number, the steps that are told there.
#[derive(Drop)]
pub struct Memory {
    pub each: Vec<Told>,
}

impl Memory {
    /// Of each branch nothing.
    pub fn none(alloc: Global, search: &Search) -> Result<Memory, AllocError>
        ensures { IfOk result (AreRemembered search.now) }
    {
        let mut each = Vec::new(alloc);
        for _number in 0..search.branches() {
            each.push(Told::none(alloc))?;
        }
        Ok(Memory { each })
    }

    /// What is told on the branch.
    pub fn of(&self, number: u32) -> &Told
        requires { number < length self.now.each.items }
        ensures { slice_get self.now.each.items number ≡ Some result.now }
    {
        &self.each[number as usize]
    }

    /// Moves on with the search, which took the step: what was told on its branch is told on those
    /// that come of it.
    pub fn move_on(&mut self, alloc: Global, then: &Search, step: &Step) -> Result<(), AllocError>
        requires { IsMoved then.now step.now self.old }
        ensures { OnOk result (AreRemembered then.now self.new) }
    {
        let own = step.branch() as usize;
        let told = mem::replace(&mut self.each[own], Told::none(alloc));
        for number in self.each.len()..then.branches() as usize {
            let copy = told.copy(alloc)?;
            let further = told_after(alloc, then, step, number as u32, copy)?;
            self.each.push(further)?;
        }
        let first = told_after(alloc, then, step, step.branch(), told)?;
        self.each[own] = first;
        Ok(())
    }
}

/// What is told on a branch that comes of the step: what was told before it, and the step, where it
/// isn't new any more. Of a closed one nothing is kept.
fn told_after(
    alloc: Global,
    then: &Search,
    step: &Step,
    number: u32,
    told: Told,
) -> Result<Told, AllocError>
    requires { (b : ABranch) → IsOpen then.now.slots number b
        → StaysTold then.now.problem b step.now told }
    ensures { IfOk result (λ it. (b : ABranch) → IsOpen then.now.slots number b
        → AreTold then.now.problem b it) }
{
    if then.branch(number).is_none() {
        return Ok(Told::none(alloc));
    }
    let mut left = told;
    let here = on_branch(alloc, step, number)?;
    match here {
        Some(here) => {
            add_told(alloc, then, here, &mut left)?;
            Ok(left)
        }
        None => Ok(left),
    }
}

/// Remembers the step, if it isn't new.
fn add_told(alloc: Global, then: &Search, here: Step, told: &mut Told) -> Result<(), AllocError>
    requires { (b : ABranch) → IsOpen then.now.slots (branch_of here) b
        → StaysTold then.now.problem b here told.old }
    ensures { OnOk result ((b : ABranch) → IsOpen then.now.slots (branch_of here) b
        → AreTold then.now.problem b told.new) }
{
    if then.is_new(&here) {
        return Ok(());
    }
    told.add(alloc, here)
}

/// The step on the branch of the number, if it is by an entry, a link, a rule or a view.
fn on_branch(alloc: Global, step: &Step, number: u32) -> Result<Option<Step>, AllocError>
    ensures { IfOk result (λ it. it ≡ on_branch number step.now) }
{
    match step {
        Step::Entry { entry, .. } => Ok(Some(Step::Entry {
            branch: number,
            entry: *entry,
        })),
        Step::Link { link, fact, .. } => Ok(Some(Step::Link {
            branch: number,
            link: *link,
            fact: *fact,
        })),
        Step::Rule {
            rule,
            part,
            facts,
            ..
        } => {
            let facts = facts.copy(alloc)?;
            Ok(Some(Step::Rule {
                branch: number,
                rule: *rule,
                part: *part,
                facts,
            }))
        }
        Step::View {
            view,
            part,
            facts,
            ..
        } => {
            let facts = facts.copy(alloc)?;
            Ok(Some(Step::View {
                branch: number,
                view: *view,
                part: *part,
                facts,
            }))
        }
        _ => Ok(None),
    }
}
