//! The new steps of the least round that were found so far.
ghost use Rattle.std.specs.Prelude.{◌≡◌, ◌↔◌, IfOk, IsTrue, OnOk, Some};
ghost use Rattle.std.specs.Ordering.{nat_cmp};
ghost use Rattle.ba_instant.specs.Scans.{IsBehind, IsTimely};
ghost use Rattle.ba_instant.specs.Offers.{HasSooner, Reaches, batch_of, empty_batch, first_single, is_single, with_found, with_found_by, with_step};

use crate::scan::NewStep;
use ba_kernel::Step;
use ba_model::List;
use ba_settle::Pick;
use std::alloc::{AllocError, Global};
use std::cmp::Ordering;

/// New steps of one round. Of splits and of steps that close the branch it has only the one that is
/// picked first.
#[derive(Debug, Drop)]
pub struct Batch {
    pub round: u64,
    pub steps: List<Step>,
    pub single: Option<Step>,
}

impl Batch {
    fn empty(alloc: Global, round: u64) -> Batch
        ensures { result ≡ empty_batch round }
    {
        Batch {
            round,
            steps: List::new(alloc),
            single: None,
        }
    }

    /// The step alone.
    fn of(alloc: Global, pick: Pick, found: NewStep) -> Result<Batch, AllocError>
        ensures { IfOk result (λ it. it ≡ batch_of pick found) }
    {
        let mut batch = Batch::empty(alloc, found.round);
        batch.add(pick, found.step)?;
        Ok(batch)
    }

    /// Adds a step of the batch's round.
    fn add(&mut self, pick: Pick, step: Step) -> Result<(), AllocError>
        ensures { OnOk result (self.new ≡ with_step pick self.old step) }
    {
        if is_single(&step) {
            keep_single(pick, step, &mut self.single);
            Ok(())
        } else {
            self.steps.push(step)?;
            Ok(())
        }
    }

    /// Keeps the step if it is of the same round, and the step alone if it is of a lesser one.
    fn keep(&mut self, alloc: Global, pick: Pick, found: NewStep) -> Result<(), AllocError>
        ensures { OnOk result
            (self.new ≡ with_found_by (nat_cmp found.round self.old.round) pick self.old found) }
    {
        match found.round.cmp(&self.round) {
            Ordering::Less => {
                *self = Batch::of(alloc, pick, found)?;
                Ok(())
            }
            Ordering::Equal => self.add(pick, found.step),
            Ordering::Greater => Ok(()),
        }
    }

    /// Whether the step of the round, or of a later one, needn't be looked at.
    fn has_passed(&self, pick: Pick, round: u64, step: &Step) -> bool
        ensures { IsTrue result
            → Reaches pick (Some self.now) (record { round = round; step = step.now }) }
    {
        self.round < round || (self.round == round && self.leads(pick, step))
    }

    /// Whether the step is single and isn't picked before the single one.
    fn leads(&self, pick: Pick, step: &Step) -> bool
        ensures { IsTrue result
            → (IsTrue (is_single step.now) × HasSooner pick self.now.single step.now) }
    {
        is_single(step) && is_led(pick, &self.single, step)
    }
}

fn is_led(pick: Pick, single: &Option<Step>, step: &Step) -> bool
    ensures { IsTrue result → HasSooner pick single.now step.now }
{
    match single {
        Some(first) => pick.compare(first, step) != Ordering::Greater,
        None => false,
    }
}

/// Keeps the one of the two that is picked first.
fn keep_single(pick: Pick, step: Step, single: &mut Option<Step>)
    ensures { single.new ≡ first_single pick single.old step }
{
    let is_first = match single {
        Some(old) => pick.compare(old, &step) == Ordering::Greater,
        None => true,
    };
    if is_first {
        *single = Some(step);
    }
}

/// Whether the step is a split or closes its branch.
pub fn is_single(step: &Step) -> bool
    ensures { result ≡ is_single step.now }
{
    match step {
        Step::Entry { .. } => false,
        Step::Key { .. } => false,
        Step::Link { .. } => false,
        Step::Rule { .. } => false,
        Step::View { .. } => false,
        Step::Split { .. } => true,
        Step::Absurd { .. } => true,
        Step::Goal { .. } => true,
    }
}

/// Keeps the step with those that were found, if it is of the least round.
pub fn keep_found(
    alloc: Global,
    pick: Pick,
    found: NewStep,
    best: &mut Option<Batch>,
) -> Result<(), AllocError>
    ensures { OnOk result (best.new ≡ with_found pick best.old found) }
{
    match best {
        Some(batch) => batch.keep(alloc, pick, found),
        None => {
            *best = Some(Batch::of(alloc, pick, found)?);
            Ok(())
        }
    }
}

/// Whether the step of the round, or of a later one, needn't be looked at: it is of a later round
/// than those that were found, or is single and another isn't picked after it.
pub fn is_passed(pick: Pick, best: &Option<Batch>, round: u64, step: &Step) -> bool
    ensures { IsTrue result → Reaches pick best.now (record { round = round; step = step.now }) }
{
    match best {
        Some(batch) => batch.has_passed(pick, round, step),
        None => false,
    }
}

/// Whether one that closes the branch was found that isn't picked after the step.
pub fn is_behind(pick: Pick, best: &Option<Batch>, step: &Step) -> bool
    ensures { IsTrue result → IsBehind pick best.now step.now }
{
    match best {
        Some(batch) => batch.round == 0 && is_led(pick, &batch.single, step),
        None => false,
    }
}

/// Whether a step whose round is more than this may be of no later round than those that were
/// found.
pub fn is_timely(round: u32, best: &Option<Batch>) -> bool
    ensures { IsTrue result ↔ IsTimely round best.now }
{
    match best {
        Some(batch) => u64::from(round) < batch.round,
        None => true,
    }
}
