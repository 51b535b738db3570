//! What is looked at on a branch, and the steps that are looked for.
ghost use Rattle.std.specs.Prelude.{◌≡◌, ◌≤◌, ℕ, OnOk};
ghost use Rattle.ba_instant.specs.Offers.{IsNewIn, IsRoundIn};
ghost use Rattle.ba_instant.specs.Scans.{ImprovesBy};

use crate::batch::{Batch, is_passed, keep_found};
use crate::told::Told;
use ba_facts::Branch;
use ba_kernel::{Search, Step};
use ba_settle::Pick;
use std::alloc::{AllocError, Global};

/// A new step and its round.
#[derive(Debug, Drop)]
pub struct NewStep {
    pub round: u64,
    pub step: Step,
}

/// An open branch of a search, by number, and which of its due steps is looked for.
///
/// No step that tells the branch something is new there whose round is at most `quiet`. The facts
/// of that round or a later one are `recent`, by number. Those that are `told` tell it nothing.
#[derive(Clone, Copy)]
pub struct Scan<'a> {
    pub alloc: Global,
    pub search: &'a Search,
    pub branch: &'a Branch,
    pub number: u32,
    pub pick: Pick,
    pub quiet: u32,
    pub recent: &'a [u32],
    pub told: &'a Told,
}

impl<'a> Scan<'a> {
    /// Keeps the step with those that were found, if it is new and of no later round.
    pub fn offer(&self, step: Step, best: &mut Option<Batch>) -> Result<(), AllocError>
        ensures { OnOk result (ImprovesBy self.now (λ it. it ≡ step) best.old best.new) }
    {
        match self.search.new_round(&step) {
            Some(round) => {
                keep_found(self.alloc, self.pick, NewStep { round, step }, best)?;
                Ok(())
            }
            None => Ok(()),
        }
    }

    /// The same of a step whose round is at least so much if it is new. It isn't looked at where
    /// that is too late.
    pub fn offer_late(
        &self,
        least: u64,
        step: Step,
        best: &mut Option<Batch>,
    ) -> Result<(), AllocError>
        requires { (round : ℕ) → IsNewIn self.now.search.now step
            → IsRoundIn self.now.search.now step round → least ≤ round }
        ensures { OnOk result (ImprovesBy self.now (λ it. it ≡ step) best.old best.new) }
    {
        if is_passed(self.pick, best, least, &step) {
            return Ok(());
        }
        self.offer(step, best)
    }

    /// The same of a step of this round.
    pub fn offer_at(
        &self,
        round: u64,
        step: Step,
        best: &mut Option<Batch>,
    ) -> Result<(), AllocError>
        requires { IsRoundIn self.now.search.now step round }
        ensures { OnOk result (ImprovesBy self.now (λ it. it ≡ step) best.old best.new) }
    {
        self.offer_late(round, step, best)
    }
}
