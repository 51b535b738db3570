//! What is left to do of a round on a branch.
ghost use Rattle.std.specs.Prelude.{◌≡◌, ◌↔◌, ◌++◌, ◌-◌, [], IfOk, IsTrue, OnOk, Some, false, length, option_to_list, slice_get};
ghost use Rattle.ba_kernel.specs.declared.step.Step.{Step as AStep};
ghost use Rattle.ba_instant.specs.Agendas.{EndsOld, IsAgendaOf, IsFirstOf, IsInTurn, IsNewHere, IsNone, IsPast, IsQuietAgenda, IsTrimmed, IsWithoutLast};

use crate::batch::{Batch, is_single};
use crate::scan::NewStep;
use ba_kernel::{Search, Step};
use ba_model::Duplicate;
use ba_settle::{Pick, compare_steps};
use std::alloc::{AllocError, Global};

/// Steps of a round on a branch, those at the end to be picked first. No step of a lesser round
/// that tells the branch something is new, and each new one of this round is listed, but for splits
/// that are picked after the one that is.
///
/// The facts of a number less than `older` are of a lesser round. Where it is `silent`, no step
/// that closes the branch is new.
#[derive(Debug, Drop)]
pub struct Agenda {
    pub round: u64,
    pub older: u32,
    pub silent: bool,
    pub steps: Vec<Step>,
}

impl Agenda {
    /// Nothing: no step that tells a branch something is of round 0.
    pub fn none(alloc: Global) -> Agenda
        ensures { IsNone result }
    {
        Agenda {
            round: 0,
            older: 0,
            silent: false,
            steps: Vec::new(alloc),
        }
    }

    /// Nothing up to the round, if the steps that were found are past it; else nothing.
    pub fn quiet(alloc: Global, round: u64, found: &Option<Batch>) -> Agenda
        ensures { IsQuietAgenda round found.now result }
    {
        if is_past(round, found) {
            Agenda {
                round,
                older: 0,
                silent: false,
                steps: Vec::new(alloc),
            }
        } else {
            Agenda::none(alloc)
        }
    }

    /// The steps of the batch. Nothing is known of the branch beside them.
    pub fn of(pick: Pick, batch: Batch) -> Result<Agenda, AllocError>
        ensures { IfOk result (IsAgendaOf pick batch) }
    {
        let Batch {
            round,
            steps,
            single,
        } = batch;
        let mut steps = steps.into_vec();
        add_single(single, &mut steps)?;
        put_in_turn(pick, &mut steps);
        Ok(Agenda {
            round,
            older: 0,
            silent: false,
            steps,
        })
    }

    /// The step that is picked first, with the round.
    pub fn first(&self, alloc: Global) -> Result<Option<NewStep>, AllocError>
        ensures { IfOk result (IsFirstOf self.now) }
    {
        match self.steps.last() {
            Some(last) => {
                let step = last.copy(alloc)?;
                Ok(Some(NewStep {
                    round: self.round,
                    step,
                }))
            }
            None => Ok(None),
        }
    }

    /// Drops what isn't new any more from the end, up to a step that is.
    pub fn drop_old(&mut self, alloc: Global, search: &Search)
        ensures trimmed { IsTrimmed search.now self.old self.new }
        ensures new { (step : AStep) → slice_get self.new.steps.items
            (length self.new.steps.items - 1) ≡ Some step
            → IsNewHere search.now self.new.round step }
    {
        while self.ends_old(search) {
            self.drop_last(alloc);
        }
    }

    /// Whether there is a last step, and it isn't new in the round.
    fn ends_old(&self, search: &Search) -> bool
        ensures old { IsTrue result → EndsOld search.now self.now }
        ensures new { result ≡ false → (step : AStep)
            → slice_get self.now.steps.items (length self.now.steps.items - 1) ≡ Some step
            → IsNewHere search.now self.now.round step }
    {
        match self.steps.last() {
            Some(step) => !is_new_here(search, self.round, step),
            None => false,
        }
    }

    /// Drops the last step. If it is a split, which may have stood for others, nothing is left.
    fn drop_last(&mut self, alloc: Global)
        ensures { IsWithoutLast self.old self.new }
    {
        match self.steps.pop() {
            Some(step) => {
                if is_single(&step) {
                    *self = Agenda::none(alloc);
                }
            }
            None => (),
        }
    }
}

/// Whether none was found of a round up to this one.
fn is_past(round: u64, found: &Option<Batch>) -> bool
    ensures { IsTrue result ↔ IsPast round found.now }
{
    match found {
        Some(batch) => round < batch.round,
        None => true,
    }
}

fn add_single(single: Option<Step>, steps: &mut Vec<Step>) -> Result<(), AllocError>
    ensures { OnOk result (steps.new.items ≡ steps.old.items ++ option_to_list single) }
{
    match single {
        Some(step) => {
            steps.push(step)?;
            Ok(())
        }
        None => Ok(()),
    }
}

fn is_new_here(search: &Search, round: u64, step: &Step) -> bool
    ensures { IsTrue result ↔ IsNewHere search.now round step.now }
{
    match search.new_round(step) {
        Some(its) => its == round,
        None => false,
    }
}

/// Sorts the steps, those that are picked first to the end.
fn put_in_turn(pick: Pick, steps: &mut Vec<Step>)
    ensures { IsInTurn pick steps.old.items steps.new.items }
{
    match pick {
        Pick::First => steps.sort_unstable_by(|one, other| compare_steps(other, one)),
        Pick::Last => steps.sort_unstable_by(|one, other| compare_steps(one, other)),
    }
}
