//! The work of each lane: split off, done beside the others' and joined.
ghost use Rattle.std.specs.Prelude.{◌≡◌, ℕ, ◌+◌, ◌<◌, List, length, slice_index_or, IfOk};
ghost use Rattle.ba_input.specs.Inputs.{IsInput};
ghost use Rattle.ba_session.specs.Passing.{AreOf};
ghost use Rattle.ba_lanes.specs.Legal.{Load};
ghost use Rattle.ba_lanes.specs.Serving.{HaveDealt, IsDone, IsReady, SeeLoads, lines_in};
ghost use Rattle.ba_lanes.specs.Working.{AreGathered, AreMerged, AreSplitOff, IsWork};

use crate::journal::Entry;
use crate::lane::Lane;
use crate::share::{Share, lane_of, requests_in};
use ba_input::Input;
use ba_outside::Gate;
use ba_session::{Passes, Service};
use ba_settle::Settle;
use ba_workers::Job;
use std::alloc::{AllocError, Global};
use std::collections::VecDeque;
use std::sync::Wait;

/// What a worker has: what it shares with the others, and a lane of its own.
#[derive(Drop)]
pub(crate) struct Work<'a, R: Wait, S: Settle> {
    pub(crate) rt: &'a R,
    pub(crate) alloc: Global,
    pub(crate) input: &'a Input,
    pub(crate) service: &'a Service,
    pub(crate) settle: &'a S,
    pub(crate) lane: Lane,
}

impl<'a, R: Wait, S: Settle> Job for Work<'a, R, S> {
    ghost use Rattle.std.specs.Prelude.{◌≡◌};
    ghost use Rattle.ba_lanes.specs.Serving.{IsDone, IsReady, SeeMore};

    ghost ready = { λ it k. (S.orders it.settle.now ≡ it.input.now.orders) ×
        IsReady it.input.now it.service.now k it.lane };

    ghost done = { λ it k new. IsDone it.input.now it.service.now k new.lane ×
        SeeMore it.lane.passes new.lane.passes };

    fn work<G: Gate>(&mut self, job: u32, gate: &G) {
        self.lane.serve(
            self.rt,
            self.alloc,
            self.input,
            self.service,
            self.settle,
            job,
            gate,
        );
    }
}

// The lane of that number, with passes of its own, split off the opening ones.
fn lane_for(
    alloc: Global,
    input: &Input,
    service: &Service,
    passes: &mut Passes,
    number: u32,
) -> Result<Lane, AllocError>
    requires input { IsInput input.now }
    requires policy { service.now.policy ≡ input.now.policy }
    requires below { number < input.now.workers }
    requires of { AreOf service.now passes.old }
    requires dealt { (loads : List Load) × HaveDealt input.now loads number passes.old }
    ensures of { AreOf service.now passes.new }
    ensures dealt { (loads : List Load) → HaveDealt input.now loads number passes.old
        → IfOk result (λ lane. HaveDealt input.now loads (number + 1) passes.new
        × SeeLoads loads lane.passes) }
    ensures ready { IfOk result (IsReady input.now service.now number) }
{
    let share = Share::of(&input.script, input.workers, number);
    let requests = requests_in(&input.script);
    let own = service.split(alloc, passes, share.calls, share.looks)?;
    Lane::new(alloc, own, requests, share.lines)
}

/// A lane for each worker, with passes split off the opening ones.
pub(crate) fn split<'a, R: Wait, S: Settle>(
    rt: &'a R,
    alloc: Global,
    input: &'a Input,
    service: &'a Service,
    settle: &'a S,
    passes: &mut Passes,
) -> Result<Vec<Work<'a, R, S>>, AllocError>
    requires input { IsInput input.now }
    requires policy { service.now.policy ≡ input.now.policy }
    requires orders { S.orders settle.now ≡ input.now.orders }
    requires of { AreOf service.now passes.old }
    requires dealt { (loads : List Load) × HaveDealt input.now loads 0 passes.old }
    ensures of { AreOf service.now passes.new }
    ensures split { IfOk result (λ works. AreSplitOff input.now works.items passes.new) }
    ensures many { IfOk result (λ works. length works.items ≡ input.now.workers) }
    ensures ready { IfOk result (λ works. (k : ℕ) (d : _) → k < input.now.workers
        → IsWork S.orders input.now service.now k (slice_index_or works.items k d)) }
{
    let mut works = Vec::with_capacity(alloc, input.workers as usize)?;
    for number in 0..input.workers {
        let lane = lane_for(alloc, input, service, passes, number)?;
        works.push_reserved(Work {
            rt,
            alloc,
            input,
            service,
            settle,
            lane,
        });
    }
    Ok(works)
}

/// Joins the passes of the lanes, whose work is done, and gives the entries of each.
pub(crate) fn join<R: Wait, S: Settle>(
    alloc: Global,
    input: &Input,
    service: &Service,
    passes: &mut Passes,
    works: Vec<Work<'_, R, S>>,
) -> Result<Vec<VecDeque<Entry>>, AllocError>
    requires some { 0 < input.now.workers }
    requires many { length works.items ≡ input.now.workers }
    requires of { AreOf service.now passes.old }
    requires split { AreSplitOff input.now works.items passes.old }
    requires done { (k : ℕ) (d : _) → k < input.now.workers
        → IsDone input.now service.now k (slice_index_or works.items k d).lane }
    ensures of { AreOf service.now passes.new }
    ensures many { IfOk result (λ queues. length queues.items ≡ input.now.workers) }
    ensures gathered { IfOk result (λ queues. (d : _)
        → AreGathered input.now (λ k. (slice_index_or queues.items k d).items) passes.new) }
{
    let mut queues = Vec::with_capacity(alloc, works.len())?;
    for work in works {
        let Lane {
            passes: own,
            entries,
            ..
        } = work.lane;
        service.join(passes, own);
        queues.push_reserved(VecDeque::from_vec(entries));
    }
    Ok(queues)
}

/// The entries of all lines, in their order, of those of each lane.
pub(crate) fn merge(
    alloc: Global,
    input: &Input,
    mut queues: Vec<VecDeque<Entry>>,
) -> Result<Vec<Entry>, AllocError>
    requires some { 0 < input.now.workers }
    requires many { length queues.items ≡ input.now.workers }
    requires long { (k : ℕ) (d : _) → k < input.now.workers
        → length (slice_index_or queues.items k d).items
        ≡ length (lines_in input.now k input.now.script.entries) }
    ensures { (d : _) → IfOk result (λ entries.
        AreMerged input.now (λ k. (slice_index_or queues.items k d).items) entries.items) }
{
    let mut entries = Vec::with_capacity(alloc, input.script.entries.len())?;
    for said in input.script.entries.as_slice() {
        let lane = lane_of(input.workers, said) as usize;
        if let Some(entry) = queues[lane].pop_front() {
            entries.push_reserved(entry);
        }
    }
    Ok(entries)
}
