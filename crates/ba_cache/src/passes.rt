//! A cache and its passes, shelf by shelf: made, split, joined and closed.
ghost use Rattle.std.specs.Prelude.{◌≡◌, IfOk, OnErr};
ghost use Rattle.ba_turn.specs.Passes.{IsFree, known_by};
ghost use Rattle.ba_cache.specs.Passes.{AreClosed, AreFree, AreJoined, AreSplit, CanSplit, IsOpened, IsOpening, IsWhole, OnEach};

use crate::cache::{Cache, CachePass};
use crate::call::ShelfCall;
use crate::shelf::Shelf;
use ba_model::SHARDS;
use ba_turn::{Pass, Turn};
use std::alloc::{AllocError, Global};

impl Cache {
    /// Empty shelves, each for `allowance` calls, and the opening pass, which has the number 0 on each.
    /// All memory that the histories will need is asked for here. Where memory is refused, nothing is left.
    pub fn new(alloc: Global, allowance: u32) -> Result<(Cache, CachePass), AllocError>
        ensures free { IfOk result (λ r. AreFree r.0 r.1) }
        ensures known { IfOk result (λ r. OnEach (IsOpened allowance) r.1) }
    {
        let mut turns = Vec::with_capacity(alloc, SHARDS as usize)?;
        let mut passes = Vec::with_capacity(alloc, SHARDS as usize)?;
        for _ in 0..SHARDS {
            let (turn, pass) = opened(alloc, allowance)?;
            turns.push_reserved(turn);
            passes.push_reserved(pass);
        }
        Ok((Cache { turns }, CachePass { passes }))
    }

    /// Splits a pass off the opening pass: on each shelf it gets this much of the allowance and the next number, and has seen as
    /// much. Where memory is refused, nothing is split.
    pub fn split(
        &self,
        alloc: Global,
        pass: &mut CachePass,
        allowance: u32,
    ) -> Result<CachePass, AllocError>
        requires free { AreFree self.now pass.old }
        requires can { OnEach (CanSplit allowance) pass.old }
        ensures free { AreFree self.now pass.new }
        ensures new { IfOk result (AreFree self.now) }
        ensures split { IfOk result (AreSplit allowance pass.old pass.new) }
        ensures err { OnErr result (pass.new ≡ pass.old) }
    {
        let mut passes = Vec::with_capacity(alloc, SHARDS as usize)?;
        for (shelf, turn) in self.turns.iter().enumerate() {
            let new = turn.split(&mut pass.passes[shelf], allowance);
            passes.push_reserved(new);
        }
        Ok(CachePass { passes })
    }

    /// Joins a pass into the opening pass, which keeps of each shelf the longer of the two histories and the joined number's calls.
    /// Once it has joined all that it split off, its own calls and those of the joined passes are all calls.
    pub fn join(&self, pass: &mut CachePass, other: CachePass)
        requires free { AreFree self.now pass.old }
        requires other { AreFree self.now other }
        requires opening { OnEach IsOpening pass.old }
        ensures free { AreFree self.now pass.new }
        ensures joined { AreJoined pass.old other pass.new }
    {
        for (shelf, other) in other.passes.into_iter().enumerate() {
            self.turns[shelf].join(&mut pass.passes[shelf], other);
        }
    }

    /// Gives the shelves in the order of their shards, each with all calls on it and the number of each call's pass, once the whole
    /// allowance was spent or has come back to this pass. Where memory is refused, they are dropped.
    pub fn close(self, alloc: Global, pass: CachePass) -> Result<Vec<(Shelf, Vec<u32>)>, AllocError>
        requires free { AreFree self pass }
        requires all { OnEach IsWhole pass }
        ensures { IfOk result (λ closed. AreClosed pass closed.items) }
    {
        let mut closed = Vec::with_capacity(alloc, SHARDS as usize)?;
        for (turn, pass) in self.turns.into_iter().zip(pass.passes) {
            closed.push_reserved(turn.close(pass));
        }
        Ok(closed)
    }
}

/// An empty shelf under its turn, and the opening pass.
fn opened(
    alloc: Global,
    allowance: u32,
) -> Result<(Turn<Shelf>, Pass<Shelf, ShelfCall>), AllocError>
    ensures free { IfOk result (λ r. IsFree r.0 r.1) }
    ensures known { IfOk result (λ r. IsOpened allowance (known_by r.1)) }
{
    Turn::new(alloc, Shelf::new(alloc)?, allowance)
}
