//! Runs of the top call over the forms in memory: what they come to where nothing fails, and the tests that need them.
#![tactic(auto)]

ghost use Rattle.std.specs.Prelude.{◌≡◌, ◌⊎◌, map, string_bytes};
ghost use Rattle.ba_input.specs.Reads.{Outcome as MayRead};
ghost use Rattle.ba_outside.specs.MemFiles.{held_or_empty};
ghost use Rattle.ba_top.specs.Causes.{SomeComesTo};

use ba_outside::{FreeGate, Held, SureFiles, SureSink};
use ba_top::{Detail, Outcome, blockaid};
use std::alloc::Global;
use std::sync::Wait;
use std::thread::Threads;

/// Over files and a sink that never fail, a command comes to what its words and files come to, or memory runs out.
///
/// A name that isn't held reads as an empty file.
pub fn sure_run<R: Threads + Wait + Sync>(
    rt: &R,
    alloc: Global,
    words: &[String],
    held: Vec<Held>,
) -> Outcome
    ensures { (result.detail ≡ Detail.Memory)
        ⊎ SomeComesTo (MayRead (held_or_empty held.items) (map string_bytes words.now)) result.detail }
{
    let mut files = SureFiles::new(alloc, held);
    let mut sink = SureSink::new(alloc);
    blockaid(rt, alloc, words, &mut files, &mut sink, &FreeGate)
}

#[cfg(test)]
mod tests;
