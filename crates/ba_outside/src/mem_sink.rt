// A sink in memory, some of whose calls fail or take a part alone.
ghost use Rattle.std.specs.Prelude.{◌≡◌, ◌≤◌, ◌<◌, Contains, IfOk, IsErrOf, length};
ghost use Rattle.std.specs.Io.KnownBytes.{WriteAppends};
ghost use Rattle.ba_outside.specs.Causes.{NeverFalls};
ghost use Rattle.ba_outside.specs.MemSink.{FailsWhere, calls_after, count_taken};
ghost use Rattle.ba_outside.specs.Sink.{CountsFailure, Hands};

use crate::count::{Count, is_listed};
use crate::{Sink, WriteFail};
use std::alloc::Global;
use std::marker::Model;

/// A sink in memory. It tells what was written and the pieces handed over. Calls with a piece that
/// isn't empty are numbered from 0: those whose numbers are listed fail with `Failed`, and call i
/// takes at most as many bytes as number i of another list says (at least one, and all of its piece
/// where that list is at its end).
#[derive(Drop)]
pub struct MemSink {
    alloc: Global,
    bytes: Vec<u8>,
    pieces: Vec<Vec<u8>>,
    failing: Vec<u64>,
    takes: Vec<usize>,
    calls: u64,
    faults: Count,
}

impl Model for MemSink {
    ghost use Rattle.std.specs.Prelude.{◌≤◌, Some};
    ghost use Rattle.ba_outside.specs.Causes.{last_count};
    ghost use Rattle.ba_outside.specs.MemSink.{MemSinkSeen};
    ghost use Rattle.ba_outside.specs.Sink.{lists_of};

    ghost Value = { MemSinkSeen };

    ghost view = { λ s. record {
      shown = record {
        written = Some s.bytes.items;
        pieces = Some (lists_of s.pieces.items);
        faults = s.faults.value;
      };
      failing = s.failing.items;
      takes = s.takes.items;
      calls = s.calls;
    } };

    ghost invariant = { λ s. s.faults.value ≤ last_count };
}

impl MemSink {
    ghost use Rattle.std.specs.Prelude.{◌≡◌, [], Some};
    ghost use Rattle.ba_outside.specs.Sink.{lists_of};

    /// A sink that nothing was written to. The calls of the numbers in `failing` will fail, and
    /// each call will take at most as many bytes as its number in `takes` says. `alloc` is kept for
    /// what is written.
    pub fn new(alloc: Global, failing: Vec<u64>, takes: Vec<usize>) -> Self
        ensures seen { ⟦<MemSink as Sink>⟧.seen result
            ≡ record { written = Some []; pieces = Some []; faults = 0 } }
        ensures failing { result.failing ≡ failing.items }
        ensures takes { result.takes ≡ takes.items }
        ensures calls { result.calls ≡ 0 }
    {
        MemSink {
            alloc,
            bytes: Vec::new(alloc),
            pieces: Vec::new(alloc),
            failing,
            takes,
            calls: 0,
            faults: Count::new(),
        }
    }

    /// What was written.
    pub fn bytes(&self) -> &[u8]
        ensures { (⟦<MemSink as Sink>⟧.seen self.now).written ≡ Some result.now }
    {
        &self.bytes
    }

    /// The pieces handed over that weren't empty, in order.
    pub fn pieces(&self) -> &[Vec<u8>]
        ensures { (⟦<MemSink as Sink>⟧.seen self.now).pieces ≡ Some (lists_of result.now) }
    {
        &self.pieces
    }
}

// How many bytes of a piece a call takes.
fn count_taken(takes: &[usize], call: u64, len: usize) -> usize
    requires { 0 < len }
    ensures is { result ≡ count_taken takes.now call len }
    ensures some { 0 < result }
    ensures bound { result ≤ len }
{
    if call < takes.len() as u64 {
        takes[call as usize].max(1).min(len)
    } else {
        len
    }
}

impl Sink for MemSink {
    ghost seen = { λ s. s.shown };

    /// As the trait says. A call fails exactly where its number is listed, else takes as many bytes
    /// as are listed for it; want of memory may stand in place of any answer.
    fn write(&mut self, bytes: &[u8]) -> Result<usize, WriteFail>
        // Which calls fail, and how many bytes each takes.
        ensures failing { self.new.failing ≡ self.old.failing }
        ensures takes { self.new.takes ≡ self.old.takes }
        ensures calls { self.new.calls ≡ calls_after self.old.calls bytes.now }
        ensures fails_where { 0 < length bytes.now
            → FailsWhere (Contains self.old.failing self.old.calls) result }
        ensures count { IfOk result (λ n.
            n ≡ count_taken self.old.takes self.old.calls (length bytes.now)) }

        // As the trait says.
        ensures written { WriteAppends self.old.shown.written self.new.shown.written result bytes.now }
        ensures pieces { Hands self.old.shown.pieces self.new.shown.pieces bytes.now result }
        ensures faults { NeverFalls self.old.shown.faults self.new.shown.faults }
        ensures some { IfOk result (λ n. 0 < length bytes.now → 0 < n) }
        ensures front { IfOk result (λ n. n ≤ length bytes.now) }
        ensures failed { CountsFailure self.old.shown.faults self.new.shown.faults result }
        ensures empty { length bytes.now ≡ 0 → result ≡ Ok 0 }
    {
        let call = self.calls;
        if bytes.is_empty() {
            return Ok(0);
        }
        self.calls = call.saturating_add(1);
        let Ok(piece) = bytes.to_vec(self.alloc) else {
            return Err(WriteFail::NoMemory);
        };
        if self.pieces.push(piece).is_err() {
            return Err(WriteFail::NoMemory);
        }
        if is_listed(&self.failing, call) {
            self.faults.raise(1);
            return Err(WriteFail::Failed);
        }
        let count = count_taken(&self.takes, call, bytes.len());
        match self.bytes.extend_from_slice(&bytes[..count]) {
            Ok(()) => Ok(count),
            Err(_) => Err(WriteFail::NoMemory),
        }
    }
}
