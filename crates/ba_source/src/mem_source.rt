// A source in memory, some of whose calls fail.
ghost use Rattle.std.specs.Prelude.{◌≡◌, ℕ, ◌+◌, ◌≤◌, Contains, IfOk, IfSome, IsErrOf, length, min};
ghost use Rattle.ba_outside.specs.Causes.{last_count, NeverFalls};
ghost use Rattle.ba_source.specs.MemSource.{FaultsWhere};
ghost use Rattle.ba_source.specs.Taking.{CountsFault, Leaves, count_taken};

use crate::count::{Count, is_listed};
use crate::{Source, SourceFail};
use std::alloc::{AllocError, Global};
use std::marker::Model;

/// A source in memory. It tells which lines are left. Calls are numbered from 0, and those whose
/// numbers are listed answer `Fault`.
#[derive(Drop)]
pub struct MemSource {
    alloc: Global,
    lines: Vec<Vec<u8>>,
    next: usize,
    failing: Vec<u64>,
    calls: u64,
    taken: Count,
    faults: Count,
}

impl Model for MemSource {
    ghost use Rattle.std.specs.Prelude.{◌≤◌, Some, drop, vec_len};
    ghost use Rattle.ba_outside.specs.Causes.{last_count};
    ghost use Rattle.ba_source.specs.MemSource.{MemSourceSeen, lines_of};

    ghost Value = { MemSourceSeen };

    ghost view = { λ s. record {
      shown = record {
        left = Some (lines_of (drop s.next s.lines.items));
        taken = s.taken.value;
        faults = s.faults.value;
      };
      failing = s.failing.items;
      calls = s.calls;
    } };

    ghost invariant = { λ s. (s.next ≤ vec_len s.lines) × (s.taken.value ≤ last_count) ×
        (s.faults.value ≤ last_count) };
}

impl MemSource {
    ghost use Rattle.std.specs.Prelude.{◌≡◌, Some};
    ghost use Rattle.ba_source.specs.MemSource.{lines_of};

    /// A source of these lines, of which none was taken. The calls of the numbers in `failing` will
    /// fail. `alloc` is kept for what is taken.
    pub fn new(alloc: Global, lines: Vec<Vec<u8>>, failing: Vec<u64>) -> Self
        ensures seen { ⟦<MemSource as Source>⟧.seen result
            ≡ record { left = Some (lines_of lines.items); taken = 0; faults = 0 } }
        ensures failing { result.failing ≡ failing.items }
        ensures calls { result.calls ≡ 0 }
    {
        MemSource {
            alloc,
            lines,
            next: 0,
            failing,
            calls: 0,
            taken: Count::new(),
            faults: Count::new(),
        }
    }
}

fn copy_of(alloc: Global, line: &[u8]) -> Result<Vec<u8>, AllocError>
    ensures { IfOk result (λ copy. copy.items ≡ line.now) }
{
    line.to_vec(alloc)
}

impl Source for MemSource {
    ghost seen = { λ s. s.shown };

    /// As the trait says. A call fails exactly where its number is listed.
    #[tactic(auto, using(crate::proofs::SourceLemmas::takes_next))]
    fn take(&mut self, limit: u64) -> Result<Option<Vec<u8>>, SourceFail>
        // Which calls fail.
        ensures failing { self.new.failing ≡ self.old.failing }
        ensures calls { self.new.calls ≡ min (self.old.calls + 1) last_count }
        ensures faults_where { FaultsWhere (Contains self.old.failing self.old.calls) result }

        // As the trait says.
        ensures left { Leaves self.old.shown.left self.new.shown.left limit result }
        ensures taken { self.new.shown.taken
            ≡ min (self.old.shown.taken + count_taken result) last_count }
        ensures faults { NeverFalls self.old.shown.faults self.new.shown.faults }
        ensures within { IfOk result (λ line. IfSome line (λ bytes. length bytes.items ≤ limit)) }
        ensures fault { CountsFault self.old.shown.faults self.new.shown.faults result }
        ensures carries { (n : ℕ) → IsErrOf result (SourceFail.TooLong n) → n ≡ limit }
    {
        let call = self.calls;
        self.calls = call.saturating_add(1);
        if is_listed(&self.failing, call) {
            self.faults.raise(1);
            return Err(SourceFail::Fault);
        }
        let Some(line) = self.lines.get(self.next) else {
            return Ok(None);
        };
        self.next += 1;
        self.taken.raise(1);
        if line.len() as u64 > limit {
            return Err(SourceFail::TooLong(limit));
        }
        let Ok(copy) = copy_of(self.alloc, line) else {
            return Err(SourceFail::NoMemory);
        };
        Ok(Some(copy))
    }
}
