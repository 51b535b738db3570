// Files in memory, some of whose calls fail.
ghost use Rattle.std.specs.Prelude.{◌≡◌, ℕ, ◌+◌, ◌≤◌, Contains, IfNone, IfOk, IfSome, IsErrOf, None, Some, length, min};
ghost use Rattle.ba_outside.specs.Causes.{last_count, NeverFalls};
ghost use Rattle.ba_outside.specs.Files.{Asks, CountsFault, PassesLimit, Tells};
ghost use Rattle.ba_outside.specs.MemFiles.{FaultsWhere, NextFails, held_in, shown};

use crate::count::{Count, is_listed};
use crate::{Files, ReadFail};
use std::alloc::Global;
use std::marker::Model;

/// A file: its name and its bytes.
#[derive(Drop)]
pub struct Held {
    pub name: String,
    pub bytes: Vec<u8>,
}

/// Files in memory. They tell what they hold, which is the first file of each name; a name without
/// one is a fault. The calls whose numbers, from 0, are listed fail with `Fault`.
#[derive(Drop)]
pub struct MemFiles {
    alloc: Global,
    files: Vec<Held>,
    failing: Vec<u64>,
    asked: Vec<String>,
    calls: u64,
    taken: Count,
    faults: Count,
}

impl Model for MemFiles {
    ghost use Rattle.std.specs.Prelude.{map, string_bytes};
    ghost use Rattle.ba_outside.specs.MemFiles.{MemFilesSeen};

    ghost Value = { MemFilesSeen };

    ghost view = { λ m. record {
      files = m.files.items;
      failing = m.failing.items;
      calls = m.calls;
      asked = map string_bytes m.asked.items;
      taken = m.taken.value;
      faults = m.faults.value;
    } };
}

impl MemFiles {
    ghost use Rattle.std.specs.Prelude.{◌≡◌, [], Some, map, string_bytes};
    ghost use Rattle.ba_outside.specs.MemFiles.{held_in};

    /// Files that were never asked, of which the calls of the numbers in `failing` will fail.
    /// `alloc` is kept for the answers.
    pub fn new(alloc: Global, files: Vec<Held>, failing: Vec<u64>) -> Self
        ensures seen { ⟦<MemFiles as Files>⟧.seen result
            ≡ record { held = Some (held_in files.items); asked = []; taken = 0; faults = 0 } }
        ensures files { result.files ≡ files.items }
        ensures failing { result.failing ≡ failing.items }
        ensures calls { result.calls ≡ 0 }
    {
        MemFiles {
            alloc,
            files,
            failing,
            asked: Vec::new(alloc),
            calls: 0,
            taken: Count::new(),
            faults: Count::new(),
        }
    }

    /// The names asked for, in order.
    pub fn asked(&self) -> &[String]
        ensures { (⟦<MemFiles as Files>⟧.seen self.now).asked ≡ map string_bytes result.now }
    {
        &self.asked
    }
}

// The bytes of the first file of that name.
pub(crate) fn find<'a>(files: &'a [Held], name: &str) -> Option<&'a [u8]>
    ensures none { IfNone result (held_in files.now name.now ≡ None) }
    ensures some { IfSome result (λ bytes. held_in files.now name.now ≡ Some bytes.now) }
{
    for file in files {
        if file.name.as_str() == name {
            return Some(file.bytes.as_slice());
        }
    }
    None
}

impl Files for MemFiles {
    ghost use Rattle.ba_outside.specs.MemFiles.{shown};

    ghost seen = { λ m. shown m };

    /// As the trait says. A call is answered with `Fault` exactly where its number is listed or
    /// there is no file of the name; want of memory may stand in place of any answer.
    fn read(&mut self, name: &str, limit: u64) -> Result<Vec<u8>, ReadFail>
        // Which calls fail.
        ensures files { self.new.files ≡ self.old.files }
        ensures failing { self.new.failing ≡ self.old.failing }
        ensures calls { self.new.calls ≡ min (self.old.calls + 1) last_count }
        ensures faults_where { FaultsWhere (NextFails self.old name.now) result }

        // As the trait says.
        ensures held { (shown self.new).held ≡ (shown self.old).held }
        ensures asked { Asks (shown self.old).asked (shown self.new).asked name.now result }
        ensures taken { NeverFalls (shown self.old).taken (shown self.new).taken }
        ensures faults { NeverFalls (shown self.old).faults (shown self.new).faults }
        ensures gives { IfOk result (λ bytes. Tells (shown self.old).held name.now bytes.items) }
        ensures counts { IfOk result (λ bytes. (shown self.new).taken
            ≡ min ((shown self.old).taken + length bytes.items) last_count) }
        ensures within { IfOk result (λ bytes. length bytes.items ≤ limit) }
        ensures fault { CountsFault (shown self.old).faults (shown self.new).faults result }
        ensures carries { (n : ℕ) → IsErrOf result (ReadFail.TooLong n) → n ≡ limit }
        ensures too_long { IsErrOf result (ReadFail.TooLong limit)
            → PassesLimit (shown self.old).held name.now limit
            (shown self.old).taken (shown self.new).taken }
    {
        let call = self.calls;
        self.calls = call.saturating_add(1);
        let Ok(asked) = String::from_str(self.alloc, name) else {
            return Err(ReadFail::NoMemory);
        };
        if self.asked.push(asked).is_err() {
            return Err(ReadFail::NoMemory);
        }
        if is_listed(&self.failing, call) {
            self.faults.raise(1);
            return Err(ReadFail::Fault);
        }
        let Some(bytes) = find(&self.files, name) else {
            self.faults.raise(1);
            return Err(ReadFail::Fault);
        };
        if bytes.len() as u64 > limit {
            return Err(ReadFail::TooLong(limit));
        }
        match bytes.to_vec(self.alloc) {
            Ok(copy) => {
                self.taken.raise(copy.len() as u64);
                Ok(copy)
            }
            Err(_) => Err(ReadFail::NoMemory),
        }
    }
}
