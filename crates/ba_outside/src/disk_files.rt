// The files of a file system.
ghost use Rattle.std.specs.Prelude.{◌≡◌, ◌+◌, ◌≤◌, min, length, IfOk, IsErrOf};
ghost use Rattle.ba_outside.specs.Causes.{last_count, NeverFalls, RoseBeyond};

use crate::count::Count;
use crate::{Files, ReadFail};
use std::alloc::Global;
use std::io::{ErrorKind, Read};

/// The files of a file system of std, by path. They tell nothing of what they hold, keep the names
/// asked for and the number of bytes taken, and count each failure of the file system as a fault
/// (want of memory isn't one).
#[derive(Drop)]
pub struct DiskFiles<R: std::fs::Files + Drop> {
    system: R,
    alloc: Global,
    asked: Vec<String>,
    taken: Count,
    faults: Count,
}

impl<R: std::fs::Files + Drop> DiskFiles<R> {
    ghost use Rattle.std.specs.Prelude.{◌≡◌, None, []};

    /// The files of that system, never asked so far. `alloc` is kept for the answers.
    pub fn new(system: R, alloc: Global) -> Self
        ensures { ⟦<DiskFiles<R> as Files>⟧.seen result
            ≡ record { held = None; asked = []; taken = 0; faults = 0 } }
    {
        DiskFiles {
            system,
            alloc,
            asked: Vec::new(alloc),
            taken: Count::new(),
            faults: Count::new(),
        }
    }
}

// Why the bytes of a file didn't come.
enum Stop {
    Fault,
    TooLong,
    NoMemory,
}

// Reads to the end, or past the limit, and counts the bytes.
fn take_all<T: Read>(
    alloc: Global,
    reader: &mut T,
    limit: u64,
    taken: &mut Count,
) -> Result<Vec<u8>, Stop>
    ensures within { IfOk result (λ bytes. length bytes.items ≤ limit) }
    ensures counts { IfOk result (λ bytes.
        taken.new.value ≡ min (taken.old.value + length bytes.items) last_count) }
    ensures never_falls { NeverFalls taken.old.value taken.new.value }
    ensures too_long { IsErrOf result Stop.TooLong
        → RoseBeyond limit taken.old.value taken.new.value }
{
    let mut bytes = Vec::new(alloc);
    let mut piece = [0u8; 16384];
    while bytes.len() as u64 <= limit {
        let count = match reader.read(&mut piece) {
            Ok(count) => count,
            Err(e) if e.kind() == ErrorKind::OutOfMemory => return Err(Stop::NoMemory),
            Err(_) => return Err(Stop::Fault),
        };
        if count == 0 {
            return Ok(bytes);
        }
        if bytes.extend_from_slice(&piece[..count]).is_err() {
            return Err(Stop::NoMemory);
        }
        taken.raise(count as u64);
    }
    Err(Stop::TooLong)
}

impl<R: std::fs::Files + Drop> Files for DiskFiles<R> {
    ghost use Rattle.std.specs.Prelude.{None, map, string_bytes};

    ghost seen = { λ m. record {
      held = None;
      asked = map string_bytes m.asked.items;
      taken = m.taken.value;
      faults = m.faults.value;
    } };

    fn read(&mut self, name: &str, limit: u64) -> Result<Vec<u8>, ReadFail> {
        let Ok(asked) = String::from_str(self.alloc, name) else {
            return Err(ReadFail::NoMemory);
        };
        if self.asked.push(asked).is_err() {
            return Err(ReadFail::NoMemory);
        }
        let stop = match std::fs::open(&self.system, name) {
            Ok(mut file) => match take_all(self.alloc, &mut file, limit, &mut self.taken) {
                Ok(bytes) => return Ok(bytes),
                Err(stop) => stop,
            },
            Err(e) if e.kind() == ErrorKind::OutOfMemory => Stop::NoMemory,
            Err(_) => Stop::Fault,
        };
        match stop {
            Stop::Fault => {
                self.faults.raise(1);
                Err(ReadFail::Fault)
            }
            Stop::TooLong => Err(ReadFail::TooLong(limit)),
            Stop::NoMemory => Err(ReadFail::NoMemory),
        }
    }
}
