// Files in memory that never fail.
use crate::count::Count;
use crate::mem_files::find;
use crate::{Files, Held, ReadFail};
use std::alloc::Global;

/// Files in memory that never answer `Fault`: their count of faults is 0 for ever. They tell what
/// they hold, and a name that isn't held reads as empty. `NoMemory` may come.
#[derive(Drop)]
pub struct SureFiles {
    alloc: Global,
    files: Vec<Held>,
    asked: Vec<String>,
    taken: Count,
}

impl SureFiles {
    ghost use Rattle.std.specs.Prelude.{◌≡◌, [], Some};
    ghost use Rattle.ba_outside.specs.MemFiles.{held_or_empty};

    /// Files that were never asked. `alloc` is kept for the answers.
    pub fn new(alloc: Global, files: Vec<Held>) -> Self
        ensures { ⟦<SureFiles as Files>⟧.seen result ≡ record {
          held = Some (held_or_empty files.items);
          asked = [];
          taken = 0;
          faults = 0;
        } }
    {
        SureFiles {
            alloc,
            files,
            asked: Vec::new(alloc),
            taken: Count::new(),
        }
    }
}

impl Files for SureFiles {
    ghost use Rattle.std.specs.Prelude.{Some, map, string_bytes};
    ghost use Rattle.ba_outside.specs.MemFiles.{held_or_empty};

    ghost seen = { λ m. record {
      held = Some (held_or_empty m.files.items);
      asked = map string_bytes m.asked.items;
      taken = m.taken.value;
      faults = 0;
    } };

    fn read(&mut self, name: &str, limit: u64) -> Result<Vec<u8>, ReadFail> {
        let Ok(asked) = String::from_str(self.alloc, name) else {
            return Err(ReadFail::NoMemory);
        };
        if self.asked.push(asked).is_err() {
            return Err(ReadFail::NoMemory);
        }
        let bytes = find(&self.files, name).unwrap_or(&[]);
        if bytes.len() as u64 > limit {
            return Err(ReadFail::TooLong(limit));
        }
        match bytes.to_vec(self.alloc) {
            Ok(copy) => {
                self.taken.raise(copy.len() as u64);
                Ok(copy)
            }
            Err(_) => Err(ReadFail::NoMemory),
        }
    }
}
