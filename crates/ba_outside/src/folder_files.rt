// The files of a folder, by their names in it.
ghost use Rattle.std.specs.Prelude.{◌≡◌};

use crate::{DiskFiles, Files, ReadFail};
use std::alloc::Global;

/// The files of a folder: each is the file of `DiskFiles` whose name is a prefix and its own. They
/// tell nothing of what they hold, keep the names asked for and the number of bytes taken, and
/// count each failure of the file system as a fault.
#[derive(Drop)]
pub struct FolderFiles<'a, R: std::fs::Files + Drop> {
    prefix: &'a str,
    files: DiskFiles<R>,
    alloc: Global,
    asked: Vec<String>,
}

impl<'a, R: std::fs::Files + Drop> FolderFiles<'a, R> {
    ghost use Rattle.std.specs.Prelude.{◌≡◌, None, [], map, string_bytes};

    /// The files whose names begin with that prefix, never asked so far. `alloc` is kept for the
    /// answers.
    pub fn new(system: R, alloc: Global, prefix: &'a str) -> Self
        ensures { ⟦<FolderFiles<'a, R> as Files>⟧.seen result
            ≡ record { held = None; asked = []; taken = 0; faults = 0 } }
    {
        FolderFiles {
            prefix,
            files: DiskFiles::new(system, alloc),
            alloc,
            asked: Vec::new(alloc),
        }
    }

    /// The names asked for, in order.
    pub fn asked(&self) -> &[String]
        ensures { (⟦<FolderFiles<'a, R> as Files>⟧.seen self.now).asked
            ≡ map string_bytes result.now }
    {
        &self.asked
    }
}

impl<R: std::fs::Files + Drop> Files for FolderFiles<'_, R> {
    ghost use Rattle.std.specs.Prelude.{None, map, string_bytes};

    ghost seen = { λ m. record {
      held = None;
      asked = map string_bytes m.asked.items;
      taken = (⟦<DiskFiles<R> as Files>⟧.seen m.files).taken;
      faults = (⟦<DiskFiles<R> as Files>⟧.seen m.files).faults;
    } };

    fn read(&mut self, name: &str, limit: u64) -> Result<Vec<u8>, ReadFail> {
        let prefix = self.prefix;
        let Ok(path) = format!(in self.alloc; "{prefix}{name}") else {
            return Err(ReadFail::NoMemory);
        };
        let Ok(asked) = String::from_str(self.alloc, name) else {
            return Err(ReadFail::NoMemory);
        };
        if self.asked.push(asked).is_err() {
            return Err(ReadFail::NoMemory);
        }
        self.files.read(path.as_str(), limit)
    }
}
