// A sink in memory that never fails.
use crate::{Sink, WriteFail};
use std::alloc::Global;

/// A sink in memory that never answers `Failed`: its count of faults is 0 for ever. It takes each
/// piece whole, and tells what was written and the pieces handed over. `NoMemory` may come.
#[derive(Drop)]
pub struct SureSink {
    alloc: Global,
    bytes: Vec<u8>,
    pieces: Vec<Vec<u8>>,
}

impl SureSink {
    ghost use Rattle.std.specs.Prelude.{◌≡◌, [], Some};

    /// A sink that nothing was written to. `alloc` is kept for what is written.
    pub fn new(alloc: Global) -> Self
        ensures { ⟦<SureSink as Sink>⟧.seen result
            ≡ record { written = Some []; pieces = Some []; faults = 0 } }
    {
        SureSink {
            alloc,
            bytes: Vec::new(alloc),
            pieces: Vec::new(alloc),
        }
    }

    /// What was written.
    pub fn bytes(&self) -> &[u8]
        ensures { (⟦<SureSink as Sink>⟧.seen self.now).written ≡ Some result.now }
    {
        &self.bytes
    }
}

impl Sink for SureSink {
    ghost use Rattle.std.specs.Prelude.{Some};
    ghost use Rattle.ba_outside.specs.Sink.{lists_of};

    ghost seen = { λ s. record {
      written = Some s.bytes.items;
      pieces = Some (lists_of s.pieces.items);
      faults = 0;
    } };

    fn write(&mut self, bytes: &[u8]) -> Result<usize, WriteFail> {
        if bytes.is_empty() {
            return Ok(0);
        }
        let Ok(piece) = bytes.to_vec(self.alloc) else {
            return Err(WriteFail::NoMemory);
        };
        if self.pieces.push(piece).is_err() {
            return Err(WriteFail::NoMemory);
        }
        match self.bytes.extend_from_slice(bytes) {
            Ok(()) => Ok(bytes.len()),
            Err(_) => Err(WriteFail::NoMemory),
        }
    }
}
