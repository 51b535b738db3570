// A sink that keeps the first piece alone.
use crate::{Sink, WriteFail};
use std::alloc::Global;

/// A sink that drops what is written to it, but for the first piece. It never answers `Failed`, its
/// count of faults is 0 for ever, and it tells nothing of what was written. `NoMemory` may come.
#[derive(Drop)]
pub struct FirstPiece {
    bytes: Vec<u8>,
}

impl FirstPiece {
    ghost use Rattle.std.specs.Prelude.{◌≡◌, None};

    /// A sink to which nothing was written. `alloc` is kept for the first piece.
    pub fn new(alloc: Global) -> Self
        ensures { ⟦<FirstPiece as Sink>⟧.seen result
            ≡ record { written = None; pieces = None; faults = 0 } }
    {
        FirstPiece {
            bytes: Vec::new(alloc),
        }
    }

    /// The first piece that was written, if it is text.
    pub fn text(&self) -> &str {
        std::str::from_utf8(&self.bytes).unwrap_or("")
    }
}

impl Sink for FirstPiece {
    ghost use Rattle.std.specs.Prelude.{None};

    ghost seen = { λ _. record { written = None; pieces = None; faults = 0 } };

    fn write(&mut self, bytes: &[u8]) -> Result<usize, WriteFail> {
        if self.bytes.is_empty() && self.bytes.extend_from_slice(bytes).is_err() {
            return Err(WriteFail::NoMemory);
        }
        Ok(bytes.len())
    }
}
