// A sink over a writer of std.
use crate::count::Count;
use crate::{Sink, WriteFail};
use std::io::Write;

/// A sink over a writer, such as standard output. It tells nothing of what was written, and counts
/// as a fault each write that fails, each flush that fails, and each write that takes nothing of a
/// piece that isn't empty.
#[derive(Drop)]
pub struct StdSink<W: Write + Drop> {
    writer: W,
    faults: Count,
}

impl<W: Write + Drop> StdSink<W> {
    ghost use Rattle.std.specs.Prelude.{◌≡◌, None};

    /// A sink over that writer, without a fault so far.
    pub fn new(writer: W) -> Self
        ensures { ⟦<StdSink<W> as Sink>⟧.seen result
            ≡ record { written = None; pieces = None; faults = 0 } }
    {
        StdSink {
            writer,
            faults: Count::new(),
        }
    }
}

impl<W: Write + Drop> Sink for StdSink<W> {
    ghost use Rattle.std.specs.Prelude.{None};

    ghost seen = { λ s. record { written = None; pieces = None; faults = s.faults.value } };

    /// As the trait says. A piece that isn't empty is flushed before `Ok` comes.
    fn write(&mut self, bytes: &[u8]) -> Result<usize, WriteFail> {
        if bytes.is_empty() {
            return Ok(0);
        }
        if let Ok(count) = self.writer.write(bytes)
            && count > 0
            && self.writer.flush().is_ok()
        {
            return Ok(count);
        }
        self.faults.raise(1);
        Err(WriteFail::Failed)
    }
}
