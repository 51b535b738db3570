// Where the answers go.
ghost use Rattle.std.specs.Prelude.{◌≡◌, ℕ, length, ◌≤◌, ◌<◌, IfOk, IsErrOf};
ghost use Rattle.std.specs.Io.KnownBytes.{WriteAppends};
ghost use Rattle.ba_outside.specs.Causes.{NeverFalls};
ghost use Rattle.ba_outside.specs.Seen.{SinkSeen};
ghost use Rattle.ba_outside.specs.Sink.{CountsFailure, Hands};

/// Why a piece wasn't written. Nothing of it is.
#[derive(Debug, Drop, PartialEq, Eq)]
pub enum WriteFail {
    /// The write failed. The count of faults rose.
    Failed,
    /// There was no memory for the bytes. The count of faults is as before.
    NoMemory,
}

/// A sink as contracts see it: `seen` says what was written and which pieces were handed over
/// (where these are told), and how often a write has failed.
pub trait Sink {
    ghost seen: { Self → SinkSeen };

    /// Writes the front of a piece and answers how many bytes of it: at least one, unless the piece
    /// is empty. Exactly these bytes are appended, and the count of faults is as before. An empty
    /// piece is answered with `Ok(0)` and leaves no trace.
    ///
    /// # Errors
    /// `Failed` comes only where the count of faults rose; `NoMemory` for want of memory, the count
    /// as before. After either nothing of the piece is written, and the sink may be written to
    /// again.
    fn write(&mut self, bytes: &[u8]) -> Result<usize, WriteFail>
        ensures written { WriteAppends (seen self.old).written (seen self.new).written result bytes.now }
        ensures pieces { Hands (seen self.old).pieces (seen self.new).pieces bytes.now result }
        ensures faults { NeverFalls (seen self.old).faults (seen self.new).faults }

        ensures some { IfOk result (λ n. 0 < length bytes.now → 0 < n) }
        ensures front { IfOk result (λ n. n ≤ length bytes.now) }
        ensures failed { CountsFailure (seen self.old).faults (seen self.new).faults result }
        ensures empty { length bytes.now ≡ 0 → result ≡ Ok 0 };
}
