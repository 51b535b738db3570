// Files by name, read whole up to a limit.
ghost use Rattle.std.specs.Prelude.{◌≡◌, ℕ, length, ◌+◌, ◌≤◌, min, IfOk, IsErrOf};
ghost use Rattle.ba_outside.specs.Causes.{last_count, NeverFalls};
ghost use Rattle.ba_outside.specs.Seen.{FilesSeen};
ghost use Rattle.ba_outside.specs.Files.{Asks, CountsFault, Tells, PassesLimit};

/// Why a file wasn't read.
#[derive(Debug, Drop, PartialEq, Eq)]
pub enum ReadFail {
    /// The file is missing, or reading it failed. The count of faults rose.
    Fault,
    /// The file has more bytes than the limit, which is carried here.
    TooLong(u64),
    /// There was no memory for the bytes or for the name.
    NoMemory,
}

/// Files as contracts see them: `seen` says what they hold (where that is told), which names were
/// asked for, how many bytes were taken and how often a file has failed.
pub trait Files {
    ghost seen: { Self → FilesSeen };

    /// Reads all the bytes of the file of that name, if they are at most `limit`.
    ///
    /// Each call adds its name to the names asked for; one that answers `NoMemory` may leave it
    /// out. No call changes what the files hold, and after a refusal they may be asked again. `Ok`
    /// counts its bytes as taken.
    ///
    /// # Errors
    /// `Fault` comes only where the count of faults rose: the file is missing, or reading it
    /// failed. With every other answer the count is as before. `TooLong` carries the limit, and
    /// comes only where the file holds more bytes (where nothing is told, where more bytes than the
    /// limit were taken, or their count stands at its last value); such a file is never answered
    /// with `Ok`. `NoMemory` comes for want of memory.
    fn read(&mut self, name: &str, limit: u64) -> Result<Vec<u8>, ReadFail>
        ensures held { (seen self.new).held ≡ (seen self.old).held }
        ensures asked { Asks (seen self.old).asked (seen self.new).asked name.now result }
        ensures taken { NeverFalls (seen self.old).taken (seen self.new).taken }
        ensures faults { NeverFalls (seen self.old).faults (seen self.new).faults }

        ensures gives { IfOk result (λ bytes. Tells (seen self.old).held name.now bytes.items) }
        ensures counts { IfOk result (λ bytes. (seen self.new).taken
            ≡ min ((seen self.old).taken + length bytes.items) last_count) }
        ensures within { IfOk result (λ bytes. length bytes.items ≤ limit) }
        ensures fault { CountsFault (seen self.old).faults (seen self.new).faults result }
        ensures carries { (n : ℕ) → IsErrOf result (ReadFail.TooLong n) → n ≡ limit }
        ensures too_long { IsErrOf result (ReadFail.TooLong limit)
            → PassesLimit (seen self.old).held name.now limit
            (seen self.old).taken (seen self.new).taken };
}
