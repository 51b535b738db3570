// Lines, one after another.
ghost use Rattle.std.specs.Prelude.{◌≡◌, ℕ, length, ◌+◌, ◌≤◌, min, IfOk, IfSome, IsErrOf};
ghost use Rattle.ba_outside.specs.Causes.{last_count, NeverFalls};
ghost use Rattle.ba_source.specs.Seen.{SourceSeen};
ghost use Rattle.ba_source.specs.Taking.{CountsFault, Leaves, count_taken};

/// Why a line didn't come.
#[derive(Debug, Drop, PartialEq, Eq)]
pub enum SourceFail {
    /// Reading failed. The count of faults rose.
    Fault,
    /// The next line has more bytes than the limit, which is carried here. It is gone.
    TooLong(u64),
    /// There was no memory for the next line. It is gone.
    NoMemory,
}

/// A source of lines as contracts see it: `seen` says which lines are left (where that is told),
/// how many were taken, and how often reading has failed.
pub trait Source {
    ghost seen: { Self → SourceSeen };

    /// Takes the next line, without its line feed, if it has at most `limit` bytes: `None` where no
    /// line is left. It may wait for the line, and for nothing behind it.
    ///
    /// # Errors
    /// `Fault` comes only where the count of faults rose, and takes no line; with every other
    /// answer the count is as before. `TooLong` carries the limit, and comes only where the line
    /// has more bytes. `NoMemory` comes for want of memory. After either of these the line is gone,
    /// and counts as taken; after any error the source may be asked again.
    fn take(&mut self, limit: u64) -> Result<Option<Vec<u8>>, SourceFail>
        ensures left { Leaves (seen self.old).left (seen self.new).left limit result }
        ensures taken { (seen self.new).taken
            ≡ min ((seen self.old).taken + count_taken result) last_count }
        ensures faults { NeverFalls (seen self.old).faults (seen self.new).faults }

        ensures within { IfOk result (λ line. IfSome line (λ bytes. length bytes.items ≤ limit)) }
        ensures fault { CountsFault (seen self.old).faults (seen self.new).faults result }
        ensures carries { (n : ℕ) → IsErrOf result (SourceFail.TooLong n) → n ≡ limit };
}
