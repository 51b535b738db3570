// A source over a reader of std.
ghost use Rattle.std.specs.Prelude.{◌≡◌, ◌≢◌, ℕ, ◌+◌, ◌≤◌, ◌++◌, [], List as Sequence, IfOk, IfSome, IsErrOf, IsTrue, OnOk, is_some, length, min, position};
ghost use Rattle.std.specs.Io.KnownBytes.{IsAtEnd, Keeps};
ghost use Rattle.std.specs.List.{after_first, before_first};
ghost use Rattle.ba_outside.specs.Causes.{last_count, NeverFalls, Rose};
ghost use Rattle.ba_source.specs.StdSource.{StandsFor, TakesKnown, Tells, ahead, is_feed};
ghost use Rattle.ba_source.specs.Taking.{CountsFault, Leaves, count_taken};

use crate::count::Count;
use crate::unread::Unread;
use crate::{Source, SourceFail};
use std::alloc::{AllocError, Global};
use std::io::{self, Read};

/// A source over a reader, such as standard input. It tells nothing of which lines are left, and
/// counts as a fault each read that fails (want of memory too). The reader is asked for more bytes
/// only where no whole line is left of what it gave, and then for a piece at a time, until a line
/// is whole. The last line may do without a line feed.
#[derive(Drop)]
pub struct StdSource<R> {
    reader: R,
    unread: Unread,
    alloc: Global,
    taken: Count,
    faults: Count,
}

// A line as far as it was read.
#[derive(Drop)]
enum Line {
    Kept(Vec<u8>),
    TooLong,
    NoMemory,
}

impl Line {
    ghost use Rattle.ba_source.specs.StdSource.{IsWithin};

    // Takes in more bytes of the line.
    fn add(&mut self, bytes: &[u8], limit: u64)
        requires { IsWithin limit self.old }
        ensures within { IsWithin limit self.new }
        ensures stands { (front : Sequence ℕ) → StandsFor limit front self.old
            → StandsFor limit (front ++ bytes.now) self.new }
    {
        if let Line::Kept(kept) = self {
            if kept.len() as u64 + bytes.len() as u64 > limit {
                *self = Line::TooLong;
            } else if kept.extend_from_slice(bytes).is_err() {
                *self = Line::NoMemory;
            }
        }
    }

    // Takes in what is unread of the line, and says whether that was its end.
    fn take_from(&mut self, unread: &mut Unread, limit: u64) -> bool
        requires { IsWithin limit self.old }
        ensures found { result ≡ is_some (position is_feed unread.old) }
        ensures rest { unread.new ≡ after_first is_feed unread.old }
        ensures within { IsWithin limit self.new }
        ensures stands { (front : Sequence ℕ) → StandsFor limit front self.old
            → StandsFor limit (front ++ before_first is_feed unread.old) self.new }
    {
        let bytes = unread.as_slice();
        match first_feed(bytes) {
            Some(end) => {
                self.add(&bytes[..end], limit);
                unread.consume(end + 1);
                true
            }
            None => {
                let count = bytes.len();
                self.add(bytes, limit);
                unread.consume(count);
                false
            }
        }
    }

    // The line, once it is read to its end.
    fn ended(self, limit: u64) -> Result<Option<Vec<u8>>, SourceFail>
        requires within { IsWithin limit self }
        ensures one { count_taken result ≡ 1 }
        ensures tells { (bytes : Sequence ℕ) → StandsFor limit bytes self
            → Tells limit bytes result }
        ensures within { IfOk result (λ line. IfSome line (λ bytes. length bytes.items ≤ limit)) }
        ensures fault { (count : ℕ) → CountsFault count count result }
        ensures carries { (n : ℕ) → IsErrOf result (SourceFail.TooLong n) → n ≡ limit }
    {
        match self {
            Line::Kept(bytes) => Ok(Some(bytes)),
            Line::TooLong => Err(SourceFail::TooLong(limit)),
            Line::NoMemory => Err(SourceFail::NoMemory),
        }
    }
}

fn first_feed(bytes: &[u8]) -> Option<usize>
    ensures { result ≡ position is_feed bytes.now }
{
    bytes.iter().position(|b| *b == b'\n')
}

impl<R: Read + Drop> StdSource<R> {
    ghost use Rattle.std.specs.Prelude.{None};
    ghost use Rattle.ba_source.specs.StdSource.{IsWithin};

    /// A source over that reader, of which nothing was taken. `alloc` is kept for what is taken.
    pub fn new(reader: R, alloc: Global) -> Result<Self, AllocError>
        ensures seen { IfOk result (λ it. ⟦<StdSource<R> as Source>⟧.seen it
            ≡ record { left = None; taken = 0; faults = 0 }) }
        ensures ahead { IfOk result (λ it. ahead R.remaining it ≡ R.remaining reader) }
    {
        Ok(StdSource {
            reader,
            unread: Unread::new(alloc)?,
            alloc,
            taken: Count::new(),
            faults: Count::new(),
        })
    }

    // Sees to it that something is unread, unless the reader is at its end. Where something is the
    // reader isn't asked.
    fn fill(&mut self) -> io::Result<()>
        ensures waits { self.old.unread ≢ [] →
            (self.new.reader ≡ self.old.reader) × (self.new.unread ≡ self.old.unread) }
        ensures taken { self.new.taken.value ≡ self.old.taken.value }
        ensures faults { self.new.faults.value ≡ self.old.faults.value }
        ensures keeps { Keeps (ahead R.remaining self.old) (ahead R.remaining self.new) }
        ensures end { OnOk result
            (self.new.unread ≡ [] → IsAtEnd (ahead R.remaining self.new)) }
    {
        self.unread.fill(&mut self.reader)
    }

    // Counts a fault.
    fn fail(&mut self) -> SourceFail
        ensures fault { result ≡ SourceFail.Fault }
        ensures taken { self.new.taken.value ≡ self.old.taken.value }
        ensures faults { Rose self.old.faults.value self.new.faults.value }
        ensures falls { NeverFalls self.old.faults.value self.new.faults.value }
        ensures ahead { ahead R.remaining self.new ≡ ahead R.remaining self.old }
        ensures reader { self.new.reader ≡ self.old.reader }
    {
        self.faults.raise(1);
        SourceFail::Fault
    }

    // Gives the line, which is read to its end.
    fn give(&mut self, line: Line, limit: u64) -> Result<Option<Vec<u8>>, SourceFail>
        requires { IsWithin limit line }
        ensures taken { self.new.taken.value
            ≡ min (self.old.taken.value + count_taken result) last_count }
        ensures faults { self.new.faults.value ≡ self.old.faults.value }
        ensures ahead { ahead R.remaining self.new ≡ ahead R.remaining self.old }
        ensures reader { self.new.reader ≡ self.old.reader }
        ensures tells { (bytes : Sequence ℕ) → StandsFor limit bytes line
            → Tells limit bytes result }
        ensures within { IfOk result (λ line. IfSome line (λ bytes. length bytes.items ≤ limit)) }
        ensures fault { CountsFault self.old.faults.value self.new.faults.value result }
        ensures carries { (n : ℕ) → IsErrOf result (SourceFail.TooLong n) → n ≡ limit }
    {
        self.taken.raise(1);
        line.ended(limit)
    }
}

impl<R: Read + Drop> Source for StdSource<R> {
    ghost use Rattle.std.specs.Prelude.{None};

    ghost seen = { λ s. record { left = None; taken = s.taken.value; faults = s.faults.value } };

    /// As the trait says. After `Fault` what was read of a line before is lost. Where the reader's
    /// bytes are known, the lines are exactly theirs.
    fn take(&mut self, limit: u64) -> Result<Option<Vec<u8>>, SourceFail>
        // Where a whole line is unread, the reader isn't asked.
        ensures waits { IsTrue (is_some (position is_feed self.old.unread))
            → self.new.reader ≡ self.old.reader }

        // Where the bytes are known.
        ensures bytes { TakesKnown limit (ahead R.remaining self.old)
            (ahead R.remaining self.new) result }

        // As the trait says.
        ensures left { Leaves None None limit result }
        ensures taken { self.new.taken.value
            ≡ min (self.old.taken.value + count_taken result) last_count }
        ensures faults { NeverFalls self.old.faults.value self.new.faults.value }
        ensures within { IfOk result (λ line. IfSome line (λ bytes. length bytes.items ≤ limit)) }
        ensures fault { CountsFault self.old.faults.value self.new.faults.value result }
        ensures carries { (n : ℕ) → IsErrOf result (SourceFail.TooLong n) → n ≡ limit }
    {
        let mut line = Line::Kept(Vec::new(self.alloc));
        let mut is_begun = false;
        for _ in 0..u64::MAX {
            if self.fill().is_err() {
                return Err(self.fail());
            }
            if self.unread.as_slice().is_empty() {
                return if is_begun {
                    self.give(line, limit)
                } else {
                    Ok(None)
                };
            }
            if line.take_from(&mut self.unread, limit) {
                return self.give(line, limit);
            }
            is_begun = true;
        }
        Err(self.fail())
    }
}
