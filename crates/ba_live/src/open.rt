//! Requests that are open.
ghost use Rattle.std.specs.Prelude.{◌≡◌, ◌≤◌, ◌+◌, [], ◌∷◌, ◌++◌, OnOk, OnErr};
ghost use Rattle.ba_live.specs.Askers.{IsFrontOf, asked_more, closed_now, new_open, with_line, with_told, without};
ghost use Rattle.ba_live.specs.Limits.{most_open_asks};

use ba_comply::{Trace, TraceEntry};
use ba_model::{Context, Query, Shared, Str};
use std::alloc::{AllocError, Global};
use std::marker::Model;

/// Questions of a request.
pub const MAX_OPEN_ASKS: u32 = 65_536;

/// The lines of a request's questions that may still be told.
#[derive(Drop)]
pub struct Lines {
    numbers: Vec<u64>,
}

impl Model for Lines {
    ghost use Rattle.std.specs.Prelude.{List, ℕ};

    ghost Value = { List ℕ };

    ghost view = { λ it. it.numbers.items };
}

impl Lines {
    pub(crate) fn new(alloc: Global) -> Lines
        ensures { result ≡ [] }
    {
        Lines {
            numbers: Vec::new(alloc),
        }
    }

    pub(crate) fn as_slice(&self) -> &[u64]
        ensures { result.now ≡ self.now }
    {
        self.numbers.as_slice()
    }

    pub(crate) fn push(&mut self, line: u64) -> Result<(), AllocError>
        ensures ok { OnOk result (self.new ≡ self.old ++ line ∷ []) }
        ensures err { OnErr result (self.new ≡ self.old) }
    {
        self.numbers.push(line)?;
        Ok(())
    }

    /// The line isn't to be told any more.
    pub(crate) fn forget(&mut self, line: u64)
        ensures { self.new ≡ without line self.old }
    {
        self.numbers.retain(move |number| *number != line);
    }
}

/// A request that is open: its context, the questions that rows were told of, with these rows, how
/// many questions it asked, the lines of its questions that may still be told, and whether it was
/// closed, since what it was told contradicts itself.
#[derive(Drop)]
pub struct Open {
    pub context: Context,
    pub trace: Trace,
    pub asks: u32,
    pub lines: Lines,
    pub closed: bool,
}

/// An allowed question that may still be told: the name of its request, and the question.
#[derive(Drop)]
pub struct Asked {
    pub name: Str,
    pub query: Shared<Query>,
}

impl Open {
    /// A request that has asked nothing and was told nothing.
    pub(crate) fn new(alloc: Global, context: Context) -> Open
        ensures { result ≡ new_open context }
    {
        Open {
            context,
            trace: Trace::new(alloc),
            asks: 0,
            lines: Lines::new(alloc),
            closed: false,
        }
    }

    /// It can only end from now on.
    pub(crate) fn close(&mut self)
        ensures { self.new ≡ closed_now self.old }
    {
        self.closed = true;
    }

    /// It has asked so many questions more.
    pub(crate) fn count(&mut self, asks: u32)
        requires fits { self.old.asks + asks ≤ most_open_asks }
        ensures { self.new ≡ asked_more asks self.old }
    {
        self.asks += asks;
    }

    /// It has asked the question of this line, which may be told. After an error, which is want of
    /// memory, it is as before.
    pub(crate) fn expect(&mut self, line: u64) -> Result<(), AllocError>
        requires fits { self.old.asks + 1 ≤ most_open_asks }
        ensures ok { OnOk result (self.new ≡ with_line line self.old) }
        ensures err { OnErr result (self.new ≡ self.old) }
    {
        self.lines.push(line)?;
        self.asks += 1;
        Ok(())
    }

    /// The entries join the trace, in their order. After an error, which is want of memory, a front
    /// of them has joined it.
    fn record(&mut self, entries: Vec<TraceEntry>) -> Result<(), AllocError>
        ensures ok { OnOk result
            (self.new ≡ record self.old { trace = self.old.trace ++ entries.items }) }
        ensures err { OnErr result (IsFrontOf entries.items self.old self.new) }
    {
        for entry in entries {
            self.trace.push(entry)?;
        }
        Ok(())
    }

    /// It was told these entries of the question of this line, which isn't to be told any more.
    /// After an error, which is want of memory, it was told a front of them, and the rest is as
    /// before.
    pub(crate) fn tell(&mut self, line: u64, entries: Vec<TraceEntry>) -> Result<(), AllocError>
        ensures ok { OnOk result (self.new ≡ with_told line entries.items self.old) }
        ensures err { OnErr result (IsFrontOf entries.items self.old self.new) }
    {
        self.record(entries)?;
        self.lines.forget(line);
        Ok(())
    }
}
