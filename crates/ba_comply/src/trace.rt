ghost use Rattle.std.specs.Prelude.{◌≡◌, [], ◌∷◌, ◌++◌, ◌<◌, OnOk, OnErr, length, slice_get, Some};

use ba_model::{List, Query, Row, Shared};
use std::alloc::{AllocError, Global};
use std::marker::Model;

/// An answered query with its rows, both held in common with whoever answered it.
#[derive(Debug, Drop)]
pub struct TraceEntry {
    pub query: Shared<Query>,
    pub rows: Shared<List<Row>>,
}

/// What one request has been told so far: its answered queries in order, each with its rows. A contract sees the list of entries.
#[derive(Debug, Drop)]
pub struct Trace {
    entries: Vec<TraceEntry>,
}

impl Model for Trace {
    ghost use Rattle.std.specs.Prelude.{List as Sequence};
    ghost use Rattle.ba_comply.specs.declared.trace.TraceEntry.{TraceEntry};

    ghost Value = { Sequence TraceEntry };

    ghost view = { λ it. it.entries.items };
}

impl Trace {
    /// The trace of a request that has asked nothing. It allocates nothing.
    pub fn new(alloc: Global) -> Trace
        ensures { result ≡ [] }
    {
        Trace {
            entries: Vec::new(alloc),
        }
    }

    /// Adds an entry at the end. After an error, which is want of memory, the trace is as before and the entry is dropped.
    pub fn push(&mut self, entry: TraceEntry) -> Result<(), AllocError>
        ensures ok { OnOk result (self.new ≡ self.old ++ entry ∷ []) }
        ensures err { OnErr result (self.new ≡ self.old) }
    {
        self.entries.push(entry)?;
        Ok(())
    }

    /// How many entries there are.
    pub fn len(&self) -> u64
        ensures { result ≡ length self.now }
    {
        self.entries.len() as u64
    }

    /// The entry with the number `i`, from 0 on.
    pub fn entry(&self, i: u64) -> &TraceEntry
        requires { i < length self.now }
        ensures { slice_get self.now i ≡ Some result.now }
    {
        &self.entries[i as usize]
    }
}
