//! Names that differ.
ghost use Rattle.std.specs.Prelude.{◌≡◌, [], IfOk, OnOk, not};
ghost use Rattle.std.specs.List.{list_any};
ghost use Rattle.indexmap.specs.IndexSet.{insert_key};
ghost use Rattle.ba_policy.specs.Meaning.{same_name};

use ba_model::{Duplicate, Str};
use indexmap::IndexSet;
use std::alloc::{AllocError, Global};
use std::marker::Model;

/// Different names, in the order in which they were added.
#[derive(Drop)]
pub struct Names {
    set: IndexSet<Str>,
}

impl Model for Names {
    ghost use Rattle.std.specs.Prelude.{List as Sequence, ℕ};

    ghost Value = { Sequence (Sequence ℕ) };

    ghost view = { λ it. it.set.keys };
}

impl Names {
    pub fn new(alloc: Global) -> Names
        ensures { result ≡ [] }
    {
        Names {
            set: IndexSet::new(alloc),
        }
    }

    /// Whether the name is one of them.
    pub fn has(&self, name: &Str) -> bool
        ensures { result ≡ list_any (same_name name.now) self.now }
    {
        self.set.contains(name)
    }

    /// Adds a name, and says whether it is new.
    pub fn add(&mut self, alloc: Global, name: &Str) -> Result<bool, AllocError>
        ensures is_new { IfOk result (λ new. new ≡ not (list_any (same_name name.now) self.old)) }
        ensures names { OnOk result (self.new ≡ insert_key same_name self.old name.now) }
    {
        let name = name.copy(alloc)?;
        Ok(self.set.insert(name)?)
    }
}
