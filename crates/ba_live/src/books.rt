//! What is open, by its name or its line.
ghost use Rattle.std.specs.Prelude.{◌≡◌, ◌≤◌, ◌+◌, ℕ, IfOk, OnOk, OnErr, List as Sequence, is_some};
ghost use Rattle.std.specs.Option.{option_copied};
ghost use Rattle.ba_live.specs.Askers.{asked_more, closed_now, with_line, with_told};
ghost use Rattle.ba_live.specs.Books.{Expects, ForgetsAll, HasFront, LeavesAsked, LeavesOpen, MayAsk, Opens, asked_in, many_open, open_in};
ghost use Rattle.ba_live.specs.declared.open.Open.{Open as Asker};

use crate::open::{Asked, Open};
use ba_comply::TraceEntry;
use ba_model::Str;
use std::alloc::{AllocError, Global};
use std::collections::BTreeMap;

/// The open requests, by their names.
#[derive(Drop)]
pub(crate) struct Requests {
    pub(crate) by_name: BTreeMap<Str, Open>,
}

/// The allowed questions that may still be told, by their lines.
#[derive(Drop)]
pub(crate) struct Questions {
    pub(crate) by_line: BTreeMap<u64, Asked>,
}

impl Requests {
    pub(crate) fn new(alloc: Global) -> Requests
        ensures none { (name : Sequence ℕ) → open_in result name ≡ None }
        ensures many { many_open result ≡ 0 }
    {
        Requests {
            by_name: BTreeMap::new(alloc),
        }
    }

    pub(crate) fn len(&self) -> usize
        ensures { result ≡ many_open self.now }
    {
        self.by_name.len()
    }

    pub(crate) fn get(&self, name: &Str) -> Option<&Open>
        ensures { option_copied result ≡ open_in self.now name.now }
    {
        self.by_name.get(name)
    }

    pub(crate) fn has(&self, name: &Str) -> bool
        ensures { result ≡ is_some (open_in self.now name.now) }
    {
        self.by_name.contains_key(name)
    }

    /// The request is open from now on. After an error, which is want of memory, nothing changed.
    pub(crate) fn open(&mut self, name: Str, request: Open) -> Result<(), AllocError>
        requires free { open_in self.old name ≡ None }
        ensures ok { OnOk result (Opens name (Some request) self.old self.new) }
        ensures many { OnOk result (many_open self.new ≡ many_open self.old + 1) }
        ensures err { OnErr result (LeavesOpen self.old self.new) }
        ensures few { OnErr result (many_open self.new ≡ many_open self.old) }
    {
        self.by_name.insert(name, request)?;
        Ok(())
    }

    /// The request is open no more.
    pub(crate) fn close(&mut self, name: &Str) -> Option<Open>
        ensures was { result ≡ open_in self.old name.now }
        ensures closes { Opens name.now None self.old self.new }
        ensures many { many_open self.new ≤ many_open self.old }
    {
        self.by_name.remove(name)
    }

    /// The open request can only end from now on.
    pub(crate) fn shut(&mut self, name: &Str)
        ensures closes { (asker : Asker) → open_in self.old name.now ≡ Some asker
            → Opens name.now (Some (closed_now asker)) self.old self.new }
        ensures many { many_open self.new ≡ many_open self.old }
    {
        if let Some(open) = self.by_name.get_mut(name) {
            open.close();
        }
    }

    /// The open request has asked so many questions more.
    pub(crate) fn count(&mut self, name: &Str, asks: u32)
        requires may { MayAsk asks name.now self.old }
        ensures counts { (asker : Asker) → open_in self.old name.now ≡ Some asker
            → Opens name.now (Some (asked_more asks asker)) self.old self.new }
        ensures many { many_open self.new ≡ many_open self.old }
    {
        if let Some(open) = self.by_name.get_mut(name) {
            open.count(asks);
        }
    }

    /// The open request has asked the question of this line, which may be told. After an error,
    /// which is want of memory, nothing changed.
    pub(crate) fn expect(&mut self, name: &Str, line: u64) -> Result<(), AllocError>
        requires may { MayAsk 1 name.now self.old }
        ensures ok { OnOk result ((asker : Asker) → open_in self.old name.now ≡ Some asker
            → Opens name.now (Some (with_line line asker)) self.old self.new) }
        ensures err { OnErr result (LeavesOpen self.old self.new) }
        ensures many { many_open self.new ≡ many_open self.old }
    {
        if let Some(open) = self.by_name.get_mut(name) {
            open.expect(line)?;
        }
        Ok(())
    }

    /// The open request was told these entries of the question of this line, which isn't to be told
    /// any more. After an error, which is want of memory, it was told a front of them.
    pub(crate) fn record(
        &mut self,
        name: &Str,
        line: u64,
        entries: Vec<TraceEntry>,
    ) -> Result<(), AllocError>
        ensures ok { OnOk result ((asker : Asker) → open_in self.old name.now ≡ Some asker
            → Opens name.now (Some (with_told line entries.items asker)) self.old self.new) }
        ensures err { OnErr result ((asker : Asker) → open_in self.old name.now ≡ Some asker
            → HasFront entries.items name.now asker self.old self.new) }
        ensures many { many_open self.new ≡ many_open self.old }
    {
        if let Some(open) = self.by_name.get_mut(name) {
            open.tell(line, entries)?;
        }
        Ok(())
    }
}

impl Questions {
    pub(crate) fn new(alloc: Global) -> Questions
        ensures { (line : ℕ) → asked_in result line ≡ None }
    {
        Questions {
            by_line: BTreeMap::new(alloc),
        }
    }

    pub(crate) fn get(&self, line: u64) -> Option<&Asked>
        ensures { option_copied result ≡ asked_in self.now line }
    {
        self.by_line.get(&line)
    }

    /// The question of the line may be told. After an error, which is want of memory, nothing
    /// changed.
    pub(crate) fn expect(&mut self, line: u64, asked: Asked) -> Result<(), AllocError>
        ensures ok { OnOk result (Expects line (Some asked) self.old self.new) }
        ensures err { OnErr result (LeavesAsked self.old self.new) }
    {
        self.by_line.insert(line, asked)?;
        Ok(())
    }

    /// The question of the line isn't to be told any more.
    pub(crate) fn forget(&mut self, line: u64)
        ensures { Expects line None self.old self.new }
    {
        self.by_line.remove(&line);
    }

    /// The questions of these lines aren't to be told any more.
    pub(crate) fn forget_all(&mut self, lines: &[u64])
        ensures { ForgetsAll lines.now self.old self.new }
    {
        for line in lines {
            self.forget(*line);
        }
    }
}
