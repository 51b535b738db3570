//! Names by their numbers.
ghost use Rattle.std.specs.Prelude.{◌≡◌, [], IfOk, OnOk, OnErr, is_some, map, position};
ghost use Rattle.indexmap.specs.IndexSet.{insert_all, insert_key};
ghost use Rattle.ba_sql_ddl.specs.Numbers.{capped, key_number, number, number_in, once, place, same_name};

use crate::written::Name;
use ba_model::{Duplicate, List, Str};
use indexmap::IndexSet;
use std::alloc::{AllocError, Global};
use std::marker::Model;

/// Different names, in the order in which they were added.
#[derive(Drop)]
pub struct Names {
    set: IndexSet<Str>,
}

impl Model for Names {
    ghost use Rattle.std.specs.Prelude.{List as Sequence, ℕ};

    ghost Value = { Sequence (Sequence ℕ) };

    ghost view = { λ it. it.set.keys };
}

impl Names {
    pub fn new(alloc: Global) -> Names
        ensures { result ≡ [] }
    {
        Names {
            set: IndexSet::new(alloc),
        }
    }

    /// Adds a name, unless it is there.
    pub fn add(&mut self, alloc: Global, name: &Str) -> Result<(), AllocError>
        ensures { OnOk result (self.new ≡ insert_key same_name self.old name.now) }
    {
        let name = name.copy(alloc)?;
        self.set.insert_full(name)?;
        Ok(())
    }

    /// Adds names in turn.
    pub fn add_all(&mut self, alloc: Global, names: &[Name]) -> Result<(), AllocError>
        ensures { OnOk result (self.new ≡ insert_all same_name self.old names.now) }
    {
        for name in names {
            self.add(alloc, &name.text)?;
        }
        Ok(())
    }

    fn position(&self, name: &Str) -> Option<usize>
        ensures { result ≡ position (same_name name.now) self.now }
    {
        self.set.get_index_of(name)
    }

    pub fn contains(&self, name: &Str) -> bool
        ensures { result ≡ is_some (position (same_name name.now) self.now) }
    {
        self.position(name).is_some()
    }

    /// Where the name stands, or the count of names if it isn't there.
    fn place(&self, name: &Str) -> usize
        ensures { result ≡ place self.now name.now }
    {
        match self.position(name) {
            Some(place) => place,
            None => self.set.len(),
        }
    }

    /// The name's number.
    pub fn number(&self, name: &Str) -> u32
        ensures { result ≡ number self.now name.now }
    {
        capped(self.place(name))
    }

    /// The number of a key's column among a table's columns; a name that isn't there has a number
    /// behind them.
    fn key_number(&self, own: &Names, name: &Str) -> u32
        ensures { result ≡ key_number self.now own.now name.now }
    {
        match self.position(name) {
            Some(place) => capped(place),
            None => capped(self.set.len().saturating_add(own.place(name))),
        }
    }
}

fn capped(n: usize) -> u32
    ensures { result ≡ capped n }
{
    if n < 0xffff_ffff {
        n as u32
    } else {
        0xffff_ffff
    }
}

/// The numbers of names among a table's columns.
pub fn numbers(alloc: Global, columns: &Names, names: &[Name]) -> Result<List<u32>, AllocError>
    ensures { IfOk result (λ found. found ≡ map (number columns.now) names.now) }
{
    let mut found = List::new(alloc);
    for name in names {
        found.push(columns.number(&name.text))?;
    }
    Ok(found)
}

fn numbers_with(
    alloc: Global,
    columns: &Names,
    own: &Names,
    names: &[Name],
) -> Result<List<u32>, AllocError>
    ensures { IfOk result (λ found. found ≡ map (key_number columns.now own.now) names.now) }
{
    let mut found = List::new(alloc);
    for name in names {
        found.push(columns.key_number(own, &name.text))?;
    }
    Ok(found)
}

/// The numbers of a key's columns.
pub fn key_numbers(alloc: Global, columns: &Names, names: &[Name]) -> Result<List<u32>, AllocError>
    ensures { IfOk result
        (λ found. found ≡ map (key_number columns.now (once names.now)) names.now) }
{
    let mut own = Names::new(alloc);
    own.add_all(alloc, names)?;
    numbers_with(alloc, columns, &own, names)
}

fn number_in(tables: &[Names], table: u32, name: &Str) -> u32
    ensures { result ≡ number_in tables.now table name.now }
{
    match tables.get(table as usize) {
        Some(columns) => columns.number(name),
        None => 0,
    }
}

/// The numbers of names among the columns of the table of a number.
pub fn numbers_in(
    alloc: Global,
    tables: &[Names],
    table: u32,
    names: &[Name],
) -> Result<List<u32>, AllocError>
    ensures { IfOk result (λ found. found ≡ map (number_in tables.now table) names.now) }
{
    let mut found = List::new(alloc);
    for name in names {
        found.push(number_in(tables, table, &name.text))?;
    }
    Ok(found)
}
