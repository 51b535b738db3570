//! The tables of a select's sources, of each as few as are needed.
ghost use Rattle.std.specs.Prelude.{◌≡◌, IfOk, count_by, nat_eq};
ghost use Rattle.std.specs.List.{list_any, position};
ghost use Rattle.ba_sql_query.specs.Names.{has_column, place_of};
ghost use Rattle.ba_sql_query.specs.Spots.{Keeps, spot_kept};

use crate::columns::has_column;
use crate::fault::ReadQueryFault;
use crate::spot::{Spot, only_at};
use ba_model::{Schema, Str};
use std::alloc::{AllocError, Global};
use std::marker::Model;

/// A table at a place.
#[derive(Drop)]
pub struct Kept {
    pub table: u32,
    pub place: usize,
}

/// The numbers of the tables of a select's sources, which a contract sees as their list. Of each table two places are kept at
/// most: a third one tells nothing new.
#[derive(Drop)]
pub struct Tables<'a> {
    all: &'a [u32],
    kept: Vec<Kept>,
}

impl<'a> Model for Tables<'a> {
    ghost use Rattle.std.specs.Prelude.{List, ℕ};
    ghost use Rattle.ba_sql_query.specs.Spots.{Keeps};

    ghost Value = { List ℕ };

    ghost view = { λ it. it.all.now };

    ghost invariant = { λ it. Keeps it.kept.items it.all.now };
}

impl<'a> Tables<'a> {
    pub fn new(alloc: Global, tables: &'a [u32]) -> Result<Tables<'a>, AllocError>
        ensures { IfOk result (λ it. it ≡ tables.now) }
    {
        let kept = kept_of(alloc, tables)?;
        Ok(Tables { all: tables, kept })
    }

    pub fn as_slice(&self) -> &[u32]
        ensures { result.now ≡ self.now }
    {
        self.all
    }

    /// The place of the only source that has the column.
    #[tactic(auto, unfolding(crate::specs::Names::place_of))]
    pub fn place_of(&self, schema: &Schema, name: &Str) -> Result<u32, ReadQueryFault>
        ensures { result ≡ place_of schema.now self.now name.now }
    {
        only_at(
            ReadQueryFault::UnknownColumn,
            spot_having(&self.kept, schema, name),
        )
    }
}

fn first_having(kept: &[Kept], schema: &Schema, name: &Str) -> Option<usize>
    ensures { result ≡ position (λ kept. has_column schema.now name.now kept.table) kept.now }
{
    kept.iter()
        .position(|kept| has_column(schema, name, kept.table))
}

fn any_having(kept: &[Kept], schema: &Schema, name: &Str) -> bool
    ensures { result ≡ list_any (λ kept. has_column schema.now name.now kept.table) kept.now }
{
    kept.iter().any(|kept| has_column(schema, name, kept.table))
}

// Where the column is first, and whether it is there again.
fn spot_having(kept: &[Kept], schema: &Schema, name: &Str) -> Option<Spot>
    ensures { result ≡ spot_kept (has_column schema.now name.now) kept.now }
{
    match first_having(kept, schema, name) {
        Some(at) => Some(Spot {
            first: kept[at].place,
            again: any_having(&kept[at + 1..], schema, name),
        }),
        None => None,
    }
}

fn times_kept(kept: &[Kept], table: u32) -> usize
    ensures { result ≡ count_by (λ kept. nat_eq kept.table table) kept.now }
{
    kept.iter().filter(|kept| kept.table == table).count()
}

// The first two places of each table.
fn kept_of(alloc: Global, tables: &[u32]) -> Result<Vec<Kept>, AllocError>
    ensures { IfOk result (λ kept. Keeps kept.items tables.now) }
{
    let mut kept = Vec::new(alloc);
    for (place, table) in tables.iter().enumerate() {
        let table = *table;
        if times_kept(&kept, table) < 2 {
            kept.push(Kept { table, place })?;
        }
    }
    Ok(kept)
}
