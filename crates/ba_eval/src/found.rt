//! The rows that a search has found.
ghost use Rattle.std.specs.Prelude.{◌≡◌, [], OnOk};
ghost use Rattle.ba_eval.specs.Search.{Adds, IsRisingListOf, SameRows};

use ba_model::{List, Row};
use std::alloc::{AllocError, Global};
use std::marker::Model;

/// Half the rows that are gathered before duplicates are dropped for the first time.
const BATCH: usize = 512;

/// The rows found so far. They are never more than twice the distinct ones and a batch: at each doubling the
/// duplicates go.
#[derive(Drop)]
pub struct Found {
    rows: Vec<Row>,
    /// How many rows the last dropping of duplicates left.
    distinct: usize,
}

impl Model for Found {
    ghost use Rattle.std.specs.Prelude.{List as Sequence};
    ghost use Rattle.ba_model.specs.declared.value.Value.{Value as Cell};

    ghost Value = { Sequence (Sequence Cell) };

    ghost view = { λ it. it.rows.items };
}

impl Found {
    pub fn new(alloc: Global) -> Found
        ensures { result ≡ [] }
    {
        Found {
            rows: Vec::new(alloc),
            distinct: 0,
        }
    }

    pub fn add(&mut self, row: Row) -> Result<(), AllocError>
        ensures { OnOk result (Adds (λ r. r ≡ row) self.old self.new) }
    {
        self.make_room();
        self.rows.push(row)?;
        Ok(())
    }

    fn make_room(&mut self)
        ensures { SameRows self.old self.new }
    {
        if self.rows.len() / 2 > self.distinct.saturating_add(BATCH) {
            self.drop_duplicates();
        }
    }

    /// The strictly rising list of the rows.
    pub fn in_order(mut self) -> List<Row>
        ensures { IsRisingListOf self result }
    {
        self.drop_duplicates();
        List::from_vec(self.rows)
    }

    fn drop_duplicates(&mut self)
        ensures { IsRisingListOf self.old self.new }
    {
        self.rows.sort_unstable();
        self.rows.dedup();
        self.distinct = self.rows.len();
    }
}
