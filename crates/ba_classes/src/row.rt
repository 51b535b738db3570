ghost use Rattle.std.specs.Prelude.{◌≡◌, ℕ, ◌+◌, ◌^◌, ◌<◌, ◌≤◌, [], false, length, nat_eq, slice_index_or, take, IfOk};
ghost use Rattle.ba_classes.specs.Best.{IsWithin, better, joined, or_nothing};

use super::best::Best;
use std::alloc::{AllocError, Global};
use std::marker::Model;

/// The best chains from one node to each place; past the end there are none.
#[derive(Drop)]
pub struct Row {
    cells: Vec<Best>,
}

impl Model for Row {
    ghost use Rattle.std.specs.Prelude.{List};
    ghost use Rattle.ba_classes.specs.declared.best.Best.{Best};

    ghost Value = { List Best };

    ghost view = { λ r. r.cells.items };
}

impl Row {
    pub fn new(alloc: Global) -> Row
        ensures { result ≡ [] }
    {
        Row {
            cells: Vec::new(alloc),
        }
    }

    pub fn at(&self, place: usize) -> Best
        ensures { result ≡ slice_index_or self.now place Best.Absent }
    {
        self.cells.get(place).copied().unwrap_or(Best::Absent)
    }

    /// How many places it has cells for.
    pub fn len(&self) -> usize
        ensures { result ≡ length self.now }
    {
        self.cells.len()
    }

    /// Takes away the chains to the places from `len` on.
    pub fn cut(&mut self, len: usize)
        ensures { self.new ≡ take len self.old }
    {
        self.cells.truncate(len);
    }

    /// The chains to the places below `len`.
    pub fn first(&self, alloc: Global, len: usize) -> Result<Row, AllocError>
        requires { len ≤ length self.now }
        ensures { IfOk result (λ row. row ≡ take len self.now) }
    {
        Ok(Row {
            cells: Vec::from_slice(alloc, &self.cells[..len])?,
        })
    }

    /// The chains to the places below `side`, the empty one to `place` too.
    pub fn onward(&self, alloc: Global, place: usize, side: usize) -> Result<Row, AllocError>
        requires { place < side }
        ensures below { IfOk result (λ row. (j : ℕ) → j < side →
            slice_index_or row j Best.Absent
            ≡ or_nothing (nat_eq place j) (slice_index_or self.now j Best.Absent)) }
        ensures past { IfOk result (λ row. (j : ℕ) → side ≤ j →
            slice_index_or row j Best.Absent ≡ Best.Absent) }
    {
        let len = self.len().min(side).max(place + 1);
        let mut cells = Vec::with_capacity(alloc, len)?;
        for other in 0..len {
            cells.push(self.at(other).or_nothing(place == other))?;
        }
        Ok(Row { cells })
    }

    /// Whether a chain that goes on from `left` by the row `onward` is better than those there are.
    pub fn gains(&self, left: Best, onward: &Row) -> bool
        requires left { IsWithin (2 ^ 99) left }
        requires onward { (j : ℕ) → IsWithin (2 ^ 99) (slice_index_or onward.now j Best.Absent) }
        ensures { result ≡ false → (j : ℕ) →
            better (slice_index_or self.now j Best.Absent)
            (joined left (slice_index_or onward.now j Best.Absent))
            ≡ slice_index_or self.now j Best.Absent }
    {
        if let Best::Absent = left {
            return false;
        }
        for place in 0..onward.len() {
            if !self.at(place).covers(left.joined(onward.at(place))) {
                return true;
            }
        }
        false
    }

    /// These chains and those that go on from `left` by the row `onward`.
    pub fn raised(&self, alloc: Global, left: Best, onward: &Row) -> Result<Row, AllocError>
        requires left { IsWithin (2 ^ 99) left }
        requires onward { (j : ℕ) → IsWithin (2 ^ 99) (slice_index_or onward.now j Best.Absent) }
        ensures { IfOk result (λ row. (j : ℕ) →
            slice_index_or row j Best.Absent
            ≡ better (slice_index_or self.now j Best.Absent)
            (joined left (slice_index_or onward.now j Best.Absent))) }
    {
        let len = self.len().max(onward.len());
        let mut cells = Vec::with_capacity(alloc, len)?;
        for place in 0..len {
            cells.push(self.at(place).better(left.joined(onward.at(place))))?;
        }
        Ok(Row { cells })
    }
}
