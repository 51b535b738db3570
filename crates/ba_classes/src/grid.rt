ghost use Rattle.std.specs.Prelude.{◌≡◌, ◌≢◌, ℕ, ◌+◌, ◌^◌, ◌<◌, ◌≤◌, [], length, slice_index_or, slice_set, ℤ, pos, neg_ℤ, ◌≤ℤ◌, take, IsTrue, IfOk, IfSome, OnOk, OnErr, Some, None, nat_eq, ◌⊎◌};
ghost use Rattle.ba_classes.specs.Best.{IsWithin, Reaches, better, joined, or_nothing};
ghost use Rattle.ba_classes.specs.Grid.{IsGrid, IsLast, NoneNew, NonePast, SameBelow, SameCells, between, cell_at, place_of};

use super::best::Best;
use super::row::Row;
use super::seats::Seats;
use ba_model::{Duplicate, Shared};
use std::alloc::{AllocError, Global};

/// The best chains between the nodes that were named. A named node has a place, which is the number
/// of its row and of its column.
///
/// Copies share their rows: a row that changes is replaced by a changed copy of its own.
#[derive(Drop)]
pub struct Grid {
    places: Seats,
    /// The nodes by their places. It is tested where it is read.
    names: Vec<u32>,
    rows: Vec<Shared<Row>>,
    ghost in_order: { IsGrid places rows.items },
}

impl Grid {
    pub fn new(alloc: Global) -> Grid
        ensures unnamed { result.places.count ≡ 0 }
        ensures absent { (x y : ℕ) → between result.places result.rows.items x y ≡ Best.Absent }
    {
        Grid {
            places: Seats::new(alloc),
            names: Vec::new(alloc),
            rows: Vec::new(alloc),
        }
    }

    /// The place of a node, which gets one if it has none.
    pub fn place(&mut self, node: u32) -> Result<usize, AllocError>
        ensures place { IfOk result (λ p. place_of self.new.places node ≡ Some p) }
        ensures kept { (x p : ℕ) →
            place_of self.old.places x ≡ Some p → place_of self.new.places x ≡ Some p }
        ensures named { (p : ℕ) → p < self.new.places.count →
            (p < self.old.places.count) ⊎ (place_of self.new.places node ≡ Some p) }
        ensures same { (x y : ℕ) →
            between self.new.places self.new.rows.items x y
            ≡ between self.old.places self.old.rows.items x y }
    {
        if let Some(place) = self.places.get(node) {
            return Ok(place as usize);
        }
        let place = self.places.len();
        let alloc = *self.rows.allocator();
        cut(alloc, &mut self.rows, place)?;
        add_row(alloc, &mut self.rows, place)?;
        self.names.truncate(place);
        self.names.push(node)?;
        self.places.add(node)?;
        Ok(place)
    }

    /// The best chain of at least one fact from `x` to `y`. Mostly no node was named.
    #[tactic(auto, using(crate::proofs::GridLemmas::none_between))]
    pub fn between(&self, x: u32, y: u32) -> Best
        ensures { result ≡ between self.now.places self.now.rows.items x y }
    {
        if self.rows.is_empty() {
            return Best::Absent;
        }
        match (self.places.get(x), self.places.get(y)) {
            (Some(row), Some(column)) => self.at(row as usize, column as usize),
            _ => Best::Absent,
        }
    }

    /// The best chains that go on from the node of a place, the empty one too.
    pub fn onward(&self, place: usize) -> Result<Row, AllocError>
        requires { place < self.now.places.count }
        ensures below { IfOk result (λ row. (j : ℕ) → j < self.now.places.count →
            slice_index_or row j Best.Absent
            ≡ or_nothing (nat_eq place j) (cell_at self.now.rows.items place j)) }
        ensures past { IfOk result (λ row. (j : ℕ) → self.now.places.count ≤ j →
            slice_index_or row j Best.Absent ≡ Best.Absent) }
    {
        self.rows[place].onward(*self.rows.allocator(), place, self.places.len())
    }

    /// The rows with the chains that come to the place `low`, go on by `by`, and go on from there
    /// by `onward`.
    pub fn raised(&self, low: usize, by: Best, onward: &Row) -> Result<Vec<Shared<Row>>, AllocError>
        requires low { low < self.now.places.count }
        requires comes { (i : ℕ) →
            IsWithin (2 ^ 98) (or_nothing (nat_eq i low) (cell_at self.now.rows.items i low)) }
        requires by { IsWithin (2 ^ 66) by }
        requires goes { (j : ℕ) → IsWithin (2 ^ 98) (slice_index_or onward.now j Best.Absent) }
        ensures grid { IfOk result (λ rows. IsGrid self.now.places rows.items) }
        ensures cells { IfOk result (λ rows. (i j : ℕ) →
            cell_at rows.items i j
            ≡ better (cell_at self.now.rows.items i j)
            (joined (joined (or_nothing (nat_eq i low) (cell_at self.now.rows.items i low)) by)
            (slice_index_or onward.now j Best.Absent))) }
    {
        raised(*self.rows.allocator(), &self.rows, low, by, onward)
    }

    /// Puts rows for the same places where the old ones are.
    pub fn set_rows(&mut self, rows: Vec<Shared<Row>>)
        requires { IsGrid self.old.places rows.items }
        ensures places { self.new.places ≡ self.old.places }
        ensures rows { self.new.rows.items ≡ rows.items }
    {
        self.rows = rows;
    }

    /// How many nodes have places.
    pub fn side(&self) -> usize {
        self.places.len()
    }

    /// The node that has the last place.
    pub fn last(&self) -> Option<u32>
        ensures { IfSome result (IsLast self.now.places) }
    {
        match self.names.last() {
            Some(node) if self.is_last(*node) => Some(*node),
            _ => None,
        }
    }

    fn is_last(&self, node: u32) -> bool
        ensures { IsTrue result → IsLast self.now.places node }
    {
        match self.places.get(node) {
            Some(place) => place as usize + 1 == self.places.len(),
            None => false,
        }
    }

    /// The value of a node over node 0, where the chains show one that is at most 2^64 away from 0.
    pub fn known(&self, node: u32) -> Option<i128>
        ensures above { IfSome result (λ v. neg_ℤ (pos (2 ^ 64)) ≤ℤ v) }
        ensures below { IfSome result (λ v. v ≤ℤ pos (2 ^ 64)) }
        ensures at_least { IfSome result (λ v.
            between self.now.places self.now.rows.items 0 node ≡ Best.Sum v) }
        ensures at_most { IfSome result (λ v.
            Reaches (between self.now.places self.now.rows.items node 0) (neg_ℤ v)) }
    {
        match self.between(0, node) {
            Best::Sum(value)
                if value.unsigned_abs() <= 1 << 64 && self.between(node, 0).reaches(-value) => {
                Some(value)
            }
            _ => None,
        }
    }

    /// Takes the last place from the node that has it. The rows' cells at that place are left until
    /// another node gets it.
    pub fn give_back(&mut self, node: u32)
        requires { IsLast self.old.places node }
        ensures len { self.new.places.count + 1 ≡ self.old.places.count }
        ensures gone { place_of self.new.places node ≡ None }
        ensures kept { (x : ℕ) → x ≢ node → place_of self.new.places x ≡ place_of self.old.places x }
        ensures same { (x y : ℕ) → x ≢ node → y ≢ node →
            between self.new.places self.new.rows.items x y
            ≡ between self.old.places self.old.rows.items x y }
    {
        self.places.remove(node);
        let side = self.places.len();
        self.names.truncate(side);
        self.rows.truncate(side);
    }

    /// The same nodes with the same places and chains. The rows are shared.
    pub fn copy(&self, alloc: Global) -> Result<Grid, AllocError>
        ensures places { IfOk result (λ other. other.places ≡ self.now.places) }
        ensures rows { IfOk result (λ other. other.rows.items ≡ self.now.rows.items) }
    {
        Ok(Grid {
            places: self.places.copy(alloc)?,
            names: Vec::from_slice(alloc, &self.names)?,
            rows: copy_rows(alloc, &self.rows)?,
        })
    }

    fn at(&self, row: usize, column: usize) -> Best
        ensures { result ≡ cell_at self.now.rows.items row column }
    {
        match self.rows.get(row) {
            Some(cells) => cells.at(column),
            None => Best::Absent,
        }
    }
}

fn copy_rows(alloc: Global, rows: &[Shared<Row>]) -> Result<Vec<Shared<Row>>, AllocError>
    ensures { IfOk result (λ other. other.items ≡ rows.now) }
{
    let mut others = Vec::with_capacity(alloc, rows.len())?;
    for row in rows {
        others.push(row.copy(alloc)?)?;
    }
    Ok(others)
}

// Takes away the cells that rows have from the place `side` on. Without memory some may be left.
fn cut(alloc: Global, rows: &mut [Shared<Row>], side: usize) -> Result<(), AllocError>
    ensures same { SameBelow side rows.old rows.new }
    ensures none_new { NoneNew rows.old rows.new }
    ensures none_past { OnOk result (NonePast side rows.new) }
{
    for row in rows.iter_mut() {
        cut_row(alloc, row, side)?;
    }
    Ok(())
}

// The same for one row. Without memory nothing changes.
fn cut_row(alloc: Global, row: &mut Shared<Row>, side: usize) -> Result<(), AllocError>
    ensures ok { OnOk result (row.new ≡ take side row.old) }
    ensures err { OnErr result (row.new ≡ row.old) }
{
    if row.len() <= side {
        return Ok(());
    }
    match row.get_mut() {
        Some(own) => own.cut(side),
        None => *row = Shared::new(alloc, row.first(alloc, side)?)?,
    }
    Ok(())
}

// Adds an empty row at the place, unless there is one.
fn add_row(alloc: Global, rows: &mut Vec<Shared<Row>>, place: usize) -> Result<(), AllocError>
    requires { place ≤ length rows.old.items }
    ensures same { SameCells rows.old.items rows.new.items }
    ensures longer { length rows.old.items ≤ length rows.new.items }
    ensures tall { OnOk result (place < length rows.new.items) }
{
    if rows.len() == place {
        rows.push(Shared::new(alloc, Row::new(alloc))?)?;
    }
    Ok(())
}

// The rows with the chains that come to the place `low`, go on by `by`, and go on from there by
// `onward`.
fn raised(
    alloc: Global,
    rows: &[Shared<Row>],
    low: usize,
    by: Best,
    onward: &Row,
) -> Result<Vec<Shared<Row>>, AllocError>
    requires low { low < length rows.now }
    requires comes { (i : ℕ) →
        IsWithin (2 ^ 98) (or_nothing (nat_eq i low) (cell_at rows.now i low)) }
    requires by { IsWithin (2 ^ 66) by }
    requires goes { (j : ℕ) → IsWithin (2 ^ 98) (slice_index_or onward.now j Best.Absent) }
    ensures len { IfOk result (λ others. length others.items ≡ length rows.now) }
    ensures cells { IfOk result (λ others. (i j : ℕ) →
        cell_at others.items i j
        ≡ better (cell_at rows.now i j)
        (joined (joined (or_nothing (nat_eq i low) (cell_at rows.now i low)) by)
        (slice_index_or onward.now j Best.Absent))) }
{
    let mut others = Vec::with_capacity(alloc, rows.len())?;
    for (place, row) in rows.iter().enumerate() {
        let comes = row.at(low).or_nothing(place == low).joined(by);
        others.push(raised_row(alloc, row, comes, onward)?)?;
    }
    Ok(others)
}

// The row with the chains that go on from `left` by the row `onward`. Where none is better than
// those there are, the row is shared.
fn raised_row(
    alloc: Global,
    row: &Shared<Row>,
    left: Best,
    onward: &Row,
) -> Result<Shared<Row>, AllocError>
    requires left { IsWithin (2 ^ 99) left }
    requires onward { (j : ℕ) → IsWithin (2 ^ 99) (slice_index_or onward.now j Best.Absent) }
    ensures { IfOk result (λ other. (j : ℕ) →
        slice_index_or other j Best.Absent
        ≡ better (slice_index_or row.now j Best.Absent)
        (joined left (slice_index_or onward.now j Best.Absent))) }
{
    if row.gains(left, onward) {
        Shared::new(alloc, row.raised(alloc, left, onward)?)
    } else {
        row.copy(alloc)
    }
}
