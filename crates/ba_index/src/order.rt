//! The order of a table's rows by their values on some columns.
ghost use Rattle.std.specs.Prelude.{◌≡◌, length, map, IfOk};
ghost use Rattle.std.specs.List.Sorted.{IsPermutation, IsSortedByKey};
ghost use Rattle.std.specs.Ordering.{eq_by_cmp};
ghost use Rattle.ba_model.specs.Order.{row_cmp};
ghost use Rattle.ba_index.specs.Orders.{values_at, AreNumbers, HaveFront, IsInOrder};

use crate::place::{order_on, order_to};
use ba_model::{Duplicate, List, Row, Value};
use std::alloc::{AllocError, Global};

/// The numbers of a table's rows, so that the values on the columns rise.
#[derive(Debug, Drop)]
pub struct Order {
    /// The table's number.
    pub table: u32,
    pub columns: List<u32>,
    /// The numbers of all rows of the table, from 0.
    pub numbers: List<usize>,
}

impl Order {
    /// The order of these rows of the table. For n rows it takes the time of a sort, n log n comparisons. The only error is
    /// want of memory.
    pub fn new(
        alloc: Global,
        table: u32,
        columns: &List<u32>,
        rows: &[Row],
    ) -> Result<Order, AllocError>
        ensures table { IfOk result (λ order. order.table ≡ table) }
        ensures columns { IfOk result (λ order. order.columns ≡ columns.now) }
        ensures order { IfOk result (IsInOrder rows.now) }
    {
        let columns = columns.copy(alloc)?;
        let mut numbers = numbers_of(alloc, rows)?;
        put_in_order(&mut numbers, columns.as_slice(), rows);
        Ok(Order {
            table,
            columns,
            numbers: List::from_vec(numbers),
        })
    }

    /// Whether the rows with these numbers have the same values on the columns.
    pub fn ties(&self, rows: &[Row], a: usize, b: usize) -> bool
        ensures { result ≡ eq_by_cmp row_cmp (values_at rows.now self.now.columns a) (values_at rows.now self.now.columns b) }
    {
        order_on(rows, self.columns.as_slice(), a, b).is_eq()
    }

    /// The numbers of exactly the rows whose values on the first columns, as many as the key has values, are the key's.
    ///
    /// For n rows it looks at some 2 log n of them.
    pub fn with_front(&self, rows: &[Row], key: &[&Value]) -> &[usize]
        requires { IsInOrder rows.now self.now }
        ensures { HaveFront rows.now self.now (map (λ v. v.now) key.now) result.now }
    {
        let columns = self.columns.as_slice();
        let numbers = self.numbers.as_slice();
        let lesser = numbers.partition_point(|number| order_to(
            rows, columns, *number, key,
        ).is_lt());
        let rest = &numbers[lesser..];
        let same = rest.partition_point(|number| order_to(rows, columns, *number, key).is_le());
        &rest[..same]
    }
}

fn numbers_of(alloc: Global, rows: &[Row]) -> Result<Vec<usize>, AllocError>
    ensures { IfOk result (λ numbers. AreNumbers (length rows.now) numbers.items) }
{
    let mut numbers = Vec::new(alloc);
    for number in 0..rows.len() {
        numbers.push(number)?;
    }
    Ok(numbers)
}

fn put_in_order(numbers: &mut Vec<usize>, columns: &[u32], rows: &[Row])
    ensures moved { IsPermutation numbers.old.items numbers.new.items }
    ensures sorted { IsSortedByKey (values_at rows.now columns.now) row_cmp numbers.new.items }
{
    numbers.sort_unstable_by(|a, b| order_on(rows, columns, *a, *b));
}
