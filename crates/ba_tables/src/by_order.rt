//! What an order of rows shows of keys and links, with no value copied.
ghost use Rattle.std.specs.Prelude.{◌≡◌, ◌<◌, [], Contains, false, IfOk, IfSome, length, map, None, slice_get, Some, true};
ghost use Rattle.std.specs.List.{position_from};
ghost use Rattle.ba_index.specs.Orders.{IsInOrder};
ghost use Rattle.ba_tables.specs.Broken.{clash_after, dangles};
ghost use Rattle.ba_tables.specs.Index.{are_twins};

use crate::null::has_no_null;
use ba_index::Order;
use ba_model::{Link, List, Row, Same, Value};
use std::alloc::{AllocError, Global};

/// The first of the orders that is of the table and on just these columns.
pub fn order_by<'a>(orders: &'a [Order], table: u32, columns: &List<u32>) -> Option<&'a Order>
    ensures there { IfSome result (λ order. Contains orders.now order.now) }
    ensures table { IfSome result (λ order. order.now.table ≡ table) }
    ensures columns { IfSome result (λ order. order.now.columns ≡ columns.now) }
{
    for order in orders {
        if order.table == table && order.columns.same(columns) {
            return Some(order);
        }
    }
    None
}

/// Whether the rows with these numbers are equal on the order's columns and the first has no NULL there.
fn are_twins(rows: &[Row], order: &Order, a: usize, b: usize) -> bool
    requires { a < length rows.now }
    ensures { result ≡ are_twins rows.now order.now.columns a b }
{
    order.ties(rows, a, b) && has_no_null(&rows[a], order.columns.as_slice())
}

/// Whether some two rows beside each other in the order clash on its columns. If none do, no rows clash.
pub fn has_twins(rows: &[Row], order: &Order) -> bool
    requires { IsInOrder rows.now order.now }
    ensures { result ≡ false → clash_after order.now.columns [] rows.now ≡ None }
{
    let numbers = order.numbers.as_slice();
    for i in 1..numbers.len() {
        if are_twins(rows, order, numbers[i - 1], numbers[i]) {
            return true;
        }
    }
    false
}

/// Makes `key` the values of the row on the columns, and tells whether each column is there.
fn take_key<'a>(row: &'a Row, columns: &[u32], key: &mut Vec<&'a Value>) -> Result<bool, AllocError>
    ensures { IfOk result (λ all. all ≡ true
        → map (slice_get row.now) columns.now ≡ map Some (map (λ v. v.now) key.new.items)) }
{
    key.clear();
    for column in columns {
        match row.find(*column as usize) {
            Some(value) => key.push(value)?,
            None => return Ok(false),
        }
    }
    Ok(true)
}

/// Whether the row has a NULL in the link's columns, or the order of the targets shows that it has one. `key` is scratch.
fn is_bound<'a>(
    row: &'a Row,
    targets: &[Row],
    link: &Link,
    order: &Order,
    key: &mut Vec<&'a Value>,
) -> Result<bool, AllocError>
    requires in_order { IsInOrder targets.now order.now }
    requires columns { order.now.columns ≡ link.now.target_columns }
    requires width { length link.now.columns ≡ length link.now.target_columns }
    ensures { IfOk result (λ bound. bound ≡ true → dangles link.now targets.now row.now ≡ false) }
{
    let columns = link.columns.as_slice();
    if !has_no_null(row, columns) {
        return Ok(true);
    }
    let whole = take_key(row, columns, key)?;
    if !whole {
        return Ok(false);
    }
    Ok(!order.with_front(targets, key.as_slice()).is_empty())
}

/// Whether the order of the targets shows that no row lacks one. Each row takes a look-up in the order.
pub fn none_dangles(
    alloc: Global,
    rows: &[Row],
    targets: &[Row],
    link: &Link,
    order: &Order,
) -> Result<bool, AllocError>
    requires in_order { IsInOrder targets.now order.now }
    requires columns { order.now.columns ≡ link.now.target_columns }
    ensures { IfOk result (λ none. none ≡ true
        → position_from (dangles link.now targets.now) 1 rows.now ≡ None) }
{
    if link.columns.len() != link.target_columns.len() {
        return Ok(false);
    }
    let mut key = Vec::new(alloc);
    for i in 0..rows.len() {
        let bound = is_bound(&rows[i], targets, link, order, &mut key)?;
        if !bound {
            return Ok(false);
        }
    }
    Ok(true)
}
