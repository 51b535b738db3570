//! Rows compared by their values on some columns.
ghost use Rattle.std.specs.Prelude.{◌≡◌, length, map, take};
ghost use Rattle.std.specs.Option.{option_copied};
ghost use Rattle.ba_model.specs.Order.{row_cmp, value_cmp};
ghost use Rattle.ba_index.specs.Orders.{value_at, values_at, or_null};

use ba_model::{Row, Value};
use std::cmp::Ordering;

/// The value of a row and column, if both are there.
fn value_at(rows: &[Row], number: usize, column: u32) -> Option<&Value>
    ensures { or_null (option_copied result) ≡ value_at rows.now number column }
{
    match rows.get(number) {
        Some(row) => row.find(column as usize),
        None => None,
    }
}

/// The order of two values, where NULL stands for one that isn't there.
fn order_of(a: Option<&Value>, b: Option<&Value>) -> Ordering
    ensures { result ≡ value_cmp (or_null (option_copied a.entry)) (or_null (option_copied b.entry)) }
{
    match (a, b) {
        (Some(a), Some(b)) => a.order(b),
        (Some(a), None) => a.order(&Value::Null),
        (None, Some(b)) => Value::Null.order(b),
        (None, None) => Ordering::Equal,
    }
}

/// The order of two rows by their values on the columns.
pub fn order_on(rows: &[Row], columns: &[u32], a: usize, b: usize) -> Ordering
    ensures { result ≡ row_cmp (values_at rows.now columns.now a) (values_at rows.now columns.now b) }
{
    match columns.split_first() {
        None => Ordering::Equal,
        Some((column, rest)) => {
            let first = order_of(value_at(rows, a, *column), value_at(rows, b, *column));
            if first.is_eq() {
                order_on(rows, rest, a, b)
            } else {
                first
            }
        }
    }
}

/// The order of a row, by its values on the first columns, to a key of as many values.
pub fn order_to(rows: &[Row], columns: &[u32], number: usize, key: &[&Value]) -> Ordering
    ensures { result ≡ row_cmp (values_at rows.now (take (length (map (λ v. v.now) key.now)) columns.now) number) (map (λ v. v.now) key.now) }
{
    match (columns.split_first(), key.split_first()) {
        (_, None) => Ordering::Equal,
        (None, Some(_)) => Ordering::Less,
        (Some((column, columns)), Some((value, key))) => {
            let first = order_of(value_at(rows, number, *column), Some(*value));
            if first.is_eq() {
                order_to(rows, columns, number, key)
            } else {
                first
            }
        }
    }
}
