//! The first broken key or link of tables, and what a broken rule is told by.
ghost use Rattle.std.specs.Prelude.{◌≡◌, [], All, IfOk, length, option_copied, unwrap_or};
ghost use Rattle.std.specs.List.{position_from};
ghost use Rattle.ba_index.specs.Orders.{IsOrderOf};
ghost use Rattle.ba_model.specs.Meaning.{rows_of};
ghost use Rattle.ba_model.specs.declared.value.Value.TheVariants.{Null};
ghost use Rattle.ba_tables.specs.Broken.{broken_key, broken_link, broken_table, clash_after, dangles};
ghost use Rattle.ba_tables.specs.Index.{IsIndex, key_values};

use crate::by_order::{has_twins, none_dangles, order_by};
use crate::null::is_null;
use crate::pairs::with_pairs_once;
use ba_index::{Order, orders_of};
use ba_model::{Duplicate, Link, List, Row, RowSet, Table, Value};
use std::alloc::{AllocError, Global};
use std::collections::{BTreeMap, BTreeSet};

/// The first broken key, link or rule: tables in the schema's order, and of each its keys before its
/// links; after all tables the rules in their order. Tables, keys, links and rules are numbered from
/// 0, rows of a table from 1.
#[derive(Debug, Drop)]
pub enum TablesFault {
    /// The rows are equal on the key's columns and have no NULL there. No pair has a lesser second row, and none with this
    /// second row a lesser first one.
    KeyBroken {
        table: u32,
        key: u32,
        first: u64,
        second: u64,
    },
    /// The row has no NULL in the link's columns, and these are the target columns of no row. No lesser row is such.
    LinkBroken {
        table: u32,
        link: u32,
        row: u64,
    },
    /// The row is one of the rule's left query and none of its right query. No lesser row is such.
    RuleBroken {
        rule: u32,
        row: Row,
    },
}

fn copied_or_null(alloc: Global, value: Option<&Value>) -> Result<Value, AllocError>
    ensures { IfOk result (λ copy. copy ≡ unwrap_or (option_copied value.entry) Null) }
{
    match value {
        Some(value) => value.copy(alloc),
        None => Ok(Value::Null),
    }
}

/// The values of a row on the columns, unless one is NULL. NULL stands for a column that isn't there.
fn key_values(alloc: Global, row: &Row, columns: &List<u32>) -> Result<Option<Row>, AllocError>
    ensures { IfOk result (λ found. found ≡ key_values row.now columns.now) }
{
    let mut values = List::new(alloc);
    for i in 0..columns.len() {
        let value = row.find(*columns.get(i) as usize);
        if is_null(value) {
            return Ok(None);
        }
        let value = copied_or_null(alloc, value)?;
        values.push(value)?;
    }
    Ok(Some(values))
}

/// The first row that is equal to an earlier one on the key, with the first such earlier one before it.
fn first_clash(
    alloc: Global,
    rows: &[Row],
    key: &List<u32>,
) -> Result<Option<(u64, u64)>, AllocError>
    ensures { IfOk result (λ found. found ≡ clash_after key.now [] rows.now) }
{
    let mut seen = BTreeMap::new(alloc);
    for i in 0..rows.len() {
        let number = i as u64 + 1;
        if let Some(values) = key_values(alloc, &rows[i], key)? {
            if let Some(first) = seen.insert(values, number)? {
                return Ok(Some((first, number)));
            }
        }
    }
    Ok(None)
}

/// The values that the rows have on the columns, of those that have no NULL there.
fn index_of(alloc: Global, rows: &[Row], columns: &List<u32>) -> Result<BTreeSet<Row>, AllocError>
    ensures { IfOk result (IsIndex rows.now columns.now) }
{
    let mut index = BTreeSet::new(alloc);
    for i in 0..rows.len() {
        if let Some(values) = key_values(alloc, &rows[i], columns)? {
            index.insert(values)?;
        }
    }
    Ok(index)
}

/// The first row that has no NULL on the link's columns and has no target.
fn first_dangling(
    alloc: Global,
    rows: &[Row],
    targets: &[Row],
    link: &Link,
) -> Result<Option<u64>, AllocError>
    ensures { IfOk result (λ found. found
        ≡ position_from (dangles link.now targets.now) 1 rows.now) }
{
    let index = index_of(alloc, targets, &link.target_columns)?;
    for i in 0..rows.len() {
        if let Some(values) = key_values(alloc, &rows[i], &link.columns)? {
            if !index.contains(&values) {
                return Ok(Some(i as u64 + 1));
            }
        }
    }
    Ok(None)
}

/// The rows of a table, none where there is no such table.
fn rows_of(rows: &RowSet, table: u32) -> &[Row]
    ensures { result.now ≡ rows_of rows.now table }
{
    match rows.tables.find(table as usize) {
        Some(list) => list.as_slice(),
        None => &[],
    }
}

/// The first clash of a table on the key. It is searched for only where an order shows rows that clash, or there is none.
fn key_clash(
    alloc: Global,
    table: u32,
    rows: &RowSet,
    orders: &[Order],
    key: &List<u32>,
) -> Result<Option<(u64, u64)>, AllocError>
    requires { All (IsOrderOf rows.now) orders.now }
    ensures { IfOk result (λ found. found ≡ clash_after key.now [] (rows_of rows.now table)) }
{
    let own = rows_of(rows, table);
    if let Some(order) = order_by(orders, table, key) {
        if !has_twins(own, order) {
            return Ok(None);
        }
    }
    first_clash(alloc, own, key)
}

fn broken_key(
    alloc: Global,
    table: u32,
    rows: &RowSet,
    orders: &[Order],
    keys: &List<List<u32>>,
) -> Result<Option<TablesFault>, AllocError>
    requires { All (IsOrderOf rows.now) orders.now }
    ensures { IfOk result (λ found. found ≡ broken_key table 0 (rows_of rows.now table) keys.now) }
{
    let Ok(count) = u32::try_from(keys.len()) else {
        return Err(AllocError);
    };
    for key in 0..count {
        let columns = keys.get(key as usize);
        if let Some((first, second)) = key_clash(alloc, table, rows, orders, columns)? {
            return Ok(Some(TablesFault::KeyBroken {
                table,
                key,
                first,
                second,
            }));
        }
    }
    Ok(None)
}

/// The first row of a table that has no target. It is searched for only where no order shows that each row has one.
fn link_break(
    alloc: Global,
    table: u32,
    rows: &RowSet,
    orders: &[Order],
    link: &Link,
) -> Result<Option<u64>, AllocError>
    requires { All (IsOrderOf rows.now) orders.now }
    ensures { IfOk result (λ found. found
        ≡ position_from (dangles link.now (rows_of rows.now link.now.target)) 1 (rows_of rows.now table)) }
{
    let own = rows_of(rows, table);
    let targets = rows_of(rows, link.target);
    if let Some(order) = order_by(orders, link.target, &link.target_columns) {
        let none = none_dangles(alloc, own, targets, link, order)?;
        if none {
            return Ok(None);
        }
    }
    first_dangling(alloc, own, targets, link)
}

/// The first row of a table that has no target by the link, of which each pair of columns is tested once.
fn break_over_pairs(
    alloc: Global,
    table: u32,
    rows: &RowSet,
    orders: &[Order],
    link: &Link,
) -> Result<Option<u64>, AllocError>
    requires { All (IsOrderOf rows.now) orders.now }
    ensures { IfOk result (λ found. found
        ≡ position_from (dangles link.now (rows_of rows.now link.now.target)) 1 (rows_of rows.now table)) }
{
    if link.columns.len() < 2 {
        return link_break(alloc, table, rows, orders, link);
    }
    let once = with_pairs_once(alloc, link)?;
    link_break(alloc, table, rows, orders, &once)
}

fn broken_link(
    alloc: Global,
    table: u32,
    rows: &RowSet,
    orders: &[Order],
    links: &List<Link>,
) -> Result<Option<TablesFault>, AllocError>
    requires { All (IsOrderOf rows.now) orders.now }
    ensures { IfOk result (λ found. found
        ≡ broken_link table 0 rows.now (rows_of rows.now table) links.now) }
{
    let Ok(count) = u32::try_from(links.len()) else {
        return Err(AllocError);
    };
    for link in 0..count {
        let it = links.get(link as usize);
        if let Some(row) = break_over_pairs(alloc, table, rows, orders, it)? {
            return Ok(Some(TablesFault::LinkBroken { table, link, row }));
        }
    }
    Ok(None)
}

/// The first broken key or link of all tables, if one is. `rows` has a list for each table.
///
/// Each key takes the time of a sort of its table's rows: n log n for n of them. A link to a key takes a look-up in that key's
/// order for each row. Only for a key that is broken, and a link that is broken or leads to no key, the values of rows
/// are copied, and n rows take n look-ups in a search tree.
pub fn broken_table(
    alloc: Global,
    tables: &List<Table>,
    rows: &RowSet,
) -> Result<Option<TablesFault>, AllocError>
    requires { length rows.now.tables ≡ length tables.now }
    ensures { IfOk result (λ found. found ≡ broken_table 0 rows.now tables.now rows.now.tables) }
{
    let orders = orders_of(alloc, tables, rows)?;
    broken_by(alloc, tables, rows, orders.as_slice())
}

/// What `broken_table` gives, told from orders that were made: a look-up of n log n for n rows is left for each link.
pub fn broken_by(
    alloc: Global,
    tables: &List<Table>,
    rows: &RowSet,
    orders: &[Order],
) -> Result<Option<TablesFault>, AllocError>
    requires tables { length rows.now.tables ≡ length tables.now }
    requires orders { All (IsOrderOf rows.now) orders.now }
    ensures { IfOk result (λ found. found ≡ broken_table 0 rows.now tables.now rows.now.tables) }
{
    let Ok(count) = u32::try_from(tables.len()) else {
        return Err(AllocError);
    };
    for number in 0..count {
        let table = tables.get(number as usize);
        if let Some(fault) = broken_key(alloc, number, rows, orders, &table.keys)? {
            return Ok(Some(fault));
        }
        if let Some(fault) = broken_link(alloc, number, rows, orders, &table.links)? {
            return Ok(Some(fault));
        }
    }
    Ok(None)
}
