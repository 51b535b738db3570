//! Rows with the orders of their tables.
ghost use Rattle.std.specs.Prelude.{◌≡◌, All, IfOk};
ghost use Rattle.ba_model.specs.Meaning.{rows_of};
ghost use Rattle.ba_index.specs.Orders.{IsOrderOf};

use crate::order::Order;
use ba_model::{List, Row, RowSet, Table};
use std::alloc::{AllocError, Global};
use std::marker::Model;

/// For each table of a schema its rows, and an order of them for each key of the table. A contract sees the rows.
#[derive(Debug, Drop)]
pub struct Indexed {
    rows: RowSet,
    orders: List<Order>,
}

impl Model for Indexed {
    ghost use Rattle.std.specs.Prelude.{All};
    ghost use Rattle.ba_index.specs.Orders.{IsOrderOf};
    ghost use Rattle.ba_model.specs.declared.value.RowSet.{RowSet};

    ghost Value = { RowSet };

    ghost view = { λ it. it.rows };

    ghost invariant = { λ it. All (IsOrderOf it.rows) it.orders };
}

impl Indexed {
    /// The rows, with an order for each key of the tables. For n rows of a table each of its keys takes the time of a sort of n
    /// rows. The only error is want of memory; the rows are then dropped.
    pub fn new(alloc: Global, tables: &List<Table>, rows: RowSet) -> Result<Indexed, AllocError>
        ensures { IfOk result (λ indexed. indexed ≡ rows) }
    {
        let orders = orders_of(alloc, tables, &rows)?;
        Ok(Indexed { rows, orders })
    }

    /// For each table its rows, in the order in which they were given.
    pub fn rows(&self) -> &RowSet
        ensures { result.now ≡ self.now }
    {
        &self.rows
    }

    /// The orders of the tables' rows.
    pub fn orders(&self) -> &[Order]
        ensures { All (IsOrderOf self.now) result.now }
    {
        self.orders.as_slice()
    }
}

/// For each key of the tables an order of the table's rows, in the order of the tables and of their keys. For n rows of a table
/// each of its keys takes the time of a sort of n rows. The only error is want of memory.
pub fn orders_of(
    alloc: Global,
    tables: &List<Table>,
    rows: &RowSet,
) -> Result<List<Order>, AllocError>
    ensures { IfOk result (All (IsOrderOf rows.now)) }
{
    let mut orders = List::new(alloc);
    let Ok(count) = u32::try_from(tables.len()) else {
        return Err(AllocError);
    };
    for number in 0..count {
        let keys = tables.get(number as usize).keys.as_slice();
        add_orders(alloc, number, keys, rows, &mut orders)?;
    }
    Ok(orders)
}

/// Adds the orders of a table's keys.
fn add_orders(
    alloc: Global,
    table: u32,
    keys: &[List<u32>],
    rows: &RowSet,
    orders: &mut List<Order>,
) -> Result<(), AllocError>
    requires { All (IsOrderOf rows.now) orders.old }
    ensures { All (IsOrderOf rows.now) orders.new }
{
    for key in keys {
        let order = Order::new(alloc, table, key, rows_of_table(rows, table))?;
        orders.push(order)?;
    }
    Ok(())
}

/// The rows of a table, of which a table that isn't there has none.
pub fn rows_of_table(rows: &RowSet, table: u32) -> &[Row]
    ensures { result.now ≡ rows_of rows.now table }
{
    match rows.tables.find(table as usize) {
        Some(list) => list.as_slice(),
        None => &[],
    }
}
