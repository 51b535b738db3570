//! Whether any database conforms to tables.
ghost use Rattle.std.specs.Prelude.{◌↔◌, All, IfOk, IsTrue};
ghost use Rattle.std.specs.List.{AllZip};
ghost use Rattle.std.specs.List.Sorted.{IsStrictlySortedBy};
ghost use Rattle.ba_model.specs.Conform.{IsOfColumn, RowFits, TableConforms};
ghost use Rattle.ba_model.specs.Order.{row_cmp};
ghost use Rattle.ba_tables.specs.TableSet.{ListsFit};

use crate::broken::broken_table;
use ba_model::{Column, Kind, List, Row, RowSet, Table, Value};
use std::alloc::{AllocError, Global};

fn value_fits(column: &Column, value: &Value) -> bool
    ensures { IsTrue result ↔ IsOfColumn column.now value.now }
{
    match value {
        Value::Null => column.nullable,
        Value::Int(_) => matches!(column.kind, Kind::Int),
        Value::Text(_) => matches!(column.kind, Kind::Text),
    }
}

fn values_fit(columns: &[Column], values: &[Value]) -> bool
    ensures { IsTrue result ↔ AllZip IsOfColumn columns.now values.now }
{
    match (columns.split_first(), values.split_first()) {
        (None, None) => true,
        (Some((column, columns)), Some((value, values))) => {
            value_fits(column, value) && values_fit(columns, values)
        }
        _ => false,
    }
}

fn rows_fit(table: &Table, rows: &[Row]) -> bool
    ensures { IsTrue result ↔ All (RowFits table.now) rows.now }
{
    for row in rows {
        if !values_fit(table.columns.as_slice(), row.as_slice()) {
            return false;
        }
    }
    true
}

fn lists_fit(tables: &[Table], lists: &[List<Row>]) -> bool
    ensures { IsTrue result ↔ ListsFit tables.now lists.now }
{
    match (tables.split_first(), lists.split_first()) {
        (None, None) => true,
        (Some((table, tables)), Some((list, lists))) => {
            rows_fit(table, list.as_slice()) && lists_fit(tables, lists)
        }
        _ => false,
    }
}

/// Whether there are rows of the table's width and kinds for each table and no key and no link is
/// broken, as the SQL standard says (see [`crate::Tables::check`]). The rows of a table are strictly
/// rising. Rules of a schema aren't asked for.
pub fn conform(alloc: Global, tables: &List<Table>, rows: &RowSet) -> Result<bool, AllocError>
    requires rising { All (IsStrictlySortedBy row_cmp) rows.now.tables }
    ensures { IfOk result (λ found. IsTrue found ↔ AllZip (TableConforms rows.now) tables.now rows.now.tables) }
{
    if !lists_fit(tables.as_slice(), rows.tables.as_slice()) {
        return Ok(false);
    }
    let broken = broken_table(alloc, tables, rows)?;
    Ok(broken.is_none())
}
