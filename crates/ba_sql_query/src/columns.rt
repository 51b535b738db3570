//! The columns of a table, by their names.
ghost use Rattle.std.specs.Prelude.{◌≡◌, []};
ghost use Rattle.std.specs.List.{position};
ghost use Rattle.std.specs.Str.{bytes_eq};
ghost use Rattle.ba_model.specs.SchemaFaults.{columns_of};
ghost use Rattle.ba_sql_query.specs.Names.{column_place, has_column};

use ba_model::{Column, Schema, Str};

/// The columns of the table of this number, none if it isn't there.
pub fn columns_of(schema: &Schema, table: u32) -> &[Column]
    ensures { result.now ≡ columns_of schema.now.tables table }
{
    match schema.tables.find(table as usize) {
        Some(table) => table.columns.as_slice(),
        None => &[],
    }
}

fn is_column(column: &Column, name: &Str) -> bool
    ensures { result ≡ bytes_eq column.now.name name.now }
{
    column.name.as_bytes() == name.as_bytes()
}

fn place_among(columns: &[Column], name: &Str) -> Option<usize>
    ensures { result ≡ position (λ column. bytes_eq column.name name.now) columns.now }
{
    columns.iter().position(|column| is_column(column, name))
}

/// Where the column of that name stands in the table of this number.
pub fn column_place(schema: &Schema, name: &Str, table: u32) -> Option<usize>
    ensures { result ≡ column_place schema.now name.now table }
{
    place_among(columns_of(schema, table), name)
}

/// Whether the table of this number has a column of that name.
pub fn has_column(schema: &Schema, name: &Str, table: u32) -> bool
    ensures { result ≡ has_column schema.now name.now table }
{
    column_place(schema, name, table).is_some()
}
