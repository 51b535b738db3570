//! Columns of a part's sources.
ghost use Rattle.std.specs.Prelude.{◌≡◌};
ghost use Rattle.std.specs.Option.{option_copied};
ghost use Rattle.ba_sql_print.specs.Printed.{column_at, column_name};

use ba_model::{Column, Schema};

/// The column of the source at a place; none where it isn't there.
pub fn column_at<'a>(
    schema: &'a Schema,
    from: &[u32],
    place: u32,
    column: u32,
) -> Option<&'a Column>
    ensures { option_copied result ≡ column_at schema.now from.now place column }
{
    match from.get(place as usize) {
        Some(table) => match schema.tables.find(*table as usize) {
            Some(table) => table.columns.find(column as usize),
            None => None,
        },
        None => None,
    }
}

/// Its name; empty where it isn't there.
#[tactic(auto, unfolding(ba_sql_print::specs::Printed::column_name))]
pub fn column_name<'a>(schema: &'a Schema, from: &[u32], place: u32, column: u32) -> &'a str
    ensures { result.now ≡ column_name schema.now from.now place column }
{
    match column_at(schema, from, place, column) {
        Some(column) => column.name.as_str(),
        None => "",
    }
}
