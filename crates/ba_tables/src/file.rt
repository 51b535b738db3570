//! A table's file as its rows.
ghost use Rattle.std.specs.Prelude.{◌≡◌, ◌<◌, All, IfOk, IfSome, length, slice_get};
ghost use Rattle.ba_model.specs.Conform.{RowFits};
ghost use Rattle.ba_model.specs.Readings.{Gives};
ghost use Rattle.ba_tables.specs.TableFile.{rows_of_file, rows_of_rest};

use crate::fault::TableFault;
use crate::line::{is_header, row_at};
use crate::lines::Lines;
use ba_model::{Column, Failure, List, MAX_ROWS, Row, Schema, Table};
use csv::ByteRecord;
use std::alloc::Global;

/// The rows of the file of a table of the schema, in the file's order. Equal rows are kept.
///
/// The file is CSV (RFC 4180) as the `csv` crate reads it: fields between commas, double quotes, records that end at LF, CR LF
/// or CR, blank lines and a byte order mark passed over. The first record is the header, exactly the names of the columns in
/// their order. Each other record is a row with a field for each column: any UTF-8 for a text, and for a whole number `-` or
/// nothing and then decimal digits, from -2^63 to 2^63 - 1, leading zeros allowed.
///
/// In a nullable column `\N` is NULL, and for a whole number an empty field is NULL too; an empty field of a text is the empty
/// text. A field in quotes is read as the same without them. In a column that isn't nullable `\N` is the text of these two
/// characters, and no number.
///
/// A row is tested for its width, then for UTF-8, then for its numbers, and the first bad row is the fault; more than
/// `MAX_ROWS` rows are a fault where none is bad. `NoMemory` may come at any point. The time is linear in the file's length.
pub fn read_table(
    alloc: Global,
    schema: &Schema,
    table: u32,
    bytes: &[u8],
) -> Result<List<Row>, Failure<TableFault>>
    requires { table < length schema.now.tables }
    ensures reads { IfSome (slice_get schema.now.tables table)
        (λ it. Gives result (rows_of_file it bytes.now)) }
    ensures fits { IfSome (slice_get schema.now.tables table)
        (λ it. IfOk result (All (RowFits it))) }
{
    rows_of_file(alloc, schema.tables.get(table as usize), bytes)
}

/// The rows of a file of this table, as `read_table` gives them.
pub fn rows_of_file(
    alloc: Global,
    table: &Table,
    bytes: &[u8],
) -> Result<List<Row>, Failure<TableFault>>
    ensures reads { Gives result (rows_of_file table.now bytes.now) }
    ensures fits { IfOk result (All (RowFits table.now)) }
{
    let mut lines = Lines::new(alloc, bytes);
    let mut line = ByteRecord::new(alloc);
    if !lines.next(&mut line)? || !is_header(&table.columns, &line) {
        return Err(Failure::Fault(TableFault::BadHeader));
    }
    rows_of(alloc, &table.columns, &mut lines)
}

/// The rows of the records that are left. Beyond the limit no row is kept, but a bad one is still told.
fn rows_of(
    alloc: Global,
    columns: &List<Column>,
    lines: &mut Lines<'_>,
) -> Result<List<Row>, Failure<TableFault>>
    ensures { Gives result (rows_of_rest columns.now lines.old) }
{
    let mut rows = List::new(alloc);
    let mut line = ByteRecord::new(alloc);
    for row in 1..u64::MAX {
        if !lines.next(&mut line)? {
            let count = row - 1;
            return if count > MAX_ROWS {
                Err(Failure::Fault(TableFault::TooMany(MAX_ROWS)))
            } else {
                Ok(rows)
            };
        }
        let values = row_at(alloc, row, columns, &line)?;
        let within = row <= MAX_ROWS;
        if within {
            rows.push(values)?;
        }
    }
    Err(Failure::NoMemory)
}
