//! One record of a file.
ghost use Rattle.std.specs.Prelude.{◌≡◌, ◌<◌, IsErrOf, IsTrue, length, Some};
ghost use Rattle.std.specs.List.{list_all};
ghost use Rattle.std.specs.Str.{is_utf8};
ghost use Rattle.csv.specs.Records.{field_at, fields_of};
ghost use Rattle.ba_model.specs.Readings.{Gives};
ghost use Rattle.ba_tables.specs.TableFile.{is_header, row_at, values_from};

use crate::fault::TableFault;
use crate::field::value_at;
use ba_model::{Column, Failure, List, Row};
use csv::ByteRecord;
use std::alloc::Global;

/// Whether a record is exactly the names of the columns.
pub fn is_header(columns: &List<Column>, line: &ByteRecord) -> bool
    ensures { result ≡ is_header columns.now (fields_of line.now) }
{
    let width = columns.len();
    if line.len() != width {
        return false;
    }
    for i in 0..width {
        if line.get(i) != Some(columns.get(i).name.as_bytes()) {
            return false;
        }
    }
    true
}

fn is_text(line: &ByteRecord) -> bool
    ensures { result ≡ list_all is_utf8 (fields_of line.now) }
{
    for field in line {
        if str::from_utf8(field).is_err() {
            return false;
        }
    }
    true
}

fn text_at(line: &ByteRecord, i: usize) -> &str
    requires text { IsTrue (list_all is_utf8 (fields_of line.now)) }
    requires within { i < length (fields_of line.now) }
    ensures { field_at (fields_of line.now) i ≡ Some result.now }
{
    let Some(field) = line.get(i) else {
        unreachable!()
    };
    let Ok(text) = str::from_utf8(field) else {
        unreachable!()
    };
    text
}

/// The values of the row with this number. Its width and its UTF-8 are tested before memory is taken.
pub fn row_at(
    alloc: Global,
    row: u64,
    columns: &List<Column>,
    line: &ByteRecord,
) -> Result<Row, Failure<TableFault>>
    ensures reads { Gives result (row_at row columns.now (fields_of line.now)) }
    ensures width { IsErrOf result Failure.NoMemory
        → length (fields_of line.now) ≡ length columns.now }
    ensures text { IsErrOf result Failure.NoMemory
        → IsTrue (list_all is_utf8 (fields_of line.now)) }
{
    if line.len() != columns.len() {
        return Err(Failure::Fault(TableFault::BadWidth(row)));
    }
    if !is_text(line) {
        return Err(Failure::Fault(TableFault::BadUtf8(row)));
    }
    values_of(alloc, row, columns, line)
}

fn values_of(
    alloc: Global,
    row: u64,
    columns: &List<Column>,
    line: &ByteRecord,
) -> Result<Row, Failure<TableFault>>
    requires width { length (fields_of line.now) ≡ length columns.now }
    requires text { IsTrue (list_all is_utf8 (fields_of line.now)) }
    ensures { Gives result (values_from row 0 columns.now (fields_of line.now)) }
{
    let Ok(width) = u32::try_from(columns.len()) else {
        return Err(Failure::NoMemory);
    };
    let mut values = List::new(alloc);
    for place in 0..width {
        let column = columns.get(place as usize);
        let value = value_at(alloc, row, place, column, text_at(line, place as usize))?;
        values.push(value)?;
    }
    Ok(values)
}
