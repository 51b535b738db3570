//! Files of rows that aren't read, or break a key or a link.

use crate::hint::{Hint, Spot, listed};
use crate::names::column_name;
use crate::sight::push_columns;
use ba_model::{Failure, Link, Schema, Table};
use ba_place::{Place, WORD_CHARS, shown};
use ba_tables::{TableFault, rows_of_file};
use csv::{ByteRecord, ReaderBuilder};
use std::alloc::{AllocError, Global};

/// A record of a file, and the line on which it begins.
#[derive(Drop)]
struct Record {
    fields: ByteRecord,
    line: u64,
}

// The line on which something stands behind so many bytes and the line ends behind them.
fn line_behind(bytes: &[u8], count: u64) -> u64 {
    let mut start = count as usize;
    for byte in bytes.iter().skip(start) {
        if *byte != b'\n' && *byte != b'\r' {
            break;
        }
        start = start.saturating_add(1);
    }
    Place::behind(bytes, start).line
}

impl Record {
    // The record of a number: 0 is the header, and each other is a row.
    fn find(alloc: Global, bytes: &[u8], number: u64) -> Result<Option<Record>, AllocError> {
        let bytes = bytes
            .strip_prefix(b"\xef\xbb\xbf".as_slice())
            .unwrap_or(bytes);
        let mut reader = ReaderBuilder::new()
            .has_headers(false)
            .flexible(true)
            .from_reader(alloc, bytes);
        let mut fields = ByteRecord::new(alloc);
        for _ in 0..number.saturating_add(1) {
            match reader.read_byte_record(&mut fields) {
                Ok(true) => {}
                Ok(false) => return Ok(None),
                Err(_) => return Err(AllocError),
            }
        }
        let line = match fields.position() {
            Some(position) => line_behind(bytes, position.byte()),
            None => 1,
        };
        Ok(Some(Record { fields, line }))
    }

    // A field as it is shown.
    fn field(&self, alloc: Global, column: u32) -> Result<String, AllocError> {
        let field = self.fields.get(column as usize).unwrap_or(&[]);
        let text = shown(alloc, field, WORD_CHARS)?;
        format!(in alloc; "'{text}'")
    }

    // The values of columns of a row, behind their names.
    fn values(&self, alloc: Global, table: &Table, columns: &[u32]) -> Result<String, AllocError> {
        let mut texts = Vec::new(alloc);
        for column in columns {
            let name = column_name(table, *column);
            let field = self.field(alloc, *column)?;
            let text = format!(in alloc; "{name} {field}")?;
            texts.push(text)?;
        }
        texts.join(alloc, ", ")
    }
}

// The columns of a table as a header.
fn header_text(alloc: Global, table: &Table) -> Result<String, AllocError> {
    let mut text = String::new(alloc);
    for column in table.columns.as_slice() {
        if !text.is_empty() {
            text.push(',')?;
        }
        let name = column.name.as_str();
        let quote = if name.contains(',') { "\"" } else { "" };
        text.push_str(quote)?;
        text.push_str(name)?;
        text.push_str(quote)?;
    }
    Ok(text)
}

// What else a column of numbers may hold.
fn null_text(table: &Table, column: u32) -> &'static str {
    match table.columns.find(column as usize) {
        Some(column) if column.nullable => ", or \\N or nothing for NULL",
        _ => "",
    }
}

// What is wrong with a row.
fn row_text(
    alloc: Global,
    table: &Table,
    record: &Record,
    fault: TableFault,
) -> Result<String, AllocError> {
    match fault {
        TableFault::BadHeader => header_text(alloc, table),
        TableFault::BadWidth(row) => {
            let count = record.fields.len();
            let mut names = Vec::new(alloc);
            push_columns(&mut names, table)?;
            let width = names.len();
            let names = listed(alloc, &names)?;
            let fields = if count == 1 { "field" } else { "fields" };
            let columns = if width == 1 { "column" } else { "columns" };
            format!(in alloc;
                "row {row} has {count} {fields}, and {} has {width} {columns}: {names}",
                table.name
            )
        }
        TableFault::BadUtf8(row) => { format!(in alloc; "row {row} has bytes that are no UTF-8") }
        TableFault::BadNumber(row, column) => {
            let name = column_name(table, column);
            let field = record.field(alloc, column)?;
            let null = null_text(table, column);
            format!(in alloc;
                "row {row} has {field} as its {name}, which is a whole number: - or nothing, then digits, within 64 bits{null}"
            )
        }
        TableFault::TooMany(limit) => format!(in alloc; "there are more than {limit} rows"),
    }
}

/// A hint on why a file has no rows of a table, if it has none.
pub fn rows_hint(alloc: Global, table: &Table, bytes: &[u8]) -> Result<Option<Hint>, AllocError> {
    let fault = match rows_of_file(alloc, table, bytes) {
        Ok(_) => return Ok(None),
        Err(Failure::NoMemory) => return Err(AllocError),
        Err(Failure::Fault(fault)) => fault,
    };
    let row = match fault {
        TableFault::BadHeader => 0,
        TableFault::BadWidth(row) | TableFault::BadUtf8(row) | TableFault::BadNumber(row, _) => row,
        TableFault::TooMany(limit) => limit.saturating_add(1),
    };
    fault_hint(alloc, table, bytes, fault, row)
}

// A hint on a fault of a record.
fn fault_hint(
    alloc: Global,
    table: &Table,
    bytes: &[u8],
    fault: TableFault,
    row: u64,
) -> Result<Option<Hint>, AllocError> {
    if row == 0 {
        let names = header_text(alloc, table)?;
        let text = format!(in alloc; "the first line must be {names}")?;
        let spot = Spot::Unknown;
        return Ok(Some(Hint { spot, text }));
    }
    let Some(record) = Record::find(alloc, bytes, row)? else {
        return Ok(None);
    };
    let text = row_text(alloc, table, &record, fault)?;
    let spot = Spot::Line(record.line);
    Ok(Some(Hint { spot, text }))
}

/// A hint on two rows of a file that agree on a key of its table.
pub fn key_hint(
    alloc: Global,
    table: &Table,
    bytes: &[u8],
    key: u32,
    first: u64,
    second: u64,
) -> Result<Option<Hint>, AllocError> {
    let Some(columns) = table.keys.find(key as usize) else {
        return Ok(None);
    };
    let Some(before) = Record::find(alloc, bytes, first)? else {
        return Ok(None);
    };
    let Some(record) = Record::find(alloc, bytes, second)? else {
        return Ok(None);
    };
    let values = record.values(alloc, table, columns.as_slice())?;
    let text = format!(in alloc;
        "row {second} has {values}, as row {first} at line {} has: no two rows agree on a key",
        before.line
    )?;
    let spot = Spot::Line(record.line);
    Ok(Some(Hint { spot, text }))
}

// What a row has no target for.
fn link_text(
    alloc: Global,
    schema: &Schema,
    link: &Link,
    row: u64,
    values: &str,
) -> Result<Option<String>, AllocError> {
    let Some(target) = schema.tables.find(link.target as usize) else {
        return Ok(None);
    };
    let mut names = Vec::new(alloc);
    for column in link.target_columns.as_slice() {
        names.push(column_name(target, *column))?;
    }
    let names = listed(alloc, &names)?;
    let text = format!(in alloc;
        "row {row} has {values}, and no row of {} has that as its {names}",
        target.name
    )?;
    Ok(Some(text))
}

/// A hint on a row of a file that a link of its table leads nowhere from.
pub fn link_hint(
    alloc: Global,
    schema: &Schema,
    table: &Table,
    bytes: &[u8],
    link: u32,
    row: u64,
) -> Result<Option<Hint>, AllocError> {
    let Some(link) = table.links.find(link as usize) else {
        return Ok(None);
    };
    let Some(record) = Record::find(alloc, bytes, row)? else {
        return Ok(None);
    };
    let values = record.values(alloc, table, link.columns.as_slice())?;
    let text = link_text(alloc, schema, link, row, values.as_str())?;
    let spot = Spot::Line(record.line);
    match text {
        Some(text) => Ok(Some(Hint { spot, text })),
        None => Ok(None),
    }
}
