//! Table files.
//!
//! Rows are their number and their values, as in `2: 1 'ann'; 2 'bob';`.

use super::cases::{Reading, Told, all_are_so, bytes_of, write_value};
use super::faults::write_table_fault;
use super::standard::schema_of;
use ba_model::{Failure, List, Row};
use ba_tables::{TableFault, read_table, rows_of_file};
use std::alloc::{AllocError, Global};
use std::fmt::Write;
use std::test::Fail;

fn write_row(told: &mut String, row: &Row) -> Told {
    for value in row.as_slice() {
        write_value(told, value)?;
    }
    told.push_str(";")
}

/// The rows, or how many there are where that isn't a few.
fn write_rows(told: &mut String, rows: &[Row]) -> Told {
    write!(told, "{}:", rows.len())?;
    if rows.len() > 4 {
        return Ok(());
    }
    for row in rows {
        write_row(told, row)?;
    }
    Ok(())
}

fn write_file(
    alloc: Global,
    read: Result<List<Row>, Failure<TableFault>>,
    told: &mut String,
) -> Told {
    match read {
        Ok(rows) => write_rows(told, rows.as_slice()),
        Err(Failure::NoMemory) => Err(AllocError),
        Err(Failure::Fault(fault)) => write_table_fault(alloc, fault, told),
    }
}

const SCHEMA: &str = "CREATE TABLE Tags (A INT NOT NULL);
CREATE TABLE Users (Id INT NOT NULL, Name TEXT NOT NULL);
CREATE TABLE Marks (Id INT, Note TEXT);";

/// Files of the second table.
struct Files;

impl Reading for Files {
    fn tell(&self, alloc: Global, text: &str, told: &mut String) -> Told {
        let bytes = bytes_of(alloc, text)?;
        let schema = schema_of(alloc, SCHEMA)?;
        if schema.tables.len() < 2 {
            return Err(AllocError);
        }
        write_file(alloc, read_table(alloc, &schema, 1, bytes.as_slice()), told)
    }
}

/// Files of the first table.
struct Tags;

impl Reading for Tags {
    fn tell(&self, alloc: Global, text: &str, told: &mut String) -> Told {
        let schema = schema_of(alloc, SCHEMA)?;
        match schema.tables.find(0) {
            Some(tags) => write_file(alloc, rows_of_file(alloc, tags, text.as_bytes()), told),
            None => Err(AllocError),
        }
    }
}

/// Files of the third table, whose columns may hold NULL.
struct Marks;

impl Reading for Marks {
    fn tell(&self, alloc: Global, text: &str, told: &mut String) -> Told {
        let schema = schema_of(alloc, SCHEMA)?;
        match schema.tables.find(2) {
            Some(marks) => write_file(alloc, rows_of_file(alloc, marks, text.as_bytes()), told),
            None => Err(AllocError),
        }
    }
}

const ROWS: &str = r#"Id,Name~1,ann~2,bob~ => 2: 1 'ann'; 2 'bob';
Id,Name^~1,ann^~2,bob^~ => 2: 1 'ann'; 2 'bob';
Id,Name^1,ann^2,bob^ => 2: 1 'ann'; 2 'bob';
~~Id,Name~~1,ann^~^~2,bob~~ => 2: 1 'ann'; 2 'bob';
"Id","Name"~"1","ann"~2,"bob"~ => 2: 1 'ann'; 2 'bob';
Id,Name~ => 0:
Id,Name~1,ann~1,ann~ => 2: 1 'ann'; 1 'ann';
Id,Name~007,"a,""b""~"~ => 1: 7 'a,"b"~';
Id,Name~-0,~-007, x ~ => 2: 0 ''; -7 ' x ';
Id,Name~9223372036854775807,é~-9223372036854775808,b~ => 2: 9223372036854775807 'é'; -9223372036854775808 'b';
Id,Name~00000000000000000000000000000001,a => 1: 1 'a';
Id,Name~1,\N~2,"\N" => 2: 1 '\N'; 2 '\N';"#;

const NULLS: &str = r#"Id,Note~1,a~\N,\N~, => 3: 1 'a'; NULL NULL; NULL '';
Id,Note~"\N","\N"~"","" => 2: NULL NULL; NULL '';
Id,Note~1,\n~2, \N~3,\N\N~4,NULL => 4: 1 '\n'; 2 ' \N'; 3 '\N\N'; 4 'NULL';
Id,Note~\n,a => number 1 0
Id,Note~\N,a~ \N,b => number 2 0
Id,Note~1,a~NULL,b => number 2 0"#;

const FAULTS: &str = r#"
~^~
Name,Id~
id,Name~
@,Name~
Id,Name~1,ann~2~ => width 2
Id,Name~@,ann,x~ => width 1
Id,Name~1,ann~x,@~1~ => utf8 2
Id,Name~1,ann~x,bob~ => number 2 0
Id,Name~,bob~ => number 1 0
Id,Name~\N,bob~ => number 1 0
Id,Name~+1,bob~ => number 1 0
Id,Name~1.0,bob~ => number 1 0
Id,Name~9223372036854775808,bob~ => number 1 0
Id,Name~-9223372036854775809,bob~ => number 1 0
Id,Name~[[100000 1,ann~]] => 100000:
Id,Name~[[100000 1,ann~]]2,bob => {"fault":"limit","limit":100000,"status":7,"what":"rows"}~
Id,Name~[[100000 1,ann~]]2,bob~x,eve => number 100002 0"#;

#[test]
fn texts_of_files(rt: HostRuntime) -> Result<(), Fail> {
    all_are_so(&rt, &Tags, "A~2~1", "2: 2; 1;")?;
    all_are_so(&rt, &Files, ROWS, "")?;
    all_are_so(&rt, &Files, "\u{feff}Id,Name~1,ann", "1: 1 'ann';")?;
    all_are_so(&rt, &Marks, NULLS, "")?;
    all_are_so(&rt, &Files, FAULTS, "header")
}
