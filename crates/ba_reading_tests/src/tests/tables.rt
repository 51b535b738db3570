//! Keys and links of tables.

use super::cases::{Reading, Told, all_are_so};
use super::faults::write_broken;
use super::standard::schema_of;
use ba_model::{Failure, List, Row, RowSet, Shared, Value};
use ba_sql_ddl::read_schema;
use ba_tables::{Tables, TablesFault, broken_table, read_table};
use std::alloc::{AllocError, Global};
use std::fmt::Write;
use std::test::Fail;

/// The keys of Tasks are (A, B) and B.
const KEYED: &str = "CREATE TABLE Users (A INT PRIMARY KEY, B INT NOT NULL);
CREATE TABLE Tasks (A INT NOT NULL, UNIQUE (A, B), B INT NOT NULL UNIQUE REFERENCES Users (A));";

fn check(alloc: Global, users: &[u8], tasks: &[u8]) -> Result<Tables, Failure<TablesFault>> {
    let Ok(schema) = read_schema(alloc, KEYED.as_bytes()) else {
        return Err(Failure::NoMemory);
    };
    if schema.tables.len() != 2 {
        return Err(Failure::NoMemory);
    }
    let Ok(first) = read_table(alloc, &schema, 0, users) else {
        return Err(Failure::NoMemory);
    };
    let Ok(second) = read_table(alloc, &schema, 1, tasks) else {
        return Err(Failure::NoMemory);
    };
    let tables = List::from_vec(vec![in alloc; first, second]?);
    let schema = Shared::new(alloc, schema)?;
    Tables::check(alloc, &schema, RowSet { tables })
}

fn write_counts(told: &mut String, tables: &Tables) -> Told {
    for rows in tables.rows().tables.as_slice() {
        write!(told, "{} ", rows.len())?;
    }
    write!(told, "rows of {} tables", tables.schema().tables.len())
}

/// Users and Tasks, with a bar between them.
struct Rows;

impl Reading for Rows {
    fn tell(&self, alloc: Global, text: &str, told: &mut String) -> Told {
        let (users, tasks) = text.split_once('|').unwrap_or((text, ""));
        let users = format!(in alloc; "A,B\n{users}")?;
        let tasks = format!(in alloc; "A,B\n{tasks}")?;
        match check(alloc, users.as_bytes(), tasks.as_bytes()) {
            Ok(tables) => write_counts(told, &tables),
            Err(Failure::NoMemory) => Err(AllocError),
            Err(Failure::Fault(fault)) => write_broken(alloc, fault, told),
        }
    }
}

const ROWS: &str = "1,7~2,7|5,2~5,1 => 2 2 rows of 2 tables
1,7~2,8~1,9| => key 0 rows 1 3
1,7~1,7| => key 0 rows 1 2
1,7~2,7~2,8~1,8| => key 0 rows 2 3
1,7~2,7~3,7|5,1~6,2~7,1 => key 1 rows 1 3
1,7|5,1~5,1 => key 0 rows 1 2
1,7~2,8|1,1~2,2~3,5~4,9 => link 0 row 3
|1,1 => link 0 row 1
1,7|5,9~6,1~7,1 => key 1 rows 2 3
1,7~1,8|5,9 => key 0 rows 1 2";

#[test]
fn keys_and_links(rt: HostRuntime) -> Result<(), Fail> {
    all_are_so(&rt, &Rows, ROWS, "")
}

/// Adds a row of this value and 1.
fn add_row(alloc: Global, rows: &mut List<Row>, value: Value) -> Told {
    let mut row = List::new(alloc);
    row.push(value)?;
    row.push(Value::Int(1))?;
    rows.push(row)
}

fn add_rows(alloc: Global, rows: &mut List<Row>, last: i64) -> Told {
    add_row(alloc, rows, Value::Null)?;
    add_row(alloc, rows, Value::Null)?;
    add_row(alloc, rows, Value::Int(last))
}

/// What is broken in two rows of NULL and 1, and one of `last` and 1.
fn broken(alloc: Global, last: i64) -> Result<Option<TablesFault>, AllocError> {
    let text = "CREATE TABLE T (A INT UNIQUE REFERENCES T (B), B INT NOT NULL);";
    let schema = schema_of(alloc, text)?;
    let mut rows = List::new(alloc);
    add_rows(alloc, &mut rows, last)?;
    let tables = List::from_vec(vec![in alloc; rows]?);
    let rows = RowSet { tables };
    if schema.tables.len() != rows.tables.len() {
        return Err(AllocError);
    }
    broken_table(alloc, &schema.tables, &rows)
}

/// NULL breaks no key and needs no target.
#[test]
fn null_in_keys_and_links(rt: HostRuntime) -> Result<(), Fail> {
    let none = broken(rt.alloc(), 1)?;
    assert!(rt; none.is_none(), "nothing is broken");
    let dangling = broken(rt.alloc(), 2)?;
    let is_third = matches!(
        &dangling,
        Some(TablesFault::LinkBroken {
            table: 0,
            link: 0,
            row: 3
        })
    );
    assert!(rt; is_third, "the third row has no target");
    Ok(())
}
