//! Schemas.
//!
//! A table is its columns, of which those that may hold NULL have a `?`, its keys and its links, as in
//! `T: a Int, b Text? | 0, 1 0 | 1 > 0: 0;`.

use super::cases::{Reading, Told, all_are_so};
use super::faults::write_ddl_fault;
use super::standard::kind_word;
use ba_model::{Column, Failure, Link, List, Schema, Table};
use ba_sql_ddl::read_schema;
use std::alloc::{AllocError, Global};
use std::fmt::Write;
use std::test::Fail;

fn write_column(told: &mut String, n: usize, column: &Column) -> Told {
    told.push_str(if n > 0 { ", " } else { " " })?;
    told.push_str(column.name.as_str())?;
    told.push_str(kind_word(column.kind))?;
    told.push_str(if column.nullable { "?" } else { "" })
}

fn write_columns(told: &mut String, columns: &[Column]) -> Told {
    for (n, column) in columns.iter().enumerate() {
        write_column(told, n, column)?;
    }
    told.push_str(" |")
}

fn write_numbers(told: &mut String, numbers: &[u32]) -> Told {
    for n in numbers {
        write!(told, " {n}")?;
    }
    Ok(())
}

fn write_keys(told: &mut String, keys: &[List<u32>]) -> Told {
    for (n, key) in keys.iter().enumerate() {
        told.push_str(if n > 0 { "," } else { "" })?;
        write_numbers(told, key.as_slice())?;
    }
    told.push_str(" |")
}

fn write_link(told: &mut String, link: &Link) -> Told {
    let target = link.target;
    write_numbers(told, link.columns.as_slice())?;
    write!(told, " > {target}:")?;
    write_numbers(told, link.target_columns.as_slice())
}

fn write_links(told: &mut String, links: &[Link]) -> Told {
    for (n, link) in links.iter().enumerate() {
        told.push_str(if n > 0 { "," } else { "" })?;
        write_link(told, link)?;
    }
    told.push_str(";")
}

fn write_table(told: &mut String, table: &Table) -> Told {
    told.push_str(table.name.as_str())?;
    told.push_str(":")?;
    write_columns(told, table.columns.as_slice())?;
    write_keys(told, table.keys.as_slice())?;
    write_links(told, table.links.as_slice())
}

/// The tables, or how many there are where that isn't a few.
fn write_schema(told: &mut String, schema: &Schema) -> Told {
    let tables = schema.tables.as_slice();
    let count = tables.len();
    if count > 4 {
        return write!(told, "{count} tables");
    }
    for table in tables {
        write_table(told, table)?;
    }
    Ok(())
}

struct Schemas;

impl Reading for Schemas {
    fn tell(&self, alloc: Global, text: &str, told: &mut String) -> Told {
        match read_schema(alloc, text.as_bytes()) {
            Ok(schema) => write_schema(told, &schema),
            Err(Failure::NoMemory) => Err(AllocError),
            Err(Failure::Fault(fault)) => write_ddl_fault(alloc, fault, told),
        }
    }
}

const FORMS: &str = r#" -- nothing
CREATE TABLE T (a INT NOT NULL, b INTEGER NOT NULL, c BIGINT NOT NULL, d SMALLINT NOT NULL); => T: a Int, b Int, c Int, d Int | |;
CREATE TABLE T (a TEXT NOT NULL, b VARCHAR NOT NULL, c CHAR(-1) NOT NULL); -- done => T: a Text, b Text, c Text | |;
create table "a b" (x smallint(6) null not null unique, y VarChar ( 255 ) PRIMARY KEY UNIQUE); => a b: x Int, y Text | 0, 1, 1 |;
CREATE TABLE T (a INT NOT NULL, constraint key1 unique (b, a), b INT NOT NULL UNIQUE, primary key (b)); => T: a Int, b Int | 1 0, 1, 1 |;
CREATE TABLE T (UNIQUE (a), a INT NULL, CONSTRAINT "select" PRIMARY KEY (a)); => T: a Int | 0, 0 |;
CREATE TABLE A (a INT NOT NULL, b TEXT NOT NULL REFERENCES `B` (q));~CREATE TABLE B (p INT NOT NULL, q TEXT NOT NULL); => A: a Int, b Text | | 1 > 1: 1;B: p Int, q Text | |;
CREATE TABLE A (a INT NOT NULL, b TEXT NOT NULL, foreign key (b, a) references A (b, a), CONSTRAINT c FOREIGN KEY (a, a) REFERENCES A(a, a)); => A: a Int, b Text | | 1 0 > 0: 1 0, 0 0 > 0: 0 0;
CREATE TABLE A (a INT PRIMARY KEY);CREATE TABLE a (A INT NULL PRIMARY KEY NULL REFERENCES A (a)); => A: a Int | 0 |;a: A Int | 0 | 0 > 0: 0;
CREATE TABLE INT (INT INT NOT NULL); => INT: INT Int | |;
CREATE TABLE E (a INT PRIMARY KEY, b TEXT NOT NULL, c INT, d CHAR(3) NULL UNIQUE REFERENCES E (b)); => E: a Int, b Text, c Int?, d Text? | 0, 3 | 3 > 0: 1;
CREATE TABLE T (a INT, b INT, UNIQUE (a, b), PRIMARY KEY (b)); => T: a Int?, b Int | 0 1, 1 |;
CREATE TABLE "TABLE" (`IF` INT NOT NULL, "ON" TEXT, PRIMARY KEY (`ON`)); => TABLE: IF Int, ON Text | 1 |;"#;

/// Each text has its fault before a later one.
const FAULTS: &str = "CREATE TABLE 'T if => open_quote
CREATE TABLE # if => bad_byte
CREATE IF 9223372036854775808 => number_too_large
CREATE TABLE T (a INT Default 1); => unsupported DEFAULT
CREATE ( check drop => unsupported CHECK
autoincrement => unsupported AUTOINCREMENT
if => unsupported IF
CREATE TABLE A (a INT); CREATE TABLE => syntax
CREATE TABLE A (a INT NOT NULL); CREATE TABLE A (b INT UNIQUE, c INT); => duplicate_table
CREATE TABLE T (a INT UNIQUE REFERENCES U (x)); => unknown_table
CREATE TABLE A (a INT NOT NULL, a INT NOT NULL); CREATE TABLE A (b INT NOT NULL); => duplicate_table
CREATE TABLE A (a INT NOT NULL, a INT NOT NULL REFERENCES B (b)); => duplicate_column
CREATE TABLE A (a INT NOT NULL, UNIQUE (a, a)); => duplicate_column
CREATE TABLE A (a INT NOT NULL, UNIQUE (b, b)); => duplicate_column
CREATE TABLE A (a INT NOT NULL REFERENCES B (b), UNIQUE (b)); => unknown_table
CREATE TABLE A (a INT NOT NULL, PRIMARY KEY (a, b)); => unknown_column
CREATE TABLE A (a INT NOT NULL REFERENCES A (b, a)); => unknown_column
CREATE TABLE A (a INT NOT NULL, FOREIGN KEY (b) REFERENCES A (a)); => unknown_column
CREATE TABLE A (a INT NOT NULL REFERENCES A (a, a), b TEXT NOT NULL REFERENCES A (a)); => width_differs
CREATE TABLE A (a INT NOT NULL, b TEXT NOT NULL REFERENCES A (a)); => kind_differs";

/// Texts that the grammar doesn't have.
const OTHER_TEXTS: &str = ";
CREATE TABLE T (a INT NOT NULL)
CREATE TABLE T (a INT NOT NULL,);
CREATE TABLE T (a FLOAT NOT NULL);
CREATE TABLE T (a INT PRIMARY);
CREATE TABLE T (a INT(x) NOT NULL);
CREATE TABLE T (a INT NOT NULL, UNIQUE ());
CREATE TABLE T (a INT NOT NULL REFERENCES U);
CREATE TABLE T (a INT NOT NULL, CONSTRAINT UNIQUE (a));
CREATE TABLE T (a INT NOT NULL, KEY (a));
CREATE TABLE table (a INT NOT NULL);
CREATE TABLE T (key INT NOT NULL);";

const LIMITS: &str = r#"[[64 CREATE TABLE t# (a INT NOT NULL);]] => 64 tables
[[65 CREATE TABLE t# (a INT NOT NULL);]] => {"fault":"limit","limit":64,"status":7,"what":"tables"}~
CREATE TABLE T (a INT NOT NULL[[31 , c# INT NOT NULL]]); => T: a Int[[31 , c# Int]] | |;
CREATE TABLE T (a INT NOT NULL[[32 , c# INT NOT NULL]]); => {"fault":"limit","limit":32,"status":7,"what":"columns"}~
CREATE TABLE T (a INT UNIQUE PRIMARY KEY[[14 , UNIQUE (a)]]); => T: a Int | 0[[15 , 0]] |;
CREATE TABLE T (a INT UNIQUE PRIMARY KEY[[15 , UNIQUE (a)]]); => {"fault":"limit","limit":16,"status":7,"what":"keys"}~
CREATE TABLE T (a INT NOT NULL[[16  REFERENCES T (a)]]); => T: a Int | | 0 > 0: 0[[15 , 0 > 0: 0]];
CREATE TABLE T (a INT NOT NULL[[17  REFERENCES T (a)]]); => {"fault":"limit","limit":16,"status":7,"what":"links"}~"#;

#[test]
fn texts_of_schemas(rt: HostRuntime) -> Result<(), Fail> {
    all_are_so(&rt, &Schemas, FORMS, "")?;
    all_are_so(&rt, &Schemas, FAULTS, "")?;
    all_are_so(&rt, &Schemas, OTHER_TEXTS, "syntax")?;
    all_are_so(&rt, &Schemas, LIMITS, "")
}

/// They take time that their length bounds.
const LONG_TEXTS: &str =
    r#"CREATE TABLE t (a INT);[[16383 ---------------------------------------------------------------~]]----------------------------------------~ => t: a Int? | |;
[[16384 ---------------------------------------------------------------~]]  => {"fault":"limit","limit":1048576,"status":7,"what":"bytes"}~
[[9000 CREATE TABLE t#(a INT NOT NULL REFERENCES t9(a));]] => {"fault":"limit","limit":64,"status":7,"what":"tables"}~
CREATE TABLE T ([[9000 c# INT NOT NULL UNIQUE,]]PRIMARY KEY ([[9000 c#,]]c9000)); => unknown_column"#;

#[test]
fn long_schemas(rt: HostRuntime) -> Result<(), Fail> {
    all_are_so(&rt, &Schemas, LONG_TEXTS, "")
}
