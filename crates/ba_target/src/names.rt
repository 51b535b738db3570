//! Whether a database keeps a schema's names, and tells them apart.
ghost use Rattle.std.specs.Prelude.{◌≡◌, ◌↔◌, ◌≢◌, All, Contains, IfErr, IfOk, IsTrue, MatchOption, OnOk};
ghost use Rattle.ba_lex.specs.Spelling.{are_name_bytes, is_name_byte};
ghost use Rattle.std.specs.List.{list_all};
ghost use Rattle.ba_model.specs.Readings.{OfFault};
ghost use Rattle.ba_model.specs.SchemaFaults.{column_names, table_names};
ghost use Rattle.ba_target.specs.Names.{AreAlike, AreApart, IsAlikeIn, IsApart, IsNone, IsNoneOf, Misnames, MisnamesNamespace, MisnamesOneOf, MisnamesTable, Serves, ServesNamespace, ServesTable, can_name, compared, most_bytes};

use crate::target::{Database, Target};
use ba_model::{Column, Duplicate, Failure, Schema, Str, Table};
use std::alloc::{AllocError, Global};

/// Why a database can't serve a schema.
#[derive(Debug, Drop)]
pub enum Misnamed {
    /// It keeps no such name of a namespace, a table or a column: the name is too long for it.
    Unnameable(Str),
    /// Two tables, or two columns of a table, have names that are one for it.
    Alike(Str, Str),
}

fn is_name_byte(b: u8) -> bool
    ensures { result ≡ is_name_byte b }
{
    b' ' <= b && b <= b'~' && b != b'"' && b != b'`'
}

fn all_name_bytes(bytes: &[u8]) -> bool
    ensures { result ≡ list_all is_name_byte bytes.now }
{
    bytes.iter().all(|b| is_name_byte(*b))
}

fn are_name_bytes(bytes: &[u8]) -> bool
    ensures { result ≡ are_name_bytes bytes.now }
{
    match bytes {
        [] => false,
        [b, rest @ ..] => is_name_byte(*b) && all_name_bytes(rest),
    }
}

fn most_bytes(database: Database) -> usize
    ensures { result ≡ most_bytes database }
{
    match database {
        Database::PostgreSql => 63,
        Database::Sqlite => 65_536,
        Database::MySql => 64,
    }
}

fn can_name(database: Database, name: &Str) -> bool
    ensures { result ≡ can_name database name.now }
{
    are_name_bytes(name.as_bytes()) && name.len() <= most_bytes(database)
}

// Whether two names are one for the database.
fn are_one(database: Database, one: &Str, other: &Str) -> bool
    ensures { IsTrue result ↔ (compared database one.now ≡ compared database other.now) }
{
    match database {
        Database::PostgreSql => one.as_bytes() == other.as_bytes(),
        Database::Sqlite | Database::MySql => { one.as_str().eq_ignore_ascii_case(other.as_str()) }
    }
}

// The first of the names that is one with this one.
fn alike_to<'a>(database: Database, name: &Str, others: &'a [Str]) -> Option<&'a Str>
    ensures { MatchOption result (IsApart database name.now others.now)
        (λ other. Contains others.now other.now
        × (compared database name.now ≡ compared database other.now)) }
{
    for other in others {
        if are_one(database, name, other) {
            return Some(other);
        }
    }
    None
}

// The first two of the names that are one.
fn first_alike<'a>(database: Database, names: &'a [Str]) -> Option<(&'a Str, &'a Str)>
    ensures { MatchOption result (AreApart database names.now)
        (λ pair. AreAlike database pair.0.now pair.1.now names.now) }
{
    match names.split_first() {
        Some((name, others)) => match alike_to(database, name, others) {
            Some(other) => Some((name, other)),
            None => first_alike(database, others),
        },
        None => None,
    }
}

fn check_apart(alloc: Global, database: Database, names: &[Str]) -> Result<(), Failure<Misnamed>>
    ensures ok { OnOk result (AreApart database names.now) }
    ensures fault { IfErr result (λ e. OfFault e (IsAlikeIn database names.now)) }
{
    match first_alike(database, names) {
        Some((one, other)) => {
            let one = one.copy(alloc)?;
            let other = other.copy(alloc)?;
            Err(Failure::Fault(Misnamed::Alike(one, other)))
        }
        None => Ok(()),
    }
}

fn check_name(alloc: Global, database: Database, name: &Str) -> Result<(), Failure<Misnamed>>
    ensures ok { OnOk result (IsTrue (can_name database name.now)) }
    ensures fault { IfErr result (λ e. OfFault e (IsNone database name.now)) }
{
    if can_name(database, name) {
        return Ok(());
    }
    let name = name.copy(alloc)?;
    Err(Failure::Fault(Misnamed::Unnameable(name)))
}

fn check_columns(
    alloc: Global,
    database: Database,
    columns: &[Column],
) -> Result<(), Failure<Misnamed>>
    ensures ok { OnOk result (All (λ column. IsTrue (can_name database column.name)) columns.now) }
    ensures fault { IfErr result (λ e. OfFault e (IsNoneOf database (column_names columns.now))) }
{
    for column in columns {
        check_name(alloc, database, &column.name)?;
    }
    Ok(())
}

fn names_of_columns(alloc: Global, columns: &[Column]) -> Result<Vec<Str>, AllocError>
    ensures { IfOk result (λ names. names.items ≡ column_names columns.now) }
{
    let mut names = Vec::new(alloc);
    for column in columns {
        names.push(column.name.copy(alloc)?)?;
    }
    Ok(names)
}

fn names_of_tables(alloc: Global, tables: &[Table]) -> Result<Vec<Str>, AllocError>
    ensures { IfOk result (λ names. names.items ≡ table_names tables.now) }
{
    let mut names = Vec::new(alloc);
    for table in tables {
        names.push(table.name.copy(alloc)?)?;
    }
    Ok(names)
}

fn check_table(alloc: Global, database: Database, table: &Table) -> Result<(), Failure<Misnamed>>
    ensures ok { OnOk result (ServesTable database table.now) }
    ensures fault { IfErr result (λ e. OfFault e (MisnamesTable database table.now)) }
{
    check_name(alloc, database, &table.name)?;
    let columns = table.columns.as_slice();
    check_columns(alloc, database, columns)?;
    let names = names_of_columns(alloc, columns)?;
    check_apart(alloc, database, names.as_slice())
}

fn check_tables(
    alloc: Global,
    database: Database,
    tables: &[Table],
) -> Result<(), Failure<Misnamed>>
    ensures ok { OnOk result (All (ServesTable database) tables.now) }
    ensures fault { IfErr result (λ e. OfFault e (MisnamesOneOf database tables.now)) }
{
    for table in tables {
        check_table(alloc, database, table)?;
    }
    Ok(())
}

fn check_namespace(alloc: Global, target: &Target) -> Result<(), Failure<Misnamed>>
    ensures ok { OnOk result (ServesNamespace target.now target.now.namespace) }
    ensures fault { IfErr result (λ e. OfFault e (MisnamesNamespace target.now)) }
{
    match &target.namespace {
        Some(name) => check_name(alloc, target.database, name),
        None => Ok(()),
    }
}

/// Whether the database keeps all names of the schema as they are and tells them apart: that of the
/// namespace, those of the tables, and those of each table's columns. PostgreSQL cuts a name off
/// behind 63 bytes; SQLite and MySQL compare names without regard to the case of their letters.
///
/// # Errors
/// The first fault: of the namespace, of each table in turn (its name, its columns' names, two of
/// these that are one), then of two tables that are one; or want of memory.
pub fn check_names(alloc: Global, target: &Target, schema: &Schema) -> Result<(), Failure<Misnamed>>
    ensures serves { OnOk result (Serves target.now schema.now) }
    ensures fault { IfErr result (λ e. OfFault e (Misnames target.now schema.now)) }
{
    check_namespace(alloc, target)?;
    let tables = schema.tables.as_slice();
    check_tables(alloc, target.database, tables)?;
    let names = names_of_tables(alloc, tables)?;
    check_apart(alloc, target.database, names.as_slice())
}
