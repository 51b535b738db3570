//! The files of a generated workload.

use super::cases::Told;
use ba_model::{Policy, Shared};
use ba_outside::Held;
use ba_policy::read_policy;
use ba_script::read_script;
use ba_sql_ddl::read_schema;
use ba_workload::{
    POLICY_FILE, SCHEMA_FILE, SCRIPT_FILE, TABLE_SET, workload, workload_files, workload_text,
};
use std::alloc::{AllocError, Global};
use std::fmt::Write;
use std::test::Fail;

/// The script of one request that seed 0 draws.
const ONE: &str = r#"{"begin":"q0","context":{"MyUId":64}}
{"ask":"q0","query":"SELECT UId, EId, At FROM Attendances WHERE UId = 64 AND EId = 1"}
{"ask":"q0","query":"SELECT Title FROM Events WHERE EId = 1"}
{"ask":"q0","query":"SELECT Title FROM Events WHERE EId = 2"}
{"end":"q0"}
"#;

/// The names and the numbers of bytes and of lines, with the script of seed 7 and 1000 requests.
const FILES: &str = "schema.sql 302 4
policy.sql 265 5
tables/Users.csv 439 65
tables/Events.csv 641 65
tables/Attendances.csv 2719 257
script.jsonl 273759 5000
";

#[test]
fn script_of_one_request(rt: HostRuntime) -> Result<(), Fail> {
    let text = workload_text(rt.alloc(), 0, 1)?;
    assert_eq!(rt; text.as_str(), ONE);
    Ok(())
}

#[test]
fn script_of_no_request(rt: HostRuntime) -> Result<(), Fail> {
    let text = workload_text(rt.alloc(), 7, 0)?;
    assert_eq!(rt; text.as_str(), "");
    Ok(())
}

fn counts(alloc: Global, files: &[Held]) -> Result<String, AllocError> {
    let mut told = String::new(alloc);
    for file in files {
        let name = file.name.as_str();
        let bytes = file.bytes.len();
        let lines = file.bytes.iter().filter(|b| **b == b'\n').count();
        writeln!(told, "{name} {bytes} {lines}")?;
    }
    Ok(told)
}

#[test]
fn files_of_a_workload(rt: HostRuntime) -> Result<(), Fail> {
    let files = workload_files(rt.alloc(), 7, 1000)?;
    let told = counts(rt.alloc(), &files)?;
    assert_eq!(rt; told.as_str(), FILES);
    Ok(())
}

#[test]
fn names_of_the_files(rt: HostRuntime) -> Result<(), Fail> {
    let names = format!(in rt.alloc(); "{SCHEMA_FILE} {POLICY_FILE} {TABLE_SET} {SCRIPT_FILE}")?;
    assert_eq!(rt; names.as_str(), "schema.sql policy.sql tables script.jsonl");
    Ok(())
}

fn bytes_of<'a>(files: &'a [Held], name: &str) -> &'a [u8] {
    for file in files {
        if file.name.as_str() == name {
            return file.bytes.as_slice();
        }
    }
    &[]
}

fn policy_of(alloc: Global, files: &[Held]) -> Result<Policy, AllocError> {
    let Ok(schema) = read_schema(alloc, bytes_of(files, SCHEMA_FILE)) else {
        return Err(AllocError);
    };
    let schema = Shared::new(alloc, schema)?;
    match read_policy(alloc, &schema, bytes_of(files, POLICY_FILE)) {
        Ok(policy) => Ok(policy),
        Err(_) => Err(AllocError),
    }
}

fn write_read(alloc: Global, files: &[Held], told: &mut String) -> Told {
    let policy = policy_of(alloc, files)?;
    match read_script(
        alloc,
        &policy.params,
        &policy.keys,
        bytes_of(files, SCRIPT_FILE),
    ) {
        Ok(script) => write!(
            told,
            "{} tables, {} parameter, {} views, {} entries",
            policy.schema.tables.len(),
            policy.params.len(),
            policy.views.len(),
            script.entries.len(),
        ),
        Err(_) => told.push_str("no script"),
    }
}

#[test]
fn files_are_read(rt: HostRuntime) -> Result<(), Fail> {
    let files = workload_files(rt.alloc(), 7, 1000)?;
    let mut told = String::new(rt.alloc());
    write_read(rt.alloc(), &files, &mut told)?;
    assert_eq!(rt;
        told.as_str(),
        "3 tables, 1 parameter, 3 views, 5000 entries"
    );
    Ok(())
}

#[test]
fn tables_and_script(rt: HostRuntime) -> Result<(), Fail> {
    let (tables, script) = workload(rt.alloc(), 7, 1000)?;
    let mut told = String::new(rt.alloc());
    for rows in tables.tables.as_slice() {
        write!(told, "{} rows, ", rows.len())?;
    }
    write!(told, "{} entries", script.entries.len())?;
    assert_eq!(rt; told.as_str(), "64 rows, 64 rows, 256 rows, 5000 entries");
    Ok(())
}
