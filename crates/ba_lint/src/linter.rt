//! Reads what is asked for, and finds.

use crate::absurd::find_absurd;
use crate::columns::{find_hidden, find_keyless};
use crate::faults::{find_faults, find_schema_faults};
use crate::finding::Finding;
use crate::literals::find_literals;
use crate::lost::Lost;
use crate::overlap::find_shown;
use crate::report::{File, Report};
use crate::schema::{SchemaText, find_cycles};
use crate::terms::Terms;
use crate::ties::find_untied;
use crate::usage::{find_unused, note_usage};
use crate::words::LintWords;
use crate::written::{PolicyText, ViewText};
use ba_hints::{POLICY, QUERY, SCHEMA, Sight, Stage, Words, rows_hint, take_tokens, tokens_in};
use ba_lex::Token;
use ba_model::{
    Counted, Failure, List, MAX_FILE_BYTES, MAX_TEXT_BYTES, Part, Policy, Row, RowSet, Schema,
    Shared, Table, View,
};
use ba_outside::{Files, ReadFail};
use ba_policy::read_policy;
use ba_sql_ddl::read_schema;
use ba_tables::rows_of_file;
use std::alloc::{AllocError, Global};

/// Why the file that was asked for last wasn't read.
#[derive(Clone, Copy)]
pub enum Unread {
    /// It isn't there, or could not be read.
    Missing,
    /// It has more bytes than the limit.
    TooLong { what: Counted, limit: u64 },
}

// Reads a file.
fn read<F: Files>(
    files: &mut F,
    name: &str,
    what: Counted,
    limit: u64,
) -> Result<Vec<u8>, Failure<Unread>> {
    match files.read(name, limit) {
        Ok(bytes) => Ok(bytes),
        Err(ReadFail::NoMemory) => Err(Failure::NoMemory),
        Err(ReadFail::Fault) => Err(Failure::Fault(Unread::Missing)),
        Err(ReadFail::TooLong(limit)) => Err(Failure::Fault(Unread::TooLong { what, limit })),
    }
}

// Reads a schema or a policy.
fn read_text<F: Files>(files: &mut F, name: &str) -> Result<Vec<u8>, Failure<Unread>> {
    read(files, name, Counted::TextBytes, MAX_TEXT_BYTES as u64)
}

// The schema that a file is, or its faults.
fn schema_of(report: &mut Report, file: File<'_>) -> Result<Option<Shared<Schema>>, AllocError> {
    let alloc = report.alloc;
    find_schema_faults(report, file)?;
    match read_schema(alloc, file.bytes) {
        Ok(schema) => Ok(Some(Shared::new(alloc, schema)?)),
        Err(Failure::NoMemory) => Err(AllocError),
        Err(Failure::Fault(_)) => Ok(None),
    }
}

// The rows of a table's file, or its first fault.
fn rows_of(
    report: &mut Report,
    table: &Table,
    file: File<'_>,
) -> Result<Option<List<Row>>, AllocError> {
    let alloc = report.alloc;
    match rows_of_file(alloc, table, file.bytes) {
        Ok(rows) => return Ok(Some(rows)),
        Err(Failure::NoMemory) => return Err(AllocError),
        Err(Failure::Fault(_)) => {}
    }
    if let Some(hint) = rows_hint(alloc, table, file.bytes)? {
        report.add(file, hint.spot, &Finding::Fault(hint.text.as_str()))?;
    }
    Ok(None)
}

// Adds the rows of a table of a set, if its file has no fault.
fn add_rows<F: Files>(
    report: &mut Report,
    files: &mut F,
    set: &str,
    table: &Table,
    rows: &mut RowSet,
) -> Result<(), Failure<Unread>> {
    let alloc = report.alloc;
    let name = format!(in alloc; "{set}/{}.csv", table.name)?;
    let bytes = read(files, name.as_str(), Counted::FileBytes, MAX_FILE_BYTES)?;
    let file = File {
        name: name.as_str(),
        bytes: &bytes,
    };
    let found = rows_of(report, table, file)?;
    if let Some(found) = found {
        rows.tables.push(found)?;
    }
    Ok(())
}

// The rows of the tables of a set, if all of them are read.
fn read_rows<F: Files>(
    report: &mut Report,
    files: &mut F,
    schema: &Schema,
    set: Option<&str>,
) -> Result<Option<RowSet>, Failure<Unread>> {
    let Some(set) = set else {
        return Ok(None);
    };
    let mut rows = RowSet {
        tables: List::new(report.alloc),
    };
    for table in schema.tables.as_slice() {
        add_rows(report, files, set, table, &mut rows)?;
    }
    if rows.tables.len() == schema.tables.len() {
        Ok(Some(rows))
    } else {
        Ok(None)
    }
}

// What a policy is looked at with: its schema, and the rows of its tables, if they are there.
#[derive(Clone, Copy)]
struct Scene<'a> {
    schema: SchemaText<'a>,
    rows: Option<&'a RowSet>,
}

// Finds what is to be said of a part of a view.
fn find_in_part(
    report: &mut Report,
    text: &ViewText<'_>,
    part: &Part,
    rows: Option<&RowSet>,
) -> Result<(), AllocError> {
    let terms = Terms::of(report.alloc, part)?;
    find_untied(report, text, part, &terms)?;
    find_hidden(report, text, part, &terms)?;
    find_keyless(report, text, part, &terms)?;
    find_absurd(report, text, part, &terms)?;
    match rows {
        Some(rows) => find_literals(report, text, part, rows),
        None => Ok(()),
    }
}

// Finds what is to be said of a view.
fn find_in_view<'a>(
    report: &mut Report,
    text: &PolicyText<'a>,
    policy: &'a Policy,
    view: &'a View,
    rows: Option<&RowSet>,
) -> Result<(), AllocError> {
    let tokens = text.query(view.name.as_str());
    let walk = take_tokens(report.alloc, &QUERY, Stage::Query, tokens)?;
    let sight = Sight {
        schema: &policy.schema,
        params: policy.params.as_slice(),
        words: Words {
            tokens,
            taken: &walk.taken,
        },
    };
    let text = ViewText {
        policy: *text,
        view,
        sight,
    };
    for part in view.query.parts.as_slice() {
        find_in_part(report, &text, part, rows)?;
    }
    Ok(())
}

// Finds what is to be said of a policy without the statements that were lost to a fault.
fn find_in_policy<'a>(
    report: &mut Report,
    scene: Scene<'_>,
    text: &PolicyText<'a>,
    policy: &'a Policy,
    lost: Lost<'_>,
) -> Result<(), AllocError> {
    for view in policy.views.as_slice() {
        find_in_view(report, text, policy, view, scene.rows)?;
    }
    find_shown(report, text, policy)?;
    find_unused(report, text, policy, lost)?;
    note_usage(report, scene.schema, policy, lost)
}

// Finds what is to be said of a policy's file.
fn find_in_file(
    report: &mut Report,
    scene: Scene<'_>,
    schema: &Shared<Schema>,
    file: File<'_>,
) -> Result<(), AllocError> {
    let alloc = report.alloc;
    let sound = find_faults(report, schema, file)?;
    let Some(sound) = sound else {
        return Ok(());
    };
    let policy = match read_policy(alloc, schema, &sound) {
        Ok(policy) => policy,
        Err(Failure::NoMemory) => return Err(AllocError),
        Err(Failure::Fault(_)) => return Ok(()),
    };
    let tokens = tokens_in(alloc, &sound)?;
    let walk = take_tokens(alloc, &POLICY, Stage::Policy, tokens.as_slice())?;
    let text = PolicyText {
        file,
        words: Words {
            tokens: tokens.as_slice(),
            taken: &walk.taken,
        },
    };
    let lost = Lost {
        bytes: file.bytes,
        sound: &sound,
    };
    find_in_policy(report, scene, &text, &policy, lost)
}

// Finds what is to be said of a schema, and then of a policy.
fn find_in_both(
    report: &mut Report,
    schema: &Shared<Schema>,
    tokens: &[Token],
    schema_file: File<'_>,
    policy_file: File<'_>,
    rows: Option<&RowSet>,
) -> Result<(), AllocError> {
    let walk = take_tokens(report.alloc, &SCHEMA, Stage::Schema, tokens)?;
    let text = SchemaText {
        file: schema_file,
        words: Words {
            tokens,
            taken: &walk.taken,
        },
    };
    find_cycles(report, &text, schema)?;
    let scene = Scene { schema: text, rows };
    find_in_file(report, scene, schema, policy_file)
}

/// Reads the schema, the policy and, where they are named, the tables, each once and in this order,
/// and finds what is to be said of them. A schema that has a fault is the last file that is read.
///
/// # Errors
/// A fault where the file that was asked for last wasn't read.
pub fn lint<F: Files>(
    alloc: Global,
    files: &mut F,
    words: &LintWords<'_>,
) -> Result<Report, Failure<Unread>> {
    let mut report = Report::new(alloc);
    let schema_bytes = read_text(files, words.schema)?;
    let schema_file = File {
        name: words.schema,
        bytes: &schema_bytes,
    };
    let Some(schema) = schema_of(&mut report, schema_file)? else {
        return Ok(report);
    };
    let policy_bytes = read_text(files, words.policy)?;
    let policy_file = File {
        name: words.policy,
        bytes: &policy_bytes,
    };
    let rows = read_rows(&mut report, files, &schema, words.tables)?;
    let tokens = tokens_in(alloc, &schema_bytes)?;
    find_in_both(
        &mut report,
        &schema,
        tokens.as_slice(),
        schema_file,
        policy_file,
        rows.as_ref(),
    )?;
    Ok(report)
}
