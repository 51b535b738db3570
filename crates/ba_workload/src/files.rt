//! A workload, and its files.
ghost use Rattle.std.specs.Prelude.{◌≡◌, [], ◌∷◌, ◌++◌, codes, map, IfOk, OnOk, string_bytes};
ghost use Rattle.ba_model.specs.Meaning.{rows_of};
ghost use Rattle.ba_script_print.specs.Texts.{script_text};
ghost use Rattle.ba_workload.specs.Files.{file_of, files_of, standard_files, workload_text};
ghost use Rattle.ba_workload.specs.Script.{script};
ghost use Rattle.ba_workload.specs.Standard.{params};
ghost use Rattle.ba_workload.specs.Tables.{lines_of, tables};

use crate::lines::table_text;
use crate::script::draw_script;
use crate::standard::{POLICY, SCHEMA, params};
use crate::tables::standard_tables;
use ba_model::{List, Row, RowSet};
use ba_outside::Held;
use ba_script::Script;
use ba_script_print::script_text;
use std::alloc::{AllocError, Global};

/// The name of the schema's file.
pub const SCHEMA_FILE: &str = "schema.sql";

/// The name of the policy's file.
pub const POLICY_FILE: &str = "policy.sql";

/// The name of the table set: the file of the table `Users` is `tables/Users.csv`.
pub const TABLE_SET: &str = "tables";

/// The name of the script's file.
pub const SCRIPT_FILE: &str = "script.jsonl";

/// The tables, and the script of so many requests that the seed draws: five entries for each
/// request, which begin it, ask three questions and end it. Under the standard policy the first two
/// questions may be answered, and the third may not. The tables are the same for each seed.
///
/// Any seed and any number of requests has a script; one of more than 8192 requests can't be
/// spelled. Want of memory is the only error.
pub fn workload(alloc: Global, seed: u64, requests: u32) -> Result<(RowSet, Script), AllocError>
    ensures tables { IfOk result (λ it. it.0 ≡ tables) }
    ensures script { IfOk result (λ it. it.1 ≡ script seed requests) }
{
    let tables = standard_tables(alloc)?;
    let script = draw_script(alloc, seed, requests)?;
    Ok((tables, script))
}

/// The text of a script for the standard policy, which has the one parameter `MyUId` and no cache
/// keys.
fn text_of(alloc: Global, script: &Script) -> Result<String, AllocError>
    ensures { IfOk result (λ text. string_bytes text ≡ script_text params [] script.now) }
{
    let params = params(alloc)?;
    let keys = List::new(alloc);
    script_text(alloc, &params, &keys, script)
}

/// The text of a workload's script, which for at most 8192 requests reads back as the script. Want
/// of memory is the only error.
#[tactic(auto, unfolding(crate::specs::Files::workload_text))]
pub fn workload_text(alloc: Global, seed: u64, requests: u32) -> Result<String, AllocError>
    ensures { IfOk result (λ text. string_bytes text ≡ workload_text seed requests) }
{
    let script = draw_script(alloc, seed, requests)?;
    text_of(alloc, &script)
}

fn add(alloc: Global, files: &mut Vec<Held>, name: &str, text: String) -> Result<(), AllocError>
    ensures { OnOk result (map file_of files.new.items
        ≡ map file_of files.old.items ++ (name.now, string_bytes text) ∷ []) }
{
    let name = String::from_str(alloc, name)?;
    let bytes = text.into_bytes();
    files.push(Held { name, bytes })?;
    Ok(())
}

/// The rows of a table, if it is there.
fn rows_of(tables: &RowSet, table: usize) -> &[Row]
    ensures { result.now ≡ rows_of tables.now table }
{
    match tables.tables.find(table) {
        Some(rows) => rows.as_slice(),
        None => &[],
    }
}

/// Adds the file of the table with this number.
fn add_table(
    alloc: Global,
    files: &mut Vec<Held>,
    name: &str,
    header: &str,
    tables: &RowSet,
    table: usize,
) -> Result<(), AllocError>
    ensures { OnOk result (map file_of files.new.items ≡ map file_of files.old.items
        ++ (name.now, header.now ++ (codes "\n" ++ lines_of (rows_of tables.now table))) ∷ []) }
{
    let text = table_text(alloc, header, rows_of(tables, table))?;
    add(alloc, files, name, text)
}

/// The files of the standard schema and policy, and of these tables, of which there are three.
fn standard_files(alloc: Global, set: &RowSet) -> Result<Vec<Held>, AllocError>
    requires { set.now ≡ tables }
    ensures { IfOk result (λ files. map file_of files.items ≡ standard_files) }
{
    let mut files = Vec::new(alloc);
    add(
        alloc,
        &mut files,
        SCHEMA_FILE,
        String::from_str(alloc, SCHEMA)?,
    )?;
    add(
        alloc,
        &mut files,
        POLICY_FILE,
        String::from_str(alloc, POLICY)?,
    )?;
    add_table(alloc, &mut files, "tables/Users.csv", "UId,Name", set, 0)?;
    add_table(
        alloc,
        &mut files,
        "tables/Events.csv",
        "EId,Title,Duration",
        set,
        1,
    )?;
    add_table(
        alloc,
        &mut files,
        "tables/Attendances.csv",
        "UId,EId,At",
        set,
        2,
    )?;
    Ok(files)
}

/// The files of a workload, by name and bytes: the schema, the policy, the table files, and the
/// script, in this order. Each name stands once. Want of memory is the only error.
#[tactic(auto, unfolding(crate::specs::Files::workload_text))]
pub fn workload_files(alloc: Global, seed: u64, requests: u32) -> Result<Vec<Held>, AllocError>
    ensures { IfOk result (λ files. map file_of files.items ≡ files_of seed requests) }
{
    let (tables, script) = workload(alloc, seed, requests)?;
    let mut files = standard_files(alloc, &tables)?;
    let text = text_of(alloc, &script)?;
    add(alloc, &mut files, SCRIPT_FILE, text)?;
    Ok(files)
}
