//! Reads what a run is given.
ghost use Rattle.std.specs.Prelude.{◌≡◌, ◌⊎◌, ◌<◌, ◌≤◌, ◌++◌, [], All, IfOk, IfSome, length, Err};
ghost use Rattle.std.specs.Option.{option_to_list};
ghost use Rattle.ba_model.specs.Conform.{RowFits};
ghost use Rattle.ba_model.specs.Fit.{PolicyFits};
ghost use Rattle.ba_model.specs.Readings.{widened};
ghost use Rattle.ba_model.specs.RuleFaults.{AreRules};
ghost use Rattle.ba_model.specs.SchemaFaults.{AreTables};
ghost use Rattle.ba_model.specs.Limits.{most_budget, most_workers};
ghost use Rattle.ba_plan.specs.Follows.{Follows, Gives};
ghost use Rattle.ba_policy.specs.Reading.{policy_of};
ghost use Rattle.ba_script.specs.Reading.{published, published_by, script_of};
ghost use Rattle.ba_script.specs.Scripts.{IsScript};
ghost use Rattle.ba_sql_ddl.specs.Reading.{schema_of};
ghost use Rattle.ba_tables.specs.Checked.{checked};
ghost use Rattle.ba_tables.specs.TableFile.{rows_of_file};
ghost use Rattle.ba_input.specs.Inputs.{IsInput, RowsOfTables};
ghost use Rattle.ba_input.specs.Published.{IsSetOf};
ghost use Rattle.ba_input.specs.Reading.{published_plan, reading_of, rows_plan, script_plan, set_plan, sets_plan, table_plan, tables_plan};
ghost use Rattle.ba_input.specs.Refusals.{broken_refusal, ddl_refusal, policy_refusal, script_refusal, table_refusal};

use crate::input::Input;
use crate::refusal::{
    broken_refusal, ddl_refusal, path, policy_refusal, script_refusal, table_refusal,
};
use ba_model::{
    CacheKey, Failure, List, MAX_FILE_BYTES, Parameter, Policy, Row, RowSet, Schema, Shared, Str,
    Table,
};
use ba_outside::Files;
use ba_plan::{Stop, read_file};
use ba_policy::read_policy;
use ba_script::{Script, ScriptEntry, read_script};
use ba_sql_ddl::read_schema;
use ba_tables::{Tables, rows_of_file};
use ba_wire::Fault;
use std::alloc::{AllocError, Global};

/// The names of the files and of the table set, the number of workers, the budget of a search, and in
/// how many orders it is made.
#[derive(Clone, Copy, Debug)]
pub(crate) struct Named<'a> {
    pub(crate) schema: &'a str,
    pub(crate) policy: &'a str,
    pub(crate) tables: &'a str,
    pub(crate) script: &'a str,
    pub(crate) workers: u32,
    pub(crate) budget: u32,
    pub(crate) orders: u32,
}

/// The schema of a file's bytes.
pub(crate) fn schema_at(
    alloc: Global,
    file: &str,
    bytes: &List<u8>,
) -> Result<Shared<Schema>, Stop<Fault>>
    ensures reads { Gives result (widened (ddl_refusal file.now) (schema_of bytes.now)) }
    ensures tables { IfOk result (λ schema. AreTables schema.tables) }
    ensures rules { IfOk result AreRules }
{
    match read_schema(alloc, bytes.as_slice()) {
        Ok(schema) => Ok(Shared::new(alloc, schema)?),
        Err(Failure::Fault(fault)) => {
            let file = Str::new(alloc, file)?;
            Err(Stop::Refused(ddl_refusal(file, fault)))
        }
        Err(Failure::NoMemory) => Err(Stop::NoMemory),
    }
}

/// The policy of a file's bytes.
pub(crate) fn policy_at(
    alloc: Global,
    file: &str,
    schema: &Shared<Schema>,
    bytes: &List<u8>,
) -> Result<Shared<Policy>, Stop<Fault>>
    ensures reads { Gives result
        (widened (policy_refusal file.now) (policy_of schema.now bytes.now)) }
    ensures fits { IfOk result PolicyFits }
    ensures same { IfOk result (λ policy. policy.schema ≡ schema.now) }
{
    match read_policy(alloc, schema, bytes.as_slice()) {
        Ok(policy) => Ok(Shared::new(alloc, policy)?),
        Err(Failure::Fault(fault)) => {
            let file = Str::new(alloc, file)?;
            Err(Stop::Refused(policy_refusal(file, fault)))
        }
        Err(Failure::NoMemory) => Err(Stop::NoMemory),
    }
}

fn rows_at(
    alloc: Global,
    file: &str,
    table: &Table,
    bytes: &List<u8>,
) -> Result<List<Row>, Stop<Fault>>
    ensures reads { Gives result
        (widened (table_refusal file.now) (rows_of_file table.now bytes.now)) }
    ensures fit { IfOk result (All (RowFits table.now)) }
{
    match rows_of_file(alloc, table, bytes.as_slice()) {
        Ok(rows) => Ok(rows),
        Err(Failure::Fault(fault)) => {
            let file = Str::new(alloc, file)?;
            Err(Stop::Refused(table_refusal(file, fault)))
        }
        Err(Failure::NoMemory) => Err(Stop::NoMemory),
    }
}

fn script_at(
    alloc: Global,
    file: &str,
    params: &List<Parameter>,
    keys: &List<CacheKey>,
    bytes: &List<u8>,
) -> Result<Script, Stop<Fault>>
    ensures reads { Gives result
        (widened (script_refusal file.now) (script_of params.now keys.now bytes.now)) }
    ensures script { IfOk result (IsScript params.now keys.now) }
{
    match read_script(alloc, params, keys, bytes.as_slice()) {
        Ok(script) => Ok(script),
        Err(Failure::Fault(fault)) => {
            let file = Str::new(alloc, file)?;
            Err(Stop::Refused(script_refusal(file, fault)))
        }
        Err(Failure::NoMemory) => Err(Stop::NoMemory),
    }
}

// The tables, where no key, no link and no rule is broken.
fn checked_at(
    alloc: Global,
    set: &str,
    schema: &Shared<Schema>,
    rows: RowSet,
) -> Result<Shared<Tables>, Stop<Fault>>
    requires { RowsOfTables schema.now.tables rows.tables }
    ensures reads { Gives result
        (widened (broken_refusal set.now schema.now) (checked schema.now rows)) }
    ensures set { IfOk result (IsSetOf schema.now) }
{
    match Tables::check(alloc, schema, rows) {
        Ok(tables) => Ok(Shared::new(alloc, tables)?),
        Err(Failure::Fault(fault)) => {
            let refusal = broken_refusal(alloc, set, schema, fault)?;
            Err(Stop::Refused(refusal))
        }
        Err(Failure::NoMemory) => Err(Stop::NoMemory),
    }
}

fn read_table<F: Files>(
    alloc: Global,
    files: &mut F,
    set: &str,
    table: &Table,
) -> Result<List<Row>, Stop<Fault>>
    ensures follows { Follows (table_plan set.now table.now)
        (F.seen files.old) (F.seen files.new) result }
    ensures fit { IfOk result (All (RowFits table.now)) }
{
    let name = path(alloc, set, table.name.as_str())?;
    let bytes = read_file(alloc, files, name.as_str(), MAX_FILE_BYTES)?;
    rows_at(alloc, name.as_str(), table, &bytes)
}

// The rows of each table, in the schema's order.
fn read_rows<F: Files>(
    alloc: Global,
    files: &mut F,
    set: &str,
    tables: &[Table],
) -> Result<List<List<Row>>, Stop<Fault>>
    ensures follows { Follows (rows_plan set.now tables.now [])
        (F.seen files.old) (F.seen files.new) result }
    ensures fit { IfOk result (λ lists. RowsOfTables tables.now lists) }
{
    let mut lists = List::new(alloc);
    for table in tables {
        let list = read_table(alloc, files, set, table)?;
        lists.push(list)?;
    }
    Ok(lists)
}

// The rows of a table set, which break no key, no link and no rule.
fn read_tables<F: Files>(
    alloc: Global,
    files: &mut F,
    set: &str,
    schema: &Shared<Schema>,
) -> Result<Shared<Tables>, Stop<Fault>>
    ensures follows { Follows (tables_plan set.now schema.now)
        (F.seen files.old) (F.seen files.new) result }
    ensures set { IfOk result (IsSetOf schema.now) }
{
    let lists = read_rows(alloc, files, set, schema.tables.as_slice())?;
    let rows = RowSet { tables: lists };
    checked_at(alloc, set, schema, rows)
}

// The table set that a line publishes, if it does.
fn read_set<F: Files>(
    alloc: Global,
    files: &mut F,
    schema: &Shared<Schema>,
    entry: &ScriptEntry,
) -> Result<Option<Shared<Tables>>, Stop<Fault>>
    ensures follows { Follows (set_plan schema.now entry.now)
        (F.seen files.old) (F.seen files.new) result }
    ensures set { IfOk result (λ found. IfSome found (IsSetOf schema.now)) }
    ensures count { IfOk result (λ found.
        length (option_to_list found) ≡ published_by 0 entry.now) }
{
    let ScriptEntry::Publish { set, .. } = entry else {
        return Ok(None);
    };
    let tables = read_tables(alloc, files, set.as_str(), schema)?;
    Ok(Some(tables))
}

fn keep_found(
    sets: &mut List<Shared<Tables>>,
    found: Option<Shared<Tables>>,
) -> Result<(), AllocError>
    ensures { IfOk result (λ _. sets.new ≡ sets.old ++ option_to_list found) }
{
    match found {
        Some(tables) => sets.push(tables),
        None => Ok(()),
    }
}

// The table sets of the publish lines, in their order. A set that two lines name is read twice.
fn read_sets<F: Files>(
    alloc: Global,
    files: &mut F,
    schema: &Shared<Schema>,
    entries: &[ScriptEntry],
) -> Result<List<Shared<Tables>>, Stop<Fault>>
    ensures follows { Follows (sets_plan schema.now entries.now [])
        (F.seen files.old) (F.seen files.new) result }
    ensures sets { IfOk result (All (IsSetOf schema.now)) }
    ensures count { IfOk result (λ sets. length sets ≡ published entries.now) }
{
    let mut sets = List::new(alloc);
    for entry in entries {
        let found = read_set(alloc, files, schema, entry)?;
        keep_found(&mut sets, found)?;
    }
    Ok(sets)
}

// The table sets of the publish lines, and all of the input.
fn read_published<F: Files>(
    alloc: Global,
    files: &mut F,
    named: &Named<'_>,
    policy: Shared<Policy>,
    tables: Shared<Tables>,
    script: Script,
) -> Result<Input, Stop<Fault>>
    requires policy { PolicyFits policy }
    requires tables { IsSetOf policy.schema tables }
    requires script { IsScript policy.params policy.keys script }
    requires tables_are { AreTables policy.schema.tables }
    requires rules { AreRules policy.schema }
    requires workers { (0 < named.now.workers) × (named.now.workers ≤ most_workers) }
    requires budget { named.now.budget ≤ most_budget }
    requires orders { (named.now.orders ≡ 1) ⊎ (named.now.orders ≡ 2) }
    ensures follows { Follows (published_plan (record {
      schema = named.now.schema.now;
      policy = named.now.policy.now;
      tables = named.now.tables.now;
      script = named.now.script.now;
      workers = named.now.workers;
      budget = named.now.budget;
      orders = named.now.orders;
    }) policy tables script)
        (F.seen files.old) (F.seen files.new) result }
    ensures input { IfOk result IsInput }
    ensures rules { IfOk result (λ input. AreRules input.policy.schema) }
{
    let published = read_sets(alloc, files, &policy.schema, script.entries.as_slice())?;
    let loaded = List::new(alloc);
    Ok(Input {
        policy,
        tables,
        script,
        published,
        workers: named.workers,
        budget: named.budget,
        loaded,
        orders: named.orders,
    })
}

// The script, and all that it leads to.
fn read_rest<F: Files>(
    alloc: Global,
    files: &mut F,
    named: &Named<'_>,
    policy: Shared<Policy>,
    tables: Shared<Tables>,
) -> Result<Input, Stop<Fault>>
    requires policy { PolicyFits policy }
    requires tables { IsSetOf policy.schema tables }
    requires tables_are { AreTables policy.schema.tables }
    requires rules { AreRules policy.schema }
    requires workers { (0 < named.now.workers) × (named.now.workers ≤ most_workers) }
    requires budget { named.now.budget ≤ most_budget }
    requires orders { (named.now.orders ≡ 1) ⊎ (named.now.orders ≡ 2) }
    ensures follows { Follows (script_plan (record {
      schema = named.now.schema.now;
      policy = named.now.policy.now;
      tables = named.now.tables.now;
      script = named.now.script.now;
      workers = named.now.workers;
      budget = named.now.budget;
      orders = named.now.orders;
    }) policy tables)
        (F.seen files.old) (F.seen files.new) result }
    ensures input { IfOk result IsInput }
    ensures rules { IfOk result (λ input. AreRules input.policy.schema) }
{
    let bytes = read_file(alloc, files, named.script, MAX_FILE_BYTES)?;
    let script = script_at(alloc, named.script, &policy.params, &policy.keys, &bytes)?;
    read_published(alloc, files, named, policy, tables, script)
}

pub(crate) fn read_named<F: Files>(
    alloc: Global,
    files: &mut F,
    named: &Named<'_>,
) -> Result<Input, Stop<Fault>>
    requires workers { (0 < named.now.workers) × (named.now.workers ≤ most_workers) }
    requires budget { named.now.budget ≤ most_budget }
    requires orders { (named.now.orders ≡ 1) ⊎ (named.now.orders ≡ 2) }
    ensures follows { Follows (reading_of (record {
      schema = named.now.schema.now;
      policy = named.now.policy.now;
      tables = named.now.tables.now;
      script = named.now.script.now;
      workers = named.now.workers;
      budget = named.now.budget;
      orders = named.now.orders;
    }))
        (F.seen files.old) (F.seen files.new) result }
    ensures input { IfOk result IsInput }
    ensures rules { IfOk result (λ input. AreRules input.policy.schema) }
{
    let bytes = read_file(alloc, files, named.schema, MAX_FILE_BYTES)?;
    let schema = schema_at(alloc, named.schema, &bytes)?;
    let text = read_file(alloc, files, named.policy, MAX_FILE_BYTES)?;
    let policy = policy_at(alloc, named.policy, &schema, &text)?;
    let tables = read_tables(alloc, files, named.tables, &schema)?;
    read_rest(alloc, files, named, policy, tables)
}
