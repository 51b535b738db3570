//! Whether a draft is a schema, or its first fault.
ghost use Rattle.std.specs.Prelude.{◌≡◌, ◌↔◌, ◌==◌, [], IfOk, IfErr, IsTrue, MatchOption, is_some, length, map, nat_eq, not, slice_get, All};
ghost use Rattle.std.specs.List.{IsDistinct, list_all};
ghost use Rattle.ba_model.specs.Fit.{IsQuery};
ghost use Rattle.ba_model.specs.QueryFaults.{agree, is_empty};
ghost use Rattle.ba_model.specs.Readings.{OfFault};
ghost use Rattle.ba_model.specs.RuleFaults.{IsRuleFault, IsSchema, IsSchemaFault, RuleFits, drafted};
ghost use Rattle.ba_model.specs.SchemaFaults as faults;
ghost use Rattle.ba_model.specs.SchemaFaults.{AreTables, IsFirstFault};

use crate::check_query::{QueryFault, agree, fault_of, parts_match};
use crate::failure::Failure;
use crate::limits::{Counted, MAX_COLUMNS, MAX_KEYS, MAX_LINKS, MAX_RULES, MAX_TABLES};
use crate::list::List;
use crate::query::Query;
use crate::same::Duplicate;
use crate::schema::{Column, Kind, Link, Rule, Schema, Table};
use crate::text::Str;
use indexmap::IndexSet;
use std::alloc::{AllocError, Global};
use std::hash::Hash;

/// A schema that isn't checked yet.
#[derive(Debug, Drop)]
pub struct SchemaDraft {
    pub tables: List<Table>,
    pub rules: List<Rule>,
}

/// Why a draft is no schema. Of several faults the first of this order is told.
#[derive(Clone, Copy, Debug, PartialEq, Eq)]
pub enum SchemaFault {
    DuplicateTable,
    DuplicateColumn,
    UnknownTable,
    UnknownColumn,
    WidthDiffers,
    KindDiffers,
    EmptyKey,
    TooMany { what: Counted, limit: u64 },
    /// The rule of this number, from 0, has the fault: its left query, or else its right one, or else
    /// their heads differ.
    Rule { rule: u32, fault: QueryFault },
}

// Whether no two of the items are equal.
fn are_distinct<T: Eq + Hash + Duplicate>(alloc: Global, items: &[T]) -> Result<bool, AllocError>
    ensures { IfOk result (λ found. IsTrue found ↔ IsDistinct T.eq items.now) }
{
    let mut seen = IndexSet::new(alloc);
    for item in items {
        let (_, is_new) = seen.insert_full(item.copy(alloc)?)?;
        if !is_new {
            return Ok(false);
        }
    }
    Ok(true)
}

fn table_names(alloc: Global, tables: &[Table]) -> Result<Vec<Str>, AllocError>
    ensures { IfOk result (λ names. names.items ≡ faults.table_names tables.now) }
{
    let mut names = Vec::new(alloc);
    for table in tables {
        names.push(table.name.copy(alloc)?)?;
    }
    Ok(names)
}

fn column_names(alloc: Global, columns: &[Column]) -> Result<Vec<Str>, AllocError>
    ensures { IfOk result (λ names. names.items ≡ faults.column_names columns.now) }
{
    let mut names = Vec::new(alloc);
    for column in columns {
        names.push(column.name.copy(alloc)?)?;
    }
    Ok(names)
}

fn tables_distinct(alloc: Global, tables: &[Table]) -> Result<bool, AllocError>
    ensures { IfOk result (λ found. IsTrue found ↔ faults.AreDistinct (faults.table_names tables.now)) }
{
    let names = table_names(alloc, tables)?;
    are_distinct(alloc, names.as_slice())
}

fn keys_distinct(alloc: Global, keys: &[List<u32>]) -> Result<bool, AllocError>
    ensures { IfOk result (λ found. IsTrue found ↔ All (IsDistinct nat_eq) keys.now) }
{
    for key in keys {
        let found = are_distinct(alloc, key.as_slice())?;
        if !found {
            return Ok(false);
        }
    }
    Ok(true)
}

fn columns_distinct(alloc: Global, table: &Table) -> Result<bool, AllocError>
    ensures { IfOk result (λ found. IsTrue found ↔ faults.ColumnsDistinct table.now) }
{
    let names = column_names(alloc, table.columns.as_slice())?;
    let found = are_distinct(alloc, names.as_slice())?;
    if !found {
        return Ok(false);
    }
    keys_distinct(alloc, table.keys.as_slice())
}

fn all_columns_distinct(alloc: Global, tables: &[Table]) -> Result<bool, AllocError>
    ensures { IfOk result (λ found. IsTrue found ↔ All faults.ColumnsDistinct tables.now) }
{
    for table in tables {
        let found = columns_distinct(alloc, table)?;
        if !found {
            return Ok(false);
        }
    }
    Ok(true)
}

fn target_there(tables: &[Table], link: &Link) -> bool
    ensures { result ≡ is_some (slice_get tables.now link.now.target) }
{
    tables.get(link.target as usize).is_some()
}

fn targets_there(tables: &[Table], table: &Table) -> bool
    ensures { result ≡ faults.targets_there tables.now table.now }
{
    table
        .links
        .as_slice()
        .iter()
        .all(|link| target_there(tables, link))
}

fn all_targets_there(tables: &[Table]) -> bool
    ensures { result ≡ list_all (faults.targets_there tables.now) tables.now }
{
    tables.iter().all(|table| targets_there(tables, table))
}

fn columns_of(tables: &[Table], table: u32) -> &[Column]
    ensures { result.now ≡ faults.columns_of tables.now table }
{
    match tables.get(table as usize) {
        Some(table) => table.columns.as_slice(),
        None => &[],
    }
}

fn has_column(columns: &[Column], n: u32) -> bool
    ensures { result ≡ is_some (slice_get columns.now n) }
{
    columns.get(n as usize).is_some()
}

fn has_columns(columns: &[Column], numbers: &[u32]) -> bool
    ensures { result ≡ faults.has_columns columns.now numbers.now }
{
    numbers.iter().all(|n| has_column(columns, *n))
}

fn key_columns_there(columns: &[Column], keys: &[List<u32>]) -> bool
    ensures { result ≡ list_all (faults.has_columns columns.now) keys.now }
{
    keys.iter().all(|key| has_columns(columns, key.as_slice()))
}

fn link_columns_there(tables: &[Table], table: &Table, link: &Link) -> bool
    ensures { result ≡ faults.link_columns_there tables.now table.now link.now }
{
    has_columns(table.columns.as_slice(), link.columns.as_slice())
        && has_columns(
            columns_of(tables, link.target),
            link.target_columns.as_slice(),
        )
}

fn all_link_columns_there(tables: &[Table], table: &Table, links: &[Link]) -> bool
    ensures { result ≡ list_all (faults.link_columns_there tables.now table.now) links.now }
{
    links
        .iter()
        .all(|link| link_columns_there(tables, table, link))
}

fn columns_there(tables: &[Table], table: &Table) -> bool
    ensures { result ≡ faults.columns_there tables.now table.now }
{
    key_columns_there(table.columns.as_slice(), table.keys.as_slice())
        && all_link_columns_there(tables, table, table.links.as_slice())
}

fn all_columns_there(tables: &[Table]) -> bool
    ensures { result ≡ list_all (faults.columns_there tables.now) tables.now }
{
    tables.iter().all(|table| columns_there(tables, table))
}

fn link_widths(links: &[Link]) -> bool
    ensures { result ≡ list_all (λ link. length link.columns == length link.target_columns) links.now }
{
    links
        .iter()
        .all(|link| link.columns.len() == link.target_columns.len())
}

fn all_widths_agree(tables: &[Table]) -> bool
    ensures { result ≡ list_all faults.widths_agree tables.now }
{
    tables
        .iter()
        .all(|table| link_widths(table.links.as_slice()))
}

fn kind_at(columns: &[Column], n: u32) -> Option<Kind>
    ensures { result ≡ faults.kind_at columns.now n }
{
    match columns.get(n as usize) {
        Some(column) => Some(column.kind),
        None => None,
    }
}

// Whether the columns and the other table's columns of these numbers are pairwise of one kind.
fn kinds_match(columns: &[Column], others: &[Column], numbers: &[u32], targets: &[u32]) -> bool
    ensures { result ≡ faults.kinds_match columns.now others.now numbers.now targets.now }
{
    match (numbers.split_first(), targets.split_first()) {
        (Some((n, ns)), Some((m, ms))) => {
            agree(kind_at(columns, *n), kind_at(others, *m)) && kinds_match(columns, others, ns, ms)
        }
        _ => true,
    }
}

fn link_kinds(tables: &[Table], table: &Table, link: &Link) -> bool
    ensures { result ≡ faults.link_kinds tables.now table.now link.now }
{
    kinds_match(
        table.columns.as_slice(),
        columns_of(tables, link.target),
        link.columns.as_slice(),
        link.target_columns.as_slice(),
    )
}

fn kinds_agree(tables: &[Table], table: &Table) -> bool
    ensures { result ≡ faults.kinds_agree tables.now table.now }
{
    table
        .links
        .as_slice()
        .iter()
        .all(|link| link_kinds(tables, table, link))
}

fn all_kinds_agree(tables: &[Table]) -> bool
    ensures { result ≡ list_all (faults.kinds_agree tables.now) tables.now }
{
    tables.iter().all(|table| kinds_agree(tables, table))
}

fn some_key_columns(keys: &[List<u32>]) -> bool
    ensures { result ≡ list_all (λ key. not (is_empty key)) keys.now }
{
    keys.iter().all(|key| !key.as_slice().is_empty())
}

fn some_link_columns(links: &[Link]) -> bool
    ensures { result ≡ list_all (λ link. not (is_empty link.columns)) links.now }
{
    links.iter().all(|link| !link.columns.as_slice().is_empty())
}

fn some_columns(table: &Table) -> bool
    ensures { result ≡ faults.some_columns table.now }
{
    some_key_columns(table.keys.as_slice()) && some_link_columns(table.links.as_slice())
}

fn all_some_columns(tables: &[Table]) -> bool
    ensures { result ≡ list_all faults.some_columns tables.now }
{
    tables.iter().all(|table| some_columns(table))
}

fn table_excess(table: &Table) -> Option<Counted>
    ensures { result ≡ faults.table_excess table.now }
{
    if table.columns.len() > MAX_COLUMNS {
        Some(Counted::Columns)
    } else if table.keys.len() > MAX_KEYS {
        Some(Counted::Keys)
    } else if table.links.len() > MAX_LINKS {
        Some(Counted::Links)
    } else {
        None
    }
}

fn tables_excess(tables: &[Table]) -> Option<Counted>
    ensures { result ≡ faults.tables_excess tables.now }
{
    for table in tables {
        let found = table_excess(table);
        if found.is_some() {
            return found;
        }
    }
    None
}

fn excess(tables: &[Table]) -> Option<Counted>
    ensures { result ≡ faults.excess tables.now }
{
    if tables.len() > MAX_TABLES {
        Some(Counted::Tables)
    } else {
        tables_excess(tables)
    }
}

// The first fault of tables whose names, columns and keys are distinct.
fn later_fault(tables: &[Table]) -> Result<(), SchemaFault>
    requires names { faults.AreDistinct (faults.table_names tables.now) }
    requires columns { All faults.ColumnsDistinct tables.now }
    ensures ok { IfOk result (λ _. AreTables tables.now) }
    ensures first { IfErr result (λ fault. IsFirstFault fault tables.now) }
{
    if !all_targets_there(tables) {
        return Err(SchemaFault::UnknownTable);
    }
    if !all_columns_there(tables) {
        return Err(SchemaFault::UnknownColumn);
    }
    if !all_widths_agree(tables) {
        return Err(SchemaFault::WidthDiffers);
    }
    if !all_kinds_agree(tables) {
        return Err(SchemaFault::KindDiffers);
    }
    if !all_some_columns(tables) {
        return Err(SchemaFault::EmptyKey);
    }
    match excess(tables) {
        Some(what) => Err(SchemaFault::TooMany {
            what,
            limit: what.limit(),
        }),
        None => Ok(()),
    }
}

// The first fault of the tables.
fn tables_fault(alloc: Global, tables: &[Table]) -> Result<(), Failure<SchemaFault>>
    ensures ok { IfOk result (λ _. AreTables tables.now) }
    ensures fault { IfErr result (λ e. OfFault e (λ fault. IsFirstFault fault tables.now)) }
{
    let names = tables_distinct(alloc, tables)?;
    if !names {
        return Err(Failure::Fault(SchemaFault::DuplicateTable));
    }
    let columns = all_columns_distinct(alloc, tables)?;
    if !columns {
        return Err(Failure::Fault(SchemaFault::DuplicateColumn));
    }
    later_fault(tables).map_err(Failure::Fault)
}

// The first fault of a draft's tables.
fn draft_tables_fault(alloc: Global, draft: &SchemaDraft) -> Result<(), Failure<SchemaFault>>
    ensures ok { IfOk result (λ _. AreTables draft.now.tables) }
    ensures fault { IfErr result (λ e. OfFault e (IsSchemaFault (drafted draft.now))) }
{
    tables_fault(alloc, draft.tables.as_slice())
}

// Whether the heads of two queries have as many operands, of the same kinds.
fn heads_match(schema: &Schema, left: &Query, right: &Query) -> bool
    requires left { IsQuery schema.now [] [] left.now }
    requires right { IsQuery schema.now [] [] right.now }
    ensures { IsTrue result ↔ RuleFits schema.now (record { left = left.now; right = right.now }) }
{
    match (left.parts.find(0), right.parts.find(0)) {
        (Some(part), Some(other)) => parts_match(schema, &[], &[], part, other),
        _ => false,
    }
}

// The fault of a rule, if it has one.
fn rule_fault(schema: &Schema, rule: &Rule) -> Option<QueryFault>
    ensures { MatchOption result (RuleFits schema.now rule.now) (IsRuleFault schema.now rule.now) }
{
    if let Err(fault) = fault_of(schema, &[], &[], rule.left.parts.as_slice()) {
        return Some(fault);
    }
    if let Err(fault) = fault_of(schema, &[], &[], rule.right.parts.as_slice()) {
        return Some(fault);
    }
    if heads_match(schema, &rule.left, &rule.right) {
        None
    } else {
        Some(QueryFault::HeadDiffers)
    }
}

// The first fault of the rules of a schema whose tables have none.
fn rules_fault(schema: &Schema) -> Result<(), SchemaFault>
    requires { AreTables schema.now.tables }
    ensures ok { IfOk result (λ _. IsSchema schema.now) }
    ensures fault { IfErr result (IsSchemaFault schema.now) }
{
    let rules = schema.rules.as_slice();
    if rules.len() > MAX_RULES {
        return Err(SchemaFault::TooMany {
            what: Counted::Rules,
            limit: MAX_RULES as u64,
        });
    }
    for (number, rule) in rules.iter().enumerate() {
        if let Some(fault) = rule_fault(schema, rule) {
            return Err(SchemaFault::Rule {
                rule: number as u32,
                fault,
            });
        }
    }
    Ok(())
}

impl Schema {
    /// The draft as a schema, or its first fault.
    ///
    /// It is one exactly where names of tables and of a table's columns are distinct, keys and links
    /// have columns that are there (a key each once), a link has as many target columns, of the same
    /// kinds, all counts are within the limits, and each rule has two queries for the schema, without
    /// parameters and variables, whose heads have the same kinds. That there are too many rules is told
    /// after all faults of the tables, then the first rule with a fault. A draft with a fault is
    /// dropped.
    pub fn check(alloc: Global, draft: SchemaDraft) -> Result<Schema, Failure<SchemaFault>>
        ensures content { IfOk result (λ schema. schema ≡ drafted draft) }
        ensures ok { IfOk result IsSchema }
        ensures fault { IfErr result (λ e. OfFault e (IsSchemaFault (drafted draft))) }
    {
        draft_tables_fault(alloc, &draft)?;
        let schema = Schema {
            tables: draft.tables,
            rules: draft.rules,
        };
        rules_fault(&schema).map_err(Failure::Fault)?;
        Ok(schema)
    }
}
