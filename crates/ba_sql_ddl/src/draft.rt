//! What written tables mean: tables whose names are numbers, which aren't checked yet.
ghost use Rattle.std.specs.Prelude.{◌≡◌, ◌++◌, ◌∷◌, [], IfOk, OnOk, map};
ghost use Rattle.std.specs.List.{flat_map, list_any};
ghost use Rattle.indexmap.specs.IndexSet.{insert_all};
ghost use Rattle.ba_sql_ddl.specs.Meaning as meaning;
ghost use Rattle.ba_sql_ddl.specs.Numbers.{number, number_in, once, same_name};

use crate::names::{Names, key_numbers, numbers, numbers_in};
use crate::written::{ColumnRule, ColumnText, Name, TableItem, TableRule, TableText, TypeWord};
use ba_model::{Column, Duplicate, Kind, Link, List, Table};
use std::alloc::{AllocError, Global};

fn one<T: Drop>(alloc: Global, item: T) -> Result<List<T>, AllocError>
    ensures { IfOk result (λ list. list ≡ item ∷ []) }
{
    let mut list = List::new(alloc);
    list.push(item)?;
    Ok(list)
}

fn kind_of(word: TypeWord) -> Kind
    ensures { result ≡ meaning.kind_of word }
{
    match word {
        TypeWord::Int | TypeWord::Integer | TypeWord::BigInt | TypeWord::SmallInt => Kind::Int,
        TypeWord::Text | TypeWord::VarChar | TypeWord::Char => Kind::Text,
    }
}

/// The names of the tables.
fn table_names(alloc: Global, texts: &[TableText]) -> Result<Names, AllocError>
    ensures { IfOk result (λ names. names ≡ once (map (λ t. t.name) texts.now)) }
{
    let mut names = Names::new(alloc);
    for text in texts {
        names.add(alloc, &text.name.text)?;
    }
    Ok(names)
}

fn add_name(alloc: Global, names: &mut Names, item: &TableItem) -> Result<(), AllocError>
    ensures { OnOk result (names.new ≡ insert_all same_name names.old (meaning.name_in item.now)) }
{
    match item {
        TableItem::Column(column) => names.add(alloc, &column.name.text),
        TableItem::Constraint(_) => Ok(()),
    }
}

/// The names of a table's columns.
fn column_names(alloc: Global, items: &[TableItem]) -> Result<Names, AllocError>
    ensures { IfOk result (λ names. names ≡ once (meaning.names_in items.now)) }
{
    let mut names = Names::new(alloc);
    for item in items {
        add_name(alloc, &mut names, item)?;
    }
    Ok(names)
}

/// The names of the columns of each table.
fn all_column_names(alloc: Global, texts: &[TableText]) -> Result<List<Names>, AllocError>
    ensures { IfOk result (λ all. all ≡ map (λ t. once (meaning.names_in t.items)) texts.now) }
{
    let mut all = List::new(alloc);
    for text in texts {
        all.push(column_names(alloc, text.items.as_slice())?)?;
    }
    Ok(all)
}

fn add_primary_of_rules(
    alloc: Global,
    names: &mut Names,
    name: &Name,
    rules: &[ColumnRule],
) -> Result<(), AllocError>
    ensures { OnOk result (names.new
        ≡ insert_all same_name names.old (flat_map (meaning.primary_of_rule name.now) rules.now)) }
{
    for rule in rules {
        if let ColumnRule::PrimaryKey = rule {
            names.add(alloc, &name.text)?;
        }
    }
    Ok(())
}

fn add_primary(alloc: Global, names: &mut Names, item: &TableItem) -> Result<(), AllocError>
    ensures { OnOk result
        (names.new ≡ insert_all same_name names.old (meaning.primary_in item.now)) }
{
    match item {
        TableItem::Column(column) => {
            add_primary_of_rules(alloc, names, &column.name, column.rules.as_slice())
        }
        TableItem::Constraint(constraint) => match &constraint.rule {
            TableRule::PrimaryKey(columns) => names.add_all(alloc, columns.as_slice()),
            TableRule::Unique(_) => Ok(()),
            TableRule::ForeignKey { .. } => Ok(()),
        },
    }
}

/// The names of the columns of a table's PRIMARY KEYs.
fn primary_names(alloc: Global, items: &[TableItem]) -> Result<Names, AllocError>
    ensures { IfOk result (λ names. names ≡ once (meaning.primary_names items.now)) }
{
    let mut names = Names::new(alloc);
    for item in items {
        add_primary(alloc, &mut names, item)?;
    }
    Ok(names)
}

fn is_not_null_rule(rule: &ColumnRule) -> bool
    ensures { result ≡ meaning.is_not_null_rule rule.now }
{
    match rule {
        ColumnRule::NotNull => true,
        _ => false,
    }
}

fn has_not_null(rules: &[ColumnRule]) -> bool
    ensures { result ≡ list_any meaning.is_not_null_rule rules.now }
{
    rules.iter().any(|rule| is_not_null_rule(rule))
}

fn is_not_null(primary: &Names, column: &ColumnText) -> bool
    ensures { result ≡ meaning.is_not_null primary.now column.now }
{
    has_not_null(column.rules.as_slice()) || primary.contains(&column.name.text)
}

fn column_of(alloc: Global, primary: &Names, column: &ColumnText) -> Result<Column, AllocError>
    ensures { IfOk result (λ found. found ≡ meaning.column_of primary.now column.now) }
{
    let name = column.name.text.copy(alloc)?;
    Ok(Column {
        name,
        kind: kind_of(column.type_text.word),
        nullable: !is_not_null(primary, column),
    })
}

fn add_column(
    alloc: Global,
    found: &mut List<Column>,
    primary: &Names,
    item: &TableItem,
) -> Result<(), AllocError>
    ensures { OnOk result (found.new
        ≡ found.old ++ map (meaning.column_of primary.now) (meaning.column_in item.now)) }
{
    match item {
        TableItem::Column(column) => found.push(column_of(alloc, primary, column)?),
        TableItem::Constraint(_) => Ok(()),
    }
}

fn columns_with(
    alloc: Global,
    primary: &Names,
    items: &[TableItem],
) -> Result<List<Column>, AllocError>
    ensures { IfOk result
        (λ found. found ≡ map (meaning.column_of primary.now) (meaning.columns_in items.now)) }
{
    let mut found = List::new(alloc);
    for item in items {
        add_column(alloc, &mut found, primary, item)?;
    }
    Ok(found)
}

fn columns(alloc: Global, items: &[TableItem]) -> Result<List<Column>, AllocError>
    ensures { IfOk result (λ found. let primary = once (meaning.primary_names items.now) in
        found ≡ map (meaning.column_of primary) (meaning.columns_in items.now)) }
{
    let primary = primary_names(alloc, items)?;
    columns_with(alloc, &primary, items)
}

fn add_own_key(
    alloc: Global,
    found: &mut List<List<u32>>,
    columns: &Names,
    name: &Name,
    rule: &ColumnRule,
) -> Result<(), AllocError>
    ensures { OnOk result (found.new
        ≡ found.old ++ map (meaning.key_of columns.now) (meaning.own_keys name.now rule.now)) }
{
    match rule {
        ColumnRule::PrimaryKey | ColumnRule::Unique => {
            found.push(one(alloc, columns.number(&name.text))?)
        }
        ColumnRule::NotNull | ColumnRule::Null | ColumnRule::References { .. } => Ok(()),
    }
}

fn add_own_keys(
    alloc: Global,
    found: &mut List<List<u32>>,
    columns: &Names,
    column: &ColumnText,
) -> Result<(), AllocError>
    ensures { OnOk result (found.new ≡ found.old ++ map (meaning.key_of columns.now)
        (flat_map (meaning.own_keys column.now.name) column.now.rules)) }
{
    for rule in column.rules.as_slice() {
        add_own_key(alloc, found, columns, &column.name, rule)?;
    }
    Ok(())
}

fn add_table_key(
    alloc: Global,
    found: &mut List<List<u32>>,
    columns: &Names,
    rule: &TableRule,
) -> Result<(), AllocError>
    ensures { OnOk result
        (found.new ≡ found.old ++ map (meaning.key_of columns.now) (meaning.table_keys rule.now)) }
{
    match rule {
        TableRule::PrimaryKey(names) | TableRule::Unique(names) => {
            found.push(key_numbers(alloc, columns, names.as_slice())?)
        }
        TableRule::ForeignKey { .. } => Ok(()),
    }
}

fn add_keys(
    alloc: Global,
    found: &mut List<List<u32>>,
    columns: &Names,
    item: &TableItem,
) -> Result<(), AllocError>
    ensures { OnOk result
        (found.new ≡ found.old ++ map (meaning.key_of columns.now) (meaning.keys_in item.now)) }
{
    match item {
        TableItem::Column(column) => add_own_keys(alloc, found, columns, column),
        TableItem::Constraint(constraint) => add_table_key(alloc, found, columns, &constraint.rule),
    }
}

/// The keys, in the order in which they are written.
fn keys(alloc: Global, columns: &Names, items: &[TableItem]) -> Result<List<List<u32>>, AllocError>
    ensures { IfOk result
        (λ found. found ≡ map (meaning.key_of columns.now) (flat_map meaning.keys_in items.now)) }
{
    let mut found = List::new(alloc);
    for item in items {
        add_keys(alloc, &mut found, columns, item)?;
    }
    Ok(found)
}

/// What links look names up in: the names of the tables, and those of the columns of each.
#[derive(Drop)]
struct Scope {
    tables: Names,
    columns: List<Names>,
}

fn scope_of(alloc: Global, texts: &[TableText]) -> Result<Scope, AllocError>
    ensures { IfOk result (λ scope. scope ≡ meaning.scope_of texts.now) }
{
    let tables = table_names(alloc, texts)?;
    let columns = all_column_names(alloc, texts)?;
    Ok(Scope { tables, columns })
}

fn link_of(
    alloc: Global,
    scope: &Scope,
    columns: List<u32>,
    table: &Name,
    targets: &[Name],
) -> Result<Link, AllocError>
    ensures { IfOk result (λ link. let target = number scope.now.tables table.now in
        link ≡ record {
          columns = columns;
          target = target;
          target_columns = map (number_in scope.now.columns target) targets.now;
        }) }
{
    let target = scope.tables.number(&table.text);
    let target_columns = numbers_in(alloc, scope.columns.as_slice(), target, targets)?;
    Ok(Link {
        columns,
        target,
        target_columns,
    })
}

fn add_own_link(
    alloc: Global,
    found: &mut List<Link>,
    scope: &Scope,
    columns: &Names,
    name: &Name,
    rule: &ColumnRule,
) -> Result<(), AllocError>
    ensures { OnOk result (found.new ≡ found.old
        ++ map (meaning.link_of scope.now columns.now) (meaning.own_links name.now rule.now)) }
{
    match rule {
        ColumnRule::References { table, targets } => {
            let own = one(alloc, columns.number(&name.text))?;
            found.push(link_of(alloc, scope, own, table, targets.as_slice())?)
        }
        _ => Ok(()),
    }
}

fn add_own_links(
    alloc: Global,
    found: &mut List<Link>,
    scope: &Scope,
    columns: &Names,
    column: &ColumnText,
) -> Result<(), AllocError>
    ensures { OnOk result (found.new ≡ found.old ++ map (meaning.link_of scope.now columns.now)
        (flat_map (meaning.own_links column.now.name) column.now.rules)) }
{
    for rule in column.rules.as_slice() {
        add_own_link(alloc, found, scope, columns, &column.name, rule)?;
    }
    Ok(())
}

fn add_table_link(
    alloc: Global,
    found: &mut List<Link>,
    scope: &Scope,
    columns: &Names,
    rule: &TableRule,
) -> Result<(), AllocError>
    ensures { OnOk result (found.new
        ≡ found.old ++ map (meaning.link_of scope.now columns.now) (meaning.table_links rule.now)) }
{
    match rule {
        TableRule::ForeignKey {
            columns: names,
            table,
            targets,
        } => {
            let own = numbers(alloc, columns, names.as_slice())?;
            found.push(link_of(alloc, scope, own, table, targets.as_slice())?)
        }
        _ => Ok(()),
    }
}

fn add_links(
    alloc: Global,
    found: &mut List<Link>,
    scope: &Scope,
    columns: &Names,
    item: &TableItem,
) -> Result<(), AllocError>
    ensures { OnOk result (found.new
        ≡ found.old ++ map (meaning.link_of scope.now columns.now) (meaning.links_in item.now)) }
{
    match item {
        TableItem::Column(column) => add_own_links(alloc, found, scope, columns, column),
        TableItem::Constraint(constraint) => {
            add_table_link(alloc, found, scope, columns, &constraint.rule)
        }
    }
}

/// The links, in the order in which they are written.
fn links(
    alloc: Global,
    scope: &Scope,
    columns: &Names,
    items: &[TableItem],
) -> Result<List<Link>, AllocError>
    ensures { IfOk result (λ found. found
        ≡ map (meaning.link_of scope.now columns.now) (flat_map meaning.links_in items.now)) }
{
    let mut found = List::new(alloc);
    for item in items {
        add_links(alloc, &mut found, scope, columns, item)?;
    }
    Ok(found)
}

fn table_of(alloc: Global, scope: &Scope, text: &TableText) -> Result<Table, AllocError>
    ensures { IfOk result (λ table. table ≡ meaning.table_of scope.now text.now) }
{
    let items = text.items.as_slice();
    let names = column_names(alloc, items)?;
    let name = text.name.text.copy(alloc)?;
    let columns = columns(alloc, items)?;
    let keys = keys(alloc, &names, items)?;
    let links = links(alloc, scope, &names, items)?;
    Ok(Table {
        name,
        columns,
        keys,
        links,
    })
}

fn tables_of(alloc: Global, scope: &Scope, texts: &[TableText]) -> Result<List<Table>, AllocError>
    ensures { IfOk result (λ tables. tables ≡ map (meaning.table_of scope.now) texts.now) }
{
    let mut tables = List::new(alloc);
    for text in texts {
        tables.push(table_of(alloc, scope, text)?)?;
    }
    Ok(tables)
}

/// The tables that the written ones mean.
#[tactic(auto, unfolding(crate::specs::Meaning::draft_of))]
pub fn draft_of(alloc: Global, texts: &[TableText]) -> Result<List<Table>, AllocError>
    ensures { IfOk result (λ tables. tables ≡ meaning.draft_of texts.now) }
{
    let scope = scope_of(alloc, texts)?;
    tables_of(alloc, &scope, texts)
}
