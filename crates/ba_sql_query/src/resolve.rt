//! A text with its names as numbers.
ghost use Rattle.std.specs.Prelude.{◌≡◌, ◌++◌, [], ◌∷◌, IfOk, OnOk, map, min, length, slice_get};
ghost use Rattle.std.specs.List.{range_with_len};
ghost use Rattle.ba_model.specs.Readings.{Gives, Sees, each, each_flat};
ghost use Rattle.ba_sql_query.specs.Names.{constant_of, table_of};
ghost use Rattle.ba_sql_query.specs.Resolve.{all_columns, columns_or, heads_of, item_of, names_of, node_of, select_of, selects_of, source_columns, tables_of, test_of};

use crate::columns::columns_of;
use crate::fault::ReadQueryFault;
use crate::lacking::first_of_names;
use crate::names::{constant_of, operand_of, table_of};
use crate::resolved::{ResolvedNode, ResolvedSelect, ResolvedTest};
use crate::scope::Scope;
use ba_model::{Atom, Column, Duplicate, Failure, List, Operand, Parameter, Schema};
use ba_sql_syntax::{Constant, Heads, Item, Node, QueryText, Select, Source, Test};
use std::alloc::{AllocError, Global};

/// How many numbers of 32 bits there are, without the last.
const MOST: usize = 0xffff_ffff;

fn as_number(count: usize) -> u32
    ensures { result ≡ min count 0xffff_ffff }
{
    count.min(MOST) as u32
}

fn columns_or(schema: &Schema, table: Option<u32>) -> &[Column]
    ensures { result.now ≡ columns_or schema.now table }
{
    match table {
        Some(table) => columns_of(schema, table),
        None => &[],
    }
}

fn numbered_columns(alloc: Global, place: u32, count: u32) -> Result<Vec<Operand>, AllocError>
    ensures { IfOk result (λ v. v.items ≡ map (Operand.Col place) (range_with_len 0 count)) }
{
    (0..count).map(|n| Operand::Col(place, n)).collect(alloc)
}

// All columns of the source at a place.
fn source_columns(
    alloc: Global,
    schema: &Schema,
    from: &[u32],
    place: u32,
) -> Result<Vec<Operand>, AllocError>
    ensures { IfOk result (λ v. v.items ≡ source_columns schema.now from.now place) }
{
    let columns = columns_or(schema, from.get(place as usize).copied());
    numbered_columns(alloc, place, as_number(columns.len()))
}

// All columns of all sources.
fn all_columns(alloc: Global, schema: &Schema, from: &[u32]) -> Result<List<Operand>, AllocError>
    ensures { IfOk result (λ operands. operands ≡ all_columns schema.now from.now) }
{
    let mut found = Vec::new(alloc);
    for place in 0..as_number(from.len()) {
        let mut columns = source_columns(alloc, schema, from, place)?;
        found.append(&mut columns)?;
    }
    Ok(List::from_vec(found))
}

fn one(alloc: Global, operand: Operand) -> Result<Vec<Operand>, AllocError>
    ensures { IfOk result (λ v. v.items ≡ operand ∷ []) }
{
    let mut list = Vec::new(alloc);
    list.push(operand)?;
    Ok(list)
}

#[tactic(auto, unfolding(crate::specs::Resolve::item_of))]
fn item_of(
    alloc: Global,
    scope: &Scope,
    params: &[Parameter],
    item: &Item,
) -> Result<Vec<Operand>, Failure<ReadQueryFault>>
    ensures { Sees (λ v. v.items) result
        (item_of scope.now.schema.now params.now scope.now.sources scope.now.from item.now) }
{
    match item {
        Item::AllOf(name) => {
            let place = scope.sources.source_of(name).map_err(Failure::Fault)?;
            Ok(source_columns(alloc, scope.schema, scope.from.as_slice(), place)?)
        }
        Item::One(side) => {
            let operand = operand_of(alloc, scope, params, side)?;
            Ok(one(alloc, operand)?)
        }
    }
}

fn items_of(
    alloc: Global,
    scope: &Scope,
    params: &[Parameter],
    items: &[Item],
) -> Result<List<Operand>, Failure<ReadQueryFault>>
    ensures { Gives result
        (each_flat (item_of scope.now.schema.now params.now scope.now.sources scope.now.from)
        items.now) }
{
    let mut found = Vec::new(alloc);
    for item in items {
        let mut operands = item_of(alloc, scope, params, item)?;
        found.append(&mut operands)?;
    }
    Ok(List::from_vec(found))
}

#[tactic(auto, unfolding(crate::specs::Resolve::heads_of))]
fn heads_of(
    alloc: Global,
    scope: &Scope,
    params: &[Parameter],
    heads: &Heads,
) -> Result<List<Operand>, Failure<ReadQueryFault>>
    ensures { Gives result
        (heads_of scope.now.schema.now params.now scope.now.sources scope.now.from heads.now) }
{
    match heads {
        Heads::All => Ok(all_columns(alloc, scope.schema, scope.from.as_slice())?),
        Heads::Items(items) => items_of(alloc, scope, params, items.as_slice()),
    }
}

fn constants_of(
    alloc: Global,
    params: &[Parameter],
    constants: &[Constant],
) -> Result<List<Operand>, Failure<ReadQueryFault>>
    ensures { Gives result (each (constant_of params.now) constants.now) }
{
    let mut found = List::new(alloc);
    for constant in constants {
        let operand = constant_of(alloc, params, constant)?;
        found.push(operand)?;
    }
    Ok(found)
}

#[tactic(auto, unfolding(crate::specs::Resolve::test_of))]
fn test_of(
    alloc: Global,
    scope: &Scope,
    params: &[Parameter],
    test: &Test,
) -> Result<ResolvedTest, Failure<ReadQueryFault>>
    ensures { Gives result
        (test_of scope.now.schema.now params.now scope.now.sources scope.now.from test.now) }
{
    match test {
        Test::Compare { op, left, right } => {
            let left = operand_of(alloc, scope, params, left)?;
            let right = operand_of(alloc, scope, params, right)?;
            let op = *op;
            Ok(ResolvedTest::One(Atom { op, left, right }))
        }
        Test::Among { side, among } => {
            let side = operand_of(alloc, scope, params, side)?;
            let among = constants_of(alloc, params, among.as_slice())?;
            Ok(ResolvedTest::Among { side, among })
        }
        Test::Null { op, side } => {
            let left = operand_of(alloc, scope, params, side)?;
            let right = left.copy(alloc)?;
            let op = *op;
            Ok(ResolvedTest::One(Atom { op, left, right }))
        }
    }
}

#[tactic(auto, unfolding(crate::specs::Resolve::node_of))]
fn node_of(
    alloc: Global,
    scope: &Scope,
    params: &[Parameter],
    node: &Node,
) -> Result<ResolvedNode, Failure<ReadQueryFault>>
    ensures { Gives result
        (node_of scope.now.schema.now params.now scope.now.sources scope.now.from node.now) }
{
    match node {
        Node::Test(test) => {
            let test = test_of(alloc, scope, params, test)?;
            Ok(ResolvedNode::Test(test))
        }
        Node::And => Ok(ResolvedNode::And),
        Node::Or => Ok(ResolvedNode::Or),
    }
}

fn nodes_of(
    alloc: Global,
    scope: &Scope,
    params: &[Parameter],
    nodes: &[Node],
) -> Result<List<ResolvedNode>, Failure<ReadQueryFault>>
    ensures { Gives result
        (each (node_of scope.now.schema.now params.now scope.now.sources scope.now.from)
        nodes.now) }
{
    let mut found = List::new(alloc);
    for node in nodes {
        let next = node_of(alloc, scope, params, node)?;
        found.push(next)?;
    }
    Ok(found)
}

fn numbers_of(
    alloc: Global,
    schema: &Schema,
    sources: &[Source],
) -> Result<List<u32>, Failure<ReadQueryFault>>
    ensures { Gives result (each (λ source. table_of schema.now source.table) sources.now) }
{
    let mut found = List::new(alloc);
    for source in sources {
        let table = table_of(schema, &source.table).map_err(Failure::Fault)?;
        found.push(table)?;
    }
    Ok(found)
}

/// The numbers of the sources' tables; `UnknownTable` where one isn't there, or no source.
#[tactic(auto, unfolding(crate::specs::Resolve::tables_of))]
pub fn tables_of(
    alloc: Global,
    schema: &Schema,
    sources: &[Source],
) -> Result<List<u32>, Failure<ReadQueryFault>>
    ensures { Gives result (tables_of schema.now sources.now) }
{
    if sources.is_empty() {
        return Err(Failure::Fault(ReadQueryFault::UnknownTable));
    }
    numbers_of(alloc, schema, sources)
}

#[tactic(auto, unfolding(crate::specs::Resolve::select_of))]
fn select_of(
    alloc: Global,
    schema: &Schema,
    params: &[Parameter],
    select: &Select,
) -> Result<ResolvedSelect, Failure<ReadQueryFault>>
    ensures { Gives result (select_of schema.now params.now select.now) }
{
    let sources = select.sources.as_slice();
    let from = tables_of(alloc, schema, sources)?;
    let scope = Scope::new(alloc, schema, sources, from.as_slice())?;
    let head = heads_of(alloc, &scope, params, &select.heads)?;
    let condition = nodes_of(alloc, &scope, params, select.condition.as_slice())?;
    drop(scope);
    Ok(ResolvedSelect {
        from,
        head,
        condition,
    })
}

fn selects_of(
    alloc: Global,
    schema: &Schema,
    params: &[Parameter],
    selects: &[Select],
) -> Result<List<ResolvedSelect>, Failure<ReadQueryFault>>
    ensures { Gives result (selects_of schema.now params.now selects.now) }
{
    let mut found = List::new(alloc);
    for select in selects {
        let next = select_of(alloc, schema, params, select)?;
        found.push(next)?;
    }
    Ok(found)
}

/// The text with its names as numbers, or the first fault of its names.
#[tactic(auto, unfolding(crate::specs::Resolve::names_of))]
pub fn names_of(
    alloc: Global,
    schema: &Schema,
    params: &[Parameter],
    text: &QueryText,
) -> Result<List<ResolvedSelect>, Failure<ReadQueryFault>>
    ensures { Gives result (names_of schema.now params.now text.now) }
{
    let selects = text.selects.as_slice();
    let found = selects_of(alloc, schema, params, selects);
    match found {
        Ok(resolved) => Ok(resolved),
        Err(Failure::NoMemory) => Err(Failure::NoMemory),
        Err(Failure::Fault(_)) => {
            let first = first_of_names(alloc, schema, params, selects)?;
            Err(Failure::Fault(first))
        }
    }
}
