//! The first fault of a text's names.
ghost use Rattle.std.specs.Prelude.{◌≡◌, IfOk};
ghost use Rattle.std.specs.List.{list_all};
ghost use Rattle.ba_sql_query.specs.Errors.{lacks};
ghost use Rattle.ba_sql_query.specs.Resolve.{constant_lacks, first_of_names, heads_lack, item_lacks, names_lack, node_lacks, select_lacks, side_lacks, test_lacks, text_lacks};

use crate::fault::ReadQueryFault;
use crate::names::{column_of, param_of};
use crate::resolve::tables_of;
use crate::scope::Scope;
use ba_model::{Failure, Parameter, Schema};
use ba_sql_syntax::{Constant, Heads, Item, Node, Select, Side, Test};
use std::alloc::{AllocError, Global};

// Whether it isn't refused by a fault of this rank.
fn lacks<T: Drop>(rank: u8, found: Result<T, ReadQueryFault>) -> bool
    ensures { result ≡ lacks rank found }
{
    match found {
        Ok(_) => true,
        Err(fault) => fault.rank() != rank,
    }
}

#[tactic(auto, unfolding(crate::specs::Resolve::constant_lacks))]
fn constant_lacks(rank: u8, params: &[Parameter], constant: &Constant) -> bool
    ensures { result ≡ constant_lacks rank params.now constant.now }
{
    match constant {
        Constant::Value(_) => true,
        Constant::Param(name) => lacks(rank, param_of(params, name)),
    }
}

fn constants_lack(rank: u8, params: &[Parameter], constants: &[Constant]) -> bool
    ensures { result ≡ list_all (constant_lacks rank params.now) constants.now }
{
    constants
        .iter()
        .all(|constant| constant_lacks(rank, params, constant))
}

#[tactic(auto, unfolding(crate::specs::Resolve::side_lacks))]
fn side_lacks(rank: u8, scope: &Scope, params: &[Parameter], side: &Side) -> bool
    ensures { result ≡ side_lacks rank scope.now.schema.now params.now scope.now.sources
        scope.now.from side.now }
{
    match side {
        Side::Column(name) => lacks(rank, column_of(scope, name)),
        Side::Constant(constant) => constant_lacks(rank, params, constant),
    }
}

#[tactic(auto, unfolding(crate::specs::Resolve::test_lacks))]
fn test_lacks(rank: u8, scope: &Scope, params: &[Parameter], test: &Test) -> bool
    ensures { result ≡ test_lacks rank scope.now.schema.now params.now scope.now.sources
        scope.now.from test.now }
{
    match test {
        Test::Compare { left, right, .. } => {
            side_lacks(rank, scope, params, left) && side_lacks(rank, scope, params, right)
        }
        Test::Among { side, among } => {
            side_lacks(rank, scope, params, side) && constants_lack(rank, params, among.as_slice())
        }
        Test::Null { side, .. } => side_lacks(rank, scope, params, side),
    }
}

#[tactic(auto, unfolding(crate::specs::Resolve::node_lacks))]
fn node_lacks(rank: u8, scope: &Scope, params: &[Parameter], node: &Node) -> bool
    ensures { result ≡ node_lacks rank scope.now.schema.now params.now scope.now.sources
        scope.now.from node.now }
{
    match node {
        Node::Test(test) => test_lacks(rank, scope, params, test),
        Node::And | Node::Or => true,
    }
}

fn nodes_lack(rank: u8, scope: &Scope, params: &[Parameter], nodes: &[Node]) -> bool
    ensures { result ≡ list_all
        (node_lacks rank scope.now.schema.now params.now scope.now.sources scope.now.from)
        nodes.now }
{
    nodes
        .iter()
        .all(|node| node_lacks(rank, scope, params, node))
}

#[tactic(auto, unfolding(crate::specs::Resolve::item_lacks))]
fn item_lacks(rank: u8, scope: &Scope, params: &[Parameter], item: &Item) -> bool
    ensures { result ≡ item_lacks rank scope.now.schema.now params.now scope.now.sources
        scope.now.from item.now }
{
    match item {
        Item::AllOf(name) => lacks(rank, scope.sources.source_of(name)),
        Item::One(side) => side_lacks(rank, scope, params, side),
    }
}

fn items_lack(rank: u8, scope: &Scope, params: &[Parameter], items: &[Item]) -> bool
    ensures { result ≡ list_all
        (item_lacks rank scope.now.schema.now params.now scope.now.sources scope.now.from)
        items.now }
{
    items
        .iter()
        .all(|item| item_lacks(rank, scope, params, item))
}

#[tactic(auto, unfolding(crate::specs::Resolve::heads_lack))]
fn heads_lack(rank: u8, scope: &Scope, params: &[Parameter], heads: &Heads) -> bool
    ensures { result ≡ heads_lack rank scope.now.schema.now params.now scope.now.sources
        scope.now.from heads.now }
{
    match heads {
        Heads::All => true,
        Heads::Items(items) => items_lack(rank, scope, params, items.as_slice()),
    }
}

// Beside its sources, once their tables are known.
fn names_lack(
    alloc: Global,
    rank: u8,
    schema: &Schema,
    params: &[Parameter],
    select: &Select,
    from: &[u32],
) -> Result<bool, AllocError>
    ensures { IfOk result
        (λ lacking. lacking ≡ names_lack rank schema.now params.now select.now from.now) }
{
    let scope = Scope::new(alloc, schema, select.sources.as_slice(), from)?;
    Ok(
        heads_lack(rank, &scope, params, &select.heads)
            && nodes_lack(rank, &scope, params, select.condition.as_slice()),
    )
}

#[tactic(auto, unfolding(crate::specs::Resolve::select_lacks))]
fn select_lacks(
    alloc: Global,
    rank: u8,
    schema: &Schema,
    params: &[Parameter],
    select: &Select,
) -> Result<bool, AllocError>
    ensures { IfOk result
        (λ lacking. lacking ≡ select_lacks rank schema.now params.now select.now) }
{
    let from = tables_of(alloc, schema, select.sources.as_slice());
    match from {
        Ok(from) => names_lack(alloc, rank, schema, params, select, from.as_slice()),
        Err(Failure::Fault(fault)) => Ok(fault.rank() != rank),
        Err(Failure::NoMemory) => Err(AllocError),
    }
}

fn text_lacks(
    alloc: Global,
    rank: u8,
    schema: &Schema,
    params: &[Parameter],
    selects: &[Select],
) -> Result<bool, AllocError>
    ensures { IfOk result (λ lacking. lacking ≡ text_lacks rank schema.now params.now selects.now) }
{
    for select in selects {
        let lacking = select_lacks(alloc, rank, schema, params, select)?;
        if !lacking {
            return Ok(false);
        }
    }
    Ok(true)
}

/// The fault of least rank that refuses a name; `UnknownParam` where no other does.
#[tactic(auto, unfolding(crate::specs::Resolve::first_of_names))]
pub fn first_of_names(
    alloc: Global,
    schema: &Schema,
    params: &[Parameter],
    selects: &[Select],
) -> Result<ReadQueryFault, AllocError>
    ensures { IfOk result (λ fault. fault ≡ first_of_names schema.now params.now selects.now) }
{
    if !text_lacks(
        alloc,
        ReadQueryFault::UnknownTable.rank(),
        schema,
        params,
        selects,
    )? {
        return Ok(ReadQueryFault::UnknownTable);
    }
    if !text_lacks(
        alloc,
        ReadQueryFault::UnknownColumn.rank(),
        schema,
        params,
        selects,
    )? {
        return Ok(ReadQueryFault::UnknownColumn);
    }
    if !text_lacks(
        alloc,
        ReadQueryFault::Ambiguous.rank(),
        schema,
        params,
        selects,
    )? {
        return Ok(ReadQueryFault::Ambiguous);
    }
    Ok(ReadQueryFault::UnknownParam)
}
