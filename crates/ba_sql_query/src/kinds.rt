//! The kinds of what is compared and put out.
ghost use Rattle.std.specs.Prelude.{◌≡◌, []};
ghost use Rattle.std.specs.List.{list_all};
ghost use Rattle.ba_model.specs.Fit.{kinds_of};
ghost use Rattle.ba_model.specs.QueryFaults as faults;
ghost use Rattle.ba_sql_query.specs.Meaning.{atom_kinds, heads_agree, kinds_agree, orders_numbers};
ghost use Rattle.ba_sql_query.specs.Parts.{equation, node_atoms, test_atoms, written_part};

use crate::resolved::{ResolvedNode, ResolvedSelect, ResolvedTest};
use ba_model::{
    Operand, Parameter, Schema, atom_kinds, atom_order, heads_match, none_is_null, sides_agree,
};

// Whether the side agrees with each of these.
fn all_agree(
    schema: &Schema,
    params: &[Parameter],
    from: &[u32],
    side: &Operand,
    among: &[Operand],
) -> bool
    ensures { result ≡ list_all
        (λ c. atom_kinds schema.now params.now from.now (equation side.now c)) among.now }
{
    among.iter().all(|constant| sides_agree(schema, params, &[], from, side, constant))
}

fn test_kinds(schema: &Schema, params: &[Parameter], from: &[u32], test: &ResolvedTest) -> bool
    ensures { result ≡ list_all (atom_kinds schema.now params.now from.now) (test_atoms test.now) }
{
    match test {
        ResolvedTest::One(atom) => atom_kinds(schema, params, &[], from, atom),
        ResolvedTest::Among { side, among } => {
            all_agree(schema, params, from, side, among.as_slice())
        }
    }
}

fn node_kinds(schema: &Schema, params: &[Parameter], from: &[u32], node: &ResolvedNode) -> bool
    ensures { result ≡ list_all (atom_kinds schema.now params.now from.now) (node_atoms node.now) }
{
    match node {
        ResolvedNode::Test(test) => test_kinds(schema, params, from, test),
        ResolvedNode::And | ResolvedNode::Or => true,
    }
}

fn nodes_kinds(schema: &Schema, params: &[Parameter], from: &[u32], nodes: &[ResolvedNode]) -> bool
    ensures { result ≡ list_all
        (λ node. list_all (atom_kinds schema.now params.now from.now) (node_atoms node)) nodes.now }
{
    nodes
        .iter()
        .all(|node| node_kinds(schema, params, from, node))
}

fn select_kinds(schema: &Schema, params: &[Parameter], select: &ResolvedSelect) -> bool
    ensures { result ≡ faults.kinds_agree schema.now (kinds_of params.now) []
        (written_part select.now) }
{
    let from = select.from.as_slice();
    nodes_kinds(schema, params, from, select.condition.as_slice())
        && none_is_null(select.head.as_slice())
}

/// Whether the sides of each test have one kind.
pub fn kinds_agree(schema: &Schema, params: &[Parameter], selects: &[ResolvedSelect]) -> bool
    ensures { result ≡ kinds_agree schema.now params.now selects.now }
{
    selects
        .iter()
        .all(|select| select_kinds(schema, params, select))
}

fn test_order(schema: &Schema, params: &[Parameter], from: &[u32], test: &ResolvedTest) -> bool
    ensures { result ≡ list_all (faults.atom_order schema.now (kinds_of params.now) [] from.now)
        (test_atoms test.now) }
{
    match test {
        ResolvedTest::One(atom) => atom_order(schema, params, &[], from, atom),
        ResolvedTest::Among { .. } => true,
    }
}

fn node_order(schema: &Schema, params: &[Parameter], from: &[u32], node: &ResolvedNode) -> bool
    ensures { result ≡ list_all (faults.atom_order schema.now (kinds_of params.now) [] from.now)
        (node_atoms node.now) }
{
    match node {
        ResolvedNode::Test(test) => test_order(schema, params, from, test),
        ResolvedNode::And | ResolvedNode::Or => true,
    }
}

fn nodes_order(schema: &Schema, params: &[Parameter], from: &[u32], nodes: &[ResolvedNode]) -> bool
    ensures { result ≡ list_all
        (λ node. list_all (faults.atom_order schema.now (kinds_of params.now) [] from.now)
        (node_atoms node)) nodes.now }
{
    nodes
        .iter()
        .all(|node| node_order(schema, params, from, node))
}

fn select_order(schema: &Schema, params: &[Parameter], select: &ResolvedSelect) -> bool
    ensures { result ≡ faults.orders_numbers schema.now (kinds_of params.now) []
        (written_part select.now) }
{
    let from = select.from.as_slice();
    nodes_order(schema, params, from, select.condition.as_slice())
}

/// Whether `<` and `<=` have no text.
pub fn orders_numbers(schema: &Schema, params: &[Parameter], selects: &[ResolvedSelect]) -> bool
    ensures { result ≡ orders_numbers schema.now params.now selects.now }
{
    selects
        .iter()
        .all(|select| select_order(schema, params, select))
}

fn match_all(
    schema: &Schema,
    params: &[Parameter],
    select: &ResolvedSelect,
    others: &[ResolvedSelect],
) -> bool
    ensures { result ≡ list_all (λ other. faults.parts_match schema.now (kinds_of params.now) []
        (written_part select.now) (written_part other)) others.now }
{
    let from = select.from.as_slice();
    let head = select.head.as_slice();
    others.iter().all(|other| {
        let others = other.from.as_slice();
        heads_match(
            schema,
            params,
            &[],
            from,
            head,
            others,
            other.head.as_slice(),
        )
    })
}

/// Whether the first head isn't empty, and the others have as many operands, of the same kinds.
pub fn heads_agree(schema: &Schema, params: &[Parameter], selects: &[ResolvedSelect]) -> bool
    ensures { result ≡ heads_agree schema.now params.now selects.now }
{
    match selects {
        [] => false,
        [first, others @ ..] => {
            !first.head.as_slice().is_empty() && match_all(schema, params, first, others)
        }
    }
}
