//! Whether a draft is a query for a schema, parameters and variables, or its first fault.
ghost use Rattle.std.specs.Prelude.{◌≡◌, IfOk, IfErr, OnErr, slice_get, is_some, not, option_and_then, option_map, length, nat_le};
ghost use Rattle.std.specs.List.{list_all};
ghost use Rattle.ba_model.specs.Fit.{column_kind, kind_of, kind_of_value, kinds_of, IsQuery};
ghost use Rattle.ba_model.specs.QueryFaults as faults;
ghost use Rattle.ba_model.specs.QueryFaults.{HasNoFault, IsFirstFault};

use crate::limits::{MAX_ATOMS, MAX_HEAD, MAX_PART_TABLES, MAX_PARTS};
use crate::list::List;
use crate::policy::Parameter;
use crate::query::{Atom, Op, Operand, Part, Query};
use crate::schema::{Kind, Schema};
use crate::value::Value;

/// A query that isn't checked yet.
#[derive(Debug, Drop)]
pub struct QueryDraft {
    pub parts: List<Part>,
}

/// Why a draft is no query for a schema, parameters and variables. Of several faults the first of this order is told.
#[derive(Clone, Copy, Debug, PartialEq, Eq)]
pub enum QueryFault {
    BadTable,
    BadColumn,
    KindDiffers,
    OrderOnText,
    HeadDiffers,
    UnknownParam,
    TooMany,
}

impl Value {
    /// The kind of a value; NULL has none.
    pub fn kind(&self) -> Option<Kind>
        ensures { result ≡ kind_of_value self.now }
    {
        match self {
            Value::Null => None,
            Value::Int(_) => Some(Kind::Int),
            Value::Text(_) => Some(Kind::Text),
        }
    }
}

fn has_table(schema: &Schema, table: u32) -> bool
    ensures { result ≡ is_some (slice_get schema.now.tables table) }
{
    schema.tables.find(table as usize).is_some()
}

fn has_tables(schema: &Schema, from: &[u32]) -> bool
    ensures { result ≡ list_all (λ t. is_some (slice_get schema.now.tables t)) from.now }
{
    from.iter().all(|table| has_table(schema, *table))
}

fn tables_there(schema: &Schema, part: &Part) -> bool
    ensures { result ≡ faults.tables_there schema.now part.now }
{
    !part.from.as_slice().is_empty() && has_tables(schema, part.from.as_slice())
}

fn all_tables_there(schema: &Schema, parts: &[Part]) -> bool
    ensures { result ≡ list_all (faults.tables_there schema.now) parts.now }
{
    parts.iter().all(|part| tables_there(schema, part))
}

/// The kind of a column of a table, if they are there.
pub fn column_kind(schema: &Schema, table: u32, column: u32) -> Option<Kind>
    ensures { result ≡ column_kind schema.now table column }
{
    match schema.tables.find(table as usize) {
        Some(table) => match table.columns.find(column as usize) {
            Some(column) => Some(column.kind),
            None => None,
        },
        None => None,
    }
}

fn parameter_kind(params: &[Parameter], n: u32) -> Option<Kind>
    ensures { result ≡ slice_get (kinds_of params.now) n }
{
    match params.get(n as usize) {
        Some(parameter) => Some(parameter.kind),
        None => None,
    }
}

/// The kind of an operand, if it is there. Of a part, `from` gives the tables.
pub fn operand_kind(
    schema: &Schema,
    params: &[Parameter],
    vars: &[Kind],
    from: &[u32],
    operand: &Operand,
) -> Option<Kind>
    ensures { result ≡ kind_of schema.now (kinds_of params.now) vars.now from.now operand.now }
{
    match operand {
        Operand::Col(place, column) => match from.get(*place as usize) {
            Some(table) => column_kind(schema, *table, *column),
            None => None,
        },
        Operand::Val(value) => value.kind(),
        Operand::Param(n) => parameter_kind(params, *n),
        Operand::Var(n) => vars.get(*n as usize).copied(),
    }
}

fn column_there(schema: &Schema, from: &[u32], operand: &Operand) -> bool
    ensures { result ≡ faults.column_there schema.now from.now operand.now }
{
    match operand {
        Operand::Col(_, _) => operand_kind(schema, &[], &[], from, operand).is_some(),
        Operand::Val(_) | Operand::Param(_) | Operand::Var(_) => true,
    }
}

fn atom_columns(schema: &Schema, from: &[u32], atom: &Atom) -> bool
    ensures { result ≡ faults.atom_columns schema.now from.now atom.now }
{
    column_there(schema, from, &atom.left) && column_there(schema, from, &atom.right)
}

fn all_atom_columns(schema: &Schema, from: &[u32], atoms: &[Atom]) -> bool
    ensures { result ≡ list_all (faults.atom_columns schema.now from.now) atoms.now }
{
    atoms.iter().all(|atom| atom_columns(schema, from, atom))
}

fn all_columns(schema: &Schema, from: &[u32], operands: &[Operand]) -> bool
    ensures { result ≡ list_all (faults.column_there schema.now from.now) operands.now }
{
    operands
        .iter()
        .all(|operand| column_there(schema, from, operand))
}

fn columns_there(schema: &Schema, part: &Part) -> bool
    ensures { result ≡ faults.columns_there schema.now part.now }
{
    all_atom_columns(schema, part.from.as_slice(), part.conds.as_slice())
        && all_columns(schema, part.from.as_slice(), part.head.as_slice())
}

fn all_columns_there(schema: &Schema, parts: &[Part]) -> bool
    ensures { result ≡ list_all (faults.columns_there schema.now) parts.now }
{
    parts.iter().all(|part| columns_there(schema, part))
}

fn is_null(operand: &Operand) -> bool
    ensures { result ≡ faults.is_null operand.now }
{
    match operand {
        Operand::Val(value) => match value {
            Value::Null => true,
            Value::Int(_) | Value::Text(_) => false,
        },
        Operand::Col(_, _) | Operand::Param(_) | Operand::Var(_) => false,
    }
}

fn same_operand(left: &Operand, right: &Operand) -> bool
    ensures { result ≡ faults.same_operand left.now right.now }
{
    match (left, right) {
        (Operand::Col(p, c), Operand::Col(q, d)) => *p == *q && *c == *d,
        (Operand::Val(v), Operand::Val(w)) => v.order(w).is_eq(),
        (Operand::Param(n), Operand::Param(m)) => *n == *m,
        (Operand::Var(n), Operand::Var(m)) => *n == *m,
        _ => false,
    }
}

pub(crate) fn agree(left: Option<Kind>, right: Option<Kind>) -> bool
    ensures { result ≡ faults.agree left right }
{
    match (left, right) {
        (Some(Kind::Int), Some(Kind::Text)) => false,
        (Some(Kind::Text), Some(Kind::Int)) => false,
        _ => true,
    }
}

/// Whether the sides of a comparison are of one kind where both are known, and neither is NULL.
pub fn sides_agree(
    schema: &Schema,
    params: &[Parameter],
    vars: &[Kind],
    from: &[u32],
    left: &Operand,
    right: &Operand,
) -> bool
    ensures { result ≡ faults.sides_agree schema.now (kinds_of params.now) vars.now from.now left.now right.now }
{
    if is_null(left) || is_null(right) {
        return false;
    }
    agree(
        operand_kind(schema, params, vars, from, left),
        operand_kind(schema, params, vars, from, right),
    )
}

/// Whether the sides of an atom are of one kind where both are known, and none is NULL; the right side of IS NULL and IS NOT NULL
/// repeats the left.
pub fn atom_kinds(
    schema: &Schema,
    params: &[Parameter],
    vars: &[Kind],
    from: &[u32],
    atom: &Atom,
) -> bool
    ensures { result ≡ faults.atom_kinds schema.now (kinds_of params.now) vars.now from.now atom.now.op atom.now.left atom.now.right }
{
    match atom.op {
        Op::Eq | Op::Ne | Op::Lt | Op::Le => {
            sides_agree(schema, params, vars, from, &atom.left, &atom.right)
        }
        Op::IsNull | Op::NotNull => {
            !is_null(&atom.left) && same_operand(&atom.right, &atom.left)
        }
    }
}

fn all_atom_kinds(
    schema: &Schema,
    params: &[Parameter],
    vars: &[Kind],
    from: &[u32],
    atoms: &[Atom],
) -> bool
    ensures { result ≡ list_all (λ atom. faults.atom_kinds schema.now (kinds_of params.now) vars.now from.now atom.op atom.left atom.right) atoms.now }
{
    atoms
        .iter()
        .all(|atom| atom_kinds(schema, params, vars, from, atom))
}

/// Whether no operand is the literal NULL.
pub fn none_is_null(head: &[Operand]) -> bool
    ensures { result ≡ list_all (λ x. not (faults.is_null x)) head.now }
{
    head.iter().all(|operand| !is_null(operand))
}

fn kinds_agree(schema: &Schema, params: &[Parameter], vars: &[Kind], part: &Part) -> bool
    ensures { result ≡ faults.kinds_agree schema.now (kinds_of params.now) vars.now part.now }
{
    let from = part.from.as_slice();
    all_atom_kinds(schema, params, vars, from, part.conds.as_slice())
        && none_is_null(part.head.as_slice())
}

fn all_kinds_agree(schema: &Schema, params: &[Parameter], vars: &[Kind], parts: &[Part]) -> bool
    ensures { result ≡ list_all (faults.kinds_agree schema.now (kinds_of params.now) vars.now) parts.now }
{
    parts
        .iter()
        .all(|part| kinds_agree(schema, params, vars, part))
}

fn is_text(kind: Option<Kind>) -> bool
    ensures { result ≡ faults.is_text kind }
{
    match kind {
        Some(Kind::Text) => true,
        Some(Kind::Int) | None => false,
    }
}

fn is_order(op: Op) -> bool
    ensures { result ≡ faults.is_order op }
{
    match op {
        Op::Lt | Op::Le => true,
        Op::Eq | Op::Ne | Op::IsNull | Op::NotNull => false,
    }
}

/// Whether an atom is no order on a text.
pub fn atom_order(
    schema: &Schema,
    params: &[Parameter],
    vars: &[Kind],
    from: &[u32],
    atom: &Atom,
) -> bool
    ensures { result ≡ faults.atom_order schema.now (kinds_of params.now) vars.now from.now atom.now }
{
    if !is_order(atom.op) {
        return true;
    }
    !is_text(operand_kind(schema, params, vars, from, &atom.left))
        && !is_text(operand_kind(schema, params, vars, from, &atom.right))
}

fn atoms_order(
    schema: &Schema,
    params: &[Parameter],
    vars: &[Kind],
    from: &[u32],
    atoms: &[Atom],
) -> bool
    ensures { result ≡ list_all (faults.atom_order schema.now (kinds_of params.now) vars.now from.now) atoms.now }
{
    atoms
        .iter()
        .all(|atom| atom_order(schema, params, vars, from, atom))
}

fn all_order_numbers(schema: &Schema, params: &[Parameter], vars: &[Kind], parts: &[Part]) -> bool
    ensures { result ≡ list_all (faults.orders_numbers schema.now (kinds_of params.now) vars.now) parts.now }
{
    parts.iter().all(|part| {
        atoms_order(
            schema,
            params,
            vars,
            part.from.as_slice(),
            part.conds.as_slice(),
        )
    })
}

/// Whether two heads, each over its part's tables, have as many operands, of one kind where both are known.
pub fn heads_match(
    schema: &Schema,
    params: &[Parameter],
    vars: &[Kind],
    from: &[u32],
    head: &[Operand],
    others: &[u32],
    other: &[Operand],
) -> bool
    ensures { result ≡ faults.heads_match schema.now (kinds_of params.now) vars.now from.now head.now others.now other.now }
{
    match (head.split_first(), other.split_first()) {
        (None, None) => true,
        (Some((x, xs)), Some((y, ys))) => {
            agree(
                operand_kind(schema, params, vars, from, x),
                operand_kind(schema, params, vars, others, y),
            ) && heads_match(schema, params, vars, from, xs, others, ys)
        }
        _ => false,
    }
}

pub(crate) fn parts_match(
    schema: &Schema,
    params: &[Parameter],
    vars: &[Kind],
    part: &Part,
    other: &Part,
) -> bool
    ensures { result ≡ faults.parts_match schema.now (kinds_of params.now) vars.now part.now other.now }
{
    heads_match(
        schema,
        params,
        vars,
        part.from.as_slice(),
        part.head.as_slice(),
        other.from.as_slice(),
        other.head.as_slice(),
    )
}

fn matches_all(
    schema: &Schema,
    params: &[Parameter],
    vars: &[Kind],
    part: &Part,
    parts: &[Part],
) -> bool
    ensures { result ≡ list_all (faults.parts_match schema.now (kinds_of params.now) vars.now part.now) parts.now }
{
    parts
        .iter()
        .all(|other| parts_match(schema, params, vars, part, other))
}

fn all_match(schema: &Schema, params: &[Parameter], vars: &[Kind], parts: &[Part]) -> bool
    ensures { result ≡ list_all (λ p. list_all (faults.parts_match schema.now (kinds_of params.now) vars.now p) parts.now) parts.now }
{
    parts
        .iter()
        .all(|part| matches_all(schema, params, vars, part, parts))
}

fn has_head(part: &Part) -> bool
    ensures { result ≡ faults.has_head part.now }
{
    !part.head.as_slice().is_empty()
}

fn all_have_heads(parts: &[Part]) -> bool
    ensures { result ≡ list_all faults.has_head parts.now }
{
    parts.iter().all(|part| has_head(part))
}

fn heads_agree(schema: &Schema, params: &[Parameter], vars: &[Kind], parts: &[Part]) -> bool
    ensures { result ≡ faults.heads_agree schema.now (kinds_of params.now) vars.now parts.now }
{
    !parts.is_empty() && all_have_heads(parts) && all_match(schema, params, vars, parts)
}

fn is_named(params: &[Parameter], vars: &[Kind], operand: &Operand) -> bool
    ensures { result ≡ faults.named (kinds_of params.now) vars.now operand.now }
{
    match operand {
        Operand::Col(_, _) | Operand::Val(_) => true,
        Operand::Param(n) => parameter_kind(params, *n).is_some(),
        Operand::Var(n) => vars.get(*n as usize).is_some(),
    }
}

fn atoms_named(params: &[Parameter], vars: &[Kind], atoms: &[Atom]) -> bool
    ensures { result ≡ list_all (faults.atom_named (kinds_of params.now) vars.now) atoms.now }
{
    atoms.iter().all(|atom| is_named(params, vars, &atom.left)
        && is_named(params, vars, &atom.right))
}

fn head_named(params: &[Parameter], vars: &[Kind], head: &[Operand]) -> bool
    ensures { result ≡ list_all (faults.named (kinds_of params.now) vars.now) head.now }
{
    head.iter().all(|operand| is_named(params, vars, operand))
}

fn part_named(params: &[Parameter], vars: &[Kind], part: &Part) -> bool
    ensures { result ≡ faults.all_named (kinds_of params.now) vars.now part.now }
{
    atoms_named(params, vars, part.conds.as_slice())
        && head_named(params, vars, part.head.as_slice())
}

fn all_named(params: &[Parameter], vars: &[Kind], parts: &[Part]) -> bool
    ensures { result ≡ list_all (faults.all_named (kinds_of params.now) vars.now) parts.now }
{
    parts.iter().all(|part| part_named(params, vars, part))
}

fn part_within(part: &Part) -> bool
    ensures { result ≡ faults.part_within part.now }
{
    part.from.len() <= MAX_PART_TABLES
        && part.conds.len() <= MAX_ATOMS
        && part.head.len() <= MAX_HEAD
}

fn parts_within(parts: &[Part]) -> bool
    ensures { result ≡ list_all faults.part_within parts.now }
{
    parts.iter().all(|part| part_within(part))
}

fn all_within(parts: &[Part]) -> bool
    ensures { result ≡ faults.within parts.now }
{
    parts.len() <= MAX_PARTS && parts_within(parts)
}

// The first fault of the parts, if they have one.
pub(crate) fn fault_of(
    schema: &Schema,
    params: &[Parameter],
    vars: &[Kind],
    parts: &[Part],
) -> Result<(), QueryFault>
    ensures ok { IfOk result (λ _. HasNoFault schema.now (kinds_of params.now) vars.now parts.now) }
    ensures first { IfErr result (λ fault. IsFirstFault fault schema.now (kinds_of params.now) vars.now parts.now) }
{
    if !all_tables_there(schema, parts) {
        return Err(QueryFault::BadTable);
    }
    if !all_columns_there(schema, parts) {
        return Err(QueryFault::BadColumn);
    }
    if !all_kinds_agree(schema, params, vars, parts) {
        return Err(QueryFault::KindDiffers);
    }
    if !all_order_numbers(schema, params, vars, parts) {
        return Err(QueryFault::OrderOnText);
    }
    if !heads_agree(schema, params, vars, parts) {
        return Err(QueryFault::HeadDiffers);
    }
    if !all_named(params, vars, parts) {
        return Err(QueryFault::UnknownParam);
    }
    if !all_within(parts) {
        return Err(QueryFault::TooMany);
    }
    Ok(())
}

// The same over lists.
fn fault_of_lists(
    schema: &Schema,
    params: &List<Parameter>,
    vars: &List<Kind>,
    parts: &List<Part>,
) -> Result<(), QueryFault>
    ensures ok { IfOk result (λ _. HasNoFault schema.now (kinds_of params.now) vars.now parts.now) }
    ensures first { IfErr result (λ fault. IsFirstFault fault schema.now (kinds_of params.now) vars.now parts.now) }
{
    fault_of(schema, params.as_slice(), vars.as_slice(), parts.as_slice())
}

impl Query {
    /// The draft as a query for a schema, parameters and variables of these kinds, or its first fault.
    ///
    /// It is one exactly where it fits them (each table, column, parameter and variable is there, the sides of each atom are of
    /// one kind, order is of whole numbers, all heads have the same kinds) and its counts are within the limits. A draft with a fault is dropped.
    pub fn check(
        schema: &Schema,
        params: &List<Parameter>,
        vars: &List<Kind>,
        draft: QueryDraft,
    ) -> Result<Query, QueryFault>
        ensures content { IfOk result (λ query. query.parts ≡ draft.parts) }
        ensures ok { IfOk result (λ query. IsQuery schema.now (kinds_of params.now) vars.now query) }
        ensures fault { IfErr result (λ fault. IsFirstFault fault schema.now (kinds_of params.now) vars.now draft.parts) }
        ensures exact { OnErr result (¬ IsQuery schema.now (kinds_of params.now) vars.now (record { parts = draft.parts })) }
    {
        fault_of_lists(schema, params, vars, &draft.parts)?;
        Ok(Query { parts: draft.parts })
    }
}
