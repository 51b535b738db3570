//! The fields of a template's line, each by itself.
ghost use Rattle.std.specs.Prelude.{◌≡◌, is_some, length, map, option_map};
ghost use Rattle.serde_json.specs.View.{members_view, view};
ghost use Rattle.ba_model.specs.Fit.{kind_of, kinds_of};
ghost use Rattle.ba_model.specs.QueryFaults.{is_null};
ghost use Rattle.ba_model.specs.Readings.{Gives, each};
ghost use Rattle.ba_store.specs.Fits.{is_assumed, may_stand, row_stands, same_kind, stands, vars_stand};
ghost use Rattle.ba_store.specs.Reading.{are_keys, assumed_at, condition_at, entries_at, entries_of, entry_at, entry_form, entry_of, few_entries, few_steps, few_vars, goal_at, if_assumed, if_stands, if_vars_stand, is_key, keys_at, kind_at, kind_named, only_version, steps_at, steps_of, vars_at, version_at};

use crate::fault::{StoreField, bad};
use crate::operands::{atom_at, operands_of};
use crate::queries::query_at;
use crate::shapes::{list_at, text_at};
use ba_kernel::{Problem, ProblemEntry, Step};
use ba_model::{
    Atom, Duplicate, Failure, Kind, List, MAX_KEPT_ENTRIES, MAX_OPERANDS, MAX_STEPS, Operand,
    Parameter, Policy, Query, Shared, Value, atom_kinds, atom_order, operand_kind,
};
use ba_proof::{RULE_VERSION, steps_of};
use ba_template::each_var_stands;
use serde_json::{Map, Value as Json};
use std::alloc::Global;

/// The number of the format.
#[tactic(auto, unfolding(crate::specs::Reading::version_at))]
pub(crate) fn version_at(found: Option<&Json>) -> Result<(), Failure<StoreField>>
    ensures { Gives result (version_at (option_map (λ v. view v.now) found.entry)) }
{
    let Some(value) = found else {
        return bad(StoreField::Version);
    };
    match value.as_u64() {
        Some(1) => Ok(()),
        _ => bad(StoreField::Version),
    }
}

#[tactic(auto, unfolding(crate::specs::Reading::kind_named))]
fn kind_named(name: &str) -> Result<Kind, Failure<StoreField>>
    ensures { Gives result (kind_named name.now) }
{
    if name == "INT" {
        Ok(Kind::Int)
    } else if name == "TEXT" {
        Ok(Kind::Text)
    } else {
        bad(StoreField::Vars)
    }
}

fn kind_at(value: &Json) -> Result<Kind, Failure<StoreField>>
    ensures { Gives result (kind_at (view value.now)) }
{
    let name = text_at(StoreField::Vars, value)?;
    kind_named(name)
}

fn kinds_of(alloc: Global, items: &[Json]) -> Result<List<Kind>, Failure<StoreField>>
    ensures { Gives result (each kind_at (map view items.now)) }
{
    let mut found = List::new(alloc);
    for item in items {
        let kind = kind_at(item)?;
        found.push(kind)?;
    }
    Ok(found)
}

/// The kinds of the variables.
#[tactic(auto, unfolding(crate::specs::Reading::vars_at))]
pub(crate) fn vars_at(
    alloc: Global,
    params: &[Parameter],
    found: Option<&Json>,
) -> Result<List<Kind>, Failure<StoreField>>
    ensures { Gives result (vars_at params.now (option_map (λ v. view v.now) found.entry)) }
{
    let Some(value) = found else {
        return bad(StoreField::Vars);
    };
    let items = list_at(StoreField::Vars, value)?;
    if params.len() > MAX_OPERANDS || items.len() > MAX_OPERANDS - params.len() {
        return bad(StoreField::Vars);
    }
    kinds_of(alloc, items)
}

/// The question.
#[tactic(auto, unfolding(crate::specs::Reading::goal_at))]
pub(crate) fn goal_at(
    alloc: Global,
    policy: &Policy,
    vars: &List<Kind>,
    found: Option<&Json>,
) -> Result<Query, Failure<StoreField>>
    ensures { Gives result (goal_at policy.now.schema policy.now.params vars.now
        (option_map (λ v. view v.now) found.entry)) }
{
    match found {
        Some(value) => query_at(alloc, StoreField::Goal, policy, vars, value),
        None => bad(StoreField::Goal),
    }
}

fn same_kind(left: Kind, right: Kind) -> bool
    ensures { result ≡ same_kind left right }
{
    match (left, right) {
        (Kind::Int, Kind::Int) | (Kind::Text, Kind::Text) => true,
        _ => false,
    }
}

fn is_null(operand: &Operand) -> bool
    ensures { result ≡ is_null operand.now }
{
    match operand {
        Operand::Val(Value::Null) => true,
        _ => false,
    }
}

/// Whether an operand of the second kind may stand in a row where the head has the first.
fn may_stand(kind: Option<Kind>, own: Option<Kind>, operand: &Operand) -> bool
    ensures { result ≡ may_stand kind own operand.now }
{
    match (kind, own) {
        (Some(kind), Some(own)) => same_kind(kind, own) || is_null(operand),
        (Some(_), None) => is_null(operand),
        (None, _) => false,
    }
}

/// The kind of an operand over these tables, if it is there.
fn kind_in(policy: &Policy, vars: &[Kind], from: &[u32], operand: &Operand) -> Option<Kind>
    ensures { result ≡ kind_of policy.now.schema (kinds_of policy.now.params) vars.now from.now
        operand.now }
{
    operand_kind(
        &policy.schema,
        policy.params.as_slice(),
        vars,
        from,
        operand,
    )
}

/// Whether the row has an operand for each of the head's, over these tables, that may stand for it.
fn stands(policy: &Policy, vars: &[Kind], from: &[u32], head: &[Operand], row: &[Operand]) -> bool
    ensures { result ≡ stands policy.now.schema (kinds_of policy.now.params) vars.now from.now
        head.now row.now }
{
    match (head.split_first(), row.split_first()) {
        (None, None) => true,
        (Some((first, head)), Some((operand, row))) => {
            let kind = kind_in(policy, vars, from, first);
            let own = kind_in(policy, vars, &[], operand);
            may_stand(kind, own, operand) && stands(policy, vars, from, head, row)
        }
        _ => false,
    }
}

/// Whether the row may stand for the query's heads.
fn row_stands(policy: &Policy, vars: &[Kind], query: &Query, row: &[Operand]) -> bool
    ensures { result ≡ row_stands policy.now.schema (kinds_of policy.now.params) vars.now
        query.now row.now }
{
    match query.parts.find(0) {
        Some(part) => stands(
            policy,
            vars,
            part.from.as_slice(),
            part.head.as_slice(),
            row,
        ),
        None => false,
    }
}

/// The query with its row, where it may stand for the query's heads.
fn if_stands(
    alloc: Global,
    policy: &Policy,
    vars: &[Kind],
    query: Query,
    row: List<Operand>,
) -> Result<ProblemEntry, Failure<StoreField>>
    ensures { Gives result
        (if_stands policy.now.schema policy.now.params vars.now query row) }
{
    if !row_stands(policy, vars, &query, row.as_slice()) {
        return bad(StoreField::Entries);
    }
    let query = Shared::new(alloc, query)?;
    Ok(ProblemEntry { query, row })
}

#[tactic(auto, unfolding(crate::specs::Reading::entry_of))]
fn entry_of(
    alloc: Global,
    policy: &Policy,
    vars: &List<Kind>,
    query: &Json,
    row: &Json,
) -> Result<ProblemEntry, Failure<StoreField>>
    ensures { Gives result (entry_of policy.now.schema policy.now.params vars.now
        (view query.now) (view row.now)) }
{
    let query = query_at(alloc, StoreField::Entries, policy, vars, query)?;
    let items = list_at(StoreField::Entries, row)?;
    let row = operands_of(alloc, StoreField::Entries, policy.params.as_slice(), items)?;
    if_stands(alloc, policy, vars.as_slice(), query, row)
}

fn entry_form(
    alloc: Global,
    policy: &Policy,
    vars: &List<Kind>,
    members: &Map<String, Json>,
) -> Result<ProblemEntry, Failure<StoreField>>
    ensures { Gives result (entry_form policy.now.schema policy.now.params vars.now
        (members_view members.now.entries)) }
{
    let mut members = members.iter();
    let Some((first, query)) = members.next() else {
        return bad(StoreField::Entries);
    };
    let Some((second, row)) = members.next() else {
        return bad(StoreField::Entries);
    };
    if members.next().is_some() {
        return bad(StoreField::Entries);
    }
    if first.as_str() == "query" && second.as_str() == "row" {
        entry_of(alloc, policy, vars, query, row)
    } else {
        bad(StoreField::Entries)
    }
}

fn entry_at(
    alloc: Global,
    policy: &Policy,
    vars: &List<Kind>,
    value: &Json,
) -> Result<ProblemEntry, Failure<StoreField>>
    ensures { Gives result
        (entry_at policy.now.schema policy.now.params vars.now (view value.now)) }
{
    match value.as_object() {
        Some(members) => entry_form(alloc, policy, vars, members),
        None => bad(StoreField::Entries),
    }
}

fn each_entry(
    alloc: Global,
    policy: &Policy,
    vars: &List<Kind>,
    items: &[Json],
) -> Result<List<ProblemEntry>, Failure<StoreField>>
    ensures { Gives result (each (entry_at policy.now.schema policy.now.params vars.now)
        (map view items.now)) }
{
    let mut found = List::new(alloc);
    for item in items {
        let entry = entry_at(alloc, policy, vars, item)?;
        found.push(entry)?;
    }
    Ok(found)
}

#[tactic(auto, unfolding(crate::specs::Reading::entries_of))]
fn entries_of(
    alloc: Global,
    policy: &Policy,
    vars: &List<Kind>,
    found: Option<&Json>,
) -> Result<List<ProblemEntry>, Failure<StoreField>>
    ensures { Gives result (entries_of policy.now.schema policy.now.params vars.now
        (option_map (λ v. view v.now) found.entry)) }
{
    let Some(value) = found else {
        return bad(StoreField::Entries);
    };
    let items = list_at(StoreField::Entries, value)?;
    if items.len() > MAX_KEPT_ENTRIES {
        return bad(StoreField::Entries);
    }
    each_entry(alloc, policy, vars, items)
}

/// Whether each variable stands in the goal or an entry.
fn vars_stand(problem: &Problem) -> bool
    ensures { result ≡ vars_stand problem.now }
{
    each_var_stands(problem)
}

fn if_vars_stand(problem: Problem) -> Result<Problem, Failure<StoreField>>
    ensures { Gives result (if_vars_stand problem) }
{
    if vars_stand(&problem) {
        Ok(problem)
    } else {
        bad(StoreField::Entries)
    }
}

/// The problem of the variables, the goal and the entries, still without a condition.
#[tactic(auto, unfolding(crate::specs::Reading::entries_at))]
pub(crate) fn entries_at(
    alloc: Global,
    policy: &Shared<Policy>,
    vars: List<Kind>,
    goal: Shared<Query>,
    found: Option<&Json>,
) -> Result<Problem, Failure<StoreField>>
    ensures { Gives result (entries_at policy.now vars goal
        (option_map (λ v. view v.now) found.entry)) }
{
    let entries = entries_of(alloc, policy, &vars, found)?;
    let policy = policy.copy(alloc)?;
    let assumed = List::new(alloc);
    if_vars_stand(Problem {
        policy,
        vars,
        assumed,
        entries,
        goal,
    })
}

/// Whether the atom is one of parameters, variables and literals of one kind.
#[tactic(auto, unfolding(crate::specs::Fits::is_assumed))]
fn is_assumed(policy: &Policy, vars: &[Kind], atom: &Atom) -> bool
    ensures { result ≡ is_assumed policy.now.schema (kinds_of policy.now.params) vars.now
        atom.now }
{
    let params = policy.params.as_slice();
    kind_in(policy, vars, &[], &atom.left).is_some()
        && kind_in(policy, vars, &[], &atom.right).is_some()
        && atom_kinds(&policy.schema, params, vars, &[], atom)
        && atom_order(&policy.schema, params, vars, &[], atom)
}

fn assumed_at(
    alloc: Global,
    policy: &Policy,
    vars: &[Kind],
    value: &Json,
) -> Result<Atom, Failure<StoreField>>
    ensures { Gives result
        (assumed_at policy.now.schema policy.now.params vars.now (view value.now)) }
{
    let atom = atom_at(
        alloc,
        StoreField::Condition,
        policy.params.as_slice(),
        value,
    )?;
    if is_assumed(policy, vars, &atom) {
        Ok(atom)
    } else {
        bad(StoreField::Condition)
    }
}

fn each_assumed(
    alloc: Global,
    policy: &Policy,
    vars: &[Kind],
    items: &[Json],
) -> Result<List<Atom>, Failure<StoreField>>
    ensures { Gives result (each (assumed_at policy.now.schema policy.now.params vars.now)
        (map view items.now)) }
{
    let mut found = List::new(alloc);
    for item in items {
        let atom = assumed_at(alloc, policy, vars, item)?;
        found.push(atom)?;
    }
    Ok(found)
}

/// The condition.
#[tactic(auto, unfolding(crate::specs::Reading::condition_at))]
pub(crate) fn condition_at(
    alloc: Global,
    policy: &Policy,
    vars: &[Kind],
    found: Option<&Json>,
) -> Result<List<Atom>, Failure<StoreField>>
    ensures { Gives result (condition_at policy.now.schema policy.now.params vars.now
        (option_map (λ v. view v.now) found.entry)) }
{
    let Some(value) = found else {
        return bad(StoreField::Condition);
    };
    let items = list_at(StoreField::Condition, value)?;
    each_assumed(alloc, policy, vars, items)
}

fn each_step(
    alloc: Global,
    params: &[Parameter],
    vars: usize,
    items: &[Json],
) -> Result<List<Step>, Failure<StoreField>>
    ensures { Gives result (steps_of params.now vars (map view items.now)) }
{
    match steps_of(alloc, params, vars, RULE_VERSION, items) {
        Ok(steps) => Ok(steps),
        Err(Failure::NoMemory) => Err(Failure::NoMemory),
        Err(Failure::Fault(_)) => bad(StoreField::Steps),
    }
}

/// The steps.
#[tactic(auto, unfolding(crate::specs::Reading::steps_at))]
pub(crate) fn steps_at(
    alloc: Global,
    params: &[Parameter],
    vars: usize,
    found: Option<&Json>,
) -> Result<List<Step>, Failure<StoreField>>
    ensures { Gives result
        (steps_at params.now vars (option_map (λ v. view v.now) found.entry)) }
{
    let Some(value) = found else {
        return bad(StoreField::Steps);
    };
    let items = list_at(StoreField::Steps, value)?;
    if items.len() as u64 > MAX_STEPS {
        return bad(StoreField::Steps);
    }
    each_step(alloc, params, vars, items)
}

#[tactic(auto, unfolding(crate::specs::Reading::is_key))]
fn is_key(name: &str) -> bool
    ensures { result ≡ is_key name.now }
{
    name == "condition"
        || name == "entries"
        || name == "goal"
        || name == "steps"
        || name == "vars"
        || name == "version"
}

fn are_keys(members: &Map<String, Json>) -> bool
    ensures { result ≡ are_keys (members_view members.now.entries) }
{
    for (name, _) in members.iter() {
        if !is_key(name.as_str()) {
            return false;
        }
    }
    true
}

/// Whether there are no other keys.
#[tactic(auto, unfolding(crate::specs::Reading::keys_at))]
pub(crate) fn keys_at(members: &Map<String, Json>) -> Result<(), Failure<StoreField>>
    ensures { Gives result (keys_at (members_view members.now.entries)) }
{
    if are_keys(members) {
        Ok(())
    } else {
        bad(StoreField::Keys)
    }
}
