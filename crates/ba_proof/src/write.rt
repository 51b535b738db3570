//! Writes a proof file.
ghost use Rattle.std.specs.Prelude.{◌≡◌, ◌++◌, ◌∷◌, [], All, IfOk, OnOk, codes, map};
ghost use Rattle.std.specs.List.{list_any};
ghost use Rattle.std.specs.Option.{option_copied};
ghost use Rattle.serde_json.specs.Data.{no_members, object, string};
ghost use Rattle.serde_json.specs.View.{members_view, view};
ghost use Rattle.ba_model.specs.Fit.{IsQuery, kinds_of};
ghost use Rattle.ba_kernel.specs.Courses.{ProblemFits};
ghost use Rattle.ba_kernel.specs.declared.problem.ProblemEntry.{ProblemEntry};
ghost use Rattle.ba_sql_print.specs.Printed.{param_name, query_text};
ghost use Rattle.ba_proof.specs.ReadBack.{AtomHasBits, IsShort, ReadsBack, StepHasBits, TermHasBits, ValueSpells};
ghost use Rattle.ba_proof.specs.Written.{atom_json, count, entry_json, facts_json, is_rule, list_json, literal_in, literal_json, named, op_name, param_in, proof_json, proof_text, step_json, term_json, value_json, var_json, version_of, with_context, with_value};

use crate::version::RULE_VERSION;
use ba_facts::{Term, TermAtom};
use ba_kernel::{Problem, ProblemEntry, Step};
use ba_model::{Atom, List, Op, Operand, Parameter, Policy, Query, Value};
use ba_sql_print::laws::printed_query_reads_back;
use ba_sql_print::print_query;
use serde_json::{Map, Value as Json, put};
use std::alloc::{AllocError, Global};

/// A value as JSON: NULL is `null`.
#[tactic(auto, unfolding(ba_lex::specs::Spelling::fits))]
pub fn value_json(alloc: Global, value: &Value) -> Result<Json, AllocError>
    ensures json { IfOk result (λ v. view v ≡ value_json value.now) }
    ensures bits { IfOk result (λ _. ValueSpells value.now) }
{
    match value {
        Value::Null => Ok(Json::Null),
        Value::Int(n) => Ok(Json::from(*n)),
        Value::Text(text) => Json::try_from_str(alloc, text.as_str()),
    }
}

/// A step's name and its first numbers.
fn named(alloc: Global, name: &str, numbers: &[u64]) -> Result<Vec<Json>, AllocError>
    ensures { IfOk result (λ items. map view items.items
        ≡ string name.now ∷ map count numbers.now) }
{
    let mut items = Vec::with_capacity(alloc, numbers.len() + 2)?;
    items.push(Json::try_from_str(alloc, name)?)?;
    for n in numbers {
        items.push(Json::from(*n))?;
    }
    Ok(items)
}

/// A step that has numbers alone.
fn plain_step(alloc: Global, name: &str, numbers: &[u64]) -> Result<Json, AllocError>
    ensures { IfOk result (λ v. view v ≡ named name.now numbers.now []) }
{
    Ok(Json::Array(named(alloc, name, numbers)?))
}

fn facts_json(alloc: Global, facts: &[u32]) -> Result<Json, AllocError>
    ensures json { IfOk result (λ v. view v ≡ list_json (map count facts.now)) }
    ensures bits { IfOk result (λ _. All IsShort facts.now) }
{
    let mut items = Vec::with_capacity(alloc, facts.len())?;
    for fact in facts {
        items.push(Json::from(*fact))?;
    }
    Ok(Json::Array(items))
}

/// A step that ends with facts.
fn facts_step(
    alloc: Global,
    name: &str,
    numbers: &[u64],
    facts: &List<u32>,
) -> Result<Json, AllocError>
    ensures json { IfOk result (λ v. view v
        ≡ named name.now numbers.now (facts_json facts.now)) }
    ensures bits { IfOk result (λ _. All IsShort facts.now) }
{
    let mut items = named(alloc, name, numbers)?;
    items.push(facts_json(alloc, facts.as_slice())?)?;
    Ok(Json::Array(items))
}

/// The name of a parameter, if it is there, else the empty text.
#[tactic(auto, unfolding(ba_sql_print::specs::Printed::param_name))]
pub fn param_name(params: &[Parameter], n: u32) -> &str
    ensures { result.now ≡ param_name params.now n }
{
    match params.get(n as usize) {
        Some(parameter) => parameter.name.as_str(),
        None => "",
    }
}

/// A mark and what it marks, as a JSON array.
pub fn marked(alloc: Global, mark: &str, value: Json) -> Result<Json, AllocError>
    ensures { IfOk result (λ v. view v ≡ list_json (string mark.now ∷ view value ∷ [])) }
{
    let mut items = Vec::with_capacity(alloc, 2)?;
    items.push(Json::try_from_str(alloc, mark)?)?;
    items.push(value)?;
    Ok(Json::Array(items))
}

fn var_json(alloc: Global, vars: usize, n: u32) -> Result<Json, AllocError>
    ensures { IfOk result (λ v. view v ≡ var_json vars n) }
{
    if (n as usize) < vars {
        marked(alloc, "v", Json::from(n))
    } else {
        Ok(Json::Null)
    }
}

fn term_json(
    alloc: Global,
    params: &[Parameter],
    vars: usize,
    term: &Term,
) -> Result<Json, AllocError>
    ensures json { IfOk result (λ v. view v ≡ term_json params.now vars term.now) }
    ensures bits { IfOk result (λ _. TermHasBits term.now) }
{
    match term {
        Term::Unknown(n) => marked(alloc, "u", Json::from(*n)),
        Term::Val(value) => value_json(alloc, value),
        Term::Param(n) => {
            let name = Json::try_from_str(alloc, param_name(params, *n))?;
            marked(alloc, "p", name)
        }
        Term::Var(n) => var_json(alloc, vars, *n),
    }
}

/// An operator's name.
pub fn op_name(op: Op) -> &'static str
    ensures { result.now ≡ op_name op }
{
    match op {
        Op::Eq => "=",
        Op::Ne => "<>",
        Op::Lt => "<",
        Op::Le => "<=",
        Op::IsNull => "is null",
        Op::NotNull => "is not null",
    }
}

#[tactic(auto, unfolding(crate::specs::Written::atom_json))]
fn atom_json(
    alloc: Global,
    params: &[Parameter],
    vars: usize,
    atom: &TermAtom,
) -> Result<Json, AllocError>
    ensures json { IfOk result (λ v. view v ≡ atom_json params.now vars atom.now) }
    ensures bits { IfOk result (λ _. AtomHasBits atom.now) }
{
    let mut items = Vec::with_capacity(alloc, 3)?;
    items.push(Json::try_from_str(alloc, op_name(atom.op))?)?;
    items.push(term_json(alloc, params, vars, &atom.left)?)?;
    items.push(term_json(alloc, params, vars, &atom.right)?)?;
    Ok(Json::Array(items))
}

fn split_step(
    alloc: Global,
    params: &[Parameter],
    vars: usize,
    branch: u32,
    atom: &TermAtom,
) -> Result<Json, AllocError>
    ensures json { IfOk result (λ v. view v ≡ named (codes "split") (branch ∷ [])
        (atom_json params.now vars atom.now ∷ [])) }
    ensures bits { IfOk result (λ _. AtomHasBits atom.now) }
{
    let mut items = named(alloc, "split", &[branch as u64])?;
    items.push(atom_json(alloc, params, vars, atom)?)?;
    Ok(Json::Array(items))
}

#[tactic(auto, unfolding(crate::specs::Written::step_json))]
fn step_json(
    alloc: Global,
    params: &[Parameter],
    vars: usize,
    step: &Step,
) -> Result<Json, AllocError>
    ensures json { IfOk result (λ v. view v ≡ step_json params.now vars step.now) }
    ensures bits { IfOk result (λ _. StepHasBits step.now) }
{
    match step {
        Step::Entry { branch, entry } => plain_step(alloc, "entry", &[*branch as u64, *entry]),
        Step::Key {
            branch,
            key,
            left,
            right,
        } => plain_step(
            alloc,
            "key",
            &[*branch as u64, *key as u64, *left as u64, *right as u64],
        ),
        Step::Link { branch, link, fact } => plain_step(
            alloc,
            "link",
            &[*branch as u64, *link as u64, *fact as u64],
        ),
        Step::Rule {
            branch,
            rule,
            part,
            facts,
        } => facts_step(
            alloc,
            "rule",
            &[*branch as u64, *rule as u64, *part as u64],
            facts,
        ),
        Step::View {
            branch,
            view,
            part,
            facts,
        } => facts_step(
            alloc,
            "view",
            &[*branch as u64, *view as u64, *part as u64],
            facts,
        ),
        Step::Split { branch, atom } => split_step(alloc, params, vars, *branch, atom),
        Step::Absurd { branch } => plain_step(alloc, "absurd", &[*branch as u64]),
        Step::Goal {
            branch,
            part,
            facts,
        } => facts_step(alloc, "goal", &[*branch as u64, *part as u64], facts),
    }
}

/// Steps as JSON, as a proof file has them, over parameters and so many variables: a proof file's
/// problem has none. A variable that isn't there, and NULL, are written as `null`, which is no term.
/// The numbers of the steps have the bits of their types.
pub fn steps_json(
    alloc: Global,
    params: &[Parameter],
    vars: usize,
    steps: &[Step],
) -> Result<Json, AllocError>
    ensures json { IfOk result (λ v. view v
        ≡ list_json (map (step_json params.now vars) steps.now)) }
    ensures bits { IfOk result (λ _. All StepHasBits steps.now) }
{
    let mut items = Vec::with_capacity(alloc, steps.len())?;
    for step in steps {
        items.push(step_json(alloc, params, vars, step)?)?;
    }
    Ok(Json::Array(items))
}

#[tactic(auto, unfolding(crate::specs::Written::is_rule))]
fn is_rule(step: &Step) -> bool
    ensures { result ≡ is_rule step.now }
{
    match step {
        Step::Rule { .. } => true,
        _ => false,
    }
}

fn has_rule(steps: &[Step]) -> bool
    ensures { result ≡ list_any is_rule steps.now }
{
    steps.iter().any(is_rule)
}

fn version_of(steps: &[Step]) -> u64
    ensures { result ≡ version_of steps.now }
{
    if has_rule(steps) { RULE_VERSION } else { 1 }
}

fn param_in(operand: &Operand) -> Option<u32>
    ensures { result ≡ param_in operand.now }
{
    match operand {
        Operand::Param(n) => Some(*n),
        _ => None,
    }
}

fn literal_in(operand: &Operand) -> Option<&Value>
    ensures { option_copied result ≡ literal_in operand.now }
{
    match operand {
        Operand::Val(value) => Some(value),
        _ => None,
    }
}

/// Adds the value that an assumption gives a parameter.
fn put_value(
    alloc: Global,
    params: &[Parameter],
    members: &mut Map<String, Json>,
    atom: &Atom,
) -> Result<(), AllocError>
    ensures { OnOk result (members_view members.new.entries
        ≡ with_value params.now (param_in atom.now.left) (literal_in atom.now.right)
        (members_view members.old.entries)) }
{
    let Some(n) = param_in(&atom.left) else {
        return Ok(());
    };
    let Some(value) = literal_in(&atom.right) else {
        return Ok(());
    };
    let value = value_json(alloc, value)?;
    put(members, alloc, param_name(params, n), value)
}

fn context_json(alloc: Global, params: &[Parameter], atoms: &[Atom]) -> Result<Json, AllocError>
    ensures { IfOk result (λ v. view v ≡ object (with_context params.now atoms.now no_members)) }
{
    let mut members = Map::new(alloc);
    for atom in atoms {
        put_value(alloc, params, &mut members, atom)?;
    }
    Ok(Json::Object(members))
}

fn operand_json(alloc: Global, operand: &Operand) -> Result<Json, AllocError>
    ensures { IfOk result (λ v. view v ≡ literal_json (literal_in operand.now)) }
{
    match literal_in(operand) {
        Some(value) => value_json(alloc, value),
        None => Ok(Json::Null),
    }
}

fn row_json(alloc: Global, row: &[Operand]) -> Result<Json, AllocError>
    ensures { IfOk result (λ v. view v
        ≡ list_json (map (λ it. literal_json (literal_in it)) row.now)) }
{
    let mut items = Vec::with_capacity(alloc, row.len())?;
    for operand in row {
        items.push(operand_json(alloc, operand)?)?;
    }
    Ok(Json::Array(items))
}

fn query_json(alloc: Global, policy: &Policy, query: &Query) -> Result<Json, AllocError>
    requires { IsQuery policy.now.schema (kinds_of policy.now.params) [] query.now }
    ensures { IfOk result (λ v. view v
        ≡ string (query_text policy.now.schema policy.now.params query.now)) }
{
    let text = print_query(alloc, &policy.schema, &policy.params, query)?;
    Ok(Json::String(text))
}

#[tactic(auto, unfolding(crate::specs::Written::entry_json))]
fn entry_json(alloc: Global, policy: &Policy, entry: &ProblemEntry) -> Result<Json, AllocError>
    requires { IsQuery policy.now.schema (kinds_of policy.now.params) [] entry.now.query }
    ensures { IfOk result (λ v. view v
        ≡ entry_json policy.now.schema policy.now.params entry.now) }
{
    let mut members = Map::new(alloc);
    put(
        &mut members,
        alloc,
        "query",
        query_json(alloc, policy, &entry.query)?,
    )?;
    put(
        &mut members,
        alloc,
        "row",
        row_json(alloc, entry.row.as_slice())?,
    )?;
    Ok(Json::Object(members))
}

fn entries_json(
    alloc: Global,
    policy: &Policy,
    entries: &[ProblemEntry],
) -> Result<Json, AllocError>
    requires { All (λ (it : ProblemEntry). IsQuery policy.now.schema (kinds_of policy.now.params) [] it.query) entries.now }
    ensures { IfOk result (λ v. view v
        ≡ list_json (map (entry_json policy.now.schema policy.now.params) entries.now)) }
{
    let mut items = Vec::with_capacity(alloc, entries.len())?;
    for entry in entries {
        items.push(entry_json(alloc, policy, entry)?)?;
    }
    Ok(Json::Array(items))
}

#[tactic(auto, unfolding(crate::specs::Written::proof_json))]
fn proof_json(alloc: Global, problem: &Problem, steps: &List<Step>) -> Result<Json, AllocError>
    requires fits { ProblemFits problem.now }
    requires vars { problem.now.vars ≡ [] }
    ensures { IfOk result (λ v. view v ≡ proof_json problem.now steps.now) }
{
    let policy: &Policy = &problem.policy;
    let params = policy.params.as_slice();
    let mut members = Map::new(alloc);
    let context = context_json(alloc, params, problem.assumed.as_slice())?;
    put(&mut members, alloc, "context", context)?;
    let entries = entries_json(alloc, policy, problem.entries.as_slice())?;
    put(&mut members, alloc, "entries", entries)?;
    put(
        &mut members,
        alloc,
        "goal",
        query_json(alloc, policy, &problem.goal)?,
    )?;
    put(
        &mut members,
        alloc,
        "steps",
        steps_json(alloc, params, 0, steps.as_slice())?,
    )?;
    put(
        &mut members,
        alloc,
        "version",
        Json::from(version_of(steps.as_slice())),
    )?;
    Ok(Json::Object(members))
}

/// The proof file of a question's problem and of steps: one compact JSON object, without blanks and
/// a line end.
///
/// The problem is one of [`ba_kernel::Problem::of`]: its assumptions are the parameters' values,
/// and its rows are literals, of which NULL is written as `null`. The version is 2 where a step is
/// by an inclusion rule, else 1. A variable as a term of a step, which no such problem has, and
/// NULL as one, which no step has that is accepted, would be written as `null` too, which is no
/// term.
///
/// What is written reads back as the problem and the steps where the queries have texts of at most
/// 65,536 bytes and names that can be spelled, the steps' terms are literals other than NULL,
/// unknowns and parameters of the policy, and the steps are of a version that is read. The only
/// error is want of memory, which leaves nothing behind.
pub fn write_proof(
    alloc: Global,
    problem: &Problem,
    steps: &List<Step>,
) -> Result<Vec<u8>, AllocError>
    requires fits { ProblemFits problem.now }
    requires vars { problem.now.vars ≡ [] }
    ensures text { IfOk result (λ bytes. bytes.items ≡ proof_text problem.now steps.now) }
    ensures reads_back { IfOk result (λ bytes. ReadsBack problem.now steps.now bytes.items) }
{
    printed_query_reads_back();
    proof_json(alloc, problem, steps)?.to_vec(alloc)
}
