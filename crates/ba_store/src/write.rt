//! Writes a template file.
ghost use Rattle.std.specs.Prelude.{◌≡◌, ◌∷◌, [], All, IfOk, codes, map, string_bytes};
ghost use Rattle.serde_json.specs.Data.{string};
ghost use Rattle.serde_json.specs.View.{view};
ghost use Rattle.ba_sql_print.specs.Printed.{table_name};
ghost use Rattle.ba_proof.specs.Written.{count, list_json};
ghost use Rattle.ba_proof.specs.ReadBack.{IsShort};
ghost use Rattle.ba_store.specs.ReadBack.{AtomHasBits, EntryHasBits, HasText, OperandHasBits, PartHasBits, QueryHasBits, ReadsBack, TemplateHasBits};
ghost use Rattle.ba_store.specs.Written.{atom_json, entry_json, json_text, kind_json, kind_name, line_of, operand_json, part_json, query_json, table_json, template_json, text_of};

use ba_kernel::{Problem, ProblemEntry, Step};
use ba_model::{Atom, Kind, List, Operand, Parameter, Part, Policy, Query, Schema, Shared};
use ba_proof::{marked, op_name, param_name, steps_json, value_json};
use ba_template::Template;
use serde_json::{Map, Value as Json, put};
use std::alloc::{AllocError, Global};

/// `["c",PLACE,COLUMN]`.
fn column_json(alloc: Global, place: u32, column: u32) -> Result<Json, AllocError>
    ensures { IfOk result (λ v. view v
        ≡ list_json (string (codes "c") ∷ count place ∷ count column ∷ [])) }
{
    let mut items = Vec::with_capacity(alloc, 3)?;
    items.push(Json::try_from_str(alloc, "c")?)?;
    items.push(Json::from(place))?;
    items.push(Json::from(column))?;
    Ok(Json::Array(items))
}

fn operand_json(alloc: Global, params: &[Parameter], operand: &Operand) -> Result<Json, AllocError>
    ensures json { IfOk result (λ v. view v ≡ operand_json params.now operand.now) }
    ensures bits { IfOk result (λ _. OperandHasBits operand.now) }
{
    match operand {
        Operand::Col(place, column) => column_json(alloc, *place, *column),
        Operand::Val(value) => value_json(alloc, value),
        Operand::Param(n) => {
            let name = Json::try_from_str(alloc, param_name(params, *n))?;
            marked(alloc, "p", name)
        }
        Operand::Var(n) => marked(alloc, "v", Json::from(*n)),
    }
}

fn operands_json(
    alloc: Global,
    params: &[Parameter],
    operands: &[Operand],
) -> Result<Json, AllocError>
    ensures json { IfOk result (λ v. view v
        ≡ list_json (map (operand_json params.now) operands.now)) }
    ensures bits { IfOk result (λ _. All OperandHasBits operands.now) }
{
    let mut items = Vec::with_capacity(alloc, operands.len())?;
    for operand in operands {
        items.push(operand_json(alloc, params, operand)?)?;
    }
    Ok(Json::Array(items))
}

#[tactic(auto, unfolding(crate::specs::Written::atom_json))]
fn atom_json(alloc: Global, params: &[Parameter], atom: &Atom) -> Result<Json, AllocError>
    ensures json { IfOk result (λ v. view v ≡ atom_json params.now atom.now) }
    ensures bits { IfOk result (λ _. AtomHasBits atom.now) }
{
    let mut items = Vec::with_capacity(alloc, 3)?;
    items.push(Json::try_from_str(alloc, op_name(atom.op))?)?;
    items.push(operand_json(alloc, params, &atom.left)?)?;
    items.push(operand_json(alloc, params, &atom.right)?)?;
    Ok(Json::Array(items))
}

fn atoms_json(alloc: Global, params: &[Parameter], atoms: &[Atom]) -> Result<Json, AllocError>
    ensures json { IfOk result (λ v. view v ≡ list_json (map (atom_json params.now) atoms.now)) }
    ensures bits { IfOk result (λ _. All AtomHasBits atoms.now) }
{
    let mut items = Vec::with_capacity(alloc, atoms.len())?;
    for atom in atoms {
        items.push(atom_json(alloc, params, atom)?)?;
    }
    Ok(Json::Array(items))
}

/// The name of a table, if it is there, else the empty text.
#[tactic(auto, unfolding(ba_sql_print::specs::Printed::table_name))]
fn table_name(schema: &Schema, table: u32) -> &str
    ensures { result.now ≡ table_name schema.now table }
{
    match schema.tables.find(table as usize) {
        Some(table) => table.name.as_str(),
        None => "",
    }
}

fn tables_json(alloc: Global, schema: &Schema, tables: &[u32]) -> Result<Json, AllocError>
    ensures json { IfOk result (λ v. view v ≡ list_json (map (table_json schema.now) tables.now)) }
    ensures bits { IfOk result (λ _. All IsShort tables.now) }
{
    let mut items = Vec::with_capacity(alloc, tables.len())?;
    for table in tables {
        items.push(Json::try_from_str(alloc, table_name(schema, *table))?)?;
    }
    Ok(Json::Array(items))
}

#[tactic(auto, unfolding(crate::specs::Written::part_json))]
fn part_json(alloc: Global, policy: &Policy, part: &Part) -> Result<Json, AllocError>
    ensures json { IfOk result (λ v. view v
        ≡ part_json policy.now.schema policy.now.params part.now) }
    ensures bits { IfOk result (λ _. PartHasBits part.now) }
{
    let params = policy.params.as_slice();
    let mut members = Map::new(alloc);
    let conds = atoms_json(alloc, params, part.conds.as_slice())?;
    put(&mut members, alloc, "conds", conds)?;
    let from = tables_json(alloc, &policy.schema, part.from.as_slice())?;
    put(&mut members, alloc, "from", from)?;
    let head = operands_json(alloc, params, part.head.as_slice())?;
    put(&mut members, alloc, "head", head)?;
    Ok(Json::Object(members))
}

fn parts_json(alloc: Global, policy: &Policy, parts: &[Part]) -> Result<Json, AllocError>
    ensures json { IfOk result (λ v. view v
        ≡ list_json (map (part_json policy.now.schema policy.now.params) parts.now)) }
    ensures bits { IfOk result (λ _. All PartHasBits parts.now) }
{
    let mut items = Vec::with_capacity(alloc, parts.len())?;
    for part in parts {
        items.push(part_json(alloc, policy, part)?)?;
    }
    Ok(Json::Array(items))
}

#[tactic(auto, unfolding(crate::specs::Written::query_json))]
fn query_json(alloc: Global, policy: &Policy, query: &Query) -> Result<Json, AllocError>
    ensures json { IfOk result (λ v. view v
        ≡ query_json policy.now.schema policy.now.params query.now) }
    ensures bits { IfOk result (λ _. QueryHasBits query.now) }
{
    let mut members = Map::new(alloc);
    let parts = parts_json(alloc, policy, query.parts.as_slice())?;
    put(&mut members, alloc, "parts", parts)?;
    Ok(Json::Object(members))
}

#[tactic(auto, unfolding(crate::specs::Written::entry_json))]
fn entry_json(alloc: Global, policy: &Policy, entry: &ProblemEntry) -> Result<Json, AllocError>
    ensures json { IfOk result (λ v. view v
        ≡ entry_json policy.now.schema policy.now.params entry.now) }
    ensures bits { IfOk result (λ _. EntryHasBits entry.now) }
{
    let mut members = Map::new(alloc);
    let query = query_json(alloc, policy, &entry.query)?;
    put(&mut members, alloc, "query", query)?;
    let row = operands_json(alloc, policy.params.as_slice(), entry.row.as_slice())?;
    put(&mut members, alloc, "row", row)?;
    Ok(Json::Object(members))
}

fn entries_json(
    alloc: Global,
    policy: &Policy,
    entries: &[ProblemEntry],
) -> Result<Json, AllocError>
    ensures json { IfOk result (λ v. view v
        ≡ list_json (map (entry_json policy.now.schema policy.now.params) entries.now)) }
    ensures bits { IfOk result (λ _. All EntryHasBits entries.now) }
{
    let mut items = Vec::with_capacity(alloc, entries.len())?;
    for entry in entries {
        items.push(entry_json(alloc, policy, entry)?)?;
    }
    Ok(Json::Array(items))
}

fn kind_name(kind: Kind) -> &'static str
    ensures { result.now ≡ kind_name kind }
{
    match kind {
        Kind::Int => "INT",
        Kind::Text => "TEXT",
    }
}

fn kinds_json(alloc: Global, kinds: &[Kind]) -> Result<Json, AllocError>
    ensures { IfOk result (λ v. view v ≡ list_json (map kind_json kinds.now)) }
{
    let mut items = Vec::with_capacity(alloc, kinds.len())?;
    for kind in kinds {
        items.push(Json::try_from_str(alloc, kind_name(*kind))?)?;
    }
    Ok(Json::Array(items))
}

#[tactic(auto, unfolding(crate::specs::Written::template_json))]
fn template_json(alloc: Global, problem: &Problem, steps: &[Step]) -> Result<Json, AllocError>
    ensures json { IfOk result (λ v. view v ≡ template_json problem.now steps.now) }
    ensures bits { IfOk result (λ _. TemplateHasBits problem.now steps.now) }
{
    let policy: &Policy = &problem.policy;
    let params = policy.params.as_slice();
    let mut members = Map::new(alloc);
    let condition = atoms_json(alloc, params, problem.assumed.as_slice())?;
    put(&mut members, alloc, "condition", condition)?;
    let entries = entries_json(alloc, policy, problem.entries.as_slice())?;
    put(&mut members, alloc, "entries", entries)?;
    let goal = query_json(alloc, policy, &problem.goal)?;
    put(&mut members, alloc, "goal", goal)?;
    let steps = steps_json(alloc, params, problem.vars.len(), steps)?;
    put(&mut members, alloc, "steps", steps)?;
    let vars = kinds_json(alloc, problem.vars.as_slice())?;
    put(&mut members, alloc, "vars", vars)?;
    put(&mut members, alloc, "version", Json::from(1u64))?;
    Ok(Json::Object(members))
}

/// The text of a template, without its line feed, which reads as its JSON.
fn template_text(alloc: Global, template: &Template) -> Result<String, AllocError>
    ensures text { IfOk result (λ text. string_bytes text ≡ json_text template.now) }
    ensures has { IfOk result (λ _. HasText template.now) }
{
    let steps = template.steps();
    let json = template_json(alloc, template.problem(), steps.as_slice())?;
    json.to_string(alloc)
}

/// The line of a template, with the line feed that ends it: one compact JSON object, its keys in
/// byte order. The only error is want of memory, which leaves nothing behind.
pub fn template_line(alloc: Global, template: &Template) -> Result<String, AllocError>
    ensures { IfOk result (λ text. string_bytes text ≡ line_of template.now) }
{
    let mut text = template_text(alloc, template)?;
    text.push('\n')?;
    Ok(text)
}

/// The lines of the templates, one after another.
fn lines_of(alloc: Global, templates: &[Shared<Template>]) -> Result<Vec<u8>, AllocError>
    ensures text { IfOk result (λ bytes. bytes.items ≡ text_of templates.now) }
    ensures have { IfOk result (λ _. All HasText templates.now) }
{
    let mut bytes = Vec::new(alloc);
    for template in templates {
        let text = template_text(alloc, template)?;
        bytes.extend_from_slice(text.as_bytes())?;
        bytes.push(b'\n')?;
    }
    Ok(bytes)
}

/// The file of the templates: the line of each, in order.
///
/// It loads templates of the same content, where they are at most [`ba_model::MAX_TEMPLATES`], of
/// the policy that it is read for, and pass the reader's tests of variables, entries and steps; and
/// no two parameters or tables of the policy have one name, as the readers of policies and schemas
/// ensure. The only error is want of memory, which leaves nothing behind.
pub fn write_templates(alloc: Global, templates: &[Shared<Template>]) -> Result<Vec<u8>, AllocError>
    ensures text { IfOk result (λ bytes. bytes.items ≡ text_of templates.now) }
    ensures reads_back { IfOk result (λ bytes. ReadsBack templates.now bytes.items) }
{
    lines_of(alloc, templates)
}
