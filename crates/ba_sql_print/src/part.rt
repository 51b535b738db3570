//! Parts.
ghost use Rattle.std.specs.Prelude.{◌≡◌, IfOk, map, string_bytes};
ghost use Rattle.ba_sql_print.specs.Printed.{atom_text, conditions_text, from_text, heads_text, operand_text, part_text, source_text, sources_from, table_name, where_text};

use crate::atom::atom;
use crate::operand::operand;
use ba_model::{Atom, Operand, Parameter, Part, Schema};
use std::alloc::{AllocError, Global};

#[tactic(auto, unfolding(crate::specs::Printed::heads_text))]
fn heads(
    alloc: Global,
    schema: &Schema,
    params: &[Parameter],
    from: &[u32],
    head: &[Operand],
) -> Result<String, AllocError>
    ensures { IfOk result
        (λ s. string_bytes s ≡ heads_text schema.now params.now from.now head.now) }
{
    let mut texts = Vec::new(alloc);
    for x in head {
        let text = operand(alloc, schema, params, from, x)?;
        texts.push(text)?;
    }
    texts.join(alloc, ", ")
}

/// The name of a table; empty where it isn't there.
#[tactic(auto, unfolding(crate::specs::Printed::table_name))]
fn table_name(schema: &Schema, table: u32) -> &str
    ensures { result.now ≡ table_name schema.now table }
{
    match schema.tables.find(table as usize) {
        Some(table) => table.name.as_str(),
        None => "",
    }
}

#[tactic(auto, unfolding(crate::specs::Printed::source_text))]
fn source(alloc: Global, schema: &Schema, place: usize, table: u32) -> Result<String, AllocError>
    ensures { IfOk result (λ s. string_bytes s ≡ source_text schema.now place table) }
{
    let name = table_name(schema, table);
    format!(in alloc; "\"{name}\" t{place}")
}

#[tactic(auto, unfolding(crate::specs::Printed::from_text))]
fn sources(alloc: Global, schema: &Schema, from: &[u32]) -> Result<String, AllocError>
    ensures { IfOk result (λ s. string_bytes s ≡ from_text schema.now from.now) }
{
    let mut texts = Vec::new(alloc);
    for (place, table) in from.iter().enumerate() {
        let text = source(alloc, schema, place, *table)?;
        texts.push(text)?;
    }
    texts.join(alloc, ", ")
}

#[tactic(auto, unfolding(crate::specs::Printed::conditions_text))]
fn conditions(
    alloc: Global,
    schema: &Schema,
    params: &[Parameter],
    from: &[u32],
    atoms: &[Atom],
) -> Result<String, AllocError>
    ensures { IfOk result
        (λ s. string_bytes s ≡ conditions_text schema.now params.now from.now atoms.now) }
{
    let mut texts = Vec::new(alloc);
    for x in atoms {
        let text = atom(alloc, schema, params, from, x)?;
        texts.push(text)?;
    }
    texts.join(alloc, " AND ")
}

/// WHERE and the atoms; empty where there is no atom.
#[tactic(auto, unfolding(crate::specs::Printed::where_text))]
fn condition(
    alloc: Global,
    schema: &Schema,
    params: &[Parameter],
    from: &[u32],
    atoms: &[Atom],
) -> Result<String, AllocError>
    ensures { IfOk result
        (λ s. string_bytes s ≡ where_text schema.now params.now from.now atoms.now) }
{
    if atoms.is_empty() {
        return Ok(String::new(alloc));
    }
    let all = conditions(alloc, schema, params, from, atoms)?;
    format!(in alloc; " WHERE {all}")
}

/// A part: `SELECT h, .. FROM "T" t0, .. WHERE a AND ..`, without WHERE where there is no atom.
#[tactic(auto, unfolding(crate::specs::Printed::part_text))]
pub fn part(
    alloc: Global,
    schema: &Schema,
    params: &[Parameter],
    part: &Part,
) -> Result<String, AllocError>
    ensures { IfOk result (λ s. string_bytes s ≡ part_text schema.now params.now part.now) }
{
    let from = part.from.as_slice();
    let heads = heads(alloc, schema, params, from, part.head.as_slice())?;
    let sources = sources(alloc, schema, from)?;
    let condition = condition(alloc, schema, params, from, part.conds.as_slice())?;
    format!(in alloc; "SELECT {heads} FROM {sources}{condition}")
}
