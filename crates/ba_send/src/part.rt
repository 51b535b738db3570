//! Parts.
ghost use Rattle.std.specs.Prelude.{◌≡◌, ◌++◌, ◌+◌, [], ◌∷◌, OnOk, codes, map, string_bytes};
ghost use Rattle.ba_keys.specs.Literals.{atom_with, operand_with, part_with};
ghost use Rattle.ba_lex.specs.declared.token.Sign.TheVariants.{Comma};
ghost use Rattle.ba_send.specs.Sent.{atom_pieces, distinct_pieces, following, from_pieces, heads_pieces, operand_pieces, pieces_text, selected_pieces, sign, source_pieces, sources_from, where_pieces, word};
ghost use Rattle.ba_sql_print.specs.Printed.{table_name};

use crate::atom::push_atom;
use crate::name::{push_source_name, push_table};
use crate::operand::push_operand;
use ba_model::{Atom, Operand, Part, Schema, Value};
use ba_target::{Database, Target};
use std::alloc::AllocError;

/// Adds the operands of a head behind the first, each behind a comma.
fn push_next_heads(
    out: &mut String,
    database: Database,
    schema: &Schema,
    values: &[Value],
    from: &[u32],
    exact: bool,
    next: &[Operand],
) -> Result<(), AllocError>
    ensures { OnOk result (string_bytes out.new ≡ string_bytes out.old ++ pieces_text database
        (following (sign Comma) (map (operand_pieces database schema.now from.now exact)
        (map (operand_with 0 values.now) next.now)))) }
{
    for operand in next {
        out.push_str(" ,")?;
        push_operand(out, database, schema, values, from, exact, operand)?;
    }
    Ok(())
}

fn push_heads(
    out: &mut String,
    database: Database,
    schema: &Schema,
    values: &[Value],
    from: &[u32],
    exact: bool,
    head: &[Operand],
) -> Result<(), AllocError>
    ensures { OnOk result (string_bytes out.new ≡ string_bytes out.old ++ pieces_text database
        (heads_pieces database schema.now from.now exact
        (map (operand_with 0 values.now) head.now))) }
{
    match head {
        [] => Ok(()),
        [first, next @ ..] => {
            push_operand(out, database, schema, values, from, exact, first)?;
            push_next_heads(out, database, schema, values, from, exact, next)?;
            Ok(())
        }
    }
}

/// The name of a table; empty where it isn't there.
#[tactic(auto, unfolding(ba_sql_print::specs::Printed::table_name))]
fn table_name(schema: &Schema, table: u32) -> &str
    ensures { result.now ≡ table_name schema.now table }
{
    match schema.tables.find(table as usize) {
        Some(table) => table.name.as_str(),
        None => "",
    }
}

fn push_source(
    out: &mut String,
    target: &Target,
    schema: &Schema,
    place: usize,
    table: u32,
) -> Result<(), AllocError>
    ensures { OnOk result (string_bytes out.new ≡ string_bytes out.old
        ++ pieces_text target.now.database (source_pieces target.now schema.now place table)) }
{
    let name = table_name(schema, table);
    push_table(out, target, name)?;
    push_source_name(out, place)?;
    Ok(())
}

/// Adds the sources behind the first, each behind a comma.
fn push_next_sources(
    out: &mut String,
    target: &Target,
    schema: &Schema,
    next: &[u32],
) -> Result<(), AllocError>
    ensures { OnOk result (string_bytes out.new ≡ string_bytes out.old
        ++ pieces_text target.now.database
        (following (sign Comma) (sources_from target.now schema.now 1 next.now))) }
{
    for (i, table) in next.iter().enumerate() {
        out.push_str(" ,")?;
        push_source(out, target, schema, i + 1, *table)?;
    }
    Ok(())
}

fn push_sources(
    out: &mut String,
    target: &Target,
    schema: &Schema,
    from: &[u32],
) -> Result<(), AllocError>
    ensures { OnOk result (string_bytes out.new ≡ string_bytes out.old
        ++ pieces_text target.now.database (from_pieces target.now schema.now from.now)) }
{
    match from {
        [] => Ok(()),
        [first, next @ ..] => {
            push_source(out, target, schema, 0, *first)?;
            push_next_sources(out, target, schema, next)?;
            Ok(())
        }
    }
}

/// Adds the atoms behind the first, each behind AND.
fn push_next_atoms(
    out: &mut String,
    database: Database,
    schema: &Schema,
    values: &[Value],
    from: &[u32],
    next: &[Atom],
) -> Result<(), AllocError>
    ensures { OnOk result (string_bytes out.new ≡ string_bytes out.old ++ pieces_text database
        (following (word (codes "AND")) (map (atom_pieces database schema.now from.now)
        (map (atom_with 0 values.now) next.now)))) }
{
    for atom in next {
        out.push_str(" AND")?;
        push_atom(out, database, schema, values, from, atom)?;
    }
    Ok(())
}

/// Adds WHERE and the atoms; nothing where there is none.
fn push_where(
    out: &mut String,
    database: Database,
    schema: &Schema,
    values: &[Value],
    from: &[u32],
    atoms: &[Atom],
) -> Result<(), AllocError>
    ensures { OnOk result (string_bytes out.new ≡ string_bytes out.old ++ pieces_text database
        (where_pieces database schema.now from.now (map (atom_with 0 values.now) atoms.now))) }
{
    match atoms {
        [] => Ok(()),
        [first, next @ ..] => {
            out.push_str(" WHERE")?;
            push_atom(out, database, schema, values, from, first)?;
            push_next_atoms(out, database, schema, values, from, next)?;
            Ok(())
        }
    }
}

#[tactic(auto, unfolding(crate::specs::Sent::pieces_text))]
fn push_distinct(out: &mut String, database: Database, several: bool) -> Result<(), AllocError>
    ensures { OnOk result (string_bytes out.new
        ≡ string_bytes out.old ++ pieces_text database (distinct_pieces several)) }
{
    if several {
        Ok(())
    } else {
        out.push_str(" DISTINCT")
    }
}

/// Adds what follows the SELECT of a part, each parameter by its value. A query of one part says
/// DISTINCT.
pub fn push_selected(
    out: &mut String,
    target: &Target,
    schema: &Schema,
    values: &[Value],
    several: bool,
    part: &Part,
) -> Result<(), AllocError>
    ensures { OnOk result (string_bytes out.new ≡ string_bytes out.old
        ++ pieces_text target.now.database
        (selected_pieces target.now schema.now several (part_with 0 values.now part.now))) }
{
    let database = target.database;
    let from = part.from.as_slice();
    push_distinct(out, database, several)?;
    push_heads(
        out,
        database,
        schema,
        values,
        from,
        several,
        part.head.as_slice(),
    )?;
    out.push_str(" FROM")?;
    push_sources(out, target, schema, from)?;
    push_where(out, database, schema, values, from, part.conds.as_slice())?;
    Ok(())
}
