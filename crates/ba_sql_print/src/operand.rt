//! Operands.
ghost use Rattle.std.specs.Prelude.{◌≡◌, IfOk, string_bytes};
ghost use Rattle.ba_sql_print.specs.Printed.{column_name, operand_text, param_name};

use crate::value::value;
use ba_model::{Operand, Parameter, Schema};
use std::alloc::{AllocError, Global};

/// The name of a column of the source at a place; empty where it isn't there.
#[tactic(auto, unfolding(crate::specs::Printed::column_name))]
fn column_name<'a>(schema: &'a Schema, from: &[u32], place: u32, column: u32) -> &'a str
    ensures { result.now ≡ column_name schema.now from.now place column }
{
    match from.get(place as usize) {
        Some(table) => match schema.tables.find(*table as usize) {
            Some(table) => match table.columns.find(column as usize) {
                Some(column) => column.name.as_str(),
                None => "",
            },
            None => "",
        },
        None => "",
    }
}

/// The name of a parameter; empty where it isn't there.
#[tactic(auto, unfolding(crate::specs::Printed::param_name))]
fn param_name(params: &[Parameter], n: u32) -> &str
    ensures { result.now ≡ param_name params.now n }
{
    match params.get(n as usize) {
        Some(parameter) => parameter.name.as_str(),
        None => "",
    }
}

/// An operand of a part with these tables. A variable has no text.
#[tactic(auto, unfolding(crate::specs::Printed::operand_text))]
pub fn operand(
    alloc: Global,
    schema: &Schema,
    params: &[Parameter],
    from: &[u32],
    operand: &Operand,
) -> Result<String, AllocError>
    ensures { IfOk result
        (λ s. string_bytes s ≡ operand_text schema.now params.now from.now operand.now) }
{
    match operand {
        Operand::Col(place, column) => {
            let name = column_name(schema, from, *place, *column);
            format!(in alloc; "t{place}.\"{name}\"")
        }
        Operand::Val(it) => value(alloc, it),
        Operand::Param(n) => {
            let name = param_name(params, *n);
            format!(in alloc; "?{name}")
        }
        Operand::Var(_) => Ok(String::new(alloc)),
    }
}
