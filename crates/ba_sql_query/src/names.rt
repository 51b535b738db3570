//! What the names in a select mean.
ghost use Rattle.std.specs.Prelude.{◌≡◌, option_and_then, slice_get};
ghost use Rattle.std.specs.List.{position};
ghost use Rattle.std.specs.Str.{bytes_eq};
ghost use Rattle.ba_model.specs.Readings.{Gives};
ghost use Rattle.ba_sql_query.specs.Names.{column_at, column_of, column_place, constant_of, meant, operand_of, param_of, table_of};

use crate::columns::column_place;
use crate::fault::ReadQueryFault;
use crate::scope::Scope;
use crate::spot::numbered;
use ba_model::{Duplicate, Failure, Operand, Parameter, Schema, Str, Table};
use ba_sql_syntax::{Constant, Named, Side};
use std::alloc::Global;

fn is_table(table: &Table, name: &Str) -> bool
    ensures { result ≡ bytes_eq table.now.name name.now }
{
    table.name.as_bytes() == name.as_bytes()
}

fn table_place(tables: &[Table], name: &Str) -> Option<usize>
    ensures { result ≡ position (λ table. bytes_eq table.name name.now) tables.now }
{
    tables.iter().position(|table| is_table(table, name))
}

/// The number of the schema's table of that name.
#[tactic(auto, unfolding(crate::specs::Names::table_of))]
pub fn table_of(schema: &Schema, name: &Str) -> Result<u32, ReadQueryFault>
    ensures { result ≡ table_of schema.now name.now }
{
    numbered(
        ReadQueryFault::UnknownTable,
        table_place(schema.tables.as_slice(), name),
    )
}

fn is_parameter(parameter: &Parameter, name: &Str) -> bool
    ensures { result ≡ bytes_eq parameter.now.name name.now }
{
    parameter.name.as_bytes() == name.as_bytes()
}

fn parameter_place(params: &[Parameter], name: &Str) -> Option<usize>
    ensures { result ≡ position (λ parameter. bytes_eq parameter.name name.now) params.now }
{
    params
        .iter()
        .position(|parameter| is_parameter(parameter, name))
}

/// The parameter of that name.
#[tactic(auto, unfolding(crate::specs::Names::param_of))]
pub fn param_of(params: &[Parameter], name: &Str) -> Result<Operand, ReadQueryFault>
    ensures { result ≡ param_of params.now name.now }
{
    let n = numbered(ReadQueryFault::UnknownParam, parameter_place(params, name))?;
    Ok(Operand::Param(n))
}

fn place_at(scope: &Scope, name: &Str, place: u32) -> Option<usize>
    ensures { result ≡ option_and_then (column_place scope.now.schema.now name.now)
        (slice_get scope.now.from place) }
{
    match scope.from.as_slice().get(place as usize) {
        Some(table) => column_place(scope.schema, name, *table),
        None => None,
    }
}

// The column of the source at a place.
#[tactic(auto, unfolding(crate::specs::Names::column_at))]
fn column_at(scope: &Scope, name: &Str, place: u32) -> Result<Operand, ReadQueryFault>
    ensures { result ≡ column_at scope.now.schema.now scope.now.from name.now place }
{
    let n = numbered(ReadQueryFault::UnknownColumn, place_at(scope, name, place))?;
    Ok(Operand::Col(place, n))
}

// The place of the source that is meant.
#[tactic(auto, unfolding(crate::specs::Names::meant))]
fn meant(scope: &Scope, name: &Named) -> Result<u32, ReadQueryFault>
    ensures { result ≡ meant scope.now.schema.now scope.now.sources scope.now.from name.now }
{
    match &name.qualifier {
        Some(qualifier) => scope.sources.source_of(qualifier),
        None => scope.from.place_of(scope.schema, &name.column),
    }
}

/// The column that a name means.
///
/// `UnknownTable` where its qualifier calls no source; `Ambiguous` where it calls two of them, or where a column without qualifier is
/// in two sources; `UnknownColumn` where no source that may be meant has it.
#[tactic(auto, unfolding(crate::specs::Names::column_of))]
pub fn column_of(scope: &Scope, name: &Named) -> Result<Operand, ReadQueryFault>
    ensures { result ≡ column_of scope.now.schema.now scope.now.sources scope.now.from name.now }
{
    let place = meant(scope, name)?;
    column_at(scope, &name.column, place)
}

/// The operand that a constant is.
#[tactic(auto, unfolding(crate::specs::Names::constant_of))]
pub fn constant_of(
    alloc: Global,
    params: &[Parameter],
    constant: &Constant,
) -> Result<Operand, Failure<ReadQueryFault>>
    ensures { Gives result (constant_of params.now constant.now) }
{
    match constant {
        Constant::Value(value) => Ok(Operand::Val(value.copy(alloc)?)),
        Constant::Param(name) => param_of(params, name).map_err(Failure::Fault),
    }
}

/// The operand that is written.
#[tactic(auto, unfolding(crate::specs::Names::operand_of))]
pub fn operand_of(
    alloc: Global,
    scope: &Scope,
    params: &[Parameter],
    side: &Side,
) -> Result<Operand, Failure<ReadQueryFault>>
    ensures { Gives result
        (operand_of scope.now.schema.now params.now scope.now.sources scope.now.from side.now) }
{
    match side {
        Side::Column(name) => column_of(scope, name).map_err(Failure::Fault),
        Side::Constant(constant) => constant_of(alloc, params, constant),
    }
}
