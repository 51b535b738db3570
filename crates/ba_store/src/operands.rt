//! Operands and atoms.
ghost use Rattle.std.specs.Prelude.{◌≡◌, map};
ghost use Rattle.std.specs.List.{position};
ghost use Rattle.std.specs.Str.{bytes_eq};
ghost use Rattle.serde_json.specs.View.{view};
ghost use Rattle.ba_model.specs.Readings.{Gives, each};
ghost use Rattle.ba_script.specs.Script.{given_of};
ghost use Rattle.ba_store.specs.Reading.{atom_at, atom_of, column_at, list_operand, marked_at, op_at, operand_at, param_at};

use crate::fault::{StoreField, bad};
use crate::shapes::{list_at, number_at, text_at};
use ba_model::{Atom, Failure, List, Op, Operand, Parameter, Value};
use ba_proof::op_of;
use ba_script::{Given, given_value};
use serde_json::Value as Json;
use std::alloc::Global;

fn is_named(parameter: &Parameter, name: &str) -> bool
    ensures { result ≡ bytes_eq parameter.now.name name.now }
{
    parameter.name.as_str() == name
}

fn place_of(params: &[Parameter], name: &str) -> Option<usize>
    ensures { result ≡ position (λ parameter. bytes_eq parameter.name name.now) params.now }
{
    params
        .iter()
        .position(|parameter| is_named(parameter, name))
}

#[tactic(auto, unfolding(crate::specs::Reading::param_at))]
fn param_at(
    field: StoreField,
    params: &[Parameter],
    name: &str,
) -> Result<Operand, Failure<StoreField>>
    ensures { Gives result (param_at field params.now name.now) }
{
    match place_of(params, name) {
        Some(n) if n <= u32::MAX as usize => Ok(Operand::Param(n as u32)),
        _ => bad(field),
    }
}

#[tactic(auto, unfolding(crate::specs::Reading::marked_at))]
fn marked_at(
    field: StoreField,
    params: &[Parameter],
    mark: &str,
    value: &Json,
) -> Result<Operand, Failure<StoreField>>
    ensures { Gives result (marked_at field params.now mark.now (view value.now)) }
{
    if mark == "p" {
        let name = text_at(field, value)?;
        return param_at(field, params, name);
    }
    if mark == "v" {
        let n = number_at(field, value)?;
        return Ok(Operand::Var(n));
    }
    bad(field)
}

#[tactic(auto, unfolding(crate::specs::Reading::column_at))]
fn column_at(
    field: StoreField,
    mark: &str,
    place: &Json,
    column: &Json,
) -> Result<Operand, Failure<StoreField>>
    ensures { Gives result (column_at field mark.now (view place.now) (view column.now)) }
{
    if mark == "c" {
        let place = number_at(field, place)?;
        let column = number_at(field, column)?;
        return Ok(Operand::Col(place, column));
    }
    bad(field)
}

fn list_operand(
    field: StoreField,
    params: &[Parameter],
    items: &[Json],
) -> Result<Operand, Failure<StoreField>>
    ensures { Gives result (list_operand field params.now (map view items.now)) }
{
    match items {
        [mark, value] => {
            let mark = text_at(field, mark)?;
            marked_at(field, params, mark, value)
        }
        [mark, place, column] => {
            let mark = text_at(field, mark)?;
            column_at(field, mark, place, column)
        }
        _ => bad(field),
    }
}

/// A literal, of which `null` is NULL, a column, a parameter or a variable.
#[tactic(auto, unfolding(crate::specs::Reading::operand_at))]
fn operand_at(
    alloc: Global,
    field: StoreField,
    params: &[Parameter],
    value: &Json,
) -> Result<Operand, Failure<StoreField>>
    ensures { Gives result (operand_at field params.now (view value.now)) }
{
    let given = given_value(alloc, value)?;
    match given {
        Given::Int(n) => Ok(Operand::Val(Value::Int(n))),
        Given::Text(text) => Ok(Operand::Val(Value::text(alloc, text)?)),
        Given::Other => {
            if value.is_null() {
                return Ok(Operand::Val(Value::Null));
            }
            let items = list_at(field, value)?;
            list_operand(field, params, items)
        }
    }
}

/// The operands of a row or a head.
pub(crate) fn operands_of(
    alloc: Global,
    field: StoreField,
    params: &[Parameter],
    items: &[Json],
) -> Result<List<Operand>, Failure<StoreField>>
    ensures { Gives result (each (operand_at field params.now) (map view items.now)) }
{
    let mut found = List::new(alloc);
    for item in items {
        let operand = operand_at(alloc, field, params, item)?;
        found.push(operand)?;
    }
    Ok(found)
}

fn op_at(field: StoreField, name: &str) -> Result<Op, Failure<StoreField>>
    ensures { Gives result (op_at field name.now) }
{
    match op_of(name) {
        Ok(op) => Ok(op),
        Err(Failure::NoMemory) => Err(Failure::NoMemory),
        Err(Failure::Fault(_)) => bad(field),
    }
}

fn atom_of(
    alloc: Global,
    field: StoreField,
    params: &[Parameter],
    items: &[Json],
) -> Result<Atom, Failure<StoreField>>
    ensures { Gives result (atom_of field params.now (map view items.now)) }
{
    let [op, left, right] = items else {
        return bad(field);
    };
    let name = text_at(field, op)?;
    let op = op_at(field, name)?;
    let left = operand_at(alloc, field, params, left)?;
    let right = operand_at(alloc, field, params, right)?;
    Ok(Atom { op, left, right })
}

/// An operator and its sides.
#[tactic(auto, unfolding(crate::specs::Reading::atom_at))]
pub(crate) fn atom_at(
    alloc: Global,
    field: StoreField,
    params: &[Parameter],
    value: &Json,
) -> Result<Atom, Failure<StoreField>>
    ensures { Gives result (atom_at field params.now (view value.now)) }
{
    let items = list_at(field, value)?;
    atom_of(alloc, field, params, items)
}

/// The atoms of a part.
pub(crate) fn atoms_of(
    alloc: Global,
    field: StoreField,
    params: &[Parameter],
    items: &[Json],
) -> Result<List<Atom>, Failure<StoreField>>
    ensures { Gives result (each (atom_at field params.now) (map view items.now)) }
{
    let mut found = List::new(alloc);
    for item in items {
        let atom = atom_at(alloc, field, params, item)?;
        found.push(atom)?;
    }
    Ok(found)
}
