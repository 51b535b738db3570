//! The terms and atoms of steps.
ghost use Rattle.std.specs.Prelude.{◌≡◌, map};
ghost use Rattle.std.specs.List.{position};
ghost use Rattle.std.specs.Str.{bytes_eq};
ghost use Rattle.serde_json.specs.View.{view};
ghost use Rattle.ba_model.specs.Readings.{Gives, each};
ghost use Rattle.ba_script.specs.Script.{given_of};
ghost use Rattle.ba_proof.specs.Steps.{atom_at, atom_of, long_at, marked_of, number_at, numbers_at, op_of, pair_of, param_of, term_at, var_of};

use crate::fault::{ProofFault, ProofField, bad};
use crate::shapes::{GREATEST, as_short, list_at, text_at};
use ba_facts::{Term, TermAtom};
use ba_model::{Failure, List, Op, Parameter, Value};
use ba_script::{Given, given_value};
use serde_json::Value as Json;
use std::alloc::Global;

/// A number of 32 bits.
pub(crate) fn number_at(value: &Json) -> Result<u32, Failure<ProofFault>>
    ensures { Gives result (number_at (view value.now)) }
{
    match as_short(value) {
        Some(n) => Ok(n),
        None => bad(ProofField::Steps),
    }
}

/// A number of 64 bits.
pub(crate) fn long_at(value: &Json) -> Result<u64, Failure<ProofFault>>
    ensures { Gives result (long_at (view value.now)) }
{
    match value.as_u64() {
        Some(n) => Ok(n),
        None => bad(ProofField::Steps),
    }
}

fn numbers_of(alloc: Global, items: &[Json]) -> Result<List<u32>, Failure<ProofFault>>
    ensures { Gives result (each number_at (map view items.now)) }
{
    let mut found = List::new(alloc);
    for item in items {
        let n = number_at(item)?;
        found.push(n)?;
    }
    Ok(found)
}

/// The numbers of facts.
#[tactic(auto, unfolding(crate::specs::Steps::numbers_at))]
pub(crate) fn numbers_at(alloc: Global, value: &Json) -> Result<List<u32>, Failure<ProofFault>>
    ensures { Gives result (numbers_at (view value.now)) }
{
    let items = list_at(ProofField::Steps, value)?;
    numbers_of(alloc, items)
}

fn is_named(parameter: &Parameter, name: &str) -> bool
    ensures { result ≡ bytes_eq parameter.now.name name.now }
{
    parameter.name.as_str() == name
}

fn place_of(params: &[Parameter], name: &str) -> Option<usize>
    ensures { result ≡ position (λ parameter. bytes_eq parameter.name name.now) params.now }
{
    params
        .iter()
        .position(|parameter| is_named(parameter, name))
}

#[tactic(auto, unfolding(crate::specs::Steps::param_of))]
fn param_of(params: &[Parameter], name: &str) -> Result<Term, Failure<ProofFault>>
    ensures { Gives result (param_of params.now name.now) }
{
    match place_of(params, name) {
        Some(n) if n as u64 <= GREATEST => Ok(Term::Param(n as u32)),
        _ => bad(ProofField::Steps),
    }
}

fn var_of(vars: usize, n: u32) -> Result<Term, Failure<ProofFault>>
    ensures { Gives result (var_of vars n) }
{
    if (n as usize) < vars {
        Ok(Term::Var(n))
    } else {
        bad(ProofField::Steps)
    }
}

#[tactic(auto, unfolding(crate::specs::Steps::marked_of))]
fn marked_of(
    params: &[Parameter],
    vars: usize,
    mark: &str,
    value: &Json,
) -> Result<Term, Failure<ProofFault>>
    ensures { Gives result (marked_of params.now vars mark.now (view value.now)) }
{
    if mark == "u" {
        let n = number_at(value)?;
        return Ok(Term::Unknown(n));
    }
    if mark == "p" {
        let name = text_at(ProofField::Steps, value)?;
        return param_of(params, name);
    }
    if mark == "v" {
        let n = number_at(value)?;
        return var_of(vars, n);
    }
    bad(ProofField::Steps)
}

fn pair_of(params: &[Parameter], vars: usize, items: &[Json]) -> Result<Term, Failure<ProofFault>>
    ensures { Gives result (pair_of params.now vars (map view items.now)) }
{
    let [mark, value] = items else {
        return bad(ProofField::Steps);
    };
    let it = text_at(ProofField::Steps, mark)?;
    marked_of(params, vars, it, value)
}

/// A whole number, a text, an unknown, a parameter or a variable. NULL is no term.
#[tactic(auto, unfolding(crate::specs::Steps::term_at))]
fn term_at(
    alloc: Global,
    params: &[Parameter],
    vars: usize,
    value: &Json,
) -> Result<Term, Failure<ProofFault>>
    ensures { Gives result (term_at params.now vars (view value.now)) }
{
    let given = given_value(alloc, value)?;
    match given {
        Given::Int(n) => Ok(Term::Val(Value::Int(n))),
        Given::Text(text) => Ok(Term::Val(Value::text(alloc, text)?)),
        Given::Other => {
            let items = list_at(ProofField::Steps, value)?;
            pair_of(params, vars, items)
        }
    }
}

/// The operator of the name; anything else is a bad field.
#[tactic(auto, unfolding(crate::specs::Steps::op_of))]
pub fn op_of(name: &str) -> Result<Op, Failure<ProofFault>>
    ensures { Gives result (op_of name.now) }
{
    if name == "=" {
        Ok(Op::Eq)
    } else if name == "<>" {
        Ok(Op::Ne)
    } else if name == "<" {
        Ok(Op::Lt)
    } else if name == "<=" {
        Ok(Op::Le)
    } else if name == "is null" {
        Ok(Op::IsNull)
    } else if name == "is not null" {
        Ok(Op::NotNull)
    } else {
        bad(ProofField::Steps)
    }
}

fn atom_of(
    alloc: Global,
    params: &[Parameter],
    vars: usize,
    items: &[Json],
) -> Result<TermAtom, Failure<ProofFault>>
    ensures { Gives result (atom_of params.now vars (map view items.now)) }
{
    let [op, left, right] = items else {
        return bad(ProofField::Steps);
    };
    let name = text_at(ProofField::Steps, op)?;
    let op = op_of(name)?;
    let left = term_at(alloc, params, vars, left)?;
    let right = term_at(alloc, params, vars, right)?;
    Ok(TermAtom { op, left, right })
}

/// A comparison of two terms, or IS NULL or IS NOT NULL of one, whose right side stands as it is.
pub(crate) fn atom_at(
    alloc: Global,
    params: &[Parameter],
    vars: usize,
    value: &Json,
) -> Result<TermAtom, Failure<ProofFault>>
    ensures { Gives result (atom_at params.now vars (view value.now)) }
{
    let items = list_at(ProofField::Steps, value)?;
    atom_of(alloc, params, vars, items)
}
