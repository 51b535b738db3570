//! The values that a begin line gives the parameters.
ghost use Rattle.std.specs.Prelude.{◌≡◌, IfOk};
ghost use Rattle.std.specs.List.{list_all, list_any};
ghost use Rattle.std.specs.Option.{option_copied};
ghost use Rattle.ba_model.specs.declared.value.Value.TheVariants.{Text};
ghost use Rattle.ba_script.specs.Contexts.{are_declared, context_of, given_for, is_called, is_declared, is_named, of_kind, value_for, values_for};

use crate::line::{Given, Member};
use ba_model::{Context, Duplicate, Kind, List, Parameter, Str, Value};
use std::alloc::{AllocError, Global};

fn is_named(name: &Str, param: &Parameter) -> bool
    ensures { result ≡ is_named name.now param.now }
{
    param.name.as_bytes() == name.as_bytes()
}

#[tactic(auto, unfolding(crate::specs::Contexts::is_declared))]
fn is_declared(params: &[Parameter], member: &Member) -> bool
    ensures { result ≡ is_declared params.now member.now }
{
    params.iter().any(|param| is_named(&member.name, param))
}

fn are_declared(params: &[Parameter], members: &[Member]) -> bool
    ensures { result ≡ are_declared params.now members.now }
{
    members.iter().all(|member| is_declared(params, member))
}

#[tactic(auto, unfolding(crate::specs::Contexts::is_called))]
fn is_called(name: &Str, member: &Member) -> bool
    ensures { result ≡ is_called name.now member.now }
{
    member.name.as_bytes() == name.as_bytes()
}

fn given_for<'a>(name: &Str, members: &'a [Member]) -> Option<&'a Given>
    ensures { option_copied result ≡ given_for name.now members.now }
{
    for member in members {
        if is_called(name, member) {
            return Some(&member.value);
        }
    }
    None
}

fn text_value(alloc: Global, text: &Str) -> Result<Value, AllocError>
    ensures { IfOk result (λ value. value ≡ Text text.now) }
{
    let copy = text.copy(alloc)?;
    Value::text(alloc, copy)
}

/// The value of the kind that is given, if it is one. What is neither a text nor a whole number of
/// 64 bits, as `null`, is of no kind: a parameter is never NULL.
pub fn of_kind(alloc: Global, kind: Kind, given: &Given) -> Result<Option<Value>, AllocError>
    ensures { IfOk result (λ value. value ≡ of_kind kind given.now) }
{
    match (kind, given) {
        (Kind::Int, Given::Int(n)) => Ok(Some(Value::Int(*n))),
        (Kind::Text, Given::Text(text)) => Ok(Some(text_value(alloc, text)?)),
        _ => Ok(None),
    }
}

fn value_for(
    alloc: Global,
    members: &[Member],
    param: &Parameter,
) -> Result<Option<Value>, AllocError>
    ensures { IfOk result (λ value. value ≡ value_for members.now param.now) }
{
    match given_for(&param.name, members) {
        Some(given) => of_kind(alloc, param.kind, given),
        None => Ok(None),
    }
}

fn values_for(
    alloc: Global,
    members: &[Member],
    params: &[Parameter],
) -> Result<Option<List<Value>>, AllocError>
    ensures { IfOk result (λ values. values ≡ values_for members.now params.now) }
{
    let mut values = List::new(alloc);
    for param in params {
        let found = value_for(alloc, members, param)?;
        let Some(value) = found else {
            return Ok(None);
        };
        values.push(value)?;
    }
    Ok(Some(values))
}

/// A value of its kind for each parameter, where the members are these and no others. The time is
/// of the order of the members' and the parameters' numbers multiplied.
#[tactic(auto, unfolding(crate::specs::Contexts::context_of))]
pub fn context_of(
    alloc: Global,
    params: &[Parameter],
    members: &[Member],
) -> Result<Option<Context>, AllocError>
    ensures { IfOk result (λ context. context ≡ context_of params.now members.now) }
{
    if !are_declared(params, members) {
        return Ok(None);
    }
    let found = values_for(alloc, members, params)?;
    match found {
        Some(values) => Ok(Some(Context { values })),
        None => Ok(None),
    }
}
