//! The arguments and queries of cache keys.
ghost use Rattle.std.specs.Prelude.{◌≡◌, [], ◌∷◌, ◌++◌, All, false, IfOk, drop, if◌then◌else◌, map, take};
ghost use Rattle.std.specs.List.{list_any};
ghost use Rattle.ba_model.specs.Fit.{IsQuery, kinds_of};
ghost use Rattle.ba_model.specs.Readings.{Gives};
ghost use Rattle.ba_policy.specs.Meaning.{first_repeat, queries_of, same_name, scope_of, unnamed};

use crate::names::Names;
use crate::statement::Argument;
use ba_lex::Lexeme;
use ba_model::{Duplicate, Failure, List, Parameter, Query, Schema, Str};
use ba_sql_query::{ReadQueryFault, read_words};
use std::alloc::{AllocError, Global};

// Whether the name is one of the parameters or of the arguments before it, to which it is added.
fn is_repeated(
    alloc: Global,
    params: &Names,
    before: &mut Names,
    name: &Str,
) -> Result<bool, AllocError>
    ensures found { IfOk result (λ found. found ≡ list_any (same_name name.now) (params.now ++ before.old)) }
    ensures added { IfOk result (λ found. found ≡ false → before.new ≡ before.old ++ name.now ∷ []) }
{
    let is_new = before.add(alloc, name)?;
    Ok(params.has(name) || !is_new)
}

/// The name of the first argument that is one of the parameters' names or the name of an argument before it.
pub fn first_repeat(
    alloc: Global,
    params: &Names,
    arguments: &[Argument],
) -> Result<Option<Str>, AllocError>
    ensures { IfOk result (λ name. name ≡ first_repeat params.now arguments.now) }
{
    let mut before = Names::new(alloc);
    for argument in arguments {
        if is_repeated(alloc, params, &mut before, &argument.parameter.name)? {
            return Ok(Some(argument.parameter.name.copy(alloc)?));
        }
    }
    Ok(None)
}

// The parameter, with its name if it may be named.
fn named(alloc: Global, parameter: &Parameter, may_be: bool) -> Result<Parameter, AllocError>
    ensures { IfOk result (λ it. it ≡ (if may_be then parameter.now else unnamed parameter.now)) }
{
    if may_be {
        return parameter.copy(alloc);
    }
    let name = Str::new(alloc, "")?;
    Ok(Parameter {
        name,
        kind: parameter.kind,
    })
}

// The policy's parameters, the first of them with their names.
fn declared(alloc: Global, all: &[Parameter], count: usize) -> Result<List<Parameter>, AllocError>
    ensures { IfOk result (λ found. found ≡ take count all.now ++ map unnamed (drop count all.now)) }
{
    let mut found = List::new(alloc);
    for at in 0..all.len() {
        let it = named(alloc, &all[at], at < count)?;
        found.push(it)?;
    }
    Ok(found)
}

/// The arguments, as parameters.
pub fn as_parameters(alloc: Global, arguments: &[Argument]) -> Result<List<Parameter>, AllocError>
    ensures { IfOk result (λ found. found ≡ arguments.now) }
{
    let mut found = List::new(alloc);
    for argument in arguments {
        let it = argument.parameter.copy(alloc)?;
        found.push(it)?;
    }
    Ok(found)
}

/// What the queries of a key may name, of the policy's parameters the first of this count.
pub fn scope_of(
    alloc: Global,
    all: &[Parameter],
    count: usize,
    arguments: &[Argument],
) -> Result<List<Parameter>, AllocError>
    ensures { IfOk result (λ scope. scope ≡ scope_of all.now count arguments.now) }
{
    let mut scope = declared(alloc, all, count)?;
    for argument in arguments {
        let it = argument.parameter.copy(alloc)?;
        scope.push(it)?;
    }
    Ok(scope)
}

/// The queries that the words are, or the fault of the first that are none.
pub fn read_queries(
    alloc: Global,
    schema: &Schema,
    scope: &List<Parameter>,
    texts: &[&[Lexeme]],
) -> Result<List<Query>, Failure<ReadQueryFault>>
    ensures exact { Gives result
        (queries_of schema.now scope.now (map (λ words. words.now) texts.now)) }
    ensures fit { IfOk result (All (IsQuery schema.now (kinds_of scope.now) [])) }
{
    let mut queries = List::new(alloc);
    for words in texts {
        let query = read_words(alloc, schema, scope, words)?;
        queries.push(query)?;
    }
    Ok(queries)
}
