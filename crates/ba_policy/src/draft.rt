//! What statements declare, in order.
ghost use Rattle.std.specs.Prelude.{◌≡◌, ◌+◌, ◌≤◌, ◌||◌, All, IfOk, OnOk, length, map, nat_lt};
ghost use Rattle.std.specs.List.{list_any};
ghost use Rattle.ba_model.specs.Fit.{PolicyFits};
ghost use Rattle.ba_model.specs.Readings.{Gives, Sees};
ghost use Rattle.ba_model.specs.Limits.{most_cache_keys, most_params, most_views};
ghost use Rattle.ba_policy.specs.Meaning.{DraftFits, IsSmall, KeysFit, added, all_added, excess, finished, key_added, many_arguments, many_queries, nothing, param_added, params_in, view_added};
ghost use Rattle.ba_policy.specs.Statements.{seen};

use crate::cache_key::{as_parameters, first_repeat, read_queries, scope_of};
use crate::error::PolicyFault;
use crate::names::Names;
use crate::statement::{Argument, Statement};
use ba_lex::Lexeme;
use ba_model::{
    CacheKey, Counted, Duplicate, Failure, Kind, List, MAX_CACHE_KEYS, MAX_KEY_QUERIES, MAX_PARAMS,
    MAX_VIEWS, Parameter, Policy, Schema, Shared, Str, View,
};
use ba_sql_query::read_words;
use std::alloc::{AllocError, Global};

/// The parameters, views and cache keys so far, and their names. After a refusal it is of no use.
#[derive(Drop)]
pub struct Draft {
    params: List<Parameter>,
    views: List<View>,
    keys: List<CacheKey>,
    param_names: Names,
    view_names: Names,
    key_names: Names,
}

fn new_draft(alloc: Global) -> Draft
    ensures { result ≡ nothing }
{
    Draft {
        params: List::new(alloc),
        views: List::new(alloc),
        keys: List::new(alloc),
        param_names: Names::new(alloc),
        view_names: Names::new(alloc),
        key_names: Names::new(alloc),
    }
}

fn add_param(
    alloc: Global,
    draft: &mut Draft,
    name: &Str,
    kind: Kind,
) -> Result<(), Failure<PolicyFault>>
    ensures { Sees (λ _. draft.new) result (param_added draft.old name.now kind) }
{
    let is_new = draft.param_names.add(alloc, name)?;
    let name = name.copy(alloc)?;
    if !is_new {
        return Err(Failure::Fault(PolicyFault::DuplicateParam(name)));
    }
    draft.params.push(Parameter { name, kind })?;
    Ok(())
}

fn add_view(
    alloc: Global,
    schema: &Schema,
    draft: &mut Draft,
    name: &Str,
    words: &[Lexeme],
) -> Result<(), Failure<PolicyFault>>
    requires { DraftFits schema.now draft.old }
    ensures exact { Sees (λ _. draft.new) result
        (view_added schema.now draft.old name.now words.now) }
    ensures fits { OnOk result (DraftFits schema.now draft.new) }
{
    let is_new = draft.view_names.add(alloc, name)?;
    let name = name.copy(alloc)?;
    if !is_new {
        return Err(Failure::Fault(PolicyFault::DuplicateView(name)));
    }
    match read_words(alloc, schema, &draft.params, words) {
        Ok(query) => {
            draft.views.push(View { name, query })?;
            Ok(())
        }
        Err(Failure::NoMemory) => Err(Failure::NoMemory),
        Err(Failure::Fault(fault)) => Err(Failure::Fault(PolicyFault::View(name, fault))),
    }
}

fn add_key(
    alloc: Global,
    schema: &Schema,
    all: &[Parameter],
    draft: &mut Draft,
    name: &Str,
    arguments: &[Argument],
    queries: &[&[Lexeme]],
) -> Result<(), Failure<PolicyFault>>
    requires { KeysFit schema.now all.now draft.old.keys }
    ensures exact { Sees (λ _. draft.new) result
        (key_added schema.now all.now draft.old name.now arguments.now (map (λ words. words.now) queries.now)) }
    ensures fits { OnOk result (KeysFit schema.now all.now draft.new.keys) }
{
    if let Some(repeated) = first_repeat(alloc, &draft.param_names, arguments)? {
        return Err(Failure::Fault(PolicyFault::DuplicateParam(repeated)));
    }
    let is_new = draft.key_names.add(alloc, name)?;
    let name = name.copy(alloc)?;
    if !is_new {
        return Err(Failure::Fault(PolicyFault::DuplicateKey(name)));
    }
    let scope = scope_of(alloc, all, draft.params.len(), arguments)?;
    match read_queries(alloc, schema, &scope, queries) {
        Ok(queries) => {
            let arguments = as_parameters(alloc, arguments)?;
            draft.keys.push(CacheKey {
                name,
                arguments,
                queries,
            })?;
            Ok(())
        }
        Err(Failure::NoMemory) => Err(Failure::NoMemory),
        Err(Failure::Fault(fault)) => Err(Failure::Fault(PolicyFault::Key(name, fault))),
    }
}

fn add(
    alloc: Global,
    schema: &Schema,
    all: &[Parameter],
    draft: &mut Draft,
    statement: &Statement<'_>,
) -> Result<(), Failure<PolicyFault>>
    requires views { DraftFits schema.now draft.old }
    requires keys { KeysFit schema.now all.now draft.old.keys }
    ensures exact { Sees (λ _. draft.new) result
        (added schema.now all.now draft.old (seen statement.now)) }
    ensures fits { OnOk result (DraftFits schema.now draft.new) }
    ensures keys_fit { OnOk result (KeysFit schema.now all.now draft.new.keys) }
{
    match statement {
        Statement::Param { name, kind } => add_param(alloc, draft, name, *kind),
        Statement::View { name, words } => add_view(alloc, schema, draft, name, words),
        Statement::Key {
            name,
            arguments,
            queries,
        } => add_key(
            alloc,
            schema,
            all,
            draft,
            name,
            arguments.as_slice(),
            queries.as_slice(),
        ),
    }
}

// The parameters that the statements declare, in order.
fn params_in(alloc: Global, statements: &[Statement<'_>]) -> Result<List<Parameter>, AllocError>
    ensures { IfOk result (λ found. found ≡ params_in (map seen statements.now)) }
{
    let mut found = List::new(alloc);
    for statement in statements {
        if let Statement::Param { name, kind } = statement {
            let name = name.copy(alloc)?;
            found.push(Parameter { name, kind: *kind })?;
        }
    }
    Ok(found)
}

// What the statements declare, where the policy's parameters are all, or the first fault.
fn add_all(
    alloc: Global,
    schema: &Schema,
    all: &[Parameter],
    statements: &[Statement<'_>],
) -> Result<Draft, Failure<PolicyFault>>
    ensures exact { Gives result
        (all_added schema.now all.now nothing (map seen statements.now)) }
    ensures fits { IfOk result (DraftFits schema.now) }
    ensures keys { IfOk result (λ draft. KeysFit schema.now all.now draft.keys) }
{
    let mut draft = new_draft(alloc);
    for statement in statements {
        add(alloc, schema, all, &mut draft, statement)?;
    }
    Ok(draft)
}

/// What the statements declare, or the first fault.
pub fn draft_of(
    alloc: Global,
    schema: &Schema,
    statements: &[Statement<'_>],
) -> Result<Draft, Failure<PolicyFault>>
    ensures exact { Gives result
        (all_added schema.now (params_in (map seen statements.now)) nothing (map seen statements.now)) }
    ensures fits { IfOk result (DraftFits schema.now) }
    ensures keys { IfOk result (λ draft. KeysFit schema.now draft.params draft.keys) }
{
    let all = params_in(alloc, statements)?;
    add_all(alloc, schema, all.as_slice(), statements)
}

fn has_many_queries(keys: &[CacheKey]) -> bool
    ensures { result ≡ list_any many_queries keys.now }
{
    keys.iter().any(|key| key.queries.len() > MAX_KEY_QUERIES)
}

// Whether so many parameters and arguments are more than the limit.
fn are_many(params: usize, arguments: usize) -> bool
    ensures { result ≡ nat_lt most_params (params + arguments) }
{
    match params.checked_add(arguments) {
        Some(count) => count > MAX_PARAMS,
        None => true,
    }
}

fn has_many_arguments(params: usize, keys: &[CacheKey]) -> bool
    ensures { result ≡ list_any (λ key. nat_lt most_params (params + length key.arguments)) keys.now }
{
    keys.iter().any(|key| are_many(params, key.arguments.len()))
}

fn has_many_params(draft: &Draft) -> bool
    ensures { result ≡ (nat_lt most_params (length draft.now.params) || list_any (many_arguments draft.now.params) draft.now.keys) }
{
    draft.params.len() > MAX_PARAMS || has_many_arguments(draft.params.len(), draft.keys.as_slice())
}

// The fault of the count that is above its limit, if one is.
fn excess(draft: &Draft) -> Option<PolicyFault>
    ensures { result ≡ excess draft.now }
{
    if draft.views.len() > MAX_VIEWS {
        return Some(PolicyFault::TooMany {
            what: Counted::Views,
            limit: MAX_VIEWS as u64,
        });
    }
    if draft.keys.len() > MAX_CACHE_KEYS {
        return Some(PolicyFault::TooMany {
            what: Counted::CacheKeys,
            limit: MAX_CACHE_KEYS as u64,
        });
    }
    if has_many_queries(draft.keys.as_slice()) {
        return Some(PolicyFault::TooMany {
            what: Counted::KeyQueries,
            limit: MAX_KEY_QUERIES as u64,
        });
    }
    if has_many_params(draft) {
        return Some(PolicyFault::TooMany {
            what: Counted::Params,
            limit: MAX_PARAMS as u64,
        });
    }
    None
}

/// The policy, if its counts are within the limits.
pub fn finish(
    alloc: Global,
    schema: &Shared<Schema>,
    draft: Draft,
) -> Result<Policy, Failure<PolicyFault>>
    requires views { DraftFits schema.now draft }
    requires keys { KeysFit schema.now draft.params draft.keys }
    ensures exact { Gives result (finished schema.now draft) }
    ensures fits { IfOk result PolicyFits }
    ensures views { IfOk result (λ policy. length policy.views ≤ most_views) }
    ensures params { IfOk result (λ policy. length policy.params ≤ most_params) }
    ensures keys { IfOk result (λ policy. length policy.keys ≤ most_cache_keys) }
    ensures small { IfOk result (λ policy. All (IsSmall policy.params) policy.keys) }
{
    if let Some(fault) = excess(&draft) {
        return Err(Failure::Fault(fault));
    }
    let schema = schema.copy(alloc)?;
    Ok(Policy {
        schema,
        params: draft.params,
        views: draft.views,
        keys: draft.keys,
    })
}
