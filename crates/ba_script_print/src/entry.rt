//! The JSON of a script's entries.
ghost use Rattle.std.specs.Prelude.{◌≡◌, IfOk, slice_get};
ghost use Rattle.serde_json.specs.Data.{member, no_members, object, string};
ghost use Rattle.serde_json.specs.View.{view};
ghost use Rattle.ba_script_print.specs.ReadBack.{ContextHasBits, EntryHasBits, ValueHasBits};
ghost use Rattle.ba_script_print.specs.Texts.{arguments_of, ask_json, begin_json, context_json, entry_json, name_of, read_json, value_json};

use ba_model::{CacheKey, Context, Parameter, Str, Value};
use ba_script::ScriptEntry;
use serde_json::{Map, Value as Json, put};
use std::alloc::{AllocError, Global};

#[tactic(auto, unfolding(ba_lex::specs::Spelling::fits))]
fn value_json(alloc: Global, value: &Value) -> Result<Json, AllocError>
    ensures json { IfOk result (λ v. view v ≡ value_json value.now) }
    ensures bits { IfOk result (λ _. ValueHasBits value.now) }
{
    match value {
        Value::Null => Ok(Json::Null),
        Value::Int(n) => Ok(Json::from(*n)),
        Value::Text(text) => Json::try_from_str(alloc, text.as_str()),
    }
}

/// Each parameter with its value.
fn context_json(alloc: Global, params: &[Parameter], context: &Context) -> Result<Json, AllocError>
    ensures json { IfOk result (λ v. view v ≡ context_json params.now context.now) }
    ensures bits { IfOk result (λ _. ContextHasBits params.now context.now) }
{
    let mut members = Map::new(alloc);
    for (i, param) in params.iter().enumerate() {
        if let Some(value) = context.values.find(i) {
            let value = value_json(alloc, value)?;
            put(&mut members, alloc, param.name.as_str(), value)?;
        }
    }
    Ok(Json::Object(members))
}

/// An object with one text.
fn one_text(alloc: Global, key: &str, text: &Str) -> Result<Json, AllocError>
    ensures { IfOk result (λ v. view v ≡ object (member key.now (string text.now) no_members)) }
{
    let mut members = Map::new(alloc);
    put(
        &mut members,
        alloc,
        key,
        Json::try_from_str(alloc, text.as_str())?,
    )?;
    Ok(Json::Object(members))
}

#[tactic(auto, unfolding(crate::specs::Texts::begin_json))]
fn begin_json(
    alloc: Global,
    params: &[Parameter],
    name: &Str,
    context: &Context,
) -> Result<Json, AllocError>
    ensures json { IfOk result (λ v. view v ≡ begin_json params.now name.now context.now) }
    ensures bits { IfOk result (λ _. ContextHasBits params.now context.now) }
{
    let mut members = Map::new(alloc);
    let context = context_json(alloc, params, context)?;
    put(
        &mut members,
        alloc,
        "begin",
        Json::try_from_str(alloc, name.as_str())?,
    )?;
    put(&mut members, alloc, "context", context)?;
    Ok(Json::Object(members))
}

#[tactic(auto, unfolding(crate::specs::Texts::ask_json))]
fn ask_json(alloc: Global, name: &Str, query: &Str) -> Result<Json, AllocError>
    ensures { IfOk result (λ v. view v ≡ ask_json name.now query.now) }
{
    let mut members = Map::new(alloc);
    put(
        &mut members,
        alloc,
        "ask",
        Json::try_from_str(alloc, name.as_str())?,
    )?;
    put(
        &mut members,
        alloc,
        "query",
        Json::try_from_str(alloc, query.as_str())?,
    )?;
    Ok(Json::Object(members))
}

/// The name of a cache key and its arguments, if it is there.
fn key_parts(keys: &[CacheKey], key: usize) -> (&str, &[Parameter])
    ensures name { result.0.now ≡ name_of (slice_get keys.now key) }
    ensures arguments { result.1.now ≡ arguments_of (slice_get keys.now key) }
{
    match keys.get(key) {
        Some(key) => (key.name.as_str(), key.arguments.as_slice()),
        None => ("", &[]),
    }
}

#[tactic(auto, unfolding(crate::specs::Texts::read_json))]
fn read_json(
    alloc: Global,
    keys: &[CacheKey],
    name: &Str,
    key: usize,
    arguments: &Context,
) -> Result<Json, AllocError>
    ensures json { IfOk result (λ v. view v
        ≡ read_json name.now (slice_get keys.now key) arguments.now) }
    ensures bits { IfOk result (λ _.
        ContextHasBits (arguments_of (slice_get keys.now key)) arguments.now) }
{
    let (called, params) = key_parts(keys, key);
    let mut members = Map::new(alloc);
    let context = context_json(alloc, params, arguments)?;
    put(&mut members, alloc, "args", context)?;
    put(
        &mut members,
        alloc,
        "key",
        Json::try_from_str(alloc, called)?,
    )?;
    put(
        &mut members,
        alloc,
        "read",
        Json::try_from_str(alloc, name.as_str())?,
    )?;
    Ok(Json::Object(members))
}

/// The JSON of an entry, under a policy's parameters and cache keys.
pub(crate) fn entry_json(
    alloc: Global,
    params: &[Parameter],
    keys: &[CacheKey],
    entry: &ScriptEntry,
) -> Result<Json, AllocError>
    ensures json { IfOk result (λ v. view v ≡ entry_json params.now keys.now entry.now) }
    ensures bits { IfOk result (λ _. EntryHasBits params.now keys.now entry.now) }
{
    match entry {
        ScriptEntry::Begin { name, context, .. } => begin_json(alloc, params, name, context),
        ScriptEntry::Ask { name, query, .. } => ask_json(alloc, name, query),
        ScriptEntry::Read {
            name,
            key,
            arguments,
            ..
        } => read_json(alloc, keys, name, *key, arguments),
        ScriptEntry::End { name, .. } => one_text(alloc, "end", name),
        ScriptEntry::Publish { set, .. } => one_text(alloc, "publish", set),
    }
}
