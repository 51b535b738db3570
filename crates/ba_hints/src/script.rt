//! Lines of a script that are none.

use crate::hint::{Hint, Spot, listed};
use crate::lines::{json_text, line_at};
use ba_model::{CacheKey, Counted, Failure, Kind, List, Parameter, Str};
use ba_place::{WORD_CHARS, shown};
use ba_script::{
    Given, LineFault, Member, ScriptFault, ScriptLine, read_line, read_script, script_lines,
};
use serde_json::Value;
use std::alloc::{AllocError, Global};

/// The lines at which a request of a name began and ended last.
#[derive(Clone, Copy)]
struct Life {
    begun: u64,
    ended: u64,
}

// What became of the requests of a name before a line.
fn life_before(alloc: Global, bytes: &[u8], line: u64, name: &Str) -> Result<Life, AllocError> {
    let mut life = Life { begun: 0, ended: 0 };
    let mut number = 0u64;
    for found in script_lines(bytes) {
        number = number.saturating_add(1);
        if number >= line {
            break;
        }
        let read = read_line(alloc, found);
        match &read {
            Ok(ScriptLine::Begin { begin, .. }) if begin.as_str() == name.as_str() => {
                life.begun = number;
            }
            Ok(ScriptLine::End { end }) if end.as_str() == name.as_str() => life.ended = number,
            Err(Failure::NoMemory) => return Err(AllocError),
            _ => {}
        }
    }
    Ok(life)
}

// Why a JSON value is no line.
fn shape_text(alloc: Global, line: &[u8]) -> Result<String, AllocError> {
    let Ok(value) = Value::from_slice(alloc, line) else {
        return Err(AllocError);
    };
    let Some(members) = value.as_object() else {
        return String::from_str(alloc, "it is no object");
    };
    let mut keys = Vec::new(alloc);
    for (key, _) in members.iter() {
        keys.push(key.as_str())?;
    }
    match keys.as_slice() {
        ["begin", "context"] => String::from_str(
            alloc,
            "begin takes a name of 1 to 64 bytes, and context an object",
        ),
        ["ask", "query"] => {
            String::from_str(alloc, "ask takes a name of 1 to 64 bytes, and query a text")
        }
        ["args", "key", "read"] => String::from_str(
            alloc,
            "read takes a name of 1 to 64 bytes, key a text, and args an object",
        ),
        ["end"] => String::from_str(alloc, "end takes a name of 1 to 64 bytes"),
        ["publish"] => String::from_str(alloc, "publish takes a text that isn't empty"),
        _ => {
            let keys = listed(alloc, &keys)?;
            format!(in alloc;
                "its keys are {keys}; a line has begin and context, ask and query, args, key and read, end alone, or publish alone"
            )
        }
    }
}

// Why a line doesn't follow the lines before it.
fn name_text(alloc: Global, bytes: &[u8], line: u64, found: &[u8]) -> Result<String, AllocError> {
    let Ok(read) = read_line(alloc, found) else {
        return Err(AllocError);
    };
    let name = match &read {
        ScriptLine::Begin { begin, .. } => begin,
        ScriptLine::Ask { ask, .. } => ask,
        ScriptLine::Read { read, .. } => read,
        ScriptLine::End { end } => end,
        ScriptLine::Publish { publish } => publish,
    };
    let life = life_before(alloc, bytes, line, name)?;
    let name = shown(alloc, name.as_bytes(), WORD_CHARS)?;
    if life.begun > life.ended {
        format!(in alloc;
            "{name} is open since line {}: end it before it begins again",
            life.begun
        )
    } else if life.begun > 0 {
        format!(in alloc; "{name} isn't open: it ended at line {}", life.ended)
    } else {
        format!(in alloc; "{name} isn't open: no line before begins it")
    }
}

// Why the members are no value for a parameter of the context, or for an argument of a key: `what`
// says of which.
fn value_text(
    alloc: Global,
    what: &str,
    param: &Parameter,
    members: &[Member],
) -> Result<Option<String>, AllocError> {
    for member in members {
        if member.name.as_str() == param.name.as_str() {
            let is_right = match (param.kind, &member.value) {
                (Kind::Int, Given::Int(_)) | (Kind::Text, Given::Text(_)) => true,
                _ => false,
            };
            if is_right {
                return Ok(None);
            }
            let kind = match param.kind {
                Kind::Int => "a whole number of 64 bits, without quotes, a point or an exponent",
                Kind::Text => "a text",
            };
            let text = format!(in alloc; "{what}'s {} takes {kind}", param.name)?;
            return Ok(Some(text));
        }
    }
    let text = format!(in alloc; "{what} lacks {}", param.name)?;
    Ok(Some(text))
}

// The first member that is no parameter.
fn stranger<'a>(params: &[&str], members: &'a [Member]) -> Option<&'a Str> {
    for member in members {
        if !(&*params).contains(&member.name.as_str()) {
            return Some(&member.name);
        }
    }
    None
}

// Why members give no values to parameters.
fn values_text(
    alloc: Global,
    what: &str,
    params: &[Parameter],
    members: &[Member],
) -> Result<String, AllocError> {
    let mut names = Vec::new(alloc);
    for param in params {
        names.push(param.name.as_str())?;
    }
    if let Some(name) = stranger(&names, members) {
        let name = shown(alloc, name.as_bytes(), WORD_CHARS)?;
        let names = listed(alloc, &names)?;
        return format!(in alloc; "{what}'s {name} is none of its names, which are {names}");
    }
    for param in params {
        let text = value_text(alloc, what, param, members)?;
        if let Some(text) = text {
            return Ok(text);
        }
    }
    format!(in alloc; "{what} doesn't fit the policy")
}

// Why a context gives no values to the parameters.
fn context_text(alloc: Global, params: &[Parameter], found: &[u8]) -> Result<String, AllocError> {
    let Ok(ScriptLine::Begin { context, .. }) = read_line(alloc, found) else {
        return Err(AllocError);
    };
    values_text(alloc, "the context", params, context.as_slice())
}

// Which keys there are, where a line reads another.
fn key_text(alloc: Global, keys: &[CacheKey], found: &[u8]) -> Result<String, AllocError> {
    let Ok(ScriptLine::Read { key, .. }) = read_line(alloc, found) else {
        return Err(AllocError);
    };
    let mut names = Vec::new(alloc);
    for it in keys {
        names.push(it.name.as_str())?;
    }
    let name = shown(alloc, key.as_bytes(), WORD_CHARS)?;
    let names = listed(alloc, &names)?;
    format!(in alloc; "{name} is no cache key of the policy; the keys are {names}")
}

// Why a read gives no values to the arguments of its key.
fn args_text(alloc: Global, keys: &[CacheKey], found: &[u8]) -> Result<String, AllocError> {
    let Ok(ScriptLine::Read { key, args, .. }) = read_line(alloc, found) else {
        return Err(AllocError);
    };
    for it in keys {
        if it.name.as_str() == key.as_str() {
            return values_text(alloc, "args", it.arguments.as_slice(), args.as_slice());
        }
    }
    String::from_str(alloc, "args don't fit the cache key")
}

// What there are too many of.
fn count_text(what: Counted) -> &'static str {
    match what {
        Counted::Lines => "lines",
        Counted::Requests => "requests",
        _ => "questions of one request",
    }
}

// Why a line is none.
fn line_text(
    alloc: Global,
    params: &[Parameter],
    keys: &[CacheKey],
    bytes: &[u8],
    line: u64,
    reason: LineFault,
) -> Result<String, AllocError> {
    let found = line_at(bytes, line);
    match reason {
        LineFault::Json => json_text(alloc, found),
        LineFault::Shape => shape_text(alloc, found),
        LineFault::Begun | LineFault::Unbegun => name_text(alloc, bytes, line, found),
        LineFault::Key => key_text(alloc, keys, found),
        LineFault::Args => args_text(alloc, keys, found),
        LineFault::Context => context_text(alloc, params, found),
    }
}

/// A hint on why bytes are no script for parameters and cache keys, if they are none.
pub fn script_hint(
    alloc: Global,
    params: &List<Parameter>,
    keys: &List<CacheKey>,
    bytes: &[u8],
) -> Result<Option<Hint>, AllocError> {
    match read_script(alloc, params, keys, bytes) {
        Ok(_) => Ok(None),
        Err(Failure::NoMemory) => Err(AllocError),
        Err(Failure::Fault(ScriptFault::BadLine { line, reason })) => {
            let text = line_text(
                alloc,
                params.as_slice(),
                keys.as_slice(),
                bytes,
                line,
                reason,
            )?;
            let spot = Spot::Line(line);
            Ok(Some(Hint { spot, text }))
        }
        Err(Failure::Fault(ScriptFault::TooMany { what, limit })) => {
            let what = count_text(what);
            let text = format!(in alloc; "there are more than {limit} {what}")?;
            Ok(Some(Hint::plain(alloc, text.as_str())?))
        }
    }
}
