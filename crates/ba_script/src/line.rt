//! One line of a script.
ghost use Rattle.std.specs.Prelude.{◌≡◌, IfOk};
ghost use Rattle.serde_json.specs.View.{view, members_view};
ghost use Rattle.ba_model.specs.Readings.{Gives};
ghost use Rattle.ba_script.specs.Script.{context_at, given_members, given_of, line_at, name_at, one_at, script_line_of, set_at, text_at, three_at, two_at};

use crate::fault::LineFault;
use ba_model::{Failure, List, MAX_NAME_BYTES, Str};
use serde_json::{Map, Value};
use std::alloc::{AllocError, Global};

/// The value that a context gives.
#[derive(Debug, Drop)]
pub enum Given {
    /// A whole number from -2^63 to 2^63 - 1, written without a point or an exponent, and not `-0`.
    Int(i64),
    Text(Str),
    /// Anything else, `null` too, which is a value of no kind.
    Other,
}

/// A name of a context and its value.
#[derive(Debug, Drop)]
pub struct Member {
    pub name: Str,
    pub value: Given,
}

/// One line of a script. The names of requests have 1 to 64 bytes.
#[derive(Debug, Drop)]
pub enum ScriptLine {
    /// `{"begin":NAME,"context":{PARAM:value,..}}`: the context has each name once, in the order of
    /// their bytes.
    Begin {
        begin: Str,
        context: List<Member>,
    },
    /// `{"ask":NAME,"query":TEXT}`
    Ask {
        ask: Str,
        query: Str,
    },
    /// `{"args":{ARGUMENT:value,..},"key":KEY,"read":NAME}`: the arguments as a context; the name
    /// of a cache key may have any length.
    Read {
        read: Str,
        key: Str,
        args: List<Member>,
    },
    /// `{"end":NAME}`
    End {
        end: Str,
    },
    /// `{"publish":SET}`: the name of a table set isn't empty, and may have any length.
    Publish {
        publish: Str,
    },
}

/// The line that bytes without their line feed are, else `Json` or `Shape`. Where an object has a
/// key twice, its last value counts.
pub fn read_line(alloc: Global, bytes: &[u8]) -> Result<ScriptLine, Failure<LineFault>>
    ensures { Gives result (script_line_of bytes.now) }
{
    match Value::from_slice(alloc, bytes) {
        Ok(value) => line_of(alloc, &value),
        Err(e) => {
            if e.is_memory() {
                Err(Failure::NoMemory)
            } else {
                Err(Failure::Fault(LineFault::Json))
            }
        }
    }
}

fn line_of(alloc: Global, value: &Value) -> Result<ScriptLine, Failure<LineFault>>
    ensures { Gives result (line_at (view value.now)) }
{
    let Some(map) = value.as_object() else {
        return Err(Failure::Fault(LineFault::Shape));
    };
    let mut members = map.iter();
    let Some((first, head)) = members.next() else {
        return Err(Failure::Fault(LineFault::Shape));
    };
    match members.next() {
        None => one_member(alloc, first.as_str(), head),
        Some((second, middle)) => match members.next() {
            None => two_members(alloc, first.as_str(), head, second.as_str(), middle),
            Some((third, tail)) => match members.next() {
                None => three_members(
                    alloc,
                    first.as_str(),
                    head,
                    second.as_str(),
                    middle,
                    third.as_str(),
                    tail,
                ),
                Some(_) => Err(Failure::Fault(LineFault::Shape)),
            },
        },
    }
}

#[tactic(auto, unfolding(crate::specs::Script::one_at))]
fn one_member(alloc: Global, key: &str, value: &Value) -> Result<ScriptLine, Failure<LineFault>>
    ensures { Gives result (one_at key.now (view value.now)) }
{
    if key == "end" {
        let end = name_of(alloc, value)?;
        return Ok(ScriptLine::End { end });
    }
    if key == "publish" {
        let publish = set_of(alloc, value)?;
        return Ok(ScriptLine::Publish { publish });
    }
    Err(Failure::Fault(LineFault::Shape))
}

#[tactic(auto, unfolding(crate::specs::Script::two_at))]
fn two_members(
    alloc: Global,
    first: &str,
    head: &Value,
    second: &str,
    tail: &Value,
) -> Result<ScriptLine, Failure<LineFault>>
    ensures { Gives result (two_at first.now (view head.now) second.now (view tail.now)) }
{
    if first == "ask" && second == "query" {
        let ask = name_of(alloc, head)?;
        let query = text_of(alloc, tail)?;
        return Ok(ScriptLine::Ask { ask, query });
    }
    if first == "begin" && second == "context" {
        let begin = name_of(alloc, head)?;
        let context = context_of(alloc, tail)?;
        return Ok(ScriptLine::Begin { begin, context });
    }
    Err(Failure::Fault(LineFault::Shape))
}

#[tactic(auto, unfolding(crate::specs::Script::three_at))]
fn three_members(
    alloc: Global,
    first: &str,
    head: &Value,
    second: &str,
    middle: &Value,
    third: &str,
    tail: &Value,
) -> Result<ScriptLine, Failure<LineFault>>
    ensures { Gives result (three_at first.now (view head.now) second.now (view middle.now)
        third.now (view tail.now)) }
{
    if first == "args" && second == "key" && third == "read" {
        let args = context_of(alloc, head)?;
        let key = text_of(alloc, middle)?;
        let read = name_of(alloc, tail)?;
        return Ok(ScriptLine::Read { read, key, args });
    }
    Err(Failure::Fault(LineFault::Shape))
}

fn text_of(alloc: Global, value: &Value) -> Result<Str, Failure<LineFault>>
    ensures { Gives result (text_at (view value.now)) }
{
    match value.as_str() {
        Some(text) => Ok(Str::new(alloc, text)?),
        None => Err(Failure::Fault(LineFault::Shape)),
    }
}

#[tactic(auto, unfolding(crate::specs::Script::name_at))]
fn name_of(alloc: Global, value: &Value) -> Result<Str, Failure<LineFault>>
    ensures { Gives result (name_at (view value.now)) }
{
    let text = text_of(alloc, value)?;
    if text.is_empty() || text.len() > MAX_NAME_BYTES {
        return Err(Failure::Fault(LineFault::Shape));
    }
    Ok(text)
}

#[tactic(auto, unfolding(crate::specs::Script::set_at))]
fn set_of(alloc: Global, value: &Value) -> Result<Str, Failure<LineFault>>
    ensures { Gives result (set_at (view value.now)) }
{
    let text = text_of(alloc, value)?;
    if text.is_empty() {
        return Err(Failure::Fault(LineFault::Shape));
    }
    Ok(text)
}

fn context_of(alloc: Global, value: &Value) -> Result<List<Member>, Failure<LineFault>>
    ensures { Gives result (context_at (view value.now)) }
{
    match value.as_object() {
        Some(members) => Ok(read_members(alloc, members)?),
        None => Err(Failure::Fault(LineFault::Shape)),
    }
}

/// Each member of an object with its value, in the order of the names.
pub fn read_members(alloc: Global, members: &Map<String, Value>) -> Result<List<Member>, AllocError>
    ensures { IfOk result (λ list. list ≡ given_members (members_view members.now.entries)) }
{
    let mut list = List::new(alloc);
    for (name, value) in members.iter() {
        let name = Str::new(alloc, name.as_str())?;
        let value = given_value(alloc, value)?;
        list.push(Member { name, value })?;
    }
    Ok(list)
}

/// A text, a whole number of 64 bits with a sign, or anything else, as `null` is.
pub fn given_value(alloc: Global, value: &Value) -> Result<Given, AllocError>
    ensures { IfOk result (λ it. it ≡ given_of (view value.now)) }
{
    if let Some(text) = value.as_str() {
        return Ok(Given::Text(Str::new(alloc, text)?));
    }
    match value.as_i64() {
        Some(n) => Ok(Given::Int(n)),
        None => Ok(Given::Other),
    }
}
