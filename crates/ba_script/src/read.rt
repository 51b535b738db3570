//! Reads a script.
ghost use Rattle.std.specs.Prelude.{◌≡◌, ◌<◌, ◌≤◌, [], IfOk, length};
ghost use Rattle.ba_model.specs.Readings.{Gives, widened};
ghost use Rattle.ba_model.specs.Limits.{most_lines};
ghost use Rattle.ba_script.specs.Lines.{script_lines};
ghost use Rattle.ba_script.specs.Reading.{entries_from, script_of};
ghost use Rattle.ba_script.specs.Script.{script_line_of};
ghost use Rattle.ba_script.specs.Scripts.{IsScript};
ghost use Rattle.ba_script.specs.Tracking.{Moves, kept_entry_at, kept_entry_of};

use crate::entry::{Script, ScriptEntry};
use crate::fault::ScriptFault;
use crate::line::{ScriptLine, read_line};
use crate::lines::{Lines, count_lines, script_lines};
use crate::requests::Requests;
use ba_model::{CacheKey, Counted, Failure, List, MAX_LINES, Parameter};
use std::alloc::Global;

fn line_at(alloc: Global, line: u64, bytes: &[u8]) -> Result<ScriptLine, Failure<ScriptFault>>
    ensures { Gives result (widened (ScriptFault.BadLine line) (script_line_of bytes.now)) }
{
    match read_line(alloc, bytes) {
        Ok(it) => Ok(it),
        Err(Failure::NoMemory) => Err(Failure::NoMemory),
        Err(Failure::Fault(reason)) => {
            Err(Failure::Fault(ScriptFault::BadLine { line, reason }))
        }
    }
}

fn entry_of(
    alloc: Global,
    params: &[Parameter],
    keys: &[CacheKey],
    requests: &mut Requests,
    line: u64,
    it: ScriptLine,
) -> Result<ScriptEntry, Failure<ScriptFault>>
    requires room { requests.old.published < most_lines }
    ensures gives { Gives result (kept_entry_of params.now keys.now requests.old line it) }
    ensures moves { IfOk result (λ entry. Moves entry requests.old requests.new) }
{
    match it {
        ScriptLine::Begin { begin, context } => {
            requests.begin(alloc, params, line, begin, &context)
        }
        ScriptLine::Ask { ask, query } => requests.ask(line, ask, query),
        ScriptLine::Read { read, key, args } => {
            requests.read(alloc, keys, line, read, &key, &args)
        }
        ScriptLine::End { end } => requests.end(line, end),
        ScriptLine::Publish { publish } => Ok(requests.publish(publish)),
    }
}

fn entry_at(
    alloc: Global,
    params: &[Parameter],
    keys: &[CacheKey],
    requests: &mut Requests,
    line: u64,
    bytes: &[u8],
) -> Result<ScriptEntry, Failure<ScriptFault>>
    requires room { requests.old.published < most_lines }
    ensures gives { Gives result (kept_entry_at params.now keys.now requests.old line bytes.now) }
    ensures moves { IfOk result (λ entry. Moves entry requests.old requests.new) }
{
    let it = line_at(alloc, line, bytes)?;
    entry_of(alloc, params, keys, requests, line, it)
}

fn entries_of(
    alloc: Global,
    params: &[Parameter],
    keys: &[CacheKey],
    lines: Lines<'_>,
) -> Result<List<ScriptEntry>, Failure<ScriptFault>>
    requires few { length lines ≤ most_lines }
    ensures { Gives result (entries_from params.now keys.now [] lines.entry) }
{
    let mut requests = Requests::new(alloc);
    let mut entries = List::new(alloc);
    for bytes in lines {
        let line = entries.len() as u64 + 1;
        let entry = entry_at(alloc, params, keys, &mut requests, line, bytes)?;
        entries.push(entry)?;
    }
    Ok(entries)
}

/// The script that the bytes are, for a policy with these parameters and cache keys: each line one
/// JSON object of one form, after the lines before it.
///
/// The number of lines is tested first. Then the first line that is none after those before it is
/// named, with the first of its reasons; a line that begins one request too many, or asks or reads
/// one question too many, ends the reading after its own tests. Lines and forms are those of the
/// format's description; a JSON object's key that comes twice has its last value.
#[tactic(auto, unfolding(crate::specs::Reading::script_of))]
pub fn read_script(
    alloc: Global,
    params: &List<Parameter>,
    keys: &List<CacheKey>,
    bytes: &[u8],
) -> Result<Script, Failure<ScriptFault>>
    ensures exact { Gives result (script_of params.now keys.now bytes.now) }
    ensures script { IfOk result (IsScript params.now keys.now) }
{
    if count_lines(bytes) > MAX_LINES {
        return Err(Failure::Fault(ScriptFault::TooMany {
            what: Counted::Lines,
            limit: MAX_LINES as u64,
        }));
    }
    let entries = entries_of(
        alloc,
        params.as_slice(),
        keys.as_slice(),
        script_lines(bytes),
    )?;
    Ok(Script { entries })
}
