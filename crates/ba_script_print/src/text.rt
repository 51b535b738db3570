//! The text of a script.
ghost use Rattle.std.specs.Prelude.{◌≡◌, All, IfOk, Ok, string_bytes};
ghost use Rattle.ba_script.specs.Reading.{script_of};
ghost use Rattle.ba_script_print.specs.ReadBack.{CanBeSpelled, HasText};
ghost use Rattle.ba_script_print.specs.Texts.{entries_text, entry_text, script_text};

use crate::entry::entry_json;
use ba_model::{CacheKey, List, Parameter};
use ba_script::{Script, ScriptEntry};
use std::alloc::{AllocError, Global};

/// The text of an entry, without its line feed.
fn entry_text(
    alloc: Global,
    params: &[Parameter],
    keys: &[CacheKey],
    entry: &ScriptEntry,
) -> Result<String, AllocError>
    ensures text { IfOk result (λ text. string_bytes text
        ≡ entry_text params.now keys.now entry.now) }
    ensures has { IfOk result (λ _. HasText params.now keys.now entry.now) }
{
    let json = entry_json(alloc, params, keys, entry)?;
    json.to_string(alloc)
}

/// The lines of the entries, one after another.
fn entries_text(
    alloc: Global,
    params: &[Parameter],
    keys: &[CacheKey],
    entries: &[ScriptEntry],
) -> Result<String, AllocError>
    ensures text { IfOk result (λ text. string_bytes text
        ≡ entries_text params.now keys.now entries.now) }
    ensures have { IfOk result (λ _. All (HasText params.now keys.now) entries.now) }
{
    let mut text = String::new(alloc);
    for entry in entries {
        let line = entry_text(alloc, params, keys, entry)?;
        text.push_str(line.as_str())?;
        text.push_str("\n")?;
    }
    Ok(text)
}

/// The text of a script under a policy's parameters and cache keys: a line for each entry, in order,
/// which is one compact JSON object with its keys in byte order, and a line feed.
///
/// It reads back as the script, under the same parameters and keys, where the script can be spelled:
/// its requests' names have 1 to 64 bytes, its contexts have a value of its kind for each parameter,
/// and each entry may stand after those before it. Every script that was read can. Of any other script
/// the text is none of a script, or of another one: a value without a parameter is left out, and a
/// cache key that isn't there has the empty name and no arguments.
///
/// The time is linear in the text's length, but for the sorting of a context's members. The only error
/// is want of memory, which leaves nothing behind.
pub fn script_text(
    alloc: Global,
    params: &List<Parameter>,
    keys: &List<CacheKey>,
    script: &Script,
) -> Result<String, AllocError>
    ensures text { IfOk result (λ text. string_bytes text
        ≡ script_text params.now keys.now script.now) }
    ensures reads_back { IfOk result (λ text. CanBeSpelled params.now keys.now script.now
        → script_of params.now keys.now (string_bytes text) ≡ Ok script.now) }
{
    entries_text(
        alloc,
        params.as_slice(),
        keys.as_slice(),
        script.entries.as_slice(),
    )
}
