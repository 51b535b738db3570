//! The numbers under which an output prints table sets.
ghost use Rattle.std.specs.Prelude.{◌≡◌, IfOk, length};
ghost use Rattle.std.specs.Option.{option_to_list};
ghost use Rattle.ba_audit.specs.Audits.{readings};
ghost use Rattle.ba_audit.specs.Lines.{numbered_at, versions};
ghost use Rattle.ba_printed.specs.Reading.{printed_of};

use crate::numbered::Numbered;
use crate::told::numbered_by;
use ba_model::{Failure, Policy, Shared};
use ba_printed::{printed_lines, read_printed};
use ba_script::{Script, ScriptEntry};
use std::alloc::{AllocError, Global};

/// The number under which the line publishes the set of the entry, if it does.
#[tactic(auto, unfolding(crate::specs::Lines::numbered_at))]
fn numbered_at(
    alloc: Global,
    policy: &Shared<Policy>,
    entry: &ScriptEntry,
    bytes: &[u8],
) -> Result<Option<Numbered>, AllocError>
    ensures { IfOk result (λ it. option_to_list it
        ≡ numbered_at entry.now (printed_of policy.now bytes.now)) }
{
    match entry {
        ScriptEntry::Begin { .. } => Ok(None),
        ScriptEntry::Ask { .. } => Ok(None),
        ScriptEntry::Read { .. } => Ok(None),
        ScriptEntry::End { .. } => Ok(None),
        ScriptEntry::Publish { number, .. } => match read_printed(alloc, policy, bytes) {
            Ok(line) => Ok(numbered_by(*number, &line)),
            Err(Failure::Fault(_)) => Ok(None),
            Err(Failure::NoMemory) => Err(AllocError),
        },
    }
}

/// The numbers under which the output prints the words' set, which is 0, and then those of the
/// script's publish lines, in order. Only the lines at their places are read.
pub(crate) fn versions(
    alloc: Global,
    policy: &Shared<Policy>,
    script: &Script,
    bytes: &[u8],
) -> Result<Vec<Numbered>, AllocError>
    ensures { IfOk result (λ it. it.items
        ≡ versions script.now.entries (readings policy.now bytes.now)) }
{
    let mut numbered = Vec::new(alloc);
    numbered.push(Numbered {
        version: 0,
        place: 0,
    })?;
    let mut lines = printed_lines(bytes);
    for entry in script.entries.as_slice() {
        let Some(line) = lines.next() else {
            return Ok(numbered);
        };
        let found = numbered_at(alloc, policy, entry, line)?;
        if let Some(it) = found {
            numbered.push(it)?;
        }
    }
    Ok(numbered)
}
