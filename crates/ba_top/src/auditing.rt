//! Audits an output, and writes what that comes to.
ghost use Rattle.std.specs.Prelude.{◌≡◌, [], ◌∷◌, IfOk};
ghost use Rattle.ba_input.specs.Inputs.{IsInput};
ghost use Rattle.ba_plan.specs.Sent.{SentLines};
ghost use Rattle.ba_top.specs.Auditing.{EndsAudit, Finds, detail_of};
ghost use Rattle.ba_top.specs.Ends.{EndsLine};
ghost use Rattle.ba_wire.specs.Audits.{finding_bytes};

use crate::ending::ended;
use ba_audit::audit;
use ba_input::{Detail, Input};
use ba_model::{Duplicate, Failure, List, Shared};
use ba_outside::{Sink, WriteFail};
use ba_plan::send;
use ba_tables::Tables;
use ba_wire::{AuditFault, Audited, finding_text};
use std::alloc::{AllocError, Global};

fn detail_of(found: Result<Audited, AuditFault>) -> Detail
    ensures { result ≡ detail_of found }
{
    match found {
        Ok(_) => Detail::Done,
        Err(fault) => Detail::NotAudited(fault),
    }
}

// Writes the line of what was found.
fn print_finding<S: Sink>(
    alloc: Global,
    found: Result<Audited, AuditFault>,
    sink: &mut S,
) -> Result<(), WriteFail>
    ensures { SentLines (finding_bytes found ∷ []) (S.seen sink.old) (S.seen sink.new) result }
{
    let Ok(text) = finding_text(alloc, found) else {
        return Err(WriteFail::NoMemory);
    };
    send(sink, text.as_bytes())
}

// Tells what was found, and then ends so.
fn tell<S: Sink>(alloc: Global, found: Result<Audited, AuditFault>, sink: &mut S) -> Detail
    ensures { EndsLine (finding_bytes found) (detail_of found)
        (S.seen sink.old) (S.seen sink.new) result }
{
    let sent = print_finding(alloc, found, sink);
    ended(sent, detail_of(found))
}

// The table set of the words, and behind it those that the script publishes.
fn sets_of(alloc: Global, input: &Input) -> Result<List<Shared<Tables>>, AllocError>
    ensures { IfOk result (λ sets. sets ≡ input.now.tables ∷ input.now.published) }
{
    let first = input.tables.copy(alloc)?;
    let mut sets = input.published.copy(alloc)?.into_vec();
    sets.insert(0, first)?;
    Ok(List::from_vec(sets))
}

// What an audit of the bytes finds, if there is memory.
fn finding(
    alloc: Global,
    input: &Input,
    bytes: &List<u8>,
) -> Result<Result<Audited, AuditFault>, AllocError>
    requires { IsInput input.now }
    ensures { IfOk result (λ found. Finds input.now bytes.now found) }
{
    let sets = sets_of(alloc, input)?;
    match audit(alloc, &input.policy, &sets, &input.script, bytes.as_slice()) {
        Ok(audited) => Ok(Ok(audited)),
        Err(Failure::Fault(fault)) => Ok(Err(fault)),
        Err(Failure::NoMemory) => Err(AllocError),
    }
}

/// Audits the bytes, as an output of a run of the input, and writes one line: that they are accepted,
/// or which of their lines is the first that fails a test.
pub(crate) fn end_audit<S: Sink>(
    alloc: Global,
    input: &Input,
    bytes: &List<u8>,
    sink: &mut S,
) -> Detail
    requires { IsInput input.now }
    ensures { EndsAudit input.now bytes.now (S.seen sink.old) (S.seen sink.new) result }
{
    match finding(alloc, input, bytes) {
        Ok(found) => tell(alloc, found, sink),
        Err(_) => Detail::Memory,
    }
}
