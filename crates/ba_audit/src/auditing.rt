//! The audit of an output.
ghost use Rattle.std.specs.Prelude.{◌≡◌, ◌+◌, ◌<◌, ◌^◌, ℕ, All, IfErr, IfOk, IsTrue, Ok, OnOk, Some, length};
ghost use Rattle.ba_script.specs.Scripts.{ReadFits};
ghost use Rattle.ba_model.specs.Readings.{OfFault};
ghost use Rattle.ba_audit.specs.Audits.{IsChecked, IsInput, IsSound, Output, TellsAudited, TellsFault, feeds, output_of};
ghost use Rattle.ba_audit.specs.Keeping.{BegunFits, IsEnded, IsLast, IsOf, IsSummary, MeetsKept, MeetsLast, MeetsTaken, Reached, Takes, TakesRead, after_last, basis_at, known_in, located_at, output_at};
ghost use Rattle.ba_audit.specs.Tests.{IsFirstUnmet, MeetsAll, MeetsForm, MeetsTotal};
ghost use Rattle.ba_printed.specs.Reading.{printed_of};

use crate::against::Against;
use crate::counts::is_summary;
use crate::heard::{Heard, hear};
use crate::numbers::versions;
use crate::told::Told;
use ba_model::{Failure, List, Owned, Policy, Shared};
use ba_printed::{LineReason, PrintedLine, printed_lines, read_printed};
use ba_script::{Lines, Script, ScriptEntry};
use ba_tables::Tables;
use ba_wire::{AuditFault, AuditReason as Reason, Audited};
use std::alloc::Global;

/// The line that the bytes are, else `Json` or `Shape`.
fn read_line(
    alloc: Global,
    policy: &Shared<Policy>,
    ended: bool,
    bytes: &[u8],
) -> Result<Owned<PrintedLine>, Failure<Reason>>
    ensures line { IfOk result (λ line. printed_of policy.now bytes.now ≡ Ok line) }
    ensures ended { IfOk result (λ _. IsTrue ended) }
    ensures fault { IfErr result (λ e. OfFault e
        (IsFirstUnmet (MeetsForm ended (printed_of policy.now bytes.now)))) }
{
    if !ended {
        return Err(Failure::Fault(Reason::Json));
    }
    match read_printed(alloc, policy, bytes) {
        Ok(line) => Ok(line),
        Err(Failure::NoMemory) => Err(Failure::NoMemory),
        Err(Failure::Fault(LineReason::Json)) => Err(Failure::Fault(Reason::Json)),
        Err(Failure::Fault(LineReason::Shape)) => Err(Failure::Fault(Reason::Shape)),
    }
}

/// Takes the line of an entry that is read, or tells the first test that it doesn't meet.
fn take_read(
    alloc: Global,
    against: &Against<'_>,
    told: &mut Told,
    number: u64,
    entry: &ScriptEntry,
    line: &PrintedLine,
) -> Result<(), Failure<Reason>>
    requires checked { IsChecked against.now.policy.now }
    requires fits { (k : ℕ) → BegunFits against.now.policy.now (known_in told.old (Some k)) }
    requires reads { ReadFits against.now.policy.now.keys entry.now }
    ensures ok { OnOk result
        (TakesRead (basis_at against.now) number entry.now line.now told.old told.new) }
    ensures fault { IfErr result (λ e. OfFault e (IsFirstUnmet
        (MeetsKept (basis_at against.now) number told.old entry.now (Ok line.now)))) }
{
    let heard = hear(alloc, against, told, number, entry, line)?;
    match heard {
        Heard::Unmet(reason) => Err(Failure::Fault(reason)),
        Heard::Met(added) => {
            told.note(alloc, against, entry, line, added)?;
            told.count(entry, line)?;
            Ok(())
        }
    }
}

/// Takes the line of an entry, or tells the first test that it doesn't meet.
fn take_line(
    alloc: Global,
    against: &Against<'_>,
    told: &mut Told,
    ended: bool,
    number: u64,
    entry: &ScriptEntry,
    bytes: &[u8],
) -> Result<(), Failure<Reason>>
    requires checked { IsChecked against.now.policy.now }
    requires fits { (k : ℕ) → BegunFits against.now.policy.now (known_in told.old (Some k)) }
    requires reads { ReadFits against.now.policy.now.keys entry.now }
    ensures ok { OnOk result (Takes (basis_at against.now) ended number entry.now
        (printed_of against.now.policy.now bytes.now) told.old told.new) }
    ensures fault { IfErr result (λ e. OfFault e (IsFirstUnmet
        (MeetsTaken (basis_at against.now) ended number told.old entry.now
        (printed_of against.now.policy.now bytes.now)))) }
{
    match read_line(alloc, against.policy, ended, bytes) {
        Ok(line) => take_read(alloc, against, told, number, entry, &line),
        Err(failure) => Err(failure),
    }
}

/// The test that a line doesn't meet, with the line's number.
#[tactic(auto, unfolding(crate::specs::Keeping::located_at))]
fn located(number: u64, found: Result<(), Failure<Reason>>) -> Result<(), Failure<AuditFault>>
    ensures { result ≡ located_at number found }
{
    match found {
        Ok(()) => Ok(()),
        Err(Failure::NoMemory) => Err(Failure::NoMemory),
        Err(Failure::Fault(reason)) => Err(Failure::Fault(AuditFault::At(number, reason))),
    }
}

/// Takes the next line, at the place of the entry with the number `i`, from 0.
fn take_next(
    alloc: Global,
    against: &Against<'_>,
    told: &mut Told,
    ended: usize,
    script: &Script,
    i: usize,
    lines: &mut Lines<'_>,
) -> Result<(), Failure<AuditFault>>
    requires few { length script.now.entries < 2 ^ 32 }
    requires within { i < length script.now.entries }
    requires checked { IsChecked against.now.policy.now }
    requires fits { (k : ℕ) → BegunFits against.now.policy.now (known_in told.old (Some k)) }
    requires reads { All (ReadFits against.now.policy.now.keys) script.now.entries }
    ensures ok { (it : Output) → IsOf it against.now ended script.now.entries
        → Reached it i lines.old told.old
        → OnOk result (Reached it (i + 1) lines.new told.new) }
    ensures fault { (it : Output) → IsOf it against.now ended script.now.entries
        → Reached it i lines.old told.old
        → IfErr result (λ e. OfFault e (TellsFault it)) }
{
    let number = i as u64 + 1;
    let entry = script.entries.get(i);
    match lines.next() {
        Some(bytes) => {
            let taken = take_line(alloc, against, told, i < ended, number, entry, bytes);
            located(number, taken)
        }
        None => Err(Failure::Fault(AuditFault::At(number, Reason::Count))),
    }
}

/// Whether the line is the summary, with these numbers.
fn test_last(
    alloc: Global,
    against: &Against<'_>,
    told: &Told,
    ended: bool,
    bytes: &[u8],
) -> Result<(), Failure<Reason>>
    ensures ok { OnOk result (IsLast ended told.now.summary
        (printed_of against.now.policy.now bytes.now)) }
    ensures fault { IfErr result (λ e. OfFault e (IsFirstUnmet
        (MeetsLast ended told.now.summary (printed_of against.now.policy.now bytes.now)))) }
{
    match read_line(alloc, against.policy, ended, bytes) {
        Ok(line) => test_summary(told, &line),
        Err(failure) => Err(failure),
    }
}

/// Whether the line that is read is the summary, with these numbers.
#[tactic(auto, unfolding(crate::specs::Tests::MeetsTotal, crate::specs::Tests::rank, crate::specs::Keeping::IsSummary))]
fn test_summary(told: &Told, line: &PrintedLine) -> Result<(), Failure<Reason>>
    ensures ok { OnOk result (MeetsAll (MeetsTotal told.now.summary line.now)) }
    ensures summary { OnOk result (IsSummary line.now) }
    ensures fault { IfErr result (λ e. OfFault e
        (IsFirstUnmet (MeetsTotal told.now.summary line.now))) }
{
    match line {
        PrintedLine::Summary(summary) => {
            if is_summary(summary, &told.summary) {
                Ok(())
            } else {
                Err(Failure::Fault(Reason::Summary))
            }
        }
        PrintedLine::Begin { .. }
        | PrintedLine::End { .. }
        | PrintedLine::Publish { .. }
        | PrintedLine::Answer { .. }
        | PrintedLine::Block { .. }
        | PrintedLine::Read { .. }
        | PrintedLine::ReadBlock { .. }
        | PrintedLine::UnevenRead
        | PrintedLine::Unread { .. }
        | PrintedLine::Memory { .. } => Err(Failure::Fault(Reason::Kind)),
    }
}

/// What was told of the last line, which has the number, where no line is left behind it.
fn after_last(
    number: u64,
    last: Result<(), Failure<AuditFault>>,
    lines: &mut Lines<'_>,
) -> Result<(), Failure<AuditFault>>
    requires few { number < 2 ^ 33 }
    ensures { result ≡ after_last number last lines.old }
{
    match last {
        Ok(()) => match lines.next() {
            Some(_) => Err(Failure::Fault(AuditFault::At(number + 1, Reason::Count))),
            None => Ok(()),
        },
        Err(failure) => Err(failure),
    }
}

/// Takes the last line, behind `n` others, where none is left behind it.
fn take_last(
    alloc: Global,
    against: &Against<'_>,
    told: &Told,
    ended: usize,
    n: usize,
    lines: &mut Lines<'_>,
) -> Result<(), Failure<AuditFault>>
    requires few { n < 2 ^ 32 }
    ensures ok { (it : Output) → IsOf it against.now ended it.script → n ≡ length it.script
        → Reached it n lines.old told.now → OnOk result (IsEnded it told.now) }
    ensures fault { (it : Output) → IsOf it against.now ended it.script → n ≡ length it.script
        → Reached it n lines.old told.now
        → IfErr result (λ e. OfFault e (TellsFault it)) }
{
    let number = n as u64 + 1;
    match lines.next() {
        Some(bytes) => {
            let tested = test_last(alloc, against, told, n < ended, bytes);
            let last = located(number, tested);
            after_last(number, last, lines)
        }
        None => Err(Failure::Fault(AuditFault::At(number, Reason::Count))),
    }
}

/// How many line feeds there are.
fn feeds(bytes: &[u8]) -> usize
    ensures { result ≡ feeds bytes.now }
{
    bytes.iter().filter(|byte| **byte == 10).count()
}

/// Audits the output, by the numbers under which it prints table sets.
fn audit_against(
    alloc: Global,
    against: &Against<'_>,
    script: &Script,
    bytes: &[u8],
) -> Result<Audited, Failure<AuditFault>>
    requires few { length script.now.entries < 2 ^ 32 }
    requires of { IsOf (output_at against.now script.now bytes.now) against.now (feeds bytes.now) script.now.entries }
    ensures audited { IfOk result (TellsAudited (output_at against.now script.now bytes.now)) }
    ensures sound { IfOk result (λ _. IsSound (output_at against.now script.now bytes.now)) }
    ensures fault { IfErr result (λ e. OfFault e
        (TellsFault (output_at against.now script.now bytes.now))) }
{
    let ended = feeds(bytes);
    let mut told = Told::new(alloc);
    let mut lines = printed_lines(bytes);
    let last = script.entries.len();
    for i in 0..last {
        match take_next(alloc, against, &mut told, ended, script, i, &mut lines) {
            Ok(()) => {}
            Err(failure) => return Err(failure),
        }
    }
    match take_last(alloc, against, &told, ended, last, &mut lines) {
        Ok(()) => Ok(Audited {
            lines: last as u64,
            unaudited: told.unaudited,
        }),
        Err(failure) => Err(failure),
    }
}

/// Whether every line of an output follows for a policy, the sets of tables, that of the words first
/// and then those of the publish lines in order, and a script; else the first line that fails a
/// test, and the first test that it fails ([`AuditFault`]).
///
/// What follows: a line of the script's form, name and number for each line of the script, and a
/// summary with the numbers of these lines. An answer has its query's rows in the version that its
/// request begins over, by cover exactly where the query is covered, with the views and pairings that
/// cover it, or else with steps that the kernel accepts and that close the problem of the question
/// after the request's earlier printed answers. No covered question is blocked, and a pair is a
/// counterexample. A read of a cache key that is let through has for each of the key's queries,
/// with its arguments in them, what an answer has but for the rows, and one that is blocked has for
/// the query that it names what a block has. Of spent and stuck blocks and of memory lines nothing
/// more is tested: they are counted as unaudited. Then each answer's query, and each query behind a
/// read that is let through, is strongly compliant after what its request was told before, by the
/// evidence alone.
///
/// The only other error is want of memory, which leaves nothing behind. Each line is read once, those
/// of publish lines twice; each question's text is read, each query's cover looked for, each
/// question's answer made and each proof's steps taken once.
pub fn audit(
    alloc: Global,
    policy: &Shared<Policy>,
    sets: &List<Shared<Tables>>,
    script: &Script,
    bytes: &[u8],
) -> Result<Audited, Failure<AuditFault>>
    requires few { length script.now.entries < 2 ^ 32 }
    requires input { IsInput policy.now sets.now script.now.entries }
    ensures audited { IfOk result
        (TellsAudited (output_of policy.now sets.now script.now bytes.now)) }

    // What a pass shows of each line.
    ensures sound { IfOk result (λ _. IsSound (output_of policy.now sets.now script.now bytes.now)) }
    ensures fault { IfErr result (λ e. OfFault e
        (TellsFault (output_of policy.now sets.now script.now bytes.now))) }
{
    let numbered = versions(alloc, policy, script, bytes)?;
    let against = Against {
        policy,
        sets: sets.as_slice(),
        numbered: numbered.as_slice(),
    };
    audit_against(alloc, &against, script, bytes)
}
