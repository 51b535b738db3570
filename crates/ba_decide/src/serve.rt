//! Serves lines, one after another.
ghost use Rattle.std.specs.Prelude.{◌≡◌, ◌+◌, IfOk, string_bytes};
ghost use Rattle.ba_judge.specs.Judging.{effort_in};
ghost use Rattle.ba_live.specs.Wellformed.{IsLive, IsSound};
ghost use Rattle.ba_decide.specs.Journal.{Serves, said};
ghost use Rattle.ba_decide.specs.Ran.{IsNext, Says, Served, entry};
ghost use Rattle.ba_decide.specs.Evident.{IsLineOf, IsTextOf};

use crate::answer::{answer_text, memory_text};
use crate::evident::evident_text;
use crate::top::Ending;
use ba_event::{EventFault, read_event};
use ba_live::{Decision, Live, Refusal, Subject};
use ba_model::Failure;
use ba_outside::{Sink, WriteFail};
use ba_plan::send;
use ba_settle::Settle;
use ba_source::{Source, SourceFail};
use std::alloc::{AllocError, Global};

/// Bytes of a line.
pub(crate) const MAX_LINE_BYTES: u64 = 1_048_576;

/// What a line is answered, and whom it is about.
#[derive(Drop)]
pub(crate) struct Answer {
    pub(crate) subject: Subject,
    pub(crate) decision: Decision,
}

/// What comes of the next line.
#[derive(Drop)]
pub(crate) enum Next {
    /// It is answered so.
    Answered(Answer),
    /// No line is left.
    End,
    /// Reading failed.
    Fault,
}

// A decision on a line that says nothing.
fn on_nobody(decision: Decision) -> Answer
    ensures subject { result.subject ≡ Subject.Nobody }
    ensures decision { result.decision ≡ decision }
{
    Answer {
        subject: Subject::Nobody,
        decision,
    }
}

// What the bytes of a line are answered.
#[tactic(auto, using(crate::proofs::ServeLemmas::learns_nothing))]
fn answered<E: Settle>(
    alloc: Global,
    live: &mut Live,
    settle: &E,
    line: u64,
    bytes: &[u8],
) -> Answer
    requires live { IsLive line live.old }
    ensures serves { Serves (effort_in (E.orders settle.now) live.old.budget) line
        (entry (said bytes.now) result) live.old live.new }
    ensures live { IsLive (line + 1) live.new }
{
    match read_event(alloc, bytes) {
        Ok(event) => match Subject::of(alloc, &event) {
            Ok(subject) => {
                let decision = live.step(alloc, settle, line, event);
                Answer { subject, decision }
            }
            Err(_) => on_nobody(Decision::Memory),
        },
        Err(Failure::Fault(EventFault::Json)) => on_nobody(Decision::Refused(Refusal::Json)),
        Err(Failure::Fault(EventFault::Shape)) => on_nobody(Decision::Refused(Refusal::Shape)),
        Err(Failure::NoMemory) => on_nobody(Decision::Memory),
    }
}

// Takes the next line, and decides on what it says.
#[tactic(auto, using(crate::proofs::ServeLemmas::learns_nothing))]
fn take_next<E: Settle, L: Source>(
    alloc: Global,
    live: &mut Live,
    settle: &E,
    source: &mut L,
    line: u64,
) -> Next
    requires live { IsLive line live.old }
    ensures next { IsNext (effort_in (E.orders settle.now) live.old.budget) line result
        live.old live.new (L.seen source.old) (L.seen source.new) }
    ensures live { IsLive (line + 1) live.new }
{
    match source.take(MAX_LINE_BYTES) {
        Ok(Some(bytes)) => Next::Answered(answered(alloc, live, settle, line, &bytes)),
        Ok(None) => Next::End,
        Err(SourceFail::Fault) => Next::Fault,
        Err(SourceFail::TooLong(_)) => {
            Next::Answered(on_nobody(Decision::Refused(Refusal::Long)))
        }
        Err(SourceFail::NoMemory) => Next::Answered(on_nobody(Decision::Memory)),
    }
}

// The line of an answer, with its evidence or plain.
fn line_of(
    alloc: Global,
    live: &Live,
    evidence: bool,
    line: u64,
    answer: &Answer,
) -> Result<String, AllocError>
    requires sound { IsSound live.now }
    ensures { IfOk result (λ text. IsLineOf evidence live.now line answer.now.subject
        answer.now.decision (string_bytes text)) }
{
    if evidence {
        evident_text(alloc, live, line, &answer.subject, &answer.decision)
    } else {
        answer_text(alloc, line, &answer.subject, &answer.decision)
    }
}

// The line of an answer; where there is no memory for it, the one that says so.
fn text_of(
    alloc: Global,
    live: &Live,
    evidence: bool,
    line: u64,
    answer: &Answer,
) -> Result<String, AllocError>
    requires sound { IsSound live.now }
    ensures { IfOk result (λ text. IsTextOf evidence live.now line answer.now.subject
        answer.now.decision (string_bytes text)) }
{
    match line_of(alloc, live, evidence, line, answer) {
        Ok(text) => Ok(text),
        Err(_) => memory_text(alloc, line),
    }
}

// Writes the line of an answer.
fn say<S: Sink>(
    alloc: Global,
    sink: &mut S,
    live: &Live,
    evidence: bool,
    line: u64,
    answer: &Answer,
) -> Result<(), WriteFail>
    requires sound { IsSound live.now }
    ensures { Says evidence live.now line answer.now (S.seen sink.old) (S.seen sink.new) result }
{
    let Ok(text) = text_of(alloc, live, evidence, line, answer) else {
        return Err(WriteFail::NoMemory);
    };
    send(sink, text.as_bytes())
}

/// Serves the lines of the source to their end: each is answered by one line before the next is
/// taken.
pub(crate) fn serve<E: Settle, L: Source, S: Sink>(
    alloc: Global,
    live: &mut Live,
    settle: &E,
    source: &mut L,
    sink: &mut S,
    evidence: bool,
) -> Ending
    requires live { IsLive 1 live.old }
    ensures { Served evidence (effort_in (E.orders settle.now) live.old.budget) live.old result
        (L.seen source.old) (L.seen source.new) (S.seen sink.old) (S.seen sink.new) }
{
    for line in 1..u64::MAX {
        match take_next(alloc, live, settle, source, line) {
            Next::Answered(answer) => match say(alloc, sink, live, evidence, line, &answer) {
                Ok(()) => {}
                Err(WriteFail::Failed) => return Ending::Write,
                Err(WriteFail::NoMemory) => return Ending::Memory,
            },
            Next::End => return Ending::Done,
            Next::Fault => return Ending::Read,
        }
    }
    Ending::Done
}
