//! The top call of the decision service.
ghost use Rattle.std.specs.Prelude.{◌≡◌, [], ◌∷◌, map, string_bytes};
ghost use Rattle.ba_decide.specs.Decided.{Decides, EndsFault, EndsStop, ServesInput, status_of};
ghost use Rattle.ba_input.specs.Deciding.{IsPolicyInput};
ghost use Rattle.ba_plan.specs.Sent.{SentLines};
ghost use Rattle.ba_target.specs.Names.{Serves as Served};
ghost use Rattle.ba_wire.specs.Printed.{fault_bytes};

use crate::serve::serve;
use ba_input::{PolicyInput, fault_of, read_policy_input};
use ba_instant::InOrder;
use ba_live::Live;
use ba_outside::{Files, Sink, WriteFail};
use ba_plan::{Stop, send};
use ba_source::Source;
use ba_wire::{Fault, fault_text};
use std::alloc::Global;

/// How the service ended.
#[derive(Debug, Drop)]
pub enum Ending {
    /// The lines ended, and each was answered.
    Done,
    /// The words or the files have this fault, which the one line tells. No line was taken.
    Fault(Fault),
    /// The source failed behind lines that were all answered.
    Read,
    /// The sink failed.
    Write,
    /// There was no memory for what was read, or for a line.
    Memory,
}

impl Ending {
    /// The exit status, as those of the other commands.
    pub fn status(&self) -> u8
        ensures { result ≡ status_of self.now }
    {
        match self {
            Ending::Done => 0,
            Ending::Fault(Fault::Words) => 2,
            Ending::Fault(Fault::Input { .. }) => 3,
            Ending::Fault(Fault::Read { .. }) => 4,
            Ending::Fault(Fault::Limit { .. }) => 7,
            Ending::Read => 4,
            Ending::Write => 5,
            Ending::Memory => 6,
        }
    }
}

// Writes the line of a fault.
fn print_fault<S: Sink>(alloc: Global, fault: &Fault, sink: &mut S) -> Result<(), WriteFail>
    ensures { SentLines (fault_bytes fault.now ∷ []) (S.seen sink.old) (S.seen sink.new) result }
{
    let Ok(text) = fault_text(alloc, fault) else {
        return Err(WriteFail::NoMemory);
    };
    send(sink, text.as_bytes())
}

// Writes the line of a fault, and ends so.
fn end_fault<S: Sink>(alloc: Global, fault: Fault, sink: &mut S) -> Ending
    ensures { EndsFault fault result (S.seen sink.old) (S.seen sink.new) }
{
    match print_fault(alloc, &fault, sink) {
        Ok(()) => Ending::Fault(fault),
        Err(WriteFail::Failed) => Ending::Write,
        Err(WriteFail::NoMemory) => Ending::Memory,
    }
}

fn end_stop<S: Sink>(alloc: Global, stop: Stop<Fault>, sink: &mut S) -> Ending
    ensures { EndsStop stop result (S.seen sink.old) (S.seen sink.new) }
{
    match fault_of(stop) {
        Some(fault) => end_fault(alloc, fault, sink),
        None => Ending::Memory,
    }
}

fn serve_input<L: Source, S: Sink>(
    alloc: Global,
    input: PolicyInput,
    source: &mut L,
    sink: &mut S,
) -> Ending
    requires input { IsPolicyInput input }
    requires serves { Served input.target input.policy.schema }
    ensures { ServesInput input result
        (L.seen source.old) (L.seen source.new) (S.seen sink.old) (S.seen sink.new) }
{
    let evidence = input.evidence;
    match Live::new(
        alloc,
        input.policy,
        input.target,
        &input.loaded,
        input.budget,
    ) {
        Ok(mut live) => serve(alloc, &mut live, &InOrder, source, sink, evidence),
        Err(_) => Ending::Memory,
    }
}

/// The decision service that the words behind `decide` ask for, over a source of lines: reads
/// what they name, then answers each line by one line, which is written before the next one is
/// taken.
///
/// Each question that is allowed, and each query behind a cache key that may be read, is strongly
/// compliant (OSDI 2022) after what its request was told, and so has one answer in any two
/// databases that meet the schema, agree on the views, and in whose answers all rows are that were
/// recorded. What is blocked isn't covered, and has its reason: a checked counterexample, a
/// derivation as long as the budget, or a stuck branch. Recorded are rows of the request's own
/// lines that weren't refused, and nothing else. That these are in the questions' answers in the
/// database that is asked is for the caller to see to. Where they are found to be in no database, the
/// line says so, and the request can only end.
///
/// The line of an allowed question has the text to send: a print of the question that was judged,
/// with the context's values in place of its parameters. By the grammar of questions, over the tokens
/// of the database that the words name, it is read as this question.
///
/// A line has at most 1,048,576 bytes. Want of memory may stand in place of a decision, which its
/// line says; where there is none for the line of a decision, the event may have been served.
///
/// # Ends
/// `Fault` comes before any line is taken, and its line is written. `Done` and `Read` come once
/// each line that was taken is answered. After `Write` and `Memory` all lines but the last are
/// answered whole.
pub fn decide<F: Files, L: Source, S: Sink>(
    alloc: Global,
    words: &[String],
    files: &mut F,
    source: &mut L,
    sink: &mut S,
) -> Ending
    ensures { Decides (map string_bytes words.now) (F.seen files.old) (F.seen files.new) result
        (L.seen source.old) (L.seen source.new) (S.seen sink.old) (S.seen sink.new) }
{
    match read_policy_input(alloc, words, files) {
        Ok(input) => serve_input(alloc, input, source, sink),
        Err(stop) => end_stop(alloc, stop, sink),
    }
}
