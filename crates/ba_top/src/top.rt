//! The top call.
ghost use Rattle.std.specs.Prelude.{◌≡◌, ◌⊎◌, All, List, ℕ, length, map, string_bytes, IfOk, IfSome};
ghost use Rattle.ba_model.specs.declared.limits.Counted.{Counted};
ghost use Rattle.ba_outside.specs.Causes.{Rose};
ghost use Rattle.ba_plan.specs.Ends.{AsksFront, FailedAt};
ghost use Rattle.ba_plan.specs.Plan.{names_of};
ghost use Rattle.ba_proof.specs.declared.checking.CheckFault.{CheckFault};
ghost use Rattle.ba_input.specs.Causes.{IsLimit};
ghost use Rattle.ba_input.specs.Inputs.{IsInput};
ghost use Rattle.ba_input.specs.Reading.{plan_of};
ghost use Rattle.ba_input.specs.Reads.{Outcome as MayRead};
ghost use Rattle.ba_input.specs.Tasks.{IsTask};
ghost use Rattle.ba_lanes.specs.Headline.{Headline};
ghost use Rattle.ba_lanes.specs.Legal.{Legal};
ghost use Rattle.ba_wire.specs.declared.audit.AuditFault.{AuditFault};
ghost use Rattle.ba_top.specs.Causes.{SomeComesTo, Tells};
ghost use Rattle.ba_top.specs.Ran.{Accepts, EndsFault, EndsPrint, EndsRun, EndsStop, Fails, Ran, RanInput, RanTask, Rejects, Served, ServedIdeally, fault_status, status_of, whole_run};
ghost use Rattle.ba_top.specs.Audited.{TellsWritten};
ghost use Rattle.ba_top.specs.Text.{ReadsKey};
ghost use Rattle.ba_top.specs.Told.{TellsClosed};

use crate::auditing::end_audit;
use crate::checking::end_check;
use crate::ending::ended;
use crate::outcome::Outcome;
use crate::print::{print_fault, print_text, print_told};
use crate::summary::has_memory_line;
use ba_input::{Detail, Input, Task, Told, fault_of, read_task};
use ba_instant::InOrder;
use ba_lanes::{Journal, serve};
use ba_model::Str;
use ba_outside::{Files, Gate, Sink};
use ba_plan::Stop;
use ba_portfolio::Both;
use ba_wire::Fault;
use std::alloc::{AllocError, Global};
use std::sync::Wait;
use std::thread::Threads;

fn fault_status(fault: &Fault) -> u8
    ensures { result ≡ fault_status fault.now }
{
    match fault {
        Fault::Words => 2,
        Fault::Input { .. } => 3,
        Fault::Read { .. } => 4,
        Fault::Limit { .. } => 7,
    }
}

fn status(detail: &Detail) -> u8
    ensures { result ≡ status_of detail.now }
{
    match detail {
        Detail::Done => 0,
        Detail::NotAccepted(_) => 1,
        Detail::NotAudited(_) => 1,
        Detail::Fault(fault) => fault_status(fault),
        Detail::Write => 5,
        Detail::Memory => 6,
    }
}

// How a run ends whose lines are all written.
fn whole_run(journal: &Journal) -> Detail
    ensures { result ≡ whole_run journal.now }
{
    if has_memory_line(journal) {
        Detail::Memory
    } else {
        Detail::Done
    }
}

fn end_run<S: Sink>(
    alloc: Global,
    input: &Input,
    told: Told,
    journal: &Journal,
    sink: &mut S,
) -> Detail
    requires input { IsInput input.now }
    requires many { length journal.now.entries ≡ length input.now.script.entries }
    requires keys { All (ReadsKey input.now.policy) journal.now.entries }
    ensures ends { EndsRun input.now told journal.now (S.seen sink.old) (S.seen sink.new) result }
    ensures closed { result ≡ Detail.Done → TellsClosed told input.now journal.now }
    ensures written { result ≡ Detail.Done → TellsWritten told input.now journal.now }
{
    let sent = print_told(alloc, input, journal, told, sink);
    ended(sent, whole_run(journal))
}

fn end_fault<S: Sink>(alloc: Global, fault: Fault, sink: &mut S) -> Detail
    ensures { EndsFault fault (S.seen sink.old) (S.seen sink.new) result }
{
    let sent = print_fault(alloc, &fault, sink);
    ended(sent, Detail::Fault(fault))
}

fn end_stop<S: Sink>(alloc: Global, stop: Stop<Fault>, sink: &mut S) -> Detail
    ensures { EndsStop stop (S.seen sink.old) (S.seen sink.new) result }
{
    match fault_of(stop) {
        Some(fault) => end_fault(alloc, fault, sink),
        None => Detail::Memory,
    }
}

fn end_print<S: Sink>(text: &Str, sink: &mut S) -> Detail
    ensures { EndsPrint text.now (S.seen sink.old) (S.seen sink.new) result }
{
    let sent = print_text(text.as_bytes(), sink);
    ended(sent, Detail::Done)
}

// Serves the script. A proof is searched for in one order or in both, as the input says.
fn serve_input<R: Threads + Wait + Sync, G: Gate + Sync>(
    rt: &R,
    alloc: Global,
    input: &Input,
    gate: &G,
) -> Result<Journal, AllocError>
    requires { IsInput input.now }
    ensures legal { IfOk result (λ journal. Legal input.now journal) }
    ensures headline { IfOk result (λ journal. Headline input.now journal) }
    ensures many { IfOk result (λ journal.
        length journal.entries ≡ length input.now.script.entries) }
{
    if input.orders == 2 {
        serve(rt, alloc, input, &Both { rt }, gate)
    } else {
        serve(rt, alloc, input, &InOrder, gate)
    }
}

// Serves the script, and writes what is told of it.
fn run_input<R: Threads + Wait + Sync, S: Sink, G: Gate + Sync>(
    rt: &R,
    alloc: Global,
    input: &Input,
    told: Told,
    sink: &mut S,
    gate: &G,
) -> (Detail, Option<Journal>)
    requires { IsInput input.now }
    ensures { RanInput input.now told (S.seen sink.old) (S.seen sink.new) result.0 result.1 }
{
    match serve_input(rt, alloc, input, gate) {
        Ok(journal) => (end_run(alloc, input, told, &journal, sink), Some(journal)),
        Err(_) => (Detail::Memory, None),
    }
}

// Does what is to be done with what was read.
fn end_task<R: Threads + Wait + Sync, S: Sink, G: Gate + Sync>(
    rt: &R,
    alloc: Global,
    task: Task,
    sink: &mut S,
    gate: &G,
) -> (Detail, Option<Journal>)
    requires { IsTask task }
    ensures { RanTask task (S.seen sink.old) (S.seen sink.new) result.0 result.1 }
{
    match task {
        Task::Run(input, told) => run_input(rt, alloc, &input, told, sink, gate),
        Task::Print(text) => (end_print(&text, sink), None),
        Task::Check(proof) => (end_check(alloc, proof, sink), None),
        Task::Audit(input, bytes) => (end_audit(alloc, &input, &bytes, sink), None),
    }
}

fn run<R: Threads + Wait + Sync, F: Files, S: Sink, G: Gate + Sync>(
    rt: &R,
    alloc: Global,
    words: &[String],
    files: &mut F,
    sink: &mut S,
    gate: &G,
) -> (Detail, Option<Journal>)
    ensures { Ran (map string_bytes words.now) (F.seen files.old) (F.seen files.new)
        (S.seen sink.old) (S.seen sink.new) result.0 result.1 }
{
    match read_task(alloc, words, files) {
        Ok(task) => end_task(rt, alloc, task, sink, gate),
        Err(stop) => (end_stop(alloc, stop, sink), None),
    }
}

/// Does what the words say.
///
/// `run --schema S --policy P --tables D --script F [--load L] [--proofs] [--workers N] [--budget B]
/// [--orders K]` reads the schema S, the policy P, the file D/T.csv of each table T in the schema's
/// order, the script F and, last, the templates L, each once; then answers or blocks each question of
/// the script; then writes a line for each line of the script, in order, and the summary. A question
/// is answered where single views of the policy cover it under its request's context, where a
/// template, which is an earlier proof made general, matches it after what its request was told, or
/// where at most B due steps, taken in one order or, with K 2, in either of two, prove that it is
/// strongly compliant after that (Blockaid, OSDI 2022); else it is blocked, with a reason. A read of
/// a cache key is let through where each query behind the key would be answered, and blocked at the
/// first that wouldn't be. With `--proofs` the lines of answers and of such reads have their proofs,
/// and those of refuted questions and queries their pairs.
///
/// `check --schema S --policy P --proof F` reads the schema S, the policy P and the proof F, each
/// once; then takes the proof's steps, one after another; then writes one line. The proof is accepted
/// where each step is and no branch is left open (status 0); then its question is strongly compliant
/// under its context and after its rows. Else the line tells the first step that isn't accepted and
/// why, or how many branches are open (status 1).
///
/// `audit --schema S --policy P --tables D --script F --output O` reads what `run` does and, last, the
/// output O; then writes one line. The output is accepted where each of its lines passes every test
/// (status 0): then each answer is that of its line's text and strongly compliant after what its
/// request was told before, and so is each query behind a read that is let through; each pair
/// refutes its question or query, and none that is blocked is covered. Else the line tells the first
/// line that fails one, and which (status 1).
///
/// `store` has the words of `run` but `--load` and `--proofs`. It reads and serves what `run` would,
/// and writes the templates that the shelves then hold, a line each, in place of the lines and the
/// summary; with `--load` others begin with them.
///
/// `gen --seed N --requests R [--workers N] [--print]` makes the schema, the policy, the tables and
/// the script of a workload (`ba_workload`), and reads no file. With `--print` it writes the script,
/// line by line; else it serves it as `run` does, with the default budget, and writes the summary
/// alone.
///
/// The outcome has the journal of what was served. Laws of their own, in `ba_machine_laws`, say that
/// the entries of a legal journal are runs of a machine that decides by its events alone
/// (`requests_are_a_run`; with one worker the whole journal is one run, `journal_is_a_run`).
///
/// The first fault ends a command with one fault line: words of another form (status 2), a file that
/// has no reading, or rows that break a key or a link (3), a file that can't be read (4), a count
/// above its limit (7). A write that fails ends it with status 5, want of memory with 6.
pub fn blockaid<R: Threads + Wait + Sync, F: Files, S: Sink, G: Gate + Sync>(
    rt: &R,
    alloc: Global,
    words: &[String],
    files: &mut F,
    sink: &mut S,
    gate: &G,
) -> Outcome
    // Each answer is that of the query that its line's text reads as, in the request's tables and in
    // every database that meets the schema, gives every view the same rows and each query that was
    // answered before its printed rows. Where a read is let through, each query behind its key has
    // one answer in all of these. Each block is of such a query that isn't covered, and carries
    // a counterexample to strong compliance, a derivation as long as the budget, or a stuck branch.
    // The input that the words and the files come to is the one for which the journal is legal and
    // whose lines were written. What a run that is done tells with proofs passes every test of an
    // audit.
    ensures headline { IfSome result.journal (λ journal.
        Served (map string_bytes words.now) (F.seen files.old) (F.seen files.new)
        (S.seen sink.old) (S.seen sink.new) result.detail journal) }
    // Where no column may be NULL, each atom of rules, views and questions is an `=`, no line
    // publishes a table set, each line found memory, and none is blocked since the budget is spent,
    // the journal is ideal: each question is unread with its text's first fault; or answered by its
    // query's answer in the input's tables, where the query is strongly compliant after what its
    // request was answered before; or blocked by a counterexample, where it isn't. So any two such
    // runs of one script over the same policy and tables have the same verdicts and rows, whatever
    // their workers, budgets, orders and loaded templates (`ideal_journals_agree` of
    // `ba_machine_laws`).
    ensures ideal { IfSome result.journal (λ journal.
        ServedIdeally (map string_bytes words.now) (F.seen files.old) (F.seen files.new)
        (S.seen sink.old) (S.seen sink.new) result.detail journal) }

    ensures status { result.status ≡ status_of result.detail }
    ensures run { Ran (map string_bytes words.now) (F.seen files.old) (F.seen files.new)
        (S.seen sink.old) (S.seen sink.new) result.detail result.journal }

    // A check that is done has read a proof whose steps are all accepted and leave no branch open; and
    // so its question is strongly compliant under its context and after its rows. An audit that is done
    // has read an output that passes every test. Without a journal, to be done is one of these, or that
    // a script was printed.
    ensures accepted { Accepts (map string_bytes words.now) (F.seen files.old) (F.seen files.new)
        result.detail result.journal }
    // One that isn't accepted has read a proof that has the fault, and so is none.
    ensures rejected { (fault : CheckFault) → result.detail ≡ Detail.NotAccepted fault
        → Rejects (map string_bytes words.now) (F.seen files.old) (F.seen files.new) fault }
    // An audit of an output that isn't accepted has read one whose first failing line, and the first
    // test that it fails, are those of the fault.
    ensures failed { (fault : AuditFault) → result.detail ≡ Detail.NotAudited fault
        → Fails (map string_bytes words.now) (F.seen files.old) (F.seen files.new) fault }

    // A read fault names the last name asked for, and the files' count rose.
    ensures read { (file : List ℕ) → result.detail ≡ Detail.Fault (Fault.Read file)
        → FailedAt file (F.seen files.old) (F.seen files.new) }
    // A count above its limit is one of what was read, or of the bytes of the last name asked for.
    ensures limit { (what : Counted) (limit : ℕ)
        → result.detail ≡ Detail.Fault (Fault.Limit what limit)
        → IsLimit (map string_bytes words.now) what limit (F.seen files.old) (F.seen files.new) }
    // A write fault comes only where the sink's count rose.
    ensures write { result.detail ≡ Detail.Write
        → Rose (S.seen sink.old).faults (S.seen sink.new).faults }

    // Where the files are told, the names asked for are the first of the run's names.
    ensures asked { IfSome (F.seen files.old).held (λ contents.
        AsksFront (F.seen files.old).asked (F.seen files.new).asked
        (names_of contents (plan_of (map string_bytes words.now)))) }
    // Then the other answers are those that the words and the files come to.
    ensures told { IfSome (F.seen files.old).held (λ contents.
        Tells result.detail (MayRead contents (map string_bytes words.now))) }
    // Where no count rises either, there is no other answer, but for want of memory.
    ensures complete { IfSome (F.seen files.old).held (λ contents.
        ¬ Rose (F.seen files.old).faults (F.seen files.new).faults
        → ¬ Rose (S.seen sink.old).faults (S.seen sink.new).faults
        → (result.detail ≡ Detail.Memory)
        ⊎ SomeComesTo (MayRead contents (map string_bytes words.now)) result.detail) }
{
    let (detail, journal) = run(rt, alloc, words, files, sink, gate);
    Outcome {
        status: status(&detail),
        detail,
        journal,
    }
}
