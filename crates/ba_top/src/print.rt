//! Writes the lines of a run.
ghost use Rattle.std.specs.Prelude.{◌≡◌, ◌==◌, ◌<◌, ◌+◌, ◌++◌, [], ◌∷◌, All, List as Sequence, IfErr, IfOk, OnOk, Some, length, map, position, slice_get, string_bytes};
ghost use Rattle.ba_input.specs.Inputs.{IsInput};
ghost use Rattle.ba_input.specs.declared.input.Input.{Input as Given};
ghost use Rattle.ba_lanes.specs.declared.journal.Entry.{Entry as EntryOf};
ghost use Rattle.ba_plan.specs.Sent.{SentLines};
ghost use Rattle.ba_wire.specs.Printed.{ReadsBack, fault_bytes, json_of, line_bytes, printed, read, summary_json};
ghost use Rattle.ba_lanes.specs.Legal.{left_templates};
ghost use Rattle.ba_store.specs.Written.{line_of as template_bytes};
ghost use Rattle.ba_top.specs.Audited.{IsWritten, LinesAreWritten, TellsWritten};
ghost use Rattle.ba_top.specs.Evidence.{AllClose, AreAfter};
ghost use Rattle.ba_top.specs.Text.{ReadsKey, entry_bytes, entry_line, key_name, lines_of, name_in, printed_block, printed_by, read_line, reply_line, summary_of, total_bytes};
ghost use Rattle.ba_top.specs.Told.{TellsClosed, told_lines};

use crate::evident::print_evident;
use crate::requests::Requests;
use crate::summary::count_all;
use ba_input::{Input, Told};
use ba_lanes::{Entry, Journal};
use ba_model::{List, Policy, Shared, Str};
use ba_outside::{Sink, WriteFail};
use ba_plan::send;
use ba_script::ScriptEntry;
use ba_session::{By, KeyReply, Reply, Why};
use ba_store::template_line;
use ba_template::Template;
use ba_wire::{Block, By as PrintedBy, Fault, Line, fault_text, line_text, summary_text};
use std::alloc::{AllocError, Global};

fn printed_by(by: &By) -> PrintedBy
    ensures { result ≡ printed_by by.now }
{
    match by {
        By::Cover(_) => PrintedBy::Cover,
        By::Template { .. } => PrintedBy::Template,
        By::Proof(..) => PrintedBy::Proof,
    }
}

pub(crate) fn printed_block(why: &Why) -> Block
    ensures { result ≡ printed_block why.now }
{
    match why {
        Why::Refuted(_) => Block::Refuted,
        Why::Spent(steps) => Block::Spent {
            steps: steps.len() as u64,
        },
        Why::Stuck(_, clause) => Block::Stuck { clause: *clause },
    }
}

fn reply_line<'a>(request: &'a Str, line: u64, version: u32, reply: &'a Reply) -> Line<'a>
    ensures { printed result ≡ reply_line request.now line version reply.now }
{
    match reply {
        Reply::Answer { rows, by, .. } => Line::Answer {
            by: printed_by(by),
            line,
            request,
            rows,
            version,
        },
        Reply::Blocked { why, .. } => Line::Block {
            blocked: printed_block(why),
            line,
            request,
            version,
        },
        Reply::Unread(fault) => Line::Unread {
            line,
            request,
            unread: fault,
            version,
        },
        Reply::NoMemory => Line::Memory { line },
    }
}

// What each of the queries rests on.
fn names_of(alloc: Global, by: &[By]) -> Result<List<PrintedBy>, AllocError>
    ensures { IfOk result (λ names. names ≡ map printed_by by.now) }
{
    let mut names = Vec::with_capacity(alloc, by.len())?;
    for it in by {
        names.push(printed_by(it))?;
    }
    Ok(List::from_vec(names))
}

// The line of a read of the key with this name that is let through.
fn allowed_text(
    alloc: Global,
    name: &Str,
    line: u64,
    version: u32,
    key: &Str,
    by: &[By],
) -> Result<String, AllocError>
    ensures text { IfOk result (λ text. string_bytes text
        ≡ line_bytes (read (map printed_by by.now) key.now line name.now version)) }
    ensures reads_back { IfOk result (λ text. ReadsBack (string_bytes text)
        (json_of (read (map printed_by by.now) key.now line name.now version))) }
{
    let by = names_of(alloc, by)?;
    let told = Line::Read {
        by: &by,
        key,
        line,
        read: name,
        version,
    };
    line_text(alloc, &told)
}

// The line of a read of the key with this name.
fn read_text(
    alloc: Global,
    name: &Str,
    line: u64,
    version: u32,
    key: &Str,
    reply: &KeyReply,
) -> Result<String, AllocError>
    ensures text { IfOk result (λ text. string_bytes text
        ≡ line_bytes (read_line name.now line version key.now reply.now)) }
    ensures reads_back { IfOk result (λ text. ReadsBack (string_bytes text)
        (json_of (read_line name.now line version key.now reply.now))) }
{
    match reply {
        KeyReply::Allowed { by, .. } => {
            allowed_text(alloc, name, line, version, key, by.as_slice())
        }
        KeyReply::Blocked { before, why, .. } => {
            let told = Line::ReadBlock {
                blocked: printed_block(why),
                key,
                line,
                query: before.len() as u64,
                read: name,
                version,
            };
            line_text(alloc, &told)
        }
        KeyReply::NoMemory => line_text(alloc, &Line::Memory { line }),
    }
}

/// The name of the policy's cache key with this number.
pub(crate) fn key_name(policy: &Policy, number: usize) -> &Str
    requires { number < length policy.now.keys }
    ensures { result.now ≡ key_name policy.now number }
{
    &policy.keys.get(number).name
}

/// The line of an entry, for a request or a table set of this name.
pub(crate) fn entry_text(
    alloc: Global,
    policy: &Shared<Policy>,
    name: &Str,
    line: u64,
    entry: &Entry,
) -> Result<String, AllocError>
    requires key { ReadsKey policy.now entry.now }
    ensures text { IfOk result (λ text. string_bytes text
        ≡ line_bytes (entry_line policy.now name.now line entry.now)) }
    ensures reads_back { IfOk result (λ text. ReadsBack (string_bytes text)
        (json_of (entry_line policy.now name.now line entry.now))) }
{
    match entry {
        Entry::Begin { version, .. } => {
            let told = Line::Begin {
                begin: name,
                line,
                version: *version,
            };
            line_text(alloc, &told)
        }
        Entry::Ask { version, reply, .. } => {
            line_text(alloc, &reply_line(name, line, *version, reply))
        }
        Entry::Read {
            version,
            key,
            reply,
            ..
        } => {
            let key = key_name(policy, *key);
            read_text(alloc, name, line, *version, key, reply)
        }
        Entry::End { .. } => line_text(alloc, &Line::End { end: name, line }),
        Entry::Publish { version } => {
            let told = Line::Publish {
                line,
                publish: name,
                version: *version,
            };
            line_text(alloc, &told)
        }
        Entry::Memory { .. } => line_text(alloc, &Line::Memory { line }),
    }
}

pub(crate) fn name_in(said: &ScriptEntry) -> &Str
    ensures { result.now ≡ name_in said.now }
{
    match said {
        ScriptEntry::Begin { name, .. } => name,
        ScriptEntry::Ask { name, .. } => name,
        ScriptEntry::Read { name, .. } => name,
        ScriptEntry::End { name, .. } => name,
        ScriptEntry::Publish { set, .. } => set,
    }
}

// Writes the line of an entry, for a line of the script with its number.
fn print_entry<S: Sink>(
    alloc: Global,
    input: &Input,
    said: &ScriptEntry,
    line: u64,
    entry: &Entry,
    sink: &mut S,
) -> Result<(), WriteFail>
    requires { ReadsKey input.now.policy entry.now }
    ensures { (earlier : Sequence EntryOf)
        → slice_get input.now.script.entries (length earlier) ≡ Some said.now
        → line ≡ length earlier + 1 → SentLines (entry_bytes input.now earlier entry.now ∷ [])
        (S.seen sink.old) (S.seen sink.new) result }
{
    let Ok(text) = entry_text(alloc, &input.policy, name_in(said), line, entry) else {
        return Err(WriteFail::NoMemory);
    };
    send(sink, text.as_bytes())
}

// The summary's line, if there is memory for it and each of its numbers is one of 64 bits.
#[tactic(auto, unfolding(crate::specs::Text::total_bytes))]
fn summary_line(alloc: Global, journal: &Journal) -> Result<String, WriteFail>
    ensures text { IfOk result (λ text. string_bytes text ≡ total_bytes journal.now.entries) }
    ensures reads_back { IfOk result (λ text. ReadsBack (string_bytes text)
        (summary_json (summary_of journal.now.entries))) }
{
    let Some(summary) = count_all(journal.entries.as_slice()) else {
        return Err(WriteFail::NoMemory);
    };
    match summary_text(alloc, &summary) {
        Ok(text) => Ok(text),
        Err(_) => Err(WriteFail::NoMemory),
    }
}

// Writes the summary.
fn print_summary<S: Sink>(alloc: Global, journal: &Journal, sink: &mut S) -> Result<(), WriteFail>
    ensures sent { SentLines (total_bytes journal.now.entries ∷ [])
        (S.seen sink.old) (S.seen sink.new) result }
    ensures written { IfOk result (λ _. IsWritten (total_bytes journal.now.entries)
        (summary_json (summary_of journal.now.entries))) }
{
    let Ok(text) = summary_line(alloc, journal) else {
        return Err(WriteFail::NoMemory);
    };
    send(sink, text.as_bytes())
}

// Writes the line of a template.
fn print_template<S: Sink>(
    alloc: Global,
    template: &Template,
    sink: &mut S,
) -> Result<(), WriteFail>
    ensures { SentLines (template_bytes template.now ∷ []) (S.seen sink.old) (S.seen sink.new) result }
{
    let Ok(text) = template_line(alloc, template) else {
        return Err(WriteFail::NoMemory);
    };
    send(sink, text.as_bytes())
}

// Writes the lines of templates, in order.
fn print_each<S: Sink>(
    alloc: Global,
    templates: &[Shared<Template>],
    sink: &mut S,
) -> Result<(), WriteFail>
    ensures { SentLines (map template_bytes templates.now)
        (S.seen sink.old) (S.seen sink.new) result }
{
    for template in templates {
        print_template(alloc, template, sink)?;
    }
    Ok(())
}

// Writes the templates that the shelves' histories leave.
fn print_templates<S: Sink>(alloc: Global, journal: &Journal, sink: &mut S) -> Result<(), WriteFail>
    ensures { SentLines (map template_bytes (left_templates journal.now))
        (S.seen sink.old) (S.seen sink.new) result }
{
    let Ok(templates) = journal.templates(alloc) else {
        return Err(WriteFail::NoMemory);
    };
    print_each(alloc, templates.as_slice(), sink)
}

// Writes the line of each entry, in order, and then the summary.
fn print_lines<S: Sink>(
    alloc: Global,
    input: &Input,
    journal: &Journal,
    sink: &mut S,
) -> Result<(), WriteFail>
    requires many { length journal.now.entries ≡ length input.now.script.entries }
    requires keys { All (ReadsKey input.now.policy) journal.now.entries }
    ensures { SentLines (told_lines Told.Lines input.now journal.now)
        (S.seen sink.old) (S.seen sink.new) result }
{
    for place in 0..journal.entries.len() {
        let said = input.script.entries.get(place);
        let entry = journal.entries.get(place);
        print_entry(alloc, input, said, place as u64 + 1, entry, sink)?;
    }
    print_summary(alloc, journal, sink)
}

// Takes a line of the script in, with its entry.
fn follow(
    alloc: Global,
    requests: &mut Requests,
    said: &ScriptEntry,
    entry: &Entry,
) -> Result<(), WriteFail>
    ensures ok { OnOk result ((input : Given) (earlier : Sequence EntryOf)
        → slice_get input.script.entries (length earlier) ≡ Some said.now
        → AreAfter input earlier requests.old
        → AreAfter input (earlier ++ entry.now ∷ []) requests.new) }
    ensures err { IfErr result (λ e. e ≡ WriteFail.NoMemory) }
{
    match requests.follow(alloc, said, entry) {
        Ok(()) => Ok(()),
        Err(_) => Err(WriteFail::NoMemory),
    }
}

// Writes the line of each entry with its evidence, in order, and then the summary.
fn print_proofs<S: Sink>(
    alloc: Global,
    input: &Input,
    journal: &Journal,
    sink: &mut S,
) -> Result<(), WriteFail>
    requires input { IsInput input.now }
    requires many { length journal.now.entries ≡ length input.now.script.entries }
    requires keys { All (ReadsKey input.now.policy) journal.now.entries }
    ensures sent { SentLines (told_lines Told.Proofs input.now journal.now)
        (S.seen sink.old) (S.seen sink.new) result }
    ensures closed { IfOk result (λ _. AllClose input.now [] journal.now.entries) }
    ensures written { IfOk result (λ _. LinesAreWritten input.now journal.now) }
{
    let mut requests = Requests::new(alloc);
    for place in 0..journal.entries.len() {
        let said = input.script.entries.get(place);
        let entry = journal.entries.get(place);
        print_evident(alloc, input, &requests, said, place as u64 + 1, entry, sink)?;
        follow(alloc, &mut requests, said, entry)?;
    }
    print_summary(alloc, journal, sink)
}

/// Writes what is told of a run: of each line of the script, by its entry, in order, and then the
/// summary; or the summary alone, or the templates that the run leaves. Where proofs are told and all
/// is written, the steps that are told of answers by templates close their questions' problems, and
/// each line reads back.
pub(crate) fn print_told<S: Sink>(
    alloc: Global,
    input: &Input,
    journal: &Journal,
    told: Told,
    sink: &mut S,
) -> Result<(), WriteFail>
    requires input { IsInput input.now }
    requires many { length journal.now.entries ≡ length input.now.script.entries }
    requires keys { All (ReadsKey input.now.policy) journal.now.entries }
    ensures sent { SentLines (told_lines told input.now journal.now)
        (S.seen sink.old) (S.seen sink.new) result }
    ensures closed { IfOk result (λ _. TellsClosed told input.now journal.now) }
    ensures written { IfOk result (λ _. TellsWritten told input.now journal.now) }
{
    match told {
        Told::Lines => print_lines(alloc, input, journal, sink),
        Told::Proofs => print_proofs(alloc, input, journal, sink),
        Told::Summary => print_summary(alloc, journal, sink),
        Told::Templates => print_templates(alloc, journal, sink),
    }
}

fn line_end(bytes: &[u8]) -> Option<usize>
    ensures { result ≡ position (λ b. b == 10) bytes.now }
{
    bytes.iter().position(|b| *b == b'\n')
}

// The first line, and the bytes behind it.
fn first_line(bytes: &[u8]) -> (&[u8], &[u8])
    requires { 0 < length bytes.now }
    ensures lines { lines_of bytes.now ≡ result.0.now ∷ lines_of result.1.now }
    ensures shorter { length result.1.now < length bytes.now }
{
    match line_end(bytes) {
        Some(end) => bytes.split_at(end + 1),
        None => bytes.split_at(bytes.len()),
    }
}

/// Writes the lines of a text, one after another.
pub(crate) fn print_text<S: Sink>(text: &[u8], sink: &mut S) -> Result<(), WriteFail>
    ensures { SentLines (lines_of text.now) (S.seen sink.old) (S.seen sink.new) result }
{
    let mut rest = text;
    while !rest.is_empty() {
        let (line, behind) = first_line(rest);
        send(sink, line)?;
        rest = behind;
    }
    Ok(())
}

/// Writes the line of a fault.
pub(crate) fn print_fault<S: Sink>(
    alloc: Global,
    fault: &Fault,
    sink: &mut S,
) -> Result<(), WriteFail>
    ensures { SentLines (fault_bytes fault.now ∷ []) (S.seen sink.old) (S.seen sink.new) result }
{
    let Ok(text) = fault_text(alloc, fault) else {
        return Err(WriteFail::NoMemory);
    };
    send(sink, text.as_bytes())
}
