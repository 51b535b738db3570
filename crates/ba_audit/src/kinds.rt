//! Whether a printed line is of the kind and the version that it has to be.
ghost use Rattle.std.specs.Prelude.{◌≡◌, ◌==◌};
ghost use Rattle.std.specs.List.{list_any};
ghost use Rattle.std.specs.Option.{option_copied};
ghost use Rattle.ba_audit.specs.Keeping.{basis_at};
ghost use Rattle.ba_audit.specs.Tests.{has_form, is_key, is_kind, is_name, is_number, is_version, is_within, may_ask, may_begin, may_follow, may_go_on, may_publish};

use crate::against::{Against, tables_of};
use crate::numbered::Numbered;
use crate::printed::{
    asked_over, asker_in, begin_in, begun_over, end_in, is_memory, key_in, number_in, published_as,
    reader_in, set_in,
};
use crate::request::Begun;
use ba_model::{CacheKey, Policy, Shared, Str};
use ba_printed::PrintedLine;
use ba_script::ScriptEntry;

fn is_name(found: Option<&Str>, name: &Str) -> bool
    ensures { result ≡ is_name (option_copied found.entry) name.now }
{
    match found {
        Some(other) => other.as_bytes() == name.as_bytes(),
        None => false,
    }
}

/// Whether the line is within the queries of a key that has so many: a read that is let through has
/// as many members, and a block is of one of them.
#[tactic(auto, unfolding(crate::specs::Tests::is_within))]
fn is_within(queries: usize, line: &PrintedLine) -> bool
    ensures { result ≡ is_within queries line.now }
{
    match line {
        PrintedLine::Read { evidence, .. } => evidence.len() == queries,
        PrintedLine::ReadBlock { query, .. } => *query < queries as u64,
        PrintedLine::Begin { .. }
        | PrintedLine::End { .. }
        | PrintedLine::Publish { .. }
        | PrintedLine::Answer { .. }
        | PrintedLine::Block { .. }
        | PrintedLine::UnevenRead
        | PrintedLine::Unread { .. }
        | PrintedLine::Memory { .. }
        | PrintedLine::Summary(_) => true,
    }
}

/// Whether the line names the key, if it is there, and is within its queries.
fn is_key(found: Option<&CacheKey>, line: &PrintedLine) -> bool
    ensures { result ≡ is_key (option_copied found.entry) line.now }
{
    match found {
        Some(key) => is_name(key_in(line), &key.name) && is_within(key.queries.len(), line),
        None => false,
    }
}

/// Whether the line is of the entry's form, under its name.
#[tactic(auto, unfolding(crate::specs::Tests::has_form))]
fn has_form(policy: &Shared<Policy>, entry: &ScriptEntry, line: &PrintedLine) -> bool
    ensures { result ≡ has_form policy.now entry.now line.now }
{
    match entry {
        ScriptEntry::Begin { name, .. } => is_name(begin_in(line), name),
        ScriptEntry::Ask { name, .. } => is_name(asker_in(line), name),
        ScriptEntry::Read { name, key, .. } => {
            is_name(reader_in(line), name) && is_key(policy.keys.find(*key), line)
        }
        ScriptEntry::End { name, .. } => is_name(end_in(line), name),
        ScriptEntry::Publish { set, .. } => is_name(set_in(line), set),
    }
}

fn is_number(found: Option<u64>, number: u64) -> bool
    ensures { result ≡ is_number found number }
{
    match found {
        Some(other) => other == number,
        None => false,
    }
}

/// Whether the request is begun, and may print the line.
fn may_go_on(held: Option<&Begun>, line: &PrintedLine) -> bool
    ensures { result ≡ may_go_on (option_copied held.entry) line.now }
{
    match held {
        Some(begun) => match begun {
            Begun::Silent => is_memory(line),
            Begun::Asking(_) => true,
        },
        None => false,
    }
}

#[tactic(auto, unfolding(crate::specs::Tests::may_follow))]
fn may_follow(entry: &ScriptEntry, held: Option<&Begun>, line: &PrintedLine) -> bool
    ensures { result ≡ may_follow entry.now (option_copied held.entry) line.now }
{
    match entry {
        ScriptEntry::Begin { .. } => true,
        ScriptEntry::Ask { .. } => may_go_on(held, line),
        ScriptEntry::Read { .. } => may_go_on(held, line),
        ScriptEntry::End { .. } => may_go_on(held, line),
        ScriptEntry::Publish { .. } => true,
    }
}

/// Whether the line's form, name and number are those of the script's line, and its request may
/// print it, of which so much is known.
pub(crate) fn is_kind(
    policy: &Shared<Policy>,
    entry: &ScriptEntry,
    number: u64,
    held: Option<&Begun>,
    line: &PrintedLine,
) -> bool
    ensures { result ≡ is_kind policy.now entry.now number (option_copied held.entry) line.now }
{
    let form = is_memory(line) || has_form(policy, entry, line);
    form && (is_number(number_in(line), number) && may_follow(entry, held, line))
}

/// Whether the number is used.
fn is_used(used: &[Numbered], version: u64) -> bool
    ensures { result ≡ list_any (λ it. it.version == version) used.now }
{
    used.iter().any(|it| it.version == version)
}

fn may_publish(numbered: &[Numbered], used: &[Numbered], version: Option<u64>) -> bool
    ensures { result ≡ may_publish numbered.now used.now version }
{
    match version {
        Some(version) => {
            0 < version && (version < numbered.len() as u64 && !is_used(used, version))
        }
        None => true,
    }
}

fn may_begin(against: &Against<'_>, version: Option<u64>) -> bool
    ensures { result ≡ may_begin (basis_at against.now) version }
{
    match version {
        Some(version) => tables_of(against, version).is_some(),
        None => true,
    }
}

fn may_ask(held: Option<&Begun>, version: Option<u64>) -> bool
    ensures { result ≡ may_ask (option_copied held.entry) version }
{
    match held {
        Some(begun) => match begun {
            Begun::Silent => true,
            Begun::Asking(asker) => match version {
                Some(version) => asker.version == version,
                None => true,
            },
        },
        None => true,
    }
}

/// Whether the line's version is one that it may have, where these numbers of sets are used and so
/// much is known of its request.
#[tactic(auto, unfolding(crate::specs::Tests::is_version))]
pub(crate) fn is_version(
    against: &Against<'_>,
    used: &[Numbered],
    held: Option<&Begun>,
    entry: &ScriptEntry,
    line: &PrintedLine,
) -> bool
    ensures { result ≡ is_version (basis_at against.now) used.now (option_copied held.entry) entry.now line.now }
{
    match entry {
        ScriptEntry::Begin { .. } => may_begin(against, begun_over(line)),
        ScriptEntry::Ask { .. } => may_ask(held, asked_over(line)),
        ScriptEntry::Read { .. } => may_ask(held, asked_over(line)),
        ScriptEntry::End { .. } => true,
        ScriptEntry::Publish { .. } => may_publish(against.numbered, used, published_as(line)),
    }
}
