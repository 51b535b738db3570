//! The lines that a decision service writes, which have no version.
#![tactic(auto, unfolding(crate::specs::Said::said_json))]

ghost use Rattle.std.specs.Prelude.{◌≡◌, IfOk, string_bytes};
ghost use Rattle.ba_wire.specs.Object.{made};
ghost use Rattle.ba_wire.specs.Printed.{ReadsBack};
ghost use Rattle.ba_wire.specs.Said.{allowed, allowed_read, begun, blocked, blocked_read, faulty, said, said_bytes, said_json, told, unread};

use crate::line::{Block, By, clause_name, unsupported_in};
use crate::names::fault_name;
use crate::object::Object;
use crate::reads::names_json;
use ba_model::{List, Str};
use ba_sql_query::ReadQueryFault;
use std::alloc::{AllocError, Global};

/// One line that a decision service writes: `line` is the line that it answers, from 1. A request's
/// end and want of memory are those of [`crate::Line`].
#[derive(Clone, Copy, Debug)]
pub enum SaidLine<'a> {
    /// A request of this name begins.
    Begun {
        begin: &'a Str,
        line: u64,
    },
    /// The question may be put to the database, by this text.
    Allowed {
        by: By,
        line: u64,
        request: &'a Str,
        send: &'a Str,
    },
    Blocked {
        blocked: Block,
        line: u64,
        request: &'a Str,
    },
    /// The request may read the cache key: what each of the key's queries rests on, in order.
    AllowedRead {
        by: &'a List<By>,
        key: &'a Str,
        line: u64,
        read: &'a Str,
    },
    /// The request may not read the cache key, for the key's query of this number, from 0.
    BlockedRead {
        blocked: Block,
        key: &'a Str,
        line: u64,
        query: u64,
        read: &'a Str,
    },
    Unread {
        line: u64,
        request: &'a Str,
        unread: &'a ReadQueryFault,
    },
    /// The rows of the question of line `told` are recorded.
    Told {
        line: u64,
        told: u64,
    },
    /// The line changes nothing, for this reason.
    Faulty {
        fault: &'a str,
        line: u64,
    },
}

fn begun_object(alloc: Global, request: &Str, line: u64) -> Result<Object, AllocError>
    ensures { IfOk result (λ it. made it ≡ said_json (begun request.now line)) }
{
    Object::new(alloc)
        .with_text("begin", request.as_str())?
        .with_count("line", line)
}

fn allowed_object(
    alloc: Global,
    by: By,
    line: u64,
    request: &Str,
    send: &Str,
) -> Result<Object, AllocError>
    ensures { IfOk result (λ it. made it ≡ said_json (allowed by line request.now send.now)) }
{
    Object::new(alloc)
        .with_text("allowed", by.name())?
        .with_count("line", line)?
        .with_text("request", request.as_str())?
        .with_text("send", send.as_str())
}

fn blocked_object(alloc: Global, why: Block, line: u64, request: &Str) -> Result<Object, AllocError>
    ensures { IfOk result (λ it. made it ≡ said_json (blocked why line request.now)) }
{
    let object = Object::new(alloc).with_text("blocked", why.name())?;
    match why {
        Block::Refuted => object
            .with_count("line", line)?
            .with_text("request", request.as_str()),
        Block::Spent { steps } => object
            .with_count("line", line)?
            .with_text("request", request.as_str())?
            .with_count("steps", steps),
        Block::Stuck { clause } => object
            .with_text("clause", clause_name(clause))?
            .with_count("line", line)?
            .with_text("request", request.as_str()),
    }
}

fn allowed_read_object(
    alloc: Global,
    by: &[By],
    key: &Str,
    line: u64,
    request: &Str,
) -> Result<Object, AllocError>
    ensures { IfOk result (λ it. made it
        ≡ said_json (allowed_read by.now key.now line request.now)) }
{
    let names = names_json(alloc, by)?;
    Object::new(alloc)
        .with("allowed", names)?
        .with_text("key", key.as_str())?
        .with_count("line", line)?
        .with_text("read", request.as_str())
}

fn allowed_read_text(
    alloc: Global,
    by: &[By],
    key: &Str,
    line: u64,
    request: &Str,
) -> Result<String, AllocError>
    ensures text { IfOk result (λ s. string_bytes s
        ≡ said_bytes (allowed_read by.now key.now line request.now)) }
    ensures reads_back { IfOk result (λ s. ReadsBack (string_bytes s)
        (said_json (allowed_read by.now key.now line request.now))) }
{
    let object = allowed_read_object(alloc, by, key, line, request)?;
    object.line()
}

fn blocked_read_object(
    alloc: Global,
    why: Block,
    key: &Str,
    line: u64,
    query: u64,
    request: &Str,
) -> Result<Object, AllocError>
    ensures { IfOk result (λ it. made it
        ≡ said_json (blocked_read why key.now line query request.now)) }
{
    let object = Object::new(alloc).with_text("blocked", why.name())?;
    match why {
        Block::Refuted => object
            .with_text("key", key.as_str())?
            .with_count("line", line)?
            .with_count("query", query)?
            .with_text("read", request.as_str()),
        Block::Spent { steps } => object
            .with_text("key", key.as_str())?
            .with_count("line", line)?
            .with_count("query", query)?
            .with_text("read", request.as_str())?
            .with_count("steps", steps),
        Block::Stuck { clause } => object
            .with_text("clause", clause_name(clause))?
            .with_text("key", key.as_str())?
            .with_count("line", line)?
            .with_count("query", query)?
            .with_text("read", request.as_str()),
    }
}

fn unread_object(
    alloc: Global,
    line: u64,
    request: &Str,
    fault: &ReadQueryFault,
) -> Result<Object, AllocError>
    ensures { IfOk result (λ it. made it ≡ said_json (unread line request.now fault.now)) }
{
    let object = Object::new(alloc)
        .with_count("line", line)?
        .with_text("request", request.as_str())?
        .with_text("unread", fault_name(fault))?;
    match unsupported_in(fault) {
        Some(word) => object.with_text("word", word.as_str()),
        None => Ok(object),
    }
}

fn told_object(alloc: Global, line: u64, asked: u64) -> Result<Object, AllocError>
    ensures { IfOk result (λ it. made it ≡ said_json (told line asked)) }
{
    Object::new(alloc)
        .with_count("line", line)?
        .with_count("told", asked)
}

fn faulty_object(alloc: Global, reason: &str, line: u64) -> Result<Object, AllocError>
    ensures { IfOk result (λ it. made it ≡ said_json (faulty reason.now line)) }
{
    Object::new(alloc)
        .with_text("fault", reason)?
        .with_count("line", line)
}

/// The text of a line with its line feed.
pub fn said_text(alloc: Global, line: &SaidLine) -> Result<String, AllocError>
    ensures text { IfOk result (λ s. string_bytes s ≡ said_bytes (said line.now)) }
    ensures reads_back { IfOk result (λ s.
        ReadsBack (string_bytes s) (said_json (said line.now))) }
{
    match line {
        SaidLine::Begun { begin, line } => begun_object(alloc, begin, *line)?.line(),
        SaidLine::Allowed {
            by,
            line,
            request,
            send,
        } => allowed_object(alloc, *by, *line, request, send)?.line(),
        SaidLine::Blocked {
            blocked,
            line,
            request,
        } => blocked_object(alloc, *blocked, *line, request)?.line(),
        SaidLine::AllowedRead {
            by,
            key,
            line,
            read,
        } => allowed_read_text(alloc, by.as_slice(), key, *line, read),
        SaidLine::BlockedRead {
            blocked,
            key,
            line,
            query,
            read,
        } => blocked_read_object(alloc, *blocked, key, *line, *query, read)?.line(),
        SaidLine::Unread {
            line,
            request,
            unread,
        } => unread_object(alloc, *line, request, unread)?.line(),
        SaidLine::Told { line, told } => told_object(alloc, *line, *told)?.line(),
        SaidLine::Faulty { fault, line } => faulty_object(alloc, fault, *line)?.line(),
    }
}
