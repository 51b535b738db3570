//! The lines of a run.
#![tactic(auto, unfolding(crate::specs::Printed::json_of))]

ghost use Rattle.std.specs.Prelude.{◌≡◌, IfOk, option_copied, string_bytes};
ghost use Rattle.ba_wire.specs.Object.{made};
ghost use Rattle.ba_wire.specs.Printed.{ReadsBack, by_name, block_name, clause_name, unsupported_in, begin, end, publish, block, read_block, unread, memory, printed, json_of, line_bytes};

use crate::answer::answer_text;
use crate::brief::{begin_text, end_text, refuted_text};
use crate::names::fault_name;
use crate::object::Object;
use crate::reads::read_text;
use ba_model::{List, Row, Str};
use ba_refute::Clause;
use ba_sql_query::ReadQueryFault;
use serde_json::Value as Json;
use std::alloc::{AllocError, Global};

/// What an answer rests on.
#[derive(Clone, Copy, Debug, PartialEq, Eq)]
pub enum By {
    /// One view for each part of the question.
    Cover,
    /// A template that was learned from a proof.
    Template,
    /// A proof that the question is compliant.
    Proof,
}

/// Why a question is blocked.
#[derive(Clone, Copy, Debug, PartialEq, Eq)]
pub enum Block {
    /// Two databases show that the question isn't strongly compliant.
    Refuted,
    /// The search took as many steps as it may, these.
    Spent { steps: u64 },
    /// The search ended at a branch whose image doesn't meet a clause of a counterexample, first
    /// this one.
    Stuck { clause: Clause },
}

/// One printed line of a run: `line` is the script's line, from 1, and `version` that of the request's tables, from 0.
#[derive(Clone, Copy, Debug)]
pub enum Line<'a> {
    /// A request of this name begins.
    Begin {
        begin: &'a Str,
        line: u64,
        version: u32,
    },
    /// The request of this name ends.
    End {
        end: &'a Str,
        line: u64,
    },
    /// The table set of this name is published, as the tables' version of this number.
    Publish {
        line: u64,
        publish: &'a Str,
        version: u32,
    },
    /// A question's answer: its rows, in order. NULL is printed as `null`.
    Answer {
        by: By,
        line: u64,
        request: &'a Str,
        rows: &'a List<Row>,
        version: u32,
    },
    Block {
        blocked: Block,
        line: u64,
        request: &'a Str,
        version: u32,
    },
    /// The request may read the cache key: what each of the key's queries rests on, in order.
    Read {
        by: &'a List<By>,
        key: &'a Str,
        line: u64,
        read: &'a Str,
        version: u32,
    },
    /// The request may not read the cache key, for the key's query of this number, from 0.
    ReadBlock {
        blocked: Block,
        key: &'a Str,
        line: u64,
        query: u64,
        read: &'a Str,
        version: u32,
    },
    Unread {
        line: u64,
        request: &'a Str,
        unread: &'a ReadQueryFault,
        version: u32,
    },
    /// The line found no memory.
    Memory {
        line: u64,
    },
}

impl By {
    /// The name under which it is printed.
    pub fn name(self) -> &'static str
        ensures { result.now ≡ by_name self }
    {
        match self {
            By::Cover => "cover",
            By::Template => "template",
            By::Proof => "proof",
        }
    }
}

impl Block {
    pub(crate) fn name(self) -> &'static str
        ensures { result.now ≡ block_name self }
    {
        match self {
            Block::Refuted => "refuted",
            Block::Spent { .. } => "spent",
            Block::Stuck { .. } => "stuck",
        }
    }
}

pub(crate) fn clause_name(clause: Clause) -> &'static str
    ensures { result.now ≡ clause_name clause }
{
    match clause {
        Clause::Value => "value",
        Clause::ConformOne => "conform_one",
        Clause::ConformTwo => "conform_two",
        Clause::Within => "within",
        Clause::Shown => "shown",
        Clause::Asked => "asked",
        Clause::Absent => "absent",
    }
}

// What isn't supported, if that is the fault.
pub(crate) fn unsupported_in(fault: &ReadQueryFault) -> Option<&Str>
    ensures { option_copied result ≡ unsupported_in fault.now }
{
    match fault {
        ReadQueryFault::Unsupported(word) => Some(word),
        _ => None,
    }
}

fn publish_object(alloc: Global, line: u64, set: &Str, version: u32) -> Result<Object, AllocError>
    ensures { IfOk result (λ it. made it ≡ json_of (publish line set.now version)) }
{
    Object::new(alloc)
        .with_count("line", line)?
        .with_text("publish", set.as_str())?
        .with_count("version", version as u64)
}

fn block_object(
    alloc: Global,
    blocked: Block,
    line: u64,
    request: &Str,
    version: u32,
) -> Result<Object, AllocError>
    ensures { IfOk result (λ it. made it ≡ json_of (block blocked line request.now version)) }
{
    let object = Object::new(alloc).with_text("blocked", blocked.name())?;
    match blocked {
        Block::Refuted => object
            .with_count("line", line)?
            .with_text("request", request.as_str())?
            .with_count("version", version as u64),
        Block::Spent { steps } => object
            .with_count("line", line)?
            .with_text("request", request.as_str())?
            .with_count("steps", steps)?
            .with_count("version", version as u64),
        Block::Stuck { clause } => object
            .with_text("clause", clause_name(clause))?
            .with_count("line", line)?
            .with_text("request", request.as_str())?
            .with_count("version", version as u64),
    }
}

/// The line of a blocked question.
fn block_text(
    alloc: Global,
    blocked: Block,
    line: u64,
    request: &Str,
    version: u32,
) -> Result<String, AllocError>
    ensures text { IfOk result (λ s. string_bytes s
        ≡ line_bytes (block blocked line request.now version)) }
    ensures reads_back { IfOk result (λ s.
        ReadsBack (string_bytes s) (json_of (block blocked line request.now version))) }
{
    match blocked {
        Block::Refuted => refuted_text(alloc, line, request, version),
        _ => block_object(alloc, blocked, line, request, version)?.line(),
    }
}

fn read_block_object(
    alloc: Global,
    blocked: Block,
    key: &Str,
    line: u64,
    query: u64,
    request: &Str,
    version: u32,
) -> Result<Object, AllocError>
    ensures { IfOk result (λ it. made it
        ≡ json_of (read_block blocked key.now line query request.now version)) }
{
    let object = Object::new(alloc).with_text("blocked", blocked.name())?;
    match blocked {
        Block::Refuted => object
            .with_text("key", key.as_str())?
            .with_count("line", line)?
            .with_count("query", query)?
            .with_text("read", request.as_str())?
            .with_count("version", version as u64),
        Block::Spent { steps } => object
            .with_text("key", key.as_str())?
            .with_count("line", line)?
            .with_count("query", query)?
            .with_text("read", request.as_str())?
            .with_count("steps", steps)?
            .with_count("version", version as u64),
        Block::Stuck { clause } => object
            .with_text("clause", clause_name(clause))?
            .with_text("key", key.as_str())?
            .with_count("line", line)?
            .with_count("query", query)?
            .with_text("read", request.as_str())?
            .with_count("version", version as u64),
    }
}

fn unread_object(
    alloc: Global,
    line: u64,
    request: &Str,
    fault: &ReadQueryFault,
    version: u32,
) -> Result<Object, AllocError>
    ensures { IfOk result (λ it. made it ≡ json_of (unread line request.now fault.now version)) }
{
    let object = Object::new(alloc)
        .with_count("line", line)?
        .with_text("request", request.as_str())?
        .with_text("unread", fault_name(fault))?
        .with_count("version", version as u64)?;
    match unsupported_in(fault) {
        Some(word) => object.with_text("word", word.as_str()),
        None => Ok(object),
    }
}

fn memory_object(alloc: Global, line: u64) -> Result<Object, AllocError>
    ensures { IfOk result (λ it. made it ≡ json_of (memory line)) }
{
    Object::new(alloc)
        .with_count("line", line)?
        .with("memory", Json::Bool(true))
}

/// The text of a line with its line feed, in time linear in its length.
pub fn line_text(alloc: Global, line: &Line) -> Result<String, AllocError>
    ensures text { IfOk result (λ s. string_bytes s ≡ line_bytes (printed line.now)) }
    ensures reads_back { IfOk result (λ s.
        ReadsBack (string_bytes s) (json_of (printed line.now))) }
{
    match line {
        Line::Begin {
            begin,
            line,
            version,
        } => begin_text(alloc, begin, *line, *version),
        Line::End { end, line } => end_text(alloc, end, *line),
        Line::Publish {
            line,
            publish,
            version,
        } => publish_object(alloc, *line, publish, *version)?.line(),
        Line::Answer {
            by,
            line,
            request,
            rows,
            version,
        } => answer_text(alloc, by.name(), *line, request, rows, *version),
        Line::Block {
            blocked,
            line,
            request,
            version,
        } => block_text(alloc, *blocked, *line, request, *version),
        Line::Read {
            by,
            key,
            line,
            read,
            version,
        } => read_text(alloc, by.as_slice(), key, *line, read, *version),
        Line::ReadBlock {
            blocked,
            key,
            line,
            query,
            read,
            version,
        } => { read_block_object(alloc, *blocked, key, *line, *query, read, *version)?.line() }
        Line::Unread {
            line,
            request,
            unread,
            version,
        } => unread_object(alloc, *line, request, unread, *version)?.line(),
        Line::Memory { line } => memory_object(alloc, *line)?.line(),
    }
}
