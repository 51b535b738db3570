//! The forms of printed lines, each by its keys.
ghost use Rattle.serde_json.specs.View.{members_view, view};
ghost use Rattle.ba_model.specs.Readings.{Gives};
ghost use Rattle.ba_printed.specs.Reading.{answer_from, begin_from, block_of, end_from, form_of, line_at, memory_from, other_of, publish_from, refuted_from, spent_from, stuck_from, summary_from, unread_from, unsupported_from};

use crate::evidence::evidence_in;
use crate::line::{PrintedBlock, PrintedLine};
use crate::names::{clause_named, fault_named};
use crate::reads::read_of;
use crate::rows::{pair_of, rows_of};
use crate::shapes::{
    FormFault, field, is_true, keys_are, long_in, name_in, no_form, text_in, word_in,
};
use ba_model::{Failure, Owned, Parameter, Policy, Table};
use ba_sql_query::ReadQueryFault;
use ba_wire::Summary;
use serde_json::{Map, Value};
use std::alloc::Global;

#[tactic(auto, unfolding(crate::specs::Reading::begin_from))]
fn begin_from(alloc: Global, value: &Value) -> Result<PrintedLine, Failure<FormFault>>
    ensures { Gives result (begin_from (view value.now)) }
{
    let begin = name_in(alloc, value, "begin")?;
    let line = long_in(value, "line")?;
    let version = long_in(value, "version")?;
    Ok(PrintedLine::Begin {
        begin,
        line,
        version,
    })
}

#[tactic(auto, unfolding(crate::specs::Reading::end_from))]
fn end_from(alloc: Global, value: &Value) -> Result<PrintedLine, Failure<FormFault>>
    ensures { Gives result (end_from (view value.now)) }
{
    let end = name_in(alloc, value, "end")?;
    let line = long_in(value, "line")?;
    Ok(PrintedLine::End { end, line })
}

#[tactic(auto, unfolding(crate::specs::Reading::publish_from))]
fn publish_from(alloc: Global, value: &Value) -> Result<PrintedLine, Failure<FormFault>>
    ensures { Gives result (publish_from (view value.now)) }
{
    let line = long_in(value, "line")?;
    let publish = name_in(alloc, value, "publish")?;
    let version = long_in(value, "version")?;
    Ok(PrintedLine::Publish {
        line,
        publish,
        version,
    })
}

#[tactic(auto, unfolding(crate::specs::Reading::answer_from))]
fn answer_from(
    alloc: Global,
    params: &[Parameter],
    value: &Value,
) -> Result<PrintedLine, Failure<FormFault>>
    ensures { Gives result (answer_from params.now (view value.now)) }
{
    let line = long_in(value, "line")?;
    let version = long_in(value, "version")?;
    let request = name_in(alloc, value, "request")?;
    let found = field(value, "rows")?;
    let rows = rows_of(alloc, found)?;
    let evidence = evidence_in(alloc, params, value)?;
    Ok(PrintedLine::Answer {
        evidence,
        line,
        request,
        rows,
        version,
    })
}

#[tactic(auto, unfolding(crate::specs::Reading::refuted_from))]
fn refuted_from(
    alloc: Global,
    tables: &[Table],
    value: &Value,
) -> Result<PrintedLine, Failure<FormFault>>
    ensures { Gives result (refuted_from tables.now (view value.now)) }
{
    word_in(value, "blocked", "refuted")?;
    let line = long_in(value, "line")?;
    let version = long_in(value, "version")?;
    let request = name_in(alloc, value, "request")?;
    let found = field(value, "pair")?;
    let pair = pair_of(alloc, tables, found)?;
    let blocked = PrintedBlock::Refuted(pair);
    Ok(PrintedLine::Block {
        blocked,
        line,
        request,
        version,
    })
}

#[tactic(auto, unfolding(crate::specs::Reading::spent_from))]
fn spent_from(alloc: Global, value: &Value) -> Result<PrintedLine, Failure<FormFault>>
    ensures { Gives result (spent_from (view value.now)) }
{
    word_in(value, "blocked", "spent")?;
    let line = long_in(value, "line")?;
    let version = long_in(value, "version")?;
    let steps = long_in(value, "steps")?;
    let request = name_in(alloc, value, "request")?;
    let blocked = PrintedBlock::Spent(steps);
    Ok(PrintedLine::Block {
        blocked,
        line,
        request,
        version,
    })
}

#[tactic(auto, unfolding(crate::specs::Reading::stuck_from))]
fn stuck_from(alloc: Global, value: &Value) -> Result<PrintedLine, Failure<FormFault>>
    ensures { Gives result (stuck_from (view value.now)) }
{
    word_in(value, "blocked", "stuck")?;
    let line = long_in(value, "line")?;
    let version = long_in(value, "version")?;
    let name = text_in(value, "clause")?;
    let clause = clause_named(name)?;
    let request = name_in(alloc, value, "request")?;
    let blocked = PrintedBlock::Stuck(clause);
    Ok(PrintedLine::Block {
        blocked,
        line,
        request,
        version,
    })
}

#[tactic(auto, unfolding(crate::specs::Reading::unread_from))]
fn unread_from(alloc: Global, value: &Value) -> Result<PrintedLine, Failure<FormFault>>
    ensures { Gives result (unread_from (view value.now)) }
{
    let line = long_in(value, "line")?;
    let version = long_in(value, "version")?;
    let request = name_in(alloc, value, "request")?;
    let name = text_in(value, "unread")?;
    let unread = fault_named(name)?;
    Ok(PrintedLine::Unread {
        line,
        request,
        unread,
        version,
    })
}

#[tactic(auto, unfolding(crate::specs::Reading::unsupported_from))]
fn unsupported_from(alloc: Global, value: &Value) -> Result<PrintedLine, Failure<FormFault>>
    ensures { Gives result (unsupported_from (view value.now)) }
{
    word_in(value, "unread", "unsupported")?;
    let line = long_in(value, "line")?;
    let version = long_in(value, "version")?;
    let request = name_in(alloc, value, "request")?;
    let word = name_in(alloc, value, "word")?;
    let unread = ReadQueryFault::Unsupported(word);
    Ok(PrintedLine::Unread {
        line,
        request,
        unread,
        version,
    })
}

#[tactic(auto, unfolding(crate::specs::Reading::memory_from))]
fn memory_from(value: &Value) -> Result<PrintedLine, Failure<FormFault>>
    ensures { Gives result (memory_from (view value.now)) }
{
    let line = long_in(value, "line")?;
    let found = field(value, "memory")?;
    is_true(found)?;
    Ok(PrintedLine::Memory { line })
}

#[tactic(auto, unfolding(crate::specs::Reading::summary_from))]
fn summary_from(value: &Value) -> Result<PrintedLine, Failure<FormFault>>
    ensures { Gives result (summary_from (view value.now)) }
{
    let answered = long_in(value, "answered")?;
    let blocked = long_in(value, "blocked")?;
    let lines = long_in(value, "lines")?;
    let memory = long_in(value, "memory")?;
    let requests = long_in(value, "requests")?;
    let rows = long_in(value, "rows")?;
    let unread = long_in(value, "unread")?;
    Ok(PrintedLine::Summary(Summary {
        answered,
        blocked,
        lines,
        memory,
        requests,
        rows,
        unread,
    }))
}

#[tactic(auto, unfolding(crate::specs::Reading::other_of))]
fn other_of(
    alloc: Global,
    policy: &Policy,
    value: &Value,
    members: &Map<String, Value>,
) -> Result<PrintedLine, Failure<FormFault>>
    ensures { Gives result
        (other_of policy.now (view value.now) (members_view members.now.entries)) }
{
    if keys_are(&["begin", "line", "version"], members) {
        begin_from(alloc, value)
    } else if keys_are(&["end", "line"], members) {
        end_from(alloc, value)
    } else if keys_are(&["line", "publish", "version"], members) {
        publish_from(alloc, value)
    } else if keys_are(&["line", "memory"], members) {
        memory_from(value)
    } else if keys_are(
        &[
            "answered", "blocked", "lines", "memory", "requests", "rows", "unread",
        ],
        members,
    ) {
        summary_from(value)
    } else {
        read_of(alloc, policy, value, members)
    }
}

#[tactic(auto, unfolding(crate::specs::Reading::block_of))]
fn block_of(
    alloc: Global,
    policy: &Policy,
    value: &Value,
    members: &Map<String, Value>,
) -> Result<PrintedLine, Failure<FormFault>>
    ensures { Gives result
        (block_of policy.now (view value.now) (members_view members.now.entries)) }
{
    if keys_are(&["blocked", "line", "pair", "request", "version"], members) {
        refuted_from(alloc, policy.schema.tables.as_slice(), value)
    } else if keys_are(&["blocked", "line", "request", "steps", "version"], members) {
        spent_from(alloc, value)
    } else if keys_are(
        &["blocked", "clause", "line", "request", "version"],
        members,
    ) {
        stuck_from(alloc, value)
    } else {
        other_of(alloc, policy, value, members)
    }
}

#[tactic(auto, unfolding(crate::specs::Reading::form_of))]
fn form_of(
    alloc: Global,
    policy: &Policy,
    value: &Value,
    members: &Map<String, Value>,
) -> Result<PrintedLine, Failure<FormFault>>
    ensures { Gives result (form_of policy.now (view value.now)
        (members_view members.now.entries)) }
{
    if keys_are(
        &["by", "line", "proof", "request", "rows", "version"],
        members,
    ) {
        answer_from(alloc, policy.params.as_slice(), value)
    } else if keys_are(&["line", "request", "unread", "version"], members) {
        unread_from(alloc, value)
    } else if keys_are(&["line", "request", "unread", "version", "word"], members) {
        unsupported_from(alloc, value)
    } else {
        block_of(alloc, policy, value, members)
    }
}

/// The line that a JSON value is.
pub(crate) fn line_at(
    alloc: Global,
    policy: &Policy,
    value: &Value,
) -> Result<Owned<PrintedLine>, Failure<FormFault>>
    ensures { Gives result (line_at policy.now (view value.now)) }
{
    let Some(members) = value.as_object() else {
        return no_form();
    };
    let line = form_of(alloc, policy, value, members)?;
    Ok(Owned::new(alloc, line)?)
}
