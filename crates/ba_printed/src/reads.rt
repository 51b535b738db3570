//! Reads of cache keys: their lines, each by its keys.
ghost use Rattle.std.specs.Prelude.{◌≡◌, length, map};
ghost use Rattle.serde_json.specs.View.{members_view, view};
ghost use Rattle.ba_model.specs.Readings.{Gives, each};
ghost use Rattle.ba_printed.specs.Reading.{by_at, even_from, grounds_of, read_from, read_of, read_with, refuted_read_from, spent_read_from, stuck_read_from, uneven_from, unnamed_of};

use crate::evidence::{ground_of, unnamed_of};
use crate::line::{Evidence, PrintedBlock, PrintedLine};
use crate::names::{by_at, clause_named};
use crate::rows::pair_of;
use crate::shapes::{
    FormFault, field, keys_are, list_of, long_in, name_in, no_form, text_in, word_in,
};
use ba_model::{Failure, List, Parameter, Policy, Str, Table};
use ba_wire::By;
use serde_json::{Map, Value};
use std::alloc::Global;

/// What each query rests on, by the names and the proofs.
fn grounds_of(
    alloc: Global,
    params: &[Parameter],
    names: &[Value],
    proofs: &[Value],
) -> Result<List<Evidence>, Failure<FormFault>>
    requires even { length names.now ≡ length proofs.now }
    ensures { Gives result
        (grounds_of params.now (map view names.now) (map view proofs.now)) }
{
    let mut grounds = List::new(alloc);
    for (place, name) in names.iter().enumerate() {
        let ground = ground_of(alloc, params, name, &proofs[place])?;
        grounds.push(ground)?;
    }
    Ok(grounds)
}

/// What each query is said to rest on.
fn names_of(alloc: Global, names: &[Value]) -> Result<List<By>, Failure<FormFault>>
    ensures { Gives result (each by_at (map view names.now)) }
{
    let mut bys = List::new(alloc);
    for name in names {
        let by = by_at(name)?;
        bys.push(by)?;
    }
    Ok(bys)
}

/// The proofs, whatever their names are.
fn proofs_of(
    alloc: Global,
    params: &[Parameter],
    proofs: &[Value],
) -> Result<List<Evidence>, Failure<FormFault>>
    ensures { Gives result (each (unnamed_of params.now) (map view proofs.now)) }
{
    let mut grounds = List::new(alloc);
    for proof in proofs {
        let ground = unnamed_of(alloc, params, proof)?;
        grounds.push(ground)?;
    }
    Ok(grounds)
}

#[tactic(auto, unfolding(crate::specs::Reading::uneven_from))]
fn uneven_from(
    alloc: Global,
    params: &[Parameter],
    names: &[Value],
    proofs: &[Value],
) -> Result<PrintedLine, Failure<FormFault>>
    ensures { Gives result
        (uneven_from params.now (map view names.now) (map view proofs.now)) }
{
    let _bys = names_of(alloc, names)?;
    let _grounds = proofs_of(alloc, params, proofs)?;
    Ok(PrintedLine::UnevenRead)
}

#[tactic(auto, unfolding(crate::specs::Reading::even_from))]
fn even_from(
    alloc: Global,
    params: &[Parameter],
    names: &[Value],
    proofs: &[Value],
    key: Str,
    line: u64,
    read: Str,
    version: u64,
) -> Result<PrintedLine, Failure<FormFault>>
    requires even { length names.now ≡ length proofs.now }
    ensures { Gives result (even_from params.now (map view names.now) (map view proofs.now)
        key line read version) }
{
    let evidence = grounds_of(alloc, params, names, proofs)?;
    Ok(PrintedLine::Read {
        evidence,
        key,
        line,
        read,
        version,
    })
}

#[tactic(auto, unfolding(crate::specs::Reading::read_with))]
fn read_with(
    alloc: Global,
    params: &[Parameter],
    names: &[Value],
    proofs: &[Value],
    key: Str,
    line: u64,
    read: Str,
    version: u64,
) -> Result<PrintedLine, Failure<FormFault>>
    ensures { Gives result (read_with params.now (map view names.now) (map view proofs.now)
        key line read version) }
{
    if names.len() == proofs.len() {
        even_from(alloc, params, names, proofs, key, line, read, version)
    } else {
        uneven_from(alloc, params, names, proofs)
    }
}

#[tactic(auto, unfolding(crate::specs::Reading::read_from))]
fn read_from(
    alloc: Global,
    params: &[Parameter],
    value: &Value,
) -> Result<PrintedLine, Failure<FormFault>>
    ensures { Gives result (read_from params.now (view value.now)) }
{
    let line = long_in(value, "line")?;
    let version = long_in(value, "version")?;
    let key = name_in(alloc, value, "key")?;
    let read = name_in(alloc, value, "read")?;
    let found = field(value, "by")?;
    let names = list_of(found)?;
    let found = field(value, "proof")?;
    let proofs = list_of(found)?;
    read_with(alloc, params, names, proofs, key, line, read, version)
}

#[tactic(auto, unfolding(crate::specs::Reading::refuted_read_from))]
fn refuted_read_from(
    alloc: Global,
    tables: &[Table],
    value: &Value,
) -> Result<PrintedLine, Failure<FormFault>>
    ensures { Gives result (refuted_read_from tables.now (view value.now)) }
{
    word_in(value, "blocked", "refuted")?;
    let line = long_in(value, "line")?;
    let version = long_in(value, "version")?;
    let query = long_in(value, "query")?;
    let key = name_in(alloc, value, "key")?;
    let read = name_in(alloc, value, "read")?;
    let found = field(value, "pair")?;
    let pair = pair_of(alloc, tables, found)?;
    let blocked = PrintedBlock::Refuted(pair);
    Ok(PrintedLine::ReadBlock {
        blocked,
        key,
        line,
        query,
        read,
        version,
    })
}

#[tactic(auto, unfolding(crate::specs::Reading::spent_read_from))]
fn spent_read_from(alloc: Global, value: &Value) -> Result<PrintedLine, Failure<FormFault>>
    ensures { Gives result (spent_read_from (view value.now)) }
{
    word_in(value, "blocked", "spent")?;
    let line = long_in(value, "line")?;
    let version = long_in(value, "version")?;
    let query = long_in(value, "query")?;
    let steps = long_in(value, "steps")?;
    let key = name_in(alloc, value, "key")?;
    let read = name_in(alloc, value, "read")?;
    let blocked = PrintedBlock::Spent(steps);
    Ok(PrintedLine::ReadBlock {
        blocked,
        key,
        line,
        query,
        read,
        version,
    })
}

#[tactic(auto, unfolding(crate::specs::Reading::stuck_read_from))]
fn stuck_read_from(alloc: Global, value: &Value) -> Result<PrintedLine, Failure<FormFault>>
    ensures { Gives result (stuck_read_from (view value.now)) }
{
    word_in(value, "blocked", "stuck")?;
    let line = long_in(value, "line")?;
    let version = long_in(value, "version")?;
    let query = long_in(value, "query")?;
    let name = text_in(value, "clause")?;
    let clause = clause_named(name)?;
    let key = name_in(alloc, value, "key")?;
    let read = name_in(alloc, value, "read")?;
    let blocked = PrintedBlock::Stuck(clause);
    Ok(PrintedLine::ReadBlock {
        blocked,
        key,
        line,
        query,
        read,
        version,
    })
}

/// The line of a read.
#[tactic(auto, unfolding(crate::specs::Reading::read_of))]
pub(crate) fn read_of(
    alloc: Global,
    policy: &Policy,
    value: &Value,
    members: &Map<String, Value>,
) -> Result<PrintedLine, Failure<FormFault>>
    ensures { Gives result
        (read_of policy.now (view value.now) (members_view members.now.entries)) }
{
    if keys_are(&["by", "key", "line", "proof", "read", "version"], members) {
        read_from(alloc, policy.params.as_slice(), value)
    } else if keys_are(
        &["blocked", "key", "line", "pair", "query", "read", "version"],
        members,
    ) {
        refuted_read_from(alloc, policy.schema.tables.as_slice(), value)
    } else if keys_are(
        &[
            "blocked", "key", "line", "query", "read", "steps", "version",
        ],
        members,
    ) {
        spent_read_from(alloc, value)
    } else if keys_are(
        &[
            "blocked", "clause", "key", "line", "query", "read", "version",
        ],
        members,
    ) {
        stuck_read_from(alloc, value)
    } else {
        no_form()
    }
}
