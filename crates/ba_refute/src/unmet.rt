//! The first clause that a pair doesn't meet.
ghost use Rattle.std.specs.Prelude.{IfOk};
ghost use Rattle.ba_refute.specs.Counterexamples.{IsPairStored, TellsFirstUnmet};

use crate::clause::{Clause, Counterexample};
use crate::conform::conforms;
use crate::within::{is_within, shows};
use ba_comply::Trace;
use ba_eval::contains;
use ba_model::{Context, Policy, Query};
use std::alloc::{AllocError, Global};

/// The first clause, in the order of [`Clause`], that the pair doesn't meet for a question under a
/// policy and a context after a trace; none where it is a counterexample to strong compliance
/// ([`crate::laws::counterexamples_refute`]). Its numbers are within 64 bits, as [`Clause::Value`]
/// asks; the rows of a table may stand in any order, and more than once.
pub fn first_unmet(
    alloc: Global,
    policy: &Policy,
    ctx: &Context,
    trace: &Trace,
    query: &Query,
    pair: &Counterexample,
) -> Result<Option<Clause>, AllocError>
    requires stored { IsPairStored pair.now }
    ensures { IfOk result (TellsFirstUnmet policy.now ctx.now trace.now query.now pair.now) }
{
    let one = conforms(alloc, &policy.schema, &pair.one)?;
    if !one {
        return Ok(Some(Clause::ConformOne));
    }
    let two = conforms(alloc, &policy.schema, &pair.two)?;
    if !two {
        return Ok(Some(Clause::ConformTwo));
    }
    let within = is_within(alloc, policy, ctx, &pair.one, &pair.two)?;
    if !within {
        return Ok(Some(Clause::Within));
    }
    let shown = shows(alloc, ctx, trace, &pair.one)?;
    if !shown {
        return Ok(Some(Clause::Shown));
    }
    let asked = contains(alloc, &pair.one, ctx, query, &pair.row)?;
    if !asked {
        return Ok(Some(Clause::Asked));
    }
    let present = contains(alloc, &pair.two, ctx, query, &pair.row)?;
    if present {
        return Ok(Some(Clause::Absent));
    }
    Ok(None)
}
