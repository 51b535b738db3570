//! Answers the questions of a script.
ghost use Rattle.std.specs.Prelude.{◌≡◌, IfOk, length};
ghost use Rattle.ba_input.specs.Inputs.{IsInput};
ghost use Rattle.ba_lanes.specs.Headline.{Headline};
ghost use Rattle.ba_lanes.specs.Legal.{Legal};

use crate::journal::Journal;
use crate::loads::load;
use crate::share::Share;
use crate::work::{join, merge, split};
use ba_input::Input;
use ba_model::{Duplicate, List};
use ba_outside::Gate;
use ba_session::Service;
use ba_settle::Settle;
use ba_workers::fan_out;
use std::alloc::{AllocError, Global};
use std::sync::Wait;
use std::thread::Threads;

/// An entry for each line of the script, in order, and the histories of what the requests share.
/// The input's templates are admitted first, in their order, each to the shelf of its shape's
/// shard: these calls have the number 0, and stand in front of all others on their shelf. Each
/// worker serves a lane of the lines in a thread of its own, with passes of its own: the worker k,
/// from 0 on, with the number k + 1. Before it serves a line it passes the gate, with its number
/// and its count of earlier lines. Searches for proofs end as `settle` ends them, in as many orders
/// as the input says.
///
/// Want of memory on a line is its entry ([`crate::Entry::Memory`]), and the other lines are served
/// as ever. The call itself answers it where there is none to admit the input's templates, or for
/// the lanes, the merged entries or the histories; then there is no journal.
pub fn serve<R: Threads + Wait + Sync, G: Gate + Sync, S: Settle + Sync>(
    rt: &R,
    alloc: Global,
    input: &Input,
    settle: &S,
    gate: &G,
) -> Result<Journal, AllocError>
    requires input { IsInput input.now }
    requires orders { S.orders settle.now ≡ input.now.orders }
    ensures legal { IfOk result (λ journal. Legal input.now journal) }
    // Each answer is its query's answer in the request's tables and in every database that the user
    // can't tell from them. So is each query's answer there behind a read that is let through. Each
    // block of a question or a read has its reason.
    ensures headline { IfOk result (λ journal. Headline input.now journal) }
    ensures many { IfOk result (λ journal.
        length journal.entries ≡ length input.now.script.entries) }
{
    let all = Share::of_run(input);
    let policy = input.policy.copy(alloc)?;
    let tables = input.tables.copy(alloc)?;
    let (service, mut passes) = Service::new(alloc, policy, tables, all.calls, all.looks)?;
    load(rt, alloc, input, &service, &mut passes)?;
    let works = split(rt, alloc, input, &service, settle, &mut passes)?;
    let works = fan_out(rt, works, gate);
    let queues = join(alloc, input, &service, &mut passes, works)?;
    let entries = merge(alloc, input, queues)?;
    let histories = service.close(alloc, passes)?;
    Ok(Journal {
        entries: List::from_vec(entries),
        histories,
    })
}
