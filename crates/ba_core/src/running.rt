//! Runs over lists of events.
ghost use Rattle.std.specs.Prelude.{All, IfOk};
ghost use Rattle.ba_core.specs.Runs.{EventFits, Runs};

use crate::event::{CoreReply, Event};
use crate::machine::Core;
use ba_model::List;
use std::alloc::{AllocError, Global};

/// Takes the events in turn, and gives the machine after them and the replies: a run of the machine, in which each answer is its
/// query's answer in its request's version and complies with the policy after what the request was told before.
///
/// The only error is want of memory; the machine and the events are then dropped.
pub fn run(
    alloc: Global,
    core: Core,
    events: List<Event>,
) -> Result<(Core, List<CoreReply>), AllocError>
    requires { All (EventFits core.policy) events }
    ensures { IfOk result (λ it. Runs core events it.1 it.0) }
{
    let mut core = core;
    let mut replies = Vec::new(alloc);
    for event in events.into_vec() {
        let reply = core.apply(event)?;
        replies.push(reply)?;
    }
    Ok((core, List::from_vec(replies)))
}
