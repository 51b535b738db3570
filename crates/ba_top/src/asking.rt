//! A question of a request, with the search for a proof joined in.
ghost use Rattle.std.specs.Prelude.{◌≡◌, ◌⊎◌, ◌++◌, ◌≤◌};
ghost use Rattle.ba_model.specs.Limits.{most_budget};
ghost use Rattle.ba_session.specs.Asking.{IsServable, IsRequestOf, Replies, answer_in, effort_in};
ghost use Rattle.ba_session.specs.Passing.{AreOf, HasRoom, Makes, ShelfCalls};

use ba_instant::InOrder;
use ba_portfolio::Both;
use ba_session::{Passes, Reply, Request, Service};
use std::alloc::Global;
use std::sync::Wait;
use std::thread::Threads;

/// What becomes of a question of the request, as [`Request::ask`] says: a proof is searched for in one
/// order, in which the first due step is taken, or in two side by side, in the other of which it is
/// the last, in each by at most `budget` steps.
pub fn ask<R: Threads + Wait>(
    rt: &R,
    alloc: Global,
    asker: &mut Request,
    service: &Service,
    passes: &mut Passes,
    orders: u32,
    budget: u32,
    text: &str,
) -> Reply
    requires policy { IsServable service.now.policy }
    requires asker { IsRequestOf service.now.policy asker.old }
    requires orders { (orders ≡ 1) ⊎ (orders ≡ 2) }
    requires limit { budget ≤ most_budget }
    requires of { AreOf service.now passes.old }
    requires room { HasRoom 2 passes.old }
    ensures of { AreOf service.now passes.new }
    ensures replies { (made : ShelfCalls) × Replies service.now.policy asker.old
        (effort_in orders budget) text.now made result × Makes made passes.old passes.new }
    ensures request { asker.new
        ≡ record asker.old { trace = asker.old.trace ++ answer_in result } }
    ensures asker { IsRequestOf service.now.policy asker.new }
{
    if orders == 2 {
        asker.ask(rt, alloc, service, passes, &Both { rt }, budget, text)
    } else {
        asker.ask(rt, alloc, service, passes, &InOrder, budget, text)
    }
}
