//! What a request is about.
ghost use Rattle.std.specs.Prelude.{◌≡◌, ◌+◌, ◌<◌, ◌≤◌};
ghost use Rattle.ba_workload.specs.Chosen.{attended, event_of, events, other_event, users};
ghost use Rattle.ba_workload.specs.Draws.{drawn, next};

use crate::draws::Draws;

/// How many users there are, numbered from 1.
pub(crate) const USERS: u32 = 64;

/// How many events there are, numbered from 1.
pub(crate) const EVENTS: u32 = 64;

/// How many events a user attends.
pub(crate) const ATTENDED: u32 = 4;

/// A user, and an event that the user attends.
#[derive(Clone, Copy, Debug, PartialEq, Eq)]
pub(crate) struct Choice {
    pub(crate) user: u32,
    pub(crate) event: u32,
}

/// The event of a user's attendance, which is numbered from 0.
pub(crate) fn event_of(user: u32, attendance: u32) -> u32
    requires user { user ≤ users }
    requires attendance { attendance < attended }
    ensures is { result ≡ event_of user attendance }
    ensures within { result ≤ events }
{
    (7 * user + 13 * attendance) % EVENTS + 1
}

/// The event that is next in number.
pub(crate) fn other_event(event: u32) -> u32
    ensures { result ≡ other_event event }
{
    event % EVENTS + 1
}

/// The next request's user and event, by two draws.
pub(crate) fn choose(draws: &mut Draws) -> Choice
    ensures state { draws.new.state ≡ next (next draws.old.state) }
    ensures user { result.user ≡ 1 + drawn users (next draws.old.state) }
    ensures event { result.event ≡ event_of result.user (drawn attended (next (next draws.old.state))) }
{
    let user = 1 + draws.below(USERS);
    let attendance = draws.below(ATTENDED);
    let event = event_of(user, attendance);
    Choice { user, event }
}
