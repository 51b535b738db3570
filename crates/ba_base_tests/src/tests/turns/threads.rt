//! Calls by two threads.
ghost use Rattle.std.specs.Prelude.{◌≤◌};
ghost use Rattle.ba_turn.specs.Passes.{known_by, IsFree};

use super::calls::call_twice;
use crate::versions::{Call, Versions};
use ba_turn::{Pass, Turn};
use std::sync::Wait;
use std::thread;
use std::thread::Threads;

/// Two calls by one pass and two by another, in threads of their own: the first publishes.
pub fn by_two<R: Threads + Wait + Sync>(
    rt: &R,
    turn: &Turn<Versions>,
    one: Pass<Versions, Call>,
    two: Pass<Versions, Call>,
    publishes: bool,
) -> (Pass<Versions, Call>, Pass<Versions, Call>)
    requires free { IsFree turn.now one × IsFree turn.now two }
    requires left { (2 ≤ (known_by one).left) × (2 ≤ (known_by two).left) }
    ensures free { IsFree turn.now result.0 × IsFree turn.now result.1 }
{
    thread::join(
        rt,
        || call_twice(rt, turn, one, true),
        || call_twice(rt, turn, two, publishes),
    )
}
