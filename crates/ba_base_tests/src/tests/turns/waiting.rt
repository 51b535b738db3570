//! A thread that waits while another one has the turn.
ghost use Rattle.std.specs.Prelude.{◌<◌};
ghost use Rattle.ba_turn.specs.Passes.{known_by, IsFree};

use super::calls::call;
use crate::versions::{Call, Versions};
use ba_turn::{Pass, Turn};
use std::sync::Wait;
use std::sync::atomic::{AtomicBool, Ordering};
use std::thread;
use std::time::{Clock, Duration};

/// What the two threads tell each other.
#[derive(Drop)]
pub struct Signs {
    has_turn: AtomicBool,
    asks: AtomicBool,
}

impl Signs {
    pub fn new() -> Signs {
        Signs {
            has_turn: AtomicBool::new(false),
            asks: AtomicBool::new(false),
        }
    }
}

/// Whether the sign comes within some ten seconds.
fn comes(rt: &impl Clock, sign: &AtomicBool) -> bool {
    for _ in 0..10_000 {
        if sign.load(Ordering::SeqCst) {
            return true;
        }
        thread::sleep(rt, Duration::from_millis(1));
    }
    false
}

/// Publishes, and keeps the turn until the other thread asks for it and has had time to fall asleep. Says whether it asked.
pub fn call_while_asked<R: Wait + Clock>(
    rt: &R,
    turn: &Turn<Versions>,
    mut pass: Pass<Versions, Call>,
    signs: &Signs,
) -> (Pass<Versions, Call>, bool)
    requires free { IsFree turn.now pass }
    requires left { 0 < (known_by pass).left }
    ensures free { IsFree turn.now result.0 }
{
    let mut held = turn.take(rt, &mut pass);
    held.value().call(true);
    signs.has_turn.store(true, Ordering::SeqCst);
    let asked = comes(rt, &signs.asks);
    thread::sleep(rt, Duration::from_millis(200));
    turn.put(&mut pass, held);
    (pass, asked)
}

/// Pins once the other thread has the turn. Says which version, if the other thread has had it.
pub fn ask<R: Wait + Clock>(
    rt: &R,
    turn: &Turn<Versions>,
    mut pass: Pass<Versions, Call>,
    signs: &Signs,
) -> (Pass<Versions, Call>, Option<u64>)
    requires free { IsFree turn.now pass }
    requires left { 0 < (known_by pass).left }
    ensures free { IsFree turn.now result.0 }
{
    let has_turn = comes(rt, &signs.has_turn);
    signs.asks.store(true, Ordering::SeqCst);
    let number = call(rt, turn, &mut pass, false);
    (pass, has_turn.then_some(number))
}
