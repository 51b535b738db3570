//! Calls on the versions by a method.
ghost use Rattle.std.specs.Prelude.{◌≡◌, ◌<◌, true};
ghost use Rattle.ba_turn.specs.Passes.{IsFree, MakesCall, known_by};

use crate::versions::{Call, Versions};
use ba_turn::{Method, Pass, Turn};
use std::sync::Wait;

/// Publishes a version.
#[derive(Drop)]
pub struct Publish;

impl Method<Versions> for Publish {
    type Answer = u64;

    ghost entry = { λ _ n. record { publishes = true; number = n } };

    fn call(self, value: &mut Versions) -> u64 {
        value.call(true)
    }
}

/// One call by a method.
pub fn publish_next<R: Wait>(rt: &R, turn: &Turn<Versions>, pass: &mut Pass<Versions, Call>) -> u64
    requires free { IsFree turn.now pass.old }
    requires left { 0 < (known_by pass.old).left }
    ensures free { IsFree turn.now pass.new }
    ensures made { MakesCall (known_by pass.old) (known_by pass.new) (record { publishes = true; number = result }) }
{
    turn.call(rt, pass, Publish)
}
