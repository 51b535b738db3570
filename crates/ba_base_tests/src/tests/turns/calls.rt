//! Calls on the versions under their turn.
ghost use Rattle.std.specs.Prelude.{◌≡◌, ◌+◌, ◌<◌, ◌≤◌, true, false, [], ◌∷◌, ◌++◌, map, take, count_by, EachIndex, slice_index};
ghost use Rattle.ba_turn.specs.History.{entry_of};
ghost use Rattle.ba_turn.specs.Passes.{known_by, IsFree, MakesCall};

use crate::versions::{Call, Versions};
use ba_turn::{Pass, Turn};
use std::sync::Wait;

/// One call. All that the pass has seen is then a legal history, which ends with this call.
pub fn call<R: Wait>(
    rt: &R,
    turn: &Turn<Versions>,
    pass: &mut Pass<Versions, Call>,
    publishes: bool,
) -> u64
    requires free { IsFree turn.now pass.old }
    requires left { 0 < (known_by pass.old).left }
    ensures free { IsFree turn.now pass.new }
    ensures made { MakesCall (known_by pass.old) (known_by pass.new) (record { publishes = publishes; number = result }) }
    ensures legal { let log = map entry_of (known_by pass.new).seen in EachIndex log (λ i. slice_index (map (λ c. c.number) log) i ≡ count_by (λ c. c.publishes) (take (i + 1) log)) }
{
    let mut held = turn.take(rt, pass);
    let number = held.value().call(publishes);
    turn.put(pass, held);
    number
}

/// Two calls of one kind, one after the other.
pub fn call_twice<R: Wait>(
    rt: &R,
    turn: &Turn<Versions>,
    mut pass: Pass<Versions, Call>,
    publishes: bool,
) -> Pass<Versions, Call>
    requires free { IsFree turn.now pass }
    requires left { 2 ≤ (known_by pass).left }
    ensures free { IsFree turn.now result }
{
    call(rt, turn, &mut pass, publishes);
    call(rt, turn, &mut pass, publishes);
    pass
}
