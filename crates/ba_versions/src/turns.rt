//! Calls on versions that threads share: a pin and a publication, each in one turn.
ghost use Rattle.std.specs.Prelude.{◌≡◌, ◌<◌, IfOk, map};
ghost use Rattle.ba_turn.specs.History.{entry_of};
ghost use Rattle.ba_turn.specs.Passes.{IsFree, MakesCall, known_by, start_of};
ghost use Rattle.ba_versions.specs.Calls.{IsLegal, IsVersion};
ghost use Rattle.ba_versions.specs.Reads.{opening_of, pinned, published};

use crate::call::VersionCall;
use crate::versions::Versions;
use ba_model::Shared;
use ba_tables::Tables;
use ba_turn::{Pass, Turn};
use std::alloc::AllocError;
use std::sync::Wait;

/// The last version, its number and its tables, as `Versions::pin` gives them. It waits for its turn, and costs the pass one call of
/// its allowance, where it is refused too. The history that the pass has then seen is legal, begins with all that it had seen, and
/// ends with this call: so the version is none before one that the pass knows.
pub fn pin<R: Wait>(
    rt: &R,
    turn: &Turn<Versions>,
    pass: &mut Pass<Versions, VersionCall>,
) -> Result<(u32, Shared<Tables>), AllocError>
    requires free { IsFree turn.now pass.old }
    requires left { 0 < (known_by pass.old).left }
    ensures free { IsFree turn.now pass.new }
    ensures made { MakesCall (known_by pass.old) (known_by pass.new) (pinned result) }
    ensures legal { IsLegal (opening_of (start_of turn.now)) (map entry_of (known_by pass.new).seen) }
    ensures version { IfOk result (λ r. IsVersion (opening_of (start_of turn.now)) r.1) }
{
    let mut held = turn.take(rt, pass);
    let pinned = held.value().pin();
    turn.put(pass, held);
    pinned
}

/// The tables, of the versions' schema, become the last version, and the answer is its number. What is said of waiting, of the
/// allowance and of the history at [`pin`] holds here too.
pub fn publish<R: Wait>(
    rt: &R,
    turn: &Turn<Versions>,
    pass: &mut Pass<Versions, VersionCall>,
    tables: Shared<Tables>,
) -> u32
    requires free { IsFree turn.now pass.old }
    requires left { 0 < (known_by pass.old).left }
    requires schema { tables.schema ≡ (opening_of (start_of turn.now)).schema }
    ensures free { IsFree turn.now pass.new }
    ensures made { MakesCall (known_by pass.old) (known_by pass.new) (published tables result) }
    ensures legal { IsLegal (opening_of (start_of turn.now)) (map entry_of (known_by pass.new).seen) }
{
    let mut held = turn.take(rt, pass);
    let number = held.value().publish(tables);
    turn.put(pass, held);
    number
}
