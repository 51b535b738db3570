//! A turn over the versions of the tables.
ghost use Rattle.std.specs.Prelude.{◌≡◌, ◌<◌, ◌≤◌, IfOk, map};
ghost use Rattle.ba_turn.specs.History.{entry_of};
ghost use Rattle.ba_turn.specs.Passes.{IsFree, MakesCall, known_by, start_of};
ghost use Rattle.ba_versions.specs.Reads.{opening_of, pinned, published};

use ba_model::{Duplicate, List, RowSet, Schema, Shared};
use ba_tables::Tables;
use ba_turn::{Pass, Turn};
use ba_versions::{VersionCall, Versions};
use std::alloc::{AllocError, Global};
use std::sync::Wait;
use std::test::Fail;
use std::thread;

/// The tables of a schema that has none.
fn no_tables(alloc: Global) -> Result<Shared<Tables>, AllocError> {
    let schema = Shared::new(
        alloc,
        Schema {
            tables: List::new(alloc),
            rules: List::new(alloc),
        },
    )?;
    let rows = RowSet {
        tables: List::new(alloc),
    };
    match Tables::check(alloc, &schema, rows) {
        Ok(tables) => Shared::new(alloc, tables),
        Err(_) => Err(AllocError),
    }
}

/// One publication.
fn publish<R: Wait>(
    rt: &R,
    turn: &Turn<Versions>,
    pass: &mut Pass<Versions, VersionCall>,
    tables: Shared<Tables>,
) -> u32
    requires free { IsFree turn.now pass.old }
    requires left { 0 < (known_by pass.old).left }
    requires schema { tables.schema ≡ (opening_of (start_of turn.now)).schema }
    ensures free { IsFree turn.now pass.new }
    ensures made { MakesCall (known_by pass.old) (known_by pass.new) (published tables result) }
{
    let mut held = turn.take(rt, pass);
    let number = held.value().publish(tables);
    turn.put(pass, held);
    number
}

/// Two publications, and their numbers.
fn publish_twice<R: Wait>(
    rt: &R,
    turn: &Turn<Versions>,
    mut pass: Pass<Versions, VersionCall>,
    tables: (Shared<Tables>, Shared<Tables>),
) -> (Pass<Versions, VersionCall>, u32, u32)
    requires free { IsFree turn.now pass }
    requires left { 2 ≤ (known_by pass).left }
    requires schemas { (tables.0.schema ≡ (opening_of (start_of turn.now)).schema) × (tables.1.schema ≡ (opening_of (start_of turn.now)).schema) }
    ensures free { IsFree turn.now result.0 }
{
    let one = publish(rt, turn, &mut pass, tables.0);
    let two = publish(rt, turn, &mut pass, tables.1);
    (pass, one, two)
}

/// One pin.
fn pin<R: Wait>(
    rt: &R,
    turn: &Turn<Versions>,
    pass: &mut Pass<Versions, VersionCall>,
) -> Result<(u32, Shared<Tables>), AllocError>
    requires free { IsFree turn.now pass.old }
    requires left { 0 < (known_by pass.old).left }
    ensures free { IsFree turn.now pass.new }
    ensures made { MakesCall (known_by pass.old) (known_by pass.new) (pinned result) }
{
    let mut held = turn.take(rt, pass);
    let answer = held.value().pin();
    turn.put(pass, held);
    answer
}

fn number_of(pinned: Result<(u32, Shared<Tables>), AllocError>) -> Option<u32> {
    match pinned {
        Ok((number, _)) => Some(number),
        Err(_) => None,
    }
}

/// Whether the call is a publication, and its number.
fn told(call: &VersionCall) -> Option<(bool, u32)> {
    match call {
        VersionCall::Publish(_, number) => Some((true, *number)),
        VersionCall::Pin(number, _) => Some((false, *number)),
        VersionCall::Refused => None,
    }
}

/// One pass publishes twice on a thread of its own; then the opening pass pins.
#[test]
fn turn_over_versions(rt: HostRuntime) -> Result<(), Fail> {
    let alloc = rt.alloc();
    let tables = no_tables(alloc)?;
    let (one, two) = (tables.copy(alloc)?, tables.copy(alloc)?);
    let (turn, mut first) = Turn::new(alloc, Versions::new(alloc, tables)?, 4)?;
    let second = turn.split(&mut first, 2);
    let (_, (second, n, m)) = thread::join(
        &rt,
        || (),
        || publish_twice(&rt, &turn, second, (one, two)),
    );
    turn.join(&mut first, second);
    let last = number_of(pin(&rt, &turn, &mut first));
    assert!(rt; n == 1 && m == 2 && last == Some(2));
    let (versions, numbers) = turn.close(first);
    let calls = versions.calls();
    assert_eq!(rt; numbers.as_slice(), [1, 1, 0].as_slice());
    assert!(rt; calls.len() == 3);
    assert!(rt; told(&calls[0]) == Some((true, 1)) && told(&calls[1]) == Some((true, 2)));
    assert!(rt; told(&calls[2]) == Some((false, 2)));
    Ok(())
}
