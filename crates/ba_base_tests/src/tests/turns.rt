//! A turn over numbered versions, between threads.
mod calls;
mod methods;
mod threads;
mod waiting;

use crate::versions::Versions;
use ba_turn::Turn;
use calls::call;
use methods::publish_next;
use std::thread;
use threads::by_two;
use waiting::{Signs, ask, call_while_asked};

/// A turn whose waiter is never woken doesn't come to the end of this.
#[test]
fn a_lone_waiter_is_woken(rt: HostRuntime) {
    let opened = Turn::new(rt.alloc(), Versions::new(rt.alloc()), 2);
    let (turn, mut first) = opened.expect(&rt, "memory");
    let holder = turn.split(&mut first, 1);
    let waiter = turn.split(&mut first, 1);
    let signs = Signs::new();
    let ((holder, asked), (waiter, pinned)) = thread::join(
        &rt,
        || call_while_asked(&rt, &turn, holder, &signs),
        || ask(&rt, &turn, waiter, &signs),
    );
    turn.join(&mut first, holder);
    turn.join(&mut first, waiter);
    let (_, numbers) = turn.close(first);
    assert!(rt; asked && pinned == Some(1));
    assert_eq!(rt; numbers.as_slice(), [1, 2].as_slice());
}

/// Three threads publish twice and one pins twice; the opening pass pins last.
#[test]
fn four_threads(rt: HostRuntime) {
    let opened = Turn::new(rt.alloc(), Versions::new(rt.alloc()), 9);
    let (turn, mut first) = opened.expect(&rt, "memory");
    let a = turn.split(&mut first, 2);
    let b = turn.split(&mut first, 2);
    let c = turn.split(&mut first, 2);
    let d = turn.split(&mut first, 2);
    let ((a, b), (c, d)) = thread::join(
        &rt,
        || by_two(&rt, &turn, a, b, true),
        || by_two(&rt, &turn, c, d, false),
    );
    turn.join(&mut first, d);
    turn.join(&mut first, b);
    turn.join(&mut first, a);
    turn.join(&mut first, c);
    let pinned = call(&rt, &turn, &mut first, false);
    let (versions, numbers) = turn.close(first);
    assert!(rt; pinned == 6 && versions.count == 6);
    assert!(rt; versions.history.len() == 9 && numbers.last() == Some(&0));
}

#[test]
fn calls_by_a_method(rt: HostRuntime) {
    let opened = Turn::new(rt.alloc(), Versions::new(rt.alloc()), 2);
    let (turn, mut first) = opened.expect(&rt, "memory");
    let one = publish_next(&rt, &turn, &mut first);
    let two = publish_next(&rt, &turn, &mut first);
    let (versions, numbers) = turn.close(first);
    assert!(rt; one == 1 && two == 2 && versions.count == 2);
    assert_eq!(rt; numbers.as_slice(), [0, 0].as_slice());
}
