//! Searches in two orders of their due steps, side by side.

use super::given::problem;
use super::words::Handle;
use ba_instant::settle_in;
use ba_outside::{FreeGate, HoldGate};
use ba_portfolio::settle_both;
use ba_settle::{Pick, Settled};
use std::alloc::AllocError;
use std::thread::Threads;

/// The title of an event that the user is known to attend.
const TITLE: &str =
    "assumed p.0 = 2; told 2 | a.0 = 2, a.1 = 5 | a.0 a.1 a.2 gives 2 5 100; goal 1 | a.0 = 5 | a.1";

/// How a search ended, and after how many steps.
fn told(rt: &impl Handle, end: Settled) -> Result<String, AllocError> {
    match end {
        Settled::Proved(proof) => format!(in rt.alloc(); "proved {}", proof.steps().len()),
        Settled::Saturated(leaf) => format!(in rt.alloc(); "saturated {}", leaf.steps.len()),
        Settled::Spent(steps) => format!(in rt.alloc(); "spent {}", steps.len()),
    }
}

/// How the search for the title ends by at most 16 steps, or fewer: where the first due step is taken,
/// where the last is, and in both orders.
const ENDS: [(u32, &str); 4] = [
    (16, "proved 5, proved 3, proved 5"),
    (4, "spent 4, proved 3, proved 3"),
    (3, "spent 3, proved 3, proved 3"),
    (2, "spent 2, spent 2, spent 2"),
];

fn ends_in(rt: &(impl Handle + Threads), budget: u32) -> Result<String, AllocError> {
    let alloc = rt.alloc();
    let budget = budget.min(16);
    let first = settle_in(alloc, problem(rt, TITLE), budget, Pick::First)?;
    let first = told(rt, first)?;
    let last = settle_in(alloc, problem(rt, TITLE), budget, Pick::Last)?;
    let last = told(rt, last)?;
    let both = settle_both(rt, alloc, problem(rt, TITLE), budget, &FreeGate)?;
    let both = told(rt, both)?;
    format!(in alloc; "{first}, {last}, {both}")
}

#[test]
fn ends_in_two_orders(rt: HostRuntime) {
    for (budget, wanted) in ENDS {
        let ends = ends_in(&rt, budget).expect(&rt, "memory");
        assert!(rt; ends.as_str() == wanted, "{budget} ({ends})");
    }
}

/// Whether both searches are under way at once: the gate holds that of the first number until that of
/// the second has begun.
fn run_beside(rt: &(impl Handle + Threads), first: u32, second: u32) -> bool {
    let gate = HoldGate::new(first, second, 100_000_000);
    match settle_both(rt, rt.alloc(), problem(rt, TITLE), 16, &gate) {
        Ok(Settled::Proved(_)) => !gate.gave_up(),
        _ => false,
    }
}

#[test]
fn both_orders_beside_each_other(rt: HostRuntime) {
    assert!(rt; run_beside(&rt, 0, 1));
    assert!(rt; run_beside(&rt, 1, 0));
}
