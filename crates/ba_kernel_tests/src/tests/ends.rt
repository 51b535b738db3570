//! How replays and searches end, worked out by hand.

use super::given::problem;
use super::templates::replayed;
use super::words::Handle;
use ba_instant::settle;
use ba_settle::Settled;
use std::alloc::AllocError;

/// The number of steps of the proof, or the fault.
fn replay_end(rt: &impl Handle, text: &str) -> Result<String, AllocError> {
    match replayed(rt, text) {
        Ok(proved) => format!(in rt.alloc(); "proof {}", proved.steps().len()),
        Err(fault) => format!(in rt.alloc(); "{fault:?}"),
    }
}

/// How the search ends that takes due steps alone, within 16 steps, and after how many.
fn search_end(rt: &impl Handle, text: &str) -> Result<String, AllocError> {
    match settle(rt.alloc(), problem(rt, text), 16)? {
        Settled::Proved(proof) => format!(in rt.alloc(); "proved {}", proof.steps().len()),
        Settled::Saturated(leaf) => format!(in rt.alloc(); "saturated {}", leaf.steps.len()),
        Settled::Spent(steps) => format!(in rt.alloc(); "spent {}", steps.len()),
    }
}

/// Proofs of the title of an event that the user is known to attend: a right one; its last step names a
/// fact of side One; another user's attendance shows nothing, and the steps behind the one that is
/// refused aren't tested; a branch is left open. Then searches: for that title, by the entry, its event
/// by the link, both views' rows and the goal; for a title where nothing is known of the event; and over
/// a table that is linked to itself, each row of which has another one behind it.
const ENDS: &str = "\
assumed p.0 = 2; told 2 | a.0 = 2, a.1 = 5 | a.0 a.1 a.2 gives 2 5 100; goal 1 | a.0 = 5 | a.1 \
by entry 0 0, view 0 2 0 0 1, goal 0 0 2 => proof 3
assumed p.0 = 2; told 2 | a.0 = 2, a.1 = 5 | a.0 a.1 a.2 gives 2 5 100; goal 1 | a.0 = 5 | a.1 \
by entry 0 0, view 0 2 0 0 1, goal 0 0 0 => Refused { number: 2, fault: BadFact }
assumed p.0 = 1; told 2 | a.0 = 2, a.1 = 5 | a.0 a.1 a.2 gives 2 5 100; goal 1 | a.0 = 5 | a.1 \
by entry 0 0, view 0 2 0 0 1, goal 9 0 0 => Refused { number: 1, fault: CondNotShown(1) }
assumed p.0 = 2; told 2 | a.0 = 2, a.1 = 5 | a.0 a.1 a.2 gives 2 5 100; goal 1 | a.0 = 5 | a.1 \
by entry 0 0, view 0 2 0 0 1 => Open
assumed p.0 = 2; told 2 | a.0 = 2, a.1 = 5 | a.0 a.1 a.2 gives 2 5 100; goal 1 | a.0 = 5 | a.1 \
=> proved 5
assumed p.0 = 2; goal 1 | a.0 = 5 | a.1 => saturated 0
assumed p.0 = 2; goal 4 | a.0 = 5 | a.1 => spent 16";

#[test]
fn ends(rt: HostRuntime) {
    for line in ENDS.lines() {
        let (text, wanted) = line.split_once(" => ").unwrap_or((line, ""));
        let end = if text.contains("by ") {
            replay_end(&rt, text)
        } else {
            search_end(&rt, text)
        };
        let end = end.expect(&rt, "memory");
        assert!(rt; end.as_str() == wanted, "{line} ({end})");
    }
}
