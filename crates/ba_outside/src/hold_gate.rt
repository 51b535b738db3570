// A gate that holds one job at its first line until another has passed its own.
ghost use Rattle.std.specs.Prelude.{◌≡◌};

use crate::Gate;
use std::sync::atomic::{AtomicBool, Ordering};
use std::thread;

/// A gate that shows whether two jobs run beside each other: it holds job `first` at point 0 until
/// job `second` has passed point 0, and gives up after `limit` turns of waiting. All others pass at
/// once, and so does `first` where it is `second` too.
#[derive(Drop)]
pub struct HoldGate {
    pub first: u32,
    pub second: u32,
    pub limit: u64,
    passed: AtomicBool,
    gave_up: AtomicBool,
}

impl HoldGate {
    /// A gate that holds job `first` at point 0 until job `second` has passed point 0, or for
    /// `limit` turns.
    pub fn new(first: u32, second: u32, limit: u64) -> Self
        ensures first { result.first ≡ first }
        ensures second { result.second ≡ second }
        ensures limit { result.limit ≡ limit }
    {
        HoldGate {
            first,
            second,
            limit,
            passed: AtomicBool::new(false),
            gave_up: AtomicBool::new(false),
        }
    }

    /// Whether the job was let go because its turns were used up.
    pub fn gave_up(&self) -> bool {
        self.gave_up.load(Ordering::SeqCst)
    }

    // Waits until the second job has passed, for so many turns at most, and says whether it has.
    fn waits(&self) -> bool {
        for _ in 0..self.limit {
            if self.passed.load(Ordering::SeqCst) {
                return true;
            }
            thread::yield_now();
        }
        self.passed.load(Ordering::SeqCst)
    }
}

impl Gate for HoldGate {
    fn pass(&self, job: u32, point: u32) {
        if point != 0 {
            return;
        }
        if job == self.second {
            self.passed.store(true, Ordering::SeqCst);
        }
        if job == self.first && !self.waits() {
            self.gave_up.store(true, Ordering::SeqCst);
        }
    }
}
