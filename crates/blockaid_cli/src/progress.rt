//! How far a script is served, for whoever waits.

use ba_outside::Gate;
use std::sync::atomic::{AtomicU64, Ordering};

/// After how many lines of the script it is told.
const STRIDE: u64 = 100;

/// A gate that holds nobody. Where it is asked to, it tells on standard error how many lines of the
/// script are served.
#[derive(Drop)]
pub struct Progress<'a, R> {
    rt: &'a R,
    is_asked: bool,
    served: AtomicU64,
}

impl<'a, R: Eprint> Progress<'a, R> {
    /// A gate that nobody has passed.
    pub fn new(rt: &'a R, is_asked: bool) -> Self {
        Progress {
            rt,
            is_asked,
            served: AtomicU64::new(0),
        }
    }

    // Counts a line that is served.
    fn count(&self) {
        let served = self.served.fetch_add(1, Ordering::SeqCst).wrapping_add(1);
        if served % STRIDE == 0 {
            let _ = eprintln!(self.rt; "blockaid: {served} lines served");
        }
    }
}

impl<R: Eprint> Gate for Progress<'_, R> {
    // Whoever comes with a later piece of its work has done the one before.
    fn pass(&self, _job: u32, point: u32) {
        if self.is_asked && point > 0 {
            self.count();
        }
    }
}
