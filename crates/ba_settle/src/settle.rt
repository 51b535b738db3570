//! What ends a search.
ghost use Rattle.std.specs.Prelude.{ℕ, ◌≤◌, IfOk};
ghost use Rattle.ba_kernel.specs.Courses.{ProblemFits};
ghost use Rattle.ba_model.specs.Limits.{most_budget};
ghost use Rattle.ba_settle.specs.Settling.{Settles};

use crate::ends::Settled;
use ba_kernel::Problem;
use std::alloc::{AllocError, Global};

/// What ends a search for a proof. Threads share it, so it keeps nothing between two searches.
pub trait Settle {
    /// In how many orders of due steps it searches side by side: in one, in which the first due step
    /// is taken, or in two, in the other of which it is the last.
    ghost orders: { Self → ℕ };

    /// Searches for a proof of the problem, in each order by at most so many due steps, and says how
    /// that ended. `AllocError` leaves nothing behind.
    fn settle(&self, alloc: Global, problem: Problem, budget: u32) -> Result<Settled, AllocError>
        requires fits { ProblemFits problem }
        requires limit { budget ≤ most_budget }
        ensures { IfOk result
            (Settles (record { orders = orders self.now; budget = budget }) problem) };
}
