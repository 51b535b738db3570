//! The search in both orders.
ghost use Rattle.std.specs.Prelude.{ℕ, ◌≤◌, IfOk};
ghost use Rattle.ba_model.specs.Limits.{most_budget};
ghost use Rattle.ba_kernel.specs.Courses.{ProblemFits};
ghost use Rattle.ba_portfolio.specs.Early.{EndsEarly};
ghost use Rattle.ba_settle.specs.Dues.{Ends, EndsSaturated};
ghost use Rattle.ba_settle.specs.Settling.{EndsInBoth};
ghost use Rattle.ba_settle.specs.declared.order.Pick.TheVariants.{First, Last};

use crate::copies::copy_problem;
use ba_instant::settle_in;
use ba_kernel::Problem;
use ba_outside::{FreeGate, Gate};
use ba_settle::{Leaf, Pick, Settle, Settled};
use std::alloc::{AllocError, Global};
use std::thread::{Threads, join};

/// The search in both orders of due steps. It ends as [`settle_both`] does; but the search that takes
/// the first due step is made alone at first, for [`ALONE`] steps, and where it ends with these no
/// thread is made: the other search is left out behind a proof, and follows it behind a saturated
/// branch. Else each is made on a thread of its own.
#[derive(Clone, Copy, Drop)]
pub struct Both<'a, R> {
    pub rt: &'a R,
}

/// How many steps the search that takes the first due step is made alone for.
const ALONE: u32 = 64;

impl<'a, R: Threads> Settle for Both<'a, R> {
    ghost orders = { λ _. 2 };

    fn settle(&self, alloc: Global, problem: Problem, budget: u32) -> Result<Settled, AllocError> {
        let first = first_alone(alloc, &problem, budget)?;
        match first {
            Settled::Proved(found) => Ok(Settled::Proved(found)),
            Settled::Saturated(leaf) => behind_leaf(alloc, problem, budget, leaf),
            Settled::Spent(_) => settle_both(self.rt, alloc, problem, budget, &FreeGate),
        }
    }
}

/// The search that takes the first due step, for a few steps of the budget. Where it doesn't spend
/// them it ends as with the whole budget.
fn first_alone(alloc: Global, problem: &Problem, budget: u32) -> Result<Settled, AllocError>
    requires fits { ProblemFits problem.now }
    requires limit { budget ≤ most_budget }
    ensures { IfOk result (EndsEarly First problem.now budget) }
{
    let same = copy_problem(alloc, problem)?;
    settle_in(alloc, same, budget.min(ALONE), Pick::First)
}

/// How both searches end, where the one that takes the first due step ends at the leaf.
fn behind_leaf(
    alloc: Global,
    problem: Problem,
    budget: u32,
    leaf: Leaf,
) -> Result<Settled, AllocError>
    requires fits { ProblemFits problem }
    requires limit { budget ≤ most_budget }
    requires leaf { EndsSaturated First problem budget leaf }
    ensures { IfOk result (EndsInBoth problem budget) }
{
    let last = settle_in(alloc, problem, budget, Pick::Last);
    told(Ok(Settled::Saturated(leaf)), last)
}

/// Searches for a proof of the problem in two orders at once, each by at most `budget` due steps: the
/// one takes the first due step, the other the last. Each passes the gate first, at point 0, as job 0
/// and job 1.
///
/// Whichever ends earlier, it tells the proof of the one that takes the first, or else the proof of
/// the other; where there is none, the saturated branch of the one, or else that of the other; or
/// else the steps of the one. `AllocError` comes where memory runs out before that is known, and
/// leaves nothing behind.
pub fn settle_both<R: Threads, G: Gate + Sync>(
    rt: &R,
    alloc: Global,
    problem: Problem,
    budget: u32,
    gate: &G,
) -> Result<Settled, AllocError>
    requires fits { ProblemFits problem }
    requires limit { budget ≤ most_budget }
    ensures { IfOk result (EndsInBoth problem budget) }
{
    let same = copy_problem(alloc, &problem)?;
    let (first, last) = join(
        rt,
        move || -> Result<Settled, AllocError>
            requires { ProblemFits problem × (budget ≤ most_budget) }
            ensures { IfOk result (Ends First problem budget) }
        { search(alloc, problem, budget, Pick::First, 0, gate) },
        move || -> Result<Settled, AllocError>
            requires { ProblemFits same × (budget ≤ most_budget) }
            ensures { IfOk result (Ends Last same budget) }
        { search(alloc, same, budget, Pick::Last, 1, gate) },
    );
    told(first, last)
}

/// The search in one order, behind the gate.
fn search<G: Gate>(
    alloc: Global,
    problem: Problem,
    budget: u32,
    pick: Pick,
    job: u32,
    gate: &G,
) -> Result<Settled, AllocError>
    requires fits { ProblemFits problem }
    requires limit { budget ≤ most_budget }
    ensures { IfOk result (Ends pick problem budget) }
{
    gate.pass(job, 0);
    settle_in(alloc, problem, budget, pick)
}

/// The end that is told, if memory ran out in no search that it rests on.
fn told(
    first: Result<Settled, AllocError>,
    last: Result<Settled, AllocError>,
) -> Result<Settled, AllocError>
    ensures { (problem : Problem) (budget : ℕ) → IfOk first (Ends First problem budget)
        → IfOk last (Ends Last problem budget) → IfOk result (EndsInBoth problem budget) }
{
    match first? {
        Settled::Proved(proof) => Ok(Settled::Proved(proof)),
        Settled::Saturated(leaf) => match last? {
            Settled::Proved(other) => Ok(Settled::Proved(other)),
            _ => Ok(Settled::Saturated(leaf)),
        },
        Settled::Spent(steps) => match last? {
            Settled::Proved(other) => Ok(Settled::Proved(other)),
            Settled::Saturated(leaf) => Ok(Settled::Saturated(leaf)),
            Settled::Spent(_) => Ok(Settled::Spent(steps)),
        },
    }
}
