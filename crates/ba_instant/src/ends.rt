//! How a search ends.
ghost use Rattle.std.specs.Prelude.{◌≡◌, ◌≢◌, ◌≤◌, ◌<◌, ◌∷◌, ◌++◌, [], IfOk, None, OnOk, length};
ghost use Rattle.ba_model.specs.Limits.{most_budget};
ghost use Rattle.ba_kernel.specs.Courses.{AllClosed, ProblemFits};
ghost use Rattle.ba_kernel.specs.SearchStates.{open_at};
ghost use Rattle.ba_settle.specs.Dues.{Ends, Searches};
ghost use Rattle.ba_instant.specs.Nexts.{AreLeftAt, AreWaiting, HasMoved, IsLeafOf, IsTaken};
ghost use Rattle.ba_settle.specs.declared.ends.Settled.TheVariants.{Proved as ByProof, Spent};
ghost use Rattle.ba_settle.specs.declared.order.Pick.TheVariants.{First};

use crate::due::{Due, Next, keep_quiet, next_step};
use crate::quiet::{left_after, quiet_round};
use crate::waiting::Waiting;
use ba_facts::Branch;
use ba_kernel::{Problem, Proved, Search, Step};
use ba_model::{Duplicate, List, Owned};
use ba_settle::{Leaf, Pick, Settle, Settled};
use std::alloc::{AllocError, Global};

/// Takes due steps from the problem's start, each the first in the order of steps of those that are
/// due on open branches, at most as many as the budget.
///
/// It ends as soon as no branch is open, else as soon as an open branch has no new step, else when
/// the budget is spent. A step is new where it is accepted and tells its branch what isn't there
/// yet; it is due where no new step of its branch has a lesser round. `AllocError` leaves nothing
/// behind.
pub fn settle(alloc: Global, problem: Problem, budget: u32) -> Result<Settled, AllocError>
    requires fits { ProblemFits problem }
    requires limit { budget ≤ most_budget }
    ensures { IfOk result (Ends First problem budget) }
{
    settle_in(alloc, problem, budget, Pick::First)
}

/// The same in an order of its own: of the steps that are due each is the one that comes first by
/// the pick.
pub fn settle_in(
    alloc: Global,
    problem: Problem,
    budget: u32,
    pick: Pick,
) -> Result<Settled, AllocError>
    requires fits { ProblemFits problem }
    requires limit { budget ≤ most_budget }
    ensures { IfOk result (Ends pick problem budget) }
{
    let mut search = Search::start(alloc, problem)?;
    let mut waiting = Waiting::none(alloc, &search)?;
    for _taken in 0..budget {
        let next = next_step(alloc, &search, pick, &mut waiting)?;
        match next {
            Next::Take(due) => {
                let (then, left) = take(alloc, search, pick, due, waiting)?;
                search = then;
                waiting = left;
            }
            Next::Saturated(number) => return saturated(alloc, search, number),
            Next::Closed => return Ok(closed(search)),
        }
    }
    end(alloc, search, pick, &mut waiting)
}

/// The search in the order of steps alone, as [`settle`] makes it.
#[derive(Clone, Copy, Debug, Drop)]
pub struct InOrder;

impl Settle for InOrder {
    ghost orders = { λ _. 1 };

    fn settle(&self, alloc: Global, problem: Problem, budget: u32) -> Result<Settled, AllocError> {
        settle(alloc, problem, budget)
    }
}

/// How the search ends, when the budget is spent.
fn end(
    alloc: Global,
    search: Search,
    pick: Pick,
    waiting: &mut Waiting,
) -> Result<Settled, AllocError>
    requires waiting { AreWaiting pick search waiting.old }
    requires searches { Searches pick search.problem search.steps search.slots }
    ensures { IfOk result (Ends pick search.problem (length search.steps)) }
{
    let next = next_step(alloc, &search, pick, waiting)?;
    match next {
        Next::Take(_) => spent(alloc, &search),
        Next::Saturated(number) => saturated(alloc, search, number),
        Next::Closed => Ok(closed(search)),
    }
}

/// The search after the step, which is due. All branches but its own wait then, what is left of the
/// agenda is that one's, and what was told is told.
fn take(
    alloc: Global,
    search: Search,
    pick: Pick,
    due: Due,
    before: Waiting,
) -> Result<(Search, Waiting), AllocError>
    requires few { length search.steps < most_budget }
    requires before { AreWaiting pick search before }
    requires taken { IsTaken pick search due }
    requires searches { Searches pick search.problem search.steps search.slots }
    ensures { IfOk result (λ it. HasMoved pick search it.0 it.1) }
{
    let Due { found, agenda } = due;
    let quiet = quiet_round(&search, &found);
    let left = left_after(alloc, &search, &found, agenda)?;
    let step = found.step.copy(alloc)?;
    let mut waiting = Waiting::beside(alloc, &search, &found.step, left, before.memory);
    let then = search.moved(alloc, found.step)?;
    waiting.memory.move_on(alloc, &then, &step)?;
    keep_quiet(alloc, &then, pick, quiet, &mut waiting)?;
    Ok((then, waiting))
}

/// The proof that the search is, of which no branch is open.
fn closed(search: Search) -> Settled
    requires { AllClosed search.slots }
    ensures { result ≡ ByProof (record { problem = search.problem; steps = search.steps }) }
{
    match search.close() {
        Ok(proved) => Settled::Proved(proved),
        Err(_) => unreachable!(),
    }
}

/// The steps that were taken.
fn spent(alloc: Global, search: &Search) -> Result<Settled, AllocError>
    ensures { IfOk result (λ it. it ≡ Spent search.now.steps) }
{
    let steps = search.steps().copy(alloc)?;
    Ok(Settled::Spent(steps))
}

/// The leaf of the branch.
fn saturated(alloc: Global, search: Search, number: u32) -> Result<Settled, AllocError>
    requires { open_at search.slots number ≢ None }
    ensures { IfOk result (IsLeafOf search number) }
{
    let (steps, branch) = left_at(alloc, &search, number)?;
    let problem = Owned::new(alloc, search.into_problem())?;
    Ok(Settled::Saturated(Leaf {
        problem,
        steps,
        branch,
    }))
}

/// The steps that were taken, and the branch.
fn left_at(
    alloc: Global,
    search: &Search,
    number: u32,
) -> Result<(List<Step>, Owned<Branch>), AllocError>
    requires { open_at search.now.slots number ≢ None }
    ensures { IfOk result (AreLeftAt search.now number) }
{
    match search.branch(number) {
        Some(branch) => {
            let steps = search.steps().copy(alloc)?;
            let branch = branch.owned_copy(alloc)?;
            Ok((steps, branch))
        }
        None => unreachable!(),
    }
}
