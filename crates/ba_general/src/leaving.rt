//! Steps of a proof that it doesn't need.
ghost use Rattle.std.specs.Prelude.{◌≡◌, ◌<◌, ◌≤◌, IfOk, IsTrue, OnOk, length};
ghost use Rattle.ba_model.specs.Limits.{most_steps};
ghost use Rattle.ba_kernel.specs.Courses.{ProblemFits};
ghost use Rattle.ba_kernel.specs.Replays.{Closes};
ghost use Rattle.ba_general.specs.Leaving.{AreKept, CanNotBeLeftOut, IsLeftOut, IsTried, Leaves, MaybeIs, made};

use crate::copies::copy_problem;
use crate::making::list_made;
use crate::others::Taken;
use ba_kernel::{Problem, Step, replay};
use ba_model::{Duplicate, Failure, List};
use std::alloc::{AllocError, Global};

/// The steps that stay: all are left out at once, or else half by half, the later half first, where
/// the rest still proves the problem.
pub fn kept_steps(
    alloc: Global,
    problem: &Problem,
    steps: &List<Step>,
) -> Result<List<Step>, AllocError>
    requires fits { ProblemFits problem.now }
    requires few { length steps.now ≤ most_steps }
    requires closes { Closes problem.now steps.now }
    ensures kept { IfOk result (AreKept problem.now steps.now) }
    ensures closes { IfOk result (Closes problem.now) }
    ensures few { IfOk result (λ it. length it ≤ length steps.now) }
{
    let mut taken = with_made(alloc, problem, steps.copy(alloc)?)?;
    leave(alloc, problem, &mut taken, 0, steps.len(), false)?;
    Ok(taken.steps)
}

/// The steps with what each makes.
fn with_made(alloc: Global, problem: &Problem, steps: List<Step>) -> Result<Taken, AllocError>
    ensures steps { IfOk result (λ it. it.steps ≡ steps) }
    ensures made { IfOk result (λ it. it.made.items ≡ made problem.now steps) }
{
    let made = list_made(alloc, problem, &steps)?;
    Ok(Taken { steps, made })
}

/// Leaves out what can be left out of the steps from one number up to another: all at once, unless
/// it is known that they can't be, or else half by half. Told where all went at once: then those
/// before them can't go at once where both together couldn't, since it would be the same try.
fn leave(
    alloc: Global,
    problem: &Problem,
    taken: &mut Taken,
    first: usize,
    end: usize,
    refused: bool,
) -> Result<bool, AllocError>
    requires fits { ProblemFits problem.now }
    requires few { length taken.old.steps ≤ most_steps }
    requires made { taken.old.made.items ≡ made problem.now taken.old.steps }
    requires there { end ≤ length taken.old.steps }
    requires refused { IsTrue refused → CanNotBeLeftOut problem.now taken.old.steps first end }
    ensures leaves { OnOk result (Leaves problem.now taken.old.steps first end taken.new.steps) }
    ensures made { OnOk result (taken.new.made.items ≡ made problem.now taken.new.steps) }
    ensures gone { IfOk result (λ gone.
        IsTrue gone → IsLeftOut problem.now taken.old.steps first end taken.new.steps) }
{
    if first >= end {
        return Ok(false);
    }
    let rest = left_out(alloc, problem, taken, first, end, refused)?;
    if let Some(rest) = rest {
        *taken = with_made(alloc, problem, rest)?;
        return Ok(true);
    }
    if end - first == 1 {
        return Ok(false);
    }
    let middle = first + (end - first) / 2;
    let gone = leave(alloc, problem, taken, middle, end, false)?;
    leave(alloc, problem, taken, first, middle, gone)?;
    Ok(false)
}

/// The rest without the steps from one number up to another, if that still proves the problem;
/// nothing is tried where it is known that it doesn't.
fn left_out(
    alloc: Global,
    problem: &Problem,
    taken: &Taken,
    first: usize,
    end: usize,
    refused: bool,
) -> Result<Option<List<Step>>, AllocError>
    requires fits { ProblemFits problem.now }
    requires few { length taken.now.steps ≤ most_steps }
    requires made { taken.now.made.items ≡ made problem.now taken.now.steps }
    requires there { first < length taken.now.steps }
    requires refused { IsTrue refused → CanNotBeLeftOut problem.now taken.now.steps first end }
    ensures { IfOk result (MaybeIs (IsLeftOut problem.now taken.now.steps first end)) }
{
    if refused {
        return Ok(None);
    }
    let rest = taken.without(alloc, first, end)?;
    let Some(rest) = rest else {
        return Ok(None);
    };
    tried(alloc, problem, rest)
}

/// The steps, if they prove the problem.
fn tried(
    alloc: Global,
    problem: &Problem,
    steps: List<Step>,
) -> Result<Option<List<Step>>, AllocError>
    requires fits { ProblemFits problem.now }
    requires few { length steps ≤ most_steps }
    ensures { IfOk result (IsTried problem.now steps) }
{
    let problem = copy_problem(alloc, problem)?;
    match replay(alloc, problem, steps) {
        Ok(proved) => Ok(Some(proved.into_steps())),
        Err(Failure::Fault(_)) => Ok(None),
        Err(Failure::NoMemory) => Err(AllocError),
    }
}
