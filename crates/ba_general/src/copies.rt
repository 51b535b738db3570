//! Copies of problems, and the proofs that steps are.
ghost use Rattle.std.specs.Prelude.{◌≡◌, ◌≤◌, IfOk, length};
ghost use Rattle.ba_model.specs.Limits.{most_steps};
ghost use Rattle.ba_kernel.specs.Courses.{ProblemFits};
ghost use Rattle.ba_general.specs.Dropping.{IsProofBy};

use ba_kernel::{Problem, ProblemEntry, Proved, Step, replay};
use ba_model::{Duplicate, Failure, Kind, List};
use std::alloc::{AllocError, Global};

/// The same problem. Its policy and queries are held in common.
pub fn copy_problem(alloc: Global, problem: &Problem) -> Result<Problem, AllocError>
    ensures { IfOk result (λ it. it ≡ problem.now) }
{
    let entries = copy_entries(alloc, &problem.entries)?;
    let vars = copy_kinds(alloc, &problem.vars)?;
    let assumed = problem.assumed.copy(alloc)?;
    Ok(Problem {
        policy: problem.policy.copy(alloc)?,
        vars,
        assumed,
        entries,
        goal: problem.goal.copy(alloc)?,
    })
}

/// The same kinds.
pub fn copy_kinds(alloc: Global, kinds: &List<Kind>) -> Result<List<Kind>, AllocError>
    ensures { IfOk result (λ it. it ≡ kinds.now) }
{
    let mut all = Vec::new(alloc);
    all.extend_from_slice(kinds.as_slice())?;
    Ok(List::from_vec(all))
}

/// The same entries.
pub fn copy_entries(
    alloc: Global,
    entries: &List<ProblemEntry>,
) -> Result<List<ProblemEntry>, AllocError>
    ensures { IfOk result (λ it. it ≡ entries.now) }
{
    let mut all = List::new(alloc);
    for entry in entries.as_slice() {
        all.push(copy_entry(alloc, entry)?)?;
    }
    Ok(all)
}

/// The same entry.
pub fn copy_entry(alloc: Global, entry: &ProblemEntry) -> Result<ProblemEntry, AllocError>
    ensures { IfOk result (λ it. it ≡ entry.now) }
{
    let row = entry.row.copy(alloc)?;
    Ok(ProblemEntry {
        query: entry.query.copy(alloc)?,
        row,
    })
}

/// The proof that the steps are of the problem, if they are accepted, one after another, from its
/// start and leave no branch open.
pub fn proof_by(
    alloc: Global,
    problem: Problem,
    steps: &List<Step>,
) -> Result<Option<Proved>, AllocError>
    requires fits { ProblemFits problem }
    requires few { length steps.now ≤ most_steps }
    ensures { IfOk result (IsProofBy problem steps.now) }
{
    let steps = steps.copy(alloc)?;
    match replay(alloc, problem, steps) {
        Ok(proved) => Ok(Some(proved)),
        Err(Failure::Fault(_)) => Ok(None),
        Err(Failure::NoMemory) => Err(AllocError),
    }
}
