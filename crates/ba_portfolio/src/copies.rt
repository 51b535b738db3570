//! A problem for each of two searches.
ghost use Rattle.std.specs.Prelude.{◌≡◌, IfOk};

use ba_kernel::{Problem, ProblemEntry};
use ba_model::{Duplicate, Kind, List};
use std::alloc::{AllocError, Global};

/// The same problem. Its policy and queries are held in common.
pub(crate) fn copy_problem(alloc: Global, problem: &Problem) -> Result<Problem, AllocError>
    ensures { IfOk result (λ it. it ≡ problem.now) }
{
    let entries = copy_entries(alloc, &problem.entries)?;
    let vars = copy_kinds(alloc, &problem.vars)?;
    let assumed = problem.assumed.copy(alloc)?;
    Ok(Problem {
        policy: problem.policy.copy(alloc)?,
        vars,
        assumed,
        entries,
        goal: problem.goal.copy(alloc)?,
    })
}

fn copy_kinds(alloc: Global, kinds: &List<Kind>) -> Result<List<Kind>, AllocError>
    ensures { IfOk result (λ it. it ≡ kinds.now) }
{
    let mut all = Vec::new(alloc);
    all.extend_from_slice(kinds.as_slice())?;
    Ok(List::from_vec(all))
}

fn copy_entries(
    alloc: Global,
    entries: &List<ProblemEntry>,
) -> Result<List<ProblemEntry>, AllocError>
    ensures { IfOk result (λ it. it ≡ entries.now) }
{
    let mut all = List::new(alloc);
    for entry in entries.as_slice() {
        all.push(copy_entry(alloc, entry)?)?;
    }
    Ok(all)
}

fn copy_entry(alloc: Global, entry: &ProblemEntry) -> Result<ProblemEntry, AllocError>
    ensures { IfOk result (λ it. it ≡ entry.now) }
{
    let row = entry.row.copy(alloc)?;
    Ok(ProblemEntry {
        query: entry.query.copy(alloc)?,
        row,
    })
}
