//! Entries of which a proof's template can't be rid.
ghost use Rattle.std.specs.Prelude.{◌≡◌, ◌++◌, IfOk, OnOk};
ghost use Rattle.ba_general.specs.Leaving.{AreOfCases, makes_cases, named_of_cases};

use ba_kernel::{Problem, Step};
use ba_model::List;
use std::alloc::{AllocError, Global};

/// The numbers of the entries that the steps name and that make several cases or none, rising, each
/// once. A step by such an entry is never left out, whatever else is.
pub fn entries_of_cases(
    alloc: Global,
    problem: &Problem,
    steps: &List<Step>,
) -> Result<Vec<u64>, AllocError>
    ensures { IfOk result (λ it. AreOfCases problem.now steps.now it.items) }
{
    let mut numbers = Vec::new(alloc);
    for step in steps.as_slice() {
        add_of_cases(&mut numbers, problem, step)?;
    }
    numbers.sort_unstable();
    numbers.dedup();
    Ok(numbers)
}

fn add_of_cases(numbers: &mut Vec<u64>, problem: &Problem, step: &Step) -> Result<(), AllocError>
    ensures { OnOk result
        (numbers.new.items ≡ numbers.old.items ++ named_of_cases problem.now step.now) }
{
    if let Step::Entry { entry, .. } = step {
        if makes_cases(problem, *entry) {
            numbers.push(*entry)?;
        }
    }
    Ok(())
}

/// Whether a step by the entry makes several cases or none.
fn makes_cases(problem: &Problem, entry: u64) -> bool
    ensures { result ≡ makes_cases problem.now entry }
{
    match problem.entries.find(entry as usize) {
        Some(entry) => entry.query.parts.len() != 1,
        None => true,
    }
}
