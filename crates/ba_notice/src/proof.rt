//! Proofs that aren't accepted, and files that are none.

use ba_kernel::StepFault;
use ba_proof::CheckFault;
use std::alloc::{AllocError, Global};

/// What a field of a proof's file has to be.
pub fn field_text(field: &str) -> &'static str {
    match field {
        "version" => "version must be 1 or 2",
        "context" => {
            "context must give every parameter of the policy a value of its kind, and no other name"
        }
        "entries" => "each of entries must be a query and a row of its width and kinds",
        "goal" => "goal must be a question that is read",
        "steps" => "each of steps must have the form of a step, and one by a rule needs version 2",
        _ => "the keys must be context, entries, goal, steps and version, and no others",
    }
}

// Why a step isn't accepted.
fn step_text(alloc: Global, fault: StepFault) -> Result<String, AllocError> {
    match fault {
        StepFault::NoBranch => String::from_str(alloc, "its branch isn't there or is closed"),
        StepFault::BadFact => String::from_str(
            alloc,
            "a fact of it isn't there, or is of another table or database, or it has too many or too few",
        ),
        StepFault::BadRule => String::from_str(
            alloc,
            "its entry, key, link, rule, view or part isn't there, or its comparison may not be split",
        ),
        StepFault::CondNotShown(number) => {
            format!(in alloc; "condition {number} of what it uses isn't shown")
        }
        StepFault::HeadDiffers(number) => {
            format!(in alloc; "column {number} isn't shown to be that of the question's row")
        }
        StepFault::NotAbsurd => String::from_str(alloc, "what is known can be true"),
    }
}

/// That the step of a number is the first that isn't accepted, and why.
pub fn not_shown_text(alloc: Global, step: u64, fault: StepFault) -> Result<String, AllocError> {
    let why = step_text(alloc, fault)?;
    format!(in alloc; "step {step}, counted from 0, isn't accepted: {why}")
}

/// That all steps are accepted, and how many branches are open.
pub fn still_open_text(alloc: Global, branches: u64) -> Result<String, AllocError> {
    format!(in alloc; "each step is accepted, and branches are left open: {branches}")
}

/// Why a proof isn't accepted.
pub fn check_text(alloc: Global, fault: CheckFault) -> Result<String, AllocError> {
    match fault {
        CheckFault::NotShown { step, fault } => not_shown_text(alloc, step as u64, fault),
        CheckFault::StillOpen { branches } => still_open_text(alloc, branches as u64),
    }
}
