//! The one line of a check.
#![tactic(auto, unfolding(crate::specs::Verdicts::verdict_json))]

ghost use Rattle.std.specs.Prelude.{◌≡◌, IfOk, string_bytes};
ghost use Rattle.ba_wire.specs.Object.{made};
ghost use Rattle.ba_wire.specs.Printed.{ReadsBack};
ghost use Rattle.ba_wire.specs.Verdicts.{verdict_bytes, verdict_json};

use crate::names::step_fault_text;
use crate::object::Object;
use ba_kernel::StepFault;
use serde_json::Value as Json;
use std::alloc::{AllocError, Global};

/// What the line of a check says of a proof. Steps are numbered from 0.
#[derive(Clone, Copy, Debug, PartialEq, Eq)]
pub enum Verdict {
    /// The proof is accepted: its steps are so many.
    Accepted { steps: u64 },
    /// The step of this number is the first that isn't accepted.
    NotShown { step: u32, fault: StepFault },
    /// All steps are accepted, and so many branches are open.
    StillOpen { branches: u32 },
}

fn accepted_object(alloc: Global, steps: u64) -> Result<Object, AllocError>
    ensures { IfOk result (λ it. made it ≡ verdict_json (Verdict.Accepted steps)) }
{
    Object::new(alloc)
        .with("accepted", Json::Bool(true))?
        .with_count("steps", steps)
}

fn refused_object(alloc: Global, step: u32, fault: StepFault) -> Result<Object, AllocError>
    ensures { IfOk result (λ it. made it ≡ verdict_json (Verdict.NotShown step fault)) }
{
    let text = step_fault_text(alloc, fault)?;
    Object::new(alloc)
        .with("accepted", Json::Bool(false))?
        .with_text("fault", text.as_str())?
        .with_count("step", step as u64)
}

fn open_object(alloc: Global, branches: u32) -> Result<Object, AllocError>
    ensures { IfOk result (λ it. made it ≡ verdict_json (Verdict.StillOpen branches)) }
{
    Object::new(alloc)
        .with("accepted", Json::Bool(false))?
        .with_count("open", branches as u64)
}

fn verdict_object(alloc: Global, verdict: Verdict) -> Result<Object, AllocError>
    ensures { IfOk result (λ it. made it ≡ verdict_json verdict) }
{
    match verdict {
        Verdict::Accepted { steps } => accepted_object(alloc, steps),
        Verdict::NotShown { step, fault } => refused_object(alloc, step, fault),
        Verdict::StillOpen { branches } => open_object(alloc, branches),
    }
}

/// The text of a check's line with its line feed.
pub fn verdict_text(alloc: Global, verdict: Verdict) -> Result<String, AllocError>
    ensures text { IfOk result (λ s. string_bytes s ≡ verdict_bytes verdict) }
    ensures reads_back { IfOk result (λ s. ReadsBack (string_bytes s) (verdict_json verdict)) }
{
    verdict_object(alloc, verdict)?.line()
}
