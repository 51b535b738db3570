//! What the bytes of a line say: a problem and steps.
ghost use Rattle.std.specs.Prelude.{◌≡◌, length};
ghost use Rattle.serde_json.specs.View.{members_view, view};
ghost use Rattle.ba_model.specs.Readings.{Gives, widened};
ghost use Rattle.ba_store.specs.Reading.{asked_at, draft_at, draft_of, fields_of, problem_at};
ghost use Rattle.ba_store.specs.declared.fault.LineFault.TheVariants.{Field};

use crate::fault::{LineFault, StoreField};
use crate::fields::{condition_at, entries_at, goal_at, keys_at, steps_at, vars_at, version_at};
use ba_kernel::Problem;
use ba_model::{Failure, Policy, Shared};
use ba_proof::Proof;
use serde_json::{Map, Value};
use std::alloc::Global;

/// The problem without its condition.
#[tactic(auto, unfolding(crate::specs::Reading::asked_at))]
fn asked_at(
    alloc: Global,
    policy: &Shared<Policy>,
    value: &Value,
) -> Result<Problem, Failure<StoreField>>
    ensures { Gives result (asked_at policy.now (view value.now)) }
{
    version_at(value.get("version"))?;
    let vars = vars_at(alloc, policy.params.as_slice(), value.get("vars"))?;
    let goal = goal_at(alloc, policy, &vars, value.get("goal"))?;
    let goal = Shared::new(alloc, goal)?;
    entries_at(alloc, policy, vars, goal, value.get("entries"))
}

#[tactic(auto, unfolding(crate::specs::Reading::problem_at))]
fn problem_at(
    alloc: Global,
    policy: &Shared<Policy>,
    value: &Value,
) -> Result<Problem, Failure<StoreField>>
    ensures { Gives result (problem_at policy.now (view value.now)) }
{
    let mut problem = asked_at(alloc, policy, value)?;
    let assumed = condition_at(
        alloc,
        policy,
        problem.vars.as_slice(),
        value.get("condition"),
    )?;
    problem.assumed = assumed;
    Ok(problem)
}

#[tactic(auto, unfolding(crate::specs::Reading::fields_of))]
fn fields_of(
    alloc: Global,
    policy: &Shared<Policy>,
    value: &Value,
    members: &Map<String, Value>,
) -> Result<Proof, Failure<StoreField>>
    ensures { Gives result
        (fields_of policy.now (view value.now) (members_view members.now.entries)) }
{
    let problem = problem_at(alloc, policy, value)?;
    let steps = steps_at(
        alloc,
        policy.params.as_slice(),
        problem.vars.len(),
        value.get("steps"),
    )?;
    keys_at(members)?;
    Ok(Proof { problem, steps })
}

fn fields_or(
    alloc: Global,
    policy: &Shared<Policy>,
    value: &Value,
    members: &Map<String, Value>,
) -> Result<Proof, Failure<LineFault>>
    ensures { Gives result (widened Field
        (fields_of policy.now (view value.now) (members_view members.now.entries))) }
{
    match fields_of(alloc, policy, value, members) {
        Ok(draft) => Ok(draft),
        Err(Failure::NoMemory) => Err(Failure::NoMemory),
        Err(Failure::Fault(field)) => Err(Failure::Fault(LineFault::Field(field))),
    }
}

fn draft_at(
    alloc: Global,
    policy: &Shared<Policy>,
    value: &Value,
) -> Result<Proof, Failure<LineFault>>
    ensures { Gives result (draft_at policy.now (view value.now)) }
{
    match value.as_object() {
        Some(members) => fields_or(alloc, policy, value, members),
        None => Err(Failure::Fault(LineFault::Json)),
    }
}

/// The problem and the steps that the bytes of a line say. Nothing is said of the steps but that
/// they are steps.
pub(crate) fn draft_of(
    alloc: Global,
    policy: &Shared<Policy>,
    bytes: &[u8],
) -> Result<Proof, Failure<LineFault>>
    ensures { Gives result (draft_of policy.now bytes.now) }
{
    match Value::from_slice(alloc, bytes) {
        Ok(value) => draft_at(alloc, policy, &value),
        Err(e) => {
            if e.is_memory() {
                Err(Failure::NoMemory)
            } else {
                Err(Failure::Fault(LineFault::Json))
            }
        }
    }
}
