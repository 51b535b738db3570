//! Reads a proof file.
ghost use Rattle.std.specs.Prelude.{◌≡◌, ◌≤◌, [], IfOk, length};
ghost use Rattle.serde_json.specs.View.{view, members_view};
ghost use Rattle.ba_model.specs.Fit.{PolicyFits};
ghost use Rattle.ba_model.specs.Readings.{Gives};
ghost use Rattle.ba_model.specs.SchemaFaults.{AreTables};
ghost use Rattle.ba_model.specs.Limits.{most_steps};
ghost use Rattle.ba_model.specs.RuleFaults.{RuleFits};
ghost use Rattle.ba_kernel.specs.Courses.{ProblemFits};
ghost use Rattle.ba_proof.specs.Checked.{IsAsked, IsPolicy};
ghost use Rattle.ba_proof.specs.Reading.{fields_of, proof_at, proof_of, question_at};

use crate::entries::entries_at;
use crate::fault::{ProofFault, ProofField, bad};
use crate::fields::{context_at, few_at, goal_at, keys_at, steps_at, version_at};
use crate::proof::Proof;
use ba_kernel::Problem;
use ba_model::{Failure, Policy, Shared};
use serde_json::{Map, Value};
use std::alloc::Global;

#[tactic(auto, unfolding(crate::specs::Reading::question_at))]
fn question_at(
    alloc: Global,
    policy: &Shared<Policy>,
    value: &Value,
) -> Result<Problem, Failure<ProofFault>>
    ensures exact { Gives result (question_at policy.now (view value.now)) }
    ensures fits { IsPolicy policy.now → IfOk result ProblemFits }
    ensures asked { IsPolicy policy.now → IfOk result (IsAsked policy.now) }
    ensures vars { IfOk result (λ problem. problem.vars ≡ []) }
{
    let context = context_at(alloc, policy.params.as_slice(), value.get("context"))?;
    let trace = entries_at(alloc, policy, value.get("entries"))?;
    let query = goal_at(alloc, policy, value.get("goal"))?;
    let goal = Shared::new(alloc, query)?;
    let problem = Problem::of(alloc, policy, &context, &trace, &goal)?;
    Ok(problem)
}

#[tactic(auto, using(crate::proofs::FitLemmas::few_steps), unfolding(crate::specs::Reading::fields_of))]
fn fields_of(
    alloc: Global,
    policy: &Shared<Policy>,
    value: &Value,
    members: &Map<String, Value>,
) -> Result<Proof, Failure<ProofFault>>
    ensures exact { Gives result
        (fields_of policy.now (view value.now) (members_view members.now.entries)) }
    ensures fits { IsPolicy policy.now → IfOk result (λ proof. ProblemFits proof.problem) }
    ensures asked { IsPolicy policy.now → IfOk result (λ proof. IsAsked policy.now proof.problem) }
    ensures vars { IfOk result (λ proof. proof.problem.vars ≡ []) }
    ensures few { IfOk result (λ proof. length proof.steps ≤ most_steps) }
{
    few_at(value.get("steps"))?;
    let version = version_at(value.get("version"))?;
    let problem = question_at(alloc, policy, value)?;
    let steps = steps_at(alloc, policy.params.as_slice(), version, value.get("steps"))?;
    keys_at(members)?;
    Ok(Proof { problem, steps })
}

fn proof_at(
    alloc: Global,
    policy: &Shared<Policy>,
    value: &Value,
) -> Result<Proof, Failure<ProofFault>>
    ensures exact { Gives result (proof_at policy.now (view value.now)) }
    ensures fits { IsPolicy policy.now → IfOk result (λ proof. ProblemFits proof.problem) }
    ensures asked { IsPolicy policy.now → IfOk result (λ proof. IsAsked policy.now proof.problem) }
    ensures vars { IfOk result (λ proof. proof.problem.vars ≡ []) }
    ensures few { IfOk result (λ proof. length proof.steps ≤ most_steps) }
{
    match value.as_object() {
        Some(members) => fields_of(alloc, policy, value, members),
        None => Err(Failure::Fault(ProofFault::BadJson)),
    }
}

/// The proof that a file is, for a policy: the problem of its question, after its rows, under its
/// context, and its steps.
///
/// The file is one JSON object with exactly the keys `context`, `entries`, `goal`, `steps` and
/// `version`, as the format's description says. An object's key that comes twice has its last
/// value. A row may hold `null`, which is NULL; a context and a step's terms may not.
///
/// Faults, of which the first of this order is told: `BadJson`; `TooLong`, where there are more
/// steps than [`ba_model::MAX_STEPS`]; `BadField` with the first field of [`ProofField`]'s order
/// that isn't there or isn't what it has to be. A parameter that the policy lacks is a bad field
/// where it stands. `NoMemory` leaves nothing behind.
///
/// Nothing is said of the steps but that they are steps: [`crate::check`] takes them. What a file
/// says, apart from how it is read, is a relation ([`crate::laws::proof_is_exact`]).
#[tactic(auto, unfolding(crate::specs::Reading::proof_of))]
pub fn read_proof(
    alloc: Global,
    policy: &Shared<Policy>,
    bytes: &[u8],
) -> Result<Proof, Failure<ProofFault>>
    ensures exact { Gives result (proof_of policy.now bytes.now) }
    // What is read can be checked, where the policy is one that was read.
    ensures fits { IsPolicy policy.now → IfOk result (λ proof. ProblemFits proof.problem) }
    // And it is about a question: one that fits the policy, of which its problem is.
    ensures asked { IsPolicy policy.now → IfOk result (λ proof. IsAsked policy.now proof.problem) }
    ensures vars { IfOk result (λ proof. proof.problem.vars ≡ []) }
    ensures few { IfOk result (λ proof. length proof.steps ≤ most_steps) }
{
    match Value::from_slice(alloc, bytes) {
        Ok(value) => proof_at(alloc, policy, &value),
        Err(e) => {
            if e.is_memory() {
                Err(Failure::NoMemory)
            } else {
                Err(Failure::Fault(ProofFault::BadJson))
            }
        }
    }
}
