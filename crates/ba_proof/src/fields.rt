//! The fields of a proof file, each by itself.
ghost use Rattle.std.specs.Prelude.{◌≡◌, [], IfOk, length, map, option_map};
ghost use Rattle.serde_json.specs.View.{view, members_view};
ghost use Rattle.ba_model.specs.Fit.{ContextFits, IsQuery, kinds_of};
ghost use Rattle.ba_model.specs.Readings.{Gives};
ghost use Rattle.ba_proof.specs.Reading.{are_keys, context_at, few_at, goal_at, is_key, keys_at, steps_at, version_at};

use crate::entries::query_at;
use crate::fault::{ProofFault, ProofField, bad};
use crate::shapes::{as_list, list_at};
use crate::steps::steps_of;
use crate::version::LAST_VERSION;
use ba_kernel::Step;
use ba_model::{Context, Failure, List, MAX_STEPS, Parameter, Policy, Query};
use ba_script::{context_of, read_members};
use serde_json::{Map, Value};
use std::alloc::Global;

/// Whether the steps aren't too many.
#[tactic(auto, unfolding(crate::specs::Reading::few_at))]
pub(crate) fn few_at(found: Option<&Value>) -> Result<(), Failure<ProofFault>>
    ensures { Gives result (few_at (option_map (λ v. view v.now) found.entry)) }
{
    let Some(value) = found else {
        return Ok(());
    };
    match as_list(value) {
        Some(items) if items.len() as u64 > MAX_STEPS => {
            Err(Failure::Fault(ProofFault::TooLong))
        }
        _ => Ok(()),
    }
}

/// The number of the format.
#[tactic(auto, unfolding(crate::specs::Reading::version_at))]
pub(crate) fn version_at(found: Option<&Value>) -> Result<u64, Failure<ProofFault>>
    ensures { Gives result (version_at (option_map (λ v. view v.now) found.entry)) }
{
    let Some(value) = found else {
        return bad(ProofField::Version);
    };
    match value.as_u64() {
        Some(n) if 1 <= n && n <= LAST_VERSION => Ok(n),
        _ => bad(ProofField::Version),
    }
}

/// A value of its kind for each parameter.
#[tactic(auto, unfolding(crate::specs::Reading::context_at))]
pub(crate) fn context_at(
    alloc: Global,
    params: &[Parameter],
    found: Option<&Value>,
) -> Result<Context, Failure<ProofFault>>
    ensures exact { Gives result (context_at params.now (option_map (λ v. view v.now) found.entry)) }
{
    let Some(value) = found else {
        return bad(ProofField::Context);
    };
    let Some(map) = value.as_object() else {
        return bad(ProofField::Context);
    };
    let members = read_members(alloc, map)?;
    let context = context_of(alloc, params, members.as_slice())?;
    match context {
        Some(context) => Ok(context),
        None => bad(ProofField::Context),
    }
}

/// The question.
#[tactic(auto, unfolding(crate::specs::Reading::goal_at))]
pub(crate) fn goal_at(
    alloc: Global,
    policy: &Policy,
    found: Option<&Value>,
) -> Result<Query, Failure<ProofFault>>
    ensures exact { Gives result (goal_at policy.now.schema policy.now.params
        (option_map (λ v. view v.now) found.entry)) }
    ensures query { IfOk result
        (IsQuery policy.now.schema (kinds_of policy.now.params) []) }
{
    match found {
        Some(value) => query_at(alloc, policy, ProofField::Goal, value),
        None => bad(ProofField::Goal),
    }
}

/// The steps.
#[tactic(auto, unfolding(crate::specs::Reading::steps_at))]
pub(crate) fn steps_at(
    alloc: Global,
    params: &[Parameter],
    version: u64,
    found: Option<&Value>,
) -> Result<List<Step>, Failure<ProofFault>>
    ensures { Gives result (steps_at params.now version (option_map (λ v. view v.now) found.entry)) }
{
    let Some(value) = found else {
        return bad(ProofField::Steps);
    };
    let items = list_at(ProofField::Steps, value)?;
    steps_of(alloc, params, 0, version, items)
}

#[tactic(auto, unfolding(crate::specs::Reading::is_key))]
fn is_key(name: &str) -> bool
    ensures { result ≡ is_key name.now }
{
    name == "context" || name == "entries" || name == "goal" || name == "steps" || name == "version"
}

fn are_keys(members: &Map<String, Value>) -> bool
    ensures { result ≡ are_keys (members_view members.now.entries) }
{
    for (name, _) in members.iter() {
        if !is_key(name.as_str()) {
            return false;
        }
    }
    true
}

/// Whether there are no other keys.
#[tactic(auto, unfolding(crate::specs::Reading::keys_at))]
pub(crate) fn keys_at(members: &Map<String, Value>) -> Result<(), Failure<ProofFault>>
    ensures { Gives result (keys_at (members_view members.now.entries)) }
{
    if are_keys(members) {
        Ok(())
    } else {
        bad(ProofField::Keys)
    }
}
