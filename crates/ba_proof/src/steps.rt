//! The steps of a proof file.
ghost use Rattle.std.specs.Prelude.{◌≡◌, map, option_map};
ghost use Rattle.serde_json.specs.View.{view};
ghost use Rattle.ba_model.specs.Readings.{Gives, each};
ghost use Rattle.ba_proof.specs.Steps.{absurd_of, entry_of, goal_of, key_of, link_of, named_of, rule_in, rule_of, split_of, step_at, step_of, view_of};

use crate::fault::{ProofFault, ProofField, bad};
use crate::shapes::{list_at, text_at};
use crate::terms::{atom_at, long_at, number_at, numbers_at};
use crate::version::RULE_VERSION;
use ba_kernel::Step;
use ba_model::{Failure, List, Parameter};
use serde_json::Value;
use std::alloc::Global;

fn entry_of(args: &[Value]) -> Result<Step, Failure<ProofFault>>
    ensures { Gives result (entry_of (map view args.now)) }
{
    let [branch, entry] = args else {
        return bad(ProofField::Steps);
    };
    let branch = number_at(branch)?;
    let entry = long_at(entry)?;
    Ok(Step::Entry { branch, entry })
}

fn key_of(args: &[Value]) -> Result<Step, Failure<ProofFault>>
    ensures { Gives result (key_of (map view args.now)) }
{
    let [branch, key, left, right] = args else {
        return bad(ProofField::Steps);
    };
    let branch = number_at(branch)?;
    let key = number_at(key)?;
    let left = number_at(left)?;
    let right = number_at(right)?;
    Ok(Step::Key {
        branch,
        key,
        left,
        right,
    })
}

fn link_of(args: &[Value]) -> Result<Step, Failure<ProofFault>>
    ensures { Gives result (link_of (map view args.now)) }
{
    let [branch, link, fact] = args else {
        return bad(ProofField::Steps);
    };
    let branch = number_at(branch)?;
    let link = number_at(link)?;
    let fact = number_at(fact)?;
    Ok(Step::Link { branch, link, fact })
}

fn rule_of(alloc: Global, args: &[Value]) -> Result<Step, Failure<ProofFault>>
    ensures { Gives result (rule_of (map view args.now)) }
{
    let [branch, rule, part, facts] = args else {
        return bad(ProofField::Steps);
    };
    let branch = number_at(branch)?;
    let rule = number_at(rule)?;
    let part = number_at(part)?;
    let facts = numbers_at(alloc, facts)?;
    Ok(Step::Rule {
        branch,
        rule,
        part,
        facts,
    })
}

fn view_of(alloc: Global, args: &[Value]) -> Result<Step, Failure<ProofFault>>
    ensures { Gives result (view_of (map view args.now)) }
{
    let [branch, it, part, facts] = args else {
        return bad(ProofField::Steps);
    };
    let branch = number_at(branch)?;
    let view = number_at(it)?;
    let part = number_at(part)?;
    let facts = numbers_at(alloc, facts)?;
    Ok(Step::View {
        branch,
        view,
        part,
        facts,
    })
}

fn split_of(
    alloc: Global,
    params: &[Parameter],
    vars: usize,
    args: &[Value],
) -> Result<Step, Failure<ProofFault>>
    ensures { Gives result (split_of params.now vars (map view args.now)) }
{
    let [branch, atom] = args else {
        return bad(ProofField::Steps);
    };
    let branch = number_at(branch)?;
    let atom = atom_at(alloc, params, vars, atom)?;
    Ok(Step::Split { branch, atom })
}

fn absurd_of(args: &[Value]) -> Result<Step, Failure<ProofFault>>
    ensures { Gives result (absurd_of (map view args.now)) }
{
    let [branch] = args else {
        return bad(ProofField::Steps);
    };
    let branch = number_at(branch)?;
    Ok(Step::Absurd { branch })
}

fn goal_of(alloc: Global, args: &[Value]) -> Result<Step, Failure<ProofFault>>
    ensures { Gives result (goal_of (map view args.now)) }
{
    let [branch, part, facts] = args else {
        return bad(ProofField::Steps);
    };
    let branch = number_at(branch)?;
    let part = number_at(part)?;
    let facts = numbers_at(alloc, facts)?;
    Ok(Step::Goal {
        branch,
        part,
        facts,
    })
}

fn rule_in(alloc: Global, version: u64, args: &[Value]) -> Result<Step, Failure<ProofFault>>
    ensures { Gives result (rule_in version (map view args.now)) }
{
    if RULE_VERSION <= version {
        rule_of(alloc, args)
    } else {
        bad(ProofField::Steps)
    }
}

#[tactic(auto, unfolding(crate::specs::Steps::named_of))]
fn named_of(
    alloc: Global,
    params: &[Parameter],
    vars: usize,
    version: u64,
    name: &str,
    args: &[Value],
) -> Result<Step, Failure<ProofFault>>
    ensures { Gives result (named_of params.now vars version name.now (map view args.now)) }
{
    if name == "entry" {
        entry_of(args)
    } else if name == "key" {
        key_of(args)
    } else if name == "link" {
        link_of(args)
    } else if name == "rule" {
        rule_in(alloc, version, args)
    } else if name == "view" {
        view_of(alloc, args)
    } else if name == "split" {
        split_of(alloc, params, vars, args)
    } else if name == "absurd" {
        absurd_of(args)
    } else if name == "goal" {
        goal_of(alloc, args)
    } else {
        bad(ProofField::Steps)
    }
}

fn step_of(
    alloc: Global,
    params: &[Parameter],
    vars: usize,
    version: u64,
    items: &[Value],
) -> Result<Step, Failure<ProofFault>>
    ensures { Gives result (step_of params.now vars version (map view items.now)) }
{
    let [name, args @ ..] = items else {
        return bad(ProofField::Steps);
    };
    let it = text_at(ProofField::Steps, name)?;
    named_of(alloc, params, vars, version, it, args)
}

#[tactic(auto, unfolding(crate::specs::Steps::step_at))]
fn step_at(
    alloc: Global,
    params: &[Parameter],
    vars: usize,
    version: u64,
    value: &Value,
) -> Result<Step, Failure<ProofFault>>
    ensures { Gives result (step_at params.now vars version (view value.now)) }
{
    let items = list_at(ProofField::Steps, value)?;
    step_of(alloc, params, vars, version, items)
}

/// The steps that JSON values are, one after another, as a proof file of the version has them:
/// steps by rules stand from [`RULE_VERSION`] on.
///
/// Their terms are whole numbers of 64 bits, texts, unknowns, parameters of these names, and
/// variables whose number is below `vars`; a proof file's problem has none. The only faults are
/// `BadField(Steps)`, where a value is no step, and want of memory.
pub fn steps_of(
    alloc: Global,
    params: &[Parameter],
    vars: usize,
    version: u64,
    items: &[Value],
) -> Result<List<Step>, Failure<ProofFault>>
    ensures { Gives result (each (step_at params.now vars version) (map view items.now)) }
{
    let mut found = List::new(alloc);
    for item in items {
        let step = step_at(alloc, params, vars, version, item)?;
        found.push(step)?;
    }
    Ok(found)
}
