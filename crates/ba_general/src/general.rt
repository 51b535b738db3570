//! Templates of proofs.
ghost use Rattle.std.specs.Prelude.{◌≡◌, ◌↔◌, ◌≤◌, IfErr, IfOk, IsTrue, length};
ghost use Rattle.ba_model.specs.Readings.{OfFault};
ghost use Rattle.ba_model.specs.Limits.{most_steps};
ghost use Rattle.ba_template.specs.Templates.{EachVarStands};
ghost use Rattle.ba_general.specs.Conditions.{IsAcceptedFully, IsCondition, PatternFits};
ghost use Rattle.ba_general.specs.Generals.{HasTooMany, HasTooManyCases, IsGeneralised, IsMinimal, IsOfQuestion, IsToldBy, IsTooWide, OwnInstance};
ghost use Rattle.ba_general.specs.Patterns.{assuming};

use crate::dropping::{is_accepted, under_condition};
use crate::leaving::kept_steps;
use crate::pattern::Pattern;
use crate::retold::{has_split, named_entries, renumbered, with_variables};
use crate::staying::entries_of_cases;
use ba_kernel::{Problem, Proved, Step};
use ba_model::{Duplicate, Failure, List, MAX_KEPT_ENTRIES, MAX_OPERANDS};
use ba_template::Template;
use std::alloc::{AllocError, Global};

/// Why a proof has no template.
#[derive(Clone, Copy, Debug, PartialEq, Eq)]
pub enum GeneralFault {
    /// The steps that the proof needs name more than [`MAX_KEPT_ENTRIES`] entries, or the variables
    /// for the literals of the question and of those entries and the policy's parameters are more
    /// than [`MAX_OPERANDS`].
    Wide,
}

/// The template of a question's proof.
///
/// Steps that the proof doesn't need are left out, from the last one to the first, and entries that
/// no step then names. Each literal of the question and of the kept entries gets a variable of its
/// own; NULL stays, and so do parameters. The condition is what the steps need of what the literals
/// and the parameters' values tell: the proof's own question, after the rows of the kept entries,
/// meets it in its context, and no atom of it can be dropped with the same steps accepted.
///
/// `Wide` comes exactly where what is kept is too wide for a template. It is told at once where the
/// proof's steps name more than [`MAX_KEPT_ENTRIES`] entries that make several cases or none: no
/// step by such an entry can be left out. `NoMemory` leaves nothing behind.
pub fn generalise(alloc: Global, proved: &Proved) -> Result<Template, Failure<GeneralFault>>
    requires { IsOfQuestion proved.now.problem }
    ensures template { IfOk result (IsGeneralised proved.now) }
    ensures instance { IfOk result (OwnInstance proved.now.problem) }
    ensures minimal { IfOk result IsMinimal }
    ensures wide { IfErr result (λ e. OfFault e (λ _. IsTooWide proved.now)) }
{
    let problem = proved.problem();
    let steps = proved.steps();
    let told = has_too_many_cases(alloc, problem, steps)?;
    if told {
        return Err(Failure::Fault(GeneralFault::Wide));
    }
    let kept = kept_steps(alloc, problem, steps)?;
    let numbers = named_entries(alloc, &kept)?;
    if numbers.len() > MAX_KEPT_ENTRIES {
        return Err(Failure::Fault(GeneralFault::Wide));
    }
    let pattern = Pattern::of(alloc, problem, numbers.as_slice())?;
    if is_wide(&pattern) {
        return Err(Failure::Fault(GeneralFault::Wide));
    }
    let kept = renumbered(alloc, &kept, numbers.as_slice())?;
    Ok(made_general(alloc, &pattern, &kept)?)
}

/// Whether the steps name too many entries that make several cases or none.
fn has_too_many_cases(
    alloc: Global,
    problem: &Problem,
    steps: &List<Step>,
) -> Result<bool, AllocError>
    ensures { IfOk result (λ told. IsTrue told → HasTooManyCases problem.now steps.now) }
{
    let numbers = entries_of_cases(alloc, problem, steps)?;
    Ok(numbers.len() > MAX_KEPT_ENTRIES)
}

/// Whether there are too many variables and parameters.
fn is_wide(pattern: &Pattern) -> bool
    ensures { IsTrue result ↔ HasTooMany pattern.now.problem }
{
    let problem = &pattern.problem;
    let vars = problem.vars.len();
    vars > MAX_OPERANDS || problem.policy.params.len() > MAX_OPERANDS - vars
}

/// The template of a pattern and the steps that prove its problem under the full condition.
fn made_general(alloc: Global, pattern: &Pattern, kept: &List<Step>) -> Result<Template, AllocError>
    requires fits { PatternFits pattern.now }
    requires few { length kept.now ≤ most_steps }
    requires stands { EachVarStands pattern.now.problem }
    requires accepted { IsAcceptedFully pattern.now.problem pattern.now.operands kept.now }
    ensures told { IfOk result (λ it. IsToldBy pattern.now kept.now it.steps) }
    ensures condition { IfOk result (λ it. IsCondition pattern.now.problem pattern.now.operands it.steps it.problem.assumed) }
    ensures problem { IfOk result (λ it. it.problem ≡ assuming pattern.now.problem it.problem.assumed) }
{
    let steps = general_steps(alloc, pattern, kept)?;
    let proof = under_condition(alloc, pattern, &steps)?;
    Template::of(alloc, proof)
}

/// The steps with variables for literals in what is split, if they are accepted so; else as they
/// are. Where nothing is split both are the same.
fn general_steps(
    alloc: Global,
    pattern: &Pattern,
    kept: &List<Step>,
) -> Result<List<Step>, AllocError>
    requires fits { PatternFits pattern.now }
    requires few { length kept.now ≤ most_steps }
    requires accepted { IsAcceptedFully pattern.now.problem pattern.now.operands kept.now }
    ensures told { IfOk result (IsToldBy pattern.now kept.now) }
    ensures accepted { IfOk result (IsAcceptedFully pattern.now.problem pattern.now.operands) }
    ensures few { IfOk result (λ it. length it ≤ most_steps) }
{
    let steps = with_variables(alloc, kept, pattern.values.as_slice())?;
    if !has_split(kept) {
        return Ok(steps);
    }
    let told = is_accepted(alloc, pattern, &steps)?;
    if told { Ok(steps) } else { kept.copy(alloc) }
}
