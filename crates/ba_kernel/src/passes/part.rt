//! The tests of steps by a rule, a view or the question, on the facts of one of its parts.
ghost use Rattle.std.specs.Prelude.{MatchOption};
ghost use Rattle.ba_kernel.specs.Steps.{GoalPasses, GoalRefuses, IsRulePart, IsViewPart, RulePasses, RuleRefuses, SomeRulePart, SomeViewPart, ViewPasses, ViewRefuses};
ghost use Rattle.ba_kernel.specs.SearchStates.{IsTidy, Tested};

use crate::passes::head::first_different;
use crate::passes::mapping::{first_hidden, side_of, test_facts};
use crate::problem::Problem;
use crate::step::StepFault;
use ba_facts::{Branch, Side};
use ba_model::Part;

/// Whether the facts are those of a part of the rule's left query, on one side, and show its atoms.
pub fn test_rule(
    problem: &Problem,
    branch: &Branch,
    rule: u32,
    part: u32,
    facts: &[u32],
) -> Result<(), StepFault>
    ensures { Tested (RulePasses problem.now branch.now rule part facts.now)
        (RuleRefuses problem.now branch.now rule part facts.now) result }
{
    let Some(it) = rule_part(problem, rule, part) else {
        return Err(StepFault::BadRule);
    };
    let Some(_side) = side_of(branch, it, facts) else {
        return Err(StepFault::BadFact);
    };
    match first_hidden(branch, it, facts) {
        None => Ok(()),
        Some(n) => Err(StepFault::CondNotShown(n as u64)),
    }
}

/// Whether the facts are those of a part of the view on side One, and show its atoms.
pub fn test_view(
    problem: &Problem,
    branch: &Branch,
    view: u32,
    part: u32,
    facts: &[u32],
) -> Result<(), StepFault>
    ensures { Tested (ViewPasses problem.now branch.now view part facts.now)
        (ViewRefuses problem.now branch.now view part facts.now) result }
{
    let Some(it) = view_part(problem, view, part) else {
        return Err(StepFault::BadRule);
    };
    test_facts(branch, Side::One, it, facts)
}

/// Whether the facts are those of a part of the question on side Two, show its atoms and give the
/// goal row.
pub fn test_goal(
    problem: &Problem,
    branch: &Branch,
    part: u32,
    facts: &[u32],
) -> Result<(), StepFault>
    requires { IsTidy problem.now branch.now }
    ensures { Tested (GoalPasses problem.now branch.now part facts.now)
        (GoalRefuses problem.now branch.now part facts.now) result }
{
    let Some(it) = problem.goal_part(part) else {
        return Err(StepFault::BadRule);
    };
    test_facts(branch, Side::Two, it, facts)?;
    match first_different(branch, it.head.as_slice(), facts) {
        None => Ok(()),
        Some(n) => Err(StepFault::HeadDiffers(n as u64)),
    }
}

/// The part of the number of the rule's left query.
fn rule_part(problem: &Problem, rule: u32, part: u32) -> Option<&Part>
    ensures { MatchOption result (¬ (SomeRulePart problem.now rule part))
        (λ it. IsRulePart problem.now rule part it.now) }
{
    match problem.rule(rule) {
        Some(of) => of.left.parts.find(part as usize),
        None => None,
    }
}

/// The part of the number of the view.
fn view_part(problem: &Problem, view: u32, part: u32) -> Option<&Part>
    ensures { MatchOption result (¬ (SomeViewPart problem.now view part))
        (λ it. IsViewPart problem.now view part it.now) }
{
    match problem.view(view) {
        Some(of) => of.query.parts.find(part as usize),
        None => None,
    }
}
