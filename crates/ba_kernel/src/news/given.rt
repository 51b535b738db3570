//! Whether a branch has a row of a query already.
ghost use Rattle.std.specs.Prelude.{◌↔◌, All, IsTrue};
ghost use Rattle.ba_facts.specs.Matches.{row_of};
ghost use Rattle.ba_kernel.specs.Courses.{ProblemFits};
ghost use Rattle.ba_kernel.specs.Steps.{EntryIsMet, IsGiven, RuleIsMet, ViewIsMet};
ghost use Rattle.ba_model.specs.Fit.{PartWithin};

use crate::passes::mapping::side_of;
use crate::problem::Problem;
use ba_facts::{Branch, Side};
use ba_model::{Operand, Part};

/// Whether the entry's row is given on side One.
pub fn entry_is_met(problem: &Problem, branch: &Branch, entry: u64) -> bool
    requires { ProblemFits problem.now }
    ensures { IsTrue result ↔ EntryIsMet problem.now branch.now entry }
{
    let Some(it) = problem.entries.find(entry as usize) else {
        return false;
    };
    let parts = it.parts();
    is_given(branch, Side::One, parts, it.row.as_slice(), &[])
}

/// Whether the row that the facts give of the rule's left part is given, on their side, of its
/// right query.
pub fn rule_is_met(problem: &Problem, branch: &Branch, rule: u32, part: u32, facts: &[u32]) -> bool
    requires { ProblemFits problem.now }
    ensures { IsTrue result ↔ RuleIsMet problem.now branch.now rule part facts.now }
{
    let Some(it) = problem.rule(rule) else {
        return false;
    };
    let Some(left) = it.left.parts.find(part as usize) else {
        return false;
    };
    let Some(side) = side_of(branch, left, facts) else {
        return false;
    };
    let parts = it.right.parts.as_slice();
    is_given(branch, side, parts, left.head.as_slice(), facts)
}

/// Whether the row that the facts give of the view's part is given on side Two.
pub fn view_is_met(problem: &Problem, branch: &Branch, view: u32, part: u32, facts: &[u32]) -> bool
    requires { ProblemFits problem.now }
    ensures { IsTrue result ↔ ViewIsMet problem.now branch.now view part facts.now }
{
    let Some(it) = problem.view(view) else {
        return false;
    };
    let Some(of) = it.query.parts.find(part as usize) else {
        return false;
    };
    let parts = it.query.parts.as_slice();
    is_given(branch, Side::Two, parts, of.head.as_slice(), facts)
}

/// Whether some facts of the side show the atoms of one of the parts and give the row that the
/// operands are over these facts.
fn is_given(
    branch: &Branch,
    side: Side,
    parts: &[Part],
    operands: &[Operand],
    facts: &[u32],
) -> bool
    requires { All PartWithin parts.now }
    ensures { IsTrue result
        ↔ IsGiven branch.now side (row_of branch.now facts.now operands.now) parts.now }
{
    for part in parts {
        if branch.is_answered(part, side, operands, facts) {
            return true;
        }
    }
    false
}
