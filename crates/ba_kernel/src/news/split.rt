//! Whether a split tells a branch what it doesn't have, and its round.
ghost use Rattle.std.specs.Prelude.{◌↔◌, ◌≡◌, All, IsTrue};
ghost use Rattle.std.specs.Option.{option_copied};
ghost use Rattle.ba_facts.specs.Matches.{LeastRound};
ghost use Rattle.ba_kernel.specs.Courses.{ProblemFits};
ghost use Rattle.ba_kernel.specs.NewParts.{IsAtomOfParts, IsAtomOfRules, IsAtomOfSides, IsAtomOfViews, IsToldSplit, IsWithin, MayTell, least_of};
ghost use Rattle.ba_kernel.specs.Steps.{IsCandidate, IsOfNewKind};
ghost use Rattle.ba_model.specs.Fit.{PartWithin};

use crate::passes::split::neither_null;
use crate::problem::Problem;
use ba_facts::{Branch, Side, Term, TermAtom};
use ba_model::{List, Op, Part, Rule, View};

/// The round of a split by the atom, if it tells the branch what it doesn't have: the atom may tell
/// it, and is one of a live mapping.
pub fn told_split(problem: &Problem, branch: &Branch, atom: &TermAtom) -> Option<u64>
    requires { ProblemFits problem.now }
    ensures { IsToldSplit problem.now branch.now atom.now result }
{
    if !may_tell(branch, atom) {
        return None;
    }
    match split_round(problem, branch, atom) {
        Some(round) => Some(u64::from(round) + 1),
        None => None,
    }
}

/// Whether the atom is neither shown nor refuted, and is of a kind that live mappings leave open.
fn may_tell(branch: &Branch, atom: &TermAtom) -> bool
    ensures { IsTrue result ↔ MayTell branch.now.known atom.now }
{
    is_of_new_kind(branch, atom) && !branch.shows(atom) && !branch.refutes(atom)
}

fn is_of_new_kind(branch: &Branch, atom: &TermAtom) -> bool
    ensures { IsTrue result
        ↔ IsOfNewKind branch.now.known atom.now.op atom.now.left atom.now.right }
{
    match atom.op {
        Op::Eq => false,
        Op::Ne => neither_null(branch, atom),
        Op::Lt => neither_null(branch, atom),
        Op::Le => neither_null(branch, atom),
        Op::IsNull => true,
        Op::NotNull => true,
    }
}

/// The least round of the live mappings of which the atom is one: of the views to side One, of the
/// goal to side Two with the goal row for its head, and of the rules' left queries to both sides.
fn split_round(problem: &Problem, branch: &Branch, atom: &TermAtom) -> Option<u32>
    requires { ProblemFits problem.now }
    ensures { LeastRound branch.now (IsCandidate problem.now branch.now atom.now) result }
{
    let views = views_round(branch, problem.views(), atom);
    let rules = rules_round(branch, problem.rules(), atom);
    let parts = problem.goal_parts();
    let goal = parts_round(branch, parts, Side::Two, Some(&branch.goal), atom);
    lesser(lesser(views, goal), rules)
}

fn views_round(branch: &Branch, views: &[View], atom: &TermAtom) -> Option<u32>
    requires { All (λ view. IsWithin view.query) views.now }
    ensures { LeastRound branch.now (IsAtomOfViews branch.now views.now atom.now) result }
{
    let mut least = None;
    for view in views {
        let parts = view.query.parts.as_slice();
        least = lesser(least, parts_round(branch, parts, Side::One, None, atom));
    }
    least
}

fn rules_round(branch: &Branch, rules: &[Rule], atom: &TermAtom) -> Option<u32>
    requires { All (λ rule. IsWithin rule.left) rules.now }
    ensures { LeastRound branch.now (IsAtomOfRules branch.now rules.now atom.now) result }
{
    let mut least = None;
    for rule in rules {
        least = lesser(least, rule_round(branch, rule.left.parts.as_slice(), atom));
    }
    least
}

fn rule_round(branch: &Branch, parts: &[Part], atom: &TermAtom) -> Option<u32>
    requires { All PartWithin parts.now }
    ensures { LeastRound branch.now (IsAtomOfSides branch.now parts.now atom.now) result }
{
    let one = parts_round(branch, parts, Side::One, None, atom);
    let two = parts_round(branch, parts, Side::Two, None, atom);
    lesser(one, two)
}

/// The least round of the parts' live mappings to the side of which the atom is one.
fn parts_round(
    branch: &Branch,
    parts: &[Part],
    side: Side,
    row: Option<&List<Term>>,
    atom: &TermAtom,
) -> Option<u32>
    requires { All PartWithin parts.now }
    ensures { LeastRound branch.now
        (IsAtomOfParts branch.now side parts.now (option_copied row.entry) atom.now) result }
{
    let mut least = None;
    for part in parts {
        least = lesser(least, branch.least_round(part, side, row, atom));
    }
    least
}

/// The lesser of the two, if there are both; else the one that there is.
fn lesser(a: Option<u32>, b: Option<u32>) -> Option<u32>
    ensures { result ≡ least_of a b }
{
    match (a, b) {
        (Some(m), Some(n)) => Some(m.min(n)),
        (Some(m), None) => Some(m),
        (None, other) => other,
    }
}
