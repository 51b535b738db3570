//! Whether a branch has what a key or a link tells already.
ghost use Rattle.std.specs.Prelude.{◌↔◌, ℕ, All, Any, IsTrue, option_map};
ghost use Rattle.std.specs.List.{AllZip, zip};
ghost use Rattle.ba_facts.specs.Laid.{IsLaid};
ghost use Rattle.ba_facts.specs.Shown.{TheSame};
ghost use Rattle.ba_kernel.specs.NewParts.{IsTargetOf};
ghost use Rattle.ba_kernel.specs.Steps.{AreEqualIn, KeyIsMet, LinkIsMet};
ghost use Rattle.ba_kernel.specs.Targets.{AreUnknownsOfIfAny, HasTargetWith, HaveTargetsIfAny, IsTargetAt};

use crate::passes::row::link_of;
use crate::problem::Problem;
use ba_facts::{Branch, Fact, Term};
use ba_model::{Link, Op};

/// Whether the two facts' terms are the same, column by column.
pub fn key_is_met(branch: &Branch, left: u32, right: u32) -> bool
    ensures { IsTrue result ↔ KeyIsMet branch.now left right }
{
    let Some(f) = branch.facts.find(left as usize) else {
        return false;
    };
    let Some(g) = branch.facts.find(right as usize) else {
        return false;
    };
    are_the_same(branch, f.terms.as_slice(), g.terms.as_slice())
}

/// Whether the two rows are the same, term by term.
fn are_the_same(branch: &Branch, left: &[Term], right: &[Term]) -> bool
    ensures { IsTrue result ↔ AllZip (TheSame branch.now.known) left.now right.now }
{
    if left.len() != right.len() {
        return false;
    }
    for i in 0..left.len() {
        if !branch.same(&left[i], &right[i]) {
            return false;
        }
    }
    true
}

/// Whether the link of the fact's table has its target among the branch's facts.
pub fn link_is_met(problem: &Problem, branch: &Branch, link: u32, fact: u32) -> bool
    requires { IsLaid branch.now }
    ensures { IsTrue result ↔ LinkIsMet problem.now.policy.schema branch.now link fact }
{
    let Some(f) = branch.facts.find(fact as usize) else {
        return false;
    };
    match link_of(problem, f, link) {
        Some(it) => has_target(branch, f, it),
        None => false,
    }
}

/// Whether one of the branch's facts is the target of the fact's link.
fn has_target(branch: &Branch, fact: &Fact, link: &Link) -> bool
    requires { IsLaid branch.now }
    ensures { IsTrue result ↔ Any (IsTargetOf branch.now fact.now link.now) branch.now.facts }
{
    match sought(branch, fact, link) {
        Some(unknowns) => has_target_in(branch, fact, link, &unknowns),
        None => has_target_among(branch, fact, link),
    }
}

/// Whether a fact with one of the unknowns is the target.
fn has_target_in(branch: &Branch, fact: &Fact, link: &Link, unknowns: &[u32]) -> bool
    requires { IsLaid branch.now }
    ensures { IsTrue result ↔ Any (HasTargetWith branch.now fact.now link.now) unknowns.now }
{
    unknowns
        .iter()
        .any(|unknown| has_target_with(branch, fact, link, *unknown))
}

/// The unknowns of which each target of the link has one, where they can be told: those that the
/// link's first term is the same as.
fn sought(branch: &Branch, fact: &Fact, link: &Link) -> Option<Vec<u32>>
    requires { IsLaid branch.now }
    ensures { HaveTargetsIfAny branch.now fact.now link.now (option_map (λ it. it.items) result) }
{
    let column = link.columns.find(0)?;
    link.target_columns.find(0)?;
    let term = fact.terms.find(*column as usize)?;
    sought_by(branch, term)
}

/// The unknowns that the term is the same as, where they can be told.
fn sought_by(branch: &Branch, term: &Term) -> Option<Vec<u32>>
    ensures { AreUnknownsOfIfAny branch.now.known term.now (option_map (λ it. it.items) result) }
{
    if !branch.known.is_only_class(term.by_ref()) {
        return None;
    }
    match branch.known.members(term.by_ref()) {
        Ok(members) => Some(members),
        Err(_) => None,
    }
}

/// Whether the fact with the unknown is the target.
fn has_target_with(branch: &Branch, fact: &Fact, link: &Link, unknown: u32) -> bool
    requires { IsLaid branch.now }
    ensures { IsTrue result ↔ HasTargetWith branch.now fact.now link.now unknown }
{
    match branch.holder(unknown) {
        Some(number) => is_target_at(branch, fact, link, number),
        None => false,
    }
}

fn is_target_at(branch: &Branch, fact: &Fact, link: &Link, number: usize) -> bool
    ensures { IsTrue result ↔ IsTargetAt branch.now fact.now link.now number }
{
    match branch.facts.find(number) {
        Some(other) => is_target_of(branch, fact, link, other),
        None => false,
    }
}

/// The same of any fact. The newest come first: mostly it is one of these.
fn has_target_among(branch: &Branch, fact: &Fact, link: &Link) -> bool
    ensures { IsTrue result ↔ Any (IsTargetOf branch.now fact.now link.now) branch.now.facts }
{
    let facts = branch.facts.as_slice();
    facts
        .iter()
        .rev()
        .any(|other| is_target_of(branch, fact, link, other))
}

/// Whether the other fact is of the link's target table on the fact's side, and is shown equal to
/// it in the link's columns.
fn is_target_of(branch: &Branch, fact: &Fact, link: &Link, other: &Fact) -> bool
    ensures { IsTrue result ↔ IsTargetOf branch.now fact.now link.now other.now }
{
    other.side == fact.side
        && other.table == link.target
        && are_equal_in(
            branch,
            fact.terms.as_slice(),
            other.terms.as_slice(),
            link.columns.as_slice(),
            link.target_columns.as_slice(),
        )
}

/// Whether the two rows are shown equal in these columns of each.
fn are_equal_in(
    branch: &Branch,
    left: &[Term],
    right: &[Term],
    columns: &[u32],
    others: &[u32],
) -> bool
    ensures { IsTrue result
        ↔ All (AreEqualIn branch.now left.now right.now) (zip columns.now others.now) }
{
    let mut pairs = columns.iter().zip(others);
    pairs.all(|(one, two)| is_equal_in(branch, left, right, *one, *two))
}

/// Whether the one row's term in a column is shown equal to the other's in another.
fn is_equal_in(branch: &Branch, left: &[Term], right: &[Term], column: u32, other: u32) -> bool
    ensures { IsTrue result ↔ AreEqualIn branch.now left.now right.now (column, other) }
{
    match (left.get(column as usize), right.get(other as usize)) {
        (Some(a), Some(b)) => branch.known.shows(Op::Eq, a.by_ref(), b.by_ref()),
        _ => false,
    }
}
