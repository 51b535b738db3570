//! The tests of steps by a key or a link, on the rows that they name.
ghost use Rattle.std.specs.Prelude.{◌↔◌, IsTrue, MatchOption};
ghost use Rattle.ba_kernel.specs.Steps.{AreEqualAt, ArePair, FirstWithout, IsKeyOf, IsLinkOf, IsNotNullAt, KeyPasses, KeyRefuses, LinkPasses, LinkRefuses, SomeKey, SomeLink, SomePair};
ghost use Rattle.ba_kernel.specs.SearchStates.{Tested};

use crate::fact::find_fact;
use crate::problem::Problem;
use crate::step::StepFault;
use ba_facts::{Branch, Fact, Term};
use ba_model::{Link, List, Op};

/// Whether the two facts are of one side and table and are shown equal on the table's key.
pub fn test_key(
    problem: &Problem,
    branch: &Branch,
    key: u32,
    left: u32,
    right: u32,
) -> Result<(), StepFault>
    ensures { Tested (KeyPasses problem.now.policy.schema branch.now key left right)
        (KeyRefuses problem.now branch.now key left right) result }
{
    let Some((f, g)) = pair_of(branch, left, right) else {
        return Err(StepFault::BadFact);
    };
    let Some(columns) = key_of(problem, f, key) else {
        return Err(StepFault::BadRule);
    };
    match first_unequal(
        branch,
        f.terms.as_slice(),
        g.terms.as_slice(),
        columns.as_slice(),
    ) {
        None => Ok(()),
        Some(n) => Err(StepFault::CondNotShown(n as u64)),
    }
}

/// Whether the columns of a link of the fact's table are shown not null.
pub fn test_link(problem: &Problem, branch: &Branch, link: u32, fact: u32) -> Result<(), StepFault>
    ensures { Tested (LinkPasses problem.now.policy.schema branch.now link fact)
        (LinkRefuses problem.now branch.now link fact) result }
{
    let Some(f) = find_fact(branch, fact as usize) else {
        return Err(StepFault::BadFact);
    };
    let Some(it) = link_of(problem, f, link) else {
        return Err(StepFault::BadRule);
    };
    match first_nullable(branch, f.terms.as_slice(), it.columns.as_slice()) {
        None => Ok(()),
        Some(n) => Err(StepFault::CondNotShown(n as u64)),
    }
}

/// The facts of the two numbers, if they are of one side and table.
fn pair_of(branch: &Branch, left: u32, right: u32) -> Option<(&Fact, &Fact)>
    ensures { MatchOption result (¬ (SomePair branch.now left right))
        (λ two. ArePair branch.now left right two.0.now two.1.now) }
{
    let f = branch.facts.find(left as usize)?;
    let g = branch.facts.find(right as usize)?;
    if g.side == f.side && g.table == f.table {
        Some((f, g))
    } else {
        None
    }
}

/// The key of the number of the fact's table.
fn key_of<'a>(problem: &'a Problem, fact: &Fact, key: u32) -> Option<&'a List<u32>>
    ensures { MatchOption result (¬ (SomeKey problem.now fact.now key))
        (λ columns. IsKeyOf problem.now.policy.schema fact.now key columns.now) }
{
    match problem.table(fact.table) {
        Some(table) => table.keys.find(key as usize),
        None => None,
    }
}

/// The link of the number of the fact's table.
pub fn link_of<'a>(problem: &'a Problem, fact: &Fact, link: u32) -> Option<&'a Link>
    ensures { MatchOption result (¬ (SomeLink problem.now fact.now link))
        (λ it. IsLinkOf problem.now.policy.schema fact.now link it.now) }
{
    match problem.table(fact.table) {
        Some(table) => table.links.find(link as usize),
        None => None,
    }
}

/// The first of the columns in which the two rows aren't shown equal, by its place among them.
fn first_unequal(branch: &Branch, left: &[Term], right: &[Term], columns: &[u32]) -> Option<usize>
    ensures { FirstWithout (AreEqualAt branch.now left.now right.now) columns.now result }
{
    for (number, column) in columns.iter().enumerate() {
        if !are_equal_at(branch, left, right, *column) {
            return Some(number);
        }
    }
    None
}

/// Whether the two rows are shown equal in the column.
fn are_equal_at(branch: &Branch, left: &[Term], right: &[Term], column: u32) -> bool
    ensures { IsTrue result ↔ AreEqualAt branch.now left.now right.now column }
{
    match (left.get(column as usize), right.get(column as usize)) {
        (Some(a), Some(b)) => branch.known.shows(Op::Eq, a.by_ref(), b.by_ref()),
        _ => false,
    }
}

/// The first of the columns in which the row isn't shown not null, by its place among them.
fn first_nullable(branch: &Branch, terms: &[Term], columns: &[u32]) -> Option<usize>
    ensures { FirstWithout (IsNotNullAt branch.now terms.now) columns.now result }
{
    for (number, column) in columns.iter().enumerate() {
        if !is_not_null_at(branch, terms, *column) {
            return Some(number);
        }
    }
    None
}

/// Whether the row is shown not null in the column.
fn is_not_null_at(branch: &Branch, terms: &[Term], column: u32) -> bool
    ensures { IsTrue result ↔ IsNotNullAt branch.now terms.now column }
{
    match terms.get(column as usize) {
        Some(term) => branch.known.shown_not_null(term.by_ref()),
        None => false,
    }
}
