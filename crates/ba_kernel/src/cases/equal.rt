//! The cases of keys, links and splits.
ghost use Rattle.std.specs.Prelude.{◌≡◌, ◌∷◌, [], IfOk, OnOk, length, map};
ghost use Rattle.std.specs.List.{zip};
ghost use Rattle.ba_kernel.specs.Courses.{ProblemFits};
ghost use Rattle.ba_kernel.specs.Effects.{negation, same_at, same_pair, with_lessons};
ghost use Rattle.ba_kernel.specs.Steps.{KeyLeads, KeyPasses, LinkLeads, LinkPasses, SplitLeads, SplitPasses};
ghost use Rattle.ba_kernel.specs.SearchStates.{IsTidy};
ghost use Rattle.ba_kernel.specs.Tidy.{HasColumns, Learns, TermsAreThere};

use crate::cases::rounds::round_after;
use crate::fact::shared_fact;
use crate::problem::Problem;
use ba_facts::{Branch, Term, TermAtom};
use ba_model::{Duplicate, Op, Owned};
use std::alloc::{AllocError, Global};

/// The one case of a key: the two facts' terms are the same, column by column.
pub fn key_cases(
    alloc: Global,
    problem: &Problem,
    branch: Owned<Branch>,
    key: u32,
    left: u32,
    right: u32,
) -> Result<Vec<Owned<Branch>>, AllocError>
    requires tidy { IsTidy problem.now branch }
    requires passes { KeyPasses problem.now.policy.schema branch key left right }
    ensures { IfOk result (λ cases. KeyLeads problem.now branch key left right cases.items) }
{
    let f = shared_fact(alloc, &branch, left as usize)?;
    let g = shared_fact(alloc, &branch, right as usize)?;
    let terms = f.terms.as_slice();
    let others = g.terms.as_slice();
    let mut new = branch;
    equate_rows(alloc, new.get_mut(), terms, others)?;
    one_case(alloc, new)
}

/// Learns that two rows are the same, term by term.
fn equate_rows(
    alloc: Global,
    new: &mut Branch,
    left: &[Term],
    right: &[Term],
) -> Result<(), AllocError>
    requires wide { length left.now ≡ length right.now }
    requires left { TermsAreThere new.old.known left.now }
    requires right { TermsAreThere new.old.known right.now }
    ensures { OnOk result
        (new.new ≡ with_lessons new.old (map same_pair (zip left.now right.now))) }
{
    for (i, term) in left.iter().enumerate() {
        let one = term.copy(alloc)?;
        let other = right[i].copy(alloc)?;
        new.equate(one, other)?;
    }
    Ok(())
}

/// The one case of a link: a fact of the target table, whose target columns are the same as the
/// link's columns.
pub fn link_cases(
    alloc: Global,
    problem: &Problem,
    branch: Owned<Branch>,
    link: u32,
    fact: u32,
) -> Result<Vec<Owned<Branch>>, AllocError>
    requires fits { ProblemFits problem.now }
    requires tidy { IsTidy problem.now branch }
    requires passes { LinkPasses problem.now.policy.schema branch link fact }
    ensures { IfOk result (λ cases. LinkLeads problem.now branch link fact cases.items) }
{
    let mut new = branch;
    add_target(alloc, problem, new.get_mut(), link, fact)?;
    one_case(alloc, new)
}

/// Adds a fact of the link's target table, whose target columns are the same as the link's columns.
fn add_target(
    alloc: Global,
    problem: &Problem,
    new: &mut Branch,
    link: u32,
    fact: u32,
) -> Result<(), AllocError>
    requires fits { ProblemFits problem.now }
    requires tidy { IsTidy problem.now new.old }
    requires passes { LinkPasses problem.now.policy.schema new.old link fact }
    ensures { OnOk result (LinkLeads problem.now new.old link fact (new.new ∷ [])) }
{
    let count = new.facts.len();
    let held = shared_fact(alloc, new, fact as usize)?;
    let f = &*held;
    let table = problem.table_at(f.table);
    let it = table.links.get(link as usize);
    let target = problem.columns(it.target);
    let round = round_after(f.round)?;
    new.add_fact(alloc, f.side, it.target, target, round)?;
    let other = shared_fact(alloc, new, count)?;
    let added = &*other;
    let left = f.terms.as_slice();
    let right = added.terms.as_slice();
    let columns = it.columns.as_slice();
    let others = it.target_columns.as_slice();
    equate_columns(alloc, new, left, right, columns, others)?;
    Ok(())
}

/// Learns that two rows are the same on these columns of each.
fn equate_columns(
    alloc: Global,
    new: &mut Branch,
    left: &[Term],
    right: &[Term],
    columns: &[u32],
    others: &[u32],
) -> Result<(), AllocError>
    requires left { TermsAreThere new.old.known left.now }
    requires right { TermsAreThere new.old.known right.now }
    requires wide { length columns.now ≡ length others.now }
    requires columns { HasColumns left.now columns.now }
    requires others { HasColumns right.now others.now }
    ensures { OnOk result
        (Learns (map (same_at left.now right.now) (zip columns.now others.now)) new.old new.new) }
{
    for (i, column) in columns.iter().enumerate() {
        let one = left[*column as usize].copy(alloc)?;
        let other = right[others[i] as usize].copy(alloc)?;
        new.equate(one, other)?;
    }
    Ok(())
}

fn one_case(alloc: Global, new: Owned<Branch>) -> Result<Vec<Owned<Branch>>, AllocError>
    ensures { IfOk result (λ cases. cases.items ≡ new ∷ []) }
{
    let mut cases = Vec::new(alloc);
    cases.push(new)?;
    Ok(cases)
}

/// The two cases of a split: the atom is true, or its negation is.
pub fn split_cases(
    alloc: Global,
    branch: Owned<Branch>,
    atom: &TermAtom,
) -> Result<Vec<Owned<Branch>>, AllocError>
    requires { SplitPasses branch atom.now }
    ensures { IfOk result (λ cases. SplitLeads branch atom.now cases.items) }
{
    let mut second = branch.owned_copy(alloc)?;
    let denied = negation(alloc, atom)?;
    second.get_mut().assume(denied)?;
    let mut first = branch;
    let held = atom.copy(alloc)?;
    first.get_mut().assume(held)?;
    let mut cases = Vec::new(alloc);
    cases.push(first)?;
    cases.push(second)?;
    Ok(cases)
}

/// What is true where the atom isn't.
fn negation(alloc: Global, atom: &TermAtom) -> Result<TermAtom, AllocError>
    ensures { IfOk result (λ it. it ≡ negation atom.now) }
{
    let (op, left, right) = negated(atom);
    let left = left.copy(alloc)?;
    let right = right.copy(alloc)?;
    Ok(TermAtom { op, left, right })
}

/// The comparison that is true where the atom isn't, and its sides.
fn negated(atom: &TermAtom) -> (Op, &Term, &Term)
    ensures { negation atom.now
        ≡ record { op = result.0; left = result.1.now; right = result.2.now } }
{
    let TermAtom { op, left, right } = atom;
    match op {
        Op::Eq => (Op::Ne, left, right),
        Op::Ne => (Op::Eq, left, right),
        Op::Lt => (Op::Le, right, left),
        Op::Le => (Op::Lt, right, left),
        Op::IsNull => (Op::NotNull, left, right),
        Op::NotNull => (Op::IsNull, left, right),
    }
}
