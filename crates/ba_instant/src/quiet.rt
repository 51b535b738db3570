//! Steps after which nothing of an earlier round is new on their branch.
ghost use Rattle.std.specs.Prelude.{◌≡◌, ◌↔◌, ◌⊎◌, ◌<◌, All, IfOk, IsTrue, false, nat_eq};
ghost use Rattle.std.specs.List.{IsDistinct};
ghost use Rattle.std.specs.Option.{option_copied};
ghost use Rattle.ba_facts.specs.Known.{seen};
ghost use Rattle.ba_facts.specs.Matches.{Under};
ghost use Rattle.ba_kernel.specs.Courses.{ProblemFits, branch_of};
ghost use Rattle.ba_kernel.specs.Effects.{rows_at};
ghost use Rattle.ba_kernel.specs.SearchStates.{open_at};
ghost use Rattle.ba_instant.specs.Loose.{IsLooseAtom};
ghost use Rattle.ba_instant.specs.Nexts.{IsAgendaAfter, IsQuietAt, IsQuietRound};
ghost use Rattle.ba_instant.specs.QuietSteps.{AddsToOne, AddsToOneAt, IsOfOne, IsPlain, IsQuietLink, IsQuietStep, IsQuietView};

use crate::agenda::Agenda;
use crate::fresh::is_quiet_key;
use crate::given::is_quiet_entry;
use crate::loose::is_loose;
use crate::scan::NewStep;
use ba_facts::{Branch, Knowledge, Side, TermAtom, TermRef};
use ba_kernel::{Problem, Search, Step};
use ba_model::{Atom, Op};
use std::alloc::{AllocError, Global};

/// The round up to which both branches of the split stay quiet but, maybe, for rules and views:
/// that before the split's, if it is loose. Else 0, up to which each branch is quiet.
pub fn quiet_round(search: &Search, found: &NewStep) -> u64
    ensures { IsQuietRound search.now found.now result }
{
    match &found.step {
        Step::Split { branch, atom } => match search.branch(*branch) {
            Some(on) => loose_round(&on.known, atom, found.round),
            None => 0,
        },
        _ => 0,
    }
}

/// The round before, if the atom is loose, or 0.
fn loose_round(known: &Knowledge, atom: &TermAtom, round: u64) -> u64
    ensures { (result ≡ 0) ⊎ (IsLooseAtom known.now atom.now × (result < round)) }
{
    if is_loose(known, atom) {
        round.saturating_sub(1)
    } else {
        0
    }
}

/// What is left of the agenda after the due step: all, if the step is sure to leave its branch as
/// quiet as it was, else nothing. The branch stays silent where only a fact of side One is added.
pub fn left_after(
    alloc: Global,
    search: &Search,
    found: &NewStep,
    agenda: Agenda,
) -> Result<Agenda, AllocError>
    ensures left { IfOk result
        (IsAgendaAfter search.now (record { found = found.now; agenda = agenda })) }
    ensures fits { ProblemFits search.now.problem }
{
    let problem = search.problem();
    let branch = search.branch(found.step.branch());
    let is_quiet = is_quiet_at(alloc, problem, branch, &found.step)?;
    if !is_quiet || found.round < agenda.round {
        return Ok(Agenda::none(alloc));
    }
    let mut left = agenda;
    left.silent = left.silent && adds_to_one_at(branch, &found.step);
    Ok(left)
}

/// Whether the step adds a fact of side One and no other.
fn adds_to_one_at(branch: Option<&Branch>, step: &Step) -> bool
    ensures { IsTrue result → AddsToOneAt (option_copied branch.entry) step.now }
{
    match branch {
        Some(branch) => adds_to_one(branch, step),
        None => false,
    }
}

fn adds_to_one(branch: &Branch, step: &Step) -> bool
    ensures { IsTrue result → AddsToOne branch.now step.now }
{
    match step {
        Step::Link { fact, .. } => is_of_one(branch, *fact),
        _ => false,
    }
}

fn is_of_one(branch: &Branch, fact: u32) -> bool
    ensures { IsTrue result ↔ IsOfOne branch.now fact }
{
    match branch.facts.find(fact as usize) {
        Some(it) => it.side == Side::One,
        None => false,
    }
}

fn is_quiet_at(
    alloc: Global,
    problem: &Problem,
    branch: Option<&Branch>,
    step: &Step,
) -> Result<bool, AllocError>
    ensures { IfOk result
        (λ it. IsTrue it → IsQuietAt problem.now (option_copied branch.entry) step.now) }
{
    match branch {
        Some(branch) => is_quiet_step(alloc, problem, branch, step),
        None => Ok(false),
    }
}

/// Whether the step is sure to leave its branch as quiet as it was: a link adds a row whose
/// unknowns stand for nothing else, a view shows what was told as it is, an entry says no more than
/// what is known of its constants, a key tells of unknowns alone that nothing asks for.
fn is_quiet_step(
    alloc: Global,
    problem: &Problem,
    branch: &Branch,
    step: &Step,
) -> Result<bool, AllocError>
    ensures { IfOk result (λ it. IsTrue it → IsQuietStep problem.now branch.now step.now) }
{
    match step {
        Step::Entry { entry, .. } => is_quiet_entry(alloc, problem, branch, *entry),
        Step::Link { link, fact, .. } => Ok(is_quiet_link(problem, branch, *link, *fact)),
        Step::View {
            view,
            part,
            facts,
            ..
        } => Ok(is_quiet_view(problem, branch, *view, *part, facts.as_slice())),
        Step::Key { left, right, .. } => is_quiet_key(alloc, problem, branch, *left, *right),
        Step::Split { .. } => Ok(false),
        Step::Rule { .. } => Ok(false),
        Step::Absurd { .. } => Ok(false),
        Step::Goal { .. } => Ok(false),
    }
}

/// Whether no two of the link's columns go to one target column.
fn is_quiet_link(problem: &Problem, branch: &Branch, link: u32, fact: u32) -> bool
    ensures { IsTrue result → IsQuietLink problem.now.policy.schema branch.now link fact }
{
    let Some(f) = branch.facts.find(fact as usize) else {
        return false;
    };
    let Some(table) = problem.policy.schema.tables.find(f.table as usize) else {
        return false;
    };
    match table.links.find(link as usize) {
        Some(it) => are_distinct(it.target_columns.as_slice()),
        None => false,
    }
}

fn are_distinct(columns: &[u32]) -> bool
    ensures { IsTrue result → IsDistinct nat_eq columns.now }
{
    match columns.split_first() {
        Some((first, rest)) => is_in_none(*first, rest) && are_distinct(rest),
        None => true,
    }
}

fn is_in_none(first: u32, rest: &[u32]) -> bool
    ensures { IsTrue result ↔ All (λ other. nat_eq first other ≡ false) rest.now }
{
    rest.iter().all(|other| is_another(first, *other))
}

fn is_another(first: u32, other: u32) -> bool
    ensures { IsTrue result ↔ (nat_eq first other ≡ false) }
{
    first != other
}

/// Whether the facts are those of the view's first part, and each of its atoms is shown of them as
/// such an atom tells it.
fn is_quiet_view(problem: &Problem, branch: &Branch, view: u32, part: u32, facts: &[u32]) -> bool
    ensures { IsTrue result → IsQuietView problem.now branch.now view part facts.now }
{
    if part != 0 {
        return false;
    }
    let Some(it) = problem.policy.views.find(view as usize) else {
        return false;
    };
    match it.query.parts.find(0) {
        Some(of) => are_plain(branch, facts, of.conds.as_slice()),
        None => false,
    }
}

fn are_plain(branch: &Branch, facts: &[u32], conds: &[Atom]) -> bool
    ensures { IsTrue result
        → All (Under (IsPlain branch.now.known) (rows_at branch.now facts.now)) conds.now }
{
    conds.iter().all(|atom| is_plain(branch, facts, atom))
}

fn is_plain(branch: &Branch, facts: &[u32], atom: &Atom) -> bool
    ensures { IsTrue result
        → Under (IsPlain branch.now.known) (rows_at branch.now facts.now) atom.now }
{
    match (
        branch.term_of(facts, &atom.left),
        branch.term_of(facts, &atom.right),
    ) {
        (Some(left), Some(right)) => is_plain_of(branch, atom.op, left, right),
        _ => false,
    }
}

/// Whether the comparison, which is shown of the terms, is known of them as it would be told.
pub fn is_plain_of(branch: &Branch, op: Op, left: TermRef<'_>, right: TermRef<'_>) -> bool
    ensures { IsTrue result → IsPlain branch.now.known op (seen left.entry) (seen right.entry) }
{
    match op {
        Op::Eq => branch.known.one_class(left, right),
        Op::Ne => false,
        _ => true,
    }
}
