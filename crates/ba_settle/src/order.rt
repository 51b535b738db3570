//! The order of steps.
ghost use Rattle.std.specs.Prelude.{◌≡◌, Some};
ghost use Rattle.std.specs.Option.{option_cmp, option_copied};
ghost use Rattle.ba_model.specs.Order.{value_cmp};
ghost use Rattle.ba_settle.specs.Order.{atom_cmp, kind_cmp, numbers_cmp, op_rank, pick_cmp, step_atom, step_cmp, step_facts, step_numbers, step_rank, term_cmp, term_number, term_rank, term_value};

use ba_facts::{Term, TermAtom};
use ba_kernel::Step;
use ba_model::{Op, Value};
use std::cmp::Ordering;

/// Which of the due steps a search takes: the first in the order of steps, or the last.
#[derive(Clone, Copy, Debug, PartialEq, Eq)]
pub enum Pick {
    First,
    Last,
}

impl Pick {
    /// `Less` where a search takes the one step earlier than the other, if both are due.
    #[tactic(auto, unfolding(crate::specs::Order::pick_cmp))]
    pub fn compare(self, one: &Step, other: &Step) -> Ordering
        ensures { result ≡ pick_cmp self one.now other.now }
    {
        match self {
            Pick::First => compare_steps(one, other),
            Pick::Last => compare_steps(other, one),
        }
    }
}

/// The order of steps: by branch, then by kind (Entry, Key, Link, Rule, View, Split, Absurd, Goal),
/// then by their numbers from left to right; splits by comparison (`=`, `<>`, `<`, `<=`, IS NULL,
/// IS NOT NULL), then by terms (unknowns, literals by value, parameters, variables).
#[tactic(auto, unfolding(crate::specs::Order::step_cmp))]
pub fn compare_steps(one: &Step, other: &Step) -> Ordering
    ensures { result ≡ step_cmp one.now other.now }
{
    compare_kinds(one, other)
        .then(compare_numbers(one, other))
        .then(compare_if_any(atom_of(one), atom_of(other)))
}

fn compare_kinds(one: &Step, other: &Step) -> Ordering
    ensures { result ≡ kind_cmp one.now other.now }
{
    one.branch()
        .cmp(&other.branch())
        .then(rank_of(one).cmp(&rank_of(other)))
}

fn compare_numbers(one: &Step, other: &Step) -> Ordering
    ensures { result ≡ numbers_cmp one.now other.now }
{
    let (a, b, c) = numbers_of(one);
    let (d, e, f) = numbers_of(other);
    a.cmp(&d)
        .then(b.cmp(&e))
        .then(c.cmp(&f))
        .then(facts_of(one).cmp(facts_of(other)))
}

pub fn rank_of(step: &Step) -> u8
    ensures { result ≡ step_rank step.now }
{
    match step {
        Step::Entry { .. } => 0,
        Step::Key { .. } => 1,
        Step::Link { .. } => 2,
        Step::Rule { .. } => 3,
        Step::View { .. } => 4,
        Step::Split { .. } => 5,
        Step::Absurd { .. } => 6,
        Step::Goal { .. } => 7,
    }
}

/// The numbers behind the branch and before the list of facts, from left to right, and 0 where
/// nothing stands.
fn numbers_of(step: &Step) -> (u64, u64, u64)
    ensures { result ≡ step_numbers step.now }
{
    match step {
        Step::Entry { entry, .. } => (*entry, 0, 0),
        Step::Key {
            key,
            left,
            right,
            ..
        } => (u64::from(*key), u64::from(*left), u64::from(*right)),
        Step::Link { link, fact, .. } => (u64::from(*link), u64::from(*fact), 0),
        Step::Rule { rule, part, .. } => (u64::from(*rule), u64::from(*part), 0),
        Step::View { view, part, .. } => (u64::from(*view), u64::from(*part), 0),
        Step::Split { .. } => (0, 0, 0),
        Step::Absurd { .. } => (0, 0, 0),
        Step::Goal { part, .. } => (u64::from(*part), 0, 0),
    }
}

/// The step's list of facts, which is empty where it has none.
fn facts_of(step: &Step) -> &[u32]
    ensures { result.now ≡ step_facts step.now }
{
    match step {
        Step::Entry { .. } => &[],
        Step::Key { .. } => &[],
        Step::Link { .. } => &[],
        Step::Rule { facts, .. } => facts.as_slice(),
        Step::View { facts, .. } => facts.as_slice(),
        Step::Split { .. } => &[],
        Step::Absurd { .. } => &[],
        Step::Goal { facts, .. } => facts.as_slice(),
    }
}

fn atom_of(step: &Step) -> Option<&TermAtom>
    ensures { option_copied result ≡ step_atom step.now }
{
    match step {
        Step::Split { atom, .. } => Some(atom),
        _ => None,
    }
}

fn compare_if_any(one: Option<&TermAtom>, other: Option<&TermAtom>) -> Ordering
    ensures { result ≡ option_cmp atom_cmp (option_copied one.entry) (option_copied other.entry) }
{
    match (one, other) {
        (None, None) => Ordering::Equal,
        (None, Some(_)) => Ordering::Less,
        (Some(_), None) => Ordering::Greater,
        (Some(a), Some(b)) => compare_atoms(a, b),
    }
}

fn compare_atoms(one: &TermAtom, other: &TermAtom) -> Ordering
    ensures { result ≡ atom_cmp one.now other.now }
{
    op_number(one.op)
        .cmp(&op_number(other.op))
        .then(compare_terms(&one.left, &other.left))
        .then(compare_terms(&one.right, &other.right))
}

fn op_number(op: Op) -> u8
    ensures { result ≡ op_rank op }
{
    match op {
        Op::Eq => 0,
        Op::Ne => 1,
        Op::Lt => 2,
        Op::Le => 3,
        Op::IsNull => 4,
        Op::NotNull => 5,
    }
}

fn compare_terms(one: &Term, other: &Term) -> Ordering
    ensures { result ≡ term_cmp one.now other.now }
{
    kind_number(one)
        .cmp(&kind_number(other))
        .then(number_of(one).cmp(&number_of(other)))
        .then(compare_values(value_of(one), value_of(other)))
}

fn kind_number(term: &Term) -> u8
    ensures { result ≡ term_rank term.now }
{
    match term {
        Term::Unknown(_) => 0,
        Term::Val(_) => 1,
        Term::Param(_) => 2,
        Term::Var(_) => 3,
    }
}

fn number_of(term: &Term) -> u32
    ensures { result ≡ term_number term.now }
{
    match term {
        Term::Unknown(n) => *n,
        Term::Val(_) => 0,
        Term::Param(n) => *n,
        Term::Var(n) => *n,
    }
}

fn value_of(term: &Term) -> Option<&Value>
    ensures { option_copied result ≡ term_value term.now }
{
    match term {
        Term::Val(value) => Some(value),
        _ => None,
    }
}

fn compare_values(one: Option<&Value>, other: Option<&Value>) -> Ordering
    ensures { result ≡ option_cmp value_cmp (option_copied one.entry) (option_copied other.entry) }
{
    match (one, other) {
        (None, None) => Ordering::Equal,
        (None, Some(_)) => Ordering::Less,
        (Some(_), None) => Ordering::Greater,
        (Some(a), Some(b)) => a.order(b),
    }
}
