//! Whether problems and steps have equal content.
ghost use Rattle.std.specs.Prelude.{◌≡◌, ◌↔◌, IsTrue};
ghost use Rattle.ba_kernel.specs.declared.step.Step.TheVariants as steps;

use ba_facts::{Term, TermAtom};
use ba_kernel::{Problem, ProblemEntry, Step};
use ba_model::{List, Same};

/// Whether the problems have equal content.
pub fn same_problem(left: &Problem, right: &Problem) -> bool
    ensures { IsTrue result ↔ (left.now ≡ right.now) }
{
    left.goal.same(&right.goal)
        && left.vars.same(&right.vars)
        && left.assumed.same(&right.assumed)
        && same_entries(left.entries.as_slice(), right.entries.as_slice())
        && left.policy.same(&right.policy)
}

fn same_entries(left: &[ProblemEntry], right: &[ProblemEntry]) -> bool
    ensures { IsTrue result ↔ (left.now ≡ right.now) }
{
    match (left.split_first(), right.split_first()) {
        (None, None) => true,
        (Some((entry, entries)), Some((other, others))) => {
            same_entry(entry, other) && same_entries(entries, others)
        }
        _ => false,
    }
}

fn same_entry(left: &ProblemEntry, right: &ProblemEntry) -> bool
    ensures { IsTrue result ↔ (left.now ≡ right.now) }
{
    left.query.same(&right.query) && left.row.same(&right.row)
}

/// Whether the steps are equal, in order.
pub fn same_steps(left: &List<Step>, right: &List<Step>) -> bool
    ensures { IsTrue result ↔ (left.now ≡ right.now) }
{
    if left.len() != right.len() {
        return false;
    }
    for i in 0..left.len() {
        if !same_step(left.get(i), right.get(i)) {
            return false;
        }
    }
    true
}

fn same_step(left: &Step, right: &Step) -> bool
    ensures { IsTrue result ↔ (left.now ≡ right.now) }
{
    match left {
        Step::Entry { branch, entry } => is_entry(right, *branch, *entry),
        Step::Key {
            branch,
            key,
            left,
            right: other,
        } => is_key(right, *branch, *key, *left, *other),
        Step::Link { branch, link, fact } => is_link(right, *branch, *link, *fact),
        Step::Rule {
            branch,
            rule,
            part,
            facts,
        } => is_rule(right, *branch, *rule, *part, facts),
        Step::View {
            branch,
            view,
            part,
            facts,
        } => is_view(right, *branch, *view, *part, facts),
        Step::Split { branch, atom } => is_split(right, *branch, atom),
        Step::Absurd { branch } => is_absurd(right, *branch),
        Step::Goal {
            branch,
            part,
            facts,
        } => is_goal(right, *branch, *part, facts),
    }
}

fn is_entry(step: &Step, branch: u32, entry: u64) -> bool
    ensures { IsTrue result ↔ (step.now ≡ steps.Entry branch entry) }
{
    match step {
        Step::Entry {
            branch: b,
            entry: e,
        } => *b == branch && *e == entry,
        _ => false,
    }
}

fn is_key(step: &Step, branch: u32, key: u32, left: u32, right: u32) -> bool
    ensures { IsTrue result ↔ (step.now ≡ steps.Key branch key left right) }
{
    match step {
        Step::Key {
            branch: b,
            key: k,
            left: l,
            right: r,
        } => *b == branch && *k == key && *l == left && *r == right,
        _ => false,
    }
}

fn is_link(step: &Step, branch: u32, link: u32, fact: u32) -> bool
    ensures { IsTrue result ↔ (step.now ≡ steps.Link branch link fact) }
{
    match step {
        Step::Link {
            branch: b,
            link: l,
            fact: f,
        } => *b == branch && *l == link && *f == fact,
        _ => false,
    }
}

fn is_rule(step: &Step, branch: u32, rule: u32, part: u32, facts: &List<u32>) -> bool
    ensures { IsTrue result ↔ (step.now ≡ steps.Rule branch rule part facts.now) }
{
    match step {
        Step::Rule {
            branch: b,
            rule: n,
            part: p,
            facts: f,
        } => *b == branch && *n == rule && *p == part && f.same(facts),
        _ => false,
    }
}

fn is_view(step: &Step, branch: u32, view: u32, part: u32, facts: &List<u32>) -> bool
    ensures { IsTrue result ↔ (step.now ≡ steps.View branch view part facts.now) }
{
    match step {
        Step::View {
            branch: b,
            view: n,
            part: p,
            facts: f,
        } => *b == branch && *n == view && *p == part && f.same(facts),
        _ => false,
    }
}

fn is_split(step: &Step, branch: u32, atom: &TermAtom) -> bool
    ensures { IsTrue result ↔ (step.now ≡ steps.Split branch atom.now) }
{
    match step {
        Step::Split { branch: b, atom: a } => *b == branch && same_term_atom(a, atom),
        _ => false,
    }
}

fn is_absurd(step: &Step, branch: u32) -> bool
    ensures { IsTrue result ↔ (step.now ≡ steps.Absurd branch) }
{
    match step {
        Step::Absurd { branch: b } => *b == branch,
        _ => false,
    }
}

fn is_goal(step: &Step, branch: u32, part: u32, facts: &List<u32>) -> bool
    ensures { IsTrue result ↔ (step.now ≡ steps.Goal branch part facts.now) }
{
    match step {
        Step::Goal {
            branch: b,
            part: p,
            facts: f,
        } => *b == branch && *p == part && f.same(facts),
        _ => false,
    }
}

fn same_term_atom(left: &TermAtom, right: &TermAtom) -> bool
    ensures { IsTrue result ↔ (left.now ≡ right.now) }
{
    left.op.same(&right.op)
        && same_term(&left.left, &right.left)
        && same_term(&left.right, &right.right)
}

fn same_term(left: &Term, right: &Term) -> bool
    ensures { IsTrue result ↔ (left.now ≡ right.now) }
{
    match (left, right) {
        (Term::Unknown(n), Term::Unknown(m)) => *n == *m,
        (Term::Val(v), Term::Val(w)) => v.same(w),
        (Term::Param(n), Term::Param(m)) => *n == *m,
        (Term::Var(n), Term::Var(m)) => *n == *m,
        _ => false,
    }
}
