//! Steps that are written as short texts: a kind and its numbers in order. After a split's branch
//! stands its atom.

use super::words::{Handle, number, numbers, term_atom};
use ba_kernel::Step;
use ba_model::List;

/// The step of the kind on the branch, with the numbers that stand behind the branch's.
fn numbered_step(rt: &impl Handle, kind: &str, branch: u32, numbers: &[u32]) -> Step {
    let first = if kind == "goal" { 1 } else { 2 };
    let facts = numbers.iter().skip(first).copied().collect(rt.alloc());
    let facts = List::from_vec(facts.expect(rt, "memory"));
    match (kind, numbers) {
        ("entry", [entry, ..]) => Step::Entry {
            branch,
            entry: u64::from(*entry),
        },
        ("key", [key, left, right, ..]) => Step::Key {
            branch,
            key: *key,
            left: *left,
            right: *right,
        },
        ("link", [link, fact, ..]) => Step::Link {
            branch,
            link: *link,
            fact: *fact,
        },
        ("rule", [rule, part, ..]) => Step::Rule {
            branch,
            rule: *rule,
            part: *part,
            facts,
        },
        ("view", [view, part, ..]) => Step::View {
            branch,
            view: *view,
            part: *part,
            facts,
        },
        ("goal", [part, ..]) => Step::Goal {
            branch,
            part: *part,
            facts,
        },
        _ => Step::Absurd { branch },
    }
}

pub fn step(rt: &impl Handle, text: &str) -> Step {
    let (kind, text) = text.split_once(' ').unwrap_or((text, ""));
    let (branch, text) = text.split_once(' ').unwrap_or((text, ""));
    let branch = number(branch);
    if kind == "split" {
        let atom = term_atom(rt, text);
        return Step::Split { branch, atom };
    }
    numbered_step(rt, kind, branch, numbers(rt, text).as_slice())
}

/// Steps with commas between them.
pub fn steps(rt: &impl Handle, text: &str) -> List<Step> {
    let mut all = List::new(rt.alloc());
    for piece in text.split(',') {
        all.push(step(rt, piece.trim())).expect(rt, "memory");
    }
    all
}
