//! Branches that are spelled: their facts, what was learned, the oldest first, and their goal row, as
//! in `One 1: u.0 u.1 @0 | u.0 = 5 | u.1`.
//!
//! A fact is its side, its table, its terms and its round. In what was learned `~` stands between
//! terms that are the same, maybe NULL.

use super::words::Handle;
use ba_facts::{Branch, Lesson, Term};
use ba_model::{Op, Value};

fn word(rt: &impl Handle, term: &Term) -> String {
    let word = match term {
        Term::Unknown(n) => format!(in rt.alloc(); "u.{n}"),
        Term::Val(Value::Null) => format!(in rt.alloc(); "NULL"),
        Term::Val(Value::Int(n)) => format!(in rt.alloc(); "{n}"),
        Term::Val(Value::Text(letters)) => format!(in rt.alloc(); "{}", letters.as_str()),
        Term::Param(n) => format!(in rt.alloc(); "p.{n}"),
        Term::Var(n) => format!(in rt.alloc(); "v.{n}"),
    };
    word.expect(rt, "memory")
}

fn sign(op: Op) -> &'static str {
    match op {
        Op::Eq => "=",
        Op::Ne => "<>",
        Op::Lt => "<",
        Op::Le => "<=",
        Op::IsNull => "null",
        Op::NotNull => "some",
    }
}

fn pair(rt: &impl Handle, left: &Term, sign: &str, right: &Term) -> String {
    let left = word(rt, left);
    let right = word(rt, right);
    format!(in rt.alloc(); "{left} {sign} {right}").expect(rt, "memory")
}

fn terms(rt: &impl Handle, terms: &[Term]) -> String {
    let mut text = String::new(rt.alloc());
    for term in terms {
        text.push_str(" ").expect(rt, "memory");
        text.push_str(word(rt, term).as_str()).expect(rt, "memory");
    }
    text
}

/// What stands before the thing of the number.
fn comma(number: usize) -> &'static str {
    if number > 0 { ", " } else { "" }
}

fn facts(rt: &impl Handle, branch: &Branch) -> String {
    let mut text = String::new(rt.alloc());
    for (n, fact) in branch.facts.as_slice().iter().enumerate() {
        let comma = comma(n);
        let terms = terms(rt, fact.terms.as_slice());
        let (side, table, round) = (fact.side, fact.table, fact.round);
        let fact = format!(in rt.alloc(); "{comma}{side:?} {table}:{terms} @{round}");
        text.push_str(fact.expect(rt, "memory").as_str())
            .expect(rt, "memory");
    }
    text
}

fn lessons(rt: &impl Handle, branch: &Branch) -> String {
    let mut text = String::new(rt.alloc());
    for (n, lesson) in branch.known.learned().iter().enumerate() {
        let lesson: &Lesson = lesson;
        let pair = match lesson {
            Lesson::Same(left, right) => pair(rt, left, "~", right),
            Lesson::Holds(atom) => pair(rt, &atom.left, sign(atom.op), &atom.right),
        };
        text.push_str(comma(n)).expect(rt, "memory");
        text.push_str(pair.as_str()).expect(rt, "memory");
    }
    text
}

/// The branch, or `-` where there is none.
pub fn spelled(rt: &impl Handle, branch: Option<&Branch>) -> String {
    let Some(branch) = branch else {
        return format!(in rt.alloc(); "-").expect(rt, "memory");
    };
    let facts = facts(rt, branch);
    let lessons = lessons(rt, branch);
    let goal = terms(rt, branch.goal.as_slice());
    format!(in rt.alloc(); "{facts} | {lessons} |{goal}").expect(rt, "memory")
}
