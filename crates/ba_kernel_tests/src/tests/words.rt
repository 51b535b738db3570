//! Numbers, values, operands, terms and atoms that are written as words.
//!
//! An operand is a word: `a.1` is column 1 of the part's first table and `b.1` that of its second,
//! `p.0` a parameter, `v.0` a variable, a number is itself, `NULL` is NULL, and any other word is a
//! text, of which a quote before it is no part. A term is the same, with `u.3` for an unknown. An
//! atom is two of them with `=`, `<>`, `<`, `<=`, `null` or `some` between them, of which the last is
//! IS NOT NULL. Between atoms stand commas, and between the columns of a line bars.
ghost use Rattle.std.specs.Prelude.{◌≡◌};

use ba_facts::{Term, TermAtom};
use ba_model::{Atom, List, Op, Operand, Shared, Str, Value};
use std::alloc::{AllocError, Global};
use std::process::Abort;

/// What a test has: memory, and an end of the process where there is none.
pub trait Handle: AllocGlobal + Abort {}

impl<R: AllocGlobal + Abort> Handle for R {}

pub fn shared<T: Drop>(rt: &impl Handle, value: T) -> Shared<T>
    ensures { result ≡ value }
{
    Shared::new(rt.alloc(), value).expect(rt, "memory")
}

/// What stands between bars, from 0 on.
pub fn bar(text: &str, number: usize) -> &str {
    text.split('|').nth(number).unwrap_or("").trim()
}

/// The first word of a piece, and what stands behind it.
pub fn named(piece: &str) -> (&str, &str) {
    let piece = piece.trim();
    piece.split_once(' ').unwrap_or((piece, ""))
}

/// The number that the word is. Any other word is told as the greatest.
pub fn number(word: &str) -> u32 {
    word.trim().parse::<u32>().unwrap_or(u32::MAX)
}

pub fn numbers(rt: &impl Handle, text: &str) -> List<u32> {
    let mut all = List::new(rt.alloc());
    for word in text.split_whitespace() {
        all.push(number(word)).expect(rt, "memory");
    }
    all
}

fn text(alloc: Global, text: &str) -> Result<Value, AllocError> {
    let text = Str::new(alloc, text)?;
    Value::text(alloc, text)
}

fn value(rt: &impl Handle, word: &str) -> Value {
    if word == "NULL" {
        return Value::Null;
    }
    match word.parse::<i64>() {
        Ok(n) => Value::Int(n),
        Err(_) => {
            let letters = word.strip_prefix('\'').unwrap_or(word);
            text(rt.alloc(), letters).expect(rt, "memory")
        }
    }
}

pub fn values(rt: &impl Handle, text: &str) -> List<Value> {
    let mut all = List::new(rt.alloc());
    for word in text.split_whitespace() {
        all.push(value(rt, word)).expect(rt, "memory");
    }
    all
}

fn operand(rt: &impl Handle, word: &str) -> Operand {
    match word.split_once('.') {
        Some(("b", digits)) => Operand::Col(1, number(digits)),
        Some(("p", digits)) => Operand::Param(number(digits)),
        Some(("v", digits)) => Operand::Var(number(digits)),
        Some((_, digits)) => Operand::Col(0, number(digits)),
        None => Operand::Val(value(rt, word)),
    }
}

pub fn operands(rt: &impl Handle, text: &str) -> List<Operand> {
    let mut all = List::new(rt.alloc());
    for word in text.split_whitespace() {
        all.push(operand(rt, word)).expect(rt, "memory");
    }
    all
}

fn op(word: &str) -> Op {
    match word {
        "=" => Op::Eq,
        "<>" => Op::Ne,
        "<" => Op::Lt,
        "<=" => Op::Le,
        "null" => Op::IsNull,
        _ => Op::NotNull,
    }
}

fn atom(rt: &impl Handle, text: &str) -> Atom {
    let mut words = text.split_whitespace();
    let left = words.next().unwrap_or("");
    let sign = words.next().unwrap_or("");
    let right = words.next().unwrap_or("");
    Atom {
        op: op(sign),
        left: operand(rt, left),
        right: operand(rt, right),
    }
}

pub fn atoms(rt: &impl Handle, text: &str) -> List<Atom> {
    let mut all = List::new(rt.alloc());
    for piece in text.split(',') {
        if !piece.trim().is_empty() {
            all.push(atom(rt, piece)).expect(rt, "memory");
        }
    }
    all
}

/// The term of an operand, whose column is an unknown's number.
fn term(operand: Operand) -> Term {
    match operand {
        Operand::Col(_, n) => Term::Unknown(n),
        Operand::Val(value) => Term::Val(value),
        Operand::Param(n) => Term::Param(n),
        Operand::Var(n) => Term::Var(n),
    }
}

pub fn term_atom(rt: &impl Handle, text: &str) -> TermAtom {
    let atom = atom(rt, text);
    TermAtom {
        op: atom.op,
        left: term(atom.left),
        right: term(atom.right),
    }
}
