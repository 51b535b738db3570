//! The literals of a class, by value.
ghost use Rattle.std.specs.Prelude.{◌≡◌, ◌↔◌, IsTrue};
ghost use Rattle.std.specs.Option.{option_copied};
ghost use Rattle.ba_facts.specs.Finding.{AreFound};
ghost use Rattle.ba_facts.specs.Knowing.{IsLiteralIn};
ghost use Rattle.ba_facts.specs.Known.{Known, DifferentLiterals, OneClass, seen};
ghost use Rattle.ba_facts.specs.Marks.{HasOneLiteral};
ghost use Rattle.ba_facts.specs.declared.term.Term.{Term};

use crate::term::TermRef;
use ba_model::{Same, Value};

/// The literals of a class, by value: none, one alone, or several.
#[derive(Clone, Copy)]
pub(crate) enum Found<'a> {
    Absent,
    One(&'a Value),
    Several,
}

/// Those of a term alone.
pub(crate) fn own_found<'a>(a: TermRef<'a>) -> Found<'a>
    ensures { (k : Known) →
        ((b : Term) → OneClass k (seen a.entry) b → seen a.entry ≡ b) →
        AreFound k (seen a.entry) result }
{
    match a {
        TermRef::Val(value) => Found::One(value),
        _ => Found::Absent,
    }
}

/// The literal of a term alone, if it is one.
pub(crate) fn own_literal<'a>(a: TermRef<'a>) -> Option<&'a Value>
    ensures { (k : Known) → ((b : Term) → OneClass k (seen a.entry) b → seen a.entry ≡ b) →
        IsLiteralIn k (seen a.entry) (option_copied result) }
{
    match a {
        TermRef::Val(value) => Some(value),
        _ => None,
    }
}

/// Whether two classes with these literals have different ones.
pub(crate) fn differ(left: Found<'_>, right: Found<'_>) -> bool
    ensures { (k : Known) (a b : Term) → AreFound k a left.entry → AreFound k b right.entry →
        IsTrue result ↔ DifferentLiterals k a b }
{
    match left {
        Found::Absent => false,
        Found::One(value) => one_differs(value, right),
        Found::Several => has_literal(right),
    }
}

fn one_differs(value: &Value, right: Found<'_>) -> bool
    ensures { (k : Known) (a b : Term) → OneClass k a (Term.Val value.now) → HasOneLiteral k a →
        AreFound k b right.entry → IsTrue result ↔ DifferentLiterals k a b }
{
    match right {
        Found::Absent => false,
        Found::One(other) => !value.same(other),
        Found::Several => true,
    }
}

fn has_literal(right: Found<'_>) -> bool
    ensures { (k : Known) (a b : Term) → DifferentLiterals k a a → AreFound k b right.entry →
        IsTrue result ↔ DifferentLiterals k a b }
{
    match right {
        Found::Absent => false,
        Found::One(_) => true,
        Found::Several => true,
    }
}
