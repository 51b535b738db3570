//! What is kept of a class of terms.
ghost use Rattle.std.specs.Prelude.{◌≡◌, true, Some, None};
ghost use Rattle.ba_facts.specs.Known.{seen};
ghost use Rattle.ba_facts.specs.Marks.{both_literals, both_marks, both_places, is_several, own_literals, own_mark, own_not_null, own_place, two_literals};

use crate::term::{Sort, TermRef};
use ba_model::Value;

/// A place in the order: so much above a node.
#[derive(Clone, Copy)]
pub(crate) struct Place {
    pub(crate) node: u32,
    pub(crate) offset: i64,
}

/// The literals of a class, by number: none, one alone, or one of several.
#[derive(Clone, Copy)]
pub(crate) enum Literals {
    Absent,
    One(u32),
    Several(u32),
}

/// The literals of a class, whether a term of it isn't NULL, and its place, if it has one.
#[derive(Clone, Copy)]
pub(crate) struct Mark {
    pub(crate) literals: Literals,
    pub(crate) not_null: bool,
    pub(crate) place: Option<Place>,
}

impl Literals {
    pub(crate) fn is_several(self) -> bool
        ensures { result ≡ is_several self }
    {
        match self {
            Literals::Several(_) => true,
            _ => false,
        }
    }

    // Those of two classes that become one.
    fn both(self, other: Literals) -> Literals
        ensures { result ≡ both_literals self other }
    {
        match (self, other) {
            (Literals::Absent, _) => other,
            (_, Literals::Absent) => self,
            (Literals::One(left), Literals::One(right)) => Literals::two(left, right),
            (Literals::One(left), Literals::Several(_)) => Literals::Several(left),
            (Literals::Several(left), _) => Literals::Several(left),
        }
    }

    fn two(left: u32, right: u32) -> Literals
        ensures { result ≡ two_literals left right }
    {
        if left == right {
            Literals::One(left)
        } else {
            Literals::Several(left)
        }
    }

    // Those of a term alone, which has this number.
    fn own(number: u32, term: TermRef<'_>) -> Literals
        ensures { result ≡ own_literals number (seen term.entry) }
    {
        match term {
            TermRef::Val(_) => Literals::One(number),
            _ => Literals::Absent,
        }
    }
}

impl Mark {
    /// That of a term alone, which has this number.
    pub(crate) fn own(unknowns: &[Sort], number: u32, term: TermRef<'_>) -> Mark
        ensures { result ≡ own_mark unknowns.now number (seen term.entry) }
    {
        Mark {
            literals: Literals::own(number, term),
            not_null: own_not_null(unknowns, term),
            place: own_place(term),
        }
    }

    /// That of two classes that become one.
    pub(crate) fn both(self, other: Mark) -> Mark
        ensures { result ≡ both_marks self other }
    {
        Mark {
            literals: self.literals.both(other.literals),
            not_null: self.not_null || other.not_null,
            place: both_places(self.place, other.place),
        }
    }
}

fn both_places(left: Option<Place>, right: Option<Place>) -> Option<Place>
    ensures { result ≡ both_places left right }
{
    match left {
        Some(place) => Some(place),
        None => right,
    }
}

/// Whether a term is never NULL by itself.
pub(crate) fn own_not_null(unknowns: &[Sort], term: TermRef<'_>) -> bool
    ensures { result ≡ own_not_null unknowns.now (seen term.entry) }
{
    match term {
        TermRef::Unknown(n) => match unknowns.get(n as usize) {
            Some(sort) => !sort.nullable,
            None => false,
        },
        TermRef::Val(value) => match value {
            Value::Null => false,
            _ => true,
        },
        TermRef::Param(_) => true,
        TermRef::Var(_) => true,
    }
}

/// The place of a term alone: a whole number is so much above the node 0.
pub(crate) fn own_place(term: TermRef<'_>) -> Option<Place>
    ensures { result ≡ own_place (seen term.entry) }
{
    match term {
        TermRef::Val(value) => match value {
            Value::Int(n) => Some(Place {
                node: 0,
                offset: *n,
            }),
            _ => None,
        },
        _ => None,
    }
}
