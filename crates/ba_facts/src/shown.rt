//! Which atoms are shown, and which are refuted.
ghost use Rattle.std.specs.Prelude.{◌↔◌, IsTrue};
ghost use Rattle.ba_facts.specs.Apart.{IsEqualApartAt, TellsApartAt};
ghost use Rattle.ba_facts.specs.Known.{seen};
ghost use Rattle.ba_facts.specs.Shown.{Absurd, AreTheTwo, EitherNull, HasEqualApart, IsEqualApart, IsAtMost, IsEqual, IsLess, IsUnequal, NeitherNull, RecordedApart, RefutesOf, ShowsOf, TellsApart, TheSame};

use crate::knowledge::Knowledge;
use crate::term::{Lesson, TermRef};
use ba_model::{Op, Same};

impl Knowledge {
    fn neither_null(&self, a: TermRef<'_>, b: TermRef<'_>) -> bool
        ensures { IsTrue result ↔ NeitherNull self.now (seen a.entry) (seen b.entry) }
    {
        self.shown_not_null(a) && self.shown_not_null(b)
    }

    fn either_null(&self, a: TermRef<'_>, b: TermRef<'_>) -> bool
        ensures { IsTrue result ↔ EitherNull self.now (seen a.entry) (seen b.entry) }
    {
        self.shown_null(a) || self.shown_null(b)
    }

    fn is_equal(&self, a: TermRef<'_>, b: TermRef<'_>) -> bool
        ensures { IsTrue result ↔ IsEqual self.now (seen a.entry) (seen b.entry) }
    {
        self.same(a, b) && self.neither_null(a, b)
    }

    fn is_at_most(&self, a: TermRef<'_>, b: TermRef<'_>) -> bool
        ensures { IsTrue result ↔ IsAtMost self.now (seen a.entry) (seen b.entry) }
    {
        self.neither_null(a, b) && self.shown_gap(a, 0, b)
    }

    fn is_less(&self, a: TermRef<'_>, b: TermRef<'_>) -> bool
        ensures { IsTrue result ↔ IsLess self.now (seen a.entry) (seen b.entry) }
    {
        self.neither_null(a, b) && self.shown_gap(a, 1, b)
    }

    // Whether a learned `x <> y` is of the two.
    fn recorded_apart(&self, a: TermRef<'_>, b: TermRef<'_>) -> bool
        ensures { IsTrue result ↔ RecordedApart self.now (seen a.entry) (seen b.entry) }
    {
        self.apart()
            .iter()
            .any(|place| self.tells_apart_at(*place, a, b))
    }

    fn tells_apart_at(&self, place: usize, a: TermRef<'_>, b: TermRef<'_>) -> bool
        ensures { IsTrue result ↔ TellsApartAt self.now place (seen a.entry) (seen b.entry) }
    {
        match self.learned().get(place) {
            Some(lesson) => self.tells_apart(lesson, a, b),
            None => false,
        }
    }

    fn tells_apart(&self, lesson: &Lesson, a: TermRef<'_>, b: TermRef<'_>) -> bool
        ensures { IsTrue result ↔ TellsApart self.now lesson.now (seen a.entry) (seen b.entry) }
    {
        match lesson {
            Lesson::Same(_, _) => false,
            Lesson::Holds(atom) => {
                atom.op.same(&Op::Ne)
                    && self.are_the_two(atom.left.by_ref(), atom.right.by_ref(), a, b)
            }
        }
    }

    // Whether `x` and `y` are the same as the two, one way or the other.
    fn are_the_two(&self, x: TermRef<'_>, y: TermRef<'_>, a: TermRef<'_>, b: TermRef<'_>) -> bool
        ensures { IsTrue result ↔ AreTheTwo self.now (seen x.entry) (seen y.entry) (seen a.entry)
            (seen b.entry) }
    {
        (self.same(a, x) && self.same(b, y)) || (self.same(a, y) && self.same(b, x))
    }

    fn is_unequal(&self, a: TermRef<'_>, b: TermRef<'_>) -> bool
        ensures { IsTrue result ↔ IsUnequal self.now (seen a.entry) (seen b.entry) }
    {
        self.different_literals(a, b)
            || self.is_less(a, b)
            || self.is_less(b, a)
            || self.either_null(a, b)
            || self.recorded_apart(a, b)
    }

    /// Whether the comparison is shown.
    pub fn shows(&self, op: Op, a: TermRef<'_>, b: TermRef<'_>) -> bool
        ensures { IsTrue result ↔ ShowsOf self.now op (seen a.entry) (seen b.entry) }
    {
        match op {
            Op::Eq => self.is_equal(a, b),
            Op::Ne => self.neither_null(a, b) && self.is_unequal(a, b),
            Op::Lt => self.is_less(a, b),
            Op::Le => self.is_at_most(a, b),
            Op::IsNull => self.shown_null(a),
            Op::NotNull => self.shown_not_null(a),
        }
    }

    /// Whether the comparison is refuted.
    pub fn refutes(&self, op: Op, a: TermRef<'_>, b: TermRef<'_>) -> bool
        ensures { IsTrue result ↔ RefutesOf self.now op (seen a.entry) (seen b.entry) }
    {
        match op {
            Op::Eq => self.is_unequal(a, b),
            Op::Ne => self.is_equal(a, b) || self.either_null(a, b),
            Op::Lt => self.is_at_most(b, a) || self.either_null(a, b),
            Op::Le => self.is_less(b, a) || self.either_null(a, b),
            Op::IsNull => self.shown_not_null(a),
            Op::NotNull => self.shown_null(a),
        }
    }

    fn some_apart_is_equal(&self) -> bool
        ensures { IsTrue result ↔ HasEqualApart self.now }
    {
        self.apart()
            .iter()
            .any(|place| self.is_equal_apart_at(*place))
    }

    fn is_equal_apart_at(&self, place: usize) -> bool
        ensures { IsTrue result ↔ IsEqualApartAt self.now place }
    {
        match self.learned().get(place) {
            Some(lesson) => self.is_equal_apart(lesson),
            None => false,
        }
    }

    fn is_equal_apart(&self, lesson: &Lesson) -> bool
        ensures { IsTrue result ↔ IsEqualApart self.now lesson.now }
    {
        match lesson {
            Lesson::Same(_, _) => false,
            Lesson::Holds(atom) => {
                atom.op.same(&Op::Ne) && self.is_equal(atom.left.by_ref(), atom.right.by_ref())
            }
        }
    }

    /// Whether what is known can't be true.
    pub fn absurd(&self) -> bool
        ensures { IsTrue result ↔ Absurd self.now }
    {
        self.order_is_absurd() || self.classes_clash() || self.some_apart_is_equal()
    }
}
