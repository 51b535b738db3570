//! Terms, and what is said of them.
ghost use Rattle.std.specs.Prelude.{◌≡◌};
ghost use Rattle.ba_facts.specs.Known.{seen};

use ba_model::{Kind, List, Op, Value};

/// One of two databases: the one that is given, and one that shows the same to the user.
#[derive(Clone, Copy, Debug, PartialEq, Eq)]
pub enum Side {
    One,
    Two,
}

/// What stands for a value in a branch.
#[derive(Debug, Drop)]
pub enum Term {
    /// A value that isn't known, by its number in the branch.
    Unknown(u32),
    Val(Value),
    /// A parameter of the policy. Its value is never NULL.
    Param(u32),
    /// A variable of a problem. Its value is never NULL.
    Var(u32),
}

/// A term, or what stands for one in a query, without a copy of its value.
#[derive(Clone, Copy)]
pub enum TermRef<'a> {
    Unknown(u32),
    Val(&'a Value),
    Param(u32),
    Var(u32),
}

impl Term {
    /// The term without a copy of its value.
    #[inline(always)]
    pub fn by_ref(&self) -> TermRef<'_>
        ensures { seen result ≡ self.now }
    {
        match self {
            Term::Unknown(n) => TermRef::Unknown(*n),
            Term::Val(value) => TermRef::Val(value),
            Term::Param(n) => TermRef::Param(*n),
            Term::Var(n) => TermRef::Var(*n),
        }
    }
}

/// A comparison of two terms. The right side of IS NULL and IS NOT NULL repeats the left.
#[derive(Debug, Drop)]
pub struct TermAtom {
    pub op: Op,
    pub left: Term,
    pub right: Term,
}

/// What is known of an unknown by itself: the kind of its column, and whether NULL may stand there.
#[derive(Clone, Copy, Debug)]
pub struct Sort {
    pub kind: Kind,
    pub nullable: bool,
}

/// A row of a table on one side, and the round of the step that it came by.
#[derive(Debug, Drop)]
pub struct Fact {
    pub side: Side,
    pub table: u32,
    pub terms: List<Term>,
    pub round: u32,
}

/// What was learned of terms.
#[derive(Debug, Drop)]
pub enum Lesson {
    /// The two are the same, maybe NULL.
    Same(Term, Term),
    /// The comparison is true.
    Holds(TermAtom),
}

/// A fact for each place of a part, by its number, and the part's first atom under them that isn't
/// shown, by its number, if there is one.
#[derive(Debug, Drop)]
pub struct Mapping {
    pub facts: List<u32>,
    pub undecided: Option<u32>,
}
