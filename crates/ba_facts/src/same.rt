//! Copies that equal their originals, and the test of equal content.

use crate::term::{Fact, Lesson, Side, Sort, Term, TermAtom};
use ba_model::{Duplicate, Op, Same};
use std::alloc::{AllocError, Global};

impl Duplicate for Term {
    fn copy(&self, alloc: Global) -> Result<Term, AllocError> {
        match self {
            Term::Unknown(n) => Ok(Term::Unknown(*n)),
            Term::Val(value) => Ok(Term::Val(value.copy(alloc)?)),
            Term::Param(n) => Ok(Term::Param(*n)),
            Term::Var(n) => Ok(Term::Var(*n)),
        }
    }
}

impl Same for Term {
    fn same(&self, other: &Term) -> bool {
        match (self, other) {
            (Term::Unknown(n), Term::Unknown(m)) => *n == *m,
            (Term::Val(v), Term::Val(w)) => v.same(w),
            (Term::Param(n), Term::Param(m)) => *n == *m,
            (Term::Var(n), Term::Var(m)) => *n == *m,
            _ => false,
        }
    }
}

impl Duplicate for TermAtom {
    fn copy(&self, alloc: Global) -> Result<TermAtom, AllocError> {
        Ok(TermAtom {
            op: self.op,
            left: self.left.copy(alloc)?,
            right: self.right.copy(alloc)?,
        })
    }
}

impl Same for TermAtom {
    fn same(&self, other: &TermAtom) -> bool {
        self.op.same(&other.op) && self.left.same(&other.left) && self.right.same(&other.right)
    }
}

impl Duplicate for Lesson {
    fn copy(&self, alloc: Global) -> Result<Lesson, AllocError> {
        match self {
            Lesson::Same(a, b) => Ok(Lesson::Same(a.copy(alloc)?, b.copy(alloc)?)),
            Lesson::Holds(atom) => Ok(Lesson::Holds(atom.copy(alloc)?)),
        }
    }
}

impl Duplicate for Fact {
    fn copy(&self, alloc: Global) -> Result<Fact, AllocError> {
        Ok(Fact {
            side: self.side,
            table: self.table,
            terms: self.terms.copy(alloc)?,
            round: self.round,
        })
    }
}
