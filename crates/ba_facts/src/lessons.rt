//! What was learned, with an index of its inequalities.
ghost use Rattle.std.specs.Prelude.{◌≡◌, ◌∷◌, ◌++◌, ◌-◌, ◌↔◌, [], length, take, IsTrue, IfOk, OnOk, OnErr};
ghost use Rattle.ba_facts.specs.Apart.{AreListed, IsApart};

use crate::copies::{add_item, copy_plain, copy_shared};
use crate::term::Lesson;
use ba_model::{Op, Same, Shared};
use std::alloc::{AllocError, Global};
use std::marker::Model;

/// What was learned, the oldest first.
///
/// The places of the learned inequalities are kept beside it: these alone are asked for one by one.
/// A place may be listed that has none.
#[derive(Drop)]
pub(crate) struct Lessons {
    all: Vec<Shared<Lesson>>,
    apart: Vec<usize>,
}

impl Model for Lessons {
    ghost use Rattle.std.specs.Prelude.{List};
    ghost use Rattle.ba_facts.specs.Apart.{AreListed};
    ghost use Rattle.ba_facts.specs.declared.term.Lesson.{Lesson};

    ghost Value = { List Lesson };

    ghost view = { λ it. it.all.items };

    ghost invariant = { λ it. AreListed it.all.items it.apart.items };
}

impl Lessons {
    pub(crate) fn new(alloc: Global) -> Lessons
        ensures { result ≡ [] }
    {
        Lessons {
            all: Vec::new(alloc),
            apart: Vec::new(alloc),
        }
    }

    pub(crate) fn all(&self) -> &[Shared<Lesson>]
        ensures { result.now ≡ self.now }
    {
        &self.all
    }

    /// The places of the inequalities, and maybe others.
    pub(crate) fn apart(&self) -> &[usize]
        ensures { AreListed self.now result.now }
    {
        &self.apart
    }

    /// Adds what was learned. Without memory nothing changes.
    #[inline(always)]
    pub(crate) fn add(&mut self, lesson: Shared<Lesson>) -> Result<(), AllocError>
        ensures ok { OnOk result (self.new ≡ self.old ++ lesson ∷ []) }
        ensures err { OnErr result (self.new ≡ self.old) }
    {
        if is_apart(&lesson) {
            self.apart.push(self.all.len())?;
        }
        add_item(&mut self.all, lesson)
    }

    pub(crate) fn drop_last(&mut self)
        ensures { self.new ≡ take (length self.old - 1) self.old }
    {
        self.all.pop();
    }

    /// The same. What was learned is shared.
    pub(crate) fn copy(&self, alloc: Global) -> Result<Lessons, AllocError>
        ensures { IfOk result (λ other. other ≡ self.now) }
    {
        Ok(Lessons {
            all: copy_shared(alloc, &self.all)?,
            apart: copy_plain(alloc, &self.apart)?,
        })
    }
}

/// Whether the lesson is an inequality.
#[inline(always)]
fn is_apart(lesson: &Lesson) -> bool
    ensures { IsTrue result ↔ IsApart lesson.now }
{
    match lesson {
        Lesson::Same(_, _) => false,
        Lesson::Holds(atom) => atom.op.same(&Op::Ne),
    }
}
