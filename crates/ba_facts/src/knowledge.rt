ghost use Rattle.std.specs.Prelude.{◌≡◌, ◌∷◌, ◌++◌, ◌↔◌, ◌<◌, ◌⊎◌, ℤ, pos, ◌<ℤ◌, [], length, map, IsTrue, IfOk, OnOk, OnErr};
ghost use Rattle.std.specs.Option.{option_copied};
ghost use Rattle.ba_facts.specs.Apart.{AreListed};
ghost use Rattle.ba_facts.specs.Known.{Chain, DifferentLiterals, OneClass, ShownGap, ShownNotNull, ShownNull, seen};
ghost use Rattle.ba_facts.specs.Members.{AreMembers, IsOnlyClass};
ghost use Rattle.ba_facts.specs.Shown.{TheSame};
ghost use Rattle.ba_facts.specs.Knowing.{IsBound, IsLeastOf, IsLiteralIn, IsThere, LessonIsThere, IsClashing, IsRising, sort_of};

use crate::copies::copy_plain;
use crate::lessons::Lessons;
use crate::term::{Lesson, Sort, TermRef};
use crate::web::Web;
use ba_model::{Column, Duplicate, Shared, Value};
use std::alloc::{AllocError, Global};
use std::marker::Model;

/// What is known of the terms of a branch.
///
/// A contract sees the sorts of the unknowns, and what was learned, the oldest first. What follows
/// from it is kept beside it: the classes of terms, for each class its literal and whether it is
/// NULL or isn't, and the order of classes.
#[derive(Drop)]
pub struct Knowledge {
    unknowns: Vec<Sort>,
    learned: Lessons,
    web: Web,
}

impl Model for Knowledge {
    ghost use Rattle.ba_facts.specs.Known.{Known};
    ghost use Rattle.ba_facts.specs.Webs.{IsWeb};

    ghost Value = { Known };

    ghost view = { λ k. record { unknowns = k.unknowns.items; learned = k.learned } };

    ghost invariant = { λ k. IsWeb (record { unknowns = k.unknowns.items; learned = k.learned })
        k.web };
}

impl Knowledge {
    /// No unknowns, and nothing learned. It allocates nothing.
    pub fn new(alloc: Global) -> Knowledge
        ensures { result ≡ record { unknowns = []; learned = [] } }
    {
        Knowledge {
            unknowns: Vec::new(alloc),
            learned: Lessons::new(alloc),
            web: Web::new(alloc),
        }
    }

    /// The sorts of the unknowns, by number.
    pub fn unknowns(&self) -> &[Sort]
        ensures { result.now ≡ self.now.unknowns }
    {
        &self.unknowns
    }

    /// What was learned, the oldest first.
    pub fn learned(&self) -> &[Shared<Lesson>]
        ensures { result.now ≡ self.now.learned }
    {
        self.learned.all()
    }

    /// The places of the learned inequalities, and maybe others.
    pub(crate) fn apart(&self) -> &[usize]
        ensures { AreListed self.now.learned result.now }
    {
        self.learned.apart()
    }

    /// New unknowns, one for each column, numbered on from those that were there. Without memory
    /// nothing changes.
    pub fn add_unknowns(&mut self, columns: &[Column]) -> Result<(), AllocError>
        ensures ok { OnOk result (self.new ≡ record self.old
            { unknowns = self.old.unknowns ++ map sort_of columns.now }) }
        ensures err { OnErr result (self.new ≡ self.old) }
    {
        let alloc = *self.unknowns.allocator();
        let mut sorts = sorts_of(alloc, columns)?;
        self.unknowns.append(&mut sorts)?;
        Ok(())
    }

    /// Adds what was learned, with all that follows from it. Without memory nothing changes.
    pub fn learn(&mut self, lesson: Lesson) -> Result<(), AllocError>
        requires { LessonIsThere self.old lesson }
        ensures ok { OnOk result (self.new ≡ record self.old
            { learned = self.old.learned ++ lesson ∷ [] }) }
        ensures err { OnErr result (self.new ≡ self.old) }
    {
        let alloc = *self.unknowns.allocator();
        let lesson = Shared::new(alloc, lesson)?;
        self.learned.add(lesson.copy(alloc)?)?;
        match self.web.tell(alloc, &self.unknowns, &lesson) {
            Ok(()) => Ok(()),
            Err(error) => {
                self.learned.drop_last();
                Err(error)
            }
        }
    }

    /// Whether the two terms are of one class.
    pub fn one_class(&self, a: TermRef<'_>, b: TermRef<'_>) -> bool
        ensures { IsTrue result ↔ OneClass self.now (seen a.entry) (seen b.entry) }
    {
        self.web.one_class(a, b)
    }

    /// Whether the two are the same: of one class, or each shown to be at most the other.
    pub fn same(&self, a: TermRef<'_>, b: TermRef<'_>) -> bool
        ensures { IsTrue result ↔ TheSame self.now (seen a.entry) (seen b.entry) }
    {
        self.web.same(a, b)
    }

    /// The unknowns that are of one class with the term, by number.
    pub fn members(&self, a: TermRef<'_>) -> Result<Vec<u32>, AllocError>
        ensures { IfOk result (λ it. AreMembers self.now (seen a.entry) it.items) }
    {
        let alloc = *self.unknowns.allocator();
        self.web.members(alloc, a)
    }

    /// Whether what is the same as the term is sure to be of its class. It may be even where this
    /// says no.
    pub fn is_only_class(&self, a: TermRef<'_>) -> bool
        ensures { IsTrue result → IsOnlyClass self.now (seen a.entry) }
    {
        self.web.is_unplaced(a)
    }

    /// Whether the term's class has the literal NULL.
    pub fn shown_null(&self, a: TermRef<'_>) -> bool
        ensures { IsTrue result ↔ ShownNull self.now (seen a.entry) }
    {
        self.web.is_null(a)
    }

    /// Whether the term's class has one that is never NULL, or was recorded as not null.
    pub fn shown_not_null(&self, a: TermRef<'_>) -> bool
        ensures { IsTrue result ↔ ShownNotNull self.now (seen a.entry) }
    {
        self.web.not_null(&self.unknowns, a)
    }

    /// Whether the two terms' classes have different literals.
    pub fn different_literals(&self, a: TermRef<'_>, b: TermRef<'_>) -> bool
        ensures { IsTrue result ↔ DifferentLiterals self.now (seen a.entry) (seen b.entry) }
    {
        self.web.different_literals(a, b)
    }

    /// Whether `low` plus `gap` is shown to be at most `high`.
    pub fn shown_gap(&self, low: TermRef<'_>, gap: u32, high: TermRef<'_>) -> bool
        ensures { IsTrue result ↔ ShownGap self.now (seen low.entry) (pos gap) (seen high.entry) }
    {
        self.web.gap(low, gap, high)
    }

    /// A literal of the term's class, if it has one.
    pub fn literal<'a>(&'a self, a: TermRef<'a>) -> Option<&'a Value>
        ensures { IsLiteralIn self.now (seen a.entry) (option_copied result) }
    {
        self.web.literal(a)
    }

    /// The least unknown that is of one class with this one, by its number.
    pub fn least_of(&self, unknown: u32) -> u32
        ensures { IsLeastOf self.now unknown result }
    {
        self.web.least_of(unknown)
    }

    /// The greatest number by which the one term is shown to be less than the other, if any is
    /// shown.
    pub fn bound(&self, low: TermRef<'_>, high: TermRef<'_>) -> Option<i128>
        requires { ¬ (IsRising self.now) }
        ensures { IsBound self.now (seen low.entry) (seen high.entry) result }
    {
        self.web.bound(low, high)
    }

    /// Whether some class has two different literals, or is shown both null and not null.
    pub fn classes_clash(&self) -> bool
        ensures { IsTrue result ↔ IsClashing self.now }
    {
        self.web.clashes(&self.unknowns)
    }

    /// Whether some chain rises back to where it began.
    pub fn order_is_absurd(&self) -> bool
        ensures { IsTrue result ↔ IsRising self.now }
    {
        self.web.is_rising()
    }

    /// The same knowledge. It shares what was learned with this one.
    pub fn copy(&self, alloc: Global) -> Result<Knowledge, AllocError>
        ensures { IfOk result (λ other. other ≡ self.now) }
    {
        Ok(Knowledge {
            unknowns: copy_plain(alloc, &self.unknowns)?,
            learned: self.learned.copy(alloc)?,
            web: self.web.copy(alloc)?,
        })
    }
}

fn sorts_of(alloc: Global, columns: &[Column]) -> Result<Vec<Sort>, AllocError>
    ensures { IfOk result (λ it. it.items ≡ map sort_of columns.now) }
{
    columns
        .iter()
        .map(|column| Sort {
            kind: column.kind,
            nullable: column.nullable,
        })
        .collect(alloc)
}
