//! The classes of numbered terms.
ghost use Rattle.std.specs.Prelude.{◌≡◌, ◌<◌, ◌≤◌, ◌↔◌, [], ◌∷◌, ◌++◌, IsTrue, IfOk, OnOk, OnErr};
ghost use Rattle.ba_classes.specs.Merged.{Connected, IsLabel};

use ba_classes::Classes;
use std::alloc::{AllocError, Global};
use std::marker::Model;

/// Classes that allocate nothing before there is a term.
#[derive(Drop)]
pub(crate) struct Groups {
    classes: Option<Classes>,
}

impl Model for Groups {
    ghost use Rattle.ba_classes.specs.Merged.{Merged};
    ghost use Rattle.ba_facts.specs.Grouping.{merged_of};

    ghost Value = { Merged };

    ghost view = { λ it. merged_of it.classes };
}

impl Groups {
    pub(crate) fn new() -> Groups
        ensures { result ≡ record { terms = 0; merges = [] } }
    {
        Groups { classes: None }
    }

    /// Makes room for a number, if it is at most the next one.
    pub(crate) fn make_room(&mut self, alloc: Global, number: u32) -> Result<(), AllocError>
        ensures merges { self.new.merges ≡ self.old.merges }
        ensures grows { self.old.terms ≤ self.new.terms }
        ensures room { OnOk result (number ≤ self.old.terms → number < self.new.terms) }
    {
        match &mut self.classes {
            Some(classes) => room_for(classes, number),
            None => {
                self.classes = Some(Classes::new(alloc, 1)?);
                Ok(())
            }
        }
    }

    /// Makes two terms equal. Without memory nothing changes.
    pub(crate) fn merge(&mut self, a: u32, b: u32) -> Result<(), AllocError>
        requires left { a < self.old.terms }
        requires right { b < self.old.terms }
        ensures ok { OnOk result
            (self.new ≡ record self.old { merges = self.old.merges ++ (a, b) ∷ [] }) }
        ensures err { OnErr result (self.new ≡ self.old) }
    {
        match &mut self.classes {
            Some(classes) => classes.merge(a, b),
            None => unreachable!(),
        }
    }

    /// Whether the merges connect the two terms.
    pub(crate) fn same(&self, a: u32, b: u32) -> bool
        requires left { a < self.now.terms }
        requires right { b < self.now.terms }
        ensures { IsTrue result ↔ Connected self.now.merges a b }
    {
        match &self.classes {
            Some(classes) => classes.same(a, b),
            None => false,
        }
    }

    /// The label of a term: the least term that the merges connect with it.
    pub(crate) fn label(&self, a: u32) -> u32
        requires { a < self.now.terms }
        ensures { IsLabel self.now.merges a result }
    {
        match &self.classes {
            Some(classes) => classes.label(a),
            None => a,
        }
    }

    /// The same terms with the same merges.
    pub(crate) fn copy(&self, alloc: Global) -> Result<Groups, AllocError>
        ensures { IfOk result (λ other. other ≡ self.now) }
    {
        match &self.classes {
            Some(classes) => {
                let copy = classes.copy(alloc)?;
                Ok(Groups {
                    classes: Some(copy),
                })
            }
            None => Ok(Groups { classes: None }),
        }
    }
}

fn room_for(classes: &mut Classes, number: u32) -> Result<(), AllocError>
    ensures merges { classes.new.merges ≡ classes.old.merges }
    ensures grows { classes.old.terms ≤ classes.new.terms }
    ensures room { OnOk result (number ≤ classes.old.terms → number < classes.new.terms) }
{
    if classes.terms() <= number as u64 {
        classes.add()?;
    }
    Ok(())
}
