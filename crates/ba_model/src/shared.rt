//! Values that are held in common.
ghost use Rattle.std.specs.Prelude.{◌≡◌, ◌↔◌, IfOk, IfSome, IsTrue};
ghost use Rattle.std.specs.Borrow.{LendsIf, sem};
ghost use Rattle.ba_model.specs.contracts.shared.Shared.{the_row};

use crate::same::{Duplicate, Same};
use std::alloc::{AllocError, Global};
use std::marker::Model;
use std::ops::Deref;
use std::sync::Arc;

/// A value that several owners may hold. A contract sees the value alone.
#[derive(Debug, Drop)]
pub struct Shared<T> {
    cell: Arc<T>,
}

impl<T> Model for Shared<T> {
    ghost use Rattle.std.specs.Arc.{arc_value};

    ghost Value = { T };

    ghost coded = { T.code };

    ghost view = { λ it. arc_value it.cell };
}

impl<T: Drop> Shared<T> {
    /// The value in a cell of its own.
    pub fn new(alloc: Global, value: T) -> Result<Shared<T>, AllocError>
        ensures { IfOk result (λ it. it ≡ value) }
    {
        Ok(Shared {
            cell: Arc::new(alloc, value)?,
        })
    }
}

impl<T> Shared<T> {
    /// The value, to write to, if nothing else holds it.
    pub fn get_mut(&mut self) -> Option<&mut T>
        ensures* writes_back { sem 𝓛 (LendsIf (the_row T.row) T.row self.entry result (λ w. w) self.old) }
        ensures value { IfSome result (λ it. it.now ≡ self.old) }
    {
        Arc::get_mut(&mut self.cell)
    }
}

impl<T> Deref for Shared<T> {
    type Target = T;

    ghost deref_gives = { λ it value. value ≡ it };

    fn deref(&self) -> &T
        ensures { result.now ≡ self.now }
    {
        &self.cell
    }
}

impl<T: Drop> Duplicate for Shared<T> {
    /// The same value. It takes no memory; too many copies are told as want of memory.
    fn copy(&self, _alloc: Global) -> Result<Shared<T>, AllocError> {
        Ok(Shared {
            cell: self.cell.clone()?,
        })
    }
}

impl<T: Same> Same for Shared<T> {
    fn same(&self, other: &Shared<T>) -> bool {
        self.cell.same(&other.cell)
    }
}
