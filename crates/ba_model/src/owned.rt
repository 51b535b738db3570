//! Values that move and end as one pointer.
ghost use Rattle.std.specs.Prelude.{◌≡◌, IfOk};
ghost use Rattle.std.specs.Borrow.{Lends, sem};
ghost use Rattle.ba_model.specs.contracts.owned.Owned.{the_row};

use std::alloc::{AllocError, Global};
use std::marker::Model;
use std::ops::Deref;

/// A value of many parts behind one pointer, so that a function that owns it moves it and lets it go
/// as one. A contract sees the value alone.
#[derive(Debug, Drop)]
pub struct Owned<T> {
    cell: Box<T>,
}

impl<T> Model for Owned<T> {
    ghost use Rattle.std.specs.Prelude.{◌≡◌};

    ghost Value = { T };

    ghost coded = { T.code };

    ghost view = { λ it. it.cell.value };
}

impl<T: Drop> Owned<T> {
    /// The value behind a pointer.
    pub fn new(alloc: Global, value: T) -> Result<Owned<T>, AllocError>
        ensures { IfOk result (λ it. it ≡ value) }
    {
        Ok(Owned {
            cell: Box::new(alloc, value)?,
        })
    }
}

impl<T> Owned<T> {
    /// The value, to write to.
    pub fn get_mut(&mut self) -> &mut T
        ensures* writes_back { sem 𝓛 (Lends (the_row T.row) T.row self.entry result (λ w. w)) }
        ensures value { result.now ≡ self.old }
    {
        &mut self.cell
    }
}

impl<T> Deref for Owned<T> {
    type Target = T;

    ghost deref_gives = { λ it value. value ≡ it };

    fn deref(&self) -> &T
        ensures { result.now ≡ self.now }
    {
        &self.cell
    }
}
