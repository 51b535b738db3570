//! Passes of a turn.
ghost use Rattle.std.specs.Prelude.{◌≡◌};

use crate::known::{Kept, Known};
use atomic_table::Seat;

/// The right to make calls on a turn. It goes from thread to thread by value.
/// Contracts read what it knows by `known`.
#[derive(Drop)]
pub struct Pass<S, E> {
    pub(crate) seat: Seat<Option<Kept<S>>, Known<S, E>>,
    pub(crate) number: u32,
    pub(crate) splits: u32,
    ghost same: { (number ≡ seat.me.0.number) × (splits ≡ seat.me.0.splits) },
}
