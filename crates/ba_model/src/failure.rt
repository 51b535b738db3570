//! Why a call gave nothing.
ghost use Rattle.std.specs.Prelude.{◌≡◌};
ghost use Rattle.ba_model.specs.Readings.{Widened};
ghost use Rattle.ba_model.specs.declared.failure.Failure.TheVariants.{NoMemory};

use std::alloc::{AllocError, AllocFailed};

/// Want of memory, or a fault of the call's own kind.
#[derive(Clone, Copy, Debug, Drop, PartialEq, Eq)]
pub enum Failure<F> {
    NoMemory,
    Fault(F),
}

impl<F> Failure<F> {
    /// Want of memory, or the fault as one of a wider kind.
    pub fn widen<G: From<F>>(self) -> Failure<G>
        ensures { Widened G.from_gives self result }
    {
        match self {
            Failure::NoMemory => Failure::NoMemory,
            Failure::Fault(fault) => Failure::Fault(G::from(fault)),
        }
    }
}

impl<F> From<AllocError> for Failure<F> {
    ghost from_gives = { λ _ e. e ≡ NoMemory };

    fn from(_: AllocError) -> Failure<F> {
        Failure::NoMemory
    }
}

impl<F, T: Drop> From<AllocFailed<T>> for Failure<F> {
    ghost from_gives = { λ _ e. e ≡ NoMemory };

    fn from(_: AllocFailed<T>) -> Failure<F> {
        Failure::NoMemory
    }
}
