// Why a plan gave no answer.
use ba_model::Str;
use std::alloc::AllocError;

/// Why a plan gave no answer.
#[derive(Debug, Drop)]
pub enum Stop<E> {
    /// What was read is refused.
    Refused(E),
    /// This file could not be read: it is the last name asked for, and the count of faults rose.
    Read(Str),
    /// This file has more bytes than the limit: it is the last name asked for.
    TooLong(Str, u64),
    /// There was no memory.
    NoMemory,
}

impl<E> From<AllocError> for Stop<E> {
    ghost use Rattle.std.specs.Prelude.{◌≡◌};
    ghost use Rattle.ba_plan.specs.declared.stop.Stop.TheVariants.{NoMemory};

    ghost from_gives = { λ _ e. e ≡ NoMemory };

    fn from(_: AllocError) -> Self {
        Stop::NoMemory
    }
}
