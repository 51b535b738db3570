//! The value while a pass has the turn.
use crate::known::Kept;

/// What a pass has taken. Only `Turn::put` spends it: it can't be dropped.
pub struct Held<S> {
    pub(crate) kept: Kept<S>,
}

impl<S> Held<S> {
    ghost use Rattle.std.specs.Prelude.{◌≡◌};
    ghost use Rattle.std.specs.Borrow.{sem, Lends};
    ghost use Rattle.ba_turn.specs.contracts.held.Held.{the_row};
    ghost use Rattle.ba_turn.specs.Passes.{value_of, with_value};

    /// Lends the value.
    pub fn value(&mut self) -> &mut S
        ensures* lends { sem 𝓛 (Lends (the_row S.row) S.row self.entry result (with_value self.old)) }
        ensures value { result.now ≡ value_of self.old }
    {
        let kept = &mut self.kept;
        &mut kept.value
    }
}
