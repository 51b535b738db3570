//! The table of a turn. Its words are ticket and serving, both from 0, and its one slot has the value.
use crate::known::{Kept, Known, Terms};
use crate::storied::Storied;
use atomic_table::{Table, TableRule};
use std::alloc::Global;

/// The next ticket to be drawn.
pub const TICKET: usize = 0;

/// The ticket that is served.
pub const SERVING: usize = 1;

pub struct InTurn;

impl<S: Storied> TableRule<Option<Kept<S>>, Known<S, S::Entry>, Terms<S>> for InTurn {
    ghost use Rattle.ba_turn.specs.Knowing.{opening_known};
    ghost use Rattle.ba_turn.specs.Rule.{TakesTurns};

    ghost holds = { λ key. TakesTurns S.opening S.history S.room key.start.value key.allowance };

    ghost first = { λ key. opening_known key.start.value key.allowance };
}

pub type Board<S> = Table<
    Option<Kept<S>>,
    Known<S, <S as Storied>::Entry>,
    Terms<S>,
    InTurn,
    Global,
>;
