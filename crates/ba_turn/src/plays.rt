//! The kinds of atomic step, by what each tells its pass.
ghost use Rattle.std.specs.Prelude.{ℕ};
ghost use Rattle.ba_turn.specs.Knowing.{after_split, split_known, after_join, spent_known};
ghost use Rattle.ba_turn.specs.Steps.{Draws, Looks, CallsOn, Settles};

use crate::known::{Kept, Known};
use crate::storied::Storied;
use atomic_table::{Join, Play, Split};
use std::marker::{Brand, PhantomData};

/// Draws a ticket.
pub struct Draw;

impl<S: Storied> Play<Option<Kept<S>>, Known<S, S::Entry>> for Draw {
    ghost then = { Draws };
}

/// Looks whether the pass's ticket is served, and takes the slot where it is.
pub struct Look;

impl<S: Storied> Play<Option<Kept<S>>, Known<S, S::Entry>> for Look {
    ghost then = { Looks S.opening S.history S.room };
}

/// Gives the slot back and calls the next number. The call happens here.
pub struct CallOn;

impl<S: Storied> Play<Option<Kept<S>>, Known<S, S::Entry>> for CallOn {
    ghost then = { CallsOn S.history };
}

/// Looks, with no ticket, how two joined histories lie.
pub struct Settle;

impl<S: Storied> Play<Option<Kept<S>>, Known<S, S::Entry>> for Settle {
    ghost then = { Settles };
}

/// How much of its allowance a pass hands to the one that it splits off. Each call picks it.
pub trait Share {
    ghost share: { ℕ };
}

impl Share for Brand {
    ghost share = { 0 };
}

/// Splits a pass off.
pub struct Cut<N> {
    marker: PhantomData<N>,
}

impl<S, E, N: Share> Split<Known<S, E>> for Cut<N> {
    ghost left = { after_split N.share };

    ghost right = { split_known N.share };
}

/// Joins a pass into another.
pub struct Glue;

impl<S, E> Join<Known<S, E>> for Glue {
    ghost both = { after_join };

    ghost spent = { spent_known };
}
