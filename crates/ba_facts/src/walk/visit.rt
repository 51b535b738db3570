//! What a walk is made for.
ghost use Rattle.std.specs.Prelude.{◌≡◌, ◌<◌, ◌++◌, ◌∷◌, [], ℕ, All, Contains, IfErr, IfOk, IsTrue, OnOk, length, slice_index_or};
ghost use Rattle.ba_facts.specs.Walks.{IsSpared, every, listed};

use crate::walk::Walk;

/// The facts that are offered for a place, by number.
#[derive(Clone, Copy)]
pub enum Offered<'a> {
    /// All that there are, of which the number is given.
    Every(usize),
    These(&'a [u32]),
}

impl Offered<'_> {
    pub(crate) fn len(&self) -> usize
        ensures { result ≡ length (listed self.now) }
    {
        match self {
            Offered::Every(count) => *count,
            Offered::These(numbers) => numbers.len(),
        }
    }

    pub(crate) fn get(&self, i: usize) -> usize
        requires { i < length (listed self.now) }
        ensures { result ≡ slice_index_or (listed self.now) i 0 }
    {
        match self {
            Offered::Every(_) => i,
            Offered::These(numbers) => match numbers.get(i) {
                Some(number) => *number as usize,
                None => 0,
            },
        }
    }
}

/// What comes of the facts that a walk goes over. At each place the walk asks which facts are
/// offered, and of each that is one of the table whether it is taken; at the end the visitor does
/// its work on the chosen facts. `from` has the tables of this place and of those behind it.
pub trait Visit {
    ghost use Rattle.std.specs.Prelude.{List as Numbers};
    ghost use Rattle.ba_facts.specs.declared.walk.Walk.{Walk as AnyWalk};

    /// What came of the facts so far.
    type State;

    /// What is kept of the facts that were tried at a place.
    type Tried: Drop;

    /// Why a walk ends before it has gone over all.
    type Stop;

    /// What is known before the walk.
    ghost ready: { Self → AnyWalk → Type 0 };

    /// Of the tables, the chosen facts, and numbers of facts: these are offered for the place.
    ghost offers: { Self → AnyWalk → Numbers ℕ → Numbers ℕ → Numbers ℕ → Type 0 };

    /// The numbers of the facts that were tried.
    ghost numbers: { Self.Tried → Numbers ℕ };

    /// Of the tables, the chosen facts, and numbers of facts for the first table: what came of the
    /// facts that complete the chosen ones so.
    ghost visited: { Self → AnyWalk → Numbers ℕ → Numbers ℕ → Numbers ℕ → Self.State → Self.State →
        Type 0 };

    /// Of the tables and the chosen facts: why the walk may end at facts that complete these.
    ghost stopped: { Self → AnyWalk → Numbers ℕ → Numbers ℕ → Self.Stop → Type 0 };

    /// The facts to be offered for the next place.
    fn offered<'a>(&'a self, walk: &'a Walk<'a>, from: &[u32], chosen: &[usize]) -> Offered<'a>
        requires { ready self.now walk.now }
        ensures { offers self.now walk.now from.now chosen.now (listed result) };

    /// At a place nothing was tried yet.
    fn none_tried(&self) -> Self::Tried
        ensures { numbers result ≡ [] };

    /// Whether the walk goes on behind the fact of the number, which is the last of the chosen
    /// ones. Where it doesn't, nothing is lost.
    fn takes(
        &self,
        walk: &Walk<'_>,
        from: &[u32],
        chosen: &[usize],
        number: usize,
        tried: &mut Self::Tried,
        state: &Self::State,
    ) -> Result<bool, Self::Stop>
        requires { ready self.now walk.now }
        ensures tried { OnOk result (All (Contains (numbers tried.old ++ number ∷ []))
            (numbers tried.new)) }
        ensures spared { IfOk result (λ taken. (IsTrue taken → ⊥) →
            IsSpared (offers self.now walk.now from.now) (visited self.now walk.now from.now)
            chosen.now number (numbers tried.old) state.now) }
        ensures stopped { IfErr result (λ stop. (front : Numbers ℕ) →
            chosen.now ≡ front ++ number ∷ [] →
            stopped self.now walk.now from.now front stop) };

    /// Does the work on the chosen facts, one for each table of the part.
    fn end(
        &self,
        walk: &Walk<'_>,
        chosen: &[usize],
        state: &mut Self::State,
    ) -> Result<(), Self::Stop>
        requires { ready self.now walk.now }
        ensures visited { OnOk result (visited self.now walk.now [] chosen.now
            (every walk.now.branch.now) state.old state.new) }
        ensures stopped { IfErr result (stopped self.now walk.now [] chosen.now) };
}
