//! A walk over the facts of a side, one for each table of a part.
ghost use Rattle.std.specs.Prelude.{◌≡◌, ◌+◌, [], IfErr, OnOk, length, take};
ghost use Rattle.std.specs.Prelude.{List as Numbers};
ghost use Rattle.ba_facts.specs.Walks.{Composes, every};

mod atoms;
mod heads;
mod visit;

use crate::branch::Branch;
use crate::term::Side;
pub(crate) use atoms::places_of;
use ba_model::Part;
pub use visit::{Offered, Visit};

/// What an atom has to be: `Live`, an `=` that is shown or another that isn't refuted, or `Shown`.
#[derive(Clone, Copy)]
pub enum Wanted {
    Live,
    Shown,
}

/// A part whose tables are to have facts of a side, and what its atoms have to be over these.
#[derive(Clone, Copy)]
pub struct Walk<'a> {
    pub branch: &'a Branch,
    pub side: Side,
    pub part: &'a Part,
    pub wanted: Wanted,
}

impl Walk<'_> {
    /// Goes over one fact for each table of the part, from left to right, and lets the visitor do
    /// its work on those that it takes. `chosen` has a place for each table; what stands in it is
    /// written over.
    pub fn visit<V: Visit>(
        &self,
        visitor: &V,
        chosen: &mut [usize],
        state: &mut V::State,
    ) -> Result<(), V::Stop>
        requires ready { V.ready visitor.now self.now }
        requires composes { Composes self.now.branch.now self.now.side
            (V.offers visitor.now self.now)
            (V.visited visitor.now self.now) (V.stopped visitor.now self.now) }
        requires places { length chosen.old ≡ length self.now.part.now.from }
        ensures visited { OnOk result (V.visited visitor.now self.now self.now.part.now.from []
            (every self.now.branch.now) state.old state.new) }
        ensures stopped { IfErr result (V.stopped visitor.now self.now self.now.part.now.from []) }
    {
        self.go_on(visitor, self.part.from.as_slice(), chosen, 0, state)
    }

    /// Goes on with the further tables, where facts are chosen for the places before.
    fn go_on<V: Visit>(
        &self,
        visitor: &V,
        from: &[u32],
        chosen: &mut [usize],
        place: usize,
        state: &mut V::State,
    ) -> Result<(), V::Stop>
        requires ready { V.ready visitor.now self.now }
        requires composes { Composes self.now.branch.now self.now.side
            (V.offers visitor.now self.now)
            (V.visited visitor.now self.now) (V.stopped visitor.now self.now) }
        requires places { place + length from.now ≡ length chosen.old }
        ensures places { OnOk result (length chosen.new ≡ length chosen.old) }
        ensures chosen { OnOk result (take place chosen.new ≡ take place chosen.old) }
        ensures visited { OnOk result (V.visited visitor.now self.now from.now
            (take place chosen.old)
            (every self.now.branch.now) state.old state.new) }
        ensures stopped { IfErr result (V.stopped visitor.now self.now from.now
            (take place chosen.old)) }
    {
        let Some((table, rest)) = from.split_first() else {
            return visitor.end(&*self, &chosen[..place], state);
        };
        let offered = visitor.offered(&*self, &*from, &chosen[..place]);
        let mut tried = visitor.none_tried();
        for i in 0..offered.len() {
            let number = offered.get(i);
            if self.is_fact(*table, number) {
                chosen[place] = number;
                let front = &chosen[..place + 1];
                if visitor.takes(&*self, &*from, front, number, &mut tried, &*state)? {
                    self.go_on(&*visitor, rest, chosen, place + 1, state)?;
                }
            }
        }
        Ok(())
    }
}
