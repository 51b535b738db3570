//! The lock.
ghost use Rattle.std.specs.Prelude.{◌≡◌};

use crate::held::Held;
use crate::known::{Kept, Terms};
use crate::method::Method;
use crate::pass::Pass;
use crate::plays::{CallOn, Cut, Draw, Glue, Look, Settle, Share};
use crate::rule::{Board, SERVING, TICKET};
use crate::storied::Storied;
use atomic_table::Table;
use std::alloc::{AllocError, Global};
use std::hint::spin_loop;
use std::marker::Brand;
use std::snapshot::Snapshot;
use std::sync::Wait;

// How often a waiting thread looks before it sleeps: a few microseconds, as long as it takes to be woken.
const LOOKS: u32 = 400;

/// A value that threads call one at a time, in the order of the tickets that their passes draw.
/// It keeps the number of each call's pass beside the value.
#[derive(Drop)]
pub struct Turn<S: Storied> {
    pub(crate) table: Board<S>,
    ghost sized: { (table.shared.table_id.words ≡ 2) × (table.shared.table_id.slots ≡ 1) },
}

impl<S: Storied> Turn<S> {
    ghost use mathlib.Core.List.{IsPrefix};
    ghost use Rattle.std.specs.Prelude.{ℕ, ◌+◌, ◌^◌, ◌<◌, ◌≤◌, [], ◌∷◌, ◌++◌, map, length, IfOk};
    ghost use Rattle.ba_turn.specs.History.{number_of, entry_of, calls_by, HasCalls, AreDistinct};
    ghost use Rattle.ba_turn.specs.Knowing.{opening_known, after_take, after_put, after_split, split_known, after_join, SumsToAllowance, numbers_of, HasAllCalls};
    ghost use Rattle.ba_turn.specs.declared.known.Known.{Known};
    ghost use Rattle.ba_turn.specs.Passes.{known_by, start_of, allowance_of, value_of, IsFree, HasTurn, IsHeldAt, IsGrown, MakesCall};

    /// A turn over a value with no history, for `allowance` calls, and its opening pass, which has the number 0.
    /// All memory that the calls will need is asked for here. Where it is refused, the value is dropped.
    pub fn new(
        alloc: Global,
        mut value: S,
        allowance: u32,
    ) -> Result<(Turn<S>, Pass<S, S::Entry>), AllocError>
    where
        S: Drop,
        requires no_history { S.history value ≡ [] }
        ensures opening { IfOk result (λ r. S.opening (start_of r.0) ≡ S.opening value) }
        ensures allowance { IfOk result (λ r. allowance_of r.0 ≡ allowance) }
        ensures free { IfOk result (λ r. IsFree r.0 r.1) }
        ensures known { IfOk result (λ r. known_by r.1 ≡ opening_known (start_of r.0) allowance) }
        ensures sums { IfOk result (λ r. SumsToAllowance (known_by r.1)) }
    {
        value.reserve(allowance)?;
        let terms = Terms {
            start: Snapshot::of(&value),
            allowance: allowance as u64,
        };
        let by = Vec::with_capacity(alloc, allowance as usize)?;
        let mut slots = Vec::with_capacity(alloc, 1)?;
        slots.push_reserved(Some(Kept { value, by }));
        let Ok((table, seat)) = Table::new(alloc, &[0, 0], slots, &terms) else {
            return Err(AllocError);
        };
        let pass = Pass {
            seat,
            number: 0,
            splits: 0,
        };
        Ok((Turn { table }, pass))
    }

    /// Draws a number, which costs the pass one call of its allowance, and waits until it is called.
    /// The value then stands at a history that begins with all that the pass has seen.
    pub fn take<R: Wait>(&self, rt: &R, pass: &mut Pass<S, S::Entry>) -> Held<S>
        requires free { IsFree self.now pass.old }
        requires left { 0 < (known_by pass.old).left }
        ensures turn { HasTurn self.now pass.new }
        ensures known { known_by pass.new
            ≡ after_take (known_by pass.new).ticket (known_by pass.new).found (known_by pass.old) }
        ensures seen { IsPrefix (known_by pass.old).seen (known_by pass.new).found }
        ensures below { length (known_by pass.new).found < allowance_of self.now }
        ensures value { IsHeldAt S.opening S.history S.room self.now pass.new result }
        ensures room { 0 < S.room (value_of result) }
    {
        let shared = &self.table.shared;
        let ticket = shared.fetch_add::<Draw>(&mut pass.seat, TICKET, 1);
        for _ in rt.forever() {
            let serving = shared.load::<Look>(&mut pass.seat, SERVING);
            if serving == ticket {
                let Some(kept) = shared.exchange(&mut pass.seat, 0, None) else {
                    unreachable!()
                };
                return Held { kept };
            }
            self.wait_while(rt, serving);
        }
        unreachable!()
    }

    // Whether another number is served within some looks.
    fn is_soon_past(&self, serving: u64) -> bool {
        for _ in 0..LOOKS {
            if self.table.shared.peek(SERVING) != serving {
                return true;
            }
            spin_loop();
        }
        false
    }

    // Sleeps while this number is served. It may also return for no reason.
    fn wait_while<R: Wait>(&self, rt: &R, serving: u64) {
        if !self.is_soon_past(serving) {
            self.table
                .shared
                .park(rt, SERVING, (serving % (1 << 32)) as u32);
        }
    }

    // Wakes those that wait, once this number was served. Nobody sleeps on it where no later ticket is drawn:
    // who draws one after this look sees the next number.
    fn wake_waiting(&self, served: u64) {
        if self.table.shared.peek(TICKET).saturating_sub(served) > 1 {
            self.table.shared.wake_all(SERVING);
        }
    }

    /// Puts the value back with one entry more, and calls the next number. The call happens at that step:
    /// the pass has then seen the whole history up to its entry, and of its number the history has just its own calls.
    /// So a whole call, from `take` to `put`, makes the call by which the value has grown.
    pub fn put(&self, pass: &mut Pass<S, S::Entry>, held: Held<S>)
        requires turn { HasTurn self.now pass.old }
        requires grown { (e : S.Entry) × IsGrown S.opening S.history S.room self.now pass.old held e }
        ensures free { IsFree self.now pass.new }
        ensures known { (e : S.Entry) → S.history (value_of held) ≡ map entry_of (known_by pass.old).found ++ e ∷ []
            → known_by pass.new ≡ after_put e (known_by pass.old) }
        ensures history { map entry_of (known_by pass.new).seen ≡ S.history (value_of held) }
        ensures seen { IsPrefix (known_by pass.old).seen (known_by pass.old).found }
        ensures own { calls_by (known_by pass.new).number (known_by pass.new).seen ≡ (known_by pass.new).made }
        ensures sums { SumsToAllowance (known_by pass.new) }
        // Whatever the pass knew before `take`: the second premise is a clause of `take`.
        ensures call { (v : Known S S.Entry) (e : S.Entry) → 0 < v.left
            → known_by pass.old ≡ after_take (known_by pass.old).ticket (known_by pass.old).found v
            → S.history (value_of held) ≡ map entry_of (known_by pass.old).found ++ e ∷ []
            → MakesCall v (known_by pass.new) e }
    {
        let Held { mut kept } = held;
        kept.by.push_reserved(pass.number);
        let shared = &self.table.shared;
        let nothing = shared.exchange(&mut pass.seat, 0, Some(kept));
        let None = nothing else { unreachable!() };
        let served = shared.fetch_add::<CallOn>(&mut pass.seat, SERVING, 1);
        self.wake_waiting(served);
    }

    /// A whole call: waits for the turn, makes the call and puts the value back.
    /// All that the pass has then seen is the history of a value of this type, so it has what the type keeps of histories.
    pub fn call<R: Wait, M: Method<S>>(
        &self,
        rt: &R,
        pass: &mut Pass<S, S::Entry>,
        method: M,
    ) -> M::Answer
        requires free { IsFree self.now pass.old }
        requires left { 0 < (known_by pass.old).left }
        ensures free { IsFree self.now pass.new }
        ensures made { MakesCall (known_by pass.old) (known_by pass.new) (M.entry method result) }
        ensures value { (s : S) × (S.opening s ≡ S.opening (start_of self.now)) × (S.history s ≡ map entry_of (known_by pass.new).seen) }
    {
        let mut held = self.take(rt, pass);
        let answer = method.call(held.value());
        self.put(pass, held);
        answer
    }

    // The allowance stands in the proof alone: it is the share.
    fn split_share<N: Share>(
        &self,
        pass: &mut Pass<S, S::Entry>,
        allowance: u32,
    ) -> Pass<S, S::Entry>
        requires share { allowance ≡ N.share }
        requires free { IsFree self.now pass.old }
        requires opening { (known_by pass.old).number ≡ 0 }
        requires splits { (known_by pass.old).splits + 1 < 2 ^ 32 }
        requires left { allowance ≤ (known_by pass.old).left }
        ensures free { IsFree self.now pass.new }
        ensures known { known_by pass.new ≡ after_split allowance (known_by pass.old) }
        ensures new { IsFree self.now result }
        ensures new_known { known_by result ≡ split_known allowance (known_by pass.old) }
    {
        let _ = allowance;
        let seat = self.table.shared.split_seat::<Cut<N>>(&mut pass.seat);
        pass.splits += 1;
        Pass {
            seat,
            number: pass.splits,
            splits: 0,
        }
    }

    /// Splits a pass off the opening pass: it gets this much of the allowance and the next number, and has seen as much.
    pub fn split(&self, pass: &mut Pass<S, S::Entry>, allowance: u32) -> Pass<S, S::Entry>
        requires free { IsFree self.now pass.old }
        requires opening { (known_by pass.old).number ≡ 0 }
        requires splits { (known_by pass.old).splits + 1 < 2 ^ 32 }
        requires left { allowance ≤ (known_by pass.old).left }
        ensures free { IsFree self.now pass.new }
        ensures known { known_by pass.new ≡ after_split allowance (known_by pass.old) }
        ensures new { IsFree self.now result }
        ensures new_known { known_by result ≡ split_known allowance (known_by pass.old) }
    {
        self.split_share::<Brand>(pass, allowance)
    }

    /// Joins a pass into the opening pass, which keeps the longer of the two histories and the joined number's calls.
    /// Its own number and those that it joined differ. Once it has joined all that it split off,
    /// its own calls and those of the joined passes are all calls.
    pub fn join(&self, pass: &mut Pass<S, S::Entry>, other: Pass<S, S::Entry>)
        requires free { IsFree self.now pass.old × IsFree self.now other }
        requires opening { (known_by pass.old).number ≡ 0 }
        ensures free { IsFree self.now pass.new }
        ensures known { known_by pass.new ≡ after_join (known_by pass.old) (known_by other) }
        ensures seen { IsPrefix (known_by pass.old).seen (known_by pass.new).seen }
        ensures other { IsPrefix (known_by other).seen (known_by pass.new).seen }
        ensures sums { SumsToAllowance (known_by pass.new) }
        ensures distinct { AreDistinct (numbers_of (known_by pass.new)) }
        ensures whole { HasAllCalls (known_by pass.new) }
    {
        let Pass { seat, .. } = other;
        let shared = &self.table.shared;
        shared.join_seat::<Glue>(&mut pass.seat, seat);
        shared.load::<Settle>(&mut pass.seat, TICKET);
    }

    /// Gives the value with all calls, and the number of each call's pass, once the whole allowance was spent or has come back to this pass.
    /// Where this is the opening pass and has joined all that it split off, its own calls and those of the joined passes are all calls.
    pub fn close(self, pass: Pass<S, S::Entry>) -> (S, Vec<u32>)
        requires free { IsFree self pass }
        requires all { (known_by pass).left + length (known_by pass).seen ≡ allowance_of self }
        ensures opening { S.opening result.0 ≡ S.opening (start_of self) }
        ensures history { S.history result.0 ≡ map entry_of (known_by pass).seen }
        ensures numbers { result.1.items ≡ map number_of (known_by pass).seen }
        ensures own { calls_by (known_by pass).number (known_by pass).seen ≡ (known_by pass).made }
        ensures joined { HasCalls (known_by pass).seen (known_by pass).joined }
        ensures distinct { AreDistinct (numbers_of (known_by pass)) }
        ensures whole { HasAllCalls (known_by pass) }
    {
        let Turn { table } = self;
        let Pass { seat, .. } = pass;
        let mut closed = table.close_with(seat);
        let Some(kept) = closed.take(0) else {
            unreachable!()
        };
        closed.free();
        let Kept { value, by } = kept;
        (value, by)
    }
}
