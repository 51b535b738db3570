//! Whether a part of the goal can be mapped to facts at all.
ghost use Rattle.std.specs.Prelude.{◌≡◌, ◌↔◌, [], All, IfOk, IsTrue};
ghost use Rattle.ba_facts.specs.declared.term.Side.TheVariants.{Two};
ghost use Rattle.ba_instant.specs.Spreads.{HasFact, NoneReach};

use crate::alike::has_alike;
use crate::outlook::{Outlook, is_worthwhile};
use ba_facts::{Branch, Fact, Offered, Side, Term, Visit, Walk, Wanted};
use ba_model::{List, Part};
use std::alloc::{AllocError, Global};

/// A part of the goal that is mapped to facts of side Two, with the row for its head. Of facts that
/// are alike only the first is tried.
#[derive(Clone, Copy)]
pub struct Reach<'a> {
    pub alloc: Global,
    pub branch: &'a Branch,
    pub part: &'a Part,
    pub row: &'a List<Term>,
}

/// Why the walk ends before it has gone over all facts.
#[derive(Drop)]
pub enum Ended {
    /// Some facts show the atoms.
    Reached,
    NoMemory,
}

impl Visit for Reach<'_> {
    ghost use Rattle.std.specs.Prelude.{◌≡◌};
    ghost use Rattle.ba_facts.specs.Walks.{every};
    ghost use Rattle.ba_instant.specs.Spreads.{IsWalkFor, NoneReachAmong};

    type State = ();

    type Tried = Vec<usize>;

    type Stop = Ended;

    ghost ready = { λ own walk. IsWalkFor own walk };

    ghost offers = { λ own walk from chosen numbers. numbers ≡ every own.branch.now };

    ghost numbers = { λ tried. tried.items };

    ghost visited = { λ own walk from chosen numbers old new.
        NoneReachAmong own from chosen numbers };

    ghost stopped = { λ own walk from chosen stop. Unit {0} };

    fn offered<'a>(&'a self, _walk: &'a Walk<'a>, _from: &[u32], _chosen: &[usize]) -> Offered<'a> {
        Offered::Every(self.branch.facts.len())
    }

    fn none_tried(&self) -> Vec<usize> {
        Vec::new(self.alloc)
    }

    /// A fact that is alike to one of those that were tried isn't taken.
    fn takes(
        &self,
        walk: &Walk<'_>,
        _from: &[u32],
        chosen: &[usize],
        number: usize,
        tried: &mut Vec<usize>,
        _state: &(),
    ) -> Result<bool, Ended> {
        if walk.is_lost(chosen, Some(self.row)) {
            return Ok(false);
        }
        if has_alike(self.branch, tried, 0, number) {
            return Ok(false);
        }
        match tried.push(number) {
            Ok(()) => Ok(true),
            Err(_) => Err(Ended::NoMemory),
        }
    }

    fn end(&self, walk: &Walk<'_>, chosen: &[usize], _state: &mut ()) -> Result<(), Ended> {
        if walk.is_met(chosen) {
            return Err(Ended::Reached);
        }
        Ok(())
    }
}

impl Reach<'_> {
    /// Whether there may be facts that show the part's atoms and give the row.
    pub fn is_reached(&self) -> Result<bool, AllocError>
        ensures { IfOk result
            (λ found. (IsTrue found → ⊥) → NoneReach self.now self.now.part.now.from []) }
    {
        if !self.have_facts(self.part.from.as_slice()) {
            return Ok(false);
        }
        let walk = Walk {
            branch: self.branch,
            side: Side::Two,
            part: self.part,
            wanted: Wanted::Shown,
        };
        if walk.is_lost(&[], Some(self.row)) {
            return Ok(false);
        }
        if is_worthwhile(self.part, true) {
            let outlook = Outlook {
                alloc: self.alloc,
                walk,
                row: Some(self.row),
            };
            let bleak = outlook.is_bleak()?;
            return Ok(!bleak);
        }
        let mut chosen = vec![in self.alloc; 0; self.part.from.len()]?;
        match walk.visit(self, &mut chosen, &mut ()) {
            Ok(()) => Ok(false),
            Err(Ended::Reached) => Ok(true),
            Err(Ended::NoMemory) => Err(AllocError),
        }
    }

    /// Whether each of the tables has a fact on side Two.
    fn have_facts(&self, tables: &[u32]) -> bool
        ensures { IsTrue result ↔ All (HasFact self.now.branch.now) tables.now }
    {
        tables.iter().all(|table| self.has_fact(*table))
    }

    #[tactic(auto, unfolding(crate::specs::Spreads::HasFact))]
    fn has_fact(&self, table: u32) -> bool
        ensures { IsTrue result ↔ HasFact self.now.branch.now table }
    {
        let facts = self.branch.facts.as_slice();
        facts.iter().any(|fact| is_of(fact, table))
    }
}

/// Whether the fact is one of the table on side Two.
fn is_of(fact: &Fact, table: u32) -> bool
    ensures { IsTrue result ↔ ((fact.now.side ≡ Two) × (fact.now.table ≡ table)) }
{
    fact.side == Side::Two && fact.table == table
}
