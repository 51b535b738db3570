//! Keys of two facts, of which one is recent.
ghost use Rattle.std.specs.Prelude.{◌≡◌, ◌↔◌, All, Any, IfOk, IsTrue, OnOk, length};
ghost use Rattle.ba_facts.specs.Known.{seen};
ghost use Rattle.ba_facts.specs.Shown.{IsEqual};
ghost use Rattle.ba_kernel.specs.Courses.{IsOpen};
ghost use Rattle.ba_kernel.specs.Steps.{AreEqualAt};
ghost use Rattle.ba_instant.specs.Scans.{AreEqualBy, ImprovesBy, IsKeyWithAny, IsKeyWith, IsPair, IsScan, IsTimelyKey, IsTurn, ShareKey, schema_of};
ghost use Rattle.ba_instant.specs.Offers.{IsKeyOfPair, IsKeyStep, keys_at};
ghost use Rattle.ba_instant.specs.Partners.{ArePartners};

use crate::batch::{Batch, is_timely};
use crate::recent::fact_round;
use crate::scan::Scan;
use ba_facts::{Fact, Knowledge, TermRef, number_of};
use ba_kernel::Step;
use ba_model::List;
use std::alloc::AllocError;

impl<'a> Scan<'a> {
    /// Offers the steps by keys of two facts.
    pub fn offer_keys(&self, best: &mut Option<Batch>) -> Result<(), AllocError>
        requires { IsScan self.now }
        ensures { OnOk result (ImprovesBy self.now (IsKeyStep self.now.number) best.old best.new) }
    {
        if is_timely(self.quiet, best) {
            self.offer_recent_keys(best)?;
        }
        Ok(())
    }

    /// Offers the steps by keys of two facts, of which one is recent.
    fn offer_recent_keys(&self, best: &mut Option<Batch>) -> Result<(), AllocError>
        requires { IsScan self.now }
        ensures { OnOk result (ImprovesBy self.now (IsKeyStep self.now.number) best.old best.new) }
    {
        for fact in self.recent {
            self.offer_keys_of(*fact, best)?;
        }
        Ok(())
    }

    /// Offers the steps by keys of the fact and others whose turn it is.
    fn offer_keys_of(&self, one: u32, best: &mut Option<Batch>) -> Result<(), AllocError>
        requires { IsOpen self.now.search.now.slots self.now.number self.now.branch.now }
        ensures { OnOk result (ImprovesBy self.now (IsKeyWithAny self.now one) best.old best.new) }
    {
        let partners = self.partners(one)?;
        self.offer_keys_with(one, &partners, best)
    }

    /// The same, where the facts that pass the test of some key with the fact are given.
    fn offer_keys_with(
        &self,
        one: u32,
        partners: &[u32],
        best: &mut Option<Batch>,
    ) -> Result<(), AllocError>
        requires open { IsOpen self.now.search.now.slots self.now.number self.now.branch.now }
        requires partners { ArePartners (schema_of self.now) self.now.branch.now one partners.now }
        ensures { OnOk result (ImprovesBy self.now (IsKeyWithAny self.now one) best.old best.new) }
    {
        for other in partners {
            self.offer_keys_of_two(one, *other, best)?;
        }
        Ok(())
    }

    /// Offers the steps by keys of the fact and the other, if it is that one's turn.
    fn offer_keys_of_two(
        &self,
        one: u32,
        other: u32,
        best: &mut Option<Batch>,
    ) -> Result<(), AllocError>
        requires { IsOpen self.now.search.now.slots self.now.number self.now.branch.now }
        ensures { OnOk result
            (ImprovesBy self.now (IsKeyWith self.now one other) best.old best.new) }
    {
        if self.is_pair(one, other, best) {
            self.offer_keys_between(one, other, best)?;
            self.offer_keys_between(other, one, best)?;
        }
        Ok(())
    }

    /// Whether it is the other fact's turn, keys of the two aren't too late, and they pass the test
    /// of some key.
    fn is_pair(&self, one: u32, other: u32, best: &Option<Batch>) -> bool
        ensures { IsTrue result ↔ IsPair self.now one other best.now }
    {
        self.is_turn(one, other)
            && self.is_timely_key(one, other, best)
            && self.share_key(one, other)
    }

    /// Whether the two are looked at from the first one, which is recent: two such are looked at
    /// from that of the lesser number.
    fn is_turn(&self, one: u32, other: u32) -> bool
        ensures { IsTrue result ↔ IsTurn self.now.branch.now self.now.quiet one other }
    {
        one <= other || fact_round(self.branch, other) < self.quiet
    }

    /// Offers the steps by keys of the two facts.
    fn offer_keys_between(
        &self,
        left: u32,
        right: u32,
        best: &mut Option<Batch>,
    ) -> Result<(), AllocError>
        requires { IsOpen self.now.search.now.slots self.now.number self.now.branch.now }
        ensures { OnOk result
            (ImprovesBy self.now (IsKeyOfPair self.now.number left right) best.old best.new) }
    {
        let count = self.key_count(left)?;
        for key in 0..count {
            let step = Step::Key {
                branch: self.number,
                key,
                left,
                right,
            };
            self.offer(step, best)?;
        }
        Ok(())
    }

    /// Whether keys of the two facts are of no later round than what was found.
    fn is_timely_key(&self, one: u32, other: u32, best: &Option<Batch>) -> bool
        ensures { IsTrue result ↔ IsTimelyKey self.now.branch.now one other best.now }
    {
        let round = fact_round(self.branch, one).max(fact_round(self.branch, other));
        is_timely(round, best)
    }

    /// Whether the two facts pass the test of some key of their table.
    fn share_key(&self, one: u32, other: u32) -> bool
        ensures { IsTrue result ↔ ShareKey (schema_of self.now) self.now.branch.now one other }
    {
        let Some(f) = self.branch.facts.find(one as usize) else {
            return false;
        };
        let Some(g) = self.branch.facts.find(other as usize) else {
            return false;
        };
        g.side == f.side && g.table == f.table && self.are_equal_by(f, g)
    }

    /// Whether the two facts are shown equal on some key of the first one's table.
    fn are_equal_by(&self, f: &Fact, g: &Fact) -> bool
        ensures { IsTrue result ↔ AreEqualBy (schema_of self.now) self.now.branch.now f.now g.now }
    {
        let tables = &self.search.problem().policy.schema.tables;
        match tables.find(f.table as usize) {
            Some(table) => self.are_equal_on_some(f, g, table.keys.as_slice()),
            None => false,
        }
    }

    fn are_equal_on_some(&self, f: &Fact, g: &Fact, keys: &[List<u32>]) -> bool
        ensures { IsTrue result ↔ Any (λ columns. All
            (AreEqualAt self.now.branch.now f.now.terms g.now.terms) columns) keys.now }
    {
        keys.iter()
            .any(|columns| self.are_equal_on(f, g, columns.as_slice()))
    }

    fn are_equal_on(&self, f: &Fact, g: &Fact, columns: &[u32]) -> bool
        ensures { IsTrue result
            ↔ All (AreEqualAt self.now.branch.now f.now.terms g.now.terms) columns.now }
    {
        columns
            .iter()
            .all(|column| self.are_equal_at(f, g, *column))
    }

    /// Whether the two facts are shown equal in the column.
    fn are_equal_at(&self, f: &Fact, g: &Fact, column: u32) -> bool
        ensures { IsTrue result ↔ AreEqualAt self.now.branch.now f.now.terms g.now.terms column }
    {
        match (f.terms.find(column as usize), g.terms.find(column as usize)) {
            (Some(a), Some(b)) => are_equal(&self.branch.known, a.by_ref(), b.by_ref()),
            _ => false,
        }
    }

    /// How many keys the fact's table has; none where there is no such fact or table.
    fn key_count(&self, fact: u32) -> Result<u32, AllocError>
        ensures { IfOk result
            (λ count. count ≡ length (keys_at (schema_of self.now) self.now.branch.now fact)) }
    {
        let Some(it) = self.branch.facts.find(fact as usize) else {
            return Ok(0);
        };
        let tables = &self.search.problem().policy.schema.tables;
        match tables.find(it.table as usize) {
            Some(table) => number_of(table.keys.len()),
            None => Ok(0),
        }
    }
}

/// Whether `=` is shown of the two. Most pairs aren't the same, so that this is tested first.
fn are_equal(known: &Knowledge, a: TermRef<'_>, b: TermRef<'_>) -> bool
    ensures { IsTrue result ↔ IsEqual known.now (seen a.entry) (seen b.entry) }
{
    known.same(a, b) && known.shown_not_null(a) && known.shown_not_null(b)
}
