//! Entries and links.
ghost use Rattle.std.specs.Prelude.{◌≡◌, ◌<◌, IfOk, OnOk, length};
ghost use Rattle.ba_kernel.specs.Steps.{IsRoundOfEntry};
ghost use Rattle.ba_kernel.specs.declared.step.Step.TheVariants.{Entry, Link};
ghost use Rattle.ba_instant.specs.Scans.{ImprovesBy, IsScan, schema_of};
ghost use Rattle.ba_instant.specs.Offers.{IsEntryOf, IsLinkOfFact, IsLinkStep, IsRoundIn, links_at};

use crate::batch::Batch;
use crate::recent::fact_round;
use crate::scan::Scan;
use ba_facts::number_of;
use ba_kernel::Step;
use std::alloc::AllocError;

impl<'a> Scan<'a> {
    /// Offers the steps by the problem's entries, whose rounds are 1 and 2.
    pub fn offer_entries(&self, best: &mut Option<Batch>) -> Result<(), AllocError>
        requires { IsScan self.now }
        ensures { OnOk result (ImprovesBy self.now (IsEntryOf self.now.number) best.old best.new) }
    {
        if self.quiet < 2 {
            self.offer_all_entries(best)?;
        }
        Ok(())
    }

    fn offer_all_entries(&self, best: &mut Option<Batch>) -> Result<(), AllocError>
        requires { IsScan self.now }
        ensures { OnOk result (ImprovesBy self.now (IsEntryOf self.now.number) best.old best.new) }
    {
        for entry in 0..self.search.problem().entries.len() {
            self.offer_entry(entry as u64, best)?;
        }
        Ok(())
    }

    /// Offers the step by the entry, unless it is told.
    fn offer_entry(&self, entry: u64, best: &mut Option<Batch>) -> Result<(), AllocError>
        requires look { IsScan self.now }
        requires there { entry < length self.now.search.now.problem.entries }
        ensures { OnOk result
            (ImprovesBy self.now (λ it. it ≡ Entry self.now.number entry) best.old best.new) }
    {
        if self.told.has_entry(entry) {
            return Ok(());
        }
        let round = self.entry_round(entry);
        if round <= self.quiet {
            return Ok(());
        }
        let step = Step::Entry {
            branch: self.number,
            entry,
        };
        self.offer_at(u64::from(round), step, best)
    }

    fn entry_round(&self, entry: u64) -> u32
        requires { entry < length self.now.search.now.problem.entries }
        ensures { IsRoundOfEntry self.now.search.now.problem entry result }
    {
        let problem = self.search.problem();
        problem.entry_round(problem.entries.get(entry as usize))
    }

    /// Offers the steps by links of recent facts.
    pub fn offer_links(&self, best: &mut Option<Batch>) -> Result<(), AllocError>
        requires { IsScan self.now }
        ensures { OnOk result (ImprovesBy self.now (IsLinkStep self.now.number) best.old best.new) }
    {
        for fact in self.recent {
            self.offer_links_of(*fact, best)?;
        }
        Ok(())
    }

    /// Offers the steps by links of the fact.
    fn offer_links_of(&self, fact: u32, best: &mut Option<Batch>) -> Result<(), AllocError>
        requires { IsScan self.now }
        ensures { OnOk result
            (ImprovesBy self.now (IsLinkOfFact self.now.number fact) best.old best.new) }
    {
        let round = u64::from(fact_round(self.branch, fact)) + 1;
        let count = self.link_count(fact)?;
        for link in 0..count {
            self.offer_link(round, link, fact, best)?;
        }
        Ok(())
    }

    /// Offers the step by the link of the fact, which is of this round, unless it is told.
    fn offer_link(
        &self,
        round: u64,
        link: u32,
        fact: u32,
        best: &mut Option<Batch>,
    ) -> Result<(), AllocError>
        requires look { IsScan self.now }
        requires round { IsRoundIn self.now.search.now (Link self.now.number link fact) round }
        ensures { OnOk result
            (ImprovesBy self.now (λ it. it ≡ Link self.now.number link fact) best.old best.new) }
    {
        if self.told.has_link(fact, link) {
            return Ok(());
        }
        let step = Step::Link {
            branch: self.number,
            link,
            fact,
        };
        self.offer_at(round, step, best)
    }

    /// How many links the fact's table has; none where there is no such fact or table.
    fn link_count(&self, fact: u32) -> Result<u32, AllocError>
        ensures { IfOk result
            (λ count. count ≡ length (links_at (schema_of self.now) self.now.branch.now fact)) }
    {
        let Some(it) = self.branch.facts.find(fact as usize) else {
            return Ok(0);
        };
        let tables = &self.search.problem().policy.schema.tables;
        match tables.find(it.table as usize) {
            Some(table) => number_of(table.links.len()),
            None => Ok(0),
        }
    }
}
