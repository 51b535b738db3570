//! Which facts may pass the test of a key with a fact.
ghost use Rattle.std.specs.Prelude.{ℕ, Contains, IfOk, IfSome, IsTrue, OnOk};
ghost use Rattle.ba_facts.specs.Laid.{IsLaid, IsTermOf};
ghost use Rattle.ba_facts.specs.declared.branch.Branch.{Branch as ABranch};
ghost use Rattle.ba_kernel.specs.Courses.{IsOpen};
ghost use Rattle.ba_instant.specs.Partners.{ArePartners, Gains, HasAny, IsEqualIn, IsEqualOn, IsEqualOnAny};

use crate::recent::recent_facts;
use crate::scan::Scan;
use ba_facts::{Branch, Fact, number_of};
use ba_kernel::Search;
use ba_model::List;
use std::alloc::{AllocError, Global};

impl<'a> Scan<'a> {
    /// The facts that pass the test of some key with the fact, and maybe others: if it can be told,
    /// those that have a term of the same class in a key's first column, else all.
    pub fn partners(&self, one: u32) -> Result<Vec<u32>, AllocError>
        requires { IsOpen self.now.search.now.slots self.now.number self.now.branch.now }
        ensures { IfOk result (λ it. ArePartners self.now.search.now.problem.policy.schema
            self.now.branch.now one it.items) }
    {
        match self.near_partners(one)? {
            Some(partners) => Ok(partners),
            None => recent_facts(self.alloc, self.branch, 0, 0),
        }
    }

    fn near_partners(&self, one: u32) -> Result<Option<Vec<u32>>, AllocError>
        requires { IsOpen self.now.search.now.slots self.now.number self.now.branch.now }
        ensures { IfOk result (λ it. IfSome it (λ partners. ArePartners
            self.now.search.now.problem.policy.schema self.now.branch.now one partners.items)) }
    {
        facts_are_laid(self.search);
        let Some(fact) = self.branch.facts.find(one as usize) else {
            return Ok(None);
        };
        let tables = &self.search.problem().policy.schema.tables;
        match tables.find(fact.table as usize) {
            Some(table) => equal_facts(self.alloc, self.branch, fact, table.keys.as_slice()),
            None => Ok(None),
        }
    }
}

/// The terms of the facts of each open branch are its unknowns, fact by fact: its course says so.
pub fn facts_are_laid(search: &Search)
    ensures { (number : ℕ) (b : ABranch) → IsOpen search.now.slots number b → IsLaid b }
{
    let _steps = search.steps();
}

/// The facts that are shown equal to this one on some key, and maybe others. Nothing where they
/// can't be told by a key's first column.
fn equal_facts(
    alloc: Global,
    branch: &Branch,
    fact: &Fact,
    keys: &[List<u32>],
) -> Result<Option<Vec<u32>>, AllocError>
    requires { IsLaid branch.now }
    ensures { IfOk result (λ it. IfSome it (λ facts. (number : ℕ)
        → IsEqualOnAny branch.now fact.now keys.now number → Contains facts.items number)) }
{
    let mut facts = Vec::new(alloc);
    for columns in keys {
        if !add_equal(branch, fact, columns.as_slice(), &mut facts)? {
            return Ok(None);
        }
    }
    Ok(Some(facts))
}

/// Adds the facts that are shown equal to this one on the columns, and maybe others. Answers
/// whether they could be told.
fn add_equal(
    branch: &Branch,
    fact: &Fact,
    columns: &[u32],
    facts: &mut Vec<u32>,
) -> Result<bool, AllocError>
    requires { IsLaid branch.now }
    ensures { IfOk result (λ told. IsTrue told
        → Gains facts.old.items facts.new.items (IsEqualOn branch.now fact.now columns.now)) }
{
    match columns.first() {
        Some(column) => add_equal_in(branch, fact, *column, facts),
        None => Ok(false),
    }
}

fn add_equal_in(
    branch: &Branch,
    fact: &Fact,
    column: u32,
    facts: &mut Vec<u32>,
) -> Result<bool, AllocError>
    requires { IsLaid branch.now }
    ensures { IfOk result (λ told. IsTrue told
        → Gains facts.old.items facts.new.items (IsEqualIn branch.now fact.now column)) }
{
    let Some(term) = fact.terms.find(column as usize) else {
        return Ok(false);
    };
    if !branch.known.is_only_class(term.by_ref()) {
        return Ok(false);
    }
    let members = branch.known.members(term.by_ref())?;
    add_holders(branch, &members, facts)?;
    Ok(true)
}

/// Adds the facts of which one of the unknowns is a term.
fn add_holders(branch: &Branch, unknowns: &[u32], facts: &mut Vec<u32>) -> Result<(), AllocError>
    requires { IsLaid branch.now }
    ensures { OnOk result (Gains facts.old.items facts.new.items (HasAny branch.now unknowns.now)) }
{
    for unknown in unknowns {
        add_holder(branch, *unknown, facts)?;
    }
    Ok(())
}

/// Adds the fact of which the unknown is a term, if there is one.
fn add_holder(branch: &Branch, unknown: u32, facts: &mut Vec<u32>) -> Result<(), AllocError>
    requires { IsLaid branch.now }
    ensures { OnOk result
        (Gains facts.old.items facts.new.items (IsTermOf branch.now.facts unknown)) }
{
    match branch.holder(unknown) {
        Some(number) => {
            facts.push(number_of(number)?)?;
            Ok(())
        }
        None => Ok(()),
    }
}
