//! Splits by atoms of a part's live mappings: of those that differ only in facts that are alike one
//! is looked for, and then each atom over the facts that are alike to those that it names.
ghost use Rattle.std.specs.Prelude.{◌≡◌, ◌↔◌, [], IfOk, IsTrue, OnOk, map};
ghost use Rattle.ba_facts.specs.Known.{seen};
ghost use Rattle.ba_facts.specs.Matches.{Under, terms_at};
ghost use Rattle.ba_instant.specs.Scans.{ImprovesBy, IsScan};
ghost use Rattle.ba_instant.specs.Spreads.{AreChoices, IsAt, IsLikeSplit, IsLikeSplits, IsOpenOf, IsOver, IsSplitOf, NamesPlace};

use crate::alike::{has_alike, likes_of};
use crate::batch::Batch;
use crate::outlook::{Outlook, is_worthwhile};
use crate::scan::Scan;
use ba_facts::{Branch, Offered, Side, Term, TermRef, Visit, Walk, Wanted, numbers_of};
use ba_model::{Atom, List, Op, Operand, Part};
use std::alloc::{AllocError, Global};

/// With how many of those that were tried before it a fact for the last place is compared.
const LAST_TRIED: usize = 4;

/// A part that is mapped to facts of a side, with the row, if one is given, for its head. Of facts
/// that are alike mostly only the first is chosen.
#[derive(Clone, Copy)]
pub struct Spread<'a> {
    pub scan: &'a Scan<'a>,
    pub part: &'a Part,
    pub side: Side,
    pub row: Option<&'a List<Term>>,
}

impl Visit for Spread<'_> {
    ghost use Rattle.std.specs.Prelude.{◌≡◌};
    ghost use Rattle.ba_facts.specs.Walks.{every};
    ghost use Rattle.ba_facts.specs.declared.walk.Wanted.TheVariants.{Live};
    ghost use Rattle.ba_instant.specs.Scans.{ImprovesBy, IsScan, IsWalkOf};
    ghost use Rattle.ba_instant.specs.Spreads.{IsSplitAmong};

    type State = Option<Batch>;

    type Tried = Vec<usize>;

    type Stop = AllocError;

    ghost ready = { λ own walk.
        IsScan own.scan.now × IsWalkOf own.scan.now own.side own.part.now Live walk };

    ghost offers = { λ own walk from chosen numbers. numbers ≡ every own.scan.now.branch.now };

    ghost numbers = { λ tried. tried.items };

    ghost visited = { λ own walk from chosen numbers old new.
        ImprovesBy own.scan.now (IsSplitAmong own from chosen numbers) old new };

    ghost stopped = { λ own walk from chosen stop. Unit {0} };

    fn offered<'a>(&'a self, _walk: &'a Walk<'a>, _from: &[u32], _chosen: &[usize]) -> Offered<'a> {
        Offered::Every(self.scan.branch.facts.len())
    }

    fn none_tried(&self) -> Vec<usize> {
        Vec::new(self.scan.alloc)
    }

    /// A fact that is alike to one of those that were tried isn't taken. At the last place this
    /// isn't asked of many, since it takes as long there as what it spares.
    fn takes(
        &self,
        walk: &Walk<'_>,
        from: &[u32],
        chosen: &[usize],
        number: usize,
        tried: &mut Vec<usize>,
        _best: &Option<Batch>,
    ) -> Result<bool, AllocError> {
        if walk.is_lost(chosen, self.row) {
            return Ok(false);
        }
        let first = first_compared(from, tried);
        if has_alike(self.scan.branch, tried, first, number) {
            return Ok(false);
        }
        tried.push(number)?;
        Ok(true)
    }

    fn end(
        &self,
        walk: &Walk<'_>,
        chosen: &[usize],
        best: &mut Option<Batch>,
    ) -> Result<(), AllocError> {
        if !walk.is_met(chosen) || !walk.has_row(chosen, self.row) {
            return Ok(());
        }
        let facts = numbers_of(self.scan.alloc, chosen)?;
        let conds = self.part.conds.as_slice();
        self.scan.offer_likes(facts.as_slice(), conds, best)?;
        Ok(())
    }
}

impl<'a> Spread<'a> {
    /// Offers the splits by atoms of the part's live mappings.
    pub fn offer(&self, best: &mut Option<Batch>) -> Result<(), AllocError>
        requires { IsScan self.now.scan.now }
        ensures { OnOk result
            (ImprovesBy self.now.scan.now (IsSplitOf self.now) best.old best.new) }
    {
        let walk = Walk {
            branch: self.scan.branch,
            side: self.side,
            part: self.part,
            wanted: Wanted::Live,
        };
        if walk.is_lost(&[], self.row) {
            return Ok(());
        }
        if is_worthwhile(self.part, self.row.is_some()) {
            let outlook = Outlook {
                alloc: self.scan.alloc,
                walk,
                row: self.row,
            };
            if outlook.is_bleak()? {
                return Ok(());
            }
        }
        let mut chosen = vec![in self.scan.alloc; 0; self.part.from.len()]?;
        walk.visit(self, &mut chosen, best)?;
        Ok(())
    }
}

/// From which of those that were tried on a fact is compared.
fn first_compared(from: &[u32], tried: &[usize]) -> usize {
    if from.len() == 1 {
        tried.len().saturating_sub(LAST_TRIED)
    } else {
        0
    }
}

impl<'a> Scan<'a> {
    /// Offers the splits by the atoms over facts that are like the chosen ones.
    fn offer_likes(
        &self,
        chosen: &[u32],
        conds: &[Atom],
        best: &mut Option<Batch>,
    ) -> Result<(), AllocError>
        requires { IsScan self.now }
        ensures { OnOk result (ImprovesBy self.now
            (IsLikeSplits self.now.branch.now self.now.number chosen.now conds.now) best.old
            best.new) }
    {
        for cond in conds {
            self.offer_like(chosen, cond, best)?;
        }
        Ok(())
    }

    /// Offers the splits by the atom over facts that are like the chosen ones. None is new if the
    /// atom is decided over these.
    fn offer_like(
        &self,
        chosen: &[u32],
        cond: &Atom,
        best: &mut Option<Batch>,
    ) -> Result<(), AllocError>
        requires { IsScan self.now }
        ensures { OnOk result (ImprovesBy self.now
            (IsLikeSplit self.now.branch.now self.now.number chosen.now cond.now) best.old
            best.new) }
    {
        if is_open(self.branch, chosen, cond) {
            let mut done = Vec::new(self.alloc);
            self.offer_over(chosen, &mut done, cond, best)?;
        }
        Ok(())
    }

    /// Offers the splits by the atom over the facts that are done and facts that are like those
    /// left.
    fn offer_over(
        &self,
        left: &[u32],
        done: &mut Vec<u32>,
        cond: &Atom,
        best: &mut Option<Batch>,
    ) -> Result<(), AllocError>
        requires { IsScan self.now }
        ensures done { OnOk result (done.new.items ≡ done.old.items) }
        ensures best { OnOk result (ImprovesBy self.now
            (IsOver self.now.branch.now self.now.number left.now done.old.items cond.now) best.old
            best.new) }
    {
        let Some((fact, rest)) = left.split_first() else {
            return self.offer_atom(done, cond, best);
        };
        let choices = choices(self.alloc, self.branch, cond, done.len(), *fact)?;
        for choice in &choices {
            done.push(*choice)?;
            self.offer_over(rest, done, cond, best)?;
            done.pop();
        }
        Ok(())
    }
}

/// The facts that the atom is to be looked at with at the place: all that are like the fact, or
/// that one alone where the atom doesn't name the place.
fn choices(
    alloc: Global,
    branch: &Branch,
    cond: &Atom,
    place: usize,
    fact: u32,
) -> Result<Vec<u32>, AllocError>
    ensures { IfOk result (λ it. AreChoices branch.now cond.now place fact it.items) }
{
    if names(place, cond) {
        return likes_of(alloc, branch, fact);
    }
    let mut alone = Vec::new(alloc);
    alone.push(fact)?;
    Ok(alone)
}

/// Whether a side of the atom is a column of the place.
fn names(place: usize, cond: &Atom) -> bool
    ensures { IsTrue result ↔ NamesPlace place cond.now }
{
    is_at(place, &cond.left) || is_at(place, &cond.right)
}

/// Whether the operand is a column of the place.
pub fn is_at(place: usize, operand: &Operand) -> bool
    ensures { IsTrue result ↔ IsAt place operand.now }
{
    match operand {
        Operand::Col(p, _) => *p as usize == place,
        Operand::Val(_) => false,
        Operand::Param(_) => false,
        Operand::Var(_) => false,
    }
}

/// Whether the atom is no `=`, and neither shown nor refuted over the facts.
fn is_open(branch: &Branch, facts: &[u32], cond: &Atom) -> bool
    ensures { IsTrue result
        ↔ Under (IsOpenOf branch.now.known) (map (terms_at branch.now) facts.now) cond.now }
{
    match (
        branch.term_of(facts, &cond.left),
        branch.term_of(facts, &cond.right),
    ) {
        (Some(left), Some(right)) => is_undecided(branch, cond.op, left, right),
        _ => false,
    }
}

fn is_undecided(branch: &Branch, op: Op, left: TermRef<'_>, right: TermRef<'_>) -> bool
    ensures { IsTrue result ↔ IsOpenOf branch.now.known op (seen left.entry) (seen right.entry) }
{
    !op.is_equation()
        && !branch.known.shows(op, left, right)
        && !branch.known.refutes(op, left, right)
}
