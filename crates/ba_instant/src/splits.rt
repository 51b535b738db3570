//! Splits by atoms of live mappings.
ghost use Rattle.std.specs.Prelude.{◌≡◌, ◌⊎◌, IfOk, OnOk};
ghost use Rattle.std.specs.Option.{option_copied};
ghost use Rattle.ba_facts.specs.Known.{seen};
ghost use Rattle.ba_facts.specs.declared.term.Side.TheVariants.{One, Two};
ghost use Rattle.ba_instant.specs.Scans.{ImprovesBy, IsScan};
ghost use Rattle.ba_instant.specs.Offers.{IsSplitOfAtom, IsSplitOfPart, IsSplitOfParts, IsSplitOfRules, IsSplitOfSides, IsSplitOfViews, IsSplitStep};

use crate::batch::{Batch, is_timely};
use crate::partners::facts_are_laid;
use crate::scan::Scan;
use crate::spread::Spread;
use crate::standing::least_standing;
use ba_facts::{Side, Term, TermAtom, TermRef};
use ba_kernel::Step;
use ba_model::{Atom, Duplicate, List, Op, Part, Rule, View};
use std::alloc::{AllocError, Global};

impl<'a> Scan<'a> {
    /// Offers the splits.
    pub fn offer_splits(&self, best: &mut Option<Batch>) -> Result<(), AllocError>
        requires { IsScan self.now }
        ensures { OnOk result
            (ImprovesBy self.now (IsSplitStep self.now.number) best.old best.new) }
    {
        if is_timely(self.quiet, best) {
            self.offer_all_splits(best)?;
        }
        Ok(())
    }

    fn offer_all_splits(&self, best: &mut Option<Batch>) -> Result<(), AllocError>
        requires { IsScan self.now }
        ensures { OnOk result
            (ImprovesBy self.now (IsSplitStep self.now.number) best.old best.new) }
    {
        self.offer_view_splits(self.views(), best)?;
        self.offer_rule_splits(self.rules(), best)?;
        let row: &List<Term> = &self.branch.goal;
        self.offer_part_splits(self.goal_parts(), Side::Two, Some(row), best)?;
        Ok(())
    }

    /// Offers the splits by atoms of the views, mapped to side One.
    fn offer_view_splits(&self, views: &[View], best: &mut Option<Batch>) -> Result<(), AllocError>
        requires { IsScan self.now }
        ensures { OnOk result (ImprovesBy self.now
            (IsSplitOfViews self.now.branch.now self.now.number views.now) best.old best.new) }
    {
        for view in views {
            self.offer_part_splits(view.query.parts.as_slice(), Side::One, None, best)?;
        }
        Ok(())
    }

    /// Offers the splits by atoms of the rules' left queries, mapped to both sides.
    fn offer_rule_splits(&self, rules: &[Rule], best: &mut Option<Batch>) -> Result<(), AllocError>
        requires { IsScan self.now }
        ensures { OnOk result (ImprovesBy self.now
            (IsSplitOfRules self.now.branch.now self.now.number rules.now) best.old best.new) }
    {
        for rule in rules {
            self.offer_side_splits(rule.left.parts.as_slice(), best)?;
        }
        Ok(())
    }

    /// Offers the splits by atoms of the parts, mapped to both sides.
    fn offer_side_splits(&self, parts: &[Part], best: &mut Option<Batch>) -> Result<(), AllocError>
        requires { IsScan self.now }
        ensures { OnOk result (ImprovesBy self.now
            (IsSplitOfSides self.now.branch.now self.now.number parts.now) best.old best.new) }
    {
        self.offer_part_splits(parts, Side::One, None, best)?;
        self.offer_part_splits(parts, Side::Two, None, best)?;
        Ok(())
    }

    /// Offers the splits by atoms of the parts, mapped to the side with the row, if one is given,
    /// for their heads.
    fn offer_part_splits(
        &self,
        parts: &[Part],
        side: Side,
        row: Option<&List<Term>>,
        best: &mut Option<Batch>,
    ) -> Result<(), AllocError>
        requires { IsScan self.now }
        ensures { OnOk result (ImprovesBy self.now
            (IsSplitOfParts self.now.branch.now self.now.number side (option_copied row.entry)
            parts.now) best.old best.new) }
    {
        for part in parts {
            self.offer_splits_of(part, side, row, best)?;
        }
        Ok(())
    }

    /// Offers the splits by atoms of the part, mapped to the side with the row, if one is given,
    /// for its head. None is by an `=`.
    fn offer_splits_of(
        &self,
        part: &Part,
        side: Side,
        row: Option<&List<Term>>,
        best: &mut Option<Batch>,
    ) -> Result<(), AllocError>
        requires { IsScan self.now }
        ensures { OnOk result (ImprovesBy self.now
            (IsSplitOfPart self.now.branch.now self.now.number side (option_copied row.entry)
            part.now) best.old best.new) }
    {
        if part.equations() {
            return Ok(());
        }
        let spread = Spread {
            scan: &*self,
            part,
            side,
            row,
        };
        spread.offer(best)
    }

    /// Offers the split by the atom over the facts. Its round, which takes long to find, is past
    /// the quiet ones and past those of the facts in which its terms stand: where a step of an
    /// earlier round was found, or a split of the same that is picked before, it isn't looked at.
    pub fn offer_atom(
        &self,
        facts: &[u32],
        atom: &Atom,
        best: &mut Option<Batch>,
    ) -> Result<(), AllocError>
        requires { IsScan self.now }
        ensures { OnOk result (ImprovesBy self.now
            (IsSplitOfAtom self.now.branch.now self.now.number facts.now atom.now) best.old
            best.new) }
    {
        match (
            self.branch.term_of(facts, &atom.left),
            self.branch.term_of(facts, &atom.right),
        ) {
            (Some(left), Some(right)) => {
                facts_are_laid(self.search);
                let atom = term_atom(self.alloc, atom.op, left, right)?;
                let before = self.quiet.max(least_standing(self.branch, &atom));
                let step = Step::Split {
                    branch: self.number,
                    atom,
                };
                self.offer_late(u64::from(before) + 1, step, best)
            }
            _ => Ok(()),
        }
    }
}

fn term_atom(
    alloc: Global,
    op: Op,
    left: TermRef<'_>,
    right: TermRef<'_>,
) -> Result<TermAtom, AllocError>
    ensures { IfOk result
        (λ it. it ≡ record { op = op; left = seen left.entry; right = seen right.entry }) }
{
    let left = copy_seen(alloc, left)?;
    let right = copy_seen(alloc, right)?;
    Ok(TermAtom { op, left, right })
}

/// A copy of the term.
fn copy_seen(alloc: Global, term: TermRef<'_>) -> Result<Term, AllocError>
    ensures { IfOk result (λ it. it ≡ seen term.entry) }
{
    match term {
        TermRef::Unknown(n) => Ok(Term::Unknown(n)),
        TermRef::Val(value) => Ok(Term::Val(value.copy(alloc)?)),
        TermRef::Param(n) => Ok(Term::Param(n)),
        TermRef::Var(n) => Ok(Term::Var(n)),
    }
}
