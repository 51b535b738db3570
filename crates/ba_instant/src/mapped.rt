//! Steps on facts that a part is mapped to.
ghost use Rattle.std.specs.Prelude.{◌≡◌, ◌↔◌, IfOk, IsTrue, OnOk};
ghost use Rattle.ba_instant.specs.Scans.{AreOld, ImprovesBy, IsNoUse, IsOvertaken, IsRemembered, IsScan, IsTimelyOf, least_round};
ghost use Rattle.ba_instant.specs.Offers.{IsStepOf, step_of};

use crate::batch::{Batch, is_behind, is_timely};
use crate::outlook::{Outlook, is_worthwhile};
use crate::scan::Scan;
use ba_facts::{Offered, Side, Visit, Walk, Wanted, numbers_of};
use ba_kernel::Step;
use ba_model::{List, MAX_PART_TABLES, Part};
use ba_settle::Pick;
use std::alloc::AllocError;

/// A step without its branch and facts: of rules, of views and of the goal, each by its numbers.
#[derive(Clone, Copy, PartialEq, Eq, PartialOrd, Ord)]
pub enum Form {
    OfRule { rule: u32, part: u32 },
    OfView { view: u32, part: u32 },
    OfGoal { part: u32 },
}

impl Form {
    /// The step on the branch and the facts.
    fn on(self, branch: u32, facts: List<u32>) -> Step
        ensures { result ≡ step_of branch self facts }
    {
        match self {
            Form::OfRule { rule, part } => Step::Rule {
                branch,
                rule,
                part,
                facts,
            },
            Form::OfView { view, part } => Step::View {
                branch,
                view,
                part,
                facts,
            },
            Form::OfGoal { part } => Step::Goal {
                branch,
                part,
                facts,
            },
        }
    }
}

/// A part that is mapped to facts of a side, and what step is taken on them.
#[derive(Clone, Copy)]
pub struct Mapped<'a> {
    pub scan: &'a Scan<'a>,
    pub form: Form,
    pub part: &'a Part,
    pub side: Side,
}

impl Visit for Mapped<'_> {
    ghost use Rattle.std.specs.Prelude.{[]};
    ghost use Rattle.ba_facts.specs.declared.walk.Wanted.TheVariants.{Shown};
    ghost use Rattle.ba_instant.specs.Offers.{IsStepAmong};
    ghost use Rattle.ba_instant.specs.Scans.{AreEnough, ImprovesBy, IsScan, IsWalkOf};

    type State = Option<Batch>;

    type Tried = ();

    type Stop = AllocError;

    ghost ready = { λ own walk.
        IsScan own.scan.now × IsWalkOf own.scan.now own.side own.part.now Shown walk };

    ghost offers = { λ own walk from chosen numbers. AreEnough own from chosen numbers };

    ghost numbers = { λ tried. [] };

    ghost visited = { λ own walk from chosen numbers old new.
        ImprovesBy own.scan.now (IsStepAmong own from chosen numbers) old new };

    ghost stopped = { λ own walk from chosen stop. Unit {0} };

    /// Where none of the chosen facts is recent, the last one has to be.
    fn offered<'a>(&'a self, walk: &'a Walk<'a>, from: &[u32], chosen: &[usize]) -> Offered<'a> {
        if from.len() == 1 && self.are_old(chosen) {
            return Offered::These(self.scan.recent);
        }
        Offered::Every(walk.branch.facts.len())
    }

    fn none_tried(&self) {}

    fn takes(
        &self,
        walk: &Walk<'_>,
        from: &[u32],
        chosen: &[usize],
        number: usize,
        _tried: &mut (),
        best: &Option<Batch>,
    ) -> Result<bool, AllocError> {
        if !self.is_timely(number, best) {
            return Ok(false);
        }
        if from.len() == 1 {
            return Ok(true);
        }
        let no_use = self.is_no_use(walk, chosen, best)?;
        Ok(!no_use)
    }

    fn end(
        &self,
        walk: &Walk<'_>,
        chosen: &[usize],
        best: &mut Option<Batch>,
    ) -> Result<(), AllocError> {
        if self.is_told(chosen) {
            return Ok(());
        }
        if !walk.is_met(chosen) {
            return Ok(());
        }
        let facts = numbers_of(self.scan.alloc, chosen)?;
        let step = self.form.on(self.scan.number, facts);
        self.offer_shown(chosen, step, best)?;
        Ok(())
    }
}

impl<'a> Mapped<'a> {
    /// Offers the step on each facts of the side that show the part's atoms. The chosen facts take
    /// memory only where the part has more tables than one of a query may have.
    pub fn offer(&self, best: &mut Option<Batch>) -> Result<(), AllocError>
        requires { IsScan self.now.scan.now }
        ensures { OnOk result (ImprovesBy self.now.scan.now (IsStepOf self.now) best.old best.new) }
    {
        let walk = Walk {
            branch: self.scan.branch,
            side: self.side,
            part: self.part,
            wanted: Wanted::Shown,
        };
        if self.is_no_use(&walk, &[], best)? {
            return Ok(());
        }
        if self.asks_first() {
            let outlook = Outlook {
                alloc: self.scan.alloc,
                walk,
                row: None,
            };
            if outlook.is_bleak()? {
                return Ok(());
            }
        }
        let places = self.part.from.len();
        if places > MAX_PART_TABLES {
            let mut chosen = vec![in self.scan.alloc; 0; places]?;
            walk.visit(self, &mut chosen, best)?;
            return Ok(());
        }
        let mut chosen = [0; MAX_PART_TABLES];
        walk.visit(self, &mut chosen[..places], best)?;
        Ok(())
    }

    /// Whether it is asked first if any facts show the part's atoms. Of the goal it is known that
    /// some may: its steps are looked for only where it is reached.
    fn asks_first(&self) -> bool {
        match self.form {
            Form::OfGoal { .. } => false,
            _ => is_worthwhile(self.part, false),
        }
    }

    /// Whether no step on facts that begin with the chosen ones is new and comes first.
    fn is_no_use(
        &self,
        walk: &Walk<'_>,
        chosen: &[usize],
        best: &Option<Batch>,
    ) -> Result<bool, AllocError>
        ensures { IfOk result (λ it. IsTrue it → IsNoUse self.now walk.now chosen.now best.now) }
    {
        let overtaken = self.is_overtaken(chosen, best)?;
        Ok(overtaken || walk.is_hopeless(chosen))
    }

    /// Offers the step on the facts, which show the part's atoms.
    fn offer_shown(
        &self,
        facts: &[usize],
        step: Step,
        best: &mut Option<Batch>,
    ) -> Result<(), AllocError>
        requires look { IsScan self.now.scan.now }
        requires is { step ≡ step_of self.now.scan.now.number self.now.form facts.now }
        ensures { OnOk result (ImprovesBy self.now.scan.now (λ it. it ≡ step) best.old best.new) }
    {
        let round = self.least_round(facts);
        match self.form {
            Form::OfRule { .. } => self.scan.offer_at(round, step, best),
            Form::OfView { .. } => self.scan.offer_at(round, step, best),
            Form::OfGoal { .. } => self.scan.offer_late(round, step, best),
        }
    }

    /// Whether a step that reaches the goal was found that isn't picked after any on facts that
    /// begin with the chosen ones.
    fn is_overtaken(&self, chosen: &[usize], best: &Option<Batch>) -> Result<bool, AllocError>
        ensures { IfOk result (λ it. IsTrue it → IsOvertaken self.now.scan.now.pick
            self.now.scan.now.number self.now.form best.now chosen.now) }
    {
        match (self.form, self.scan.pick, best) {
            (Form::OfGoal { .. }, Pick::First, Some(_)) => {
                let facts = numbers_of(self.scan.alloc, chosen)?;
                let step = self.form.on(self.scan.number, facts);
                Ok(is_behind(Pick::First, best, &step))
            }
            _ => Ok(false),
        }
    }

    /// Whether it is remembered that the step on the facts tells nothing.
    fn is_told(&self, facts: &[usize]) -> bool
        ensures { IsTrue result → IsRemembered self.now facts.now }
    {
        match self.form {
            Form::OfRule { .. } => self.scan.told.has_mapping(self.form, facts),
            Form::OfView { .. } => self.scan.told.has_mapping(self.form, facts),
            Form::OfGoal { .. } => false,
        }
    }

    /// The least round of the step on the facts.
    fn least_round(&self, facts: &[usize]) -> u64
        ensures { result ≡ least_round self.now.scan.now.branch.now self.now.form facts.now }
    {
        match self.form {
            Form::OfGoal { .. } => 0,
            _ => u64::from(self.scan.branch.round_of(facts)) + 1,
        }
    }

    /// Whether the step tells something, and none of the facts is recent.
    fn are_old(&self, chosen: &[usize]) -> bool
        ensures { IsTrue result
            ↔ AreOld self.now.scan.now.branch.now self.now.scan.now.quiet self.now.form chosen.now }
    {
        match self.form {
            Form::OfGoal { .. } => false,
            _ => self.scan.branch.round_of(chosen) < self.scan.quiet,
        }
    }

    /// Whether the step on the fact may be of no later a round than what was found.
    fn is_timely(&self, fact: usize, best: &Option<Batch>) -> bool
        ensures { IsTrue result
            ↔ IsTimelyOf self.now.scan.now.branch.now self.now.form fact best.now }
    {
        let round = self.scan.branch.round_at(fact);
        match self.form {
            Form::OfRule { .. } => is_timely(round, best),
            Form::OfView { .. } => is_timely(round, best),
            Form::OfGoal { .. } => true,
        }
    }
}
