//! Rules, views and the goal.
ghost use Rattle.std.specs.Prelude.{◌≡◌, ◌<◌, OnOk, Some, length, slice_get};
ghost use Rattle.ba_instant.specs.Scans.{ImprovesBy, IsScan};
ghost use Rattle.ba_instant.specs.Offers.{IsGoalStep, IsOfForm, IsOfRule, IsOfSides, IsOfView, IsRuleStep, IsViewStep};
ghost use Rattle.ba_instant.specs.declared.mapped.Form.TheVariants.{OfGoal, OfRule};

use crate::batch::{Batch, is_timely};
use crate::mapped::{Form, Mapped};
use crate::reach::Reach;
use crate::scan::Scan;
use ba_facts::{Side, Term, number_of};
use ba_model::{List, Part, Rule, View};
use std::alloc::AllocError;

impl<'a> Scan<'a> {
    /// The policy's views.
    pub fn views(&self) -> &[View]
        ensures { result.now ≡ self.now.search.now.problem.policy.views }
    {
        self.search.problem().policy.views.as_slice()
    }

    /// The schema's rules.
    pub fn rules(&self) -> &[Rule]
        ensures { result.now ≡ self.now.search.now.problem.policy.schema.rules }
    {
        self.search.problem().policy.schema.rules.as_slice()
    }

    /// The parts of the goal.
    pub fn goal_parts(&self) -> &[Part]
        ensures { result.now ≡ self.now.search.now.problem.goal.parts }
    {
        self.search.problem().goal.parts.as_slice()
    }

    fn view_at(&self, number: u32) -> &View
        requires { number < length self.now.search.now.problem.policy.views }
        ensures { slice_get self.now.search.now.problem.policy.views number ≡ Some result.now }
    {
        &self.views()[number as usize]
    }

    fn rule_at(&self, number: u32) -> &Rule
        requires { number < length self.now.search.now.problem.policy.schema.rules }
        ensures { slice_get self.now.search.now.problem.policy.schema.rules number
            ≡ Some result.now }
    {
        &self.rules()[number as usize]
    }

    fn goal_part(&self, number: u32) -> &Part
        requires { number < length self.now.search.now.problem.goal.parts }
        ensures { slice_get self.now.search.now.problem.goal.parts number ≡ Some result.now }
    {
        &self.goal_parts()[number as usize]
    }

    /// Offers the steps by views.
    pub fn offer_views(&self, best: &mut Option<Batch>) -> Result<(), AllocError>
        requires { IsScan self.now }
        ensures { OnOk result (ImprovesBy self.now (IsViewStep self.now.number) best.old best.new) }
    {
        if is_timely(self.quiet, best) {
            self.offer_all_views(best)?;
        }
        Ok(())
    }

    fn offer_all_views(&self, best: &mut Option<Batch>) -> Result<(), AllocError>
        requires { IsScan self.now }
        ensures { OnOk result (ImprovesBy self.now (IsViewStep self.now.number) best.old best.new) }
    {
        let count = number_of(self.search.problem().policy.views.len())?;
        for view in 0..count {
            self.offer_view(view, best)?;
        }
        Ok(())
    }

    /// Offers the steps by the view.
    fn offer_view(&self, view: u32, best: &mut Option<Batch>) -> Result<(), AllocError>
        requires look { IsScan self.now }
        requires there { view < length self.now.search.now.problem.policy.views }
        ensures { OnOk result
            (ImprovesBy self.now (IsOfView self.now.number view) best.old best.new) }
    {
        let it = self.view_at(view);
        let count = number_of(it.query.parts.len())?;
        for part in 0..count {
            let mapped = Mapped {
                scan: &*self,
                form: Form::OfView { view, part },
                part: it.query.parts.get(part as usize),
                side: Side::One,
            };
            mapped.offer(best)?;
        }
        Ok(())
    }

    /// Offers the steps by rules.
    pub fn offer_rules(&self, best: &mut Option<Batch>) -> Result<(), AllocError>
        requires { IsScan self.now }
        ensures { OnOk result (ImprovesBy self.now (IsRuleStep self.now.number) best.old best.new) }
    {
        if is_timely(self.quiet, best) {
            self.offer_all_rules(best)?;
        }
        Ok(())
    }

    fn offer_all_rules(&self, best: &mut Option<Batch>) -> Result<(), AllocError>
        requires { IsScan self.now }
        ensures { OnOk result (ImprovesBy self.now (IsRuleStep self.now.number) best.old best.new) }
    {
        let count = number_of(self.search.problem().policy.schema.rules.len())?;
        for rule in 0..count {
            self.offer_rule(rule, best)?;
        }
        Ok(())
    }

    /// Offers the steps by the rule.
    fn offer_rule(&self, rule: u32, best: &mut Option<Batch>) -> Result<(), AllocError>
        requires look { IsScan self.now }
        requires there { rule < length self.now.search.now.problem.policy.schema.rules }
        ensures { OnOk result
            (ImprovesBy self.now (IsOfRule self.now.number rule) best.old best.new) }
    {
        let it = self.rule_at(rule);
        let count = number_of(it.left.parts.len())?;
        for part in 0..count {
            self.offer_rule_part(rule, part, it.left.parts.get(part as usize), best)?;
        }
        Ok(())
    }

    /// Offers the steps by the rule's left part, on both sides.
    fn offer_rule_part(
        &self,
        rule: u32,
        number: u32,
        part: &Part,
        best: &mut Option<Batch>,
    ) -> Result<(), AllocError>
        requires { IsScan self.now }
        ensures { OnOk result (ImprovesBy self.now
            (IsOfSides self.now.branch.now self.now.number (OfRule rule number) part.now) best.old
            best.new) }
    {
        let form = Form::OfRule { rule, part: number };
        let mut mapped = Mapped {
            scan: &*self,
            form,
            part,
            side: Side::One,
        };
        mapped.offer(best)?;
        mapped.side = Side::Two;
        mapped.offer(best)?;
        Ok(())
    }

    /// Offers the steps that reach the goal.
    pub fn offer_goals(&self, best: &mut Option<Batch>) -> Result<(), AllocError>
        requires { IsScan self.now }
        ensures { OnOk result (ImprovesBy self.now (IsGoalStep self.now.number) best.old best.new) }
    {
        let count = number_of(self.goal_parts().len())?;
        for part in 0..count {
            self.offer_goal(part, best)?;
        }
        Ok(())
    }

    /// Offers the steps that reach the goal by the part. They are listed only where there is one.
    fn offer_goal(&self, number: u32, best: &mut Option<Batch>) -> Result<(), AllocError>
        requires look { IsScan self.now }
        requires below { number < length self.now.search.now.problem.goal.parts }
        ensures { OnOk result
            (ImprovesBy self.now (IsOfForm self.now.number (OfGoal number)) best.old best.new) }
    {
        let part = self.goal_part(number);
        let row: &List<Term> = &self.branch.goal;
        let reach = Reach {
            alloc: self.alloc,
            branch: self.branch,
            part,
            row,
        };
        if reach.is_reached()? {
            let mapped = Mapped {
                scan: &*self,
                form: Form::OfGoal { part: number },
                part,
                side: Side::Two,
            };
            mapped.offer(best)?;
        }
        Ok(())
    }
}
