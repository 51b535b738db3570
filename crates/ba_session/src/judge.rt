//! Whether a request's query may be answered.
ghost use Rattle.std.specs.Prelude.{◌≡◌, ◌≤◌, All, IfOk};
ghost use Rattle.ba_cache.specs.Rows.{IsSound};
ghost use Rattle.ba_kernel.specs.Asked.{QuestionFits};
ghost use Rattle.ba_model.specs.Limits.{most_budget};
ghost use Rattle.ba_session.specs.Asking.{IsReason, Judges, Uncovered, effort_in, question};
ghost use Rattle.ba_session.specs.Judging.{IsFoundBy, IsSearched, IsServing, Weighs};
ghost use Rattle.ba_session.specs.Passing.{AreOf, HasRoom, Makes, ShelfCalls};
ghost use Rattle.ba_settle.specs.Dues.{IsLeaf};
ghost use Rattle.ba_settle.specs.Settling.{Effort, Settles};
ghost use Rattle.ba_settle.specs.declared.ends.Settled.TheVariants as settled;

use crate::keep::prove;
use crate::reply::{By, Judgement, Why};
use crate::request::Request;
use crate::service::{Passes, Service};
use ba_cache::Kept;
use ba_direct::cover;
use ba_kernel::laws::problem_is_question;
use ba_kernel::{Problem, Proved};
use ba_match::match_template;
use ba_model::{Duplicate, Policy, Query, Shared};
use ba_refute::{Question, Refutal, try_pair};
use ba_settle::laws::settled_are_leaves;
use ba_settle::{Leaf, Settle, Settled};
use ba_template::Shape;
use ba_template::laws::matched_is_strong;
use std::alloc::{AllocError, Global};
use std::sync::Wait;

/// What a query's judgement rests on, before the template of a proof is kept.
#[derive(Drop)]
pub(crate) enum Verdict {
    /// A cover or a template.
    Ground(By),
    Prove(Proved),
    Deny(Why),
}

impl Request {
    /// Whether the query may be answered, as the request stands.
    ///
    /// It is allowed where single views cover it, or else by the first template that matches of
    /// those that a look at its shape gives, or else where a search of at most `budget` due steps
    /// proves that it is strongly compliant after the request's trace: the template of such a proof
    /// is admitted for others. Else it is blocked, with a reason that can be checked
    /// ([`crate::Why`]). Want of memory is a judgement of its own, and comes before any call or
    /// behind the look; of a proof's template it is told beside the proof. The query isn't answered
    /// here, and the request stays as it is. It waits for its turns on the shelf of the query's
    /// shard, for at most a look and an admit.
    ///
    /// The query fits the service's policy, as do the request's context and trace, and the budget
    /// is at most [`ba_model::MAX_BUDGET`] steps.
    pub fn judge<R: Wait, S: Settle>(
        &self,
        rt: &R,
        alloc: Global,
        service: &Service,
        passes: &mut Passes,
        settle: &S,
        budget: u32,
        query: &Shared<Query>,
    ) -> Judgement
        requires fits { QuestionFits service.now.policy self.now.context self.now.trace query.now }
        requires limit { budget ≤ most_budget }
        requires of { AreOf service.now passes.old }
        requires room { HasRoom 2 passes.old }
        ensures of { AreOf service.now passes.new }
        ensures judges { (made : ShelfCalls) × Judges service.now.policy self.now
            (effort_in (S.orders settle.now) budget) query.now made result
            × Makes made passes.old passes.new }
    {
        match self.weigh(rt, alloc, service, passes, settle, budget, query) {
            Ok(Verdict::Ground(by)) => Judgement::Allowed(by),
            Ok(Verdict::Prove(proved)) => {
                Judgement::Allowed(prove(rt, alloc, service, passes, proved))
            }
            Ok(Verdict::Deny(why)) => Judgement::Blocked(why),
            Err(_) => Judgement::NoMemory,
        }
    }

    /// What the query's judgement rests on: a cover, or else what a look at its shape leads to.
    pub(crate) fn weigh<R: Wait, S: Settle>(
        &self,
        rt: &R,
        alloc: Global,
        service: &Service,
        passes: &mut Passes,
        settle: &S,
        budget: u32,
        query: &Shared<Query>,
    ) -> Result<Verdict, AllocError>
        requires fits { QuestionFits service.now.policy self.now.context self.now.trace query.now }
        requires limit { budget ≤ most_budget }
        requires of { AreOf service.now passes.old }
        requires room { HasRoom 2 passes.old }
        ensures of { AreOf service.now passes.new }
        ensures room { HasRoom 1 passes.new }
        ensures weighs { (made : ShelfCalls) × Weighs service.now.policy self.now
            (effort_in (S.orders settle.now) budget) query.now made result
            × Makes made passes.old passes.new }
    {
        let covered = cover(alloc, &service.policy, &self.context, query)?;
        match covered {
            Some(cover) => Ok(Verdict::Ground(By::Cover(cover))),
            None => self.look(rt, alloc, service, passes, settle, budget, query),
        }
    }

    /// The same of a query that isn't covered: a look at its shape goes before it.
    fn look<R: Wait, S: Settle>(
        &self,
        rt: &R,
        alloc: Global,
        service: &Service,
        passes: &mut Passes,
        settle: &S,
        budget: u32,
        query: &Shared<Query>,
    ) -> Result<Verdict, AllocError>
        requires fits { QuestionFits service.now.policy self.now.context self.now.trace query.now }
        requires limit { budget ≤ most_budget }
        requires uncovered { Uncovered service.now.policy self.now query.now }
        requires of { AreOf service.now passes.old }
        requires room { HasRoom 2 passes.old }
        ensures of { AreOf service.now passes.new }
        ensures room { HasRoom 1 passes.new }
        ensures weighs { (made : ShelfCalls) × Weighs service.now.policy self.now
            (effort_in (S.orders settle.now) budget) query.now made result
            × Makes made passes.old passes.new }
    {
        let shape = Shape::of(alloc, &[], query)?;
        let found = service.cache.look(rt, &mut passes.cache, &shape)?;
        let shard = shape.shard();
        let templates = found.templates.as_slice();
        self.by_templates(
            alloc,
            &service.policy,
            settle,
            budget,
            query,
            shard,
            templates,
        )
    }

    /// What the first of the templates that matches the query says of it, or else a search. They
    /// were found for its shape, on the shelf of this shard.
    fn by_templates<S: Settle>(
        &self,
        alloc: Global,
        policy: &Shared<Policy>,
        settle: &S,
        budget: u32,
        query: &Shared<Query>,
        shard: u32,
        found: &[Kept],
    ) -> Result<Verdict, AllocError>
        requires fits { QuestionFits policy.now self.now.context self.now.trace query.now }
        requires limit { budget ≤ most_budget }
        requires sound { All IsSound found.now }
        ensures { IfOk result (IsFoundBy policy.now self.now
            (effort_in (S.orders settle.now) budget) query.now shard found.now) }
    {
        matched_is_strong();
        let served = self.serving(alloc, policy, query, shard, found)?;
        match served {
            Some(by) => Ok(Verdict::Ground(by)),
            None => self.search(alloc, policy, settle, budget, query),
        }
    }

    /// The first of the templates that matches the query, as a ground to answer it.
    fn serving(
        &self,
        alloc: Global,
        policy: &Shared<Policy>,
        query: &Query,
        shard: u32,
        found: &[Kept],
    ) -> Result<Option<By>, AllocError>
        ensures { IfOk result (IsServing policy.now self.now query.now shard found.now) }
    {
        for kept in found {
            let matched = match_template(
                alloc,
                &kept.template,
                policy,
                &self.context,
                &self.trace,
                query,
            )?;
            if let Some(it) = matched {
                let template = kept.template.copy(alloc)?;
                return Ok(Some(By::Template {
                    shard,
                    id: kept.id,
                    template,
                    found: it,
                }));
            }
        }
        Ok(None)
    }

    /// What a search for a proof of the query finds.
    fn search<S: Settle>(
        &self,
        alloc: Global,
        policy: &Shared<Policy>,
        settle: &S,
        budget: u32,
        query: &Shared<Query>,
    ) -> Result<Verdict, AllocError>
        requires fits { QuestionFits policy.now self.now.context self.now.trace query.now }
        requires limit { budget ≤ most_budget }
        ensures { IfOk result (IsSearched policy.now self.now
            (effort_in (S.orders settle.now) budget) query.now) }
    {
        problem_is_question();
        settled_are_leaves();
        let problem = Problem::of(alloc, policy, &self.context, &self.trace, query)?;
        let settled = settle.settle(alloc, problem, budget)?;
        match settled {
            Settled::Proved(proved) => {
                let _strong = proved.problem();
                Ok(Verdict::Prove(proved))
            }
            Settled::Saturated(leaf) => {
                let why = self.reason_of(alloc, policy, query, leaf)?;
                Ok(Verdict::Deny(why))
            }
            Settled::Spent(steps) => Ok(Verdict::Deny(Why::Spent(steps))),
        }
    }

    /// What the leaf shows: a counterexample, or that the search is stuck there.
    fn reason_of(
        &self,
        alloc: Global,
        policy: &Shared<Policy>,
        query: &Shared<Query>,
        leaf: Leaf,
    ) -> Result<Why, AllocError>
        requires fits { QuestionFits policy.now self.now.context self.now.trace query.now }
        requires problem { leaf.problem ≡ question policy.now self.now query.now }
        requires leaf { IsLeaf leaf }
        ensures { IfOk result (λ why. (effort : Effort)
            → Settles effort (question policy.now self.now query.now) (settled.Saturated leaf)
            → IsReason policy.now self.now effort query.now why) }
    {
        let asked = Question {
            policy,
            context: &self.context,
            trace: &self.trace,
            query,
        };
        let refutal = try_pair(alloc, &asked, leaf)?;
        match refutal {
            Refutal::Pair(pair) => Ok(Why::Refuted(pair)),
            Refutal::Stuck(leaf, clause) => Ok(Why::Stuck(leaf, clause)),
        }
    }
}
