//! Whether a question may be answered: as a whole where views cover it, else part by part, else as a
//! whole; and so after the weaker trace first.
ghost use Rattle.std.specs.Prelude.{◌≡◌, ◌<◌, ◌≤◌, IfOk, IfSome, MatchOption, None, length};
ghost use Rattle.ba_kernel.specs.Asked.{QuestionFits};
ghost use Rattle.ba_model.specs.Limits.{most_budget};
ghost use Rattle.ba_judge.specs.Judging.{AllServeFirst, HasBlockedPart, IsAllowedBy, IsBlocked, IsByParts, Judges, LooksAtParts, PrefersWeaker, ServesAlone, ServesFirst, WeakerGives, effort_in, judged_by, seen};
ghost use Rattle.ba_judge.specs.Shelves.{Learns, standing_for};
ghost use Rattle.ba_weaker.specs.Weaker.{IsWeakerTrace};

use crate::asking::Asking;
use crate::shelves::Shelves;
use crate::verdict::{Allowed, By, Judgement, Reason};
use crate::whole::{Finding, conclude};
use ba_comply::Trace;
use ba_direct::cover;
use ba_model::{List, Shared};
use ba_parts::laws::{part_is_query, union_is_strong};
use ba_settle::Settle;
use ba_told::alone;
use ba_weaker::laws::{weaker_is_query, weaker_rows_prove};
use ba_weaker::weakened;
use std::alloc::{AllocError, Global};

/// How a question comes out after one trace.
#[derive(Drop)]
pub(crate) enum Outcome {
    Whole(By),
    Parts(List<By>),
    Blocked(Reason),
}

impl Outcome {
    ghost use Rattle.ba_judge.specs.Judging.{judged_by, weaker_by};

    /// The judgement, where this is after what was told.
    fn into_judgement(self) -> Judgement
        ensures { result ≡ judged_by self }
    {
        match self {
            Outcome::Whole(by) => Judgement::Allowed(Allowed::Whole(by)),
            Outcome::Parts(grounds) => Judgement::Allowed(Allowed::Parts(grounds)),
            Outcome::Blocked(reason) => Judgement::Blocked(reason),
        }
    }

    /// Why the question is allowed, where this is after the weaker trace and allows it.
    fn into_weaker(self) -> Option<Allowed>
        ensures { result ≡ weaker_by self }
    {
        match self {
            Outcome::Whole(By::Cover(cover)) => Some(Allowed::Whole(By::Cover(cover))),
            Outcome::Whole(by) => Some(Allowed::WeakerWhole(by)),
            Outcome::Parts(grounds) => Some(Allowed::WeakerParts(grounds)),
            Outcome::Blocked(_) => None,
        }
    }
}

/// Whether the question may be answered after what its request was told.
///
/// It is allowed where single views cover it. Else, where it has several parts, it is allowed where
/// each of them is as a question of its own: covered, served by the first template that matches of
/// those that stand on the shelves for its shape, or proved to be strongly compliant by a search of
/// at most `budget` due steps. Else it is looked at as a whole in the same way: allowed, or blocked
/// with a reason that can be checked. The template of each proof is kept on the shelves, where it is
/// narrow enough and there is memory for it, and serves the parts and the questions that follow. No
/// clause says that it is kept: what a judgement may do to the shelves allows that nothing is.
///
/// Where a told question of several parts has a weaker one, all this is done after the weaker trace
/// ([`ba_weaker::weakened`]) first, and only where that blocks after what was told: rows of a union
/// split a search into branches, and those of its weaker question don't. What allows after the
/// weaker trace allows after what was told, and the evidence says that it speaks of the weaker
/// one. A reason to block is always one after what was told.
///
/// A proof that ends a branch as absurd allows nothing where the told rows alone, by a second search
/// of at most `budget` due steps, are shown to be in no database: anything follows from rows that
/// contradict each other. What such a proof is of is blocked, with the steps of that second search,
/// and no template of it is kept. No such search is made where a cover or a template allows, or a
/// proof that ends each branch at a goal: no contradiction helps these.
///
/// The question fits its policy, as do the context and the trace, and the budget is at most
/// [`ba_model::MAX_BUDGET`] steps. The error is want of memory.
#[tactic(auto, using(crate::proofs::LearnLemmas::same_learns, crate::proofs::WeakerLemmas::allowed_weaker, crate::proofs::WeakerLemmas::judges_told))]
pub fn judge<S: Settle>(
    alloc: Global,
    asked: &Asking<'_>,
    shelves: &mut Shelves,
    settle: &S,
    budget: u32,
) -> Result<Judgement, AllocError>
    requires fits { QuestionFits (seen asked.now).policy (seen asked.now).context
        (seen asked.now).trace (seen asked.now).query }
    requires limit { budget ≤ most_budget }
    ensures judges { IfOk result
        (Judges (seen asked.now) (effort_in (S.orders settle.now) budget)) }
    ensures prefers { IfOk result
        (PrefersWeaker (seen asked.now) (effort_in (S.orders settle.now) budget) shelves.old) }
    ensures learns { Learns shelves.old shelves.new }
{
    let weaker = judge_weaker(alloc, asked, shelves, settle, budget)?;
    if let Some(allowed) = weaker {
        return Ok(Judgement::Allowed(allowed));
    }
    let told = judge_once(alloc, asked, shelves, settle, budget)?;
    Ok(told.into_judgement())
}

// What allows the question after the weaker trace, if there is one and it does.
#[tactic(auto, using(crate::proofs::LearnLemmas::same_learns, crate::proofs::WeakerLemmas::weaker_at, crate::proofs::WeakerLemmas::gives_none))]
fn judge_weaker<S: Settle>(
    alloc: Global,
    asked: &Asking<'_>,
    shelves: &mut Shelves,
    settle: &S,
    budget: u32,
) -> Result<Option<Allowed>, AllocError>
    requires fits { QuestionFits (seen asked.now).policy (seen asked.now).context
        (seen asked.now).trace (seen asked.now).query }
    requires limit { budget ≤ most_budget }
    ensures gives { IfOk result (WeakerGives (seen asked.now)
        (effort_in (S.orders settle.now) budget) shelves.old shelves.new) }
    ensures learns { Learns shelves.old shelves.new }
{
    let weaker = weakened(alloc, asked.trace)?;
    match weaker {
        Some(trace) => judge_over(alloc, asked, &trace, shelves, settle, budget),
        None => Ok(None),
    }
}

// What allows the question after this trace, which is the weaker one, if it does.
#[tactic(auto, using(crate::proofs::LearnLemmas::same_learns))]
fn judge_over<S: Settle>(
    alloc: Global,
    asked: &Asking<'_>,
    trace: &Trace,
    shelves: &mut Shelves,
    settle: &S,
    budget: u32,
) -> Result<Option<Allowed>, AllocError>
    requires fits { QuestionFits (seen asked.now).policy (seen asked.now).context
        (seen asked.now).trace (seen asked.now).query }
    requires weaker { IsWeakerTrace (seen asked.now).trace trace.now }
    requires limit { budget ≤ most_budget }
    ensures gives { IfOk result (WeakerGives (seen asked.now)
        (effort_in (S.orders settle.now) budget) shelves.old shelves.new) }
    ensures learns { Learns shelves.old shelves.new }
{
    weaker_is_query();
    weaker_rows_prove();
    let own = Asking {
        policy: asked.policy,
        context: asked.context,
        trace,
        query: asked.query,
    };
    let outcome = judge_once(alloc, &own, shelves, settle, budget)?;
    Ok(outcome.into_weaker())
}

/// Whether the question may be answered after what its request was told, as [`judge`] says it, with
/// no look at a weaker trace.
#[tactic(auto, using(crate::proofs::LearnLemmas::same_learns, crate::proofs::WeakerLemmas::judges_told, crate::proofs::WeakerLemmas::first_told, crate::proofs::WeakerLemmas::parts_told))]
pub(crate) fn judge_told<S: Settle>(
    alloc: Global,
    asked: &Asking<'_>,
    shelves: &mut Shelves,
    settle: &S,
    budget: u32,
) -> Result<Judgement, AllocError>
    requires fits { QuestionFits (seen asked.now).policy (seen asked.now).context
        (seen asked.now).trace (seen asked.now).query }
    requires limit { budget ≤ most_budget }
    ensures judges { IfOk result
        (Judges (seen asked.now) (effort_in (S.orders settle.now) budget)) }
    ensures first { length asked.now.query.now.parts < 2 → IfOk result
        (ServesFirst (seen asked.now) (standing_for shelves.old asked.now.query.now)) }
    ensures parts { 2 ≤ length asked.now.query.now.parts → IfOk result
        (LooksAtParts (seen asked.now) (effort_in (S.orders settle.now) budget) shelves.old) }
    ensures learns { Learns shelves.old shelves.new }
{
    let outcome = judge_once(alloc, asked, shelves, settle, budget)?;
    Ok(outcome.into_judgement())
}

// How the question comes out after this trace.
#[tactic(auto, using(crate::proofs::LearnLemmas::same_learns))]
fn judge_once<S: Settle>(
    alloc: Global,
    asked: &Asking<'_>,
    shelves: &mut Shelves,
    settle: &S,
    budget: u32,
) -> Result<Outcome, AllocError>
    requires fits { QuestionFits (seen asked.now).policy (seen asked.now).context
        (seen asked.now).trace (seen asked.now).query }
    requires limit { budget ≤ most_budget }
    ensures judges { IfOk result (λ it.
        Judges (seen asked.now) (effort_in (S.orders settle.now) budget) (judged_by it)) }
    ensures first { length asked.now.query.now.parts < 2 → IfOk result (λ it.
        ServesFirst (seen asked.now) (standing_for shelves.old asked.now.query.now)
        (judged_by it)) }
    ensures parts { 2 ≤ length asked.now.query.now.parts → IfOk result (λ it.
        LooksAtParts (seen asked.now) (effort_in (S.orders settle.now) budget) shelves.old
        (judged_by it)) }
    ensures learns { Learns shelves.old shelves.new }
{
    union_is_strong();
    let covered = cover(alloc, asked.policy, asked.context, asked.query)?;
    if let Some(cover) = covered {
        return Ok(Outcome::Whole(By::Cover(cover)));
    }
    let each = each_allowed(alloc, asked, shelves, settle, budget)?;
    if let Some(grounds) = each {
        return Ok(Outcome::Parts(grounds));
    }
    let finding = conclude(alloc, asked, shelves, settle, budget)?;
    match finding {
        Finding::Allow(by) => Ok(Outcome::Whole(by)),
        Finding::Deny(reason) => Ok(Outcome::Blocked(reason)),
    }
}

// Why each part of the question is allowed, as a question of its own, if it has several and all are.
#[tactic(auto, using(crate::proofs::LearnLemmas::same_learns))]
fn each_allowed<S: Settle>(
    alloc: Global,
    asked: &Asking<'_>,
    shelves: &mut Shelves,
    settle: &S,
    budget: u32,
) -> Result<Option<List<By>>, AllocError>
    requires fits { QuestionFits (seen asked.now).policy (seen asked.now).context
        (seen asked.now).trace (seen asked.now).query }
    requires limit { budget ≤ most_budget }
    ensures parts { IfOk result (λ grounds. IfSome grounds
        (IsByParts (seen asked.now) (effort_in (S.orders settle.now) budget))) }
    ensures first { IfOk result (λ grounds. IfSome grounds
        (AllServeFirst (seen asked.now) shelves.old)) }
    ensures blocked { IfOk result (λ grounds. grounds ≡ None
        → 2 ≤ length asked.now.query.now.parts → HasBlockedPart (seen asked.now)
        (effort_in (S.orders settle.now) budget) shelves.old) }
    ensures one { length asked.now.query.now.parts < 2 → shelves.new ≡ shelves.old }
    ensures learns { Learns shelves.old shelves.new }
{
    part_is_query();
    if asked.query.parts.len() < 2 {
        return Ok(None);
    }
    let mut grounds = List::new(alloc);
    for part in asked.query.parts.as_slice() {
        let query = Shared::new(alloc, alone(alloc, part)?)?;
        let own = Asking {
            policy: asked.policy,
            context: asked.context,
            trace: asked.trace,
            query: &query,
        };
        let allowed = allowed_alone(alloc, &own, shelves, settle, budget)?;
        match allowed {
            Some(by) => grounds.push(by)?,
            None => return Ok(None),
        }
    }
    Ok(Some(grounds))
}

// Why a question is allowed that is looked at as a whole, if it is.
#[tactic(auto, using(crate::proofs::LearnLemmas::same_learns))]
fn allowed_alone<S: Settle>(
    alloc: Global,
    asked: &Asking<'_>,
    shelves: &mut Shelves,
    settle: &S,
    budget: u32,
) -> Result<Option<By>, AllocError>
    requires fits { QuestionFits (seen asked.now).policy (seen asked.now).context
        (seen asked.now).trace (seen asked.now).query }
    requires limit { budget ≤ most_budget }
    ensures allowed { IfOk result (λ by. MatchOption by
        (IsBlocked (seen asked.now) (effort_in (S.orders settle.now) budget))
        (IsAllowedBy (seen asked.now) (effort_in (S.orders settle.now) budget))) }
    ensures first { IfOk result
        (ServesAlone (seen asked.now) (standing_for shelves.old asked.now.query.now)) }
    ensures learns { Learns shelves.old shelves.new }
{
    let covered = cover(alloc, asked.policy, asked.context, asked.query)?;
    if let Some(cover) = covered {
        return Ok(Some(By::Cover(cover)));
    }
    let finding = conclude(alloc, asked, shelves, settle, budget)?;
    match finding {
        Finding::Allow(by) => Ok(Some(by)),
        Finding::Deny(_) => Ok(None),
    }
}
