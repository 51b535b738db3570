//! Whether a question may be answered, as a whole.
ghost use Rattle.std.specs.Prelude.{◌≡◌, ◌≤◌, IfOk, List as Sequence, MatchOption};
ghost use Rattle.ba_contradict.specs.Contradictions.{Contradicted};
ghost use Rattle.ba_general.specs.Generals.{IsOfQuestion};
ghost use Rattle.ba_kernel.specs.Asked.{QuestionFits};
ghost use Rattle.ba_kernel.specs.Problems.{StrongAll};
ghost use Rattle.ba_kernel.specs.SearchStates.{Proof};
ghost use Rattle.ba_model.specs.Limits.{most_budget};
ghost use Rattle.ba_judge.specs.Judging.{Concludes, IsReason, IsServing, NoneServes, RestOnTruth, TakesFirst, Uncovered, effort_in, question_of, seen};
ghost use Rattle.ba_judge.specs.Shelves.{Learns, standing_for};
ghost use Rattle.ba_settle.specs.Dues.{IsLeaf};
ghost use Rattle.ba_settle.specs.Settling.{Effort, Settles};
ghost use Rattle.ba_settle.specs.declared.ends.Settled.TheVariants as settled;

use crate::absurd::end_absurd;
use crate::asking::Asking;
use crate::keep::keep;
use crate::shelves::Shelves;
use crate::verdict::{By, Reason};
use ba_contradict::contradiction;
use ba_kernel::laws::problem_is_question;
use ba_kernel::{Problem, Proved, Step};
use ba_match::match_template;
use ba_model::{Duplicate, List, Shared};
use ba_refute::{Question, Refutal, try_pair};
use ba_settle::laws::settled_are_leaves;
use ba_settle::{Leaf, Settle, Settled};
use ba_template::laws::matched_is_strong;
use ba_template::{Shape, Template};
use std::alloc::{AllocError, Global};

/// How a question that no views cover comes out: why it is allowed, or why it is blocked.
#[derive(Drop)]
pub(crate) enum Finding {
    Allow(By),
    Deny(Reason),
}

/// How a question comes out that isn't covered: by the first template that matches of those that
/// stand on the shelves for its shape, or else by a search of at most `budget` due steps, whose proof
/// is kept as a template, unless it rests on told rows that are shown to be in no database.
#[tactic(auto, using(crate::proofs::LearnLemmas::same_learns, crate::proofs::LearnLemmas::found_learns))]
pub(crate) fn conclude<S: Settle>(
    alloc: Global,
    asked: &Asking<'_>,
    shelves: &mut Shelves,
    settle: &S,
    budget: u32,
) -> Result<Finding, AllocError>
    requires fits { QuestionFits (seen asked.now).policy (seen asked.now).context
        (seen asked.now).trace (seen asked.now).query }
    requires limit { budget ≤ most_budget }
    requires uncovered { Uncovered (seen asked.now) }
    ensures concludes { IfOk result
        (Concludes (seen asked.now) (effort_in (S.orders settle.now) budget)) }
    ensures first { IfOk result
        (TakesFirst (seen asked.now) (standing_for shelves.old asked.now.query.now)) }
    ensures learns { Learns shelves.old shelves.new }
{
    matched_is_strong();
    let shape = Shape::of(alloc, &[], asked.query)?;
    let found = shelves.look(&shape)?;
    let served = serving(alloc, asked, found.as_slice())?;
    match served {
        Some(by) => Ok(Finding::Allow(by)),
        None => search(alloc, asked, shelves, settle, budget),
    }
}

/// The first of the templates that matches the question, as a reason to allow it.
fn serving(
    alloc: Global,
    asked: &Asking<'_>,
    found: &[Shared<Template>],
) -> Result<Option<By>, AllocError>
    ensures { IfOk result (IsServing (seen asked.now) found.now) }
{
    for template in found {
        let _sound = template.problem();
        let matched = match_template(
            alloc,
            template,
            asked.policy,
            asked.context,
            asked.trace,
            asked.query,
        )?;
        if let Some(found) = matched {
            let template = template.copy(alloc)?;
            return Ok(Some(By::Template { template, found }));
        }
    }
    Ok(None)
}

/// What a search for a proof of the question finds. The template of a proof is kept, unless it rests
/// on told rows that contradict each other.
#[tactic(auto, using(crate::proofs::LearnLemmas::same_learns))]
fn search<S: Settle>(
    alloc: Global,
    asked: &Asking<'_>,
    shelves: &mut Shelves,
    settle: &S,
    budget: u32,
) -> Result<Finding, AllocError>
    requires fits { QuestionFits (seen asked.now).policy (seen asked.now).context
        (seen asked.now).trace (seen asked.now).query }
    requires limit { budget ≤ most_budget }
    requires uncovered { Uncovered (seen asked.now) }
    ensures concludes { IfOk result
        (Concludes (seen asked.now) (effort_in (S.orders settle.now) budget)) }
    ensures first { (found : Sequence Proof) → NoneServes (seen asked.now) found
        → IfOk result (TakesFirst (seen asked.now) found) }
    ensures learns { Learns shelves.old shelves.new }
{
    settled_are_leaves();
    let problem = Problem::of(alloc, asked.policy, asked.context, asked.trace, asked.query)?;
    let settled = settle.settle(alloc, problem, budget)?;
    match settled {
        Settled::Proved(proved) => weigh(alloc, asked, shelves, proved, settle, budget),
        Settled::Saturated(leaf) => {
            let reason = reason_of(alloc, asked, leaf)?;
            Ok(Finding::Deny(reason))
        }
        Settled::Spent(steps) => Ok(Finding::Deny(Reason::Spent(steps))),
    }
}

/// What a proof of the question is worth: nothing where it ends a branch as absurd and the told rows
/// alone are shown to be in no database, by a search of at most `budget` due steps. Else it allows
/// its question, and its template is kept.
#[tactic(auto, using(crate::proofs::LearnLemmas::same_learns))]
fn weigh<S: Settle>(
    alloc: Global,
    asked: &Asking<'_>,
    shelves: &mut Shelves,
    proved: Proved,
    settle: &S,
    budget: u32,
) -> Result<Finding, AllocError>
    requires fits { QuestionFits (seen asked.now).policy (seen asked.now).context
        (seen asked.now).trace (seen asked.now).query }
    requires limit { budget ≤ most_budget }
    requires uncovered { Uncovered (seen asked.now) }
    requires ends { Settles (effort_in (S.orders settle.now) budget) (question_of (seen asked.now))
        (settled.Proved proved) }
    ensures concludes { IfOk result
        (Concludes (seen asked.now) (effort_in (S.orders settle.now) budget)) }
    ensures first { (found : Sequence Proof) → NoneServes (seen asked.now) found
        → IfOk result (TakesFirst (seen asked.now) found) }
    ensures learns { Learns shelves.old shelves.new }
{
    problem_is_question();
    let found = contradiction_below(alloc, asked, &proved, settle, budget)?;
    match found {
        Some(steps) => Ok(Finding::Deny(Reason::Contradiction(steps))),
        None => Ok(Finding::Allow(by_proof(alloc, shelves, proved))),
    }
}

/// The steps by which the told rows alone are shown to be in no database, if the proof ends a branch
/// as absurd and a search of at most `budget` due steps finds some. A proof that ends each branch at
/// a goal needs none: no contradiction helps it.
fn contradiction_below<S: Settle>(
    alloc: Global,
    asked: &Asking<'_>,
    proved: &Proved,
    settle: &S,
    budget: u32,
) -> Result<Option<List<Step>>, AllocError>
    requires fits { QuestionFits (seen asked.now).policy (seen asked.now).context
        (seen asked.now).trace (seen asked.now).query }
    requires limit { budget ≤ most_budget }
    ensures { IfOk result (λ found. MatchOption found
        (RestOnTruth (seen asked.now) (effort_in (S.orders settle.now) budget) proved.now.steps)
        (Contradicted (seen asked.now).policy (seen asked.now).context (seen asked.now).trace
        (effort_in (S.orders settle.now) budget))) }
{
    if !end_absurd(proved.steps().as_slice()) {
        return Ok(None);
    }
    contradiction(
        alloc,
        asked.policy,
        asked.context,
        asked.trace,
        settle,
        budget,
    )
}

/// The proof as a reason to allow its question. Its template is kept.
fn by_proof(alloc: Global, shelves: &mut Shelves, proved: Proved) -> By
    requires question { IsOfQuestion proved.problem }
    ensures by { result ≡ By.Proof proved.steps }
    ensures strong { StrongAll proved.problem }
    ensures learns { Learns shelves.old shelves.new }
{
    let _strong = proved.problem();
    // Nothing that is judged depends on whether it is kept.
    let _ = keep(alloc, shelves, &proved);
    By::Proof(proved.into_steps())
}

/// What the leaf shows: a counterexample, or that the search is stuck there.
fn reason_of(alloc: Global, asked: &Asking<'_>, leaf: Leaf) -> Result<Reason, AllocError>
    requires fits { QuestionFits (seen asked.now).policy (seen asked.now).context
        (seen asked.now).trace (seen asked.now).query }
    requires problem { leaf.problem ≡ question_of (seen asked.now) }
    requires leaf { IsLeaf leaf }
    ensures { IfOk result (λ reason. (effort : Effort)
        → Settles effort (question_of (seen asked.now)) (settled.Saturated leaf)
        → IsReason (seen asked.now) effort reason) }
{
    let question = Question {
        policy: asked.policy,
        context: asked.context,
        trace: asked.trace,
        query: asked.query,
    };
    let refutal = try_pair(alloc, &question, leaf)?;
    match refutal {
        Refutal::Pair(pair) => Ok(Reason::Refuted(pair)),
        Refutal::Stuck(leaf, clause) => Ok(Reason::Stuck(leaf, clause)),
    }
}
