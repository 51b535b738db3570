//! The tests of what is printed of a query.
ghost use Rattle.std.specs.Prelude.{◌≡◌, ◌↔◌, ◌≤◌, IfOk, IsTrue, length, None};
ghost use Rattle.ba_direct.specs.Cover.{Covered};
ghost use Rattle.ba_kernel.specs.Asked.{QuestionFits};
ghost use Rattle.ba_kernel.specs.Replays.{Closes};
ghost use Rattle.ba_model.specs.Limits.{most_steps};
ghost use Rattle.ba_model.specs.Meaning.{IsAnswer};
ghost use Rattle.ba_audit.specs.Tests.{IsProof, IsProved, IsRefuted, IsRightlyBy, MeetsAnswer, MeetsBlock, TellsFirst, question};

use crate::request::Asker;
use crate::stored::know_pair;
use ba_direct::laws::cover_covers;
use ba_direct::{cover, is_cover};
use ba_kernel::laws::replays_have_one_end;
use ba_kernel::{Problem, Step, replay};
use ba_model::laws::answer_is_unique;
use ba_model::{Duplicate, Failure, List, MAX_STEPS, Policy, Query, Row, Same, Shared};
use ba_printed::{Evidence, PrintedBlock};
use ba_refute::{Counterexample, first_unmet};
use ba_wire::AuditReason as Reason;
use std::alloc::{AllocError, Global};

/// Whether single views cover the query.
fn is_covered(
    alloc: Global,
    policy: &Shared<Policy>,
    asker: &Asker,
    query: &Shared<Query>,
) -> Result<bool, AllocError>
    ensures { IfOk result (λ found. IsTrue found ↔ Covered policy.now asker.now.context query.now) }
{
    cover_covers();
    let found = cover(alloc, policy, &asker.context, query)?;
    match found {
        Some(_) => Ok(true),
        None => Ok(false),
    }
}

/// Whether the answer is by cover exactly where the query is covered.
pub(crate) fn is_rightly_by(
    alloc: Global,
    policy: &Shared<Policy>,
    asker: &Asker,
    query: &Shared<Query>,
    evidence: &Evidence,
) -> Result<bool, AllocError>
    ensures { IfOk result (λ right. IsTrue right ↔ IsRightlyBy policy.now asker.now query.now evidence.now) }
{
    let covered = is_covered(alloc, policy, asker, query)?;
    match evidence {
        Evidence::Cover(_) => Ok(covered),
        Evidence::Template(_) => Ok(!covered),
        Evidence::Proof(_) => Ok(!covered),
    }
}

/// Whether the steps, not too many, close the question's problem.
fn closes(
    alloc: Global,
    policy: &Shared<Policy>,
    asker: &Asker,
    query: &Shared<Query>,
    steps: &List<Step>,
) -> Result<bool, AllocError>
    requires fits { QuestionFits policy.now asker.now.context asker.now.trace query.now }
    requires few { length steps.now ≤ most_steps }
    ensures { IfOk result (λ closes. IsTrue closes
        ↔ Closes (question policy.now asker.now query.now) steps.now) }
{
    replays_have_one_end();
    let problem = Problem::of(alloc, policy, &asker.context, &asker.trace, query)?;
    let steps = steps.copy(alloc)?;
    match replay(alloc, problem, steps) {
        Ok(_) => Ok(true),
        Err(Failure::Fault(_)) => Ok(false),
        Err(Failure::NoMemory) => Err(AllocError),
    }
}

/// Whether the steps are a proof of the question.
fn is_proof(
    alloc: Global,
    policy: &Shared<Policy>,
    asker: &Asker,
    query: &Shared<Query>,
    steps: &List<Step>,
) -> Result<bool, AllocError>
    requires fits { QuestionFits policy.now asker.now.context asker.now.trace query.now }
    ensures { IfOk result (λ proof. IsTrue proof ↔ IsProof policy.now asker.now query.now steps.now) }
{
    if steps.len() as u64 > MAX_STEPS {
        return Ok(false);
    }
    closes(alloc, policy, asker, query, steps)
}

/// Whether the evidence holds of the query.
pub(crate) fn is_proved(
    alloc: Global,
    policy: &Shared<Policy>,
    asker: &Asker,
    query: &Shared<Query>,
    evidence: &Evidence,
) -> Result<bool, AllocError>
    requires fits { QuestionFits policy.now asker.now.context asker.now.trace query.now }
    ensures { IfOk result (λ proved. IsTrue proved ↔ IsProved policy.now asker.now query.now evidence.now) }
{
    match evidence {
        Evidence::Cover(cover) => Ok(is_cover(policy, &asker.context, query, cover)),
        Evidence::Template(steps) => is_proof(alloc, policy, asker, query, steps),
        Evidence::Proof(steps) => is_proof(alloc, policy, asker, query, steps),
    }
}

/// The first test that an answer doesn't meet, where the query has these rows.
pub(crate) fn first_of_answer(
    alloc: Global,
    policy: &Shared<Policy>,
    asker: &Asker,
    query: &Shared<Query>,
    evidence: &Evidence,
    rows: &List<Row>,
    answer: &List<Row>,
) -> Result<Option<Reason>, AllocError>
    requires fits { QuestionFits policy.now asker.now.context asker.now.trace query.now }
    requires answer { IsAnswer query.now asker.now.context asker.now.tables.rows answer.now }
    ensures first { IfOk result (TellsFirst
        (MeetsAnswer policy.now asker.now query.now evidence.now rows.now)) }
    ensures same { IfOk result (λ found. found ≡ None → rows.now ≡ answer.now) }
{
    answer_is_unique();
    let by = is_rightly_by(alloc, policy, asker, query, evidence)?;
    if !by {
        return Ok(Some(Reason::By));
    }
    if !rows.same(answer) {
        return Ok(Some(Reason::Rows));
    }
    let proved = is_proved(alloc, policy, asker, query, evidence)?;
    if !proved {
        return Ok(Some(Reason::Proof));
    }
    Ok(None)
}

/// Whether the pair is a counterexample to strong compliance.
fn is_counterexample(
    alloc: Global,
    policy: &Shared<Policy>,
    asker: &Asker,
    query: &Shared<Query>,
    pair: &Counterexample,
) -> Result<bool, AllocError>
    ensures { IfOk result (λ it. IsTrue it
        ↔ IsRefuted policy.now asker.now query.now (PrintedBlock.Refuted pair.now)) }
{
    know_pair(pair);
    let unmet = first_unmet(alloc, policy, &asker.context, &asker.trace, query, pair)?;
    Ok(unmet.is_none())
}

/// Whether the block's pair refutes the query, if it has one.
fn is_refuted(
    alloc: Global,
    policy: &Shared<Policy>,
    asker: &Asker,
    query: &Shared<Query>,
    blocked: &PrintedBlock,
) -> Result<bool, AllocError>
    ensures { IfOk result (λ it. IsTrue it ↔ IsRefuted policy.now asker.now query.now blocked.now) }
{
    match blocked {
        PrintedBlock::Refuted(pair) => is_counterexample(alloc, policy, asker, query, pair),
        PrintedBlock::Spent(_) => Ok(true),
        PrintedBlock::Stuck(_) => Ok(true),
    }
}

/// The first test that a block doesn't meet.
pub(crate) fn first_of_block(
    alloc: Global,
    policy: &Shared<Policy>,
    asker: &Asker,
    query: &Shared<Query>,
    blocked: &PrintedBlock,
) -> Result<Option<Reason>, AllocError>
    ensures { IfOk result (TellsFirst (MeetsBlock policy.now asker.now query.now blocked.now)) }
{
    let covered = is_covered(alloc, policy, asker, query)?;
    if covered {
        return Ok(Some(Reason::Covered));
    }
    let refuted = is_refuted(alloc, policy, asker, query, blocked)?;
    if !refuted {
        return Ok(Some(Reason::Pair));
    }
    Ok(None)
}
