//! The tests of what is printed of a read of a cache key.
ghost use Rattle.std.specs.Prelude.{◌≡◌, ◌↔◌, All, IfOk, IsTrue, length};
ghost use Rattle.std.specs.List.{AllZip};
ghost use Rattle.ba_kernel.specs.Asked.{QuestionFits};
ghost use Rattle.ba_audit.specs.Tests.{IsProved, IsRightlyBy, MeetsKeyRead, MeetsQueries, TellsFirst, is_within};

use crate::answers::{first_of_block, is_proved, is_rightly_by};
use crate::request::Asker;
use ba_model::{List, Policy, Query, Shared};
use ba_printed::{Evidence, PrintedLine};
use ba_wire::AuditReason as Reason;
use std::alloc::{AllocError, Global};

/// Whether each query's evidence is by cover exactly where the query is covered.
fn are_rightly_by(
    alloc: Global,
    policy: &Shared<Policy>,
    asker: &Asker,
    queries: &List<Shared<Query>>,
    evidence: &List<Evidence>,
) -> Result<bool, AllocError>
    requires even { length evidence.now ≡ length queries.now }
    ensures { IfOk result (λ right. IsTrue right
        ↔ AllZip (IsRightlyBy policy.now asker.now) queries.now evidence.now) }
{
    for i in 0..queries.len() {
        let query = queries.get(i);
        let right = is_rightly_by(alloc, policy, asker, query, evidence.get(i))?;
        if !right {
            return Ok(false);
        }
    }
    Ok(true)
}

/// Whether each query's evidence holds of it.
fn are_proved(
    alloc: Global,
    policy: &Shared<Policy>,
    asker: &Asker,
    queries: &List<Shared<Query>>,
    evidence: &List<Evidence>,
) -> Result<bool, AllocError>
    requires even { length evidence.now ≡ length queries.now }
    requires fit { All (QuestionFits policy.now asker.now.context asker.now.trace) queries.now }
    ensures { IfOk result (λ proved. IsTrue proved
        ↔ AllZip (IsProved policy.now asker.now) queries.now evidence.now) }
{
    for i in 0..queries.len() {
        let query = queries.get(i);
        let proved = is_proved(alloc, policy, asker, query, evidence.get(i))?;
        if !proved {
            return Ok(false);
        }
    }
    Ok(true)
}

/// The first test that a read that is let through doesn't meet.
fn first_of_read(
    alloc: Global,
    policy: &Shared<Policy>,
    asker: &Asker,
    queries: &List<Shared<Query>>,
    evidence: &List<Evidence>,
) -> Result<Option<Reason>, AllocError>
    requires even { length evidence.now ≡ length queries.now }
    requires fit { All (QuestionFits policy.now asker.now.context asker.now.trace) queries.now }
    ensures { IfOk result (TellsFirst
        (MeetsKeyRead policy.now asker.now queries.now evidence.now)) }
{
    let by = are_rightly_by(alloc, policy, asker, queries, evidence)?;
    if !by {
        return Ok(Some(Reason::By));
    }
    let proved = are_proved(alloc, policy, asker, queries, evidence)?;
    if !proved {
        return Ok(Some(Reason::Proof));
    }
    Ok(None)
}

/// The first test that the line of a read doesn't meet, behind which are these queries.
#[tactic(auto, unfolding(crate::specs::Tests::MeetsQueries, crate::specs::Tests::is_within))]
pub(crate) fn first_of_queries(
    alloc: Global,
    policy: &Shared<Policy>,
    asker: &Asker,
    queries: &List<Shared<Query>>,
    line: &PrintedLine,
) -> Result<Option<Reason>, AllocError>
    requires within { IsTrue (is_within (length queries.now) line.now) }
    requires fit { All (QuestionFits policy.now asker.now.context asker.now.trace) queries.now }
    ensures { IfOk result (TellsFirst
        (MeetsQueries policy.now asker.now queries.now line.now)) }
{
    match line {
        PrintedLine::Read { evidence, .. } => {
            first_of_read(alloc, policy, asker, queries, evidence)
        }
        PrintedLine::ReadBlock { blocked, query, .. } => {
            let query = queries.get(*query as usize);
            first_of_block(alloc, policy, asker, query, blocked)
        }
        PrintedLine::Begin { .. }
        | PrintedLine::End { .. }
        | PrintedLine::Publish { .. }
        | PrintedLine::Answer { .. }
        | PrintedLine::Block { .. }
        | PrintedLine::UnevenRead
        | PrintedLine::Unread { .. }
        | PrintedLine::Memory { .. }
        | PrintedLine::Summary(_) => Ok(None),
    }
}
