//! The weaker entries of a trace.
ghost use Rattle.std.specs.Prelude.{◌≡◌, ◌↔◌, All, Contains, IfOk, IsTrue, MatchOption};
ghost use Rattle.ba_parts.specs.Parts.{Chosen, alone};
ghost use Rattle.ba_weaker.specs.Weaker.{AreAlike, HasCondition, HasWeaker, IsAlike, IsCommon, IsShared, IsWeaker, IsWeakerQuery, IsWeakerTrace, NoneHasWeaker};

use ba_comply::{Trace, TraceEntry};
use ba_model::{Atom, Duplicate, List, Part, Query, Same, Shared};
use std::alloc::{AllocError, Global};

// Whether the condition is among these.
fn is_among(atom: &Atom, conds: &[Atom]) -> bool
    ensures { IsTrue result ↔ Contains conds.now atom.now }
{
    for other in conds {
        if other.same(atom) {
            return true;
        }
    }
    false
}

#[tactic(auto, unfolding(crate::specs::Weaker::HasCondition))]
fn has_condition(atom: &Atom, part: &Part) -> bool
    ensures { IsTrue result ↔ HasCondition atom.now part.now }
{
    is_among(atom, part.conds.as_slice())
}

// Whether each of the parts has the condition.
fn is_shared(atom: &Atom, parts: &[Part]) -> bool
    ensures { IsTrue result ↔ All (HasCondition atom.now) parts.now }
{
    parts.iter().all(|part| has_condition(atom, part))
}

// Those of the conditions that each of the parts has.
#[tactic(auto, using(crate::proofs::StepLemmas::chosen_none, crate::proofs::StepLemmas::chosen_more, crate::proofs::StepLemmas::chosen_same, crate::proofs::StepLemmas::chosen_all))]
fn shared_conds(alloc: Global, conds: &[Atom], parts: &[Part]) -> Result<List<Atom>, AllocError>
    ensures { IfOk result (Chosen (IsShared parts.now) conds.now) }
{
    let mut shared = List::new(alloc);
    for atom in conds {
        if is_shared(atom, parts) {
            let own = atom.copy(alloc)?;
            shared.push(own)?;
        }
    }
    Ok(shared)
}

// Whether the part is over the same list of tables, and has the same head.
fn is_alike(one: &Part, part: &Part) -> bool
    ensures { IsTrue result ↔ IsAlike one.now part.now }
{
    part.from.same(&one.from) && part.head.same(&one.head)
}

fn are_alike(one: &Part, parts: &[Part]) -> bool
    ensures { IsTrue result ↔ All (IsAlike one.now) parts.now }
{
    parts.iter().all(|part| is_alike(one, part))
}

// The question's first part and the others, if there are others, and all are over one list of
// tables and with one head.
#[tactic(auto, using(crate::proofs::StepLemmas::none_split, crate::proofs::StepLemmas::none_alone, crate::proofs::StepLemmas::none_alike, crate::proofs::StepLemmas::all_alike))]
fn alike_parts(query: &Query) -> Option<(&Part, &[Part])>
    ensures { MatchOption result (¬ (HasWeaker query.now))
        (λ it. AreAlike query.now it.0.now it.1.now) }
{
    let Some((first, others)) = query.parts.as_slice().split_first() else {
        return None;
    };
    if others.len() == 0 {
        return None;
    }
    if are_alike(first, others) {
        Some((first, others))
    } else {
        None
    }
}

fn has_weaker(query: &Query) -> bool
    ensures { IsTrue result ↔ HasWeaker query.now }
{
    match alike_parts(query) {
        Some(_) => true,
        None => false,
    }
}

// The part of the first one's tables and head, with those of its conditions that the others share.
fn common(alloc: Global, first: &Part, others: &[Part]) -> Result<Part, AllocError>
    ensures alike { IfOk result (IsAlike first.now) }
    ensures conds { IfOk result (λ part.
        Chosen (IsShared others.now) first.now.conds part.conds) }
{
    let conds = shared_conds(alloc, first.conds.as_slice(), others)?;
    Ok(Part {
        from: first.from.copy(alloc)?,
        conds,
        head: first.head.copy(alloc)?,
    })
}

// The part of the question's tables and head with the conditions that all of its parts share, if it
// has several parts with one list of tables and one head.
fn common_part(alloc: Global, query: &Query) -> Result<Option<Part>, AllocError>
    ensures { IfOk result (λ part.
        MatchOption part (¬ (HasWeaker query.now)) (IsCommon query.now)) }
{
    let Some((first, others)) = alike_parts(query) else {
        return Ok(None);
    };
    let part = common(alloc, first, others)?;
    Ok(Some(part))
}

// The part as a question.
fn question_of(alloc: Global, part: Part) -> Result<Shared<Query>, AllocError>
    ensures { IfOk result (λ query. query ≡ alone part) }
{
    let mut parts = List::new(alloc);
    parts.push(part)?;
    Shared::new(alloc, Query { parts })
}

// The weaker question, or the question itself where it has none.
fn weaker_query(alloc: Global, query: &Shared<Query>) -> Result<Shared<Query>, AllocError>
    ensures { IfOk result (λ weaker.
        IsWeakerQuery query.now weaker) }
{
    let part = common_part(alloc, query)?;
    match part {
        Some(part) => question_of(alloc, part),
        None => query.copy(alloc),
    }
}

fn weaker_entry(alloc: Global, entry: &TraceEntry) -> Result<TraceEntry, AllocError>
    ensures { IfOk result (IsWeaker entry.now) }
{
    let query = weaker_query(alloc, &entry.query)?;
    let rows = entry.rows.copy(alloc)?;
    Ok(TraceEntry { query, rows })
}

// Whether no entry's question has a weaker one.
#[tactic(auto, using(crate::proofs::StepLemmas::none_more, crate::proofs::StepLemmas::none_at_all, crate::proofs::StepLemmas::some_weaker))]
fn none_has_weaker(trace: &Trace) -> bool
    ensures { IsTrue result ↔ NoneHasWeaker trace.now }
{
    for number in 0..trace.len() {
        if has_weaker(&trace.entry(number).query) {
            return false;
        }
    }
    true
}

/// The trace with weaker entries, if there are any: the rows that were told of a question of
/// several parts, over one list of tables and with one head, as rows of one part, which has the
/// conditions that all of them share. The other entries stay as they are.
///
/// Each database that shows the trace shows the weaker one, and so what is strongly compliant after
/// the weaker one is so after the trace ([`crate::laws::weaker_rows_prove`]). The error is want of
/// memory.
#[tactic(auto, using(crate::proofs::StepLemmas::weaker_more, crate::proofs::StepLemmas::weaker_all))]
pub fn weakened(alloc: Global, trace: &Trace) -> Result<Option<Trace>, AllocError>
    ensures { IfOk result (λ weaker.
        MatchOption weaker (NoneHasWeaker trace.now) (IsWeakerTrace trace.now)) }
{
    if none_has_weaker(trace) {
        return Ok(None);
    }
    let mut weaker = Trace::new(alloc);
    for number in 0..trace.len() {
        let entry = weaker_entry(alloc, trace.entry(number))?;
        weaker.push(entry)?;
    }
    Ok(Some(weaker))
}
