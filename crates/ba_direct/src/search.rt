//! The search for a cover.
ghost use Rattle.std.specs.Option.{option_copied};
ghost use Rattle.std.specs.Prelude.{◌≡◌, ◌<◌, ◌↔◌, IsTrue, IfOk, IfSome, MatchOption, length};
ghost use Rattle.ba_direct.specs.Cover.{AlwaysStrong, Covered, CoversPart, IsCover, IsFirst, IsFirstCover, PartCovered};
ghost use Rattle.ba_direct.specs.Search.{IsFirstBy, NoneBy, only_of};

use crate::covers::{Cover, PartCover};
use crate::pairing::{covers_by, pair};
use ba_model::{Context, List, Part, Policy, Query};
use std::alloc::{AllocError, Global};

/// The part of a query that has one.
fn only_part(query: &Query) -> Option<&Part>
    ensures { option_copied result ≡ only_of query.now.parts }
{
    match query.parts.as_slice() {
        [part] => Some(part),
        _ => None,
    }
}

/// The first cover of the part by the view with this number, if there is one. Only a view of one part covers.
fn cover_by(
    alloc: Global,
    policy: &Policy,
    ctx: &Context,
    part: &Part,
    view: usize,
) -> Result<Option<PartCover>, AllocError>
    requires { view < length (policy.now).views }
    ensures { IfOk result (λ found. MatchOption found
        (NoneBy policy.now ctx.now part.now view)
        (IsFirstBy policy.now ctx.now part.now view)) }
{
    let only = match only_part(&policy.views.get(view).query) {
        Some(only) => only,
        None => return Ok(None),
    };
    if only.from.len() != part.from.len() {
        return Ok(None);
    }
    let mut to = Vec::new(alloc);
    if pair(ctx, only, part, &mut to)? {
        let places = List::from_vec(to);
        Ok(Some(PartCover { view, places }))
    } else {
        Ok(None)
    }
}

/// The first cover of the part, if there is one.
fn cover_part(
    alloc: Global,
    policy: &Policy,
    ctx: &Context,
    part: &Part,
) -> Result<Option<PartCover>, AllocError>
    ensures { IfOk result (λ found. MatchOption found
        (PartCovered policy.now ctx.now part.now → ⊥)
        (IsFirst policy.now ctx.now part.now)) }
{
    for view in 0..policy.views.len() {
        let found = cover_by(alloc, policy, ctx, part, view)?;
        if let Some(cover) = found {
            return Ok(Some(cover));
        }
    }
    Ok(None)
}

/// For each part of the query the first view and the first pairing that cover it, or None where a part has none.
///
/// A view covers a part where it has one part itself, and a one-to-one pairing of all their tables, by name, maps each atom of
/// the view, its parameters replaced by the context, to an atom of the part, an equation either way round; and the part's other
/// atoms and its head use only constants and columns that the view outputs. The only error is want of memory.
///
/// Views are tried in the policy's order, pairings by the place of the view's first table, then of the next ones. The time is
/// linear in the views where the part has one table; at worst it grows with the orders in which equal tables may be paired.
pub fn cover(
    alloc: Global,
    policy: &Policy,
    ctx: &Context,
    query: &Query,
) -> Result<Option<Cover>, AllocError>
    ensures exact { IfOk result (λ found. MatchOption found
        (Covered policy.now ctx.now query.now → ⊥)
        (IsCover policy.now ctx.now query.now)) }
    ensures first { IfOk result (λ found. IfSome found (IsFirstCover policy.now ctx.now query.now)) }

    // What has a cover may be answered.
    ensures strong { IfOk result (λ found. IfSome found
        (λ _. AlwaysStrong policy.now ctx.now query.now)) }
{
    let mut parts = Vec::new(alloc);
    for part in query.parts.as_slice() {
        let found = cover_part(alloc, policy, ctx, part)?;
        match found {
            Some(cover) => parts.push(cover)?,
            None => return Ok(None),
        }
    }
    Ok(Some(Cover {
        parts: List::from_vec(parts),
    }))
}

fn covers_part(policy: &Policy, ctx: &Context, part: &Part, cover: &PartCover) -> bool
    ensures { IsTrue result ↔ CoversPart policy.now ctx.now part.now cover.now }
{
    let view = match policy.views.find(cover.view) {
        Some(view) => view,
        None => return false,
    };
    match only_part(&view.query) {
        Some(only) => covers_by(ctx, only, part, cover.places.as_slice()),
        None => false,
    }
}

/// Whether what is given covers the query, be it the first cover or another.
pub fn is_cover(policy: &Policy, ctx: &Context, query: &Query, cover: &Cover) -> bool
    ensures { IsTrue result ↔ IsCover policy.now ctx.now query.now cover.now }
{
    if query.parts.len() != cover.parts.len() {
        return false;
    }
    for i in 0..query.parts.len() {
        if !covers_part(policy, ctx, query.parts.get(i), cover.parts.get(i)) {
            return false;
        }
    }
    true
}
