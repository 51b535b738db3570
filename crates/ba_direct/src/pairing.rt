//! The search for a pairing of a view's tables with a query's.
ghost use Rattle.std.specs.Prelude.{◌∷◌, ◌++◌, IfOk, List, ◌≡◌, ◌==◌, ◌↔◌, ◌<◌, ◌≤◌, ℕ, IsTrue, length, map, Some, slice_get, count_by};
ghost use Rattle.std.specs.Bool.{OnTrue, OnFalse};
ghost use Rattle.ba_direct.specs.Cover.{PairsTables, CoversBy};
ghost use Rattle.ba_direct.specs.Search.{NoneFrom, IsFirstFrom};

use crate::test::{may_cover, operands_covered};
use ba_model::{Context, Part};
use std::alloc::AllocError;

/// How often the place is paired.
fn count(to: &[usize], place: usize) -> usize
    ensures { result ≡ count_by (λ i. i == place) to.now }
{
    to.iter().filter(|i| **i == place).count()
}

fn pairs_each_once(to: &[usize], places: usize) -> bool
    ensures { IsTrue result
        ↔ ((place : ℕ) → place < places → count_by (λ i. i == place) to.now ≡ 1) }
{
    for place in 0..places {
        if count(to, place) != 1 {
            return false;
        }
    }
    true
}

fn table(tables: &[u32], place: usize) -> Option<u32>
    ensures { result ≡ slice_get tables.now place }
{
    tables.get(place).copied()
}

/// Whether the places have the tables that are listed.
fn has_tables(from: &[u32], to: &[usize], tables: &[u32]) -> bool
    ensures { IsTrue result ↔ (map (slice_get from.now) to.now ≡ map Some tables.now) }
{
    if to.len() != tables.len() {
        return false;
    }
    for i in 0..to.len() {
        match table(from, to[i]) {
            Some(there) => {
                if there != tables[i] {
                    return false;
                }
            }
            None => return false,
        }
    }
    true
}

/// Whether the pairing is one-to-one of all tables, by name.
fn pairs_tables(view: &Part, part: &Part, to: &[usize]) -> bool
    ensures { IsTrue result ↔ PairsTables view.now part.now to.now }
{
    if to.len() != part.from.len() {
        return false;
    }
    if !has_tables(part.from.as_slice(), to, view.from.as_slice()) {
        return false;
    }
    pairs_each_once(to, part.from.len())
}

/// Whether the view's part covers the query's part by the pairing.
pub fn covers_by(ctx: &Context, view: &Part, part: &Part, to: &[usize]) -> bool
    ensures { IsTrue result ↔ CoversBy ctx.now view.now part.now to.now }
{
    if !pairs_tables(view, part, to) {
        return false;
    }
    operands_covered(ctx, view, part, to)
}

/// Whether the view's next table may be paired with the place: it isn't paired yet, and has the same table.
fn may_pair(view: &Part, part: &Part, to: &[usize], place: usize) -> bool
    ensures { OnFalse result
        ((more : List ℕ) → PairsTables view.now part.now (to.now ++ place ∷ more) → ⊥) }
{
    if count(to, place) != 0 {
        return false;
    }
    table(view.from.as_slice(), to.len()) == table(part.from.as_slice(), place)
}

/// Whether the pairing may go on: by the tables that are paired each atom of the view has its image, and what the query has of
/// them is known.
fn may_go_on(ctx: &Context, view: &Part, part: &Part, to: &[usize]) -> bool
    ensures { OnFalse result (NoneFrom ctx.now view.now part.now to.now) }
{
    may_cover(ctx, view, part, to)
}

/// Completes the pairing to the first by which the view's part covers the query's, if there is one.
pub fn pair(
    ctx: &Context,
    view: &Part,
    part: &Part,
    to: &mut Vec<usize>,
) -> Result<bool, AllocError>
    requires { length to.old.items ≤ length (part.now).from }
    ensures found { IfOk result (λ found. OnTrue found
        (IsFirstFrom ctx.now view.now part.now to.old.items to.new.items)) }
    ensures none { IfOk result (λ found. OnFalse found
        (NoneFrom ctx.now view.now part.now to.old.items)) }
    ensures kept { IfOk result (λ found. OnFalse found (to.new.items ≡ to.old.items)) }
{
    let places = part.from.len();
    if to.len() == places {
        return Ok(covers_by(ctx, view, part, to));
    }
    if !may_go_on(ctx, view, part, to) {
        return Ok(false);
    }
    for place in 0..places {
        if may_pair(view, part, to, place) {
            to.push(place)?;
            if pair(ctx, view, part, to)? {
                return Ok(true);
            }
            to.pop();
        }
    }
    Ok(false)
}
