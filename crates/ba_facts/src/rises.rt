//! Places in the order of a web.
ghost use Rattle.std.specs.Prelude.{◌≡◌, ◌↔◌, pos, neg_ℤ, ◌+ℤ◌, ◌-ℤ◌, ◌≤ℤ◌, ◌^◌, ◌++◌, ◌∷◌, [], IsTrue, IfOk, OnOk, OnErr, unwrap_or};
ghost use Rattle.ba_classes.specs.Chains.{IsAbsurd};
ghost use Rattle.ba_classes.specs.Image.{IsGreatest};
ghost use Rattle.ba_facts.specs.Rises.{Agrees, IsAgreed, rise_fact};
ghost use Rattle.ba_facts.specs.Webs.{RisesBy};

use crate::marks::Place;
use crate::shared_order::SharedOrder;
use std::alloc::{AllocError, Global};

/// Whether what is at `low` plus `gap` is shown to be at most what is at `high`.
pub(crate) fn rises(order: &SharedOrder, low: Place, gap: u32, high: Place) -> bool
    ensures { IsTrue result ↔ RisesBy order.now low (pos gap) high }
{
    order.shows(low.node, between(low, gap, high), high.node)
}

/// Whether what is at the one place is shown to be at most what is at the other, and back.
pub(crate) fn are_level(order: &SharedOrder, one: Place, other: Place) -> bool
    ensures { IsTrue result ↔
        (RisesBy order.now one (pos 0) other × RisesBy order.now other (pos 0) one) }
{
    rises(order, one, 0, other) && rises(order, other, 0, one)
}

/// The greatest number by which what is at `low` is shown to be less than what is at `high`, if any
/// is shown.
pub(crate) fn most(order: &SharedOrder, low: Place, high: Place) -> Option<i128>
    requires { ¬ (IsAbsurd order.now) }
    ensures { IsGreatest (λ n. RisesBy order.now low n high) result }
{
    match order.gap(low.node, high.node) {
        Some(gap) => Some(beyond(gap, low, high)),
        None => None,
    }
}

/// The number for the places that is `gap` for their nodes.
fn beyond(gap: i128, low: Place, high: Place) -> i128
    requires above { neg_ℤ (pos (2 ^ 97)) ≤ℤ gap }
    requires below { gap ≤ℤ pos (2 ^ 97) }
    ensures { result ≡ (gap -ℤ low.offset) +ℤ high.offset }
{
    gap - low.offset as i128 + high.offset as i128
}

/// Adds the fact that what is at `low` plus `gap` is at most what is at `high`. Without memory
/// nothing changes.
pub(crate) fn raise(
    alloc: Global,
    order: &mut SharedOrder,
    low: Place,
    gap: u32,
    high: Place,
) -> Result<(), AllocError>
    ensures ok { OnOk result (order.new ≡ order.old ++ rise_fact low (pos gap) high ∷ []) }
    ensures err { OnErr result (order.new ≡ order.old) }
{
    order.add(alloc, low.node, between(low, gap, high), high.node)
}

fn between(low: Place, gap: u32, high: Place) -> i128
    ensures value { result ≡ (pos gap +ℤ low.offset) -ℤ high.offset }
    ensures above { neg_ℤ (pos (2 ^ 65)) ≤ℤ result }
    ensures below { result ≤ℤ pos (2 ^ 65) }
{
    gap as i128 + low.offset as i128 - high.offset as i128
}

/// The order in which the places of two classes that become one are equal, if it is another.
pub(crate) fn agreed(
    alloc: Global,
    order: &SharedOrder,
    left: Option<Place>,
    right: Option<Place>,
) -> Result<Option<SharedOrder>, AllocError>
    ensures { IfOk result (λ it. IsAgreed order.now (unwrap_or it order.now) left right) }
{
    match (left, right) {
        (Some(left), Some(right)) => made_equal(alloc, order, left, right),
        _ => Ok(None),
    }
}

fn made_equal(
    alloc: Global,
    order: &SharedOrder,
    left: Place,
    right: Place,
) -> Result<Option<SharedOrder>, AllocError>
    ensures { IfOk result (λ it. Agrees order.now (unwrap_or it order.now) left right) }
{
    if are_level(order, left, right) {
        return Ok(None);
    }
    let mut equal = order.copy(alloc)?;
    raise(alloc, &mut equal, left, 0, right)?;
    raise(alloc, &mut equal, right, 0, left)?;
    Ok(Some(equal))
}

/// Puts the new order, if there is one, in the place of the old one.
pub(crate) fn replace(order: &mut SharedOrder, new: Option<SharedOrder>)
    ensures { order.new ≡ unwrap_or new order.old }
{
    if let Some(new) = new {
        *order = new;
    }
}
