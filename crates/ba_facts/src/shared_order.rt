//! The order of a web, which copies of the web share.
ghost use Rattle.std.specs.Prelude.{◌≡◌, ◌↔◌, pos, neg_ℤ, ◌≤ℤ◌, ◌^◌, ◌++◌, ◌∷◌, [], IsTrue, IfOk, IfSome, OnOk, OnErr};
ghost use Rattle.ba_classes.specs.Chains.{IsAbsurd, Shows};
ghost use Rattle.ba_classes.specs.Image.{IsGreatest};

use ba_classes::Order;
use ba_model::{Duplicate, Shared};
use std::alloc::{AllocError, Global};
use std::marker::Model;

/// An order that copies share until one of them gets a further fact.
#[derive(Drop)]
pub(crate) struct SharedOrder {
    /// The order from its first fact on.
    filled: Option<Shared<Order>>,
}

impl Model for SharedOrder {
    ghost use Rattle.std.specs.Prelude.{List, [], unwrap_or};
    ghost use Rattle.ba_classes.specs.declared.order.Difference.{Difference};

    ghost Value = { List Difference };

    ghost view = { λ it. unwrap_or it.filled [] };
}

impl SharedOrder {
    /// No facts. It allocates nothing.
    pub(crate) fn new() -> SharedOrder
        ensures { result ≡ [] }
    {
        SharedOrder { filled: None }
    }

    /// Whether a chain of the facts from `low` to `high` sums to at least `gap`.
    pub(crate) fn shows(&self, low: u32, gap: i128, high: u32) -> bool
        ensures { IsTrue result ↔ Shows self.now low gap high }
    {
        match &self.filled {
            Some(order) => order.shows(low, gap, high),
            None => is_itself(low, gap, high),
        }
    }

    /// The greatest number by which the facts show one node to be less than another, if they show
    /// any. It has at most 98 bits.
    pub(crate) fn gap(&self, low: u32, high: u32) -> Option<i128>
        requires { ¬ (IsAbsurd self.now) }
        ensures greatest { IsGreatest (λ k. Shows self.now low k high) result }
        ensures within { IfSome result (λ k. (neg_ℤ (pos (2 ^ 97)) ≤ℤ k) × (k ≤ℤ pos (2 ^ 97))) }
    {
        match &self.filled {
            Some(order) => order.gap(low, high),
            None => no_gap(low, high),
        }
    }

    /// Whether some chain of the facts from a node to itself sums above 0.
    pub(crate) fn absurd(&self) -> bool
        ensures { IsTrue result ↔ IsAbsurd self.now }
    {
        match &self.filled {
            Some(order) => order.absurd(),
            None => false,
        }
    }

    /// Adds the fact that `low` plus `gap` is at most `high`, here and in no copy. Without memory
    /// nothing changes.
    pub(crate) fn add(
        &mut self,
        alloc: Global,
        low: u32,
        gap: i128,
        high: u32,
    ) -> Result<(), AllocError>
        requires above { neg_ℤ (pos (2 ^ 65)) ≤ℤ gap }
        requires below { gap ≤ℤ pos (2 ^ 65) }
        ensures ok { OnOk result (self.new ≡ self.old
            ++ record { low = low; gap = gap; high = high } ∷ []) }
        ensures err { OnErr result (self.new ≡ self.old) }
    {
        match &mut self.filled {
            Some(order) => add_to(alloc, order, low, gap, high),
            None => {
                let mut order = Order::new(alloc);
                order.add(low, gap, high)?;
                self.filled = Some(Shared::new(alloc, order)?);
                Ok(())
            }
        }
    }

    /// The same facts.
    pub(crate) fn copy(&self, alloc: Global) -> Result<SharedOrder, AllocError>
        ensures { IfOk result (λ other. other ≡ self.now) }
    {
        let filled = match &self.filled {
            Some(order) => Some(order.copy(alloc)?),
            None => None,
        };
        Ok(SharedOrder { filled })
    }
}

/// Whether the nodes are one, and the gap is at most 0: this alone is shown by no facts.
fn is_itself(low: u32, gap: i128, high: u32) -> bool
    ensures { IsTrue result ↔ ((low ≡ high) × (gap ≤ℤ pos 0)) }
{
    low == high && gap <= 0
}

/// The greatest number by which no facts show one node to be less than another: 0 for a node and
/// itself.
fn no_gap(low: u32, high: u32) -> Option<i128>
    ensures greatest { IsGreatest (λ k. Shows [] low k high) result }
    ensures within { IfSome result (λ k. (neg_ℤ (pos (2 ^ 97)) ≤ℤ k) × (k ≤ℤ pos (2 ^ 97))) }
{
    if low == high { Some(0) } else { None }
}

/// Adds the fact to the order, or to a copy of it in its place if others hold it too.
fn add_to(
    alloc: Global,
    order: &mut Shared<Order>,
    low: u32,
    gap: i128,
    high: u32,
) -> Result<(), AllocError>
    requires above { neg_ℤ (pos (2 ^ 65)) ≤ℤ gap }
    requires below { gap ≤ℤ pos (2 ^ 65) }
    ensures ok { OnOk result (order.new ≡ order.old
        ++ record { low = low; gap = gap; high = high } ∷ []) }
    ensures err { OnErr result (order.new ≡ order.old) }
{
    match order.get_mut() {
        Some(own) => own.add(low, gap, high),
        None => {
            let mut own = Order::copy(order, alloc)?;
            own.add(low, gap, high)?;
            *order = Shared::new(alloc, own)?;
            Ok(())
        }
    }
}
