ghost use Rattle.std.specs.Prelude.{◌≡◌, ℕ, ℤ, pos, neg_ℤ, ◌≤ℤ◌, ◌^◌, Bool, false, IsTrue, IfOk, None, Some, cond, nat_eq, if◌then◌else◌};
ghost use Rattle.ba_classes.specs.Tied.{AreSmall, based, base_of, offset_of, value_of};

use super::order::Difference;
use std::alloc::{AllocError, Global};
use std::collections::HashMap;

/// The nodes that are tied to node 0, with their values over it.
#[derive(Drop)]
pub struct Tied {
    values: HashMap<u32, i128>,
    ghost small: { AreSmall (value_of values) },
}

impl Tied {
    pub fn new(alloc: Global) -> Tied
        ensures { (n : ℕ) → value_of result.values n ≡ None }
    {
        Tied {
            values: HashMap::new(alloc),
        }
    }

    /// The fact that says the same where tied nodes are written over node 0.
    pub fn based(&self, low: u32, gap: i128, high: u32) -> Difference
        requires above { neg_ℤ (pos (2 ^ 65)) ≤ℤ gap }
        requires below { gap ≤ℤ pos (2 ^ 65) }
        ensures fact { result ≡ based (value_of self.now.values) record { low = low; gap = gap; high = high } }
        ensures above { neg_ℤ (pos (2 ^ 66)) ≤ℤ result.gap }
        ensures below { result.gap ≤ℤ pos (2 ^ 66) }
    {
        let (low, above) = self.base(low);
        let (high, beyond) = self.base(high);
        Difference {
            low,
            gap: above + gap - beyond,
            high,
        }
    }

    // Node 0 and the value of a tied node, or the node itself and 0.
    fn base(&self, node: u32) -> (u32, i128)
        ensures node { result.0 ≡ base_of (value_of self.now.values node) node }
        ensures offset { result.1 ≡ offset_of (value_of self.now.values node) }
        ensures above { neg_ℤ (pos (2 ^ 64)) ≤ℤ result.1 }
        ensures below { result.1 ≤ℤ pos (2 ^ 64) }
    {
        if self.values.is_empty() {
            return (node, 0);
        }
        match self.values.get(&node).copied() {
            Some(value) => (0, value),
            None => (node, 0),
        }
    }

    /// Ties a node, and says so. Without memory nothing changes.
    pub fn tie(&mut self, node: u32, value: i128) -> bool
        requires above { neg_ℤ (pos (2 ^ 64)) ≤ℤ value }
        requires below { value ≤ℤ pos (2 ^ 64) }
        ensures tied { IsTrue result → (n : ℕ) →
            value_of self.new.values n ≡ cond (nat_eq node n) (Some value) (value_of self.old.values n) }
        ensures same { result ≡ false → self.new.values.entries ≡ self.old.values.entries }
    {
        self.values.insert(node, value).is_ok()
    }

    /// The same nodes with the same values.
    pub fn copy(&self) -> Result<Tied, AllocError>
        ensures { IfOk result (λ other. other.values.entries ≡ self.now.values.entries) }
    {
        Ok(Tied {
            values: copy_values(&self.values)?,
        })
    }
}

fn copy_values(values: &HashMap<u32, i128>) -> Result<HashMap<u32, i128>, AllocError>
    ensures { IfOk result (λ other. other.entries ≡ values.now.entries) }
{
    values.clone()
}
