ghost use Rattle.std.specs.Prelude.{◌≡◌, ℕ, ℤ, ◌^◌, pos, neg_ℤ, ◌≤ℤ◌, [], ◌∷◌, ◌++◌, ◌↔◌, IsTrue, IfOk, IfSome, OnOk, OnErr};
ghost use Rattle.ba_classes.specs.Best.{IsWithin, Reaches};
ghost use Rattle.ba_classes.specs.Chains.{Shows, IsAbsurd};
ghost use Rattle.ba_classes.specs.Closure.{through};
ghost use Rattle.ba_classes.specs.Image.{IsAtLeast, IsAtMost, IsGreatest, IsLeast, IsValue, IsImage, Meets, with_zero};

use super::best::Best;
use super::grid::Grid;
use super::image::{difference, greater, lesser, sum, value_between};
use super::tied::Tied;
use std::alloc::{AllocError, Global};
use std::marker::Model;

/// The fact that the node `low` plus `gap` is at most the node `high`.
#[derive(Clone, Copy)]
pub struct Difference {
    pub low: u32,
    pub gap: i128,
    pub high: u32,
}

/// Facts about the differences of whole numbers, and what follows from them by addition.
///
/// A node is named by its number and needs no making; node 0 stands for the number 0. Nodes are best
/// numbered in turn: the greatest one of the facts takes eight bytes for each number up to its own.
/// A contract sees the list of the facts, the oldest first. Beside it the best sum of the chains
/// between any two named nodes is kept, so that a question is a look-up; a fact that is added
/// extends them in the square of the number of nodes. A node whose value the facts show leaves them
/// as soon as those named after it have: what is asked or said of it then is asked or said of node
/// 0.
#[derive(Drop)]
pub struct Order {
    facts: Vec<Difference>,
    tied: Tied,
    grid: Grid,
    is_absurd: bool,
}

impl Model for Order {
    ghost use Rattle.std.specs.Prelude.{List};
    ghost use Rattle.ba_classes.specs.Tied.{IsOrder, value_of};
    ghost use Rattle.ba_classes.specs.declared.order.Difference.{Difference};

    ghost Value = { List Difference };

    ghost view = { λ o. o.facts.items };

    ghost invariant = { λ o.
        IsOrder o.facts.items (value_of o.tied.values) o.grid.places o.grid.rows.items o.is_absurd };
}

impl Order {
    /// No facts.
    pub fn new(alloc: Global) -> Order
        ensures { result ≡ [] }
    {
        Order {
            facts: Vec::new(alloc),
            tied: Tied::new(alloc),
            grid: Grid::new(alloc),
            is_absurd: false,
        }
    }

    /// Adds the fact that `low` plus `gap` is at most `high`. Without memory nothing changes.
    pub fn add(&mut self, low: u32, gap: i128, high: u32) -> Result<(), AllocError>
        requires above { neg_ℤ (pos (2 ^ 65)) ≤ℤ gap }
        requires below { gap ≤ℤ pos (2 ^ 65) }
        ensures ok { OnOk result
            (self.new ≡ self.old ++ record { low = low; gap = gap; high = high } ∷ []) }
        ensures err { OnErr result (self.new ≡ self.old) }
    {
        if !self.shows(low, gap, high) {
            self.extend(low, gap, high)?;
            self.settle();
            return Ok(());
        }
        self.facts.push(Difference { low, gap, high })?;
        Ok(())
    }

    // Adds a fact, and the chains through it.
    fn extend(&mut self, low: u32, gap: i128, high: u32) -> Result<(), AllocError>
        requires above { neg_ℤ (pos (2 ^ 65)) ≤ℤ gap }
        requires below { gap ≤ℤ pos (2 ^ 65) }
        ensures ok { OnOk result
            (self.new ≡ self.old ++ record { low = low; gap = gap; high = high } ∷ []) }
        ensures err { OnErr result (self.new ≡ self.old) }
    {
        let based = self.tied.based(low, gap, high);
        let from = self.grid.place(based.low)?;
        let to = self.grid.place(based.high)?;
        let onward = self.grid.onward(to)?;
        let gains = onward.at(from).reaches(1 - based.gap);
        let rows = self.grid.raised(from, through(gains, based.gap), &onward)?;
        self.facts.push(Difference { low, gap, high })?;
        self.grid.set_rows(rows);
        self.is_absurd |= gains;
        Ok(())
    }

    // Ties the nodes with the last places whose values are known, and gives these places back.
    fn settle(&mut self)
        ensures { self.new ≡ self.old }
    {
        for _ in 0..self.grid.side() {
            if !self.settle_last() {
                return;
            }
        }
    }

    // The same for one place. Answers whether it was given back.
    fn settle_last(&mut self) -> bool
        ensures { self.new ≡ self.old }
    {
        let Some(node) = self.grid.last() else {
            return false;
        };
        let Some(value) = self.grid.known(node) else {
            return false;
        };
        if node == 0 || !self.tied.tie(node, value) {
            return false;
        }
        self.grid.give_back(node);
        true
    }

    /// Whether a chain of the facts from `low` to `high` sums to at least `gap`. The empty chain
    /// from a node to itself sums to 0.
    pub fn shows(&self, low: u32, gap: i128, high: u32) -> bool
        ensures { IsTrue result ↔ Shows self.now low gap high }
    {
        self.best(low, high).reaches(gap)
    }

    /// Whether some chain of the facts from a node to itself sums above 0.
    pub fn absurd(&self) -> bool
        ensures { IsTrue result ↔ IsAbsurd self.now }
    {
        self.is_absurd
    }

    /// Whole numbers for the nodes, in turn, that make true what the facts show of them and of node
    /// 0, whose value is 0.
    ///
    /// A node's value lies between the greatest lower and the least upper bound that the facts and
    /// the values before it show. It is the least unused number from the lower bound on, or from 0
    /// on where there are no bounds, or the greatest up to the upper bound where there is no lower
    /// one. Where all numbers between two bounds are used it is the lower bound. A number is used
    /// where it is in `used` or was given to a node before.
    ///
    /// `AllocError` comes also where a number would pass 128 bits: with sums of chains of at most
    /// `2^97`, that takes more than `2^28` nodes.
    pub fn solve(
        &self,
        alloc: Global,
        nodes: &[u32],
        used: &[i128],
    ) -> Result<Vec<i128>, AllocError>
        requires { ¬ (IsAbsurd self.now) }
        ensures image { IfOk result (λ it. IsImage self.now used.now nodes.now it.items) }
        ensures meets { IfOk result (λ it. Meets self.now (with_zero nodes.now it.items)) }
    {
        let mut valued = Vec::new(alloc);
        valued.push((0, 0))?;
        let mut taken = Vec::from_slice(alloc, used)?;
        let mut values = Vec::new(alloc);
        for node in nodes {
            let value = self.value(&valued, &taken, *node)?;
            valued.push((*node, value))?;
            taken.push(value)?;
            values.push(value)?;
        }
        Ok(values)
    }

    /// The facts, the oldest first.
    pub fn facts(&self) -> &[Difference]
        ensures { result.now ≡ self.now }
    {
        &self.facts
    }

    /// The same facts. The best sums are shared until one of the orders gets a fact that changes
    /// them.
    pub fn copy(&self, alloc: Global) -> Result<Order, AllocError>
        ensures { IfOk result (λ other. other ≡ self.now) }
    {
        Ok(Order {
            facts: Vec::from_slice(alloc, &self.facts)?,
            tied: self.tied.copy()?,
            grid: self.grid.copy(alloc)?,
            is_absurd: self.is_absurd,
        })
    }

    // The value of a node, where some nodes have values and some numbers are used.
    fn value(&self, valued: &[(u32, i128)], used: &[i128], node: u32) -> Result<i128, AllocError>
        requires { ¬ (IsAbsurd self.now) }
        ensures { IfOk result (IsValue self.now valued.now used.now node) }
    {
        let low = self.lower_bound(valued, node)?;
        let high = self.upper_bound(valued, node)?;
        value_between(used, low, high)
    }

    // The greatest lower bound of a node that the facts and the values show.
    fn lower_bound(&self, valued: &[(u32, i128)], node: u32) -> Result<Option<i128>, AllocError>
        requires { ¬ (IsAbsurd self.now) }
        ensures { IfOk result (IsGreatest (IsAtLeast self.now valued.now node)) }
    {
        let mut bound = None;
        for (other, value) in valued {
            if let Some(gap) = self.gap(*other, node) {
                bound = greater(bound, sum(*value, gap)?);
            }
        }
        Ok(bound)
    }

    // The least upper bound of a node that the facts and the values show.
    fn upper_bound(&self, valued: &[(u32, i128)], node: u32) -> Result<Option<i128>, AllocError>
        requires { ¬ (IsAbsurd self.now) }
        ensures { IfOk result (IsLeast (IsAtMost self.now valued.now node)) }
    {
        let mut bound = None;
        for (other, value) in valued {
            if let Some(gap) = self.gap(node, *other) {
                bound = lesser(bound, difference(*value, gap)?);
            }
        }
        Ok(bound)
    }

    /// The greatest number by which the facts show one node to be less than another, if they show
    /// any. It has at most 98 bits.
    pub fn gap(&self, low: u32, high: u32) -> Option<i128>
        requires { ¬ (IsAbsurd self.now) }
        ensures greatest { IsGreatest (λ k. Shows self.now low k high) result }
        ensures within { IfSome result (λ k. (neg_ℤ (pos (2 ^ 97)) ≤ℤ k) × (k ≤ℤ pos (2 ^ 97))) }
    {
        match self.best(low, high) {
            Best::Sum(gap) => Some(gap),
            _ => None,
        }
    }

    // The best of the chains from one node to another.
    fn best(&self, low: u32, high: u32) -> Best
        ensures reaches { (k : ℤ) → Reaches result k ↔ Shows self.now low k high }
        ensures unbounded { result ≡ Best.Unbounded → IsAbsurd self.now }
        ensures within { IsWithin (2 ^ 97) result }
    {
        let based = self.tied.based(low, 0, high);
        self.grid
            .between(based.low, based.high)
            .or_nothing(based.low == based.high)
            .less(based.gap)
    }
}

// The best of the chains that begin and end with a fact of this gap, where `gains` says whether it
// gains with a way back.
fn through(gains: bool, gap: i128) -> Best
    ensures { result ≡ through gains gap }
{
    if gains {
        Best::Unbounded
    } else {
        Best::Sum(gap)
    }
}
