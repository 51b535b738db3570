ghost use Rattle.std.specs.Prelude.{◌≡◌, ℕ, ◌+◌, ◌^◌, ◌<◌, ◌≤◌, ◌↔◌, [], ◌∷◌, ◌++◌, length, map, IsTrue, IfOk, OnOk, OnErr, if◌then◌else◌, ◌==◌, slice_index, EachIndex};
ghost use Rattle.ba_classes.specs.Merged.{Connected, IsLabel};

use std::alloc::{AllocError, Global};
use std::marker::Model;

/// For how many further terms and merges there is room at first.
const ROOM: usize = 16;

/// Terms numbered from 0, and the merges that were made of them.
///
/// Each term has a label, and a merge relabels, from the term that is the greater label on. A
/// contract sees how many terms there are and the list of merges, the oldest first.
#[derive(Drop)]
pub struct Classes {
    labels: Vec<u32>,
    merges: Vec<(u32, u32)>,
}

impl Model for Classes {
    ghost use Rattle.std.specs.Prelude.{length};
    ghost use Rattle.ba_classes.specs.Merged.{Merged, IsLabelling};

    ghost Value = { Merged };

    ghost view = { λ c. record { terms = length c.labels.items; merges = c.merges.items } };

    ghost invariant = { λ c. IsLabelling c.labels.items c.merges.items };
}

impl Classes {
    /// `count` terms, none of them merged.
    pub fn new(alloc: Global, count: u32) -> Result<Classes, AllocError>
        ensures { IfOk result (λ it. it ≡ record { terms = count; merges = [] }) }
    {
        Ok(Classes {
            labels: numbers(alloc, count)?,
            merges: Vec::with_capacity(alloc, ROOM)?,
        })
    }

    /// How many terms there are: the number of the next one.
    pub fn terms(&self) -> u64
        ensures { result ≡ self.now.terms }
    {
        self.labels.len() as u64
    }

    /// One more term, merged with none, and its number. Without memory nothing changes.
    pub fn add(&mut self) -> Result<u32, AllocError>
        requires { self.old.terms < 2 ^ 32 }
        ensures number { IfOk result (λ number. number ≡ self.old.terms) }
        ensures ok { OnOk result (self.new ≡ record self.old { terms = self.old.terms + 1 }) }
        ensures err { OnErr result (self.new ≡ self.old) }
    {
        let number = self.labels.len() as u32;
        self.labels.push(number)?;
        Ok(number)
    }

    /// Makes two terms equal, and with them all that are equal to either. Without memory nothing
    /// changes.
    pub fn merge(&mut self, a: u32, b: u32) -> Result<(), AllocError>
        requires left { a < self.old.terms }
        requires right { b < self.old.terms }
        ensures ok { OnOk result
            (self.new ≡ record self.old { merges = self.old.merges ++ (a, b) ∷ [] }) }
        ensures err { OnErr result (self.new ≡ self.old) }
    {
        self.merges.push((a, b))?;
        let left = self.labels[a as usize];
        let right = self.labels[b as usize];
        relabel(&mut self.labels, left.max(right), left.min(right));
        Ok(())
    }

    /// Whether the merges connect the two terms.
    pub fn same(&self, a: u32, b: u32) -> bool
        requires left { a < self.now.terms }
        requires right { b < self.now.terms }
        ensures { IsTrue result ↔ Connected self.now.merges a b }
    {
        self.labels[a as usize] == self.labels[b as usize]
    }

    /// The label of a term: the least term that the merges connect with it.
    pub fn label(&self, a: u32) -> u32
        requires { a < self.now.terms }
        ensures { IsLabel self.now.merges a result }
    {
        self.labels[a as usize]
    }

    /// The same terms with the same merges.
    pub fn copy(&self, alloc: Global) -> Result<Classes, AllocError>
        ensures { IfOk result (λ other. other ≡ self.now) }
    {
        Ok(Classes {
            labels: Vec::from_slice(alloc, &self.labels)?,
            merges: Vec::from_slice(alloc, &self.merges)?,
        })
    }
}

// The numbers from 0 to below `count`, in order.
fn numbers(alloc: Global, count: u32) -> Result<Vec<u32>, AllocError>
    ensures len { IfOk result (λ it. length it.items ≡ count) }
    ensures in_order { IfOk result (λ it. EachIndex it.items (λ k. slice_index it.items k ≡ k)) }
{
    let mut all = Vec::with_capacity(alloc, count as usize + ROOM)?;
    for number in 0..count {
        all.push(number)?;
    }
    Ok(all)
}

// Gives the label `to` to all that have the label `from`. None of them stands before the term `from`.
fn relabel(labels: &mut [u32], from: u32, to: u32)
    requires { (k : ℕ) → k < length labels.old → slice_index labels.old k ≤ k }
    ensures { labels.new ≡ map (λ label. if label == from then to else label) labels.old }
{
    for place in from as usize..labels.len() {
        let old = labels[place];
        labels[place] = if old == from { to } else { old };
    }
}
