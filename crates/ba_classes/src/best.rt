ghost use Rattle.std.specs.Prelude.{◌≡◌, ℕ, ℤ, pos, neg_ℤ, ◌+ℤ◌, ◌≤ℤ◌, ◌^◌, ◌↔◌, IsTrue, if◌then◌else◌};
ghost use Rattle.ba_classes.specs.Best.{Reaches, IsWithin, better, joined, or_nothing};

/// The greatest sum of the chains from one node to another.
#[derive(Clone, Copy)]
pub enum Best {
    /// There is no chain.
    Absent,
    Sum(i128),
    /// A chain goes through a circle whose sum is above 0, so there are chains of any sum.
    Unbounded,
}

impl Best {
    /// Whether some chain sums to at least `k`.
    pub fn reaches(self, k: i128) -> bool
        ensures { IsTrue result ↔ Reaches self k }
    {
        match self {
            Best::Absent => false,
            Best::Sum(sum) => k <= sum,
            Best::Unbounded => true,
        }
    }

    /// Whether no chain of `other` is better than these.
    pub fn covers(self, other: Best) -> bool
        ensures { IsTrue result → better self other ≡ self }
    {
        match (self, other) {
            (_, Best::Absent) | (Best::Unbounded, _) => true,
            (Best::Sum(left), Best::Sum(right)) => right <= left,
            _ => false,
        }
    }

    /// The best of two sets of chains.
    pub fn better(self, other: Best) -> Best
        ensures { result ≡ better self other }
    {
        match (self, other) {
            (Best::Absent, _) => other,
            (_, Best::Absent) => self,
            (Best::Sum(left), Best::Sum(right)) => Best::Sum(left.max(right)),
            _ => Best::Unbounded,
        }
    }

    /// The best of the chains that go on by one of `other`.
    pub fn joined(self, other: Best) -> Best
        requires left { IsWithin (2 ^ 99) self }
        requires right { IsWithin (2 ^ 99) other }
        ensures { result ≡ joined self other }
    {
        match (self, other) {
            (Best::Absent, _) | (_, Best::Absent) => Best::Absent,
            (Best::Sum(left), Best::Sum(right)) => Best::Sum(left + right),
            _ => Best::Unbounded,
        }
    }

    /// The same with the empty chain among them, where the two nodes are one.
    pub fn or_nothing(self, one_node: bool) -> Best
        ensures { result ≡ or_nothing one_node self }
    {
        if one_node {
            self.better(Best::Sum(0))
        } else {
            self
        }
    }

    /// The same chains, whose sums are so much less.
    pub fn less(self, by: i128) -> Best
        requires within { IsWithin (2 ^ 98) self }
        requires above { neg_ℤ (pos (2 ^ 66)) ≤ℤ by }
        requires below { by ≤ℤ pos (2 ^ 66) }
        ensures { (k : ℤ) → Reaches result k ↔ Reaches self (by +ℤ k) }
    {
        match self {
            Best::Sum(sum) => Best::Sum(sum - by),
            _ => self,
        }
    }
}
