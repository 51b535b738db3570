//! The numbers that are used, and the unused ones next to a bound.
ghost use Rattle.std.specs.Prelude.{◌≡◌, ℤ, pos, ◌≤ℤ◌, ◌<ℤ◌, ◌↔◌, [], Contains, IfOk, IsTrue, OnOk};
ghost use Rattle.ba_classes.specs.Image.{IsGreatestUnused, IsLeastUnused, IsValueBetween};
ghost use Rattle.ba_refute.specs.Used.{AreWith, HaveSame};

use ba_classes::image::{difference, sum};
use std::alloc::{AllocError, Global};
use std::collections::BTreeSet;
use std::marker::Model;

/// Numbers that are used. A contract sees them, each once.
#[derive(Drop)]
pub(crate) struct Used {
    numbers: BTreeSet<i128>,
    /// From 0 up to below this one all are used.
    end: i128,
}

impl Model for Used {
    ghost use Rattle.std.specs.Prelude.{ℤ, List};
    ghost use Rattle.std.specs.BTreeSet.{keys};
    ghost use Rattle.ba_refute.specs.Used.{AreAllBelow};

    ghost Value = { List ℤ };

    ghost view = { λ used. keys used.numbers };

    ghost invariant = { λ used. AreAllBelow (keys used.numbers) used.end };
}

impl Used {
    fn none(alloc: Global) -> Used
        ensures { result ≡ [] }
    {
        Used {
            numbers: BTreeSet::new(alloc),
            end: 0,
        }
    }

    /// Those of the list.
    pub(crate) fn of(alloc: Global, list: &[i128]) -> Result<Used, AllocError>
        ensures { IfOk result (λ it. HaveSame it list.now) }
    {
        let mut used = Used::none(alloc);
        for number in list {
            used.add(*number)?;
        }
        Ok(used)
    }

    fn has(&self, number: i128) -> bool
        ensures { IsTrue result ↔ Contains self.now number }
    {
        self.numbers.contains(&number)
    }

    /// One more number. Without memory nothing changes.
    pub(crate) fn add(&mut self, number: i128) -> Result<(), AllocError>
        ensures { OnOk result (AreWith self.old number self.new) }
    {
        self.numbers.insert(number)?;
        Ok(())
    }

    // A number from `low` on below which, from `low` on, all are used.
    fn pass(&self, low: i128) -> i128
        ensures from { low ≤ℤ result }
        ensures passed { (n : ℤ) → low ≤ℤ n → n <ℤ result → Contains self.now n }
    {
        if low < 0 { low } else { low.max(self.end) }
    }

    // The least unused number from `low` on. `AllocError` where it is past 128 bits.
    fn least_from(&self, low: i128) -> Result<i128, AllocError>
        ensures { IfOk result (IsLeastUnused self.now low) }
    {
        let mut number = self.pass(low);
        while self.has(number) {
            number = sum(number, 1)?;
        }
        Ok(number)
    }

    // The greatest unused number up to `high`. `AllocError` where it is past 128 bits.
    fn greatest_upto(&self, high: i128) -> Result<i128, AllocError>
        ensures { IfOk result (IsGreatestUnused self.now high) }
    {
        let mut number = high;
        while self.has(number) {
            number = difference(number, 1)?;
        }
        Ok(number)
    }

    /// The least unused number from 0 on. `AllocError` where it is past 128 bits. The numbers stay.
    pub(crate) fn least(&mut self) -> Result<i128, AllocError>
        ensures least { IfOk result (IsLeastUnused self.old (pos 0)) }
        ensures numbers { self.new ≡ self.old }
    {
        let least = self.least_from(0)?;
        self.end = least;
        Ok(least)
    }

    /// The value of a node between its bounds, where there are any. The numbers stay.
    pub(crate) fn value_between(
        &mut self,
        low: Option<i128>,
        high: Option<i128>,
    ) -> Result<i128, AllocError>
        ensures value { IfOk result (IsValueBetween self.old low high) }
        ensures numbers { self.new ≡ self.old }
    {
        match (low, high) {
            (None, None) => self.least(),
            (Some(low), None) => self.least_from(low),
            (None, Some(high)) => self.greatest_upto(high),
            (Some(low), Some(high)) => {
                let number = self.least_from(low)?;
                Ok(if number <= high { number } else { low })
            }
        }
    }
}
