// Counts of 64 bits.
ghost use Rattle.std.specs.Prelude.{◌≡◌, ◌↔◌, ◌+◌, ◌≤◌, Contains, IsTrue, min};
ghost use Rattle.ba_outside.specs.Causes.{last_count};

// A count that never falls and stops at its last value.
#[derive(Drop)]
pub(crate) struct Count {
    value: u64,
    ghost of_64_bits: { value ≤ last_count },
}

impl Count {
    pub(crate) fn new() -> Self
        ensures { result.value ≡ 0 }
    {
        Count { value: 0 }
    }

    // Counts so many more.
    pub(crate) fn raise(&mut self, amount: u64)
        ensures { self.new.value ≡ min (self.old.value + amount) last_count }
    {
        self.value = self.value.saturating_add(amount);
    }
}

// Whether a list has the number of a call.
pub(crate) fn is_listed(numbers: &[u64], call: u64) -> bool
    ensures { IsTrue result ↔ Contains numbers.now call }
{
    numbers.contains(&call)
}
