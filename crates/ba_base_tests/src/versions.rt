//! Versions that have a number and nothing else.
ghost use Rattle.std.specs.Prelude.{◌≡◌, ◌+◌, ◌-◌, ◌<◌, ◌≤◌, [], ◌∷◌, ◌++◌, map, take, count_by, EachIndex, slice_index, vec_len, vec_capacity};

use ba_turn::Storied;
use std::alloc::{AllocError, Global};

/// A call with its answer: the number of the version that it published, or of the last one.
#[derive(Drop, Clone, Copy)]
pub struct Call {
    pub publishes: bool,
    pub number: u64,
}

/// A history is legal where each call answers how many versions were published up to it.
#[derive(Drop)]
pub struct Versions {
    pub count: u64,
    pub history: Vec<Call>,
    ghost counted: { count ≡ count_by (λ c. c.publishes) history.items },
    ghost few: { count ≤ vec_len history },
    ghost legal: { EachIndex history.items (λ i. slice_index (map (λ c. c.number) history.items) i ≡ count_by (λ c. c.publishes) (take (i + 1) history.items)) },
}

impl Storied for Versions {
    type Opening = ();

    type Entry = Call;

    ghost opening = { λ _. tt };

    ghost history = { λ v. v.history.items };

    ghost room = { λ v. vec_capacity v.history - vec_len v.history };

    fn reserve(&mut self, calls: u32) -> Result<(), AllocError> {
        self.history.reserve(calls as usize)
    }
}

impl Versions {
    pub fn new(alloc: Global) -> Versions
        ensures { result.history.items ≡ [] }
    {
        Versions {
            count: 0,
            history: Vec::new(alloc),
        }
    }

    /// Publishes a version, or pins the last one, and gives its number.
    pub fn call(&mut self, publishes: bool) -> u64
        requires { vec_len self.old.history < vec_capacity self.old.history }
        ensures history { self.new.history.items ≡ self.old.history.items ++ record { publishes = publishes; number = result } ∷ [] }
        ensures room { vec_capacity self.new.history ≡ vec_capacity self.old.history }
    {
        let number = if publishes {
            self.count + 1
        } else {
            self.count
        };
        self.history.push_reserved(Call { publishes, number });
        self.count = number;
        number
    }
}
