//! Values that tell their history.
ghost use Rattle.std.specs.Prelude.{◌≡◌, ℕ, ◌≤◌, List, OnOk};

use std::alloc::AllocError;

/// A value with an opening state, a history of entries from it, and spare room for further ones.
/// That a history is legal is a fact that the value's own type keeps.
pub trait Storied {
    /// What the history begins with.
    type Opening;

    /// A call on the value, with its answer.
    type Entry;

    ghost opening: { Self → Self.Opening };

    /// The entries so far, the earliest first.
    ghost history: { Self → List Self.Entry };

    /// How many entries may be added with no memory asked for.
    ghost room: { Self → ℕ };

    /// Makes room for `calls` further entries. Where memory is refused, the opening state and the history are as before,
    /// and there is no less room than before.
    fn reserve(&mut self, calls: u32) -> Result<(), AllocError>
        ensures room { OnOk result (calls ≤ room self.new) }
        ensures same { (opening self.new ≡ opening self.old) × (history self.new ≡ history self.old) }
        ensures no_less { room self.old ≤ room self.new };
}
