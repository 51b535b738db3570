// Work that a thread does.
ghost use Rattle.std.specs.Prelude.{ℕ};

use ba_outside::Gate;

/// Work that one thread does, from its inputs to its results, in one value. What it shares with other jobs it borrows;
/// what it alone has to work with it owns.
pub trait Job {
    /// What the job asks of itself and of its number before the work.
    ghost ready: { Self → ℕ → Type 0 };

    /// What the work does: of the job before it, its number, and the job after it.
    ghost done: { Self → ℕ → Self → Type 0 };

    /// Does the work of the job of that number, once and to its end. The job passes the gate before each piece of its work;
    /// the gate changes nothing that it does.
    fn work<G: Gate>(&mut self, job: u32, gate: &G)
        requires { ready self.old job }
        ensures { done self.old job self.new };
}
