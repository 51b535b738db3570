//! The numbers that a seed draws.
ghost use Rattle.std.specs.Prelude.{◌≡◌, ◌<◌};
ghost use Rattle.ba_workload.specs.Draws.{drawn, next};

const FACTOR: u64 = 6_364_136_223_846_793_005;

const STEP: u64 = 1_442_695_040_888_963_407;

/// A generator that is at some state.
#[derive(Debug, Drop)]
pub(crate) struct Draws {
    pub(crate) state: u64,
}

impl Draws {
    /// The next number, below a number.
    #[tactic(auto, unfolding(crate::specs::Draws::drawn))]
    pub(crate) fn below(&mut self, n: u32) -> u32
        requires { 0 < n }
        ensures state { self.new.state ≡ next self.old.state }
        ensures drawn { result ≡ drawn n (next self.old.state) }
        ensures below { result < n }
    {
        self.state = advance(self.state);
        ((self.state >> 33) % n as u64) as u32
    }
}

fn advance(state: u64) -> u64
    ensures { result ≡ next state }
{
    state.wrapping_mul(FACTOR).wrapping_add(STEP)
}
