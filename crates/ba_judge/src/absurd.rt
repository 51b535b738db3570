//! Whether a proof rests on what can't be true.
ghost use Rattle.std.specs.Prelude.{◌≡◌};
ghost use Rattle.std.specs.List.{list_any};
ghost use Rattle.ba_judge.specs.Judging.{is_absurd};

use ba_kernel::Step;

fn is_absurd(step: &Step) -> bool
    ensures { result ≡ is_absurd step.now }
{
    match step {
        Step::Absurd { .. } => true,
        Step::Entry { .. }
        | Step::Key { .. }
        | Step::Link { .. }
        | Step::Rule { .. }
        | Step::View { .. }
        | Step::Split { .. }
        | Step::Goal { .. } => false,
    }
}

/// Whether one of the steps ends its branch because what is known there can't be true.
pub(crate) fn end_absurd(steps: &[Step]) -> bool
    ensures { result ≡ list_any is_absurd steps.now }
{
    steps.iter().any(is_absurd)
}
