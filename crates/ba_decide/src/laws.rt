//! The limit of a line.
ghost use Rattle.std.specs.Prelude.{◌≡◌};
ghost use Rattle.ba_decide.specs.Limits.{most_line_bytes};

use crate::serve::MAX_LINE_BYTES;

/// The constant is the limit of the definitions.
pub fn limits_are()
    ensures line_bytes { MAX_LINE_BYTES ≡ most_line_bytes }
{}
