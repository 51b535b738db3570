//! What an allowed question's answer depends on, that told rows may be recorded, and the limits.
ghost use Rattle.std.specs.Prelude.{◌≡◌};
ghost use Rattle.ba_live.specs.Laws.{AllowedHasOneAnswer, EntriesFit};
ghost use Rattle.ba_live.specs.Limits.{most_open, most_open_asks, most_searched_rows, most_searched_steps, most_told_rows};

use crate::contradict::{MAX_SEARCHED_ROWS, MAX_SEARCHED_STEPS};
use crate::live::{MAX_OPEN, MAX_TOLD_ROWS};
use crate::open::MAX_OPEN_ASKS;

/// A question that is strongly compliant after what was told has one answer in any two databases
/// that meet the schema, agree on the views, and in whose answers all told rows are.
pub fn allowed_has_one_answer()
    ensures { AllowedHasOneAnswer }
{}

/// The entries of told rows fit the policy, so that later questions may be judged after them.
pub fn entries_fit()
    ensures { EntriesFit }
{}

/// The constants are the limits of the definitions.
pub fn limits_are()
    ensures open { MAX_OPEN ≡ most_open }
    ensures told_rows { MAX_TOLD_ROWS ≡ most_told_rows }
    ensures searched_rows { MAX_SEARCHED_ROWS ≡ most_searched_rows }
    ensures searched_steps { MAX_SEARCHED_STEPS ≡ most_searched_steps }
    ensures open_asks { MAX_OPEN_ASKS ≡ most_open_asks }
{}
