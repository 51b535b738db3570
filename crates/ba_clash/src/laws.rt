//! That told rows which clash have no database, and the limit.
ghost use Rattle.std.specs.Prelude.{◌≡◌};
ghost use Rattle.ba_clash.specs.Clash.{ClashingHasNoDatabase, most_compared};

use crate::count::MAX_COMPARED;

/// Where told rows clash, no database that conforms shows what was told before and the new rows.
pub fn clashing_has_no_database()
    ensures { ClashingHasNoDatabase }
{}

/// The constant is the limit of the definitions.
pub fn limit_is()
    ensures { MAX_COMPARED ≡ most_compared }
{}
