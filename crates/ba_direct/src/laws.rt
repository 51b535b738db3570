//! What a cover gives.
ghost use Rattle.ba_direct.specs.Cover.{CoverCovers, CoveredIsStrong};

/// A covered query is strongly compliant, after any trace.
pub fn covered_is_strong()
    ensures { CoveredIsStrong }
{}

/// A query that has a cover is covered.
pub fn cover_covers()
    ensures { CoverCovers }
{}
