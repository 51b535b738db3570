//! What the matcher's answers are, stated as functions that do nothing.
ghost use Rattle.ba_match.specs.Matching.{FirstMatchIsOne};

/// A template, each of whose variables stands in its goal or an entry, has one first match at most:
/// its values are fixed by its places.
pub fn first_match_is_one()
    ensures { FirstMatchIsOne }
{}
