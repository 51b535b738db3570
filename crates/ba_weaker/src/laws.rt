//! Laws of weaker entries.
ghost use Rattle.ba_weaker.specs.Laws.{WeakerHasRows, WeakerIsOnePart, WeakerIsQuery, WeakerIsShown, WeakerRowsProve};

/// In any database each row of a question is a row of the weaker one.
pub fn weaker_has_rows()
    ensures { WeakerHasRows }
{}

/// A database that shows a trace shows the weaker one.
pub fn weaker_is_shown()
    ensures { WeakerIsShown }
{}

/// What is strongly compliant after the weaker trace is so after the trace.
pub fn weaker_rows_prove()
    ensures { WeakerRowsProve }
{}

/// The weaker question of a checked one is checked, and its head has the same kinds.
pub fn weaker_is_query()
    ensures { WeakerIsQuery }
{}

/// The weaker question has one part.
pub fn weaker_is_one_part()
    ensures { WeakerIsOnePart }
{}
