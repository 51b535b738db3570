//! What holds of every search, stated as functions that do nothing.
ghost use Rattle.ba_settle.specs.Dues.{DueListsAreOne, EndsAreLeaves, PickedIsOne, SearchesAreDue};
ghost use Rattle.ba_settle.specs.Settling.{SettledAreDue, SettledAreLeaves};

/// A leaf that a search ends at is one: its steps are accepted from its problem's start, and leave
/// its branch, on which no step is new.
pub fn ends_are_leaves()
    ensures { EndsAreLeaves }
{}

/// The steps of a search are a due list of its problem.
pub fn searches_are_due()
    ensures { SearchesAreDue }
{}

/// The order of steps tells any two apart, so that one step at most is picked of all due ones.
pub fn picked_is_one()
    ensures { PickedIsOne }
{}

/// A problem has one due list at most of each length, so that what a search takes and leaves after
/// so many steps is determined.
pub fn due_lists_are_one()
    ensures { DueListsAreOne }
{}

/// A leaf that a search ends at is one, however it is made.
pub fn settled_are_leaves()
    ensures { SettledAreLeaves }
{}

/// The steps that a search tells are a due list of its problem; or else a late one, where it is made
/// in both orders and doesn't spend its budget.
pub fn settled_are_due()
    ensures { SettledAreDue }
{}
