//! What holds of any facts, stated as functions that do nothing.

ghost use Rattle.ba_classes.specs.Chains.{ShownIsTrue, AbsurdHasNoValues};

/// What facts show is true of whatever values make the facts true.
pub fn shown_is_true()
    ensures { ShownIsTrue }
{}

/// No values make absurd facts true.
pub fn absurd_has_no_values()
    ensures { AbsurdHasNoValues }
{}
