//! What the tests of a branch mean for the databases that it fits, stated as functions that do
//! nothing.

ghost use Rattle.ba_facts.specs.Laws.{AbsurdHasNoFit, NotNullIsTrue, RefutedIsFalse, SameIsTrue, ShownIsTrue, ShownIsTrueOfValues, StrongHasNoViolation, TrueLessonKeepsFit};

/// What a branch shows is true in every fit.
pub fn shown_is_true()
    ensures { ShownIsTrue }
{}

/// What a branch shows is true in every fit, where the sides' values are of one kind or NULL.
pub fn shown_is_true_of_values()
    ensures { ShownIsTrueOfValues }
{}

/// The value of a term that a branch shows not null isn't NULL in any fit.
pub fn not_null_is_true()
    ensures { NotNullIsTrue }
{}

/// What a branch refutes is false in every fit.
pub fn refuted_is_false()
    ensures { RefutedIsFalse }
{}

/// Terms that are the same have one value in every fit.
pub fn same_is_true()
    ensures { SameIsTrue }
{}

/// An absurd branch has no fit.
pub fn absurd_has_no_fit()
    ensures { AbsurdHasNoFit }
{}

/// Learning what is true keeps a fit.
pub fn true_lesson_keeps_fit()
    ensures { TrueLessonKeepsFit }
{}

/// A query is strongly compliant exactly where no violation is.
pub fn strong_has_no_violation()
    ensures { StrongHasNoViolation }
{}
