//! What holds of every search, stated as functions that do nothing.
ghost use Rattle.ba_instant.specs.Loose.{LooseStays};
ghost use Rattle.ba_instant.specs.QuietSteps.{GivenCaseIsQuiet, NewAfterQuietStep, QuietStepKeeps, RunsAreFilled};
ghost use Rattle.ba_instant.specs.Windows.{DueIsQuiet, NewWasNew, QuietAtFirst, QuietIsNotAbsurd, QuietStays, RunsAreGrounded};

/// Each open branch of a course is grounded.
pub fn runs_are_grounded()
    ensures { RunsAreGrounded }
{}

/// Where a branch grows quietly by facts of no round below a bound, a step of a round up to the
/// bound that is new then was new before, of the same round.
pub fn new_was_new()
    ensures { NewWasNew }
{}

/// Where a branch grows quietly by facts of no round below a bound, it stays quiet up to the bound.
pub fn quiet_stays()
    ensures { QuietStays }
{}

/// Where a branch is told a loose comparison, it stays quiet up to a bound, but maybe for steps by
/// rules and views.
pub fn loose_stays()
    ensures { LooseStays }
{}

/// Where a branch grows quietly it isn't absurd if it wasn't.
pub fn quiet_is_not_absurd()
    ensures { QuietIsNotAbsurd }
{}

/// No step is new whose round is before that of a branch's due step.
pub fn due_is_quiet()
    ensures { DueIsQuiet }
{}

/// No step that tells a branch something is of round 0.
pub fn quiet_at_first()
    ensures { QuietAtFirst }
{}

/// The facts of each open branch of a course have terms that may stand in their tables' columns.
pub fn runs_are_filled()
    ensures { RunsAreFilled }
{}

/// A case of a row that some rows of terms give already grows quietly.
pub fn given_case_is_quiet()
    ensures { GivenCaseIsQuiet }
{}

/// What is new after a quiet step, of a round up to the step's, was new before, of the same round.
pub fn new_after_quiet_step()
    ensures { NewAfterQuietStep }
{}

/// After a quiet step the branch of its number stays quiet up to each round before the step's.
pub fn quiet_step_keeps()
    ensures { QuietStepKeeps }
{}
