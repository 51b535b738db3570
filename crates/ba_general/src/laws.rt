//! What holds of every template of a proof, stated as functions that do nothing.
ghost use Rattle.ba_general.specs.Dropping.{AcceptanceGrows, PassIsMinimal, RunDropsEach};
ghost use Rattle.ba_general.specs.Generals.{FullIsAccepted, OwnQuestionMatches, PatternStands, TemplateIsMinimal, TooWideIsNone, WideByOwnSteps};
ghost use Rattle.ba_general.specs.Layouts.{RunsAreLaidOut};
ghost use Rattle.ba_general.specs.Leaving.{KeptAreOne, StepsMakeTheirs};
ghost use Rattle.ba_general.specs.Patterns.{PatternIsOne};

/// The steps that a proof keeps are determined.
pub fn kept_are_one()
    ensures { KeptAreOne }
{}

/// A problem has one pattern with the same of its entries.
pub fn pattern_is_one()
    ensures { PatternIsOne }
{}

/// A proof that is too wide has no template.
pub fn too_wide_is_none()
    ensures { TooWideIsNone }
{}

/// A proof is too wide only by entries that its own steps name: they are more than
/// [`crate::MAX_KEPT_ENTRIES`], or the variables for the literals of the question and of them and
/// the policy's parameters are more than [`crate::MAX_OPERANDS`].
pub fn wide_by_own_steps()
    ensures { WideByOwnSteps }
{}

/// The question of a proof, asked again after the proof's trace, is matched by the template.
pub fn own_question_matches()
    ensures { OwnQuestionMatches }
{}

/// Steps that are accepted with some atoms assumed are accepted with more.
pub fn acceptance_grows()
    ensures { AcceptanceGrows }
{}

/// So what one pass leaves can't be dropped.
pub fn pass_is_minimal()
    ensures { PassIsMinimal }
{}

/// No atom of a template's condition can be dropped.
pub fn template_is_minimal()
    ensures { TemplateIsMinimal }
{}

/// The steps of a proof are accepted of its pattern under the full condition.
pub fn full_is_accepted()
    ensures { FullIsAccepted }
{}

/// Each variable of a pattern stands in its goal or an entry.
pub(crate) fn pattern_stands()
    ensures { PatternStands }
{}

/// The tables of each branch's facts are those that its steps tell.
pub(crate) fn runs_are_laid_out()
    ensures { RunsAreLaidOut }
{}

/// What each step makes, as these tables tell, is what it makes in the course.
pub(crate) fn steps_make_theirs()
    ensures { StepsMakeTheirs }
{}

/// Where all of a run can be dropped at once, each is dropped in turn.
pub(crate) fn run_drops_each()
    ensures { RunDropsEach }
{}
