//! Why a course of steps proves, stated as functions that do nothing.
ghost use Rattle.ba_kernel.specs.Asked.{AnswersAreRecords, CheckedLinksFit, QuestionIsProblem};
ghost use Rattle.ba_kernel.specs.Courses.{ClosedIsStrong, RunsAreSound};
ghost use Rattle.ba_kernel.specs.Problems.{ProblemIsQuestion};
ghost use Rattle.ba_kernel.specs.Replays.{ReplaysHaveOneEnd};
ghost use Rattle.ba_kernel.specs.Soundness.{CaseKeepsFit, StartFits, StepKeepsFit};
ghost use Rattle.ba_kernel.specs.SearchStates.{RunsAreTidy};

use ba_facts::laws::{
    absurd_has_no_fit, not_null_is_true, same_is_true, shown_is_true_of_values,
    strong_has_no_violation,
};

/// Where a part of a query gives a row in one side's database, two databases that fit a branch fit
/// the case of the part, in which its facts are the rows that give it, its atoms are learned, and
/// its head is the same as the row.
pub fn case_keeps_fit()
    ensures { CaseKeepsFit }
{}

/// Two databases and a row that break the strong compliance of an instance of a problem fit a
/// branch of its start.
pub fn start_fits()
    ensures { StartFits }
{}

/// Each step is sound: what breaks compliance and fits a branch fits one of the cases that the step
/// makes of it.
pub fn step_keeps_fit()
    ensures { StepKeepsFit }
{
    shown_is_true_of_values();
    not_null_is_true();
    same_is_true();
    absurd_has_no_fit();
}

/// Whatever breaks the strong compliance of an instance fits an open branch after any steps.
pub fn runs_are_sound()
    ensures { RunsAreSound }
{
    step_keeps_fit();
}

/// A course that leaves no branch open proves that each instance of its problem is strongly
/// compliant.
pub fn closed_is_strong()
    ensures { ClosedIsStrong }
{
    step_keeps_fit();
    strong_has_no_violation();
}

/// The open branches of a course have facts of tables of the schema, one term for each column, and
/// know of all their terms.
pub fn runs_are_tidy()
    ensures { RunsAreTidy }
{}

/// Steps that close a problem from its start have no fault, and others have one at most.
pub fn replays_have_one_end()
    ensures { ReplaysHaveOneEnd }
{}

/// The links of a schema's tables fit where the tables are checked.
pub fn checked_links_fit()
    ensures { CheckedLinksFit }
{}

/// Rows of a checked query's answer, in a database that conforms, may be recorded.
pub fn answers_are_records()
    ensures { AnswersAreRecords }
{}

/// The problem of a question fits where the schema, the views, the context, the recorded rows and
/// the query are as their readers ensure.
pub fn question_is_problem()
    ensures { QuestionIsProblem }
{}

/// A question is strongly compliant after a trace where each instance of its problem is: the
/// problem without variables, in which each parameter has its value in the context, with one entry
/// for each recorded row.
pub fn problem_is_question()
    ensures { ProblemIsQuestion }
{}
