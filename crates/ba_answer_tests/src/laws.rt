//! Laws of worked examples.
ghost use Rattle.ba_answer_tests.specs.JoinSteps.{JoinInSevenSteps};

/// By the bound of `ba_eval::answer_counted` the titles of the events that the user 2 attends are found in seven steps, over two
/// events and two attendances.
pub fn join_in_seven_steps()
    ensures { JoinInSevenSteps }
{}
