//! What strong compliance gives.
ghost use Rattle.ba_comply.specs.Comply.{AnswerEverywhere, CompliesHasOneAnswer, StrongComplies, StrongIsKept};

/// Strong compliance implies compliance, the condition of the paper (OSDI 2022).
pub fn strong_complies()
    ensures { StrongComplies }
{}

/// The answer of a compliant query is one list in any two databases that the user can't tell apart.
pub fn complies_has_one_answer()
    ensures { CompliesHasOneAnswer }
{}

/// Strong compliance is kept when rows or entries are added to the trace.
pub fn strong_is_kept()
    ensures { StrongIsKept }
{}

/// The answer of a strongly compliant query in one database is its answer in every database that the user can't tell
/// from it: one that conforms, gives every view the same rows, and each earlier query its recorded rows.
pub fn answer_everywhere()
    ensures { AnswerEverywhere }
{}
