//! Laws of the definitions.
ghost use Rattle.ba_audit.specs.Audits.{EvidenceIsStrong};
ghost use Rattle.ba_audit.specs.Ends.{AuditsHaveOneEnd};

use ba_direct::laws::covered_is_strong;
use ba_kernel::laws::{closed_is_strong, problem_is_question, question_is_problem};

/// An answer's query is strongly compliant after what its request was told before: by a cover, or by
/// steps that close its problem.
pub fn evidence_is_strong()
    ensures { EvidenceIsStrong }
{
    covered_is_strong();
    closed_is_strong();
    problem_is_question();
    question_is_problem();
}

/// An output that passes an audit has no first fault, and another has one at most.
pub fn audits_have_one_end()
    ensures { AuditsHaveOneEnd }
{}
