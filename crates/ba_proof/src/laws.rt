//! Laws of the definitions.
ghost use Rattle.ba_proof.specs.Checked.{AcceptedIsStrong};
ghost use Rattle.ba_proof.specs.ReadBack.{NullIsNoTerm};
ghost use Rattle.ba_proof.specs.Says.{ProofIsExact};

use ba_sql_query::laws::query_reading;

/// The question of an accepted proof is strongly compliant: the context, the recorded rows and the
/// query of which the problem that was read is.
pub fn accepted_is_strong()
    ensures { AcceptedIsStrong }
{}

/// Which bytes say which problem and steps, of which they say one at most, and which are no proof
/// file for which fault.
pub fn proof_is_exact()
    ensures { ProofIsExact }
{
    query_reading();
}

/// A step that is accepted has no NULL among its terms, since NULL has no kind: that `null` is no
/// term in a file leaves no accepted step out.
pub fn null_is_no_term()
    ensures { NullIsNoTerm }
{}
