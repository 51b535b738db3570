//! Laws of the definitions.
ghost use Rattle.ba_top.specs.Audited.{OutputIsAudited};

/// What is told with proofs of a legal journal without want of memory passes every test of an audit.
pub fn outputs_are_audited()
    ensures { OutputIsAudited }
{}
