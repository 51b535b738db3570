//! Laws of the definitions.
ghost use Rattle.ba_store.specs.Outcomes.{FileHasOneOutcome};
ghost use Rattle.ba_store.specs.Says.{LineIsExact};

/// Whatever the bytes, a template file comes to one outcome at most for a policy that was checked:
/// its templates, or one fault. So a reader whose answer is an outcome is exact.
pub fn file_has_one_outcome()
    ensures { FileHasOneOutcome }
{}

/// Which bytes of a line say which problem and steps, of which they say one at most.
pub fn line_is_exact()
    ensures { LineIsExact }
{}
