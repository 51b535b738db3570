//! Laws of the definitions.
ghost use Rattle.ba_policy.specs.Laws.{LexFaultReading, PolicyIsUnique, PolicyReading, StatementFaultReading, SyntaxReading, TooManyReading};

/// A file is read as a policy exactly where its statements declare one within the limits, and as at most one; and a fault is told exactly
/// where the file has it as the first.
pub fn policy_reading()
    ensures reading { PolicyReading }
    ensures unique { PolicyIsUnique }
    ensures lex { LexFaultReading }
    ensures syntax { SyntaxReading }
    ensures statement { StatementFaultReading }
    ensures many { TooManyReading }
{}
