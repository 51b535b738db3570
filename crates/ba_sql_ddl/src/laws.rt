//! Laws of the definitions.
ghost use Rattle.ba_sql_ddl.specs.Laws.{LexFaultReading, RuleFaultReading, SchemaFaultReading, SchemaIsUnique, SchemaReading, SyntaxReading, TooManyReading, UnsupportedReading};

/// A file is read as a schema exactly where the grammar, the names and the model's rules say so,
/// and as at most one; and a fault is told exactly where the file has it as the first of the order.
pub fn schema_reading()
    ensures reading { SchemaReading }
    ensures unique { SchemaIsUnique }
    ensures lex { LexFaultReading }
    ensures unsupported { UnsupportedReading }
    ensures syntax { SyntaxReading }
    ensures fault { SchemaFaultReading }
    ensures many { TooManyReading }
    ensures rule { RuleFaultReading }
{}
