//! Laws of the definitions.
ghost use Rattle.ba_sql_query.specs.Faults.{TellsFirst};
ghost use Rattle.ba_sql_query.specs.Reads.{QueryIsUnique, QueryReading, WordsReading};

/// Words, and a text, are read as a query exactly where the grammar, the names and the limits say so, and as at most one.
pub fn query_reading()
    ensures words { WordsReading }
    ensures text { QueryReading }
    ensures unique { QueryIsUnique }
{}

/// A text that isn't read is refused by the first fault of the order that it has.
pub fn first_fault()
    ensures { TellsFirst }
{}
