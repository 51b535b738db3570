//! Laws of the definitions.
ghost use Rattle.ba_printed.specs.ReadBack.{AnswerReadsBack, LineIsJson, PlainReadsBack, ReadReadsBack, RefutedReadReadsBack, RefutedReadsBack, SummaryReadsBack};
ghost use Rattle.ba_printed.specs.Says.{PrintedIsExact};

/// Bytes are read as exactly the line that they print, which is one at most, and refused as no JSON
/// or as of no form exactly where they are.
pub fn printed_is_exact()
    ensures { PrintedIsExact }
{}

/// The text before the line feed of a line that reads back is the JSON of its value.
pub fn lines_are_json()
    ensures { LineIsJson }
{}

/// A line without evidence is read as what was meant.
pub fn plain_lines_read_back()
    ensures { PlainReadsBack }
{}

/// The last line is read as its numbers.
pub fn summaries_read_back()
    ensures { SummaryReadsBack }
{}

/// An answer's line is read as the answer and what it rests on, where no two parameters have one
/// name and all numbers have their bits.
pub fn answers_read_back()
    ensures { AnswerReadsBack }
{}

/// The line of a read that is allowed is read as what each of the key's queries rests on, where no
/// two parameters have one name and all numbers have their bits.
pub fn reads_read_back()
    ensures { ReadReadsBack }
{}

/// The line of a refuted question is read as its pair, where no two tables have one name, the pair
/// has rows for each table, and all numbers have 64 bits.
pub fn refuted_lines_read_back()
    ensures { RefutedReadsBack }
{}

/// The line of a read of which a query is refuted is read as that query's number and its pair, under
/// the same conditions.
pub fn refuted_reads_read_back()
    ensures { RefutedReadReadsBack }
{}
