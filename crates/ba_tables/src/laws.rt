//! Laws of the definitions.
ghost use Rattle.ba_tables.specs.Breaks.{TellsFirstBroken};
ghost use Rattle.ba_tables.specs.FileFaults.{TellsHeader, TellsNumber, TellsTooMany, TellsUtf8, TellsWidth};
ghost use Rattle.ba_tables.specs.Pairs.{CountsPairsOnce};
ghost use Rattle.ba_tables.specs.Spelling.{ReadsAsSpelled, RowsAreUnique};

/// A table's file reads as rows exactly where it spells them, and it spells one list of rows at most.
pub fn reads_as_spelled()
    ensures reading { ReadsAsSpelled }
    ensures unique { RowsAreUnique }
{}

/// A table's file is refused by a fault exactly where it has it as its first: the header; of the first bad row its width, then UTF-8, then
/// its first number; then too many rows.
pub fn tells_first_fault()
    ensures header { TellsHeader }
    ensures width { TellsWidth }
    ensures utf8 { TellsUtf8 }
    ensures number { TellsNumber }
    ensures too_many { TellsTooMany }
{}

/// Checking tells the first broken key, link or rule, and passes exactly where none is broken; the
/// database then conforms.
pub fn tells_first_broken()
    ensures { TellsFirstBroken }
{}

/// A link that repeats pairs of columns means what it means over its distinct pairs.
pub fn counts_pairs_once()
    ensures { CountsPairsOnce }
{}
