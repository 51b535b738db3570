//! Laws of unions.
ghost use Rattle.ba_parts.specs.Laws.{GivenCanBe, PartIsQuery, RowIsOfItsParts, RowIsRecorded, StrongHasOneAnswer, UnionIsStrong};
ghost use Rattle.ba_parts.specs.Recording.{EntriesShowRows};

/// A union of strongly compliant parts is strongly compliant.
pub fn union_is_strong()
    ensures { UnionIsStrong }
{}

/// A part of a checked question is a checked question.
pub fn part_is_query()
    ensures { PartIsQuery }
{}

/// A row that a part gives in a database that conforms can be of it.
pub fn given_can_be()
    ensures { GivenCanBe }
{}

/// In a database that conforms, a row is in the answer of a union exactly where it is in the answer
/// of the union of those parts that it can be of.
pub fn row_is_of_its_parts()
    ensures { RowIsOfItsParts }
{}

/// And so exactly where it is in the answer of what it is recorded under: the one part that it can
/// be of, or else the whole.
pub fn row_is_recorded()
    ensures { RowIsRecorded }
{}

/// A strongly compliant question has one answer in any two databases that conform, agree on the
/// views, and in whose answers all recorded rows are.
pub fn strong_has_one_answer()
    ensures { StrongHasOneAnswer }
{}

/// In a database that conforms, told rows are in their question's answer exactly where each entry's
/// rows are in its question's answer.
pub fn entries_show_rows()
    ensures { EntriesShowRows }
{}
