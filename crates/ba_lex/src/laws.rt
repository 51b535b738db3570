//! Laws of the definitions.
ghost use Rattle.ba_lex.specs.Faults.{TellsFileFault, TellsTextFault};
ghost use Rattle.ba_lex.specs.Reading.{FileReading, TextReading, TokensAreUnique};

/// A text, and a file, is read as tokens exactly where it has at most so many bytes and these are all of it, each the longest possible,
/// with nothing but white space and comments between them (a file is UTF-8 too); and as at most one list of tokens.
pub fn token_reading()
    ensures text { TextReading }
    ensures file { FileReading }
    ensures unique { TokensAreUnique }
{}

/// A fault is told exactly where the text has it: more bytes than the limit, else the first from the left, up to which it has tokens; a
/// file that isn't UTF-8 has a bad byte.
pub fn first_fault()
    ensures text { TellsTextFault }
    ensures file { TellsFileFault }
{}
