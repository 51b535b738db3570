//! Why a text reads as no query.
ghost use Rattle.std.specs.Prelude.{◌≡◌};
ghost use Rattle.ba_sql_query.specs.Errors.{lex_fault, rank, syntax_fault};

use ba_lex::LexFault;
use ba_model::Str;
use ba_sql_syntax::SyntaxFault;

/// Why a text reads as no query. Of several faults the first of this order is told.
#[derive(Debug, Drop)]
pub enum ReadQueryFault {
    /// The text has no tokens.
    Lex(LexFault),
    /// What isn't supported: a word in upper case, or a sign. IS, NOT and NULL are supported in
    /// IS NULL and IS NOT NULL alone.
    Unsupported(Str),
    /// The grammar has no such words.
    Syntax,
    /// A table isn't of the schema, or a qualifier calls no source.
    UnknownTable,
    /// A column isn't there.
    UnknownColumn,
    /// A qualifier calls two sources, or a column without qualifier is in two of them.
    Ambiguous,
    /// A parameter isn't declared.
    UnknownParam,
    /// The sides of a comparison have different kinds.
    KindDiffers,
    /// An order on texts.
    OrderOnText,
    /// Two heads differ in length or kinds.
    HeadDiffers,
    /// A count is above its limit.
    TooMany,
}

impl ReadQueryFault {
    /// Where it stands in the order, from 0.
    #[tactic(auto, unfolding(crate::specs::Errors::rank))]
    pub fn rank(&self) -> u8
        ensures { result ≡ rank self.now }
    {
        match self {
            ReadQueryFault::Lex(_) => 0,
            ReadQueryFault::Unsupported(_) => 1,
            ReadQueryFault::Syntax => 2,
            ReadQueryFault::UnknownTable => 3,
            ReadQueryFault::UnknownColumn => 4,
            ReadQueryFault::Ambiguous => 5,
            ReadQueryFault::UnknownParam => 6,
            ReadQueryFault::KindDiffers => 7,
            ReadQueryFault::OrderOnText => 8,
            ReadQueryFault::HeadDiffers => 9,
            ReadQueryFault::TooMany => 10,
        }
    }
}

impl From<LexFault> for ReadQueryFault {
    ghost from_gives = { λ f read. read ≡ lex_fault f };

    fn from(fault: LexFault) -> ReadQueryFault {
        ReadQueryFault::Lex(fault)
    }
}

impl From<SyntaxFault> for ReadQueryFault {
    ghost from_gives = { λ f read. read ≡ syntax_fault f };

    fn from(fault: SyntaxFault) -> ReadQueryFault {
        match fault {
            SyntaxFault::Unsupported(word) => ReadQueryFault::Unsupported(word),
            SyntaxFault::Syntax => ReadQueryFault::Syntax,
        }
    }
}
