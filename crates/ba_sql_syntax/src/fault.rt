//! Why words are no query.
ghost use Rattle.std.specs.Prelude.{◌≡◌};
ghost use Rattle.ba_sql_syntax.specs.declared.fault.SyntaxFault.TheVariants as faults;

use ba_grammar::Syntax;
use ba_model::Str;

/// Why words are no query. Of both the first is told.
#[derive(Debug, Drop)]
pub enum SyntaxFault {
    /// What isn't supported: a word in upper case, or a sign. IS, NOT and NULL are supported in
    /// IS NULL and IS NOT NULL alone.
    Unsupported(Str),
    /// The grammar has no such words.
    Syntax,
}

impl From<Syntax> for SyntaxFault {
    ghost from_gives = { λ _ fault. fault ≡ faults.Syntax };

    fn from(_: Syntax) -> SyntaxFault {
        SyntaxFault::Syntax
    }
}
