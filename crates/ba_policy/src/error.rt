//! Why a file is no policy.
ghost use Rattle.std.specs.Prelude.{◌≡◌};
ghost use Rattle.ba_policy.specs.declared.error.PolicyFault.TheVariants as faults;

use ba_grammar::Syntax;
use ba_lex::LexFault;
use ba_model::{Counted, Str};
use ba_sql_query::ReadQueryFault;

/// Why a file is no policy. `Lex` comes before `Syntax`, then come those of the statements in order, then `TooMany`.
#[derive(Debug, Drop)]
pub enum PolicyFault {
    /// The file has no tokens.
    Lex(LexFault),
    /// Not all of the words are statements.
    Syntax,
    /// The statement declares a parameter of this name, which is declared before; or it is a key's and an argument has this name, which
    /// is that of a parameter before it or of an argument before.
    DuplicateParam(Str),
    /// The statement makes a view of this name, which is made before.
    DuplicateView(Str),
    /// The words of the view of this name are no query.
    View(Str, ReadQueryFault),
    /// The statement makes a cache key of this name, which is made before.
    DuplicateKey(Str),
    /// The words of one of the queries of the cache key of this name are none. The fault is that of the first such query.
    Key(Str, ReadQueryFault),
    /// A count is above its limit: views, then cache keys, then the queries of a key, then parameters with the arguments of a key.
    TooMany { what: Counted, limit: u64 },
}

impl From<LexFault> for PolicyFault {
    ghost from_gives = { λ f fault. fault ≡ faults.Lex f };

    fn from(fault: LexFault) -> PolicyFault {
        PolicyFault::Lex(fault)
    }
}

impl From<Syntax> for PolicyFault {
    ghost from_gives = { λ _ fault. fault ≡ faults.Syntax };

    fn from(_: Syntax) -> PolicyFault {
        PolicyFault::Syntax
    }
}
