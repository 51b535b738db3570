//! Why a file is no schema.
ghost use Rattle.std.specs.Prelude.{◌≡◌};
ghost use Rattle.ba_sql_ddl.specs.declared.fault.DdlFault.TheVariants as faults;

use ba_grammar::Syntax;
use ba_lex::LexFault;
use ba_model::{Counted, SchemaFault, Str};
use ba_sql_query::ReadQueryFault;

/// Why a file is no schema. Of several faults the first of this order is told.
#[derive(Debug, Drop)]
pub enum DdlFault {
    /// The file has no tokens.
    Lex(LexFault),
    /// The first word that isn't supported, in upper case.
    Unsupported(Str),
    /// The grammar has no such words.
    Syntax,
    /// The tables are no schema.
    Schema(SchemaFault),
    /// There are more inclusion rules than the limit.
    TooMany { what: Counted, limit: u64 },
    /// The inclusion rule of this number, from 0, is the first that has a fault: that of its left
    /// query, else that of its right one, else that their heads differ in length or kinds.
    Rule(u32, ReadQueryFault),
}

impl From<LexFault> for DdlFault {
    ghost from_gives = { λ fault told. told ≡ faults.Lex fault };

    fn from(fault: LexFault) -> DdlFault {
        DdlFault::Lex(fault)
    }
}

impl From<Syntax> for DdlFault {
    ghost from_gives = { λ _ told. told ≡ faults.Syntax };

    fn from(_: Syntax) -> DdlFault {
        DdlFault::Syntax
    }
}

impl From<SchemaFault> for DdlFault {
    ghost from_gives = { λ fault told. told ≡ faults.Schema fault };

    fn from(fault: SchemaFault) -> DdlFault {
        DdlFault::Schema(fault)
    }
}
