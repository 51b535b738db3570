//! Schemas.
ghost use Rattle.std.specs.Prelude.{IfOk};
ghost use Rattle.ba_model.specs.Readings.{Gives, Sees};
ghost use Rattle.ba_model.specs.RuleFaults.{AreRules};
ghost use Rattle.ba_model.specs.SchemaFaults.{AreTables};
ghost use Rattle.ba_sql_ddl.specs.Check.{checked, well_formed};
ghost use Rattle.ba_sql_ddl.specs.Reading.{schema_of, text_of};
ghost use Rattle.ba_sql_ddl.specs.Written.{seen_text};

use crate::draft::draft_of;
use crate::fault::DdlFault;
use crate::inclusion::with_rules;
use crate::scan::first_unsupported;
use crate::statement::{SchemaText, statements};
use ba_grammar::lexemes;
use ba_lex::{Lexeme, tokens_of_bytes};
use ba_model::{Failure, List, MAX_TEXT_BYTES, Schema, SchemaDraft, SchemaFault, Str, Table};
use std::alloc::Global;

#[tactic(auto, unfolding(crate::specs::Reading::text_of))]
fn text_of(alloc: Global, words: &[Lexeme]) -> Result<SchemaText<'_>, Failure<DdlFault>>
    ensures { Sees seen_text result (text_of words.now) }
{
    if let Some(word) = first_unsupported(words) {
        let word = Str::new(alloc, word)?;
        return Err(Failure::Fault(DdlFault::Unsupported(word)));
    }
    statements(alloc, words).map_err(Failure::widen)
}

fn well_formed(alloc: Global, tables: List<Table>) -> Result<Schema, Failure<SchemaFault>>
    ensures { Gives result (well_formed tables) }
{
    let rules = List::new(alloc);
    Schema::check(alloc, SchemaDraft { tables, rules })
}

#[tactic(auto, unfolding(crate::specs::Check::checked))]
fn checked(alloc: Global, tables: List<Table>) -> Result<Schema, Failure<DdlFault>>
    ensures { Gives result (checked tables) }
{
    well_formed(alloc, tables).map_err(Failure::widen)
}

/// The schema that a file is, a part of the table definitions of the SQL standard, and inclusion
/// rules: `{ CREATE TABLE name ( item {, item} ) ; | RULE ( words ) WITHIN ( words ) ; }`.
///
/// An item is a column (a name, a type, then NOT NULL, NULL, PRIMARY KEY, UNIQUE or REFERENCES in
/// any order and number) or a PRIMARY KEY, UNIQUE or FOREIGN KEY of the table, maybe behind
/// CONSTRAINT and a name. INT, INTEGER, BIGINT and SMALLINT are whole numbers; TEXT, VARCHAR and
/// CHAR are texts; a number in brackets behind a type means nothing. A PRIMARY KEY and a UNIQUE are
/// keys. Keys and links are numbered in the order in which they are written, those of a column
/// where the column stands. A link's target may stand later, and need not be a key. A name is
/// quoted, or a word that is neither unsupported nor a keyword; RULE and WITHIN are names.
///
/// A column may hold NULL exactly where it is neither NOT NULL nor in a PRIMARY KEY of its table; it
/// is in one that has its name. UNIQUE and NULL behind a type say nothing of that.
///
/// A rule says that each row of its left query is one of its right one. The words of a query go to
/// the bracket that matches the one before them, and are read as `ba_sql_query::read_words` reads
/// them, without parameters, once all tables are there: a rule may stand before its tables. Rules
/// are numbered from 0 in the order in which they are written.
///
/// The file has at most `MAX_TEXT_BYTES` bytes and may be empty. The first of these faults is told:
/// - `Lex`: the file is too long, isn't UTF-8, or has no tokens.
/// - `Unsupported`: the first of the words that aren't supported, before any look at the grammar. The
///   words of the queries of rules are passed over; they have a scan of their own.
/// - `Syntax`: the grammar has no such words; so it is too where a query's bracket stays open.
/// - `Schema`: the first fault of the tables, as `Schema::check` tells it. A name that isn't there
///   stands for a number that isn't there.
/// - `TooMany`: more than 64 rules.
/// - `Rule`: the first rule that has a fault, with the fault of its left query, else that of its right
///   one, else `HeadDiffers` where their heads differ in length or kinds.
///
/// `Schema::check` tells the last two of a draft too; of a text they come from here. `NoMemory` leaves
/// nothing behind.
#[tactic(auto, unfolding(crate::specs::Reading::schema_of))]
pub fn read_schema(alloc: Global, bytes: &[u8]) -> Result<Schema, Failure<DdlFault>>
    ensures exact { Gives result (schema_of bytes.now) }
    ensures tables { IfOk result (λ schema. AreTables schema.tables) }
    // At most 64 of them, each of two queries that fit the schema and have the same kinds.
    ensures rules { IfOk result AreRules }
{
    let tokens = tokens_of_bytes(alloc, bytes, MAX_TEXT_BYTES).map_err(Failure::widen)?;
    let words = lexemes(alloc, tokens)?;
    let text = text_of(alloc, words.as_slice())?;
    let tables = draft_of(alloc, text.tables.as_slice())?;
    let schema = checked(alloc, tables)?;
    with_rules(alloc, schema, text.inclusions.as_slice())
}
