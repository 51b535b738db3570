//! Names in quotes.
ghost use Rattle.std.specs.Prelude.{◌≡◌, ◌++◌, [], ◌∷◌, OnOk, codes, string_bytes};
ghost use Rattle.ba_lex.specs.declared.token.Lexeme.TheVariants as lexemes;
ghost use Rattle.ba_send.specs.Sent.{lexeme_text, name_quote, piece_text, pieces_text, table_in, word};
ghost use Rattle.ba_sql_print.specs.Printed.{source_name};

use ba_target::{Database, Target};
use std::alloc::AllocError;

fn name_quote(database: Database) -> &'static str
    ensures { result.now ≡ name_quote database }
{
    match database {
        Database::PostgreSql => "\"",
        Database::Sqlite => "\"",
        Database::MySql => "`",
    }
}

/// Adds a name in quotes.
pub fn push_name(out: &mut String, database: Database, name: &str) -> Result<(), AllocError>
    ensures { OnOk result (string_bytes out.new
        ≡ string_bytes out.old ++ lexeme_text database (lexemes.Quoted name.now)) }
{
    let quote = name_quote(database);
    out.push_str(quote)?;
    out.push_str(name)?;
    out.push_str(quote)
}

/// Adds the name of a table, in the namespace if there is one.
fn push_qualified(out: &mut String, target: &Target, name: &str) -> Result<(), AllocError>
    ensures { OnOk result (string_bytes out.new
        ≡ string_bytes out.old
        ++ piece_text target.now.database (table_in target.now.namespace name.now)) }
{
    match &target.namespace {
        Some(namespace) => {
            push_name(out, target.database, namespace.as_str())?;
            out.push_str(".")?;
            push_name(out, target.database, name)
        }
        None => push_name(out, target.database, name),
    }
}

/// Adds the name of a table behind a blank, in the namespace if there is one.
#[tactic(auto, unfolding(crate::specs::Sent::pieces_text))]
pub fn push_table(out: &mut String, target: &Target, name: &str) -> Result<(), AllocError>
    ensures { OnOk result (string_bytes out.new
        ≡ string_bytes out.old
        ++ pieces_text target.now.database (table_in target.now.namespace name.now ∷ [])) }
{
    out.push_str(" ")?;
    push_qualified(out, target, name)
}

/// Adds what a part's source is called, behind a blank.
pub fn push_source_name(out: &mut String, place: usize) -> Result<(), AllocError>
    ensures { OnOk result (string_bytes out.new
        ≡ string_bytes out.old ++ (codes " " ++ source_name place)) }
{
    write!(out, " t{place}")
}
