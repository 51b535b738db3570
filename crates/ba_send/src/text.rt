//! Texts in quotes.
ghost use Rattle.std.specs.Prelude.{◌≡◌, ◌++◌, ◌<◌, false, [], ◌∷◌, MatchOption, OnOk, codes, string_bytes};
ghost use Rattle.ba_lex.specs.Spelling.{doubled};
ghost use Rattle.ba_lex.specs.Tokens.{HasNoQuote};
ghost use Rattle.ba_lex.specs.declared.token.Lexeme.TheVariants as lexemes;
ghost use Rattle.ba_send.specs.Sent.{hex_piece, pieces_text, text_pieces, word};
ghost use Rattle.ba_target.specs.declared.target.Database.TheVariants.{MySql};
ghost use Rattle.ba_send.specs.Texts.{HasNoSlash, has_backslash, hex, hex_digit, is_plain, is_plain_byte, slashed};

use ba_target::Database;
use std::alloc::AllocError;

fn split_at_quote(text: &str) -> Option<(&str, &str)>
    ensures { MatchOption result (HasNoQuote text.now)
        (λ parts. HasNoQuote parts.0.now × (text.now ≡ parts.0.now ++ 39 ∷ parts.1.now)) }
{
    text.split_once('\'')
}

/// Adds a text with its quotes doubled.
fn push_doubled(out: &mut String, text: &str) -> Result<(), AllocError>
    ensures { OnOk result (string_bytes out.new ≡ string_bytes out.old ++ doubled text.now) }
{
    let mut rest = text;
    while let Some((before, after)) = split_at_quote(rest) {
        out.push_str(before)?;
        out.push_str("''")?;
        rest = after;
    }
    out.push_str(rest)?;
    Ok(())
}

fn split_at_slash(text: &str) -> Option<(&str, &str)>
    ensures { MatchOption result (HasNoSlash text.now)
        (λ parts. HasNoSlash parts.0.now × (text.now ≡ parts.0.now ++ 92 ∷ parts.1.now)) }
{
    text.split_once('\\')
}

/// Adds a text with its backslashes and its quotes doubled.
fn push_slashed(out: &mut String, text: &str) -> Result<(), AllocError>
    ensures { OnOk result
        (string_bytes out.new ≡ string_bytes out.old ++ doubled (slashed text.now)) }
{
    let mut rest = text;
    while let Some((before, after)) = split_at_slash(rest) {
        push_doubled(out, before)?;
        out.push_str("\\\\")?;
        rest = after;
    }
    push_doubled(out, rest)?;
    Ok(())
}

fn hex_digit(n: u8) -> char
    requires { n < 16 }
    ensures { result ≡ hex_digit n }
{
    if n < 10 {
        (b'0' + n) as char
    } else {
        (b'A' + (n - 10)) as char
    }
}

/// Adds the two digits of each byte.
fn push_hex(out: &mut String, bytes: &[u8]) -> Result<(), AllocError>
    ensures { OnOk result (string_bytes out.new ≡ string_bytes out.old ++ hex bytes.now) }
{
    for byte in bytes {
        out.push(hex_digit(*byte / 16))?;
        out.push(hex_digit(*byte % 16))?;
    }
    Ok(())
}

fn has_backslash(bytes: &[u8]) -> bool
    ensures { result ≡ has_backslash bytes.now }
{
    bytes.contains(&b'\\')
}

fn is_plain_byte(b: u8) -> bool
    ensures { result ≡ is_plain_byte b }
{
    b' ' <= b && b <= b'~' && b != b'\'' && b != b'\\'
}

fn is_plain(bytes: &[u8]) -> bool
    ensures { result ≡ is_plain bytes.now }
{
    bytes.iter().all(|b| is_plain_byte(*b))
}

/// Adds a text in quotes behind a blank.
fn push_quoted(out: &mut String, database: Database, text: &str) -> Result<(), AllocError>
    ensures { OnOk result (string_bytes out.new
        ≡ string_bytes out.old ++ pieces_text database ((lexemes.Text text.now ∷ []) ∷ [])) }
{
    out.push_str(" '")?;
    push_doubled(out, text)?;
    out.push_str("'")?;
    Ok(())
}

/// Adds a text for PostgreSQL whose backslashes are doubled.
fn push_escaped(out: &mut String, database: Database, text: &str) -> Result<(), AllocError>
    ensures { OnOk result (string_bytes out.new
        ≡ string_bytes out.old ++ pieces_text database
        ((lexemes.Word (codes "E") ∷ lexemes.Text (slashed text.now) ∷ []) ∷ [])) }
{
    out.push_str(" E'")?;
    push_slashed(out, text)?;
    out.push_str("'")?;
    Ok(())
}

/// Adds a text for MySQL by its bytes.
fn push_digits(out: &mut String, database: Database, text: &str) -> Result<(), AllocError>
    ensures { OnOk result (string_bytes out.new
        ≡ string_bytes out.old ++ pieces_text database (hex_piece text.now ∷ [])) }
{
    out.push_str(" X'")?;
    push_hex(out, text.as_bytes())?;
    out.push_str("'")?;
    Ok(())
}

/// Adds a text for MySQL by its bytes, and says that they are UTF-8.
fn push_named_digits(out: &mut String, text: &str) -> Result<(), AllocError>
    ensures { OnOk result (string_bytes out.new ≡ string_bytes out.old
        ++ pieces_text MySql (word (codes "_utf8mb4") ∷ hex_piece text.now ∷ [])) }
{
    out.push_str(" _utf8mb4")?;
    push_digits(out, Database::MySql, text)?;
    Ok(())
}

/// Adds a text for MySQL that needn't be compared byte by byte.
#[tactic(auto, unfolding(crate::specs::Sent::text_pieces))]
fn push_loose(out: &mut String, text: &str) -> Result<(), AllocError>
    ensures { OnOk result (string_bytes out.new
        ≡ string_bytes out.old ++ pieces_text MySql (text_pieces MySql false text.now)) }
{
    if is_plain(text.as_bytes()) {
        push_quoted(out, Database::MySql, text)
    } else {
        push_named_digits(out, text)
    }
}

#[tactic(auto, unfolding(crate::specs::Sent::text_pieces))]
fn push_for_mysql(out: &mut String, exact: bool, text: &str) -> Result<(), AllocError>
    ensures { OnOk result (string_bytes out.new
        ≡ string_bytes out.old ++ pieces_text MySql (text_pieces MySql exact text.now)) }
{
    if exact {
        push_digits(out, Database::MySql, text)
    } else {
        push_loose(out, text)
    }
}

/// Adds a text behind a blank, so that the database reads its bytes; for MySQL also that it compares
/// them, where it is to be exact.
#[tactic(auto, unfolding(crate::specs::Sent::text_pieces))]
pub fn push_text(
    out: &mut String,
    database: Database,
    exact: bool,
    text: &str,
) -> Result<(), AllocError>
    ensures { OnOk result (string_bytes out.new
        ≡ string_bytes out.old ++ pieces_text database (text_pieces database exact text.now)) }
{
    match database {
        Database::PostgreSql => {
            if has_backslash(text.as_bytes()) {
                push_escaped(out, database, text)
            } else {
                push_quoted(out, database, text)
            }
        }
        Database::Sqlite => push_quoted(out, database, text),
        Database::MySql => push_for_mysql(out, exact, text),
    }
}
