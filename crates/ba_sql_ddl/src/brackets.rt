//! Words in brackets.
ghost use Rattle.std.specs.Prelude.{◌≡◌, ◌≤◌, length};
ghost use Rattle.ba_sql_ddl.specs.Brackets.{close_at, from_close, inside};

use ba_grammar::is_sign;
use ba_lex::{Lexeme, Sign};

/// Where the bracket stands that closes the one before the words; their end where it stays open.
fn close_of(words: &[Lexeme]) -> usize
    ensures at { result ≡ close_at 0 words.now }
    ensures within { result ≤ length words.now }
{
    let mut depth = 0usize;
    for at in 0..words.len() {
        let word = &words[at];
        if is_sign(word, Sign::LeftParen) {
            depth += 1;
        } else if is_sign(word, Sign::RightParen) {
            if depth == 0 {
                return at;
            }
            depth -= 1;
        }
    }
    words.len()
}

/// The words up to the bracket that closes the one before them, and those from it on; all of them,
/// and none, where it stays open.
pub fn inside(words: &[Lexeme]) -> (&[Lexeme], &[Lexeme])
    ensures inside { result.0.now ≡ inside words.now }
    ensures rest { result.1.now ≡ from_close words.now }
{
    let end = close_of(words);
    (&words[..end], &words[end..])
}
