//! The terminals of the grammar, and which of them each word is.
ghost use Rattle.std.specs.Prelude.{◌≡◌, IfOk, map, pos};
ghost use Rattle.ba_sql_syntax.specs.Terminals.{first_key, has_meaning, is_unsupported, key_text, keys, terminal, terminals, truth, unsupported_words, word_terminal};
ghost use Rattle.ba_sql_syntax.specs.Letters.{first_letter, keys_by, words_by};

use crate::written::Constant;
use ba_grammar::is_among;
use ba_lex::{Lexeme, Sign, is_word};
use ba_model::{Duplicate, List, Str, Value};
use std::alloc::{AllocError, Global};

/// A keyword.
#[derive(Clone, Copy)]
pub enum Key {
    Select,
    Distinct,
    From,
    Where,
    Join,
    Inner,
    Cross,
    On,
    As,
    And,
    Or,
    Union,
    In,
    Is,
    Not,
    Null,
}

impl Key {
    fn text(self) -> &'static str
        ensures { result.now ≡ key_text self }
    {
        match self {
            Key::Select => "SELECT",
            Key::Distinct => "DISTINCT",
            Key::From => "FROM",
            Key::Where => "WHERE",
            Key::Join => "JOIN",
            Key::Inner => "INNER",
            Key::Cross => "CROSS",
            Key::On => "ON",
            Key::As => "AS",
            Key::And => "AND",
            Key::Or => "OR",
            Key::Union => "UNION",
            Key::In => "IN",
            Key::Is => "IS",
            Key::Not => "NOT",
            Key::Null => "NULL",
        }
    }
}

/// What a word is to the grammar.
#[derive(Drop)]
pub enum Terminal {
    Key(Key),
    Name(Str),
    Constant(Constant),
    Sign(Sign),
    /// A reserved word that the grammar has nowhere.
    Unsupported,
}

/// The first letter of a word, in lower case.
fn first_letter(word: &Str) -> u8
    ensures { result ≡ first_letter word.now }
{
    match word.as_bytes() {
        [first, ..] => first.to_ascii_lowercase(),
        [] => 0,
    }
}

/// Of the unsupported words those that begin with this letter.
fn unsupported_by(letter: u8) -> &'static [&'static str]
    ensures { map (λ word. word.now) result.now ≡ words_by letter unsupported_words }
{
    match letter {
        b'a' => &["ALL"],
        b'b' => &["BETWEEN"],
        b'c' => &["CASE"],
        b'd' => &["DELETE"],
        b'e' => &["EXISTS", "EXCEPT"],
        b'f' => &["FULL"],
        b'g' => &["GROUP"],
        b'h' => &["HAVING"],
        b'i' => &["IS", "INSERT", "INTERSECT"],
        b'l' => &["LIKE", "LIMIT", "LEFT"],
        b'n' => &["NOT", "NULL", "NATURAL"],
        b'o' => &["ORDER", "OFFSET", "OUTER"],
        b'r' => &["RIGHT"],
        b'u' => &["USING", "UPDATE"],
        b'w' => &["WITH"],
        _ => &[],
    }
}

/// Whether the word is an unsupported one. IS, NOT and NULL are, but for IS NULL and IS NOT NULL.
pub fn is_unsupported(word: &Str) -> bool
    ensures { result ≡ is_unsupported word.now }
{
    is_among(word, unsupported_by(first_letter(word)))
}

/// The keywords that begin with this letter.
fn keys_by(letter: u8) -> &'static [Key]
    ensures { result.now ≡ keys_by letter keys }
{
    match letter {
        b'a' => &[Key::As, Key::And],
        b'c' => &[Key::Cross],
        b'd' => &[Key::Distinct],
        b'f' => &[Key::From],
        b'i' => &[Key::Inner, Key::In, Key::Is],
        b'j' => &[Key::Join],
        b'n' => &[Key::Not, Key::Null],
        b'o' => &[Key::On, Key::Or],
        b's' => &[Key::Select],
        b'u' => &[Key::Union],
        b'w' => &[Key::Where],
        _ => &[],
    }
}

fn key_among(word: &Str, keys: &[Key]) -> Option<Key>
    ensures { result ≡ first_key keys.now word.now }
{
    for key in keys {
        if is_word(word, key.text()) {
            return Some(*key);
        }
    }
    None
}

/// The keyword that the word is, in any case.
#[tactic(auto, using(crate::proofs::TerminalLemmas::key_so))]
fn key_of(word: &Str) -> Option<Key>
    ensures { result ≡ first_key keys word.now }
{
    key_among(word, keys_by(first_letter(word)))
}

/// Whether the word is a keyword, TRUE or FALSE.
#[tactic(auto, using(crate::proofs::TerminalLemmas::has_so))]
pub fn has_meaning(word: &Str) -> bool
    ensures { result ≡ has_meaning word.now }
{
    is_word(word, "TRUE") || is_word(word, "FALSE") || key_of(word).is_some()
}

fn truth(n: i64) -> Terminal
    ensures { result ≡ truth n }
{
    Terminal::Constant(Constant::Value(Value::Int(n)))
}

#[tactic(auto, using(crate::proofs::TerminalLemmas::word_means))]
fn word_terminal(alloc: Global, word: &Str) -> Result<Terminal, AllocError>
    ensures { IfOk result (λ found. found ≡ word_terminal word.now) }
{
    if is_word(word, "TRUE") {
        return Ok(truth(1));
    }
    if is_word(word, "FALSE") {
        return Ok(truth(0));
    }
    if let Some(key) = key_of(word) {
        return Ok(Terminal::Key(key));
    }
    if is_unsupported(word) {
        return Ok(Terminal::Unsupported);
    }
    Ok(Terminal::Name(word.copy(alloc)?))
}

fn terminal_of(alloc: Global, word: &Lexeme) -> Result<Terminal, AllocError>
    ensures { IfOk result (λ found. found ≡ terminal word.now) }
{
    match word {
        Lexeme::Word(word) => word_terminal(alloc, word),
        Lexeme::Quoted(name) => Ok(Terminal::Name(name.copy(alloc)?)),
        Lexeme::Number(n) => Ok(truth(*n)),
        Lexeme::Text(text) => {
            let copy = text.copy(alloc)?;
            let value = Value::text(alloc, copy)?;
            Ok(Terminal::Constant(Constant::Value(value)))
        }
        Lexeme::Param(name) => Ok(Terminal::Constant(Constant::Param(name.copy(alloc)?))),
        Lexeme::Sign(sign) => Ok(Terminal::Sign(*sign)),
    }
}

/// The terminals that the words are, in order.
pub fn terminals(alloc: Global, words: &[Lexeme]) -> Result<List<Terminal>, AllocError>
    ensures { IfOk result (λ found. found ≡ terminals words.now) }
{
    let mut found = Vec::with_capacity(alloc, words.len())?;
    for word in words {
        found.push(terminal_of(alloc, word)?)?;
    }
    Ok(List::from_vec(found))
}
