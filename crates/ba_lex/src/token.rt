//! Tokens, and what is wrong with a text.

use ba_model::Str;

/// The signs, the longer ones before those that they begin with.
#[derive(Clone, Copy, Debug, PartialEq, Eq)]
pub enum Sign {
    LeftParen,
    RightParen,
    Comma,
    Dot,
    Semicolon,
    Star,
    Equal,
    /// `<>`
    NotEqual,
    /// `!=`
    BangEqual,
    Less,
    LessEqual,
    Greater,
    GreaterEqual,
    Plus,
    Minus,
    Slash,
    Percent,
}

/// What a token says, decoded.
#[derive(Debug, Drop)]
pub enum Lexeme {
    /// A keyword or a name, as written.
    Word(Str),
    /// A name between two `"` or two backquotes, without them.
    Quoted(Str),
    /// A whole number of 64 bits.
    Number(i64),
    /// A text between two `'`, without them, its doubled quotes single.
    Text(Str),
    /// A parameter's name, without its `?`.
    Param(Str),
    Sign(Sign),
}

/// A token and where it stands: the bytes from `start` up to `end` of the source.
#[derive(Debug, Drop)]
pub struct Token {
    pub lexeme: Lexeme,
    pub start: usize,
    pub end: usize,
}

/// Why a text has no tokens.
#[derive(Clone, Copy, Debug, PartialEq, Eq)]
pub enum LexFault {
    /// The text has more bytes than its limit.
    TooLong,
    /// A byte that begins no token, a `?` without a word, an empty or ill-formed quoted name, or a file that isn't UTF-8.
    BadByte,
    /// A quote without its end.
    OpenQuote,
    /// A number outside 64 bits.
    NumberTooLarge,
}
