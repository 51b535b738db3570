//! What stands at the front of some bytes.
ghost use Rattle.std.specs.Prelude.{◌≡◌, ◌==◌, ◌≤◌, IfSome, false, not, length};
ghost use Rattle.std.specs.List.{list_all, prefix_len};
ghost use Rattle.ba_lex.specs.Spelling.{are_name_bytes, is_digit, is_name_byte, is_word_byte};
ghost use Rattle.ba_lex.specs.Tokens.{dash, front, name, pair, pair_after, param, quote_after, sign, single, text, text_len};

use crate::byte::{is_blank, is_digit, is_letter, is_name_byte, is_name_quote, is_word_byte};
use crate::token::{LexFault, Sign};

/// What kind of token a spelling is of.
#[derive(Clone, Copy, Debug, PartialEq, Eq)]
pub enum Shape {
    Word,
    Quoted,
    Number,
    Text,
    Param,
    Sign(Sign),
}

/// What stands at the front, and how many bytes it takes.
#[derive(Clone, Copy, Debug, PartialEq, Eq)]
pub enum Piece {
    /// White space or a comment.
    Gap(usize),
    Found(Shape, usize),
    Bad(LexFault),
}

fn word_len(rest: &[u8]) -> usize
    ensures len { result ≡ prefix_len is_word_byte rest.now }
    ensures within { result ≤ length rest.now }
{
    rest.iter().take_while(|b| is_word_byte(**b)).count()
}

fn digits_len(rest: &[u8]) -> usize
    ensures len { result ≡ prefix_len is_digit rest.now }
    ensures within { result ≤ length rest.now }
{
    rest.iter().take_while(|b| is_digit(**b)).count()
}

fn len_before(rest: &[u8], end: u8) -> usize
    ensures len { result ≡ prefix_len (λ b. not (b == end)) rest.now }
    ensures within { result ≤ length rest.now }
{
    rest.iter().take_while(|b| **b != end).count()
}

fn all_name_bytes(bytes: &[u8]) -> bool
    ensures { result ≡ list_all is_name_byte bytes.now }
{
    bytes.iter().all(|b| is_name_byte(*b))
}

fn are_name_bytes(bytes: &[u8]) -> bool
    ensures { result ≡ are_name_bytes bytes.now }
{
    match bytes {
        [] => false,
        [b, rest @ ..] => is_name_byte(*b) && all_name_bytes(rest),
    }
}

fn quote_after(after_quote: bool, b: u8) -> Option<bool>
    ensures { result ≡ quote_after after_quote b }
{
    if after_quote {
        return if b == b'\'' { Some(false) } else { None };
    }
    Some(b == b'\'')
}

/// How many bytes a text takes behind its first quote, with its last one.
fn text_len(rest: &[u8]) -> Option<usize>
    ensures len { result ≡ text_len false rest.now }
    ensures within { IfSome result (λ n. n ≤ length rest.now) }
{
    let mut after_quote = false;
    for at in 0..rest.len() {
        match quote_after(after_quote, rest[at]) {
            Some(is_quote) => after_quote = is_quote,
            None => return Some(at),
        }
    }
    if after_quote {
        return Some(rest.len());
    }
    None
}

fn text(rest: &[u8]) -> Piece
    ensures { result ≡ text rest.now }
{
    match text_len(rest) {
        Some(n) => Piece::Found(Shape::Text, n + 1),
        None => Piece::Bad(LexFault::OpenQuote),
    }
}

fn name(quote: u8, rest: &[u8]) -> Piece
    ensures { result ≡ name quote rest.now }
{
    let n = len_before(rest, quote);
    if n == rest.len() {
        return Piece::Bad(LexFault::OpenQuote);
    }
    if are_name_bytes(&rest[..n]) {
        Piece::Found(Shape::Quoted, n + 2)
    } else {
        Piece::Bad(LexFault::BadByte)
    }
}

fn param(rest: &[u8]) -> Piece
    ensures { result ≡ param rest.now }
{
    match rest {
        [b, word @ ..] if is_letter(*b) => Piece::Found(Shape::Param, word_len(word) + 2),
        _ => Piece::Bad(LexFault::BadByte),
    }
}

/// What a `-` begins: a comment, a number or the sign.
fn dash(rest: &[u8]) -> Piece
    ensures { result ≡ dash rest.now }
{
    match rest {
        [b, line @ ..] if *b == b'-' => Piece::Gap(len_before(line, b'\n') + 2),
        [b, digits @ ..] if is_digit(*b) => Piece::Found(Shape::Number, digits_len(digits) + 2),
        _ => Piece::Found(Shape::Sign(Sign::Minus), 1),
    }
}

fn pair_after(b: u8, c: u8) -> Option<Sign>
    ensures { result ≡ pair_after b c }
{
    match (b, c) {
        (b'<', b'>') => Some(Sign::NotEqual),
        (b'<', b'=') => Some(Sign::LessEqual),
        (b'>', b'=') => Some(Sign::GreaterEqual),
        (b'!', b'=') => Some(Sign::BangEqual),
        _ => None,
    }
}

fn pair(b: u8, rest: &[u8]) -> Option<Sign>
    ensures { result ≡ pair b rest.now }
{
    match rest {
        [] => None,
        [c, ..] => pair_after(b, *c),
    }
}

fn single(b: u8) -> Option<Sign>
    ensures { result ≡ single b }
{
    match b {
        b'(' => Some(Sign::LeftParen),
        b')' => Some(Sign::RightParen),
        b',' => Some(Sign::Comma),
        b'.' => Some(Sign::Dot),
        b';' => Some(Sign::Semicolon),
        b'*' => Some(Sign::Star),
        b'=' => Some(Sign::Equal),
        b'<' => Some(Sign::Less),
        b'>' => Some(Sign::Greater),
        b'+' => Some(Sign::Plus),
        b'/' => Some(Sign::Slash),
        b'%' => Some(Sign::Percent),
        _ => None,
    }
}

fn sign(b: u8, rest: &[u8]) -> Piece
    ensures { result ≡ sign b rest.now }
{
    if let Some(sign) = pair(b, rest) {
        return Piece::Found(Shape::Sign(sign), 2);
    }
    match single(b) {
        Some(sign) => Piece::Found(Shape::Sign(sign), 1),
        None => Piece::Bad(LexFault::BadByte),
    }
}

/// What stands at the front of a byte and those behind it.
#[tactic(auto, unfolding(crate::specs::Tokens::front))]
pub fn front(b: u8, rest: &[u8]) -> Piece
    ensures { result ≡ front b rest.now }
{
    if is_blank(b) {
        return Piece::Gap(1);
    }
    if is_letter(b) {
        return Piece::Found(Shape::Word, word_len(rest) + 1);
    }
    if is_digit(b) {
        return Piece::Found(Shape::Number, digits_len(rest) + 1);
    }
    match b {
        b'-' => dash(rest),
        b'"' | b'`' => name(b, rest),
        b'\'' => text(rest),
        b'?' => param(rest),
        _ => sign(b, rest),
    }
}
