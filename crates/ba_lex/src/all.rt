//! All tokens of a text.
ghost use Rattle.std.specs.Prelude.{◌≡◌, IfOk};
ghost use Rattle.ba_lex.specs.Reading.{AreSpans};
ghost use Rattle.ba_lex.specs.Tokens.{file_tokens_of, tokens_from, tokens_of};
ghost use Rattle.ba_model.specs.Readings.{Gives};

use crate::decode::lexeme;
use crate::front::{Piece, front};
use crate::token::{LexFault, Token};
use ba_model::{Failure, List};
use std::alloc::Global;

/// The most tokens for which room is taken before there are any: those of a question as long as it may be.
const MOST_ROOM: usize = 32_768;

/// For how many tokens of a text of so many bytes room is taken at once. Most have two bytes or more.
fn room_for(bytes: usize) -> usize {
    (bytes / 2).min(MOST_ROOM)
}

fn tokens_from(alloc: Global, text: &str) -> Result<List<Token>, Failure<LexFault>>
    ensures { Gives result (tokens_from text.now 0 0) }
{
    let bytes = text.as_bytes();
    let mut found = List::from_vec(Vec::with_capacity(alloc, room_for(bytes.len()))?);
    let mut at = 0;
    while at < bytes.len() {
        match front(bytes[at], &bytes[at + 1..]) {
            Piece::Gap(len) => at += len,
            Piece::Bad(fault) => return Err(Failure::Fault(fault)),
            Piece::Found(shape, len) => {
                let start = at;
                at += len;
                let lexeme = lexeme(alloc, shape, &bytes[start..at])?;
                let end = at;
                found.push(Token { lexeme, start, end })?;
            }
        }
    }
    Ok(found)
}

/// The tokens of a text of at most `limit` bytes, in order, or the first fault.
///
/// Between tokens stand white space and comments (`--` up to the end of the line), of which nothing is told. Each token is the longest
/// possible. `TooLong` comes before all else; then the fault of the least position.
#[tactic(auto, unfolding(crate::specs::Tokens::tokens_of))]
pub fn tokens(alloc: Global, text: &str, limit: usize) -> Result<List<Token>, Failure<LexFault>>
    ensures exact { Gives result (tokens_of limit text.now) }
    // Each token's slice of the text spells it, and the slices are in order.
    ensures spans { IfOk result (AreSpans text.now 0) }
{
    if limit < text.len() {
        return Err(Failure::Fault(LexFault::TooLong));
    }
    tokens_from(alloc, text)
}

/// The tokens of a file of at most `limit` bytes: `TooLong`, then `BadByte` where it isn't UTF-8, then as `tokens`.
#[tactic(auto, unfolding(crate::specs::Tokens::file_tokens_of))]
pub fn tokens_of_bytes(
    alloc: Global,
    bytes: &[u8],
    limit: usize,
) -> Result<List<Token>, Failure<LexFault>>
    ensures exact { Gives result (file_tokens_of limit bytes.now) }
    ensures spans { IfOk result (AreSpans bytes.now 0) }
{
    if limit < bytes.len() {
        return Err(Failure::Fault(LexFault::TooLong));
    }
    match str::from_utf8(bytes) {
        Ok(text) => tokens_from(alloc, text),
        Err(_) => Err(Failure::Fault(LexFault::BadByte)),
    }
}
