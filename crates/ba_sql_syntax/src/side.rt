//! Names of columns, constants, and names behind them.
ghost use Rattle.std.specs.Prelude.{◌≡◌};
ghost use Rattle.ba_model.specs.Readings.{Sees};
ghost use Rattle.ba_sql_syntax.specs.Reader.{alias_at, column_at, side_at};

use crate::front::{begins_with, begins_with_name, constant, name, past};
use crate::word::{Key, Terminal};
use crate::written::{Named, Side};
use ba_grammar::{Syntax, begins_with_sign, past_sign};
use ba_lex::Sign;
use ba_model::{Failure, Str};
use std::alloc::Global;

/// A name, which AS may stand before, or nothing.
#[tactic(auto, unfolding(crate::specs::Reader::alias_at))]
pub fn alias(
    alloc: Global,
    words: &[Terminal],
) -> Result<(Option<Str>, &[Terminal]), Failure<Syntax>>
    ensures { Sees (λ x. (x.0, x.1.now)) result (alias_at words.now) }
{
    if begins_with(words, Key::As) {
        let rest = past(words, Key::As)?;
        let (alias, rest) = name(alloc, rest)?;
        return Ok((Some(alias), rest));
    }
    if begins_with_name(words) {
        let (alias, rest) = name(alloc, words)?;
        return Ok((Some(alias), rest));
    }
    Ok((None, words))
}

#[tactic(auto, unfolding(crate::specs::Reader::column_at))]
fn column(alloc: Global, words: &[Terminal]) -> Result<(Side, &[Terminal]), Failure<Syntax>>
    ensures { Sees (λ x. (x.0, x.1.now)) result (column_at words.now) }
{
    let (first, rest) = name(alloc, words)?;
    if begins_with_sign(rest, Sign::Dot) {
        let rest = past_sign(rest, Sign::Dot)?;
        let (column, rest) = name(alloc, rest)?;
        let qualifier = Some(first);
        return Ok((Side::Column(Named { qualifier, column }), rest));
    }
    let named = Named {
        qualifier: None,
        column: first,
    };
    Ok((Side::Column(named), rest))
}

/// A column, with or without the name of its source, or a constant.
#[tactic(auto, unfolding(crate::specs::Reader::side_at))]
pub fn side(alloc: Global, words: &[Terminal]) -> Result<(Side, &[Terminal]), Failure<Syntax>>
    ensures { Sees (λ x. (x.0, x.1.now)) result (side_at words.now) }
{
    if begins_with_name(words) {
        return column(alloc, words);
    }
    let (constant, rest) = constant(alloc, words)?;
    Ok((Side::Constant(constant), rest))
}
