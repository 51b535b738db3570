//! Conditions without AND and OR.
ghost use Rattle.std.specs.Prelude.{◌≡◌};
ghost use Rattle.ba_model.specs.Readings.{Sees};
ghost use Rattle.ba_sql_syntax.specs.Grammar.{compared, comparison};
ghost use Rattle.ba_sql_syntax.specs.Reader.{among_at, compared_at, comparison_at, comparison_of, constant_at, null_at, null_op, test_at};

use crate::front::{begins_with, constant, past, skip};
use crate::side::side;
use crate::word::{Key, Terminal};
use crate::written::{Constant, Side, Test};
use ba_grammar::{Element, Syntax, listed, past_sign};
use ba_lex::Sign;
use ba_model::{Failure, Op, Value};
use std::alloc::Global;

/// What a sign compares by, and whether its sides are turned round.
#[derive(Clone, Copy)]
pub struct Comparison {
    pub op: Op,
    pub turned: bool,
}

impl Comparison {
    fn of_sign(sign: Sign) -> Option<Comparison>
        ensures { result ≡ comparison sign }
    {
        let (op, turned) = match sign {
            Sign::Equal => (Op::Eq, false),
            Sign::NotEqual | Sign::BangEqual => (Op::Ne, false),
            Sign::Less => (Op::Lt, false),
            Sign::LessEqual => (Op::Le, false),
            Sign::Greater => (Op::Lt, true),
            Sign::GreaterEqual => (Op::Le, true),
            _ => return None,
        };
        Some(Comparison { op, turned })
    }

    fn test(self, left: Side, right: Side) -> Test
        ensures { result ≡ compared self left right }
    {
        let op = self.op;
        if self.turned {
            return Test::Compare {
                op,
                left: right,
                right: left,
            };
        }
        Test::Compare { op, left, right }
    }
}

impl Element<Terminal> for Constant {
    ghost read_at = { constant_at };

    /// A number, which takes no memory, is read here: long lists are mostly of numbers.
    #[tactic(auto, unfolding(crate::specs::Reader::constant_at))]
    fn read(alloc: Global, words: &[Terminal]) -> Result<(Constant, &[Terminal]), Failure<Syntax>> {
        match words {
            [
                Terminal::Constant(Constant::Value(Value::Int(n))),
                rest @ ..,
            ] => { Ok((Constant::Value(Value::Int(*n)), rest)) }
            _ => constant(alloc, words),
        }
    }
}

fn comparison_of<'a>(
    word: &Terminal,
    rest: &'a [Terminal],
) -> Result<(Comparison, &'a [Terminal]), Failure<Syntax>>
    ensures { Sees (λ x. (x.0, x.1.now)) result (comparison_of word.now rest.now) }
{
    match word {
        Terminal::Sign(sign) => match Comparison::of_sign(*sign) {
            Some(comparison) => Ok((comparison, rest)),
            None => Err(Failure::Fault(Syntax)),
        },
        _ => Err(Failure::Fault(Syntax)),
    }
}

#[tactic(auto, unfolding(crate::specs::Reader::comparison_at))]
fn compares_by(words: &[Terminal]) -> Result<(Comparison, &[Terminal]), Failure<Syntax>>
    ensures { Sees (λ x. (x.0, x.1.now)) result (comparison_at words.now) }
{
    match words {
        [first, rest @ ..] => comparison_of(first, rest),
        [] => Err(Failure::Fault(Syntax)),
    }
}

#[tactic(auto, unfolding(crate::specs::Reader::compared_at))]
fn compared(
    alloc: Global,
    left: Side,
    words: &[Terminal],
) -> Result<(Test, &[Terminal]), Failure<Syntax>>
    ensures { Sees (λ x. (x.0, x.1.now)) result (compared_at left words.now) }
{
    let (comparison, rest) = compares_by(words)?;
    let (right, rest) = side(alloc, rest)?;
    Ok((comparison.test(left, right), rest))
}

#[tactic(auto, unfolding(crate::specs::Reader::among_at))]
fn among(
    alloc: Global,
    side: Side,
    words: &[Terminal],
) -> Result<(Test, &[Terminal]), Failure<Syntax>>
    ensures { Sees (λ x. (x.0, x.1.now)) result (among_at side words.now) }
{
    let rest = past(words, Key::In)?;
    let rest = past_sign(rest, Sign::LeftParen)?;
    let (among, rest) = listed::<Terminal, Constant>(alloc, rest)?;
    let rest = past_sign(rest, Sign::RightParen)?;
    Ok((Test::Among { side, among }, rest))
}

/// NOT NULL or NULL: what IS tests.
fn null_op(words: &[Terminal]) -> Op
    ensures { result ≡ null_op words.now }
{
    if begins_with(words, Key::Not) {
        return Op::NotNull;
    }
    Op::IsNull
}

#[tactic(auto, unfolding(crate::specs::Reader::null_at))]
fn null(side: Side, words: &[Terminal]) -> Result<(Test, &[Terminal]), Failure<Syntax>>
    ensures { Sees (λ x. (x.0, x.1.now)) result (null_at side words.now) }
{
    let rest = past(words, Key::Is)?;
    let op = null_op(rest);
    let rest = past(skip(rest, Key::Not), Key::Null)?;
    Ok((Test::Null { op, side }, rest))
}

/// A comparison of two sides, IN with its constants, IS NULL or IS NOT NULL.
#[tactic(auto, unfolding(crate::specs::Reader::test_at))]
pub fn test(alloc: Global, words: &[Terminal]) -> Result<(Test, &[Terminal]), Failure<Syntax>>
    ensures { Sees (λ x. (x.0, x.1.now)) result (test_at words.now) }
{
    let (side, rest) = side(alloc, words)?;
    if begins_with(rest, Key::In) {
        return among(alloc, side, rest);
    }
    if begins_with(rest, Key::Is) {
        return null(side, rest);
    }
    compared(alloc, side, rest)
}
