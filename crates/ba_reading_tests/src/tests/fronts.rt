//! What stands at the front of words: names and lists.

use super::cases::{Reading, Told, all_are_so};
use ba_grammar::{Element, Syntax, all, lexemes, listed, name, number};
use ba_lex::{Lexeme, tokens};
use ba_model::{Failure, List};
use std::alloc::{AllocError, Global};
use std::fmt::Write;
use std::test::Fail;

pub(super) fn words_of(alloc: Global, text: &str) -> Result<List<Lexeme>, AllocError> {
    match tokens(alloc, text, 1_000_000) {
        Ok(found) => lexemes(alloc, found),
        Err(_) => Err(AllocError),
    }
}

/// A number, as an element of a list.
#[derive(Debug, Drop)]
struct Count {
    count: i64,
}

impl Element<Lexeme> for Count {
    ghost use Rattle.ba_model.specs.Readings.{◌>>=◌};
    ghost use Rattle.ba_grammar.specs.Front.{number_at};
    ghost use Rattle.std.specs.Prelude.{Ok};

    ghost read_at = { λ words. number_at words >>= λ n. Ok (record { count = n.0 }, n.1) };

    fn read(_alloc: Global, words: &[Lexeme]) -> Result<(Count, &[Lexeme]), Failure<Syntax>> {
        let (count, rest) = number(words)?;
        Ok((Count { count }, rest))
    }
}

/// What the first word of a text names, read at the front of the others.
struct Fronts;

impl Reading for Fronts {
    fn tell(&self, alloc: Global, text: &str, told: &mut String) -> Told {
        let (what, text) = text.split_once(' ').unwrap_or((text, ""));
        let words = words_of(alloc, text)?;
        let words = words.as_slice();
        match what {
            "name" => write!(told, "{:?}", name(alloc, words, &["FROM", "END"])),
            "listed" => write!(told, "{:?}", listed::<Lexeme, Count>(alloc, words)),
            _ => write!(told, "{:?}", all::<Count>(alloc, words)),
        }
    }
}

const LINES: &str = r#"name Abc , => Ok((Str { text: "Abc" }, [Sign(Comma)]))
name "from" => Ok((Str { text: "from" }, []))
name frOm x
name END
name 5
name
listed 1,-2; => Ok((List { items: [Count { count: 1 }, Count { count: -2 }] }, [Sign(Semicolon)]))
listed 4 5 => Ok((List { items: [Count { count: 4 }] }, [Number(5)]))
listed
listed 1,
listed 1,,2
all => Ok(List { items: [] })
all 1 2 => Ok(List { items: [Count { count: 1 }, Count { count: 2 }] })
all 1 2 x
all 1,2"#;

#[test]
fn fronts_of_words(rt: HostRuntime) -> Result<(), Fail> {
    all_are_so(&rt, &Fronts, LINES, "Err(Fault(Syntax))")
}
