//! Tokens of texts and of files.

use super::cases::{Reading, Told, all_are_so, bytes_of};
use super::faults::write_lex_fault;
use ba_lex::{LexFault, Lexeme, Token, tokens, tokens_of_bytes};
use ba_model::{Failure, List, Str};
use std::alloc::{AllocError, Global};
use std::fmt::Write;
use std::test::Fail;

fn write_marked(told: &mut String, mark: &str, text: &Str) -> Told {
    told.push_str(mark)?;
    told.push_str(text.as_str())
}

fn write_lexeme(told: &mut String, lexeme: &Lexeme) -> Told {
    match lexeme {
        Lexeme::Word(word) => write_marked(told, "", word),
        Lexeme::Quoted(name) => write_marked(told, "name:", name),
        Lexeme::Number(n) => write!(told, "{n}"),
        Lexeme::Text(text) => write_marked(told, "text:", text),
        Lexeme::Param(name) => write_marked(told, "?", name),
        Lexeme::Sign(sign) => write!(told, "{sign:?}"),
    }
}

fn write_token(told: &mut String, n: usize, token: &Token) -> Told {
    if n > 0 {
        told.push_str(" ")?;
    }
    write_lexeme(told, &token.lexeme)
}

fn write_tokens(
    alloc: Global,
    read: Result<List<Token>, Failure<LexFault>>,
    told: &mut String,
) -> Told {
    match read {
        Ok(list) => {
            for (n, token) in list.as_slice().iter().enumerate() {
                write_token(told, n, token)?;
            }
            Ok(())
        }
        Err(Failure::NoMemory) => Err(AllocError),
        Err(Failure::Fault(fault)) => write_lex_fault(alloc, fault, told),
    }
}

/// The tokens of a text of at most 80 bytes.
struct OfText;

impl Reading for OfText {
    fn tell(&self, alloc: Global, text: &str, told: &mut String) -> Told {
        write_tokens(alloc, tokens(alloc, text, 80), told)
    }
}

/// The tokens of a file of at most 8 bytes.
struct OfFile;

impl Reading for OfFile {
    fn tell(&self, alloc: Global, text: &str, told: &mut String) -> Told {
        let bytes = bytes_of(alloc, text)?;
        write_tokens(alloc, tokens_of_bytes(alloc, bytes.as_slice(), 8), told)
    }
}

/// The tokens of a text and their places.
struct Places;

impl Reading for Places {
    fn tell(&self, alloc: Global, text: &str, told: &mut String) -> Told {
        write!(told, "{:?}", tokens(alloc, text, 80))
    }
}

const PLACES: &str =
    r#" a = 'b' => Ok(List { items: [Token { lexeme: Word(Str { text: "a" }), start: 1, end: 2 }, Token { lexeme: Sign(Equal), start: 3, end: 4 }, Token { lexeme: Text(Str { text: "b" }), start: 5, end: 8 }] })"#;

const TEXTS: &str =
    r##"Select "a b",`c`.* FROM Tab2 => Select name:a b Comma name:c Dot Star FROM Tab2
FROM Tab2--, 'x~WHERE _a<>-5-- => FROM Tab2 WHERE _a NotEqual -5
 b>='it''s' or 007!=?MyUId => b GreaterEqual text:it's or 7 BangEqual ?MyUId
3-1 - 1 <=>=<<>'''é''' => 3 -1 Minus 1 LessEqual GreaterEqual Less NotEqual text:'é'
;/%+(!=) > - => Semicolon Slash Percent Plus LeftParen BangEqual RightParen Greater Minus
-9223372036854775808 9223372036854775807 => -9223372036854775808 9223372036854775807
a[[79  ]] => a
a 'b => open_quote
"b` => open_quote
''' # 1 => open_quote
a # 'b => bad_byte
"" 'b => bad_byte
`a"` 'b => bad_byte
? a 'b => bad_byte
!a => bad_byte
é 'b => bad_byte
9223372036854775808 'b => number_too_large
-9223372036854775809 # => number_too_large
[[81 #]] => too_long"##;

#[test]
fn tokens_of_texts(rt: HostRuntime) -> Result<(), Fail> {
    let files = "a^= 'é' => a Equal text:é
'abc @ => bad_byte
'abcdef @ => too_long";
    all_are_so(&rt, &OfFile, files, "")?;
    all_are_so(&rt, &Places, PLACES, "")?;
    all_are_so(&rt, &OfText, TEXTS, "")
}
