//! A policy as it is written: where its statements and their names stand.

use crate::report::File;
use ba_grammar::is_keyword;
use ba_hints::{Sight, Spot, Term, Words, end_of};
use ba_lex::{Lexeme, Token};
use ba_model::{Part, Table, Value, View};

/// A policy's file, and the words of those of its statements that are read.
#[derive(Clone, Copy)]
pub struct PolicyText<'a> {
    pub file: File<'a>,
    pub words: Words<'a>,
}

// Whether the first word of a comment that begins a line's rest is `public`.
fn says_public(rest: &[u8]) -> bool {
    for at in 0..rest.len() {
        let rest = rest.get(at..).unwrap_or(&[]);
        match rest.first() {
            Some(b' ' | b'\t') => {}
            Some(b'-') => return begins_public(rest),
            _ => return false,
        }
    }
    false
}

// Whether these bytes are a comment whose first word is `public`.
fn begins_public(comment: &[u8]) -> bool {
    let mut text = comment.strip_prefix(b"--".as_slice()).unwrap_or(&[]);
    for _ in 0..text.len() {
        match text.strip_prefix(b" ".as_slice()) {
            Some(rest) => text = rest,
            None => break,
        }
    }
    match text.strip_prefix(b"public".as_slice()) {
        Some(rest) => match rest.first() {
            Some(byte) => !byte.is_ascii_alphanumeric() && *byte != b'_',
            None => true,
        },
        None => false,
    }
}

impl<'a> PolicyText<'a> {
    // The token of a term and a name.
    fn find(&self, term: Term, name: &str) -> Option<usize> {
        self.words.find(term, None, name, self.words.taken.len())
    }

    /// Where the name of a parameter or of a view stands.
    pub fn spot(&self, term: Term, name: &str) -> Spot {
        match self.find(term, name) {
            Some(at) => Spot::Marked(self.words.mark(self.file.bytes.len(), at)),
            None => Spot::Unknown,
        }
    }

    /// The tokens of a view's query.
    pub fn query(&self, name: &str) -> &'a [Token] {
        match self.find(Term::View, name) {
            Some(at) => {
                let from = at.saturating_add(2);
                self.words.between(from, end_of(&self.words, from))
            }
            None => &[],
        }
    }

    /// Whether the comment behind a view says that it is public: it stands on the line on which the
    /// view's statement ends, and its first word is `public`.
    pub fn is_public(&self, name: &str) -> bool {
        let Some(at) = self.find(Term::View, name) else {
            return false;
        };
        let bytes = self.file.bytes;
        let end = self.words.mark(bytes.len(), end_of(&self.words, at)).end;
        says_public(bytes.get(end..).unwrap_or(&[]))
    }
}

/// A view of a policy, as it is read and as it is written.
#[derive(Clone, Copy)]
pub struct ViewText<'a> {
    pub policy: PolicyText<'a>,
    pub view: &'a View,
    /// The words of its query.
    pub sight: Sight<'a>,
}

// Whether a token is a literal of that value.
fn spells(token: &Token, value: &Value) -> bool {
    let lexeme = &token.lexeme;
    match (lexeme, value) {
        (Lexeme::Number(number), Value::Int(other)) => *number == *other,
        (Lexeme::Text(text), Value::Text(other)) => text.as_str() == other.as_str(),
        (Lexeme::Word(_), Value::Int(1)) => is_keyword(lexeme, "TRUE"),
        (Lexeme::Word(_), Value::Int(0)) => is_keyword(lexeme, "FALSE"),
        _ => false,
    }
}

impl<'a> ViewText<'a> {
    /// The policy's file.
    pub fn file(&self) -> File<'a> {
        self.policy.file
    }

    /// The view's name.
    pub fn name(&self) -> &'a str {
        self.view.name.as_str()
    }

    /// Whether the view is said to be public.
    pub fn is_public(&self) -> bool {
        self.policy.is_public(self.name())
    }

    /// Where the view's name stands.
    pub fn name_spot(&self) -> Spot {
        self.policy.spot(Term::View, self.name())
    }

    // Where a token of its query stands, or else its name.
    fn spot(&self, place: Option<usize>) -> Spot {
        match place {
            Some(at) => {
                let len = self.policy.file.bytes.len();
                Spot::Marked(self.sight.words.mark(len, at))
            }
            None => self.name_spot(),
        }
    }

    /// The table at a place of one of its parts.
    pub fn table(&self, part: &Part, place: u32) -> Option<&'a Table> {
        let number = part.from.find(place as usize)?;
        self.sight.schema.tables.find(*number as usize)
    }

    /// The name of that table.
    pub fn table_name(&self, part: &Part, place: u32) -> &'a str {
        match self.table(part, place) {
            Some(table) => table.name.as_str(),
            None => "?",
        }
    }

    /// Where it reads a table first.
    pub fn table_spot(&self, table: &str) -> Spot {
        let words = &self.sight.words;
        self.spot(words.find(Term::Table, None, table, words.taken.len()))
    }

    // Whether a token stands behind its select's FROM.
    fn is_behind_from(&self, at: usize) -> bool {
        let words = &self.sight.words;
        let group = Some(words.group(at));
        (0..at).any(|before| words.is_in(before, Term::From, group))
    }

    // Whether a token is that column of that table in a condition.
    fn is_compared(&self, at: usize, table: &str, column: &str) -> bool {
        let words = &self.sight.words;
        if !words.is(at, Term::Column) || words.word(at) != column || !self.is_behind_from(at) {
            return false;
        }
        let sources = self.sight.sources(self.sight.qualifier(at).unwrap_or(at));
        words.word(sources.last) == table
    }

    /// Where it compares a column of a table first.
    pub fn column_spot(&self, table: &str, column: &str) -> Spot {
        for at in 0..self.sight.words.taken.len() {
            if self.is_compared(at, table, column) {
                return self.spot(Some(at));
            }
        }
        self.name_spot()
    }

    // Whether a token is a literal of that value.
    fn is_literal(&self, at: usize, value: &Value) -> bool {
        match self.sight.words.tokens.get(at) {
            Some(token) => spells(token, value),
            None => false,
        }
    }

    // The literal of that value with which a comparison, or a constant behind IN, compares that
    // column of that table, if the token is one.
    fn literal_at(&self, at: usize, table: &str, column: &str, value: &Value) -> Option<usize> {
        let words = &self.sight.words;
        if !words.is(at, Term::Compare) && !words.is(at, Term::Listed) {
            return None;
        }
        let (left, right) = self.sight.sides(at)?;
        if self.is_compared(left, table, column) && self.is_literal(right, value) {
            Some(right)
        } else if self.is_compared(right, table, column) && self.is_literal(left, value) {
            Some(left)
        } else {
            None
        }
    }

    /// Where it compares a column of a table with a literal first.
    pub fn value_spot(&self, table: &str, column: &str, value: &Value) -> Spot {
        for at in 0..self.sight.words.taken.len() {
            if let Some(place) = self.literal_at(at, table, column, value) {
                return self.spot(Some(place));
            }
        }
        self.name_spot()
    }
}
