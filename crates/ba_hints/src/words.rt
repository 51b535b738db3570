//! Tokens and what they were taken for.

use crate::grammar::Term;
use crate::hint::{Hint, Spot};
use crate::walk::Taken;
use ba_lex::{Lexeme, Token};
use ba_place::{Mark, WORD_CHARS, shown};
use std::alloc::{AllocError, Global};

/// Tokens, and what the first of them were taken for.
#[derive(Clone, Copy)]
pub struct Words<'a> {
    pub tokens: &'a [Token],
    pub taken: &'a [Taken],
}

impl<'a> Words<'a> {
    /// What a token says, if it is a word, a name, a parameter or a text.
    pub fn word(&self, at: usize) -> &'a str {
        match self.tokens.get(at) {
            Some(token) => match &token.lexeme {
                Lexeme::Word(text)
                | Lexeme::Quoted(text)
                | Lexeme::Param(text)
                | Lexeme::Text(text) => text.as_str(),
                _ => "",
            },
            None => "",
        }
    }

    /// Whether a token is a parameter.
    pub fn is_param(&self, at: usize) -> bool {
        match self.tokens.get(at) {
            Some(token) => matches!(&token.lexeme, Lexeme::Param(_)),
            None => false,
        }
    }

    /// What a token was taken for: `Any`, where it was taken for nothing.
    pub fn term(&self, at: usize) -> Term {
        match self.taken.get(at) {
            Some(taken) => taken.term,
            None => Term::Any,
        }
    }

    /// Whether a token was taken for that.
    pub fn is(&self, at: usize, term: Term) -> bool {
        self.term(at) == term
    }

    /// Its select or table, from 1.
    pub fn group(&self, at: usize) -> u32 {
        match self.taken.get(at) {
            Some(taken) => taken.group,
            None => 0,
        }
    }

    /// Whether a token was taken for that, in a group if one is given.
    pub fn is_in(&self, at: usize, term: Term, group: Option<u32>) -> bool {
        match group {
            Some(group) => self.is(at, term) && self.group(at) == group,
            None => self.is(at, term),
        }
    }

    /// The first token of a term and a name, in a group if one is given, before a place.
    pub fn find(&self, term: Term, group: Option<u32>, name: &str, before: usize) -> Option<usize> {
        for at in 0..before.min(self.taken.len()) {
            if self.is_in(at, term, group) && self.word(at) == name {
                return Some(at);
            }
        }
        None
    }

    /// The names of a term, in a group if one is given.
    pub fn names(
        &self,
        alloc: Global,
        term: Term,
        group: Option<u32>,
    ) -> Result<Vec<&'a str>, AllocError> {
        let mut names = Vec::new(alloc);
        for at in 0..self.taken.len() {
            if self.is_in(at, term, group) {
                names.push(self.word(at))?;
            }
        }
        Ok(names)
    }

    /// The tokens from one place up to another.
    pub fn between(&self, from: usize, to: usize) -> &'a [Token] {
        match self.tokens.get(from..to) {
            Some(tokens) => tokens,
            None => &[],
        }
    }

    /// The bytes of a token in a text of so many; behind the last token, none.
    pub fn mark(&self, len: usize, at: usize) -> Mark {
        match self.tokens.get(at) {
            Some(token) => Mark::within(len, token.start, token.end),
            None => match self.tokens.last() {
                Some(last) => Mark::within(len, last.end, last.end),
                None => Mark::within(len, 0, 0),
            },
        }
    }

    /// A hint on a token, if it is known, of a text of so many bytes.
    pub fn hint(&self, len: usize, place: Option<usize>, text: String) -> Hint {
        let spot = match place {
            Some(at) => Spot::Marked(self.mark(len, at)),
            None => Spot::Unknown,
        };
        Hint { spot, text }
    }

    /// A token as it is written in its text.
    pub fn spelled(&self, alloc: Global, bytes: &[u8], at: usize) -> Result<String, AllocError> {
        let mark = self.mark(bytes.len(), at);
        let spelling = bytes.get(mark.start..mark.end).unwrap_or(&[]);
        shown(alloc, spelling, WORD_CHARS)
    }
}
