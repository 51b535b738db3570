//! Tokens taken one by one, as far as a grammar goes.

use crate::grammar::{Stage, Step, Term, When};
use ba_grammar::{is_among, is_keyword, is_sign};
use ba_lex::{Lexeme, Sign, Token};
use std::alloc::{AllocError, Global};

/// The words that a name of a question may not be.
const QUERY_WORDS: [&str; 40] = [
    "SELECT",
    "DISTINCT",
    "FROM",
    "WHERE",
    "JOIN",
    "INNER",
    "CROSS",
    "ON",
    "AS",
    "AND",
    "OR",
    "UNION",
    "IN",
    "TRUE",
    "FALSE",
    "ALL",
    "NOT",
    "NULL",
    "IS",
    "LIKE",
    "BETWEEN",
    "EXISTS",
    "GROUP",
    "HAVING",
    "ORDER",
    "LIMIT",
    "OFFSET",
    "LEFT",
    "RIGHT",
    "FULL",
    "OUTER",
    "NATURAL",
    "USING",
    "CASE",
    "WITH",
    "INSERT",
    "UPDATE",
    "DELETE",
    "INTERSECT",
    "EXCEPT",
];

/// The words that a name of a schema may not be.
const SCHEMA_WORDS: [&str; 23] = [
    "DEFAULT",
    "CHECK",
    "INDEX",
    "ENGINE",
    "AUTO_INCREMENT",
    "AUTOINCREMENT",
    "ON",
    "CASCADE",
    "ALTER",
    "DROP",
    "INSERT",
    "TEMPORARY",
    "IF",
    "CREATE",
    "TABLE",
    "NOT",
    "NULL",
    "PRIMARY",
    "KEY",
    "UNIQUE",
    "REFERENCES",
    "CONSTRAINT",
    "FOREIGN",
];

/// The words for types.
const TYPES: [&str; 7] = [
    "INT", "INTEGER", "BIGINT", "SMALLINT", "TEXT", "VARCHAR", "CHAR",
];

/// What a token was taken for, and in which select or table, from 1.
#[derive(Clone, Copy)]
pub struct Taken {
    pub term: Term,
    pub group: u32,
}

/// Where a reading stands.
#[derive(Clone, Copy)]
pub struct State {
    stage: Stage,
    depth: usize,
    is_behind_where: bool,
    group: u32,
}

/// What the first tokens were taken for, where that ended, and whether it was the end of them all.
#[derive(Drop)]
pub struct Walk {
    pub taken: Vec<Taken>,
    pub state: State,
    pub is_whole: bool,
}

// Whether the token is a name, where these words are reserved.
fn is_name(lexeme: &Lexeme, reserved: &[&str]) -> bool {
    match lexeme {
        Lexeme::Word(word) => !is_among(word, reserved),
        Lexeme::Quoted(_) => true,
        _ => false,
    }
}

/// Whether the token is a word that no name of a question is.
pub fn is_reserved(lexeme: &Lexeme) -> bool {
    matches!(lexeme, Lexeme::Word(_)) && !is_name(lexeme, &QUERY_WORDS)
}

fn is_value(lexeme: &Lexeme) -> bool {
    match lexeme {
        Lexeme::Number(_) | Lexeme::Text(_) | Lexeme::Param(_) => true,
        _ => is_keyword(lexeme, "TRUE") || is_keyword(lexeme, "FALSE"),
    }
}

fn is_comparison(lexeme: &Lexeme) -> bool {
    match lexeme {
        Lexeme::Sign(
            Sign::Equal
            | Sign::NotEqual
            | Sign::BangEqual
            | Sign::Less
            | Sign::LessEqual
            | Sign::Greater
            | Sign::GreaterEqual,
        ) => true,
        _ => false,
    }
}

fn begins_with_dot(tokens: &[Token]) -> bool {
    match tokens {
        [] => false,
        [first, ..] => is_sign(&first.lexeme, Sign::Dot),
    }
}

// Whether a term stands at the front of tokens.
fn stands(term: Term, tokens: &[Token]) -> bool {
    let [first, others @ ..] = tokens else {
        return matches!(&term, Term::End);
    };
    let lexeme = &first.lexeme;
    match term {
        Term::End => false,
        Term::Any => true,
        Term::Open | Term::QueryOpen => is_sign(lexeme, Sign::LeftParen),
        Term::Close | Term::QueryClose => is_sign(lexeme, Sign::RightParen),
        Term::Comma => is_sign(lexeme, Sign::Comma),
        Term::Dot => is_sign(lexeme, Sign::Dot),
        Term::Star => is_sign(lexeme, Sign::Star),
        Term::Semicolon => is_sign(lexeme, Sign::Semicolon),
        Term::Type => matches!(lexeme, Lexeme::Word(_)) && !is_name(lexeme, &TYPES),
        Term::Size => matches!(lexeme, Lexeme::Number(_)),
        Term::Compare => is_comparison(lexeme),
        Term::Value | Term::Listed => is_value(lexeme),
        Term::Qualifier => is_name(lexeme, &QUERY_WORDS) && begins_with_dot(others),
        Term::Table | Term::Alias | Term::Column => is_name(lexeme, &QUERY_WORDS),
        Term::Param | Term::View | Term::CacheKey | Term::Argument => {
            matches!(lexeme, Lexeme::Word(_))
        }
        Term::NewTable
        | Term::NewColumn
        | Term::KeyColumn
        | Term::LinkColumn
        | Term::Target
        | Term::TargetColumn
        | Term::Label => is_name(lexeme, &SCHEMA_WORDS),
        _ => is_keyword(lexeme, term.text()),
    }
}

impl State {
    // Whether a step may be taken.
    fn allows(&self, step: &Step) -> bool {
        step.from == self.stage
            && match step.when() {
                When::Always | When::Begins | When::Opens => true,
                When::Closes => self.depth > 0,
                When::Outside => self.depth == 0,
                When::Before | When::Where => self.depth == 0 && !self.is_behind_where,
            }
    }

    // Where it stands behind a step.
    fn behind(self, step: &Step) -> State {
        let stage = step.to;
        let next = State { stage, ..self };
        match step.when() {
            When::Begins => State {
                group: self.group.saturating_add(1),
                is_behind_where: false,
                ..next
            },
            When::Opens => State {
                depth: self.depth.saturating_add(1),
                ..next
            },
            When::Closes => State {
                depth: self.depth.saturating_sub(1),
                ..next
            },
            When::Where => State {
                is_behind_where: true,
                ..next
            },
            When::Always | When::Outside | When::Before => next,
        }
    }

    // The step over the front of the tokens.
    fn step(&self, steps: &[Step], tokens: &[Token]) -> Option<Step> {
        for step in steps {
            if self.allows(step) && stands(step.over, tokens) {
                return Some(*step);
            }
        }
        None
    }

    /// What may stand there, by the steps of its grammar.
    pub fn wanted(&self, alloc: Global, steps: &[Step]) -> Result<Vec<&'static str>, AllocError> {
        let mut words = Vec::new(alloc);
        for step in steps {
            let word = step.over.text();
            if self.allows(step) && !words.contains(&word) {
                words.push(word)?;
            }
        }
        Ok(words)
    }
}

/// Takes tokens from a stage on by the steps of a grammar, as far as they go.
pub fn take_tokens(
    alloc: Global,
    steps: &[Step],
    stage: Stage,
    tokens: &[Token],
) -> Result<Walk, AllocError> {
    let mut taken = Vec::new(alloc);
    let mut state = State {
        stage,
        depth: 0,
        is_behind_where: false,
        group: 0,
    };
    for at in 0..tokens.len() {
        let Some(step) = state.step(steps, &tokens[at..]) else {
            break;
        };
        state = state.behind(&step);
        let term = step.over;
        let group = state.group;
        taken.push(Taken { term, group })?;
    }
    let is_whole = taken.len() == tokens.len() && state.step(steps, &[]).is_some();
    Ok(Walk {
        taken,
        state,
        is_whole,
    })
}
