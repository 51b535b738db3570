//! The names of a question, and what they may mean.

use crate::grammar::Term;
use crate::words::Words;
use ba_lex::{Lexeme, Sign};
use ba_model::{Kind, Parameter, Schema, Table};
use ba_sql_query::ReadQueryFault;
use std::alloc::{AllocError, Global};

/// A question's words, and what its names are looked for in.
#[derive(Clone, Copy)]
pub struct Sight<'a> {
    pub schema: &'a Schema,
    pub params: &'a [Parameter],
    pub words: Words<'a>,
}

/// How many sources a name may mean, and the last of them.
#[derive(Clone, Copy)]
pub struct Sources {
    pub count: usize,
    pub last: usize,
}

// The kind of the table's column of that name.
fn kind_of_column(table: &Table, name: &str) -> Option<Kind> {
    for column in table.columns.as_slice() {
        if column.name.as_str() == name {
            return Some(column.kind);
        }
    }
    None
}

/// Adds the names of a table's columns.
pub fn push_columns<'a>(names: &mut Vec<&'a str>, table: &'a Table) -> Result<(), AllocError> {
    for column in table.columns.as_slice() {
        names.push(column.name.as_str())?;
    }
    Ok(())
}

impl<'a> Sight<'a> {
    /// The table of the schema that a word names.
    pub fn table(&self, at: usize) -> Option<&'a Table> {
        for table in self.schema.tables.as_slice() {
            if table.name.as_str() == self.words.word(at) {
                return Some(table);
            }
        }
        None
    }

    // The declared kind of the parameter that a word names.
    fn kind_of_param(&self, at: usize) -> Option<Kind> {
        for param in self.params {
            if param.name.as_str() == self.words.word(at) {
                return Some(param.kind);
            }
        }
        None
    }

    /// Where the name stands that the source of a table is called by.
    pub fn called(&self, at: usize) -> usize {
        let next = at.saturating_add(1);
        let second = at.saturating_add(2);
        if self.words.is(next, Term::Alias) {
            next
        } else if self.words.is(next, Term::As) && self.words.is(second, Term::Alias) {
            second
        } else {
            at
        }
    }

    // Whether a source may be meant by a qualifier, or have a column.
    fn may_be(&self, source: usize, at: usize) -> bool {
        if self.words.is(at, Term::Qualifier) {
            return self.words.word(self.called(source)) == self.words.word(at);
        }
        match self.table(source) {
            Some(table) => kind_of_column(table, self.words.word(at)).is_some(),
            None => false,
        }
    }

    /// The sources of its select that a qualifier, or a column without one, may mean.
    pub fn sources(&self, at: usize) -> Sources {
        let mut found = Sources { count: 0, last: 0 };
        let group = Some(self.words.group(at));
        for source in 0..self.words.taken.len() {
            if self.words.is_in(source, Term::Table, group) && self.may_be(source, at) {
                found.count = found.count.saturating_add(1);
                found.last = source;
            }
        }
        found
    }

    /// The qualifier before a column.
    pub fn qualifier(&self, at: usize) -> Option<usize> {
        let before = at.checked_sub(2)?;
        if self.words.is(before, Term::Qualifier) {
            Some(before)
        } else {
            None
        }
    }

    /// The kind of a column or a value, if it is one.
    pub fn kind(&self, at: usize) -> Option<Kind> {
        let token = self.words.tokens.get(at)?;
        match &token.lexeme {
            Lexeme::Number(_) => Some(Kind::Int),
            Lexeme::Text(_) => Some(Kind::Text),
            Lexeme::Param(_) => self.kind_of_param(at),
            Lexeme::Sign(_) => None,
            Lexeme::Word(_) | Lexeme::Quoted(_) => {
                if !self.words.is(at, Term::Column) {
                    return Some(Kind::Int);
                }
                let sources = self.sources(self.qualifier(at).unwrap_or(at));
                if sources.count != 1 {
                    return None;
                }
                kind_of_column(self.table(sources.last)?, self.words.word(at))
            }
        }
    }

    /// The sides of a comparison, or the side before IN and one of the constants behind it.
    pub fn sides(&self, at: usize) -> Option<(usize, usize)> {
        if self.words.is(at, Term::Compare) {
            let left = at.checked_sub(1)?;
            let next = at.saturating_add(1);
            let is_qualified = self.words.is(next, Term::Qualifier);
            let right = if is_qualified {
                at.saturating_add(3)
            } else {
                next
            };
            return Some((left, right));
        }
        for before in (0..at).rev() {
            if self.words.is(before, Term::In) {
                return Some((before.checked_sub(1)?, at));
            }
        }
        None
    }

    fn kinds_differ(&self, at: usize) -> bool {
        let Some((left, right)) = self.sides(at) else {
            return false;
        };
        match (self.kind(left), self.kind(right)) {
            (Some(Kind::Int), Some(Kind::Text)) | (Some(Kind::Text), Some(Kind::Int)) => true,
            _ => false,
        }
    }

    // Whether a sign asks for an order of texts.
    fn orders_texts(&self, at: usize) -> bool {
        let is_order = match self.words.tokens.get(at) {
            Some(token) => match &token.lexeme {
                Lexeme::Sign(Sign::Less | Sign::LessEqual | Sign::Greater | Sign::GreaterEqual) =>
                    true,
                _ => false,
            },
            None => false,
        };
        match self.sides(at) {
            Some((left, _)) => is_order && matches!(self.kind(left), Some(Kind::Text)),
            None => false,
        }
    }

    // Whether a column isn't where it may be.
    fn is_missing(&self, at: usize) -> bool {
        let Some(qualifier) = self.qualifier(at) else {
            return self.sources(at).count == 0;
        };
        let sources = self.sources(qualifier);
        match self.table(sources.last) {
            Some(table) => {
                sources.count == 1 && kind_of_column(table, self.words.word(at)).is_none()
            }
            None => false,
        }
    }

    // Whether a token has the fault.
    fn has(&self, fault: &ReadQueryFault, at: usize) -> bool {
        match (fault, self.words.term(at)) {
            (ReadQueryFault::UnknownTable, Term::Table) => self.table(at).is_none(),
            (ReadQueryFault::UnknownTable, Term::Qualifier) => self.sources(at).count == 0,
            (ReadQueryFault::UnknownColumn, Term::Column) => self.is_missing(at),
            (ReadQueryFault::Ambiguous, Term::Qualifier) => self.sources(at).count > 1,
            (ReadQueryFault::Ambiguous, Term::Column) => {
                self.qualifier(at).is_none() && self.sources(at).count > 1
            }
            (ReadQueryFault::UnknownParam, Term::Value | Term::Listed) => {
                self.words.is_param(at) && self.kind_of_param(at).is_none()
            }
            (ReadQueryFault::KindDiffers, Term::Compare | Term::Listed) => self.kinds_differ(at),
            (ReadQueryFault::OrderOnText, Term::Compare) => self.orders_texts(at),
            // (It begins the second of two selects.)
            (ReadQueryFault::HeadDiffers, Term::Select) => {
                let last = self.words.taken.len().saturating_sub(1);
                self.words.group(at) == 2 && self.words.group(last) == 2
            }
            _ => false,
        }
    }

    /// The first token that has the fault.
    pub fn first(&self, fault: &ReadQueryFault) -> Option<usize> {
        for at in 0..self.words.taken.len() {
            if self.has(fault, at) {
                return Some(at);
            }
        }
        None
    }

    /// The names of the schema's tables.
    pub fn tables(&self, alloc: Global) -> Result<Vec<&'a str>, AllocError> {
        let mut names = Vec::new(alloc);
        for table in self.schema.tables.as_slice() {
            names.push(table.name.as_str())?;
        }
        Ok(names)
    }

    /// The names of the policy's parameters.
    pub fn params(&self, alloc: Global) -> Result<Vec<&'a str>, AllocError> {
        let mut names = Vec::new(alloc);
        for param in self.params {
            names.push(param.name.as_str())?;
        }
        Ok(names)
    }

    /// The names that the sources of a token's select are called by.
    pub fn called_there(&self, alloc: Global, at: usize) -> Result<Vec<&'a str>, AllocError> {
        let mut names = Vec::new(alloc);
        let group = Some(self.words.group(at));
        for source in 0..self.words.taken.len() {
            if self.words.is_in(source, Term::Table, group) {
                names.push(self.words.word(self.called(source)))?;
            }
        }
        Ok(names)
    }

    // Whether a column may be of a source: that of its qualifier, or any of its select.
    fn may_have(&self, source: usize, at: usize) -> bool {
        match self.qualifier(at) {
            Some(qualifier) => source == self.sources(qualifier).last,
            None => self
                .words
                .is_in(source, Term::Table, Some(self.words.group(at))),
        }
    }

    /// The columns of the sources that a column may be of.
    pub fn columns(&self, alloc: Global, at: usize) -> Result<Vec<&'a str>, AllocError> {
        let mut names = Vec::new(alloc);
        for source in 0..self.words.taken.len() {
            if self.may_have(source, at)
                && let Some(table) = self.table(source)
            {
                push_columns(&mut names, table)?;
            }
        }
        Ok(names)
    }
}
