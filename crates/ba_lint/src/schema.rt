//! A schema as it is written, and links that lead back to their tables.

use crate::finding::Finding;
use crate::report::{File, Report};
use ba_hints::{Spot, Term, Words};
use ba_model::{MAX_TABLES, Schema, Table};
use std::alloc::{AllocError, Global};

/// A schema's file and its words.
#[derive(Clone, Copy)]
pub struct SchemaText<'a> {
    pub file: File<'a>,
    pub words: Words<'a>,
}

impl SchemaText<'_> {
    // The token of a term and a name, in a group if one is given.
    fn find(&self, term: Term, group: Option<u32>, name: &str) -> Option<usize> {
        let all = self.words.taken.len();
        self.words.find(term, group, name, all)
    }

    fn spot(&self, place: Option<usize>) -> Spot {
        match place {
            Some(at) => Spot::Marked(self.words.mark(self.file.bytes.len(), at)),
            None => Spot::Unknown,
        }
    }

    /// Where a table is made.
    pub fn table_spot(&self, table: &str) -> Spot {
        self.spot(self.find(Term::NewTable, None, table))
    }

    /// Where a column of a table is made.
    pub fn column_spot(&self, table: &str, column: &str) -> Spot {
        match self.find(Term::NewTable, None, table) {
            Some(at) => {
                let group = Some(self.words.group(at));
                self.spot(self.find(Term::NewColumn, group, column))
            }
            None => Spot::Unknown,
        }
    }

    // Where the name stands that the link of a number of a table leads to.
    fn link_spot(&self, table: &str, number: usize) -> Spot {
        let Some(at) = self.find(Term::NewTable, None, table) else {
            return Spot::Unknown;
        };
        let group = Some(self.words.group(at));
        let mut count = 0usize;
        for at in 0..self.words.taken.len() {
            if self.words.is_in(at, Term::Target, group) {
                if count == number {
                    return self.spot(Some(at));
                }
                count = count.saturating_add(1);
            }
        }
        Spot::Unknown
    }
}

// Adds the tables that those links lead to, which aren't there.
fn reach(reached: &mut Vec<u32>, table: &Table) -> Result<(), AllocError> {
    for link in table.links.as_slice() {
        if !reached.contains(&link.target) {
            reached.push(link.target)?;
        }
    }
    Ok(())
}

// Whether links lead from a table to another, or it is that, by their numbers.
fn leads_to(alloc: Global, schema: &Schema, from: u32, to: u32) -> Result<bool, AllocError> {
    let mut reached = Vec::new(alloc);
    reached.push(from)?;
    for at in 0..MAX_TABLES {
        let Some(number) = reached.get(at).copied() else {
            return Ok(false);
        };
        if number == to {
            return Ok(true);
        }
        if let Some(table) = schema.tables.find(number as usize) {
            reach(&mut reached, table)?;
        }
    }
    Ok(false)
}

// Finds links of a table that lead back to it.
fn find_links_back(
    report: &mut Report,
    text: &SchemaText<'_>,
    schema: &Schema,
    table: &Table,
    number: u32,
) -> Result<(), AllocError> {
    for (place, link) in table.links.as_slice().iter().enumerate() {
        let leads_back = leads_to(report.alloc, schema, link.target, number)?;
        if leads_back && let Some(target) = schema.tables.find(link.target as usize) {
            let finding = Finding::LinkBack {
                table: table.name.as_str(),
                target: target.name.as_str(),
            };
            let spot = text.link_spot(table.name.as_str(), place);
            report.add(text.file, spot, &finding)?;
        }
    }
    Ok(())
}

/// Finds links that lead back to their own tables, maybe by way of others.
pub fn find_cycles(
    report: &mut Report,
    text: &SchemaText<'_>,
    schema: &Schema,
) -> Result<(), AllocError> {
    for (table, number) in schema.tables.as_slice().iter().zip(0..u32::MAX) {
        find_links_back(report, text, schema, table, number)?;
    }
    Ok(())
}
