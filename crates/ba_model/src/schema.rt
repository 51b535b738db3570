//! Schemas.

use crate::list::List;
use crate::query::Query;
use crate::text::Str;

/// What a column holds, beside NULL.
#[derive(Clone, Copy, Debug, PartialEq, Eq)]
pub enum Kind {
    Int,
    Text,
}

#[derive(Debug, Drop)]
pub struct Column {
    pub name: Str,
    pub kind: Kind,
    /// Whether NULL may stand there.
    pub nullable: bool,
}

/// A foreign key: these columns of a row that have no NULL are the target columns of some row of the target table.
#[derive(Debug, Drop)]
pub struct Link {
    pub columns: List<u32>,
    pub target: u32,
    pub target_columns: List<u32>,
}

/// A table with its keys (columns on which no two rows agree) and links, each by the numbers of its columns.
#[derive(Debug, Drop)]
pub struct Table {
    pub name: Str,
    pub columns: List<Column>,
    pub keys: List<List<u32>>,
    pub links: List<Link>,
}

/// An inclusion rule: each row of the left query is a row of the right one. Neither has parameters.
#[derive(Debug, Drop)]
pub struct Rule {
    pub left: Query,
    pub right: Query,
}

#[derive(Debug, Drop)]
pub struct Schema {
    pub tables: List<Table>,
    pub rules: List<Rule>,
}
