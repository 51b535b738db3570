//! A schema as it is written, before its names are looked up.

use ba_model::{List, Str};
use std::marker::Model;

/// A name, quoted or not.
#[derive(Debug, Drop)]
pub struct Name {
    pub text: Str,
}

impl Model for Name {
    ghost use Rattle.std.specs.Prelude.{List as Sequence, ℕ};

    ghost Value = { Sequence ℕ };

    ghost view = { λ it. it.text };
}

/// The word for a type. The first four are of whole numbers, the others of texts.
#[derive(Clone, Copy, Debug, PartialEq, Eq)]
pub enum TypeWord {
    Int,
    Integer,
    BigInt,
    SmallInt,
    Text,
    VarChar,
    Char,
}

/// A type, and the number in brackets behind it, which means nothing.
#[derive(Clone, Copy, Debug, PartialEq, Eq)]
pub struct TypeText {
    pub word: TypeWord,
    pub size: Option<i64>,
}

/// What stands behind a column's type.
#[derive(Debug, Drop)]
pub enum ColumnRule {
    NotNull,
    Null,
    PrimaryKey,
    Unique,
    References { table: Name, targets: List<Name> },
}

/// `name type { rule }`
#[derive(Debug, Drop)]
pub struct ColumnText {
    pub name: Name,
    pub type_text: TypeText,
    pub rules: List<ColumnRule>,
}

/// A rule of a table, apart from its columns.
#[derive(Debug, Drop)]
pub enum TableRule {
    PrimaryKey(List<Name>),
    Unique(List<Name>),
    ForeignKey {
        columns: List<Name>,
        table: Name,
        targets: List<Name>,
    },
}

/// `[ CONSTRAINT label ] rule`
#[derive(Debug, Drop)]
pub struct Constraint {
    pub label: Option<Name>,
    pub rule: TableRule,
}

/// What stands between a table's brackets, with commas between them.
#[derive(Debug, Drop)]
pub enum TableItem {
    Column(ColumnText),
    Constraint(Constraint),
}

/// `CREATE TABLE name ( item {, item} ) ;`
#[derive(Debug, Drop)]
pub struct TableText {
    pub name: Name,
    pub items: List<TableItem>,
}
