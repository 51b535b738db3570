//! Tables read from the left.
ghost use Rattle.std.specs.Prelude.{◌≡◌};
ghost use Rattle.ba_model.specs.Readings.{Sees};
ghost use Rattle.ba_grammar.specs.Front.{begins};
ghost use Rattle.ba_sql_ddl.specs.Reader as reader;

use crate::written::{
    ColumnRule, ColumnText, Constraint, Name, TableItem, TableRule, TableText, TypeText, TypeWord,
};
use ba_grammar::{
    Element, Syntax, begins_with_keyword, begins_with_sign, is_keyword, listed, name, number,
    past_keyword, past_sign,
};
use ba_lex::{Lexeme, Sign};
use ba_model::{Failure, List};
use std::alloc::Global;

/// The words that a name may not be unless it is quoted.
const RESERVED: [&str; 23] = [
    "DEFAULT",
    "CHECK",
    "INDEX",
    "ENGINE",
    "AUTO_INCREMENT",
    "AUTOINCREMENT",
    "ON",
    "CASCADE",
    "ALTER",
    "DROP",
    "INSERT",
    "TEMPORARY",
    "IF",
    "CREATE",
    "TABLE",
    "NOT",
    "NULL",
    "PRIMARY",
    "KEY",
    "UNIQUE",
    "REFERENCES",
    "CONSTRAINT",
    "FOREIGN",
];

impl Element<Lexeme> for Name {
    ghost use Rattle.ba_sql_ddl.specs.Reader.{ddl_name_at};

    ghost read_at = { ddl_name_at };

    fn read(alloc: Global, words: &[Lexeme]) -> Result<(Name, &[Lexeme]), Failure<Syntax>> {
        let (text, rest) = name(alloc, words, &RESERVED)?;
        Ok((Name { text }, rest))
    }
}

/// Names in brackets.
#[tactic(auto, unfolding(crate::specs::Reader::names_at))]
fn names(alloc: Global, words: &[Lexeme]) -> Result<(List<Name>, &[Lexeme]), Failure<Syntax>>
    ensures { Sees (λ x. (x.0, x.1.now)) result (reader.names_at words.now) }
{
    let rest = past_sign(words, Sign::LeftParen)?;
    let (names, rest) = listed::<Lexeme, Name>(alloc, rest)?;
    let rest = past_sign(rest, Sign::RightParen)?;
    Ok((names, rest))
}

/// The number in brackets behind a type, or nothing.
#[tactic(auto, unfolding(crate::specs::Reader::size_at))]
fn size(words: &[Lexeme]) -> Result<(Option<i64>, &[Lexeme]), Failure<Syntax>>
    ensures { Sees (λ x. (x.0, x.1.now)) result (reader.size_at words.now) }
{
    if !begins_with_sign(words, Sign::LeftParen) {
        return Ok((None, words));
    }
    let rest = past_sign(words, Sign::LeftParen)?;
    let (number, rest) = number(rest)?;
    let rest = past_sign(rest, Sign::RightParen)?;
    Ok((Some(number), rest))
}

#[tactic(auto, unfolding(crate::specs::Reader::type_word_at))]
fn type_word(words: &[Lexeme]) -> Result<(TypeWord, &[Lexeme]), Failure<Syntax>>
    ensures { Sees (λ x. (x.0, x.1.now)) result (reader.type_word_at words.now) }
{
    match words {
        [first, rest @ ..] if is_keyword(first, "INT") => Ok((TypeWord::Int, rest)),
        [first, rest @ ..] if is_keyword(first, "INTEGER") => Ok((TypeWord::Integer, rest)),
        [first, rest @ ..] if is_keyword(first, "BIGINT") => Ok((TypeWord::BigInt, rest)),
        [first, rest @ ..] if is_keyword(first, "SMALLINT") => Ok((TypeWord::SmallInt, rest)),
        [first, rest @ ..] if is_keyword(first, "TEXT") => Ok((TypeWord::Text, rest)),
        [first, rest @ ..] if is_keyword(first, "VARCHAR") => Ok((TypeWord::VarChar, rest)),
        [first, rest @ ..] if is_keyword(first, "CHAR") => Ok((TypeWord::Char, rest)),
        _ => Err(Failure::Fault(Syntax)),
    }
}

#[tactic(auto, unfolding(crate::specs::Reader::type_at))]
fn type_text(words: &[Lexeme]) -> Result<(TypeText, &[Lexeme]), Failure<Syntax>>
    ensures { Sees (λ x. (x.0, x.1.now)) result (reader.type_at words.now) }
{
    let (word, rest) = type_word(words)?;
    let (size, rest) = size(rest)?;
    Ok((TypeText { word, size }, rest))
}

#[tactic(auto, unfolding(crate::specs::Reader::not_null_at))]
fn not_null(words: &[Lexeme]) -> Result<(ColumnRule, &[Lexeme]), Failure<Syntax>>
    ensures { Sees (λ x. (x.0, x.1.now)) result (reader.not_null_at words.now) }
{
    let rest = past_keyword(words, "NOT")?;
    let rest = past_keyword(rest, "NULL")?;
    Ok((ColumnRule::NotNull, rest))
}

#[tactic(auto, unfolding(crate::specs::Reader::primary_key_at))]
fn primary_key(words: &[Lexeme]) -> Result<(ColumnRule, &[Lexeme]), Failure<Syntax>>
    ensures { Sees (λ x. (x.0, x.1.now)) result (reader.primary_key_at words.now) }
{
    let rest = past_keyword(words, "PRIMARY")?;
    let rest = past_keyword(rest, "KEY")?;
    Ok((ColumnRule::PrimaryKey, rest))
}

#[tactic(auto, unfolding(crate::specs::Reader::references_at))]
fn references(alloc: Global, words: &[Lexeme]) -> Result<(ColumnRule, &[Lexeme]), Failure<Syntax>>
    ensures { Sees (λ x. (x.0, x.1.now)) result (reader.references_at words.now) }
{
    let rest = past_keyword(words, "REFERENCES")?;
    let (table, rest) = Name::read(alloc, rest)?;
    let (targets, rest) = names(alloc, rest)?;
    Ok((ColumnRule::References { table, targets }, rest))
}

/// A rule of a column.
#[tactic(auto, unfolding(crate::specs::Reader::rule_at))]
fn rule(alloc: Global, words: &[Lexeme]) -> Result<(ColumnRule, &[Lexeme]), Failure<Syntax>>
    ensures { Sees (λ x. (x.0, x.1.now)) result (reader.rule_at words.now) }
{
    if begins_with_keyword(words, "NOT") {
        return not_null(words);
    }
    if begins_with_keyword(words, "NULL") {
        let rest = past_keyword(words, "NULL")?;
        return Ok((ColumnRule::Null, rest));
    }
    if begins_with_keyword(words, "PRIMARY") {
        return primary_key(words);
    }
    if begins_with_keyword(words, "UNIQUE") {
        let rest = past_keyword(words, "UNIQUE")?;
        return Ok((ColumnRule::Unique, rest));
    }
    references(alloc, words)
}

fn is_rule_word(word: &Lexeme) -> bool
    ensures { result ≡ reader.is_rule_word word.now }
{
    is_keyword(word, "NOT")
        || is_keyword(word, "NULL")
        || is_keyword(word, "PRIMARY")
        || is_keyword(word, "UNIQUE")
        || is_keyword(word, "REFERENCES")
}

fn begins_rule(words: &[Lexeme]) -> bool
    ensures { result ≡ begins reader.is_rule_word words.now }
{
    match words {
        [] => false,
        [first, ..] => is_rule_word(first),
    }
}

/// As many rules of a column as there are, at most `most`.
fn rules(
    alloc: Global,
    words: &[Lexeme],
    most: usize,
) -> Result<(List<ColumnRule>, &[Lexeme]), Failure<Syntax>>
    ensures { Sees (λ x. (x.0, x.1.now)) result (reader.rules_at most words.now) }
{
    let mut found = List::new(alloc);
    let mut rest = words;
    for _ in 0..most {
        if !begins_rule(rest) {
            return Ok((found, rest));
        }
        let (next, behind) = rule(alloc, rest)?;
        found.push(next)?;
        rest = behind;
    }
    Ok((found, rest))
}

#[tactic(auto, unfolding(crate::specs::Reader::column_at))]
fn column(alloc: Global, words: &[Lexeme]) -> Result<(ColumnText, &[Lexeme]), Failure<Syntax>>
    ensures { Sees (λ x. (x.0, x.1.now)) result (reader.column_at words.now) }
{
    let (name, rest) = Name::read(alloc, words)?;
    let (type_text, rest) = type_text(rest)?;
    let (rules, rest) = rules(alloc, rest, words.len())?;
    let column = ColumnText {
        name,
        type_text,
        rules,
    };
    Ok((column, rest))
}

#[tactic(auto, unfolding(crate::specs::Reader::primary_at))]
fn primary(alloc: Global, words: &[Lexeme]) -> Result<(TableRule, &[Lexeme]), Failure<Syntax>>
    ensures { Sees (λ x. (x.0, x.1.now)) result (reader.primary_at words.now) }
{
    let rest = past_keyword(words, "PRIMARY")?;
    let rest = past_keyword(rest, "KEY")?;
    let (columns, rest) = names(alloc, rest)?;
    Ok((TableRule::PrimaryKey(columns), rest))
}

#[tactic(auto, unfolding(crate::specs::Reader::unique_at))]
fn unique(alloc: Global, words: &[Lexeme]) -> Result<(TableRule, &[Lexeme]), Failure<Syntax>>
    ensures { Sees (λ x. (x.0, x.1.now)) result (reader.unique_at words.now) }
{
    let rest = past_keyword(words, "UNIQUE")?;
    let (columns, rest) = names(alloc, rest)?;
    Ok((TableRule::Unique(columns), rest))
}

#[tactic(auto, unfolding(crate::specs::Reader::foreign_at))]
fn foreign(alloc: Global, words: &[Lexeme]) -> Result<(TableRule, &[Lexeme]), Failure<Syntax>>
    ensures { Sees (λ x. (x.0, x.1.now)) result (reader.foreign_at words.now) }
{
    let rest = past_keyword(words, "FOREIGN")?;
    let rest = past_keyword(rest, "KEY")?;
    let (columns, rest) = names(alloc, rest)?;
    let rest = past_keyword(rest, "REFERENCES")?;
    let (table, rest) = Name::read(alloc, rest)?;
    let (targets, rest) = names(alloc, rest)?;
    let rule = TableRule::ForeignKey {
        columns,
        table,
        targets,
    };
    Ok((rule, rest))
}

#[tactic(auto, unfolding(crate::specs::Reader::table_rule_at))]
fn table_rule(alloc: Global, words: &[Lexeme]) -> Result<(TableRule, &[Lexeme]), Failure<Syntax>>
    ensures { Sees (λ x. (x.0, x.1.now)) result (reader.table_rule_at words.now) }
{
    if begins_with_keyword(words, "PRIMARY") {
        return primary(alloc, words);
    }
    if begins_with_keyword(words, "UNIQUE") {
        return unique(alloc, words);
    }
    foreign(alloc, words)
}

/// CONSTRAINT and a name, or nothing.
#[tactic(auto, unfolding(crate::specs::Reader::label_at))]
fn label(alloc: Global, words: &[Lexeme]) -> Result<(Option<Name>, &[Lexeme]), Failure<Syntax>>
    ensures { Sees (λ x. (x.0, x.1.now)) result (reader.label_at words.now) }
{
    if !begins_with_keyword(words, "CONSTRAINT") {
        return Ok((None, words));
    }
    let rest = past_keyword(words, "CONSTRAINT")?;
    let (label, rest) = Name::read(alloc, rest)?;
    Ok((Some(label), rest))
}

#[tactic(auto, unfolding(crate::specs::Reader::constraint_at))]
fn constraint(alloc: Global, words: &[Lexeme]) -> Result<(Constraint, &[Lexeme]), Failure<Syntax>>
    ensures { Sees (λ x. (x.0, x.1.now)) result (reader.constraint_at words.now) }
{
    let (label, rest) = label(alloc, words)?;
    let (rule, rest) = table_rule(alloc, rest)?;
    Ok((Constraint { label, rule }, rest))
}

fn is_constraint_word(word: &Lexeme) -> bool
    ensures { result ≡ reader.is_constraint_word word.now }
{
    is_keyword(word, "CONSTRAINT")
        || is_keyword(word, "PRIMARY")
        || is_keyword(word, "UNIQUE")
        || is_keyword(word, "FOREIGN")
}

fn begins_constraint(words: &[Lexeme]) -> bool
    ensures { result ≡ begins reader.is_constraint_word words.now }
{
    match words {
        [] => false,
        [first, ..] => is_constraint_word(first),
    }
}

#[tactic(auto, unfolding(crate::specs::Reader::item_at))]
fn item(alloc: Global, words: &[Lexeme]) -> Result<(TableItem, &[Lexeme]), Failure<Syntax>>
    ensures { Sees (λ x. (x.0, x.1.now)) result (reader.item_at words.now) }
{
    if begins_constraint(words) {
        let (constraint, rest) = constraint(alloc, words)?;
        return Ok((TableItem::Constraint(constraint), rest));
    }
    let (column, rest) = column(alloc, words)?;
    Ok((TableItem::Column(column), rest))
}

impl Element<Lexeme> for TableItem {
    ghost use Rattle.ba_sql_ddl.specs.Reader.{item_at};

    ghost read_at = { item_at };

    fn read(alloc: Global, words: &[Lexeme]) -> Result<(TableItem, &[Lexeme]), Failure<Syntax>> {
        item(alloc, words)
    }
}

/// `CREATE TABLE name ( item {, item} ) ;`
#[tactic(auto, unfolding(crate::specs::Reader::table_at))]
pub fn table(alloc: Global, words: &[Lexeme]) -> Result<(TableText, &[Lexeme]), Failure<Syntax>>
    ensures { Sees (λ x. (x.0, x.1.now)) result (reader.table_at words.now) }
{
    let rest = past_keyword(words, "CREATE")?;
    let rest = past_keyword(rest, "TABLE")?;
    let (name, rest) = Name::read(alloc, rest)?;
    let rest = past_sign(rest, Sign::LeftParen)?;
    let (items, rest) = listed::<Lexeme, TableItem>(alloc, rest)?;
    let rest = past_sign(rest, Sign::RightParen)?;
    let rest = past_sign(rest, Sign::Semicolon)?;
    Ok((TableText { name, items }, rest))
}
