//! The one line of a run that a fault ended.
#![tactic(auto, unfolding(crate::specs::Printed::fault_json))]

ghost use Rattle.std.specs.Prelude.{◌≡◌, codes, IfOk, string_bytes};
ghost use Rattle.std.specs.Fmt.{decimal};
ghost use Rattle.ba_wire.specs.Names.{◌␣◌, fault_words, step_fault_text};
ghost use Rattle.ba_wire.specs.Object.{made};
ghost use Rattle.ba_wire.specs.Printed.{ReadsBack, line_name, reason_text, row_words, template_fault_text, what_name, fault_json, fault_bytes};

use crate::answer::row_text;
use crate::names::{fault_words, step_fault_text};
use crate::object::Object;
use ba_kernel::StepFault;
use ba_model::{Counted, Row, Str};
use ba_script::LineFault;
use ba_sql_query::ReadQueryFault;
use std::alloc::{AllocError, Global};

/// Why a line of a template file is none.
#[derive(Debug, Drop)]
pub enum TemplateFault {
    /// It isn't a JSON object.
    Json,
    /// The field of this name isn't there, or isn't what it has to be.
    Field { name: Str },
    /// The step of this number, from 0, is the first that isn't accepted.
    NotShown { step: u64, fault: StepFault },
    /// All steps are accepted, and so many branches are open.
    StillOpen { branches: u64 },
}

/// Why a file has no reading.
#[derive(Debug, Drop)]
pub enum Reason {
    /// The fault of a schema's or a policy's text, by its name.
    Text { fault: ReadQueryFault },
    /// Two tables have one name.
    DuplicateTable,
    /// Two columns of a table have one name, or a key repeats a column.
    DuplicateColumn,
    /// A link has more or fewer target columns than columns.
    WidthDiffers,
    /// A key or link has no column.
    EmptyKey,
    /// The fault of this inclusion rule's queries. Rules are numbered from 0.
    Rule { rule: u32, fault: ReadQueryFault },
    /// Two parameters have this name.
    DuplicateParam { name: Str },
    /// Two views have this name.
    DuplicateView { name: Str },
    /// The fault of this view's query.
    View { name: Str, fault: ReadQueryFault },
    /// Two cache keys have this name.
    DuplicateKey { name: Str },
    /// The fault of the first of this cache key's queries that is none.
    CacheKey { name: Str, fault: ReadQueryFault },
    /// The header isn't the column names in order.
    Header,
    /// A row has more or fewer fields than columns. Rows are numbered from 1.
    Width { row: u64 },
    /// A row isn't UTF-8.
    Utf8 { row: u64 },
    /// A field isn't a whole number of 64 bits. Columns are numbered from 0.
    Number { row: u64, column: u32 },
    /// Two rows are equal on a key of their table. Keys are numbered from 0.
    Key { key: u32, first: u64, second: u64 },
    /// A row has no target of a link of its table. Links are numbered from 0.
    Link { link: u32, row: u64 },
    /// The row of the rule's left query isn't one of its right query. Rules are numbered from 0.
    RuleRow { rule: u32, row: Row },
    /// A line of the script is none. Lines are numbered from 1.
    Line { line: u64, reason: LineFault },
    /// A proof's file isn't a JSON object.
    Json,
    /// The field of this name of a proof's file isn't there, or isn't what it has to be.
    Field { name: Str },
    /// A line of a template file is none. Lines are numbered from 1.
    Template { line: u64, reason: TemplateFault },
    /// The database that questions are sent to keeps no such name.
    Unnameable { name: Str },
    /// Two tables, or two columns of a table, have names that are one for that database.
    Alike { one: Str, other: Str },
}

/// What ended a run before its first line.
#[derive(Debug, Drop)]
pub enum Fault {
    /// The words are no command's form. Exit status 2.
    Words,
    /// The file has no reading. Exit status 3.
    Input { file: Str, reason: Reason },
    /// The file could not be read. Exit status 4.
    Read { file: Str },
    /// More than the limit. Exit status 7.
    Limit { what: Counted, limit: u64 },
}

// Why a line of a script is none.
fn line_name(reason: LineFault) -> &'static str
    ensures { result.now ≡ line_name reason }
{
    match reason {
        LineFault::Json => "json",
        LineFault::Shape => "shape",
        LineFault::Begun => "begun",
        LineFault::Unbegun => "unbegun",
        LineFault::Key => "key",
        LineFault::Args => "args",
        LineFault::Context => "context",
    }
}

// What is above its limit.
fn what_name(what: Counted) -> &'static str
    ensures { result.now ≡ what_name what }
{
    match what {
        Counted::TextBytes | Counted::FileBytes => "bytes",
        Counted::Tables => "tables",
        Counted::Columns => "columns",
        Counted::Keys => "keys",
        Counted::Links => "links",
        Counted::Rules => "rules",
        Counted::Views => "views",
        Counted::Params => "params",
        Counted::CacheKeys => "cache_keys",
        Counted::KeyQueries => "key_queries",
        Counted::Rows => "rows",
        Counted::Lines => "lines",
        Counted::Requests => "requests",
        Counted::Asks => "asks",
        Counted::Steps => "steps",
        Counted::Templates => "templates",
    }
}

impl Reason {
    #[tactic(auto, unfolding(crate::specs::Printed::reason_text))]
    fn text(&self, alloc: Global) -> Result<String, AllocError>
        ensures { IfOk result (λ text. string_bytes text ≡ reason_text self.now) }
    {
        match self {
            Reason::Text { fault } => fault_words(alloc, fault),
            Reason::DuplicateTable => String::from_str(alloc, "duplicate_table"),
            Reason::DuplicateColumn => String::from_str(alloc, "duplicate_column"),
            Reason::WidthDiffers => String::from_str(alloc, "width_differs"),
            Reason::EmptyKey => String::from_str(alloc, "empty_key"),
            Reason::Rule { rule, fault } => rule_text(alloc, *rule, fault),
            Reason::DuplicateParam { name } => format!(in alloc; "duplicate_param {name}"),
            Reason::DuplicateView { name } => format!(in alloc; "duplicate_view {name}"),
            Reason::View { name, fault } => view_text(alloc, name, fault),
            Reason::DuplicateKey { name } => format!(in alloc; "duplicate_key {name}"),
            Reason::CacheKey { name, fault } => cache_key_text(alloc, name, fault),
            Reason::Header => String::from_str(alloc, "header"),
            Reason::Width { row } => format!(in alloc; "width {row}"),
            Reason::Utf8 { row } => format!(in alloc; "utf8 {row}"),
            Reason::Number { row, column } => format!(in alloc; "number {row} {column}"),
            Reason::Key { key, first, second } => {
                format!(in alloc; "key {key} rows {first} {second}")
            }
            Reason::Link { link, row } => format!(in alloc; "link {link} row {row}"),
            Reason::RuleRow { rule, row } => rule_row_text(alloc, *rule, row),
            Reason::Line { line, reason } => line_text(alloc, *line, *reason),
            Reason::Json => String::from_str(alloc, "json"),
            Reason::Field { name } => format!(in alloc; "field {name}"),
            Reason::Template { line, reason } => template_line_text(alloc, *line, reason),
            Reason::Unnameable { name } => format!(in alloc; "unnameable {name}"),
            Reason::Alike { one, other } => format!(in alloc; "alike {one} {other}"),
        }
    }
}

impl TemplateFault {
    #[tactic(auto, unfolding(crate::specs::Printed::template_fault_text))]
    fn text(&self, alloc: Global) -> Result<String, AllocError>
        ensures { IfOk result (λ text. string_bytes text ≡ template_fault_text self.now) }
    {
        match self {
            TemplateFault::Json => String::from_str(alloc, "json"),
            TemplateFault::Field { name } => format!(in alloc; "field {name}"),
            TemplateFault::NotShown { step, fault } => not_shown_text(alloc, *step, *fault),
            TemplateFault::StillOpen { branches } => format!(in alloc; "open {branches}"),
        }
    }
}

fn rule_text(alloc: Global, rule: u32, fault: &ReadQueryFault) -> Result<String, AllocError>
    ensures { IfOk result (λ text. string_bytes text
        ≡ codes "rule" ␣ decimal rule ␣ fault_words fault.now) }
{
    let words = fault_words(alloc, fault)?;
    format!(in alloc; "rule {rule} {words}")
}

fn rule_row_text(alloc: Global, rule: u32, row: &Row) -> Result<String, AllocError>
    ensures { IfOk result (λ text. string_bytes text
        ≡ codes "rule" ␣ decimal rule ␣ codes "row" ␣ row_words row.now) }
{
    let words = row_text(alloc, row)?;
    format!(in alloc; "rule {rule} row {words}")
}

fn view_text(alloc: Global, name: &Str, fault: &ReadQueryFault) -> Result<String, AllocError>
    ensures { IfOk result (λ text. string_bytes text
        ≡ codes "view" ␣ name.now ␣ fault_words fault.now) }
{
    let words = fault_words(alloc, fault)?;
    format!(in alloc; "view {name} {words}")
}

fn cache_key_text(alloc: Global, name: &Str, fault: &ReadQueryFault) -> Result<String, AllocError>
    ensures { IfOk result (λ text. string_bytes text
        ≡ codes "cache_key" ␣ name.now ␣ fault_words fault.now) }
{
    let words = fault_words(alloc, fault)?;
    format!(in alloc; "cache_key {name} {words}")
}

fn line_text(alloc: Global, line: u64, reason: LineFault) -> Result<String, AllocError>
    ensures { IfOk result (λ text. string_bytes text
        ≡ codes "line" ␣ decimal line ␣ line_name reason) }
{
    let name = line_name(reason);
    format!(in alloc; "line {line} {name}")
}

fn not_shown_text(alloc: Global, step: u64, fault: StepFault) -> Result<String, AllocError>
    ensures { IfOk result (λ text. string_bytes text
        ≡ codes "fault" ␣ step_fault_text fault ␣ codes "step" ␣ decimal step) }
{
    let words = step_fault_text(alloc, fault)?;
    format!(in alloc; "fault {words} step {step}")
}

fn template_line_text(
    alloc: Global,
    line: u64,
    reason: &TemplateFault,
) -> Result<String, AllocError>
    ensures { IfOk result (λ text. string_bytes text
        ≡ codes "line" ␣ decimal line ␣ template_fault_text reason.now) }
{
    let words = reason.text(alloc)?;
    format!(in alloc; "line {line} {words}")
}

fn fault_object(alloc: Global, fault: &Fault) -> Result<Object, AllocError>
    ensures { IfOk result (λ it. made it ≡ fault_json fault.now) }
{
    match fault {
        Fault::Words => words_object(alloc),
        Fault::Input { file, reason } => input_object(alloc, file, reason),
        Fault::Read { file } => read_object(alloc, file),
        Fault::Limit { what, limit } => limit_object(alloc, *what, *limit),
    }
}

fn words_object(alloc: Global) -> Result<Object, AllocError>
    ensures { IfOk result (λ it. made it ≡ fault_json Fault.Words) }
{
    Object::new(alloc)
        .with_text("fault", "words")?
        .with_count("status", 2)?
        .with_text("usage", "blockaid run|check|gen|store|audit")
}

fn input_object(alloc: Global, file: &Str, reason: &Reason) -> Result<Object, AllocError>
    ensures { IfOk result (λ it. made it ≡ fault_json (Fault.Input file.now reason.now)) }
{
    let text = reason.text(alloc)?;
    Object::new(alloc)
        .with_text("fault", "input")?
        .with_text("file", file.as_str())?
        .with_text("reason", text.as_str())?
        .with_count("status", 3)
}

fn read_object(alloc: Global, file: &Str) -> Result<Object, AllocError>
    ensures { IfOk result (λ it. made it ≡ fault_json (Fault.Read file.now)) }
{
    Object::new(alloc)
        .with_text("fault", "read")?
        .with_text("file", file.as_str())?
        .with_count("status", 4)
}

fn limit_object(alloc: Global, what: Counted, limit: u64) -> Result<Object, AllocError>
    ensures { IfOk result (λ it. made it ≡ fault_json (Fault.Limit what limit)) }
{
    Object::new(alloc)
        .with_text("fault", "limit")?
        .with_count("limit", limit)?
        .with_count("status", 7)?
        .with_text("what", what_name(what))
}

/// The text of the fault with its line feed.
pub fn fault_text(alloc: Global, fault: &Fault) -> Result<String, AllocError>
    ensures text { IfOk result (λ s. string_bytes s ≡ fault_bytes fault.now) }
    ensures reads_back { IfOk result (λ s. ReadsBack (string_bytes s) (fault_json fault.now)) }
{
    fault_object(alloc, fault)?.line()
}
