//! Faults, as the program prints them.

use super::cases::{Reading, Told, all_are_so};
use ba_lex::LexFault;
use ba_model::{Counted, SchemaFault, Str};
use ba_policy::PolicyFault;
use ba_script::ScriptFault;
use ba_sql_ddl::DdlFault;
use ba_sql_query::ReadQueryFault;
use ba_tables::{TableFault, TablesFault};
use ba_wire::{Fault, Reason, fault_text};
use std::alloc::Global;
use std::test::Fail;

/// The reason in the fault line of a file F, or the whole of another line.
fn reason_in(line: &str) -> &str {
    let Some((_, words)) = line.split_once(r#"{"fault":"input","file":"F","reason":""#) else {
        return line;
    };
    match words.split_once("\",\"status\":3}\n") {
        Some((reason, "")) => reason,
        _ => line,
    }
}

fn write_line(alloc: Global, fault: &Fault, told: &mut String) -> Told {
    let line = fault_text(alloc, fault)?;
    told.push_str(reason_in(line.as_str()))
}

/// Writes the reason as the fault line of a file has it.
pub(super) fn write_reason(alloc: Global, reason: Reason, told: &mut String) -> Told {
    let file = Str::new(alloc, "F")?;
    write_line(alloc, &Fault::Input { file, reason }, told)
}

/// Writes the whole fault line.
fn write_limit(alloc: Global, what: Counted, limit: u64, told: &mut String) -> Told {
    write_line(alloc, &Fault::Limit { what, limit }, told)
}

pub(super) fn write_text_fault(alloc: Global, fault: ReadQueryFault, told: &mut String) -> Told {
    write_reason(alloc, Reason::Text { fault }, told)
}

pub(super) fn write_lex_fault(alloc: Global, fault: LexFault, told: &mut String) -> Told {
    write_text_fault(alloc, ReadQueryFault::Lex(fault), told)
}

/// The fault of a file without tokens.
fn write_file_fault(alloc: Global, fault: LexFault, told: &mut String) -> Told {
    match fault {
        LexFault::TooLong => write_limit(alloc, Counted::TextBytes, 1_048_576, told),
        _ => write_lex_fault(alloc, fault, told),
    }
}

fn schema_reason(fault: SchemaFault) -> Reason {
    match fault {
        SchemaFault::DuplicateTable => Reason::DuplicateTable,
        SchemaFault::DuplicateColumn => Reason::DuplicateColumn,
        SchemaFault::UnknownTable => Reason::Text {
            fault: ReadQueryFault::UnknownTable,
        },
        SchemaFault::UnknownColumn => Reason::Text {
            fault: ReadQueryFault::UnknownColumn,
        },
        SchemaFault::KindDiffers => Reason::Text {
            fault: ReadQueryFault::KindDiffers,
        },
        SchemaFault::WidthDiffers => Reason::WidthDiffers,
        SchemaFault::EmptyKey | SchemaFault::TooMany { .. } | SchemaFault::Rule { .. } => {
            Reason::EmptyKey
        }
    }
}

fn write_schema_fault(alloc: Global, fault: SchemaFault, told: &mut String) -> Told {
    match fault {
        SchemaFault::TooMany { what, limit } => write_limit(alloc, what, limit, told),
        _ => write_reason(alloc, schema_reason(fault), told),
    }
}

pub(super) fn write_ddl_fault(alloc: Global, fault: DdlFault, told: &mut String) -> Told {
    match fault {
        DdlFault::Lex(fault) => write_file_fault(alloc, fault, told),
        DdlFault::Unsupported(word) => {
            write_text_fault(alloc, ReadQueryFault::Unsupported(word), told)
        }
        DdlFault::Syntax => write_text_fault(alloc, ReadQueryFault::Syntax, told),
        DdlFault::Schema(fault) => write_schema_fault(alloc, fault, told),
        DdlFault::TooMany { what, limit } => write_limit(alloc, what, limit, told),
        DdlFault::Rule(rule, fault) => write_reason(alloc, Reason::Rule { rule, fault }, told),
    }
}

pub(super) fn write_policy_fault(alloc: Global, fault: PolicyFault, told: &mut String) -> Told {
    match fault {
        PolicyFault::Lex(fault) => write_file_fault(alloc, fault, told),
        PolicyFault::Syntax => write_text_fault(alloc, ReadQueryFault::Syntax, told),
        PolicyFault::DuplicateParam(name) => {
            write_reason(alloc, Reason::DuplicateParam { name }, told)
        }
        PolicyFault::DuplicateView(name) => {
            write_reason(alloc, Reason::DuplicateView { name }, told)
        }
        PolicyFault::View(name, fault) => write_reason(alloc, Reason::View { name, fault }, told),
        PolicyFault::DuplicateKey(name) => write_reason(alloc, Reason::DuplicateKey { name }, told),
        PolicyFault::Key(name, fault) => {
            write_reason(alloc, Reason::CacheKey { name, fault }, told)
        }
        PolicyFault::TooMany { what, limit } => write_limit(alloc, what, limit, told),
    }
}

pub(super) fn write_table_fault(alloc: Global, fault: TableFault, told: &mut String) -> Told {
    match fault {
        TableFault::BadHeader => write_reason(alloc, Reason::Header, told),
        TableFault::BadWidth(row) => write_reason(alloc, Reason::Width { row }, told),
        TableFault::BadUtf8(row) => write_reason(alloc, Reason::Utf8 { row }, told),
        TableFault::BadNumber(row, column) => {
            write_reason(alloc, Reason::Number { row, column }, told)
        }
        TableFault::TooMany(limit) => write_limit(alloc, Counted::Rows, limit, told),
    }
}

/// The reason alone, without the table's number.
pub(super) fn write_broken(alloc: Global, fault: TablesFault, told: &mut String) -> Told {
    match fault {
        TablesFault::KeyBroken {
            key,
            first,
            second,
            ..
        } => write_reason(alloc, Reason::Key { key, first, second }, told),
        TablesFault::LinkBroken { link, row, .. } => {
            write_reason(alloc, Reason::Link { link, row }, told)
        }
        TablesFault::RuleBroken { rule, row } => {
            write_reason(alloc, Reason::RuleRow { rule, row }, told)
        }
    }
}

pub(super) fn write_script_fault(alloc: Global, fault: ScriptFault, told: &mut String) -> Told {
    match fault {
        ScriptFault::BadLine { line, reason } => {
            write_reason(alloc, Reason::Line { line, reason }, told)
        }
        ScriptFault::TooMany { what, limit } => write_limit(alloc, what, limit, told),
    }
}

/// The lines that no case of another file has.
struct Lines;

impl Reading for Lines {
    fn tell(&self, alloc: Global, text: &str, told: &mut String) -> Told {
        if text == "words" {
            return write_line(alloc, &Fault::Words, told);
        }
        let file = Str::new(alloc, text)?;
        write_line(alloc, &Fault::Read { file }, told)
    }
}

const LINES: &str =
    r#"words => {"fault":"words","status":2,"usage":"blockaid run|check|gen|store|audit"}~
t0/Users.csv => {"fault":"read","file":"t0/Users.csv","status":4}~"#;

#[test]
fn other_fault_lines(rt: HostRuntime) -> Result<(), Fail> {
    all_are_so(&rt, &Lines, LINES, "")
}
