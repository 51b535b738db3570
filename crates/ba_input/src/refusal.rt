//! How faults of words and files are told.
ghost use Rattle.std.specs.Prelude.{◌≡◌, Err, IfOk, string_bytes};
ghost use Rattle.ba_plan.specs.Follows.{Gives};
ghost use Rattle.ba_input.specs.Path.{path_of};
ghost use Rattle.ba_input.specs.Stops.{fault_of};
ghost use Rattle.ba_input.specs.Refusals.{broken_refusal, ddl_refusal, file_of_table, lex_fault, names_refusal, policy_refusal, proof_refusal, read_fault, schema_fault, script_refusal, table_refusal, template_fault, template_refusal, text_fault};

use ba_lex::LexFault;
use ba_model::{Counted, MAX_STEPS, MAX_TEXT_BYTES, QueryFault, Schema, SchemaFault, Str};
use ba_plan::Stop;
use ba_policy::PolicyFault;
use ba_proof::ProofFault;
use ba_script::ScriptFault;
use ba_sql_ddl::DdlFault;
use ba_sql_query::ReadQueryFault;
use ba_store::StoreFault;
use ba_tables::{TableFault, TablesFault};
use ba_target::Misnamed;
use ba_wire::{Fault, Reason, TemplateFault};
use std::alloc::{AllocError, Global};

/// The fault that is told of a reading that stopped, in the run's one line: why the words or what was
/// read are refused, the file that could not be read, or that one has too many bytes. Nothing is told
/// of want of memory.
pub fn fault_of(stop: Stop<Fault>) -> Option<Fault>
    ensures { result ≡ fault_of stop }
{
    match stop {
        Stop::Refused(fault) => Some(fault),
        Stop::Read(file) => Some(Fault::Read { file }),
        Stop::TooLong(_, limit) => Some(Fault::Limit {
            what: Counted::FileBytes,
            limit,
        }),
        Stop::NoMemory => None,
    }
}

fn text_fault(file: Str, fault: ReadQueryFault) -> Fault
    ensures { result ≡ text_fault file fault }
{
    Fault::Input {
        file,
        reason: Reason::Text { fault },
    }
}

fn lex_fault(file: Str, fault: LexFault) -> Fault
    ensures { result ≡ lex_fault file fault }
{
    match fault {
        LexFault::TooLong => Fault::Limit {
            what: Counted::TextBytes,
            limit: MAX_TEXT_BYTES as u64,
        },
        _ => text_fault(file, ReadQueryFault::Lex(fault)),
    }
}

fn read_fault(fault: QueryFault) -> ReadQueryFault
    ensures { result ≡ read_fault fault }
{
    match fault {
        QueryFault::BadTable => ReadQueryFault::UnknownTable,
        QueryFault::BadColumn => ReadQueryFault::UnknownColumn,
        QueryFault::KindDiffers => ReadQueryFault::KindDiffers,
        QueryFault::OrderOnText => ReadQueryFault::OrderOnText,
        QueryFault::HeadDiffers => ReadQueryFault::HeadDiffers,
        QueryFault::UnknownParam => ReadQueryFault::UnknownParam,
        QueryFault::TooMany => ReadQueryFault::TooMany,
    }
}

fn schema_fault(file: Str, fault: SchemaFault) -> Fault
    ensures { result ≡ schema_fault file fault }
{
    let reason = match fault {
        SchemaFault::DuplicateTable => Reason::DuplicateTable,
        SchemaFault::DuplicateColumn => Reason::DuplicateColumn,
        SchemaFault::WidthDiffers => Reason::WidthDiffers,
        SchemaFault::EmptyKey => Reason::EmptyKey,
        SchemaFault::UnknownTable => return text_fault(file, ReadQueryFault::UnknownTable),
        SchemaFault::UnknownColumn => return text_fault(file, ReadQueryFault::UnknownColumn),
        SchemaFault::KindDiffers => return text_fault(file, ReadQueryFault::KindDiffers),
        SchemaFault::TooMany { what, limit } => return Fault::Limit { what, limit },
        SchemaFault::Rule { rule, fault } => Reason::Rule {
            rule,
            fault: read_fault(fault),
        },
    };
    Fault::Input { file, reason }
}

/// A schema's fault.
#[tactic(auto, unfolding(crate::specs::Refusals::ddl_refusal))]
pub(crate) fn ddl_refusal(file: Str, fault: DdlFault) -> Fault
    ensures { result ≡ ddl_refusal file fault }
{
    match fault {
        DdlFault::Lex(fault) => lex_fault(file, fault),
        DdlFault::Unsupported(word) => text_fault(file, ReadQueryFault::Unsupported(word)),
        DdlFault::Syntax => text_fault(file, ReadQueryFault::Syntax),
        DdlFault::Schema(fault) => schema_fault(file, fault),
        DdlFault::TooMany { what, limit } => Fault::Limit { what, limit },
        DdlFault::Rule(rule, fault) => Fault::Input {
            file,
            reason: Reason::Rule { rule, fault },
        },
    }
}

/// A policy's fault.
#[tactic(auto, unfolding(crate::specs::Refusals::policy_refusal))]
pub(crate) fn policy_refusal(file: Str, fault: PolicyFault) -> Fault
    ensures { result ≡ policy_refusal file fault }
{
    let reason = match fault {
        PolicyFault::Lex(fault) => return lex_fault(file, fault),
        PolicyFault::Syntax => return text_fault(file, ReadQueryFault::Syntax),
        PolicyFault::DuplicateParam(name) => Reason::DuplicateParam { name },
        PolicyFault::DuplicateView(name) => Reason::DuplicateView { name },
        PolicyFault::View(name, fault) => Reason::View { name, fault },
        PolicyFault::DuplicateKey(name) => Reason::DuplicateKey { name },
        PolicyFault::Key(name, fault) => Reason::CacheKey { name, fault },
        PolicyFault::TooMany { what, limit } => return Fault::Limit { what, limit },
    };
    Fault::Input { file, reason }
}

/// The fault of a table's file.
#[tactic(auto, unfolding(crate::specs::Refusals::table_refusal))]
pub(crate) fn table_refusal(file: Str, fault: TableFault) -> Fault
    ensures { result ≡ table_refusal file fault }
{
    let reason = match fault {
        TableFault::BadHeader => Reason::Header,
        TableFault::BadWidth(row) => Reason::Width { row },
        TableFault::BadUtf8(row) => Reason::Utf8 { row },
        TableFault::BadNumber(row, column) => Reason::Number { row, column },
        TableFault::TooMany(limit) => {
            let what = Counted::Rows;
            return Fault::Limit { what, limit };
        }
    };
    Fault::Input { file, reason }
}

/// The name of the file of a table in a set.
pub(crate) fn path(alloc: Global, set: &str, table: &str) -> Result<String, AllocError>
    ensures { IfOk result (λ name. string_bytes name ≡ path_of set.now table.now) }
{
    format!(in alloc; "{set}/{table}.csv")
}

fn file_of_table(alloc: Global, set: &str, schema: &Schema, number: u32) -> Result<Str, AllocError>
    ensures { IfOk result (λ file. file ≡ file_of_table set.now schema.now number) }
{
    let name = match schema.tables.find(number as usize) {
        Some(table) => table.name.as_str(),
        None => "",
    };
    Ok(Str::from_string(path(alloc, set, name)?))
}

/// A broken key or link is told of its table's file, a broken rule of the set.
#[tactic(auto, unfolding(crate::specs::Refusals::broken_refusal))]
pub(crate) fn broken_refusal(
    alloc: Global,
    set: &str,
    schema: &Schema,
    fault: TablesFault,
) -> Result<Fault, AllocError>
    ensures { IfOk result (λ refusal. refusal ≡ broken_refusal set.now schema.now fault) }
{
    match fault {
        TablesFault::KeyBroken {
            table,
            key,
            first,
            second,
        } => Ok(Fault::Input {
            file: file_of_table(alloc, set, schema, table)?,
            reason: Reason::Key { key, first, second },
        }),
        TablesFault::LinkBroken { table, link, row } => Ok(Fault::Input {
            file: file_of_table(alloc, set, schema, table)?,
            reason: Reason::Link { link, row },
        }),
        TablesFault::RuleBroken { rule, row } => Ok(Fault::Input {
            file: Str::new(alloc, set)?,
            reason: Reason::RuleRow { rule, row },
        }),
    }
}

/// A script's fault.
#[tactic(auto, unfolding(crate::specs::Refusals::script_refusal))]
pub(crate) fn script_refusal(file: Str, fault: ScriptFault) -> Fault
    ensures { result ≡ script_refusal file fault }
{
    match fault {
        ScriptFault::BadLine { line, reason } => Fault::Input {
            file,
            reason: Reason::Line { line, reason },
        },
        ScriptFault::TooMany { what, limit } => Fault::Limit { what, limit },
    }
}

/// The fault of a schema's names, which stands in this file.
pub(crate) fn names_refusal(file: Str, fault: Misnamed) -> Fault
    ensures { result ≡ names_refusal file fault }
{
    match fault {
        Misnamed::Unnameable(name) => Fault::Input {
            file,
            reason: Reason::Unnameable { name },
        },
        Misnamed::Alike(one, other) => Fault::Input {
            file,
            reason: Reason::Alike { one, other },
        },
    }
}

/// A proof's fault.
#[tactic(auto, unfolding(crate::specs::Refusals::proof_refusal))]
pub(crate) fn proof_refusal(
    alloc: Global,
    file: Str,
    fault: ProofFault,
) -> Result<Fault, AllocError>
    ensures { IfOk result (λ refusal. refusal ≡ proof_refusal file fault) }
{
    match fault {
        ProofFault::BadJson => Ok(Fault::Input {
            file,
            reason: Reason::Json,
        }),
        ProofFault::TooLong => Ok(Fault::Limit {
            what: Counted::Steps,
            limit: MAX_STEPS,
        }),
        ProofFault::BadField(field) => {
            let name = Str::new(alloc, field.name())?;
            Ok(Fault::Input {
                file,
                reason: Reason::Field { name },
            })
        }
    }
}

// A line of a template file that is none, which is told of its number.
fn template_fault(file: Str, line: u64, reason: TemplateFault) -> Fault
    ensures { result ≡ template_fault file line reason }
{
    Fault::Input {
        file,
        reason: Reason::Template { line, reason },
    }
}

/// A template file's fault.
#[tactic(auto, unfolding(crate::specs::Refusals::template_refusal))]
pub(crate) fn template_refusal(
    alloc: Global,
    file: Str,
    fault: StoreFault,
) -> Result<Fault, AllocError>
    ensures { IfOk result (λ refusal. refusal ≡ template_refusal file fault) }
{
    match fault {
        StoreFault::TooMany { limit } => Ok(Fault::Limit {
            what: Counted::Templates,
            limit,
        }),
        StoreFault::Json(line) => Ok(template_fault(file, line, TemplateFault::Json)),
        StoreFault::Field(line, field) => {
            let name = Str::new(alloc, field.name())?;
            Ok(template_fault(file, line, TemplateFault::Field { name }))
        }
        StoreFault::NotShown(line, step, fault) => Ok(template_fault(
            file,
            line,
            TemplateFault::NotShown { step, fault },
        )),
        StoreFault::StillOpen(line, branches) => Ok(template_fault(
            file,
            line,
            TemplateFault::StillOpen { branches },
        )),
    }
}
