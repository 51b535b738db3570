//! What a printed line comes to.
ghost use Rattle.std.specs.Prelude.{◌≡◌, ◌∷◌, ◌||◌, [], ℕ, IfOk, IsTrue, Ok, Some, length};
ghost use Rattle.std.specs.Option.{option_copied, option_to_list};
ghost use Rattle.ba_comply.specs.Comply.{Strong};
ghost use Rattle.ba_kernel.specs.Asked.{QuestionFits};
ghost use Rattle.ba_model.specs.Meaning.{IsAnswer};
ghost use Rattle.ba_script.specs.Scripts.{ReadFits};
ghost use Rattle.ba_audit.specs.Audits.{IsChecked, ShowsEntry, ShowsQueries, ShowsQuery, ShowsReader, ShowsText};
ghost use Rattle.ba_audit.specs.Keeping.{AddsFitting, AskerFits, BegunFits, IsReadOf, TellsHeard, basis_at, known_in, told_at};
ghost use Rattle.ba_audit.specs.Lines.{is_memory, queries_read, reading_of, recorded, rows_in, told_by};
ghost use Rattle.ba_audit.specs.Tests.{MeetsAnswer, MeetsAsked, MeetsBehind, MeetsQueries, MeetsQuery, MeetsReader, MeetsSaid, has_form, is_within, may_follow, may_go_on, request_in};
ghost use Rattle.ba_audit.specs.declared.request.Begun.TheVariants.{Asking};

use crate::against::Against;
use crate::answers::{first_of_answer, first_of_block};
use crate::fault::{says_fault, says_none};
use crate::kinds::{is_kind, is_version};
use crate::laws::evidence_is_strong;
use crate::printed::is_memory;
use crate::reads::first_of_queries;
use crate::request::{Asker, Begun};
use crate::told::Told;
use ba_comply::TraceEntry;
use ba_eval::answer_indexed;
use ba_kernel::laws::answers_are_records;
use ba_keys::key_queries;
use ba_model::{Context, Failure, List, Policy, Query, Row, Shared, Str};
use ba_printed::{Evidence, PrintedLine};
use ba_script::ScriptEntry;
use ba_sql_query::read_query;
use ba_wire::AuditReason as Reason;
use std::alloc::{AllocError, Global};

/// What a printed line comes to.
#[derive(Drop)]
pub enum Heard {
    /// The first test that it doesn't meet.
    Unmet(Reason),
    /// It meets them all, and adds this to the trace of its request.
    Met(Option<TraceEntry>),
}

/// What an answer of the query comes to.
fn hear_answer(
    alloc: Global,
    policy: &Shared<Policy>,
    asker: &Asker,
    query: Shared<Query>,
    evidence: &Evidence,
    rows: &List<Row>,
) -> Result<Heard, AllocError>
    requires fits { QuestionFits policy.now asker.now.context asker.now.trace query }
    requires asker { AskerFits policy.now asker.now }
    ensures heard { IfOk result (TellsHeard
        (MeetsAnswer policy.now asker.now query evidence.now rows.now)
        (record { query = query; rows = rows.now } ∷ [])
        (IsAnswer query asker.now.context asker.now.tables.rows rows.now
        × Strong policy.now asker.now.context asker.now.trace query)) }
    ensures fitting { IfOk result (AddsFitting policy.now) }
{
    answers_are_records();
    evidence_is_strong();
    let answer = answer_indexed(alloc, asker.tables.indexed(), &asker.context, &query)?;
    let unmet = first_of_answer(alloc, policy, asker, &query, evidence, rows, &answer)?;
    match unmet {
        Some(reason) => Ok(Heard::Unmet(reason)),
        None => {
            let rows = Shared::new(alloc, answer)?;
            Ok(Heard::Met(Some(TraceEntry { query, rows })))
        }
    }
}

/// What the line comes to, of a question of the query.
#[tactic(auto, unfolding(crate::specs::Tests::MeetsQuery, crate::specs::Lines::rows_in, crate::specs::Audits::ShowsQuery))]
fn hear_query(
    alloc: Global,
    policy: &Shared<Policy>,
    asker: &Asker,
    query: Shared<Query>,
    line: &PrintedLine,
) -> Result<Heard, AllocError>
    requires fits { QuestionFits policy.now asker.now.context asker.now.trace query }
    requires asker { AskerFits policy.now asker.now }
    ensures heard { IfOk result (TellsHeard (MeetsQuery policy.now asker.now query line.now)
        (recorded (Ok query) (rows_in line.now))
        (ShowsQuery policy.now asker.now query line.now)) }
    ensures fitting { IfOk result (AddsFitting policy.now) }
{
    match line {
        PrintedLine::Answer { evidence, rows, .. } => {
            hear_answer(alloc, policy, asker, query, evidence, rows)
        }
        PrintedLine::Block { blocked, .. } => {
            let unmet = first_of_block(alloc, policy, asker, &query, blocked)?;
            match unmet {
                Some(reason) => Ok(Heard::Unmet(reason)),
                None => Ok(Heard::Met(None)),
            }
        }
        PrintedLine::Begin { .. }
        | PrintedLine::End { .. }
        | PrintedLine::Publish { .. }
        | PrintedLine::Read { .. }
        | PrintedLine::ReadBlock { .. }
        | PrintedLine::UnevenRead
        | PrintedLine::Unread { .. }
        | PrintedLine::Memory { .. }
        | PrintedLine::Summary(_) => Ok(Heard::Met(None)),
    }
}

/// What the line comes to, of a question with this text.
fn hear_text(
    alloc: Global,
    policy: &Shared<Policy>,
    asker: &Asker,
    text: &Str,
    line: &PrintedLine,
) -> Result<Heard, AllocError>
    requires checked { IsChecked policy.now }
    requires asker { AskerFits policy.now asker.now }
    ensures heard { IfOk result (TellsHeard
        (MeetsAsked policy.now (Some (Asking asker.now)) (reading_of policy.now text.now) line.now)
        (told_by policy.now text.now (Ok line.now))
        (ShowsText policy.now (Some (Asking asker.now)) (reading_of policy.now text.now) line.now)) }
    ensures fitting { IfOk result (AddsFitting policy.now) }
{
    if is_memory(line) {
        return Ok(Heard::Met(None));
    }
    match read_query(alloc, &policy.schema, &policy.params, text.as_str()) {
        Ok(query) => {
            if !says_none(line) {
                return Ok(Heard::Unmet(Reason::Unread));
            }
            let query = Shared::new(alloc, query)?;
            hear_query(alloc, policy, asker, query, line)
        }
        Err(Failure::Fault(fault)) => {
            if !says_fault(line, &fault) {
                return Ok(Heard::Unmet(Reason::Unread));
            }
            Ok(Heard::Met(None))
        }
        Err(Failure::NoMemory) => Err(AllocError),
    }
}

/// What the line comes to, of a question with this text of a request of which so much is known.
fn hear_asked(
    alloc: Global,
    policy: &Shared<Policy>,
    held: Option<&Begun>,
    text: &Str,
    line: &PrintedLine,
) -> Result<Heard, AllocError>
    requires checked { IsChecked policy.now }
    requires fits { BegunFits policy.now (option_copied held) }
    requires goes { IsTrue (may_go_on (option_copied held) line.now) }
    ensures heard { IfOk result (TellsHeard
        (MeetsAsked policy.now (option_copied held.entry) (reading_of policy.now text.now) line.now)
        (told_by policy.now text.now (Ok line.now))
        (ShowsText policy.now (option_copied held.entry) (reading_of policy.now text.now) line.now)) }
    ensures fitting { IfOk result (AddsFitting policy.now) }
{
    match held {
        Some(begun) => match begun {
            Begun::Asking(asker) => hear_text(alloc, policy, asker, text, line),
            Begun::Silent => Ok(Heard::Met(None)),
        },
        None => Ok(Heard::Met(None)),
    }
}

/// What the line comes to, of a read of the key with this number.
fn hear_key(
    alloc: Global,
    policy: &Shared<Policy>,
    asker: &Asker,
    key: usize,
    arguments: &Context,
    line: &PrintedLine,
) -> Result<Heard, AllocError>
    requires checked { IsChecked policy.now }
    requires asker { AskerFits policy.now asker.now }
    requires read { IsReadOf policy.now key arguments.now }
    requires within { IsTrue
        (is_within (length (queries_read policy.now key arguments.now)) line.now) }
    ensures heard { IfOk result (TellsHeard
        (MeetsQueries policy.now asker.now (queries_read policy.now key arguments.now) line.now) []
        (ShowsQueries policy.now asker.now (queries_read policy.now key arguments.now) line.now)) }
    ensures fitting { IfOk result (AddsFitting policy.now) }
{
    evidence_is_strong();
    let key = policy.keys.get(key);
    let queries = key_queries(alloc, policy, key, arguments)?;
    let unmet = first_of_queries(alloc, policy, asker, &queries, line)?;
    match unmet {
        Some(reason) => Ok(Heard::Unmet(reason)),
        None => Ok(Heard::Met(None)),
    }
}

/// What the line comes to, of a read of the key with this number by a request of which so much is
/// known.
fn hear_read(
    alloc: Global,
    policy: &Shared<Policy>,
    held: Option<&Begun>,
    key: usize,
    arguments: &Context,
    line: &PrintedLine,
) -> Result<Heard, AllocError>
    requires checked { IsChecked policy.now }
    requires fits { BegunFits policy.now (option_copied held) }
    requires goes { IsTrue (may_go_on (option_copied held) line.now) }
    requires read { IsReadOf policy.now key arguments.now }
    requires within { IsTrue
        (is_within (length (queries_read policy.now key arguments.now)) line.now) }
    ensures heard { IfOk result (TellsHeard
        (MeetsReader policy.now (option_copied held.entry)
        (queries_read policy.now key arguments.now) line.now) []
        (ShowsReader policy.now (option_copied held.entry)
        (queries_read policy.now key arguments.now) line.now)) }
    ensures fitting { IfOk result (AddsFitting policy.now) }
{
    match held {
        Some(begun) => match begun {
            Begun::Asking(asker) => hear_key(alloc, policy, asker, key, arguments, line),
            Begun::Silent => Ok(Heard::Met(None)),
        },
        None => Ok(Heard::Met(None)),
    }
}

/// What the line of an entry comes to behind its kind and version.
#[tactic(auto, unfolding(crate::specs::Tests::MeetsBehind, crate::specs::Audits::ShowsEntry, crate::specs::Tests::may_follow, crate::specs::Keeping::told_at))]
fn hear_behind(
    alloc: Global,
    policy: &Shared<Policy>,
    held: Option<&Begun>,
    entry: &ScriptEntry,
    line: &PrintedLine,
) -> Result<Heard, AllocError>
    requires checked { IsChecked policy.now }
    requires fits { BegunFits policy.now (option_copied held) }
    requires goes { IsTrue (may_follow entry.now (option_copied held) line.now) }
    requires reads { ReadFits policy.now.keys entry.now }
    requires form { IsTrue (is_memory line.now || has_form policy.now entry.now line.now) }
    ensures heard { IfOk result (TellsHeard
        (MeetsBehind policy.now (option_copied held.entry) entry.now line.now)
        (told_at policy.now entry.now (Ok line.now))
        (ShowsEntry policy.now (option_copied held.entry) entry.now line.now)) }
    ensures fitting { IfOk result (AddsFitting policy.now) }
{
    match entry {
        ScriptEntry::Begin { .. } => Ok(Heard::Met(None)),
        ScriptEntry::Ask { query, .. } => hear_asked(alloc, policy, held, query, line),
        ScriptEntry::Read { key, arguments, .. } => {
            hear_read(alloc, policy, held, *key, arguments, line)
        }
        ScriptEntry::End { .. } => Ok(Heard::Met(None)),
        ScriptEntry::Publish { .. } => Ok(Heard::Met(None)),
    }
}

/// What the line comes to that is printed at the place of an entry, where it has the number.
pub(crate) fn hear(
    alloc: Global,
    against: &Against<'_>,
    told: &Told,
    number: u64,
    entry: &ScriptEntry,
    line: &PrintedLine,
) -> Result<Heard, AllocError>
    requires checked { IsChecked against.now.policy.now }
    requires fits { (k : ℕ) → BegunFits against.now.policy.now (known_in told.now (Some k)) }
    requires reads { ReadFits against.now.policy.now.keys entry.now }
    ensures heard { IfOk result (TellsHeard
        (MeetsSaid (basis_at against.now) number told.now.used.items
        (known_in told.now (request_in entry.now)) entry.now line.now)
        (told_at against.now.policy.now entry.now (Ok line.now))
        (ShowsEntry against.now.policy.now (known_in told.now (request_in entry.now)) entry.now
        line.now)) }
    ensures fitting { IfOk result (AddsFitting against.now.policy.now) }
{
    let held = told.known(entry);
    if !is_kind(against.policy, entry, number, held, line) {
        return Ok(Heard::Unmet(Reason::Kind));
    }
    if !is_version(against, told.used.as_slice(), held, entry, line) {
        return Ok(Heard::Unmet(Reason::Version));
    }
    hear_behind(alloc, against.policy, held, entry, line)
}
