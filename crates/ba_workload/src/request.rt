//! The entries of a request.
ghost use Rattle.std.specs.Prelude.{◌≡◌, ◌++◌, ◌∷◌, [], IfOk, OnOk};
ghost use Rattle.ba_script.specs.declared.entry.ScriptEntry.TheVariants.{Ask, Begin, End};
ghost use Rattle.ba_workload.specs.Script.{attendance_query, context_of, name_of, request_entries, title_query};

use crate::choice::{Choice, other_event};
use ba_model::{Context, List, Str, Value};
use ba_script::ScriptEntry;
use std::alloc::{AllocError, Global};

#[tactic(auto, unfolding(crate::specs::Script::name_of))]
fn name_of(alloc: Global, number: u32) -> Result<Str, AllocError>
    ensures { IfOk result (λ name. name ≡ name_of number) }
{
    let text = format!(in alloc; "q{number}")?;
    Ok(Str::from_string(text))
}

#[tactic(auto, unfolding(crate::specs::Script::attendance_query))]
fn attendance_query(alloc: Global, user: u32, event: u32) -> Result<Str, AllocError>
    ensures { IfOk result (λ query. query ≡ attendance_query user event) }
{
    let text = format!(in alloc;
        "SELECT UId, EId, At FROM Attendances WHERE UId = {user} AND EId = {event}"
    )?;
    Ok(Str::from_string(text))
}

#[tactic(auto, unfolding(crate::specs::Script::title_query))]
fn title_query(alloc: Global, event: u32) -> Result<Str, AllocError>
    ensures { IfOk result (λ query. query ≡ title_query event) }
{
    let text = format!(in alloc; "SELECT Title FROM Events WHERE EId = {event}")?;
    Ok(Str::from_string(text))
}

fn context_of(alloc: Global, user: u32) -> Result<Context, AllocError>
    ensures { IfOk result (λ context. context ≡ context_of user) }
{
    let mut values = List::new(alloc);
    values.push(Value::Int(user as i64))?;
    Ok(Context { values })
}

fn begin(alloc: Global, number: u32, user: u32) -> Result<ScriptEntry, AllocError>
    ensures { IfOk result (λ entry. entry ≡ Begin number (name_of number) (context_of user)) }
{
    let name = name_of(alloc, number)?;
    let context = context_of(alloc, user)?;
    Ok(ScriptEntry::Begin {
        request: number,
        name,
        context,
    })
}

fn ask(alloc: Global, number: u32, query: Str) -> Result<ScriptEntry, AllocError>
    ensures { IfOk result (λ entry. entry ≡ Ask number (name_of number) query) }
{
    let name = name_of(alloc, number)?;
    Ok(ScriptEntry::Ask {
        request: number,
        name,
        query,
    })
}

fn end(alloc: Global, number: u32) -> Result<ScriptEntry, AllocError>
    ensures { IfOk result (λ entry. entry ≡ End number (name_of number)) }
{
    let name = name_of(alloc, number)?;
    Ok(ScriptEntry::End {
        request: number,
        name,
    })
}

/// Adds a question for a user's attendance of an event.
fn ask_attendance(
    alloc: Global,
    entries: &mut List<ScriptEntry>,
    number: u32,
    it: &Choice,
) -> Result<(), AllocError>
    ensures { OnOk result (entries.new ≡ entries.old
        ++ Ask number (name_of number) (attendance_query it.now.user it.now.event) ∷ []) }
{
    let query = attendance_query(alloc, it.user, it.event)?;
    entries.push(ask(alloc, number, query)?)
}

/// Adds a question for an event's title.
fn ask_title(
    alloc: Global,
    entries: &mut List<ScriptEntry>,
    number: u32,
    event: u32,
) -> Result<(), AllocError>
    ensures { OnOk result (entries.new ≡ entries.old
        ++ Ask number (name_of number) (title_query event) ∷ []) }
{
    let query = title_query(alloc, event)?;
    entries.push(ask(alloc, number, query)?)
}

/// Adds the entries of the request with a number.
pub(crate) fn add_request(
    alloc: Global,
    entries: &mut List<ScriptEntry>,
    number: u32,
    it: &Choice,
) -> Result<(), AllocError>
    ensures { OnOk result (entries.new
        ≡ entries.old ++ request_entries number it.now.user it.now.event) }
{
    entries.push(begin(alloc, number, it.user)?)?;
    ask_attendance(alloc, entries, number, it)?;
    ask_title(alloc, entries, number, it.event)?;
    ask_title(alloc, entries, number, other_event(it.event))?;
    entries.push(end(alloc, number)?)
}
