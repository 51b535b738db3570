//! What an audit keeps between lines.
ghost use Rattle.std.specs.Prelude.{◌≡◌, ◌≢◌, ◌∷◌, [], ℕ, IfOk, List, OnOk, Ok, option_map};
ghost use Rattle.std.specs.BTreeMap.{get};
ghost use Rattle.std.specs.Option.{option_copied, option_to_list};
ghost use Rattle.std.specs.Ordering.{nat_cmp};
ghost use Rattle.ba_audit.specs.Keeping.{Counts, Moves, Tracks, basis_at, known_in, told_at};
ghost use Rattle.ba_audit.specs.Lines.{Basis, Line, asking, begun_by, numbered_by, tables_of, with_told};
ghost use Rattle.ba_audit.specs.Tests.{request_in};

use crate::against::{Against, tables_of};
use crate::counts::{NOTHING, both, count_if, count_one};
use crate::numbered::Numbered;
use crate::printed::{begun_over, is_memory, is_unaudited, published_as};
use crate::request::{Asker, Begun};
use ba_comply::{Trace, TraceEntry};
use ba_model::{Context, Duplicate};
use ba_printed::PrintedLine;
use ba_script::ScriptEntry;
use ba_wire::Summary;
use std::alloc::{AllocError, Global};
use std::collections::BTreeMap;

/// What an audit keeps between lines.
#[derive(Drop)]
pub struct Told {
    /// What is known of each request, by its number.
    pub(crate) requests: BTreeMap<u32, Begun>,
    /// The numbers under which sets were published so far.
    pub(crate) used: Vec<Numbered>,
    /// What is counted so far.
    pub(crate) summary: Summary,
    /// How many lines can't be tested.
    pub(crate) unaudited: u64,
}

/// The number of the request that the entry is of, if it is begun.
#[tactic(auto, unfolding(crate::specs::Tests::request_in))]
fn request_in(entry: &ScriptEntry) -> Option<u32>
    ensures { result ≡ request_in entry.now }
{
    match entry {
        ScriptEntry::Begin { .. } => None,
        ScriptEntry::Ask { request, .. } => Some(*request),
        ScriptEntry::Read { request, .. } => Some(*request),
        ScriptEntry::End { request, .. } => Some(*request),
        ScriptEntry::Publish { .. } => None,
    }
}

/// The request that begins over the version, if there is such a one.
fn asking(
    alloc: Global,
    against: &Against<'_>,
    context: &Context,
    version: u64,
) -> Result<Option<Begun>, AllocError>
    ensures { IfOk result (λ it. it
        ≡ option_map (asking context.now version) (tables_of (basis_at against.now) version)) }
{
    match tables_of(against, version) {
        Some(tables) => {
            let context = context.copy(alloc)?;
            let tables = tables.copy(alloc)?;
            Ok(Some(Begun::Asking(Asker {
                context,
                version,
                tables,
                trace: Trace::new(alloc),
            })))
        }
        None => Ok(None),
    }
}

/// What begins with the line.
fn begun_by(
    alloc: Global,
    against: &Against<'_>,
    context: &Context,
    line: &PrintedLine,
) -> Result<Option<Begun>, AllocError>
    ensures { IfOk result (λ it. it ≡ begun_by (basis_at against.now) context.now (Ok line.now)) }
{
    if is_memory(line) {
        return Ok(Some(Begun::Silent));
    }
    match begun_over(line) {
        Some(version) => asking(alloc, against, context, version),
        None => Ok(None),
    }
}

/// So much is known of the request of the number.
fn put(requests: &mut BTreeMap<u32, Begun>, k: u32, it: Option<Begun>) -> Result<(), AllocError>
    ensures here { OnOk result (get nat_cmp requests.new k ≡ it) }
    ensures others { OnOk result ((j : ℕ) →
        j ≢ k → get nat_cmp requests.new j ≡ get nat_cmp requests.old j) }
{
    match it {
        Some(begun) => {
            requests.insert(k, begun)?;
            Ok(())
        }
        None => {
            requests.remove(&k);
            Ok(())
        }
    }
}

/// Adds the entry to the trace of the request of the number.
fn tell(requests: &mut BTreeMap<u32, Begun>, k: u32, entry: TraceEntry) -> Result<(), AllocError>
    ensures here { OnOk result (get nat_cmp requests.new k
        ≡ option_map (with_told (entry ∷ [])) (get nat_cmp requests.old k)) }
    ensures others { OnOk result ((j : ℕ) →
        j ≢ k → get nat_cmp requests.new j ≡ get nat_cmp requests.old j) }
{
    match requests.get_mut(&k) {
        Some(begun) => match begun {
            Begun::Asking(asker) => {
                asker.trace.push(entry)?;
                Ok(())
            }
            Begun::Silent => Ok(()),
        },
        None => Ok(()),
    }
}

/// The number under which the line publishes the set of the publish line of this number.
pub(crate) fn numbered_by(number: u32, line: &PrintedLine) -> Option<Numbered>
    ensures { option_to_list result ≡ numbered_by number (Ok line.now) }
{
    match published_as(line) {
        Some(version) => Some(Numbered {
            version,
            place: number as usize + 1,
        }),
        None => None,
    }
}

impl Told {
    /// Before any line.
    pub(crate) fn new(alloc: Global) -> Told
        ensures { (basis : Basis) → Tracks basis [] result }
    {
        Told {
            requests: BTreeMap::new(alloc),
            used: Vec::new(alloc),
            summary: NOTHING,
            unaudited: 0,
        }
    }

    /// What is known of the request of the entry.
    pub(crate) fn known(&self, entry: &ScriptEntry) -> Option<&Begun>
        ensures { option_copied result ≡ known_in self.now (request_in entry.now) }
    {
        match request_in(entry) {
            Some(request) => self.requests.get(&request),
            None => None,
        }
    }

    /// Keeps what the line of an entry tells, which adds this to the trace of its request.
    #[tactic(auto, unfolding(crate::specs::Lines::request_by, crate::specs::Lines::numbered_at, crate::specs::Keeping::told_at))]
    pub(crate) fn note(
        &mut self,
        alloc: Global,
        against: &Against<'_>,
        entry: &ScriptEntry,
        line: &PrintedLine,
        added: Option<TraceEntry>,
    ) -> Result<(), AllocError>
        requires { option_to_list added ≡ told_at against.now.policy.now entry.now (Ok line.now) }
        ensures { OnOk result
            (Moves (basis_at against.now) entry.now (Ok line.now) self.old self.new) }
    {
        match entry {
            ScriptEntry::Begin {
                request,
                context,
                ..
            } => {
                let begun = begun_by(alloc, against, context, line)?;
                put(&mut self.requests, *request, begun)
            }
            ScriptEntry::Ask { request, .. } => match added {
                Some(it) => tell(&mut self.requests, *request, it),
                None => Ok(()),
            },
            ScriptEntry::Read { .. } => Ok(()),
            ScriptEntry::End { .. } => Ok(()),
            ScriptEntry::Publish { number, .. } => match numbered_by(*number, line) {
                Some(it) => {
                    self.used.push(it)?;
                    Ok(())
                }
                None => Ok(()),
            },
        }
    }

    /// Counts the line of an entry. After an error, which comes where a number would pass 64 bits,
    /// nothing is said of what is kept.
    pub(crate) fn count(
        &mut self,
        entry: &ScriptEntry,
        line: &PrintedLine,
    ) -> Result<(), AllocError>
        ensures { OnOk result (Counts entry.now (Ok line.now) self.old self.new) }
    {
        let one = count_one(entry, line);
        let Some(summary) = both(&self.summary, &one) else {
            return Err(AllocError);
        };
        let Some(unaudited) = self.unaudited.checked_add(count_if(is_unaudited(line))) else {
            return Err(AllocError);
        };
        self.summary = summary;
        self.unaudited = unaudited;
        Ok(())
    }
}
