//! Reads of cache keys.
ghost use Rattle.std.specs.Prelude.{◌≡◌, ◌+◌, ◌≤◌, ℕ, IfOk, OnErr, if◌then◌else◌, nat_lt};
ghost use Rattle.std.specs.Option.{option_copied};
ghost use Rattle.std.specs.Str.{bytes_eq};
ghost use Rattle.ba_judge.specs.Judging.{effort_in};
ghost use Rattle.ba_judge.specs.Shelves.{Learns};
ghost use Rattle.ba_live.specs.Books.{LeavesAll};
ghost use Rattle.ba_live.specs.Limits.{most_open_asks};
ghost use Rattle.ba_live.specs.Steps.{Contradicts, DecidesRead, Stays, key_named};
ghost use Rattle.ba_live.specs.Wellformed.{IsLive, IsSound};

use crate::decision::{Decision, Refusal};
use crate::live::Live;
use crate::open::MAX_OPEN_ASKS;
use crate::step::refused;
use ba_judge::{Read, Reading, Reason, judge_read};
use ba_model::{CacheKey, List, Str};
use ba_script::{Member, context_of};
use ba_settle::Settle;
use std::alloc::{AllocError, Global};

fn is_called(key: &CacheKey, name: &Str) -> bool
    ensures { result ≡ bytes_eq key.now.name name.now }
{
    key.name.as_bytes() == name.as_bytes()
}

// The key of the name.
fn key_named<'a>(keys: &'a [CacheKey], name: &Str) -> Option<&'a CacheKey>
    ensures { option_copied result ≡ key_named name.now keys.now }
{
    for key in keys {
        if is_called(key, name) {
            return Some(key);
        }
    }
    None
}

// Whether a query of the key is blocked since what was told contradicts itself.
fn contradicts(read: &Read) -> bool
    ensures { Contradicts result read.now }
{
    match read {
        Read::Blocked {
            reason: Reason::Contradiction(_),
            ..
        } => true,
        _ => false,
    }
}

// So many questions, if a request that asked so many may ask them too.
fn questions_left(asks: u32, count: usize) -> Option<u32>
    requires { asks ≤ most_open_asks }
    ensures { result ≡ (if nat_lt most_open_asks (asks + count) then None else Some count) }
{
    let left = MAX_OPEN_ASKS - asks;
    if count > left as usize {
        return None;
    }
    Some(count as u32)
}

impl Live {
    /// Each of the key's queries is judged after what the request was told.
    #[tactic(auto, using(crate::proofs::LiveLemmas::same_shelves))]
    pub(crate) fn read<S: Settle>(
        &mut self,
        alloc: Global,
        settle: &S,
        name: &Str,
        key: &Str,
        members: &List<Member>,
    ) -> Result<Decision, AllocError>
        requires sound { IsSound self.old }
        ensures decides { IfOk result (λ it. DecidesRead
            (effort_in (S.orders settle.now) self.old.budget) name.now key.now members.now it
            self.old self.new) }
        ensures err { OnErr result (LeavesAll self.old self.new) }
        ensures same { Stays self.old self.new }
        ensures learns { Learns self.old.shelves self.new.shelves }
        ensures live { (next : ℕ) → IsLive next self.old → IsLive next self.new }
    {
        let Some(open) = self.requests.get(name) else {
            return Ok(refused(Refusal::Unbegun));
        };
        if open.closed {
            return Ok(refused(Refusal::Closed));
        }
        let Some(key) = key_named(self.policy.keys.as_slice(), key) else {
            return Ok(refused(Refusal::Key));
        };
        let found = context_of(alloc, key.arguments.as_slice(), members.as_slice())?;
        let Some(arguments) = found else {
            return Ok(refused(Refusal::Args));
        };
        let Some(asks) = questions_left(open.asks, key.queries.len()) else {
            return Ok(refused(Refusal::Asks));
        };
        let reading = Reading {
            policy: &self.policy,
            context: &open.context,
            trace: &open.trace,
            key,
            arguments: &arguments,
        };
        let read = judge_read(alloc, &reading, &mut self.shelves, settle, self.budget)?;
        if contradicts(&read) {
            self.requests.shut(name);
            return Ok(Decision::Contradiction);
        }
        self.requests.count(name, asks);
        Ok(Decision::Read(read))
    }
}
