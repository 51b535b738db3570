//! The versions.
ghost use Rattle.std.specs.Prelude.{◌≡◌, ◌+◌, ◌<◌, ◌≤◌, All, vec_len};
ghost use Rattle.ba_versions.specs.Calls.{IsOfSchema, IsVersion, Legal};

use crate::call::VersionCall;
use ba_model::{Duplicate, Shared};
use ba_tables::Tables;
use ba_turn::Storied;
use std::alloc::{AllocError, Global};
use std::snapshot::Snapshot;

/// The versions of the tables, numbered from 0 on. A pin answers the last one.
///
/// The type keeps that each call answered what it answers on the versions of its moment, from the opening tables as version 0 on,
/// and that all versions are of one schema, to which they conform. Numbers are of 32 bits, and so is the count of calls.
#[derive(Drop)]
pub struct Versions {
    alloc: Global,
    opening: Snapshot<Tables>,
    tables: Vec<Shared<Tables>>,
    calls: Vec<VersionCall>,
    ghost legal: { ∥ Legal opening.value calls.items tables.items ∥₁ },
    ghost schemas: { All (IsOfSchema opening.value) tables.items },
    ghost some: { 0 < vec_len tables },
    ghost few: { vec_len tables ≤ vec_len calls + 1 },
}

impl Storied for Versions {
    ghost use Rattle.ba_versions.specs.Reads.{calls_of, opening_of, room_of};

    type Opening = Tables;

    type Entry = VersionCall;

    ghost opening = { opening_of };

    ghost history = { calls_of };

    ghost room = { room_of };

    fn reserve(&mut self, calls: u32) -> Result<(), AllocError> {
        if calls as u64 + self.calls.len() as u64 >= 1 << 32 {
            return Err(AllocError);
        }
        self.calls.reserve(calls as usize)?;
        self.tables.reserve(calls as usize)
    }
}

impl Versions {
    ghost use Rattle.std.specs.Prelude.{[], ◌∷◌, ◌++◌, IfOk};
    ghost use Rattle.ba_versions.specs.Calls.{Steps};
    ghost use Rattle.ba_versions.specs.Reads.{calls_of, opening_of, pinned, published, room_of, versions_of};

    /// The tables are version 0, and no call was made.
    pub fn new(alloc: Global, tables: Shared<Tables>) -> Result<Versions, AllocError>
        ensures opening { IfOk result (λ it. opening_of it ≡ tables) }
        ensures versions { IfOk result (λ it. versions_of it ≡ tables ∷ []) }
        ensures calls { IfOk result (λ it. calls_of it ≡ []) }
    {
        let opening = Snapshot::of(&*tables);
        let _conforming = tables.schema();
        let mut list = Vec::with_capacity(alloc, 1)?;
        list.push_reserved(tables);
        Ok(Versions {
            alloc,
            opening,
            tables: list,
            calls: Vec::new(alloc),
        })
    }

    /// The calls so far, the first one first.
    pub fn calls(&self) -> &[VersionCall]
        ensures is { result.now ≡ calls_of self.now }
        ensures legal { ∥ Legal (opening_of self.now) result.now (versions_of self.now) ∥₁ }
        ensures conform { ∥ All (IsVersion (opening_of self.now)) (versions_of self.now) ∥₁ }
    {
        self.calls.as_slice()
    }

    /// The tables become the last version; the answer is its number. No memory is asked for.
    pub fn publish(&mut self, tables: Shared<Tables>) -> u32
        requires room { 0 < room_of self.old }
        requires schema { tables.schema ≡ (opening_of self.old).schema }
        ensures step { Steps (opening_of self.old) (versions_of self.old) (published tables result) (versions_of self.new) }
        ensures opening { opening_of self.new ≡ opening_of self.old }
        ensures call { calls_of self.new ≡ calls_of self.old ++ published tables result ∷ [] }
        ensures room { room_of self.old ≤ room_of self.new + 1 }
    {
        let number = self.tables.len() as u32;
        let _conforming = tables.schema();
        let told = Snapshot::of(&*tables);
        self.tables.push_reserved(tables);
        self.calls.push_reserved(VersionCall::Publish(told, number));
        number
    }

    /// The last version, its number and its tables. It takes no memory; too many copies of the tables are told as want of
    /// memory. The call is then told as refused, and the versions are as before.
    pub fn pin(&mut self) -> Result<(u32, Shared<Tables>), AllocError>
        requires room { 0 < room_of self.old }
        ensures step { Steps (opening_of self.old) (versions_of self.old) (pinned result) (versions_of self.new) }
        ensures version { IfOk result (λ r. IsVersion (opening_of self.old) r.1) }
        ensures opening { opening_of self.new ≡ opening_of self.old }
        ensures call { calls_of self.new ≡ calls_of self.old ++ pinned result ∷ [] }
        ensures room { room_of self.old ≤ room_of self.new + 1 }
    {
        let number = self.tables.len() - 1;
        match self.tables[number].copy(self.alloc) {
            Ok(tables) => {
                let _conforming = tables.schema();
                let told = Snapshot::of(&*tables);
                self.calls
                    .push_reserved(VersionCall::Pin(number as u32, told));
                Ok((number as u32, tables))
            }
            Err(_) => {
                self.calls.push_reserved(VersionCall::Refused);
                Err(AllocError)
            }
        }
    }
}
