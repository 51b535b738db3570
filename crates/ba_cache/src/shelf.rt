//! Shelves.
ghost use Rattle.std.specs.Prelude.{◌≡◌, ◌+◌, ◌^◌, ◌<◌, ◌≤◌, vec_len};
ghost use Rattle.ba_model.specs.Limits.{most_shapes};
ghost use Rattle.ba_cache.specs.Rows.{Legal, added_by, count_added};

use crate::call::{Admit, Found, ShelfCall};
use crate::rows;
use crate::rows::Rows;
use ba_model::{List, MAX_SHAPES, Shared};
use ba_template::{Shape, Template};
use ba_turn::Storied;
use lru::LruCache;
use std::alloc::{AllocError, Global};
use std::num::NonZeroUsize;
use std::snapshot::Snapshot;

/// Templates by the shapes of their goals: at most 8 of a shape, and at most 128 shapes, the one that was used last first.
///
/// The type keeps that each call answered what it answers on the rows of its moment, from an empty shelf on. Ids are of 32 bits,
/// and so is the count of calls.
#[derive(Drop)]
pub struct Shelf {
    alloc: Global,
    rows: Rows,
    added: u32,
    calls: Vec<ShelfCall>,
    ghost legal: { ∥ Legal calls.items rows.entries ∥₁ },
    ghost counted: { added ≡ count_added calls.items },
    ghost few: { added ≤ vec_len calls },
    ghost most: { rows.cap ≡ most_shapes },
}

impl Storied for Shelf {
    ghost use Rattle.ba_cache.specs.Reads.{calls_of, room_of};

    type Opening = ();

    type Entry = ShelfCall;

    ghost opening = { λ _. tt };

    ghost history = { calls_of };

    ghost room = { room_of };

    fn reserve(&mut self, calls: u32) -> Result<(), AllocError> {
        if calls as u64 + self.calls.len() as u64 >= 1 << 32 {
            return Err(AllocError);
        }
        self.calls.reserve(calls as usize)
    }
}

impl Shelf {
    ghost use Rattle.std.specs.Prelude.{[], ◌∷◌, ◌++◌, All, IfOk};
    ghost use Rattle.ba_cache.specs.Rows.{IsSound, Steps, templates_in};
    ghost use Rattle.ba_cache.specs.Reads.{admitted, calls_of, looked, room_of, rows_of};

    /// A shelf with nothing on it.
    pub fn new(alloc: Global) -> Result<Shelf, AllocError>
        ensures calls { IfOk result (λ it. calls_of it ≡ []) }
        ensures rows { IfOk result (λ it. rows_of it ≡ []) }
    {
        let most = NonZeroUsize::new(MAX_SHAPES).unwrap();
        Ok(Shelf {
            alloc,
            rows: LruCache::new(alloc, most)?,
            added: 0,
            calls: Vec::new(alloc),
        })
    }

    /// The calls so far, the first one first.
    pub fn calls(&self) -> &[ShelfCall]
        ensures is { result.now ≡ calls_of self.now }
        ensures legal { ∥ Legal result.now (rows_of self.now) ∥₁ }
    {
        self.calls.as_slice()
    }

    /// The templates that stand on it, each shared once more: shapes from the one that was used last
    /// on, and the templates of a shape from the oldest on. It is no call on the shelf, which stays
    /// as it is. The error is want of memory.
    pub fn templates(&self, alloc: Global) -> Result<List<Shared<Template>>, AllocError>
        ensures { IfOk result (λ found. found ≡ templates_in (rows_of self.now)) }
    {
        rows::templates(&self.rows, alloc)
    }

    /// The templates of the shape, which comes to the front. Where there are none, nothing changes. After want of memory the
    /// shelf is as before but for the call, which is told as refused.
    pub fn look(&mut self, shape: &Shape) -> Result<Found, AllocError>
        requires room { 0 < room_of self.old }
        ensures step { Steps (count_added (calls_of self.old)) (rows_of self.old) (looked shape.now result) (rows_of self.new) }
        ensures sound { IfOk result (λ it. All IsSound it.templates) }
        ensures call { calls_of self.new ≡ calls_of self.old ++ looked shape.now result ∷ [] }
        ensures room { room_of self.old ≤ room_of self.new + 1 }
    {
        let told = Snapshot::of(shape);
        match rows::look(&mut self.rows, self.alloc, shape) {
            Ok(templates) => {
                let found = Snapshot::of(&templates);
                self.calls.push_reserved(ShelfCall::Look(told, found));
                Ok(Found { templates })
            }
            Err(_) => {
                self.calls.push_reserved(ShelfCall::Refused);
                Err(AllocError)
            }
        }
    }

    /// Keeps the template under the shape of its goal, unless an equal one stands there. The shape comes to the front. After want
    /// of memory the shelf is as before but for the call, which is told as refused.
    pub fn admit(&mut self, template: Shared<Template>) -> Result<Admit, AllocError>
        requires room { 0 < room_of self.old }
        ensures step { Steps (count_added (calls_of self.old)) (rows_of self.old) (admitted template result) (rows_of self.new) }
        ensures call { calls_of self.new ≡ calls_of self.old ++ admitted template result ∷ [] }
        ensures room { room_of self.old ≤ room_of self.new + 1 }
    {
        let told = Snapshot::of(&*template);
        let _steps = template.steps();
        match rows::admit(&mut self.rows, self.alloc, template, self.added) {
            Ok(answer) => {
                self.added = count_after(self.added, answer);
                self.calls.push_reserved(ShelfCall::Admit(told, answer));
                Ok(answer)
            }
            Err(_) => {
                self.calls.push_reserved(ShelfCall::Refused);
                Err(AllocError)
            }
        }
    }
}

/// How many templates were added, after one more answer.
fn count_after(added: u32, answer: Admit) -> u32
    requires { added + 1 < 2 ^ 32 }
    ensures { result ≡ added + added_by answer }
{
    match answer {
        Admit::Added(_) => added + 1,
        Admit::Known(_) => added,
    }
}
