//! Shelves of templates, for one thread.
ghost use Rattle.std.specs.Prelude.{◌≡◌, ◌∷◌, ◌++◌, [], ◌↔◌, Contains, IfOk, IsTrue, OnErr, OnOk, vec_len};
ghost use Rattle.ba_cache.specs.Keys.{same_shape};
ghost use Rattle.ba_judge.specs.Rows.{Admits, latest, under, used};
ghost use Rattle.ba_model.specs.Limits.{most_shapes, shard_count};

use crate::key::Key;
use ba_model::{Duplicate, List, MAX_ALIKE, MAX_SHAPES, SHARDS, Same, Shared};
use ba_template::{Shape, Template};
use lru::LruCache;
use std::alloc::{AllocError, Global};
use std::num::NonZeroUsize;

// The templates of a shard's shapes: the shape that was used last stands first, and of a shape the
// oldest template.
#[derive(Drop)]
struct Shelf {
    rows: LruCache<Key, List<Shared<Template>>>,
    ghost most: { rows.cap ≡ most_shapes },
}

/// Eight shelves, one for each shard of shapes, for one thread: templates by the shapes of their
/// goals, at most 8 of a shape, and at most 128 shapes of a shelf, the one that was used last first.
///
/// A template is sound by its own type: every instance that meets its condition is strongly
/// compliant. The shelves remember what stands on them and no calls, so that calls without end cost
/// no memory.
#[derive(Drop)]
pub struct Shelves {
    alloc: Global,
    shelves: Vec<Shelf>,
    ghost eight: { vec_len shelves ≡ shard_count },
}

impl Shelf {
    fn new(alloc: Global) -> Result<Shelf, AllocError>
        ensures { IfOk result (λ it. it.rows.entries ≡ []) }
    {
        let most = NonZeroUsize::new(MAX_SHAPES).unwrap();
        Ok(Shelf {
            rows: LruCache::new(alloc, most)?,
        })
    }

    // The templates of the shape, each shared once more.
    fn under(&self, alloc: Global, key: &Key) -> Result<List<Shared<Template>>, AllocError>
        ensures { IfOk result (λ found. found ≡ under key.now self.now.rows.entries) }
    {
        match self.rows.peek(key) {
            Some(templates) => templates.copy(alloc),
            None => Ok(List::new(alloc)),
        }
    }

    fn look(&mut self, alloc: Global, shape: &Shape) -> Result<List<Shared<Template>>, AllocError>
        ensures found { IfOk result (λ found.
            found ≡ under shape.now self.old.rows.entries) }
        ensures ok { OnOk result (self.new.rows.entries ≡ used shape.now self.old.rows.entries) }
        ensures err { OnErr result (self.new.rows ≡ self.old.rows) }
    {
        let key = Key::of(alloc, shape)?;
        let found = self.under(alloc, &key)?;
        self.rows.promote(&key);
        Ok(found)
    }

    fn admit(&mut self, alloc: Global, template: Shared<Template>) -> Result<(), AllocError>
        ensures ok { OnOk result
            (Admits template self.old.rows.entries self.new.rows.entries) }
        ensures err { OnErr result (self.new.rows ≡ self.old.rows) }
    {
        let key = Key::of(alloc, template.shape())?;
        let found = self.under(alloc, &key)?;
        if is_among(found.as_slice(), &template) {
            self.rows.promote(&key);
            return Ok(());
        }
        let newest = with_newest(alloc, found.as_slice(), template)?;
        self.rows.put(key, newest)?;
        Ok(())
    }
}

// Whether an equal template is among these.
fn is_among(templates: &[Shared<Template>], template: &Template) -> bool
    ensures { IsTrue result ↔ Contains templates.now template.now }
{
    for other in templates {
        let other: &Template = other;
        if other.same(template) {
            return true;
        }
    }
    false
}

// The last seven of these templates, with this one behind them.
fn with_newest(
    alloc: Global,
    templates: &[Shared<Template>],
    newest: Shared<Template>,
) -> Result<List<Shared<Template>>, AllocError>
    ensures { IfOk result (λ all. all ≡ latest (templates.now ++ newest ∷ [])) }
{
    let older = templates.len().saturating_sub(MAX_ALIKE - 1);
    let mut all = List::new(alloc);
    for template in &templates[older..] {
        all.push(template.copy(alloc)?)?;
    }
    all.push(newest)?;
    Ok(all)
}

impl Shelves {
    ghost use Rattle.ba_template.specs.Shapes.{shard_of};
    ghost use Rattle.ba_judge.specs.Rows.{shape_of_template};
    ghost use Rattle.ba_judge.specs.Shelves.{Changes, IsEmpty, Stays, standing};

    /// Shelves with nothing on them. `alloc` is kept for what will stand there.
    pub fn new(alloc: Global) -> Result<Shelves, AllocError>
        ensures { IfOk result IsEmpty }
    {
        let mut shelves = Vec::with_capacity(alloc, SHARDS as usize)?;
        for _ in 0..SHARDS {
            shelves.push_reserved(Shelf::new(alloc)?);
        }
        Ok(Shelves { alloc, shelves })
    }

    /// The templates of the shape, the oldest first; it comes to the front of the shelf of its
    /// shard. Where there are none, nothing changes. After want of memory all stands as before.
    pub fn look(&mut self, shape: &Shape) -> Result<List<Shared<Template>>, AllocError>
        ensures found { IfOk result (λ found. found ≡ standing self.old shape.now) }
        ensures ok { OnOk result (Changes (shard_of shape.now)
            (λ old new. new ≡ used shape.now old) self.old self.new) }
        ensures err { OnErr result (Stays self.old self.new) }
    {
        let shard = shape.shard() as usize;
        self.shelves[shard].look(self.alloc, shape)
    }

    /// Keeps the template under the shape of its goal, as the newest of eight, unless an equal one
    /// stands there. The shape comes to the front of the shelf of its shard, from which a 129th one
    /// drops the last. After want of memory all stands as before.
    pub fn admit(&mut self, template: Shared<Template>) -> Result<(), AllocError>
        ensures ok { OnOk result (Changes (shard_of (shape_of_template template))
            (Admits template) self.old self.new) }
        ensures err { OnErr result (Stays self.old self.new) }
    {
        let shard = template.shape().shard() as usize;
        self.shelves[shard].admit(self.alloc, template)
    }
}
