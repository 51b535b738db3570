//! The rows of a shelf: its shapes with their templates, as `lru` keeps them.
ghost use Rattle.std.specs.Prelude.{◌≡◌, ◌≤◌, [], ◌∷◌, ◌++◌, All, Contains, IfOk, IfSome, None, OnErr, OnOk, drop, length, unwrap_or};
ghost use Rattle.std.specs.Map.{lookup};
ghost use Rattle.ba_model.specs.Limits.{most_shapes};
ghost use Rattle.ba_cache.specs.Keys.{same_shape};
ghost use Rattle.ba_cache.specs.Rows.{Admits, IsOther, IsSound, Looks, kept as kept_as, latest, templates_in, templates_under};

use crate::call::{Admit, Kept};
use crate::key::Key;
use ba_model::{Duplicate, List, MAX_ALIKE, Shared};
use ba_template::{Shape, Template};
use lru::LruCache;
use std::alloc::{AllocError, Global};

/// The shape that was used last stands first. The oldest template of a shape stands first.
pub type Rows = LruCache<Key, List<Kept>>;

/// The templates of the shape, which comes to the front. Where there are none, nothing changes.
pub fn look(rows: &mut Rows, alloc: Global, shape: &Shape) -> Result<List<Kept>, AllocError>
    ensures looks { IfOk result (λ found. Looks rows.old.entries shape.now found rows.new.entries) }
    ensures sound { IfOk result (λ found. All IsSound found) }
    ensures cap { rows.new.cap ≡ rows.old.cap }
    ensures err { OnErr result (rows.new ≡ rows.old) }
{
    let key = Key::of(alloc, shape)?;
    let found = copied(alloc, templates_of(rows, &key))?;
    rows.promote(&key);
    Ok(found)
}

/// Keeps the template under the shape of its goal, as the newest of eight, unless an equal one stands there. The shape comes to the
/// front. `count` templates were added before.
pub fn admit(
    rows: &mut Rows,
    alloc: Global,
    template: Shared<Template>,
    count: u32,
) -> Result<Admit, AllocError>
    requires cap { rows.old.cap ≡ most_shapes }
    ensures admits { IfOk result (λ answer. Admits count rows.old.entries template answer rows.new.entries) }
    ensures cap { rows.new.cap ≡ rows.old.cap }
    ensures err { OnErr result (rows.new ≡ rows.old) }
{
    let key = Key::of(alloc, template.shape())?;
    if let Some(id) = id_of(templates_of(rows, &key), &template) {
        rows.promote(&key);
        return Ok(Admit::Known(id));
    }
    let added = Kept {
        id: count,
        template,
    };
    let templates = with_newest(alloc, templates_of(rows, &key), added)?;
    let _within_cap = rows.len();
    rows.put(key, templates)?;
    Ok(Admit::Added(count))
}

/// The templates of a shape, or none.
fn templates_of<'a>(rows: &'a Rows, key: &Key) -> &'a [Kept]
    ensures { result.now ≡ unwrap_or (lookup (same_shape key.now) rows.now.entries) [] }
{
    match rows.peek(key) {
        Some(templates) => templates.as_slice(),
        None => &[],
    }
}

/// The number of an equal template.
fn id_of(templates: &[Kept], template: &Template) -> Option<u32>
    ensures known { IfSome result (λ id. Contains templates.now (kept_as id template.now)) }
    ensures fresh { result ≡ None → All (IsOther template.now) templates.now }
{
    for kept in templates {
        let other: &Template = &kept.template;
        if other.same(template) {
            return Some(kept.id);
        }
    }
    None
}

/// The templates, each shared once more.
fn copied(alloc: Global, templates: &[Kept]) -> Result<List<Kept>, AllocError>
    ensures is { IfOk result (λ all. all ≡ templates.now) }
    ensures sound { IfOk result (λ all. All IsSound all) }
{
    let mut all = Vec::new(alloc);
    for kept in templates {
        all.push(copy_of(kept, alloc)?)?;
    }
    Ok(List::from_vec(all))
}

/// The same template, shared once more.
fn copy_of(kept: &Kept, alloc: Global) -> Result<Kept, AllocError>
    ensures is { IfOk result (λ it. it ≡ kept.now) }
    ensures sound { IsSound kept.now }
{
    let template: &Template = &kept.template;
    let _problem = template.problem();
    Ok(Kept {
        id: kept.id,
        template: kept.template.copy(alloc)?,
    })
}

/// The last templates with this one behind them.
fn with_newest(alloc: Global, templates: &[Kept], newest: Kept) -> Result<List<Kept>, AllocError>
    ensures { IfOk result (λ all. all ≡ latest (templates.now ++ newest ∷ [])) }
{
    let older = templates.len().saturating_sub(MAX_ALIKE - 1);
    let mut all = copied(alloc, &templates[older..])?;
    all.push(newest)?;
    Ok(all)
}

/// The templates of all rows: shape by shape, and of a shape the oldest first.
pub fn templates(rows: &Rows, alloc: Global) -> Result<List<Shared<Template>>, AllocError>
    ensures { IfOk result (λ all. all ≡ templates_in rows.now.entries) }
{
    let mut all = Vec::new(alloc);
    for (_, kept) in rows.iter() {
        read_out(alloc, kept.as_slice(), &mut all)?;
    }
    Ok(List::from_vec(all))
}

/// Puts the templates of a shape behind those of earlier ones, each shared once more.
fn read_out(
    alloc: Global,
    templates: &[Kept],
    all: &mut Vec<Shared<Template>>,
) -> Result<(), AllocError>
    ensures { OnOk result (all.new.items ≡ all.old.items ++ templates_under templates.now) }
{
    for kept in templates {
        all.push(kept.template.copy(alloc)?)?;
    }
    Ok(())
}
