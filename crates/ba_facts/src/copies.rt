//! Room in lists, and copies of lists with room for some more.
ghost use Rattle.std.specs.Prelude.{◌≡◌, ◌++◌, ◌∷◌, [], IfOk, OnErr, OnOk};

use ba_model::{Duplicate, Shared};
use std::alloc::{AllocError, Global};

/// For how many more elements a copy has room.
const ROOM: usize = 8;

/// For how many elements a list gets room at once with its first one.
const FIRST_ROOM: usize = 16;

/// Adds an element, and with the first one makes room for more. Without memory nothing changes.
#[inline(always)]
pub(crate) fn add_item<T: Drop>(items: &mut Vec<T>, item: T) -> Result<(), AllocError>
    ensures ok { OnOk result (items.new.items ≡ items.old.items ++ item ∷ []) }
    ensures err { OnErr result (items.new.items ≡ items.old.items) }
{
    make_first_room(items)?;
    items.push(item)?;
    Ok(())
}

/// Makes room for some elements where there are none yet. No element changes.
#[inline(always)]
pub(crate) fn make_first_room<T>(items: &mut Vec<T>) -> Result<(), AllocError>
    ensures { items.new.items ≡ items.old.items }
{
    if items.is_empty() {
        items.reserve(FIRST_ROOM)?;
    }
    Ok(())
}

/// The same elements.
pub(crate) fn copy_plain<T: Copy>(alloc: Global, items: &[T]) -> Result<Vec<T>, AllocError>
    ensures { IfOk result (λ it. it.items ≡ items.now) }
{
    let mut copies = Vec::with_capacity(alloc, items.len().saturating_add(ROOM))?;
    copies.extend_from_slice(items)?;
    Ok(copies)
}

/// The same values, held in common.
pub(crate) fn copy_shared<T: Drop>(
    alloc: Global,
    items: &[Shared<T>],
) -> Result<Vec<Shared<T>>, AllocError>
    ensures { IfOk result (λ it. it.items ≡ items.now) }
{
    let mut copies = Vec::with_capacity(alloc, items.len().saturating_add(ROOM))?;
    add_shared(alloc, items, &mut copies)?;
    Ok(copies)
}

fn add_shared<T: Drop>(
    alloc: Global,
    items: &[Shared<T>],
    copies: &mut Vec<Shared<T>>,
) -> Result<(), AllocError>
    ensures { OnOk result (copies.new.items ≡ copies.old.items ++ items.now) }
{
    for item in items {
        copies.push(item.copy(alloc)?)?;
    }
    Ok(())
}
