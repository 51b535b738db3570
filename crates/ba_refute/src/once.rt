//! Rows, each once, in the order in which they come.
ghost use Rattle.std.specs.Prelude.{◌≡◌, ◌∷◌, ◌++◌, [], IfOk, IsTrue, OnOk};
ghost use Rattle.std.specs.List.Sorted.{IsStrictlySortedBy};
ghost use Rattle.ba_model.specs.Order.{row_cmp};
ghost use Rattle.ba_refute.specs.Once.{AreSeen, IsSetOf, IsWith};

use crate::wide::WideRow;
use ba_model::Duplicate;
use std::alloc::{AllocError, Global};
use std::collections::BTreeSet;

/// Whether a row comes after rows that are strictly rising.
fn rises(rows: &[WideRow], row: &WideRow) -> bool
    ensures { IsTrue result → IsStrictlySortedBy row_cmp rows.now
        → IsStrictlySortedBy row_cmp (rows.now ++ row.now ∷ []) }
{
    match rows.last() {
        Some(last) => last.cmp(row).is_lt(),
        None => true,
    }
}

/// The rows as a set.
fn set_of(alloc: Global, rows: &[WideRow]) -> Result<BTreeSet<WideRow>, AllocError>
    ensures { IfOk result (IsSetOf rows.now) }
{
    let mut set = BTreeSet::new(alloc);
    for row in rows {
        let copy = row.copy(alloc)?;
        set.insert(copy)?;
    }
    Ok(set)
}

/// Has each of the rows seen.
fn see_all(alloc: Global, rows: &[WideRow], seen: &mut BTreeSet<WideRow>) -> Result<(), AllocError>
    requires { AreSeen rows.now seen.old }
    ensures { OnOk result (IsSetOf rows.now seen.new) }
{
    if seen.is_empty() {
        *seen = set_of(alloc, rows)?;
    }
    Ok(())
}

/// Adds a row last, unless it was seen.
fn add_unseen(
    alloc: Global,
    rows: &mut Vec<WideRow>,
    seen: &mut BTreeSet<WideRow>,
    row: WideRow,
) -> Result<(), AllocError>
    requires { IsSetOf rows.old.items seen.old }
    ensures rows { OnOk result (IsWith rows.old.items row rows.new.items) }
    ensures seen { OnOk result (IsSetOf rows.new.items seen.new) }
{
    let copy = row.copy(alloc)?;
    let is_new = seen.insert(copy)?;
    if is_new {
        rows.push(row)?;
    }
    Ok(())
}

/// Adds a row last, unless it is there. `seen` stays empty as long as the rows are strictly rising;
/// from then on it has a copy of each.
pub(crate) fn add_row(
    alloc: Global,
    rows: &mut Vec<WideRow>,
    seen: &mut BTreeSet<WideRow>,
    row: WideRow,
) -> Result<(), AllocError>
    requires { AreSeen rows.old.items seen.old }
    ensures rows { OnOk result (IsWith rows.old.items row rows.new.items) }
    ensures seen { OnOk result (AreSeen rows.new.items seen.new) }
{
    if seen.is_empty() && rises(rows, &row) {
        rows.push(row)?;
        return Ok(());
    }
    see_all(alloc, rows, seen)?;
    add_unseen(alloc, rows, seen, row)
}
