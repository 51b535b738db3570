//! The pairs of columns of a link.
ghost use Rattle.std.specs.Prelude.{◌≡◌, IfOk};
ghost use Rattle.ba_tables.specs.Pairs.{with_pairs_once};

use ba_model::{Duplicate, Link, List};
use std::alloc::{AllocError, Global};
use std::collections::BTreeSet;

/// The link with each pair of a column and its target column once, where it stands first. Of n pairs each takes a look-up of
/// log n.
pub fn with_pairs_once(alloc: Global, link: &Link) -> Result<Link, AllocError>
    ensures { IfOk result (λ once. once ≡ with_pairs_once link.now) }
{
    if link.columns.len() != link.target_columns.len() {
        return link.copy(alloc);
    }
    let mut seen = BTreeSet::new(alloc);
    let mut columns = List::new(alloc);
    let mut target_columns = List::new(alloc);
    for i in 0..link.columns.len() {
        let pair = (*link.columns.get(i), *link.target_columns.get(i));
        if seen.insert(pair)? {
            columns.push(pair.0)?;
            target_columns.push(pair.1)?;
        }
    }
    Ok(Link {
        columns,
        target: link.target,
        target_columns,
    })
}
