//! What an output is tested against.
ghost use Rattle.std.specs.Prelude.{◌≡◌};
ghost use Rattle.std.specs.Option.{option_copied};
ghost use Rattle.ba_audit.specs.Keeping.{basis_at};
ghost use Rattle.ba_audit.specs.Lines.{place_of, tables_of};

use crate::numbered::Numbered;
use ba_model::{Policy, Shared};
use ba_tables::Tables;

/// The policy, the sets of tables, that of the words first, and the numbers under which they are
/// printed.
#[derive(Clone, Copy)]
pub(crate) struct Against<'a> {
    pub(crate) policy: &'a Shared<Policy>,
    pub(crate) sets: &'a [Shared<Tables>],
    pub(crate) numbered: &'a [Numbered],
}

/// The place of the first set of the number.
fn place_of(version: u64, numbered: &[Numbered]) -> Option<usize>
    ensures { result ≡ place_of version numbered.now }
{
    for it in numbered {
        if it.version == version {
            return Some(it.place);
        }
    }
    None
}

/// The tables of the version, if there are such.
pub(crate) fn tables_of<'a>(against: &Against<'a>, version: u64) -> Option<&'a Shared<Tables>>
    ensures { option_copied result ≡ tables_of (basis_at against.now) version }
{
    match place_of(version, against.numbered) {
        Some(place) => against.sets.get(place),
        None => None,
    }
}
