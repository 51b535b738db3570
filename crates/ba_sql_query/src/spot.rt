//! Where something stands first, and whether it stands at another place too.
ghost use Rattle.std.specs.Prelude.{◌≡◌};
ghost use Rattle.ba_sql_query.specs.Names.{numbered};
ghost use Rattle.ba_sql_query.specs.Spots.{only_at, seen};

use crate::fault::ReadQueryFault;

/// The greatest number that an operand or a part names.
const GREATEST: usize = 0xffff_ffff;

/// The first place of something, and whether it has another.
#[derive(Clone, Copy, Drop)]
pub struct Spot {
    pub first: usize,
    pub again: bool,
}

/// The spot once one more place is seen.
pub fn seen(spot: Option<Spot>, place: usize) -> Spot
    ensures { result ≡ seen spot place }
{
    match spot {
        Some(spot) => Spot {
            first: spot.first,
            again: true,
        },
        None => Spot {
            first: place,
            again: false,
        },
    }
}

/// What is found, by its number.
pub fn numbered(absent: ReadQueryFault, found: Option<usize>) -> Result<u32, ReadQueryFault>
    ensures { result ≡ numbered absent found }
{
    match found {
        Some(n) if n <= GREATEST => Ok(n as u32),
        _ => Err(absent),
    }
}

/// The only place of a spot; `Ambiguous` where it has another.
pub fn only_at(absent: ReadQueryFault, spot: Option<Spot>) -> Result<u32, ReadQueryFault>
    ensures { result ≡ only_at absent spot }
{
    match spot {
        Some(spot) if spot.again => Err(ReadQueryFault::Ambiguous),
        Some(spot) => numbered(absent, Some(spot.first)),
        None => Err(absent),
    }
}
