// One file.
ghost use Rattle.ba_plan.specs.Follows.{Calls};

use crate::Stop;
use ba_model::{List, Str};
use ba_outside::{Files, ReadFail};
use std::alloc::Global;

/// Reads the file of that name, which may have at most `limit` bytes: one call of `files`. This is
/// the step of a plan that asks for a file.
///
/// # Errors
/// `Read` and `TooLong` with the name, as the files answer `Fault` and `TooLong`; `NoMemory` as
/// they do, or where there is none for the name. `Refused` never comes.
pub fn read_file<E, F: Files>(
    alloc: Global,
    files: &mut F,
    name: &str,
    limit: u64,
) -> Result<List<u8>, Stop<E>>
    ensures { Calls name.now limit (F.seen files.old) (F.seen files.new) result }
{
    match files.read(name, limit) {
        Ok(bytes) => Ok(List::from_vec(bytes)),
        Err(ReadFail::Fault) => Err(Stop::Read(Str::new(alloc, name)?)),
        Err(ReadFail::TooLong(limit)) => Err(Stop::TooLong(Str::new(alloc, name)?, limit)),
        Err(ReadFail::NoMemory) => Err(Stop::NoMemory),
    }
}
