//! A shelf for each shard of shapes, under a turn of its own, and a pass on each.
ghost use Rattle.std.specs.Prelude.{◌≡◌, vec_len};
ghost use Rattle.ba_model.specs.Limits.{shard_count};

use crate::call::ShelfCall;
use crate::shelf::Shelf;
use ba_turn::{Pass, Turn};

/// Eight shelves, one for each shard of shapes. Threads share it, and make their calls on a shelf one at a time, each with a pass
/// of its own.
#[derive(Drop)]
pub struct Cache {
    pub(crate) turns: Vec<Turn<Shelf>>,
    ghost eight: { vec_len turns ≡ shard_count },
}

/// The right to make calls on a cache: a pass on the turn of each shelf. It goes from thread to thread by value.
/// Contracts read what it knows of a shelf by `known_on`.
#[derive(Drop)]
pub struct CachePass {
    pub(crate) passes: Vec<Pass<Shelf, ShelfCall>>,
    ghost eight: { vec_len passes ≡ shard_count },
}
