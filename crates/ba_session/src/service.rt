//! What all requests share, and the right to make calls on it.
ghost use Rattle.std.specs.Prelude.{◌≡◌};
ghost use Rattle.ba_turn.specs.Passes.{start_of};
ghost use Rattle.ba_versions.specs.Reads.{opening_of};

use ba_cache::{Cache, CachePass, Shelf};
use ba_model::{Policy, Shared};
use ba_turn::{Pass, Turn};
use ba_versions::{VersionCall, Versions};

/// What all requests share: the policy, the versions of its tables, and the shelves of templates.
/// Threads share it, each with passes of its own.
///
/// The type keeps that the versions are of the policy's schema.
#[derive(Drop)]
pub struct Service {
    pub(crate) policy: Shared<Policy>,
    pub(crate) versions: Turn<Versions>,
    pub(crate) cache: Cache,
    ghost schema: { (opening_of (start_of versions)).schema ≡ policy.schema },
}

/// The right to make calls on a service: a pass on the turn of the versions, and one on that of
/// each shelf. They go from thread to thread by value.
#[derive(Drop)]
pub struct Passes {
    pub(crate) versions: Pass<Versions, VersionCall>,
    pub(crate) cache: CachePass,
}

/// What a service's objects were told: the versions, and each shelf in the order of the shards,
/// each with the number of every call's pass.
#[derive(Drop)]
pub struct Closed {
    pub versions: Versions,
    pub numbers: Vec<u32>,
    pub shelves: Vec<(Shelf, Vec<u32>)>,
}
