//! What is told of a call on the versions.
use ba_tables::Tables;
use std::snapshot::Snapshot;

/// A call with its answer. Its tables stand in contracts alone: an entry holds none.
#[derive(Drop)]
pub enum VersionCall {
    /// The tables were published, as the version of this number.
    Publish(Snapshot<Tables>, u32),
    /// The version of this number was pinned: these are its tables.
    Pin(u32, Snapshot<Tables>),
    /// A pin was refused for want of memory.
    Refused,
}
