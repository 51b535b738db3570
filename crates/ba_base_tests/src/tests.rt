mod cache;
mod copies;
mod files;
mod gates;
mod plain;
mod shelves;
mod sinks;
mod templates;
mod turns;
mod versions;

use std::process::Abort;

/// What a test has: memory, and an end of the process where there is none.
pub trait Handle: AllocGlobal + Abort {}

impl<R: AllocGlobal + Abort> Handle for R {}
