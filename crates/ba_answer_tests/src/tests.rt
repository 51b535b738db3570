mod answers;
mod equations;
mod events;
mod given;
mod plain;
mod proofs;
mod steps;
mod tables;
mod templates;
mod written;

use std::process::Abort;

/// What a test has: memory, and an end of the process where there is none.
pub trait Handle: AllocGlobal + Abort {}

impl<R: AllocGlobal + Abort> Handle for R {}
