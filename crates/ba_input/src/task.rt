//! What is done, with what was read for it.

use crate::input::Input;
use ba_model::{List, Str};
use ba_proof::Proof;

/// What is told of a run. How it is told is no part of what the run is given.
#[derive(Clone, Copy, Debug, PartialEq, Eq)]
pub enum Told {
    /// A line for each line of the script, in order, and then the summary.
    Lines,
    /// The same, where the line of an answer has its proof and that of a refuted question its pair.
    Proofs,
    /// The summary alone.
    Summary,
    /// The templates that the shelves are left with, a line for each, and nothing else.
    Templates,
}

/// What is done, with what was read for it.
#[derive(Drop)]
pub enum Task {
    /// The questions of a script are answered or blocked, and this is told of it.
    Run(Input, Told),
    /// A text is printed, line by line.
    Print(Str),
    /// A proof is checked.
    Check(Proof),
    /// These bytes are audited, as what a run of the input wrote. How many workers that run had, and how
    /// it searched, is not known, and the input has what is usual there.
    Audit(Input, List<u8>),
}
