//! The words of a run.

use ba_command::{Command, WordsFault, read_words};
use ba_model::{Failure, Str};
use std::alloc::Global;

/// Which questions of the script are explained.
#[derive(Clone, Copy)]
pub enum Wanted {
    All,
    /// The one at the line of this number, from 1.
    Line(u64),
}

/// The names of the files whose bytes are kept to explain a run, and in how many orders it
/// searches.
#[derive(Drop)]
pub struct Names {
    pub schema: Str,
    pub policy: Str,
    pub script: Str,
    pub orders: u32,
}

impl Names {
    /// The names in the words of a run.
    pub fn read(alloc: Global, words: &[String]) -> Result<Names, Failure<WordsFault>> {
        let command = read_words(alloc, words)?;
        match command {
            Command::Run {
                schema,
                policy,
                script,
                orders,
                ..
            } => Ok(Names {
                schema,
                policy,
                script,
                orders,
            }),
            _ => Err(Failure::Fault(WordsFault::NoForm)),
        }
    }

    /// All names.
    pub fn all(&self) -> [&str; 3] {
        [
            self.schema.as_str(),
            self.policy.as_str(),
            self.script.as_str(),
        ]
    }
}
