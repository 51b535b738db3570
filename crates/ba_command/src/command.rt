//! What the words of a command line ask for.

use ba_model::Str;

/// In how many orders of its due steps a proof is searched for where the words don't say.
pub const ORDERS: u32 = 1;

/// A command with its options.
#[derive(Debug, Drop)]
pub enum Command {
    /// `run --schema S --policy P --tables D --script F [--load T] [--proofs] [--workers N] [--budget B]
    /// [--orders N]`
    Run {
        /// The name of the schema's file.
        schema: Str,
        /// The name of the policy's file.
        policy: Str,
        /// The name of the table set.
        tables: Str,
        /// The name of the script's file.
        script: Str,
        /// The name of the file of the templates to begin with, if there is one.
        load: Option<Str>,
        /// Whether each answer's proof and each refuted question's pair are to be printed.
        proofs: bool,
        /// How many workers answer, from 1 to 16; 1 where the words don't say.
        workers: u32,
        /// How many steps a search may take, from 16 to 100,000; 2000 where the words don't say.
        budget: u32,
        /// In how many orders of its due steps a proof is searched for, 1 or 2; 1 where the words don't
        /// say.
        orders: u32,
    },
    /// `store --schema S --policy P --tables D --script F [--workers N] [--budget B] [--orders N]`
    Store {
        /// The name of the schema's file.
        schema: Str,
        /// The name of the policy's file.
        policy: Str,
        /// The name of the table set.
        tables: Str,
        /// The name of the script's file.
        script: Str,
        /// How many workers answer, from 1 to 16; 1 where the words don't say.
        workers: u32,
        /// How many steps a search may take, from 16 to 100,000; 2000 where the words don't say.
        budget: u32,
        /// In how many orders of its due steps a proof is searched for, 1 or 2; 1 where the words don't
        /// say.
        orders: u32,
    },
    /// `check --schema S --policy P --proof F`
    Check {
        /// The name of the schema's file.
        schema: Str,
        /// The name of the policy's file.
        policy: Str,
        /// The name of the proof's file.
        proof: Str,
    },
    /// `gen --seed N --requests R [--workers N] [--print]`
    Gen {
        /// The seed of the workload's script, from 0 to 2^63 - 1.
        seed: u64,
        /// How many requests the script has, from 0 to 8192.
        requests: u32,
        /// How many workers answer, from 1 to 16; 1 where the words don't say.
        workers: u32,
        /// Whether the script is to be printed, and not to be run.
        print: bool,
    },
    /// `audit --schema S --policy P --tables D --script F --output O`
    Audit {
        /// The name of the schema's file.
        schema: Str,
        /// The name of the policy's file.
        policy: Str,
        /// The name of the table set.
        tables: Str,
        /// The name of the script's file.
        script: Str,
        /// The name of the file of the output to be audited.
        output: Str,
    },
}

/// Why words are refused.
#[derive(Clone, Copy, Debug, PartialEq, Eq)]
pub enum WordsFault {
    /// They are no command's form.
    NoForm,
}
