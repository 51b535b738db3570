//! What a script says.

use ba_model::{Context, List, Str};

/// What a line of a script says. Requests are numbered by their begin lines, from 0; at the line of
/// an entry that has a request this is open under the name, or begins.
#[derive(Debug, Drop)]
pub enum ScriptEntry {
    /// The request begins, with a value of its kind for each parameter of the policy.
    Begin {
        request: u32,
        name: Str,
        context: Context,
    },
    /// The request asks.
    Ask {
        request: u32,
        name: Str,
        query: Str,
    },
    /// The request reads the cache key with this number among the policy's, from 0, with a value of
    /// its kind for each of its arguments. The read counts as many questions as the key has
    /// queries.
    Read {
        request: u32,
        name: Str,
        key: usize,
        arguments: Context,
        questions: u32,
    },
    /// The request ends, and its name with it, which may begin another one.
    End {
        request: u32,
        name: Str,
    },
    /// A table set is published. Publish lines are numbered from 0.
    Publish {
        number: u32,
        set: Str,
    },
}

/// An entry for each line, in order. Requests that no entry ends end with the script.
#[derive(Debug, Drop)]
pub struct Script {
    pub entries: List<ScriptEntry>,
}
