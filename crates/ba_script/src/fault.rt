//! Why bytes are no script.

use ba_model::Counted;

/// Why a line of a script is none, after the lines before it. Of several reasons the first of this
/// order is told.
#[derive(Clone, Copy, Debug, PartialEq, Eq)]
pub enum LineFault {
    /// It isn't UTF-8, or no JSON value.
    Json,
    /// The JSON value isn't an object with exactly the keys of one form, each with its type and
    /// length.
    Shape,
    /// It begins a request whose name is open.
    Begun,
    /// It asks, reads or ends a request whose name isn't open.
    Unbegun,
    /// It reads a cache key that the policy hasn't.
    Key,
    /// Its arguments aren't those of its cache key: one is lacking, has another name, or a value
    /// that isn't of its kind, as `null` never is.
    Args,
    /// Its context lacks a parameter, has another name, or a value that isn't of its parameter's
    /// kind, as `null` never is.
    Context,
}

/// Why bytes are no script.
#[derive(Clone, Copy, Debug, PartialEq, Eq)]
pub enum ScriptFault {
    /// The line with this number, from 1, is none after the lines before it.
    BadLine { line: u64, reason: LineFault },
    /// More lines, requests, or questions of a request, than the limit.
    TooMany { what: Counted, limit: u64 },
}
