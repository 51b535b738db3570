//! What an event is answered.
ghost use Rattle.std.specs.Prelude.{IfOk};
ghost use Rattle.ba_live.specs.Subjects.{IsAbout};

use ba_event::Event;
use ba_judge::{Allowed, Read, Reason};
use ba_model::{Duplicate, Str};
use ba_sql_query::ReadQueryFault;
use std::alloc::{AllocError, Global};

/// Why a line changes nothing. Of several reasons the first of this order is told.
#[derive(Clone, Copy, Debug, PartialEq, Eq)]
pub enum Refusal {
    /// It has more bytes than a line may have.
    Long,
    /// It isn't UTF-8, or no JSON value.
    Json,
    /// It isn't an object with exactly the keys of one form, each with its type and length.
    Shape,
    /// It begins a request whose name is open.
    Begun,
    /// It asks, reads or ends a request whose name isn't open.
    Unbegun,
    /// It asks, reads or tells of a request that was closed, since what it was told contradicts
    /// itself.
    Closed,
    /// Its context lacks a parameter, has another name, or a value that isn't of its parameter's
    /// kind.
    Context,
    /// It begins a request where as many as may be are open.
    Requests,
    /// It reads a cache key that the policy hasn't.
    Key,
    /// Its arguments lack one of the key's, have another name, or a value that isn't of its kind.
    Args,
    /// It asks, or reads a key, where its request would come to more questions than it may ask.
    Asks,
    /// It asks a question that says IS NULL of a column that has no NULL, by which the database finds
    /// rows that the question hasn't.
    NullTest,
    /// It asks a question with a text that has the byte 0, which databases don't take.
    ZeroByte,
    /// It asks a question whose text for the database would have too many bytes.
    LongSend,
    /// It tells rows of a line that is no allowed question of an open request, or was told.
    Unasked,
    /// It tells more rows of a question than may be.
    Rows,
    /// It tells a row that can be of no part of its question.
    Misfit,
}

/// What an event is answered.
#[derive(Drop)]
pub enum Decision {
    /// The request is open.
    Begun,
    /// The question may be put to the database, by this text. Its rows may be told.
    Allowed { by: Allowed, send: Str },
    /// The question may not be put to the database.
    Blocked(Reason),
    /// The text reads as no query: its first fault.
    Unread(ReadQueryFault),
    /// Whether what the application's cache holds under the key may be shown.
    Read(Read),
    /// The rows are recorded.
    Told,
    /// What the request was told, with the rows of this line if it tells some, can be in no
    /// database. The request is closed: from now on it can only end.
    Contradiction,
    /// The request is gone, with all that it was told.
    Ended,
    /// There was no memory.
    Memory,
    /// The line changes nothing.
    Refused(Refusal),
}

/// Whom an event is about.
#[derive(Debug, Drop)]
pub enum Subject {
    /// The request of this name.
    Request(Str),
    /// A cache key of the request of this name.
    Key { name: Str, key: Str },
    /// The question of this line.
    Line(u64),
    /// Nobody: the line says nothing.
    Nobody,
}

impl Subject {
    /// Whom the event is about.
    pub fn of(alloc: Global, event: &Event) -> Result<Subject, AllocError>
        ensures { IfOk result (IsAbout event.now) }
    {
        match event {
            Event::Begin { name, .. } | Event::Ask { name, .. } | Event::End { name } => {
                Ok(Subject::Request(name.copy(alloc)?))
            }
            Event::Read { name, key, .. } => {
                let name = name.copy(alloc)?;
                let key = key.copy(alloc)?;
                Ok(Subject::Key { name, key })
            }
            Event::Told { line, .. } => Ok(Subject::Line(*line)),
        }
    }
}
