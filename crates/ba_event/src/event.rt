//! One line of a conversation.
ghost use Rattle.ba_model.specs.Readings.{Gives};
ghost use Rattle.ba_event.specs.Events.{event_of, of_script_line};

use crate::told::read_told;
use ba_model::{Failure, List, Row, Str};
use ba_script::{LineFault, Member, ScriptLine, read_line};
use std::alloc::Global;

/// What a line says. The names of requests have 1 to 64 bytes.
#[derive(Debug, Drop)]
pub enum Event {
    /// `{"begin":NAME,"context":{PARAM:value,..}}`: the context has each name once, in the order of
    /// their bytes.
    Begin {
        name: Str,
        context: List<Member>,
    },
    /// `{"ask":NAME,"query":TEXT}`
    Ask {
        name: Str,
        query: Str,
    },
    /// `{"args":{ARGUMENT:value,..},"key":KEY,"read":NAME}`: the arguments as a context; the name
    /// of a cache key may have any length.
    Read {
        name: Str,
        key: Str,
        args: List<Member>,
    },
    /// `{"rows":[[value,..],..],"told":LINE}`: a value is `null`, a whole number of 64 bits with a
    /// sign, or a text.
    Told {
        line: u64,
        rows: List<Row>,
    },
    /// `{"end":NAME}`
    End {
        name: Str,
    },
}

/// Why bytes are no line of a conversation.
#[derive(Clone, Copy, Debug, PartialEq, Eq)]
pub enum EventFault {
    /// They aren't UTF-8, or no JSON value.
    Json,
    /// The JSON value isn't an object with exactly the keys of one form, each with its type and
    /// length.
    Shape,
}

/// What a line of a script is in a conversation, where no table set is published.
fn of_script_line(line: ScriptLine) -> Result<Event, Failure<EventFault>>
    ensures { Gives result (of_script_line line) }
{
    match line {
        ScriptLine::Begin { begin, context } => Ok(Event::Begin {
            name: begin,
            context,
        }),
        ScriptLine::Ask { ask, query } => Ok(Event::Ask { name: ask, query }),
        ScriptLine::Read { read, key, args } => Ok(Event::Read {
            name: read,
            key,
            args,
        }),
        ScriptLine::End { end } => Ok(Event::End { name: end }),
        ScriptLine::Publish { .. } => Err(Failure::Fault(EventFault::Shape)),
    }
}

/// What the bytes of a line, without their line feed, say; else `Json` or `Shape`. Where an object
/// has a key twice, its last value counts.
pub fn read_event(alloc: Global, bytes: &[u8]) -> Result<Event, Failure<EventFault>>
    ensures { Gives result (event_of bytes.now) }
{
    match read_line(alloc, bytes) {
        Ok(line) => of_script_line(line),
        Err(Failure::Fault(LineFault::Json)) => Err(Failure::Fault(EventFault::Json)),
        Err(Failure::Fault(_)) => read_told(alloc, bytes),
        Err(Failure::NoMemory) => Err(Failure::NoMemory),
    }
}
