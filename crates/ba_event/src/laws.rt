//! Laws of the definitions.
ghost use Rattle.ba_event.specs.Events.{EventIsExact};

/// Which bytes read as which event, which are no JSON, and which are JSON without the shape of an
/// event.
pub fn event_is_exact()
    ensures { EventIsExact }
{}
