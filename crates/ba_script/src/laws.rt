//! Laws of the definitions.
ghost use Rattle.ba_script.specs.Script.{ScriptLineIsExact};
ghost use Rattle.ba_script.specs.Scripts.{NullIsNoContext, ScriptIsExact};

/// Which bytes read as which line of a script, which are no JSON, and which are JSON without the
/// shape of a line.
pub fn script_line_is_exact()
    ensures { ScriptLineIsExact }
{}

/// Which bytes are which script, for which parameters, and which are none for which fault.
pub fn script_is_exact()
    ensures { ScriptIsExact }
{}

/// A begin line whose context gives a parameter `null` is no line for its context: a parameter is
/// never NULL.
pub fn null_is_no_context()
    ensures { NullIsNoContext }
{}
