//! Laws of the definitions.
ghost use Rattle.ba_sql_syntax.specs.Written.{ReadsGrammar, ReadsOne, RefusesOthers, TellsFirst};

/// Words are read as a text exactly where nothing in them is unsupported and the grammar spells the
/// text so, and no two texts are spelled alike; they are told as unsupported exactly by their first
/// unsupported one; all other words are refused.
pub fn query_form()
    ensures reads { ReadsGrammar }
    ensures unique { ReadsOne }
    ensures first { TellsFirst }
    ensures others { RefusesOthers }
{}
