//! Laws of the definitions.
ghost use Rattle.ba_script_print.specs.ReadBack.{OnlySpelledAreRead, TextReadsBack};

/// The text of each script that can be spelled is read as that script, for the same parameters and
/// cache keys, where its texts are UTF-8 and its whole numbers have 64 bits, as all in memory.
pub fn text_reads_back()
    ensures { TextReadsBack }
{}

/// Whatever bytes are read as a script, it is one that can be spelled.
pub fn only_spelled_are_read()
    ensures { OnlySpelledAreRead }
{}
