//! The decision service over standard input and output.

use crate::{end_early, tell};
use ba_explain::serve_words;
use ba_outside::StdSink;
use ba_source::StdSource;
use std::rt::Files;

/// Serves the lines of standard input as the words say, of which the first is `decide`, and gives
/// the status.
pub fn serve_lines<R>(rt: &R, words: &[String]) -> u8
where
    R: Files + AllocGlobal + Input + Print + Eprint + Clone + Drop,
{
    let Ok(mut source) = StdSource::new(rt.reader(), rt.alloc()) else {
        return end_early(rt);
    };
    let mut sink = StdSink::new(std::io::writer(rt));
    match serve_words(rt, words, "", &mut source, &mut sink) {
        Ok(ended) => tell(rt, &ended),
        Err(_) => end_early(rt),
    }
}
