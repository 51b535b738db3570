//! The decision service, and why it ended so.
ghost use Rattle.std.specs.Prelude.{◌≡◌, IfOk, OnErr, map, string_bytes};
ghost use Rattle.ba_explain.specs.Words.{ServedWords, behind};

use crate::ended::{Ended, told_of};
use ba_decide::{Ending, decide};
use ba_input::Detail;
use ba_notice::notice;
use ba_outside::{FolderFiles, Sink};
use ba_source::Source;
use std::alloc::{AllocError, Global};
use std::rt::Files;

// What is told of how the service ended. The names asked for are those of files.
fn ending_text<R: Files + AllocGlobal>(
    rt: &R,
    words: &[String],
    prefix: &str,
    asked: &[String],
    ending: Ending,
) -> Result<String, AllocError> {
    let alloc = rt.alloc();
    let detail = match ending {
        Ending::Done => Detail::Done,
        Ending::Fault(fault) => Detail::Fault(fault),
        Ending::Read => {
            return String::from_str(alloc, "blockaid: standard input could not be read");
        }
        Ending::Write => Detail::Write,
        Ending::Memory => {
            return String::from_str(
                alloc,
                "blockaid: memory ran out, and no line is taken any more",
            );
        }
    };
    notice(rt, words, prefix, asked, &detail, None)
}

/// The words behind the first.
fn words_behind(words: &[String]) -> &[String]
    ensures { map string_bytes result.now ≡ behind (map string_bytes words.now) }
{
    match words {
        [] => &[],
        [_, rest @ ..] => rest,
    }
}

/// Runs the decision service on the words, of which the first is the command's, over the files of a
/// folder: the names in the words stand behind the prefix. What the service promises of its words,
/// its lines and its answers is so. What is told of its end comes when it has ended.
///
/// # Errors
/// `AllocError` where there was no memory to begin; then no line is taken, and nothing is written.
pub fn serve_words<R, L, S>(
    rt: &R,
    words: &[String],
    prefix: &str,
    source: &mut L,
    sink: &mut S,
) -> Result<Ended, AllocError>
where
    R: Files + AllocGlobal + Clone + Drop,
    L: Source,
    S: Sink,
    ensures served { IfOk result (λ ended. ServedWords (map string_bytes words.now)
        (L.seen source.old) (L.seen source.new) (S.seen sink.old) (S.seen sink.new) ended.status) }
    ensures early { OnErr result ((L.seen source.new ≡ L.seen source.old)
        × (S.seen sink.new ≡ S.seen sink.old)) }
{
    let alloc = rt.alloc();
    let Ok(system) = rt.clone() else {
        return Err(AllocError);
    };
    let mut files = FolderFiles::new(system, alloc, prefix);
    let ending = decide(alloc, words_behind(words), &mut files, source, sink);
    let status = ending.status();
    let line = ending_text(rt, words, prefix, files.asked(), ending);
    Ok(Ended {
        status,
        told: told_of(alloc, line),
    })
}
