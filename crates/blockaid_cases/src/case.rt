// A case: what the program is run on, how the run ends and how it must end.
use ba_explain::{Asked, Ended, Telling, USUAL_COLUMNS, Wanted, explain, run_words};
use ba_outside::{FreeGate, MemSink};
use std::alloc::{AllocError, Global};
use std::rt::Files;
use std::sync::Wait;
use std::thread::Threads;
use std::{fs, io};

/// The end of a run: its status, what it wrote, and the line on why it ended so, where the case has one.
#[derive(PartialEq, Eq, Drop)]
pub struct End {
    pub status: u8,
    pub text: Vec<u8>,
    pub hint: String,
}

/// What is told of the replies of a run in words, and what must be told.
#[derive(Drop)]
pub struct Reasons {
    pub told: Vec<u8>,
    pub wanted: Vec<u8>,
}

// A line without the way in which its question was answered, where another order of the workers may find another: a proof, or the template of one.
fn without_way(line: &[u8]) -> &[u8] {
    for way in ["{\"by\":\"proof\"", "{\"by\":\"template\""] {
        if let Some(rest) = line.strip_prefix(way.as_bytes()) {
            return rest;
        }
    }
    without_ways(line)
}

// A line without the ways in which the queries of its read would be answered.
fn without_ways(line: &[u8]) -> &[u8] {
    let Some(ways) = line.strip_prefix("{\"by\":[".as_bytes()) else {
        return line;
    };
    match ways.iter().position(|byte| *byte == b']') {
        Some(end) => ways.get(end..).unwrap_or(line),
        None => line,
    }
}

impl End {
    /// Whether it is the other one, but for which answers are by proof and which by template.
    pub fn is_like(&self, other: &End) -> bool {
        let mut lines = other.text.split(|byte| *byte == b'\n');
        for line in self.text.split(|byte| *byte == b'\n') {
            match lines.next() {
                Some(it) if without_way(it) == without_way(line) => {}
                _ => return false,
            }
        }
        self.status == other.status && lines.next().is_none()
    }
}

/// A case: the words of a run, without the program's name, and the end that it must have.
#[derive(Drop)]
pub struct Case {
    words: String,
    pub wanted: End,
    /// Whether it has a line on why its run ends so.
    has_hint: bool,
    /// What must be told of its run's replies in words, where it has that.
    why: Option<String>,
    /// Whether several workers must end it alike: it is a run that leaves their number open and publishes nothing, and its folder has
    /// no file `order`, which tells why its lines go by who comes first.
    pub is_for_many: bool,
}

// The words of a text with one on each line.
fn words_of(alloc: Global, text: &str) -> Result<Vec<String>, AllocError> {
    let mut words = Vec::new(alloc);
    for word in text.split_terminator('\n') {
        words.push(String::from_str(alloc, word)?)?;
    }
    Ok(words)
}

// The text of a folder's file.
fn text_in<R: Files + AllocGlobal>(rt: &R, folder: &str, name: &str) -> io::Result<String> {
    let path = format!(in rt.alloc(); "{folder}/{name}")?;
    fs::read_to_string(rt, path.as_str())
}

/// The text of a folder's file, where there is such a file.
pub fn text_if_there<R: Files + AllocGlobal>(
    rt: &R,
    folder: &str,
    name: &str,
) -> io::Result<Option<String>> {
    let path = format!(in rt.alloc(); "{folder}/{name}")?;
    let is_there = fs::exists(rt, path.as_str())?;
    if is_there {
        Ok(Some(text_in(rt, folder, name)?))
    } else {
        Ok(None)
    }
}

impl Case {
    /// The case of that folder.
    pub fn read<R: Files + AllocGlobal>(rt: &R, folder: &str) -> io::Result<Case> {
        let words = text_in(rt, folder, "words")?;
        let text = text_in(rt, folder, "expected")?;
        let number = text_in(rt, folder, "status")?;
        let Ok(status) = number.trim_end().parse::<u8>() else {
            return Err(io::Error::from(io::ErrorKind::InvalidData));
        };
        let hint = text_if_there(rt, folder, "hint")?;
        let has_hint = hint.is_some();
        let why = text_if_there(rt, folder, "why")?;
        let is_for_many = words.starts_with("run\n")
            && !words.contains("--workers")
            && !text.contains("\"publish\":")
            && text_in(rt, folder, "order").is_err();
        Ok(Case {
            words,
            wanted: End {
                status,
                text: text.into_bytes(),
                hint: hint.unwrap_or(String::new(rt.alloc())),
            },
            has_hint,
            why,
            is_for_many,
        })
    }

    /// The end of the case's run, with more words, over the files of that folder.
    pub fn run<R>(&self, rt: &R, folder: &str, more: &str) -> io::Result<End>
    where
        R: Files + AllocGlobal + Threads + Wait + Sync + Clone + Drop,
    {
        let alloc = rt.alloc();
        let prefix = format!(in alloc; "{folder}/")?;
        let mut sink = MemSink::new(alloc, Vec::new(alloc), Vec::new(alloc));
        let text = format!(in alloc; "{}{more}", self.words)?;
        let words = words_of(alloc, text.as_str())?;
        let Ended { status, told } = run_words(rt, &words, prefix.as_str(), &mut sink, &FreeGate)?;
        let line = told.unwrap_or(String::new(alloc));
        let hint = if self.has_hint {
            line
        } else {
            String::new(alloc)
        };
        Ok(End {
            status,
            text: sink.bytes().to_vec(alloc)?,
            hint,
        })
    }

    /// The reasons of the case's run over the files of that folder, where the case says what they must be.
    pub fn reasons<R>(&self, rt: &R, folder: &str) -> io::Result<Option<Reasons>>
    where
        R: Files + AllocGlobal + Threads + Wait + Sync + Clone + Drop,
    {
        let Some(wanted) = &self.why else {
            return Ok(None);
        };
        let alloc = rt.alloc();
        let told = self.told(rt, folder)?;
        let wanted = wanted.as_bytes().to_vec(alloc)?;
        Ok(Some(Reasons { told, wanted }))
    }

    // What is told of the replies of the case's run in words.
    fn told<R>(&self, rt: &R, folder: &str) -> io::Result<Vec<u8>>
    where
        R: Files + AllocGlobal + Threads + Wait + Sync + Clone + Drop,
    {
        let alloc = rt.alloc();
        let prefix = format!(in alloc; "{folder}/")?;
        let words = words_of(alloc, self.words.as_str())?;
        let asked = Asked {
            words: &words,
            prefix: prefix.as_str(),
            telling: Telling {
                wanted: Wanted::All,
                columns: USUAL_COLUMNS,
            },
        };
        let mut told = Vec::new(alloc);
        match explain(rt, &asked, &mut told) {
            Ok(_) => Ok(told),
            Err(_) => Err(io::Error::from(io::ErrorKind::InvalidInput)),
        }
    }
}
