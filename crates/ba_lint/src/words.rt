//! The words of the linter.

use crate::report::Format;
use std::alloc::{AllocError, Global};

/// What is asked for: the names of the files, and how findings are told.
#[derive(Clone, Copy)]
pub struct LintWords<'a> {
    pub schema: &'a str,
    pub policy: &'a str,
    /// The set of table files whose rows are looked at, where one is named.
    pub tables: Option<&'a str>,
    /// The script whose questions are asked, where one is named; then tables are named too.
    pub script: Option<&'a str>,
    pub format: Format,
}

// The options so far.
#[derive(Clone, Copy)]
struct Options<'a> {
    schema: Option<&'a str>,
    policy: Option<&'a str>,
    tables: Option<&'a str>,
    script: Option<&'a str>,
    format: Format,
}

// A value behind its option: one that begins with `-` and is longer stands behind `=`.
fn is_value(word: &str) -> bool {
    word == "-" || !word.starts_with('-')
}

impl<'a> Options<'a> {
    // With one option more, if it has that name and isn't there.
    fn with(self, name: &str, value: &'a str) -> Option<Options<'a>> {
        let value = Some(value);
        match name {
            "--schema" if self.schema.is_none() => Some(Options {
                schema: value,
                ..self
            }),
            "--policy" if self.policy.is_none() => Some(Options {
                policy: value,
                ..self
            }),
            "--tables" if self.tables.is_none() => Some(Options {
                tables: value,
                ..self
            }),
            "--script" if self.script.is_none() => Some(Options {
                script: value,
                ..self
            }),
            _ => None,
        }
    }

    // With `--json`, if it isn't there.
    fn in_json(self) -> Option<Options<'a>> {
        match self.format {
            Format::Text => Some(Options {
                format: Format::Json,
                ..self
            }),
            Format::Json => None,
        }
    }

    // With the option at the front of the words, and those behind it.
    fn past(self, words: &'a [String]) -> Option<(Options<'a>, &'a [String])> {
        let [first, rest @ ..] = words else {
            return Some((self, words));
        };
        let first = first.as_str();
        if first == "--json" {
            return Some((self.in_json()?, rest));
        }
        if let Some((name, value)) = first.split_once('=') {
            return Some((self.with(name, value)?, rest));
        }
        match rest {
            [value, rest @ ..] if is_value(value.as_str()) => {
                Some((self.with(first, value.as_str())?, rest))
            }
            _ => None,
        }
    }
}

impl<'a> LintWords<'a> {
    /// What the words behind `lint` ask for: each option at most once, in any order, as `--option
    /// VALUE` or `--option=VALUE`. `--schema` and `--policy` must be there, and `--tables` beside
    /// `--script`. Nothing, where they have another form.
    pub fn read(words: &'a [String]) -> Option<LintWords<'a>> {
        let mut options = Options {
            schema: None,
            policy: None,
            tables: None,
            script: None,
            format: Format::Text,
        };
        let mut rest = words;
        for _ in 0..words.len() {
            let (next, behind) = options.past(rest)?;
            options = next;
            rest = behind;
        }
        if options.script.is_some() && options.tables.is_none() {
            return None;
        }
        Some(LintWords {
            schema: options.schema?,
            policy: options.policy?,
            tables: options.tables,
            script: options.script,
            format: options.format,
        })
    }

    /// The words of a run of the script over the tables, if both are named.
    pub fn run_words(&self, alloc: Global) -> Result<Option<Vec<String>>, AllocError> {
        let (Some(tables), Some(script)) = (self.tables, self.script) else {
            return Ok(None);
        };
        let mut words = Vec::new(alloc);
        words.push(String::from_str(alloc, "run")?)?;
        push_option(alloc, &mut words, "schema", self.schema)?;
        push_option(alloc, &mut words, "policy", self.policy)?;
        push_option(alloc, &mut words, "tables", tables)?;
        push_option(alloc, &mut words, "script", script)?;
        Ok(Some(words))
    }
}

fn push_option(
    alloc: Global,
    words: &mut Vec<String>,
    name: &str,
    value: &str,
) -> Result<(), AllocError> {
    words.push(format!(in alloc; "--{name}={value}")?)?;
    Ok(())
}
