//! Words that are no command's form.

use ba_place::{WORD_CHARS, shown};
use std::alloc::{AllocError, Global};

/// A command.
#[derive(Clone, Copy)]
enum Form {
    Run,
    Check,
    Gen,
    Store,
    Audit,
    Decide,
}

static RUN_NEEDS: [&str; 4] = ["--schema", "--policy", "--tables", "--script"];

static RUN_TAKES: [&str; 5] = ["--load", "--proofs", "--workers", "--budget", "--orders"];

static STORE_TAKES: [&str; 3] = ["--workers", "--budget", "--orders"];

static CHECK_NEEDS: [&str; 3] = ["--schema", "--policy", "--proof"];

static GEN_NEEDS: [&str; 2] = ["--seed", "--requests"];

static GEN_TAKES: [&str; 2] = ["--workers", "--print"];

static DECIDE_NEEDS: [&str; 2] = ["--schema", "--policy"];

static DECIDE_TAKES: [&str; 5] = [
    "--load",
    "--budget",
    "--evidence",
    "--database",
    "--namespace",
];

static AUDIT_NEEDS: [&str; 5] = ["--schema", "--policy", "--tables", "--script", "--output"];

// How all commands are written.
const USAGE: &str =
    "usage: blockaid run --schema S --policy P --tables D --script F [--load T] [--proofs] [--workers N] [--budget B] [--orders K], blockaid store with the options of run but --load and --proofs, blockaid check --schema S --policy P --proof F, blockaid gen --seed N --requests R [--workers N] [--print], blockaid audit --schema S --policy P --tables D --script F --output O, or blockaid decide --schema S --policy P [--load T] [--budget B] [--evidence] [--database D] [--namespace N]";

// The option of a word: what stands before its `=`.
fn option_of(word: &str) -> &str {
    match word.split_once('=') {
        Some((option, _)) => option,
        None => word,
    }
}

fn has_option(words: &[String], option: &str) -> bool {
    for word in words {
        if option_of(word.as_str()) == option {
            return true;
        }
    }
    false
}

impl Form {
    fn of(word: &str) -> Option<Form> {
        match word {
            "run" => Some(Form::Run),
            "check" => Some(Form::Check),
            "gen" => Some(Form::Gen),
            "store" => Some(Form::Store),
            "audit" => Some(Form::Audit),
            "decide" => Some(Form::Decide),
            _ => None,
        }
    }

    fn name(self) -> &'static str {
        match self {
            Form::Run => "run",
            Form::Check => "check",
            Form::Gen => "gen",
            Form::Store => "store",
            Form::Audit => "audit",
            Form::Decide => "decide",
        }
    }

    fn usage(self) -> &'static str {
        match self {
            Form::Run => {
                "usage: blockaid run --schema S --policy P --tables D --script F [--load T] [--proofs] [--workers N] [--budget B] [--orders K], N from 1 to 16, B from 16 to 100000, K 1 or 2"
            }
            Form::Check => "usage: blockaid check --schema S --policy P --proof F",
            Form::Gen => {
                "usage: blockaid gen --seed N --requests R [--workers W] [--print], N from 0 to 9223372036854775807, R from 0 to 8192, W from 1 to 16"
            }
            Form::Store => {
                "usage: blockaid store --schema S --policy P --tables D --script F [--workers N] [--budget B] [--orders K], N from 1 to 16, B from 16 to 100000, K 1 or 2"
            }
            Form::Audit => {
                "usage: blockaid audit --schema S --policy P --tables D --script F --output O"
            }
            Form::Decide => {
                "usage: blockaid decide --schema S --policy P [--load T] [--budget B] [--evidence] [--database D] [--namespace N], B from 16 to 100000, D postgresql, sqlite or mysql"
            }
        }
    }

    // The options that it needs.
    fn needs(self) -> &'static [&'static str] {
        match self {
            Form::Run | Form::Store => &RUN_NEEDS,
            Form::Check => &CHECK_NEEDS,
            Form::Gen => &GEN_NEEDS,
            Form::Audit => &AUDIT_NEEDS,
            Form::Decide => &DECIDE_NEEDS,
        }
    }

    // The options that it may have beside these.
    fn takes(self) -> &'static [&'static str] {
        match self {
            Form::Run => &RUN_TAKES,
            Form::Check | Form::Audit => &[],
            Form::Gen => &GEN_TAKES,
            Form::Store => &STORE_TAKES,
            Form::Decide => &DECIDE_TAKES,
        }
    }

    // The first word that begins like an option and is none of its own.
    fn stranger(self, words: &[String]) -> Option<&str> {
        for word in words {
            let option = option_of(word.as_str());
            if option.starts_with("--")
                && option.len() > 2
                && !self.needs().contains(&option)
                && !self.takes().contains(&option)
            {
                return Some(option);
            }
        }
        None
    }

    // The first option that it needs and the words lack.
    fn lacking(self, words: &[String]) -> Option<&'static str> {
        for needed in self.needs() {
            if !has_option(words, *needed) {
                return Some(*needed);
            }
        }
        None
    }

    // Why the words behind its name are none of its form.
    fn text(self, alloc: Global, words: &[String]) -> Result<String, AllocError> {
        let name = self.name();
        let usage = self.usage();
        if let Some(option) = self.stranger(words) {
            let option = shown(alloc, option.as_bytes(), WORD_CHARS)?;
            return format!(in alloc; "blockaid: {name} has no option {option}; {usage}");
        }
        match self.lacking(words) {
            Some(option) => format!(in alloc; "blockaid: {name} lacks {option}; {usage}"),
            None => format!(in alloc;
                "blockaid: an option stands twice or without its value, a number is out of its range, or a word is too much; {usage}"
            ),
        }
    }
}

/// Why words are no command's form.
pub fn words_text(alloc: Global, words: &[String]) -> Result<String, AllocError> {
    let [first, rest @ ..] = words else {
        return format!(in alloc; "blockaid: {USAGE}");
    };
    match Form::of(first.as_str()) {
        Some(form) => form.text(alloc, rest),
        None if first.starts_with("-") => format!(in alloc; "blockaid: {USAGE}"),
        None => {
            let word = shown(alloc, first.as_bytes(), WORD_CHARS)?;
            format!(in alloc; "blockaid: {word} is no command; {USAGE}")
        }
    }
}
