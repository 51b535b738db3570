//! The lines of a script, one by one.
ghost use Rattle.std.specs.Prelude.{◌≡◌, ◌==◌, ◌<◌, ◌∷◌, length, position};
ghost use Rattle.std.specs.Str.Lines.{strip_carriage_return};
ghost use Rattle.ba_script.specs.Lines.{script_lines};

use std::marker::Model;

/// The lines of a script that are left, which a contract sees as their list.
#[derive(Drop)]
pub struct Lines<'a> {
    rest: &'a [u8],
}

impl<'a> Model for Lines<'a> {
    ghost use Rattle.std.specs.Prelude.{ℕ, List};
    ghost use Rattle.ba_script.specs.Lines.{script_lines};

    ghost Value = { List (List ℕ) };

    ghost view = { λ it. script_lines it.rest.now };
}

/// The lines of a script's bytes, which are not copied. A line feed ends each, but the last may do
/// without. A carriage return before a line feed is dropped.
pub fn script_lines(bytes: &[u8]) -> Lines<'_>
    ensures { result ≡ script_lines bytes.now }
{
    Lines { rest: bytes }
}

/// How many lines the bytes have.
pub fn count_lines(bytes: &[u8]) -> usize
    ensures { result ≡ length (script_lines bytes.now) }
{
    script_lines(bytes).count()
}

impl<'a> Iterator for Lines<'a> {
    ghost use Rattle.std.specs.Iterator.{YieldsFirstRef, item_count};

    type Item = &'a [u8];

    ghost next_gives = { YieldsFirstRef (λ left. left) };

    ghost remaining = { item_count (λ left. left) };

    fn next(&mut self) -> Option<&'a [u8]> {
        let rest = self.rest;
        if rest.is_empty() {
            return None;
        }
        let (line, after) = first_line(rest);
        self.rest = after;
        Some(line)
    }
}

// The first line, and the bytes after it.
fn first_line(bytes: &[u8]) -> (&[u8], &[u8])
    requires { 0 < length bytes.now }
    ensures { script_lines bytes.now ≡ result.0.now ∷ script_lines result.1.now }
{
    match line_end(bytes) {
        Some(end) => (without_return(&bytes[..end]), &bytes[end + 1..]),
        None => bytes.split_at(bytes.len()),
    }
}

fn line_end(bytes: &[u8]) -> Option<usize>
    ensures { result ≡ position (λ b. b == 10) bytes.now }
{
    bytes.iter().position(|b| *b == b'\n')
}

fn without_return(line: &[u8]) -> &[u8]
    ensures { result.now ≡ strip_carriage_return line.now }
{
    match line {
        [front @ .., b'\r'] => front,
        _ => line,
    }
}
