//! A place in a text, as people count.
ghost use Rattle.std.specs.Prelude.{◌≡◌, ◌+◌, ◌≤◌, ℕ, length, drop, take};
ghost use Rattle.dm_explain.specs.Places.{IsLineEnd, IsLineStart, newlines};

use memchr::{memchr, memrchr};

/// A line of a text, and a place in it. Lines and columns count from 1; a column is a byte.
#[derive(Clone, Copy, PartialEq, Eq, Debug)]
pub struct Place {
    /// The number of the line.
    pub line: usize,
    /// Where the line begins in the text.
    pub start: usize,
    /// Where it ends, before its newline or with the text.
    pub end: usize,
}

/// How many newlines there are.
fn newlines_in(text: &[u8]) -> usize
    ensures count { result ≡ newlines text.now }
    ensures few { result ≤ length text.now }
{
    let mut count = 0;
    for k in 0..text.len() {
        if text[k] == b'\n' {
            count += 1;
        }
    }
    count
}

/// Where the line begins that ends a text.
fn last_line(text: &[u8]) -> usize
    ensures { IsLineStart text.now result }
{
    match memrchr(b'\n', text) {
        Some(at) => at + 1,
        None => 0,
    }
}

/// Where the line ends that begins a text.
fn first_end(text: &[u8]) -> usize
    ensures { IsLineEnd text.now result }
{
    match memchr(b'\n', text) {
        Some(at) => at,
        None => text.len(),
    }
}

/// The line of a place in a text.
pub fn place_of(text: &[u8], at: usize) -> Place
    requires { at ≤ length text.now }
    ensures line { result.line ≡ newlines (take at text.now) + 1 }
    ensures start { IsLineStart (take at text.now) result.start }
    ensures end { (after : ℕ) × IsLineEnd (drop at text.now) after × (result.end ≡ at + after) }
{
    let before = &text[..at];
    Place {
        line: newlines_in(before) + 1,
        start: last_line(before),
        end: at + first_end(&text[at..]),
    }
}
