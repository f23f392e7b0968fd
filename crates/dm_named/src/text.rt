//! White space, words, lines and patch infos at places of a text. The readers of named patches and of bundles share these.

ghost use Rattle.std.specs.Prelude.{◌≡◌, ◌≤◌, ◌<◌, ◌+◌, ◌∷◌, length, drop, IfOk, IfErr, MatchBool};
ghost use Rattle.dm_info.specs.Spelling.{Stands};
ghost use Rattle.dm_named.specs.Words.{is_white, skipped, Word, Line, Begins};
ghost use Rattle.dm_named.specs.Faults.{InfoFaultAt};

use crate::fault::{FaultKind, ReadFault};
use dm_info::{Info, read_info};
use memchr::memchr;
use std::alloc::Allocator;

/// Whether a byte is white space.
pub fn is_white(byte: u8) -> bool
    ensures { result ≡ is_white byte }
{
    (9 <= byte && byte <= 13) || byte == 32
}

/// The place after the white space that begins at a place.
pub fn skip(text: &[u8], at: usize) -> usize
    requires { at ≤ length text.now }
    ensures rest { drop result text.now ≡ skipped (drop at text.now) }
    ensures within { result ≤ length text.now }
    ensures forward { at ≤ result }
{
    let mut at = at;
    while at < text.len() && is_white(text[at]) {
        at += 1;
    }
    at
}

/// The bytes from a place up to white space, and the place after them.
pub fn word_at(text: &[u8], at: usize) -> (&[u8], usize)
    requires { at ≤ length text.now }
    ensures word { Word (drop at text.now) result.0.now (drop result.1 text.now) }
    ensures within { result.1 ≤ length text.now }
    ensures forward { at ≤ result.1 }
{
    let mut end = at;
    while end < text.len() && !is_white(text[end]) {
        end += 1;
    }
    (&text[at..end], end)
}

/// Whether the text has this byte at a place.
pub fn begins_at(text: &[u8], at: usize, byte: u8) -> bool
    requires { at ≤ length text.now }
    ensures { MatchBool result ((drop at text.now ≡ byte ∷ drop (at + 1) text.now) × (at < length text.now)) (Begins byte (drop at text.now) → ⊥) }
{
    at < text.len() && text[at] == byte
}

/// The line that begins at a place, and the place after its newline, or the end of the text.
pub fn line_at(text: &[u8], at: usize) -> (&[u8], usize)
    requires { at ≤ length text.now }
    ensures line { Line (drop at text.now) result.0.now (drop result.1 text.now) }
    ensures within { result.1 ≤ length text.now }
    ensures forward { at ≤ result.1 }
{
    match memchr(b'\n', &text[at..]) {
        Some(i) => (&text[at..at + i], at + i + 1),
        None => (&text[at..], text.len()),
    }
}

/// The patch info at a place, and the place after its closing bracket. A fault has the place that was passed in.
pub fn info_at<A: Allocator + Copy>(
    alloc: A,
    text: &[u8],
    at: usize,
) -> Result<(Info<A>, usize), ReadFault>
    ensures ok { IfOk result (λ x. Stands (drop at text.now) x.0 (drop x.1 text.now)) }
    ensures within { IfOk result (λ x. x.1 ≤ length text.now) }
    ensures forward { IfOk result (λ x. at < x.1) }
    ensures err { IfErr result (λ e. InfoFaultAt e.kind (drop at text.now) (drop e.at text.now)) }
    ensures place { IfErr result (λ e. e.at ≡ at) }
{
    match read_info(alloc, text, at) {
        Ok((info, next)) => Ok((info, next)),
        Err(fault) => Err(ReadFault {
            kind: FaultKind::from(fault),
            at,
        }),
    }
}
