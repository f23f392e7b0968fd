//! Reading from the front of a slice.

ghost use Rattle.std.specs.Prelude.{◌≡◌, ◌≤◌, ◌∷◌, length, drop, ℕ, List, false, map, MatchOption, MatchResult, ◌≢◌, IfOk, IfErr};
ghost use Rattle.memchr.specs.Find.{is_byte2};
ghost use Rattle.dm_info.specs.PatchInfo.{PatchInfo, is_newline, ends_author, ends_date};
ghost use Rattle.dm_info.specs.Spelling.{StandsFrom, StandsInverted};
ghost use Rattle.dm_info.specs.Refusals.{HasReadFault};
ghost use Rattle.dm_info.specs.Reading.{Gives, Lacks, Cut, cut, after, star_after, author_at, log_from, end_at, info_at};

use crate::fault::InfoReadFault;
use crate::info::Info;
use crate::opening::Opening;
use memchr::{memchr, memchr2};
use std::alloc::Allocator;

/// The line at the front, and what stands after its newline.
fn line_of(text: &[u8]) -> Result<(&[u8], &[u8]), InfoReadFault>
    ensures { Gives (λ x. record { front = x.0.now; byte = 10; rest = x.1.now }) result (cut is_newline text.now) }
{
    match memchr(b'\n', text) {
        Some(i) => Ok((&text[..i], &text[i + 1..])),
        None => Err(InfoReadFault::BadInfo),
    }
}

/// What stands before the first of two bytes, that byte, and what stands after it.
fn cut_of(a: u8, b: u8, text: &[u8]) -> Result<(&[u8], u8, &[u8]), InfoReadFault>
    ensures { Gives (λ x. record { front = x.0.now; byte = x.1; rest = x.2.now }) result (cut (is_byte2 a b) text.now) }
{
    match memchr2(a, b, text) {
        Some(i) => Ok((&text[..i], text[i], &text[i + 1..])),
        None => Err(InfoReadFault::BadInfo),
    }
}

/// What stands after this byte, if the text begins with it.
fn strip(byte: u8, text: &[u8]) -> Option<&[u8]>
    ensures { MatchOption result (Lacks byte text.now) (λ rest. text.now ≡ byte ∷ rest.now) }
{
    match text {
        [first, rest @ ..] if *first == byte => Some(rest),
        _ => None,
    }
}

/// What stands after an opening bracket.
#[tactic(auto, unfolding(crate::specs::Reading::after))]
fn bracket_of(text: &[u8]) -> Result<&[u8], InfoReadFault>
    ensures { Gives (λ x. x.now) result (after 91 text.now) }
{
    match text {
        [b'[', rest @ ..] => Ok(rest),
        _ => Err(InfoReadFault::BadInfo),
    }
}

/// What stands after the second star.
#[tactic(auto, unfolding(crate::specs::Reading::star_after))]
fn star_of(text: &[u8]) -> Result<&[u8], InfoReadFault>
    ensures { Gives (λ x. x.now) result (star_after text.now) }
{
    match text {
        [b'*', rest @ ..] => Ok(rest),
        [b'-', ..] => Err(InfoReadFault::Inverted),
        _ => Err(InfoReadFault::BadInfo),
    }
}

/// The author, and what stands after the two stars.
#[tactic(auto, unfolding(crate::specs::Reading::author_at))]
fn author_of(text: &[u8]) -> Result<(&[u8], &[u8]), InfoReadFault>
    ensures { Gives (λ x. (x.0.now, x.1.now)) result (author_at text.now) }
{
    let (author, byte, rest) = cut_of(b'*', b'\n', text)?;
    if byte != b'*' {
        return Err(InfoReadFault::BadInfo);
    }
    let rest = star_of(rest)?;
    Ok((author, rest))
}

/// The log's lines from the start of one, and what stands after the closing bracket.
fn log_of<A: Allocator + Copy>(
    alloc: A,
    text: &[u8],
) -> Result<(Vec<Vec<u8, A>, A>, &[u8]), InfoReadFault>
    ensures { Gives (λ x. (map (λ l. l.items) x.0.items, x.1.now)) result (log_from false text.now) }
{
    let mut log = Vec::new(alloc);
    let mut rest = text;
    while let Some(inside) = strip(b' ', rest) {
        let (line, next) = line_of(inside)?;
        log.push(Vec::from_slice(alloc, line)?)?;
        rest = next;
    }
    match strip(b']', rest) {
        Some(next) => Ok((log, next)),
        None => Err(InfoReadFault::BadInfo),
    }
}

/// The log after the date: none after a closing bracket, else lines.
#[tactic(auto, unfolding(crate::specs::Reading::end_at))]
fn end_of<A: Allocator + Copy>(
    alloc: A,
    mark: u8,
    text: &[u8],
) -> Result<(Vec<Vec<u8, A>, A>, &[u8]), InfoReadFault>
    ensures { (front : List ℕ) → Gives (λ x. (map (λ l. l.items) x.0.items, x.1.now)) result (end_at (record { front = front; byte = mark; rest = text.now })) }
{
    if mark == b']' {
        return Ok((Vec::new(alloc), text));
    }
    log_of(alloc, text)
}

/// The patch info at the front, and what stands after it.
#[tactic(auto, unfolding(crate::specs::Reading::info_at))]
fn info_of<A: Allocator + Copy>(alloc: A, text: &[u8]) -> Result<(Info<A>, &[u8]), InfoReadFault>
    ensures { Gives (λ x. (x.0, x.1.now)) result (info_at text.now) }
{
    let inside = bracket_of(text)?;
    let (name, rest) = line_of(inside)?;
    let (author, rest) = author_of(rest)?;
    let (date, mark, rest) = cut_of(b']', b'\n', rest)?;
    let (log, rest) = end_of(alloc, mark, rest)?;
    let opening = Opening::from_parts(alloc, name, author, date)?;
    Ok((Info::of_parts(opening, log), rest))
}

/// The text from a place on: nothing past the end.
fn tail_of(text: &[u8], at: usize) -> &[u8]
    ensures { result.now ≡ drop at text.now }
{
    if at < text.len() { &text[at..] } else { &[] }
}

/// The patch info whose opening bracket stands at a place of the text, and the place after its closing
/// bracket. Any place may be asked for: past the end, and where no `[` stands, the answer is `BadInfo`.
/// The text is that of Darcs' `Patch.Info`; the patch info read owns copies of its parts.
pub fn read_info<A: Allocator + Copy>(
    alloc: A,
    text: &[u8],
    at: usize,
) -> Result<(Info<A>, usize), InfoReadFault>
    // What is read stands there.
    ensures found { IfOk result (λ x. StandsFrom text.now at x.0 x.1) }
    // What stands there is what is read, unless memory runs out.
    ensures only { (i : PatchInfo) (next : ℕ) → StandsFrom text.now at i next
        → MatchResult result (λ x. (x.0 ≡ i) × (x.1 ≡ next)) (λ e. e ≡ InfoReadFault.NoMemory) }
    // A fault is returned only where the text has it: BadInfo where nothing stands, Inverted where an inverted patch does.
    ensures fault { IfErr result (λ e. HasReadFault (drop at text.now) e) }
    // Where an inverted patch stands no other fault but out of memory is returned.
    ensures turned { StandsInverted (drop at text.now)
        → MatchResult result (λ x. ⊥) (λ e. e ≢ InfoReadFault.BadInfo) }
{
    let (info, rest) = info_of(alloc, tail_of(text, at))?;
    Ok((info, text.len() - rest.len()))
}
