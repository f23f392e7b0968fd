//! The parts of a file: short texts, one after another.
ghost use Rattle.std.specs.Prelude.{◌≡◌, ◌↔◌, ℕ, ◌+◌, ◌-◌, ◌*◌, ◌^◌, ◌<◌, ◌≤◌, ◌++◌, ◌∷◌, [], length, take, drop, sum_by, IsTrue, IfOk, OnOk, OnErr, MatchOption, slice_index_or};
ghost use Rattle.std.specs.List.{splice};
ghost use Rattle.dm_tree.specs.Files.{BeginWith, HasLine, Locates, joined};

use crate::chain::Chain;
use crate::text::Text;
use crate::text_ref::TextRef;
use std::alloc::{AllocError, Allocator};

/// The count of lines of a part that is made anew, but for the last of several.
///
/// A part may grow to twice as many before it is made anew: an edit moves the bytes of one part, so
/// parts are short; and each costs two blocks of memory, so they are not too short.
const PART_LINES: usize = 256;

/// A place among the lines of a file's parts.
#[derive(Clone, Copy)]
pub(crate) struct Place {
    pub(crate) part: usize,
    pub(crate) line: usize,
}

/// The part that has the line at a place, and its place there.
pub(crate) fn find<A: Allocator>(parts: &[Text<A>], at: usize) -> Option<Place>
    ensures { MatchOption result (length (joined parts.now) ≤ at) (λ p. HasLine parts.now at p.part p.line) }
{
    let mut line = at;
    for (part, text) in parts.iter().enumerate() {
        if line < text.len() {
            return Some(Place { part, line });
        }
        line -= text.len();
    }
    None
}

/// The same, or the place behind the last line.
pub(crate) fn seek<A: Allocator>(parts: &[Text<A>], at: usize) -> Place
    requires some { 0 < length parts.now }
    requires within { at ≤ length (joined parts.now) }
    ensures { Locates parts.now at result.part result.line }
{
    if let Some(found) = find(parts, at) {
        return found;
    }
    let part = parts.len() - 1;
    Place {
        part,
        line: parts[part].len(),
    }
}

/// The place where a range ends that begins at `from`.
fn seek_end<A: Allocator>(parts: &[Text<A>], from: Place, start: usize, end: usize) -> Place
    requires order { start ≤ end }
    requires within { end ≤ length (joined parts.now) }
    requires from { Locates parts.now start from.part from.line }
    ensures to { Locates parts.now end result.part result.line }
    ensures order { from.part ≤ result.part }
{
    let line = from.line + (end - start);
    if line <= parts[from.part].len() {
        return Place {
            part: from.part,
            line,
        };
    }
    let Some(last) = find(parts, end - 1) else {
        unreachable!()
    };
    Place {
        part: last.part,
        line: last.line + 1,
    }
}

/// Copies of the parts with another allocator.
pub(crate) fn copy_parts<A: Allocator, B: Allocator + Copy>(
    alloc: B,
    parts: &[Text<A>],
) -> Result<Vec<Text<B>, B>, AllocError>
    ensures { IfOk result (λ v. v.items ≡ parts.now) }
{
    let mut copies = Vec::with_capacity(alloc, parts.len())?;
    for part in parts {
        copies.push(part.copy_into(alloc)?)?;
    }
    Ok(copies)
}

/// The count of bytes of all lines together.
pub(crate) fn size<A: Allocator>(parts: &[Text<A>]) -> u128
    ensures value { result ≡ sum_by length (joined parts.now) }
    ensures bound { result ≤ length parts.now * 18446744073709551615 }
{
    let mut total: u128 = 0;
    for part in parts {
        total += part.size() as u128;
    }
    total
}

/// Whether the lines of the parts, from one of the first part's on, begin with those of the text.
pub(crate) fn stands<A: Allocator>(parts: &[Text<A>], first: usize, text: &TextRef<'_>) -> bool
    requires { first ≤ length (slice_index_or parts.now 0 []) }
    ensures { IsTrue result ↔ BeginWith (drop first (joined parts.now)) text.now }
{
    let mut line = first;
    let mut at = 0;
    for part in parts {
        if at == text.len() {
            return true;
        }
        let count = (part.len() - line).min(text.len() - at);
        let here = part.all().within(line, line + count);
        if !here.is_same(&text.within(at, at + count)) {
            return false;
        }
        line = 0;
        at += count;
    }
    at == text.len()
}

/// Puts copies of the fresh lines in place of those from `start` to before `end`.
///
/// A change inside of one part is made there, unless that part would grow long. Otherwise new parts
/// take the place of those that the range touches, and all that needs memory comes before the
/// first change.
pub(crate) fn replace<A: Allocator + Copy, B: Allocator>(
    parts: &mut Vec<Text<A>, A>,
    start: usize,
    end: usize,
    fresh: &Text<B>,
) -> Result<(), AllocError>
    requires some { 0 < length parts.old.items }
    requires order { start ≤ end }
    requires within { end ≤ length (joined parts.old.items) }
    requires fits { length (joined parts.old.items) - (end - start) + length fresh.now < 2 ^ 64 }
    ensures some { 0 < length parts.new.items }
    ensures ok { OnOk result (joined parts.new.items ≡ splice (joined parts.old.items) start end fresh.now) }
    ensures err { OnErr result (parts.new.items ≡ parts.old.items) }
{
    let from = seek(parts, start);
    let to = seek_end(parts, from, start, end);
    if from.part == to.part {
        let left = parts[from.part].len() - (to.line - from.line);
        if left.saturating_add(fresh.len()) <= 2 * PART_LINES {
            return splice_part(parts, from.part, from.line, to.line, fresh);
        }
    }
    rebuild(parts, from, to, fresh)
}

/// Puts copies of the fresh lines in place of those from `start` to before `end` of a part.
fn splice_part<A: Allocator + Copy, B: Allocator>(
    parts: &mut Vec<Text<A>, A>,
    part: usize,
    start: usize,
    end: usize,
    fresh: &Text<B>,
) -> Result<(), AllocError>
    requires part { part < length parts.old.items }
    requires order { start ≤ end }
    requires within { end ≤ length (slice_index_or parts.old.items part []) }
    ensures count { length parts.new.items ≡ length parts.old.items }
    ensures ok { OnOk result (joined parts.new.items ≡ splice (joined parts.old.items)
        (length (joined (take part parts.old.items)) + start) (length (joined (take part parts.old.items)) + end) fresh.now) }
    ensures err { OnErr result (parts.new.items ≡ parts.old.items) }
{
    parts[part].splice(start, end, fresh)
}

/// Puts new parts in place of those from `from` to `to`, with copies of the fresh lines in place of
/// those between both.
fn rebuild<A: Allocator + Copy, B: Allocator>(
    parts: &mut Vec<Text<A>, A>,
    from: Place,
    to: Place,
    fresh: &Text<B>,
) -> Result<(), AllocError>
    requires from { from.line ≤ length (slice_index_or parts.old.items from.part []) }
    requires order { from.part ≤ to.part }
    requires within { to.part < length parts.old.items }
    requires to { to.line ≤ length (slice_index_or parts.old.items to.part []) }
    requires fits { from.line + (length fresh.now + (length (slice_index_or parts.old.items to.part []) - to.line)) < 2 ^ 64 }
    ensures some { 0 < length parts.new.items }
    ensures ok { OnOk result (joined parts.new.items ≡ joined (take from.part parts.old.items) ++
        ((take from.line (slice_index_or parts.old.items from.part []) ++ (fresh.now ++ drop to.line (slice_index_or parts.old.items to.part [])))
        ++ joined (drop (to.part + 1) parts.old.items))) }
    ensures err { OnErr result (parts.new.items ≡ parts.old.items) }
{
    let alloc = *parts.allocator();
    let last = &parts[to.part];
    let chain = Chain::new(
        parts[from.part].all().within(0, from.line),
        fresh.all(),
        last.all().within(to.line, last.len()),
    );
    let made = cut(alloc, &chain)?;
    put(parts, from.part, to.part + 1, made)
}

/// Parts of the lines, with no room to spare; at least one.
fn cut<A: Allocator + Copy>(alloc: A, lines: &Chain<'_>) -> Result<Vec<Text<A>, A>, AllocError>
    requires { length lines.now < 2 ^ 64 }
    ensures some { IfOk result (λ v. 0 < length v.items) }
    ensures lines { IfOk result (λ v. joined v.items ≡ lines.now) }
{
    let total = lines.len();
    let mut parts = Vec::with_capacity(alloc, total / PART_LINES + 1)?;
    let mut at = PART_LINES.min(total);
    parts.push(lines.text(alloc, 0, at)?)?;
    while at < total {
        let end = at + PART_LINES.min(total - at);
        parts.push(lines.text(alloc, at, end)?)?;
        at = end;
    }
    Ok(parts)
}

/// Puts other parts in place of those from `start` to before `end`.
fn put<A: Allocator + Copy>(
    parts: &mut Vec<Text<A>, A>,
    start: usize,
    end: usize,
    made: Vec<Text<A>, A>,
) -> Result<(), AllocError>
    requires order { start ≤ end }
    requires within { end ≤ length parts.old.items }
    requires some { 0 < length parts.old.items }
    requires made { 0 < length made.items }
    ensures some { 0 < length parts.new.items }
    ensures ok { OnOk result (parts.new.items ≡ splice parts.old.items start end made.items) }
    ensures err { OnErr result (parts.new.items ≡ parts.old.items) }
{
    let _ = parts.splice(start..end, made)?;
    Ok(())
}
