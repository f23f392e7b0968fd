//! The parts that a patch info may hold.

ghost use Rattle.std.specs.Prelude.{◌≡◌, ◌≢◌, ◌↔◌, IsTrue, IfOk, MatchOption, Some, map};
ghost use Rattle.memchr.specs.Find.{is_byte, is_byte2};
ghost use Rattle.dm_info.specs.PatchInfo.{AreLines, Free, IsInfo, info_from};
ghost use Rattle.dm_info.specs.Refusals.{IsRefusedFor};

use crate::fault::InfoFault;
use memchr::{memchr, memchr2};
use std::alloc::{AllocError, Allocator};

/// Whether no newline stands in the text.
fn is_line(text: &[u8]) -> bool
    ensures { IsTrue result ↔ Free (is_byte 10) text.now }
{
    memchr(b'\n', text).is_none()
}

/// Whether neither of two bytes stands in the text.
fn is_free_of(first: u8, second: u8, text: &[u8]) -> bool
    ensures { IsTrue result ↔ Free (is_byte2 first second) text.now }
{
    memchr2(first, second, text).is_none()
}

/// Whether no line holds a newline.
fn are_lines(lines: &[&[u8]]) -> bool
    ensures { IsTrue result ↔ AreLines (map (λ line. line.now) lines.now) }
{
    for line in lines {
        if !is_line(line) {
            return false;
        }
    }
    true
}

/// The first fault of the parts.
pub(crate) fn fault_of(name: &[u8], author: &[u8], date: &[u8], log: &[&[u8]]) -> Option<InfoFault>
    ensures verdict { let parts = info_from name.now author.now date.now (map (λ line. line.now) log.now) in
        MatchOption result (IsInfo parts) (IsRefusedFor parts) }
    ensures no_memory { result ≢ Some InfoFault.NoMemory }
{
    if !is_line(name) {
        return Some(InfoFault::BadName);
    }
    if !is_free_of(b'*', b'\n', author) {
        return Some(InfoFault::BadAuthor);
    }
    if !is_free_of(b']', b'\n', date) {
        return Some(InfoFault::BadDate);
    }
    if !are_lines(log) {
        return Some(InfoFault::BadLog);
    }
    None
}

/// The lines, each copied.
pub(crate) fn copied_slices<A: Allocator + Copy>(
    alloc: A,
    lines: &[&[u8]],
) -> Result<Vec<Vec<u8, A>, A>, AllocError>
    ensures { IfOk result (λ copies. map (λ copy. copy.items) copies.items ≡ map (λ line. line.now) lines.now) }
{
    let mut copies = Vec::new(alloc);
    for line in lines {
        copies.push(Vec::from_slice(alloc, line)?)?;
    }
    Ok(copies)
}

/// The lines, each copied into another allocator.
pub(crate) fn copied_lines<A: Allocator, B: Allocator + Copy>(
    alloc: B,
    lines: &[Vec<u8, A>],
) -> Result<Vec<Vec<u8, B>, B>, AllocError>
    ensures { IfOk result (λ copies. map (λ copy. copy.items) copies.items ≡ map (λ line. line.items) lines.now) }
{
    let mut copies = Vec::new(alloc);
    for line in lines {
        copies.push(Vec::from_slice(alloc, line)?)?;
    }
    Ok(copies)
}
