//! Groups of lines that begin with one byte.

ghost use Rattle.std.specs.Prelude.{◌≡◌, ◌≤◌, [], length, drop, IfOk};
ghost use Rattle.dm_named.specs.Words.{LineGroup};

use crate::text::{begins_at, line_at};
use dm_tree::Lines;
use std::alloc::{AllocError, Allocator};

/// The lines from a place on that begin with this byte, without the byte, and the place after them.
pub(crate) fn lines_at<A: Allocator + Copy>(
    alloc: A,
    byte: u8,
    text: &[u8],
    start: usize,
) -> Result<(Lines<A>, usize), AllocError>
    requires { start ≤ length text.now }
    ensures ok { IfOk result (λ x. LineGroup byte (drop start text.now) x.0 (drop x.1 text.now)) }
    ensures within { IfOk result (λ x. x.1 ≤ length text.now) }
    ensures forward { IfOk result (λ x. start ≤ x.1) }
{
    let mut lines = room_at(alloc, byte, text, start)?;
    let mut at = start;
    while begins_at(text, at, byte) {
        let (line, next) = line_at(text, at + 1);
        lines.push_plain(line)?;
        at = next;
    }
    Ok((lines, at))
}

/// No lines yet, but room for those from a place on that begin with this byte: for each, all but that byte and the newline.
fn room_at<A: Allocator + Copy>(
    alloc: A,
    byte: u8,
    text: &[u8],
    start: usize,
) -> Result<Lines<A>, AllocError>
    requires { start ≤ length text.now }
    ensures { IfOk result (λ r. r ≡ []) }
{
    let (count, end) = count_lines(byte, text, start);
    Lines::with_room(
        alloc,
        count,
        (end - start).saturating_sub(count.saturating_mul(2)),
    )
}

/// The count of the lines from a place on that begin with this byte, and the place after them.
fn count_lines(byte: u8, text: &[u8], start: usize) -> (usize, usize)
    requires { start ≤ length text.now }
    ensures { start ≤ result.1 }
{
    let mut count = 0;
    let mut at = start;
    while begins_at(text, at, byte) {
        let (_line, next) = line_at(text, at + 1);
        count += 1;
        at = next;
    }
    (count, at)
}
