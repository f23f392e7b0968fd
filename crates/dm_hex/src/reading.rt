//! Reading a content from hex digits.

ghost use Rattle.std.specs.Prelude.{◌≡◌, ◌≤◌, ℕ, List, length, IfNone, IfOk, IfSome};
ghost use Rattle.std.specs.List.{concat};
ghost use Rattle.dm_hex.specs.Contents.{content, AreFileLines};
ghost use Rattle.dm_hex.specs.Digits.{IsHexOf, IsHexOfLines};

use dm_tree::Lines;
use hex::FromHexError;
use memchr::memchr;
use std::alloc::{AllocError, Allocator};

/// The lines, put together.
fn put_together<A: Allocator + Copy, B: Allocator>(
    alloc: A,
    lines: &Lines<B>,
) -> Result<Vec<u8, A>, AllocError>
    ensures { IfOk result (λ digits. digits.items ≡ concat lines.now) }
{
    let mut digits = Vec::with_capacity(alloc, lines.size())?;
    for i in 0..lines.len() {
        digits.extend_from_slice(lines.line(i))?;
    }
    Ok(digits)
}

/// The bytes that lines of digits stand for.
fn bytes_of<A: Allocator + Copy, B: Allocator>(
    alloc: A,
    lines: &Lines<B>,
) -> Result<Option<Vec<u8, A>>, AllocError>
    ensures some { IfOk result (λ found. IfSome found (λ bytes. IsHexOf (concat lines.now) bytes.items)) }
    ensures none { IfOk result (λ found. IfNone found ((bytes : List ℕ) → IsHexOf (concat lines.now) bytes → ⊥)) }
{
    let digits = put_together(alloc, lines)?;
    match hex::decode(alloc, digits.as_slice()) {
        Ok(bytes) => Ok(Some(bytes)),
        Err(fault) => match fault {
            FromHexError::OutOfMemory => Err(AllocError),
            _ => Ok(None),
        },
    }
}

/// How many newlines there are.
fn count_newlines(bytes: &[u8]) -> usize
    ensures { result ≤ length bytes.now }
{
    let mut count = 0;
    for byte in bytes {
        if *byte == b'\n' {
            count += 1;
        }
    }
    count
}

/// The lines of a content.
fn lines_of<A: Allocator + Copy>(alloc: A, bytes: &[u8]) -> Result<Lines<A>, AllocError>
    ensures lines { IfOk result (λ lines. AreFileLines lines) }
    ensures content { IfOk result (λ lines. content lines ≡ bytes.now) }
{
    let newlines = count_newlines(bytes);
    let mut lines = Lines::with_room(alloc, newlines + 1, bytes.len() - newlines)?;
    let mut rest = bytes;
    while let Some(end) = memchr(b'\n', rest) {
        lines.push_plain(&rest[..end])?;
        rest = &rest[end + 1..];
    }
    lines.push_plain(rest)?;
    Ok(lines)
}

/// The lines of the content that lines of hex digits, put together, stand for; none only if they stand for no bytes.
///
/// A line may have any count of digits, in either case. An error means that an allocation failed.
pub fn read_content<A: Allocator + Copy, B: Allocator>(
    alloc: A,
    lines: &Lines<B>,
) -> Result<Option<Lines<A>>, AllocError>
    ensures some { IfOk result (λ found. IfSome found (λ ls. IsHexOfLines lines.now ls)) }
    ensures none { IfOk result (λ found. IfNone found ((bytes : List ℕ) → IsHexOf (concat lines.now) bytes → ⊥)) }
{
    let Some(bytes) = bytes_of(alloc, lines)? else {
        return Ok(None);
    };
    Ok(Some(lines_of(alloc, &bytes)?))
}
