//! The lines of a file's bytes.
ghost use Rattle.std.specs.Prelude.{◌≡◌, IfOk};
ghost use Rattle.dm_hex.specs.Contents.{AreFileLines, content};

use dm_tree::Lines;
use memchr::memchr;
use std::alloc::{AllocError, Global};

/// The pieces between the newlines.
pub(crate) fn lines_of(alloc: Global, bytes: &[u8]) -> Result<Lines<Global>, AllocError>
    ensures lines { IfOk result (λ lines. AreFileLines lines) }
    ensures bytes { IfOk result (λ lines. content lines ≡ bytes.now) }
{
    let mut lines = Lines::new(alloc);
    let mut rest = bytes;
    while let Some(end) = memchr(b'\n', rest) {
        lines.push_plain(&rest[..end])?;
        rest = &rest[end + 1..];
    }
    lines.push_plain(rest)?;
    Ok(lines)
}
