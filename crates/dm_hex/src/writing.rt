//! Writing a content as hex digits.

ghost use Rattle.std.specs.Prelude.{◌≡◌, ◌≤◌, ◌*◌, ◌-◌, ◌^◌, ◌++◌, ◌∷◌, [], length, min, IfOk, OnErr, OnOk};
ghost use Rattle.hex.specs.Hex.{IsBytes};
ghost use Rattle.std.specs.List.{flat_map};
ghost use Rattle.dm_hex.specs.Contents.{content};
ghost use Rattle.dm_hex.specs.Digits.{hex_digits, line_bytes, star_line, star_lines, star_text, stars_text};

use dm_tree::Lines;
use std::alloc::{AllocError, Allocator};

const LINE_BYTES: usize = 39;

const DIGITS: &[u8; 16] = b"0123456789abcdef";

/// The count of bytes of the content with these lines.
pub fn len_of_content<A: Allocator>(lines: &Lines<A>) -> usize
    ensures { result ≡ min (length (content lines.now)) (2 ^ 64 - 1) }
{
    lines.size().saturating_add(lines.len().saturating_sub(1))
}

/// The content with these lines.
fn content_of<A: Allocator + Copy, B: Allocator>(
    alloc: A,
    lines: &Lines<B>,
) -> Result<Vec<u8, A>, AllocError>
    ensures { IfOk result (λ bytes. bytes.items ≡ content lines.now) }
{
    let mut bytes = Vec::with_capacity(alloc, len_of_content(lines))?;
    if lines.is_empty() {
        return Ok(bytes);
    }
    bytes.extend_from_slice(lines.line(0))?;
    for i in 1..lines.len() {
        bytes.push(b'\n')?;
        bytes.extend_from_slice(lines.line(i))?;
    }
    Ok(bytes)
}

fn push_digits<A: Allocator>(bytes: &[u8], out: &mut Vec<u8, A>) -> Result<(), AllocError>
    ensures { OnOk result (out.new.items ≡ out.old.items ++ hex_digits bytes.now) }
{
    for byte in bytes {
        out.push(DIGITS[(*byte / 16) as usize])?;
        out.push(DIGITS[(*byte % 16) as usize])?;
    }
    Ok(())
}

/// Appends the line of digits at place k of a content.
fn push_line<A: Allocator>(bytes: &[u8], k: usize, out: &mut Vec<u8, A>) -> Result<(), AllocError>
    requires { line_bytes * k ≤ length bytes.now }
    ensures { OnOk result (out.new.items ≡ out.old.items ++ star_text (star_line bytes.now k)) }
{
    let start = LINE_BYTES * k;
    let end = bytes.len().min(start + LINE_BYTES);
    out.push(b'*')?;
    push_digits(&bytes[start..end], out)?;
    out.push(b'\n')?;
    Ok(())
}

fn push_lines<A: Allocator>(bytes: &[u8], out: &mut Vec<u8, A>) -> Result<(), AllocError>
    ensures text { OnOk result (out.new.items ≡ out.old.items ++ flat_map star_text (star_lines bytes.now)) }
    ensures bytes { OnOk result (IsBytes bytes.now) }
{
    for k in 0..bytes.len() / LINE_BYTES + 1 {
        push_line(bytes, k, out)?;
    }
    Ok(())
}

/// Appends the lines of digits of the content with these lines, each with a star before it and a newline after it. If an allocation
/// fails, a part of them may have been appended: for callers that then drop the whole text. [`write_content`] appends all or nothing.
pub fn push_content<A: Allocator, B: Allocator + Copy>(
    lines: &Lines<A>,
    out: &mut Vec<u8, B>,
) -> Result<(), AllocError>
    ensures ok { OnOk result (out.new.items ≡ out.old.items ++ stars_text lines.now) }
    // The content has bytes only, so what is appended stands for it.
    ensures bytes { OnOk result (IsBytes (content lines.now)) }
{
    let bytes = content_of(*out.allocator(), lines)?;
    let room = bytes
        .len()
        .saturating_mul(2)
        .saturating_add(bytes.len() / LINE_BYTES * 2 + 2);
    out.reserve(room)?;
    push_lines(&bytes, out)
}

/// Appends the lines of digits of the content with these lines, each with a star before it and a newline after it. A failed
/// allocation changes nothing.
pub fn write_content<A: Allocator, B: Allocator + Copy>(
    lines: &Lines<A>,
    out: &mut Vec<u8, B>,
) -> Result<(), AllocError>
    ensures ok { OnOk result (out.new.items ≡ out.old.items ++ stars_text lines.now) }
    // The content has bytes only, so what is appended stands for it.
    ensures bytes { OnOk result (IsBytes (content lines.now)) }
    ensures err { OnErr result (out.new.items ≡ out.old.items) }
{
    let mut text = Vec::new(*out.allocator());
    push_content(lines, &mut text)?;
    out.extend_from_slice(&text)?;
    Ok(())
}
