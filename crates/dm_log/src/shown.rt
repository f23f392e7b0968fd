//! How what a stranger wrote is shown.
ghost use Rattle.std.specs.Prelude.{◌≡◌, ◌++◌, OnOk};
ghost use Rattle.std.specs.List.{flat_map};
ghost use Rattle.std.specs.Str.{chars};
ghost use Rattle.dm_log.specs.Shown.{digits, escape, is_escaped, shown, shown_byte, shown_char};

use dm_quoted::is_acting;
use std::alloc::{AllocError, Allocator};
use std::str;

const DIGITS: &[u8; 16] = b"0123456789abcdef";

/// Appends a byte as two digits.
pub(crate) fn push_digits<A: Allocator>(byte: u8, out: &mut Vec<u8, A>) -> Result<(), AllocError>
    ensures { OnOk result (out.new.items ≡ out.old.items ++ digits byte) }
{
    out.push(DIGITS[(byte / 16 % 16) as usize])?;
    out.push(DIGITS[(byte % 16) as usize])?;
    Ok(())
}

fn push_escape<A: Allocator>(byte: u8, out: &mut Vec<u8, A>) -> Result<(), AllocError>
    ensures { OnOk result (out.new.items ≡ out.old.items ++ escape byte) }
{
    out.extend_from_slice(b"\\x")?;
    push_digits(byte, out)
}

fn push_escapes<A: Allocator>(bytes: &[u8], out: &mut Vec<u8, A>) -> Result<(), AllocError>
    ensures { OnOk result (out.new.items ≡ out.old.items ++ flat_map escape bytes.now) }
{
    for byte in bytes {
        push_escape(*byte, out)?;
    }
    Ok(())
}

fn is_escaped(c: char) -> bool
    ensures { result ≡ is_escaped c }
{
    is_acting(c) && c != '\t'
}

fn push_char<A: Allocator>(c: char, out: &mut Vec<u8, A>) -> Result<(), AllocError>
    ensures { OnOk result (out.new.items ≡ out.old.items ++ shown_char c) }
{
    let mut buffer = [0; 4];
    let bytes = c.encode_utf8(&mut buffer).as_bytes();
    if is_escaped(c) {
        return push_escapes(bytes, out);
    }
    out.extend_from_slice(bytes)?;
    Ok(())
}

fn push_chars<A: Allocator>(text: &str, out: &mut Vec<u8, A>) -> Result<(), AllocError>
    ensures { OnOk result (out.new.items ≡ out.old.items ++ flat_map shown_char (chars text.now)) }
{
    for c in text.chars() {
        push_char(c, out)?;
    }
    Ok(())
}

fn push_byte<A: Allocator>(byte: u8, out: &mut Vec<u8, A>) -> Result<(), AllocError>
    ensures { OnOk result (out.new.items ≡ out.old.items ++ shown_byte byte) }
{
    match byte {
        b'\t' | b' '..=b'~' => {
            out.push(byte)?;
            Ok(())
        }
        _ => push_escape(byte, out),
    }
}

pub(crate) fn push_bytes<A: Allocator>(bytes: &[u8], out: &mut Vec<u8, A>) -> Result<(), AllocError>
    ensures { OnOk result (out.new.items ≡ out.old.items ++ flat_map shown_byte bytes.now) }
{
    for byte in bytes {
        push_byte(*byte, out)?;
    }
    Ok(())
}

/// Appends a text as it is shown.
pub(crate) fn push_shown<A: Allocator>(text: &[u8], out: &mut Vec<u8, A>) -> Result<(), AllocError>
    ensures { OnOk result (out.new.items ≡ out.old.items ++ shown text.now) }
{
    match str::from_utf8(text) {
        Ok(text) => push_chars(text, out),
        Err(_) => push_bytes(text, out),
    }
}
