//! Which limit a path of a text passes.
use crate::shown::Shown;
use bstr::ByteSlice;
use dm_tree::{MOST_NAME_BYTES, MOST_NAMES};
use std::fmt::{self, Formatter, Write};

/// The bytes of a text before a mark, or all.
fn before<'a>(text: &'a [u8], mark: &[u8]) -> &'a [u8] {
    match ByteSlice::split_once_str(&text, mark) {
        Some((first, _)) => first,
        None => text,
    }
}

/// How many bytes a name has: an escape, which stands between two backslashes, is one.
fn bytes_of(name: &[u8]) -> usize {
    let mut count = 0usize;
    let mut in_escape = false;
    for byte in name {
        if in_escape {
            in_escape = *byte != b'\\';
        } else {
            in_escape = *byte == b'\\';
            count = count.saturating_add(1);
        }
    }
    count
}

/// How many names a path has; the first is the dot.
fn names_of(path: &[u8]) -> usize {
    let mut count = 0usize;
    for byte in path {
        if *byte == b'/' {
            count = count.saturating_add(1);
        }
    }
    count
}

/// The first name that has too many bytes.
fn long_name(path: &[u8]) -> Option<&[u8]> {
    for name in ByteSlice::split_str(&path, b"/".as_slice()) {
        if bytes_of(name) > MOST_NAME_BYTES {
            return Some(name);
        }
    }
    None
}

/// Whether a name may be one of darcs-1, which writes each byte past ASCII as a character of its own.
fn may_be_doubled(name: &[u8]) -> bool {
    !name.is_ascii() && name.iter().all(|byte| *byte < 0xC4)
}

/// Writes what the sender does.
fn write_shorter<W: Write>(f: &mut Formatter<W>) -> fmt::Result {
    f.write_str(
        "The sender gives it a shorter one, and records the patch anew:\n  darcs unrecord -p NAME\n  darcs move LONG SHORT\n  darcs record\n",
    )
}

/// Writes which limit the path passes that begins a text, and what helps. Returns whether it passes one.
pub(crate) fn write_limit<W: Write>(f: &mut Formatter<W>, text: &[u8]) -> Result<bool, fmt::Error> {
    let path = before(before(text, b"\n"), b" ");
    if let Some(name) = long_name(path) {
        let count = bytes_of(name);
        let shown = Shown { text: name };
        writeln!(
            f,
            "A name has at most {MOST_NAME_BYTES} bytes, and this one has {count}:\n  {shown}"
        )?;
        if may_be_doubled(name) {
            f.write_str(
                "If the repository is one of darcs-1, that is twice as many for each letter past ASCII as in the folder.\n",
            )?;
        }
        write_shorter(f)?;
        return Ok(true);
    }
    let count = names_of(path);
    if count > MOST_NAMES {
        writeln!(
            f,
            "A path has at most {MOST_NAMES} names, and this one has {count}."
        )?;
        write_shorter(f)?;
        return Ok(true);
    }
    Ok(false)
}
