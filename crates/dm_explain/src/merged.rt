//! The patch that was merged with one that it conflicts with.
use crate::shown::Named;
use bstr::ByteSlice;
use std::fmt::{self, Formatter, Write};

/// The words with which Darcs writes such a patch.
const WORDS: [&[u8]; 6] = [
    b"merger",
    b"regrem",
    b"conflictor",
    b"rotcilfnoc",
    b"duplicate",
    b"etacilpud",
];

/// Whether such a word begins a text.
pub(crate) fn begins_merged(text: &[u8]) -> bool {
    WORDS.iter().any(|word| text.starts_with(word))
}

/// The parts of a patch info that begins with these two lines.
fn named<'a>(name: &'a [u8], second: &'a [u8]) -> Named<'a> {
    let (author, after) = match ByteSlice::split_once_str(&second, b"**".as_slice()) {
        Some(parts) => parts,
        None => (second, b"".as_slice()),
    };
    let date = match ByteSlice::split_once_str(&after, b"]".as_slice()) {
        Some((date, _)) => date,
        None => after,
    };
    Named { name, author, date }
}

/// Whether a line of a patch info ends it, and dependencies follow.
fn begins_depends(line: &[u8]) -> bool {
    line.ends_with(b"] <".as_slice())
}

/// The last patch info of a text, those in lists of dependencies left out. It is a guess where the text is no bundle.
fn last_info(text: &[u8]) -> Option<Named<'_>> {
    let mut found = None;
    let mut name: Option<&[u8]> = None;
    let mut in_depends = false;
    for line in ByteSlice::lines(&text) {
        if in_depends {
            in_depends = !line.starts_with(b">".as_slice());
        } else if let Some(first) = name {
            found = Some(named(first, line));
            name = None;
            in_depends = begins_depends(line);
        } else if line.starts_with(b"[".as_slice()) {
            name = line.strip_prefix(b"[".as_slice());
        } else if line.starts_with(b"]".as_slice()) {
            in_depends = begins_depends(line);
        }
    }
    found
}

/// Writes which patch was merged, after the text before its body.
pub(crate) fn write_merged<W: Write>(f: &mut Formatter<W>, before: &[u8]) -> fmt::Result {
    match last_info(before) {
        Some(named) => write!(f, "The patch:\n  {named}\nwas")?,
        None => f.write_str("This patch was")?,
    }
    f.write_str(" merged with a patch that it conflicts with. dm reads no such patch.\n")
}
