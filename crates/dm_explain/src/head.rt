//! How a primitive and a path are shown.
use crate::shown::Shown;
use bstr::ByteSlice;
use dm_prim::{Binary, Preference, Prim, Replace};
use dm_tree::{Lines, Path};
use std::alloc::Global;
use std::fmt::{self, Display, Formatter, Write};

/// At most so many bytes of the names of a path that is too deep are shown.
const MOST_SHOWN: usize = 1000;

/// A path with a slash before each name. What doesn't print is escaped, and so is what is no UTF-8.
#[derive(Clone, Copy)]
struct ShownPath<'a> {
    path: &'a Path<Global>,
}

/// Writes characters, with an escape for each that doesn't print.
fn write_chars<W: Write>(f: &mut Formatter<W>, text: &str) -> fmt::Result {
    for character in text.chars() {
        write!(f, "{}", character.escape_debug())?;
    }
    Ok(())
}

/// Writes an escape for each byte.
fn write_bytes<W: Write>(f: &mut Formatter<W>, bytes: &[u8]) -> fmt::Result {
    for byte in bytes {
        write!(f, "{}", byte.escape_ascii())?;
    }
    Ok(())
}

/// Writes a name of a path.
fn write_name<W: Write>(f: &mut Formatter<W>, name: &[u8]) -> fmt::Result {
    for chunk in ByteSlice::utf8_chunks(&name) {
        write_chars(f, chunk.valid())?;
        write_bytes(f, chunk.invalid())?;
    }
    Ok(())
}

impl Display for ShownPath<'_> {
    fn fmt<W: Write>(&self, f: &mut Formatter<W>) -> fmt::Result {
        f.write_str(".")?;
        for i in 0..self.path.len() {
            f.write_str("/")?;
            write_name(f, self.path.part(i))?;
        }
        Ok(())
    }
}

/// Writes the names of a path from a place on while there is room for them, and returns whether there is for all.
fn write_names<W: Write>(
    f: &mut Formatter<W>,
    path: &Path<Global>,
    first: usize,
    room: &mut usize,
) -> Result<bool, fmt::Error> {
    for i in first..path.len() {
        let name = path.part(i);
        if *room < name.len() {
            return Ok(false);
        }
        *room -= name.len();
        f.write_str("/")?;
        write_name(f, name)?;
    }
    Ok(true)
}

/// What a path becomes by a move of what is at or under one path to another. It may be too deep, and a long one is cut.
#[derive(Clone, Copy)]
pub(crate) struct ShownMoved<'a> {
    pub(crate) path: &'a Path<Global>,
    pub(crate) from: &'a Path<Global>,
    pub(crate) to: &'a Path<Global>,
}

impl Display for ShownMoved<'_> {
    fn fmt<W: Write>(&self, f: &mut Formatter<W>) -> fmt::Result {
        let mut room = MOST_SHOWN;
        f.write_str(".")?;
        if write_names(f, self.to, 0, &mut room)?
            && write_names(f, self.path, self.from.len(), &mut room)?
        {
            return Ok(());
        }
        f.write_str("/ ..")
    }
}

/// A count, with a comma before each three digits.
#[derive(Clone, Copy)]
struct Grouped(u128);

impl Display for Grouped {
    fn fmt<W: Write>(&self, f: &mut Formatter<W>) -> fmt::Result {
        let count = self.0;
        match count {
            0..=999 => write!(f, "{count}"),
            1000..=999_999 => write!(f, "{},{:03}", count / 1000, count % 1000),
            _ => write!(
                f,
                "{},{:03},{:03}",
                count / 1_000_000,
                count / 1000 % 1000,
                count % 1000
            ),
        }
    }
}

/// How many bytes a file has.
#[derive(Clone, Copy)]
pub(crate) struct Bytes(pub(crate) u128);

impl Bytes {
    /// Those of all lines of a file, with a newline between each two.
    pub(crate) fn of(lines: &Lines<Global>) -> Bytes {
        let newlines = lines.len().saturating_sub(1);
        Bytes(lines.size() as u128 + newlines as u128)
    }
}

impl Display for Bytes {
    fn fmt<W: Write>(&self, f: &mut Formatter<W>) -> fmt::Result {
        match self.0 {
            1 => f.write_str("1 byte"),
            count => write!(f, "{} bytes", Grouped(count)),
        }
    }
}

/// Writes the path of a binary, and how many bytes the file has before and after.
fn write_binary<W: Write>(f: &mut Formatter<W>, binary: &Binary<Global>) -> fmt::Result {
    let path = ShownPath {
        path: binary.path(),
    };
    let before = Bytes::of(binary.old());
    let Bytes(after) = Bytes::of(binary.new_lines());
    write!(
        f,
        "binary {path}, {before} before, {} after",
        Grouped(after)
    )
}

/// Writes a word of plain ASCII, with an escape for each byte that doesn't print.
fn write_word<W: Write>(f: &mut Formatter<W>, word: &[u8]) -> fmt::Result {
    for byte in word {
        match byte {
            b'!'..=b'~' => f.write_char(char::from(*byte))?,
            _ => write!(f, "{}", byte.escape_ascii())?,
        }
    }
    Ok(())
}

/// Writes the path of a replace, its set and its tokens.
fn write_replace<W: Write>(f: &mut Formatter<W>, replace: &Replace<Global>) -> fmt::Result {
    let path = ShownPath {
        path: replace.path(),
    };
    let tokens = replace.tokens();
    write!(f, "replace {path} [")?;
    write_word(f, tokens.set_text())?;
    f.write_str("] ")?;
    write_word(f, tokens.old())?;
    f.write_str(" ")?;
    write_word(f, tokens.new_token())
}

/// Writes the name of a preference, and its value before and after.
fn write_preference<W: Write>(
    f: &mut Formatter<W>,
    preference: &Preference<Global>,
) -> fmt::Result {
    let name = Shown {
        text: preference.name(),
    };
    let before = Shown {
        text: preference.old(),
    };
    let after = Shown {
        text: preference.new_value(),
    };
    write!(f, "changepref {name}, {before} before, {after} after")
}

/// A primitive: its first line, or of a binary or a preference what it changes.
#[derive(Clone, Copy)]
pub(crate) struct Head<'a> {
    pub(crate) prim: &'a Prim<Global>,
}

impl Display for Head<'_> {
    fn fmt<W: Write>(&self, f: &mut Formatter<W>) -> fmt::Result {
        match self.prim {
            Prim::AddFile(path) => write!(f, "addfile {}", ShownPath { path }),
            Prim::RmFile(path) => write!(f, "rmfile {}", ShownPath { path }),
            Prim::AddDir(path) => write!(f, "adddir {}", ShownPath { path }),
            Prim::RmDir(path) => write!(f, "rmdir {}", ShownPath { path }),
            Prim::Move(from, to) => {
                let from = ShownPath { path: from };
                let to = ShownPath { path: to };
                write!(f, "move {from} {to}")
            }
            Prim::Hunk(hunk) => {
                let path = ShownPath { path: hunk.path() };
                write!(f, "hunk {path} {}", hunk.line())
            }
            Prim::Binary(binary) => write_binary(f, binary),
            Prim::Replace(replace) => write_replace(f, replace),
            Prim::ChangePref(preference) => write_preference(f, preference),
        }
    }
}
