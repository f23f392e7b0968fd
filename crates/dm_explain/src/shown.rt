//! How what a stranger wrote is shown.
use bstr::BStr;
use dm_info::Info;
use dm_log::hash_of;
use dm_quoted::Quoted;
use std::alloc::Global;
use std::fmt::{self, Display, Formatter, Write};

/// At most so many bytes of a name are shown.
const MOST_SHOWN: usize = 100;

/// A text of a stranger, in quotes; a long one is cut.
#[derive(Clone, Copy)]
pub(crate) struct Shown<'a> {
    pub(crate) text: &'a [u8],
}

/// The first bytes of a text, at most so many; a character is not cut in two.
fn cut(text: &[u8], most: usize) -> &[u8] {
    if text.len() <= most {
        return text;
    }
    for end in (0..=most).rev() {
        if text[end] & 0xC0 != 0x80 {
            return &text[..end];
        }
    }
    &text[..most]
}

impl Display for Shown<'_> {
    fn fmt<W: Write>(&self, f: &mut Formatter<W>) -> fmt::Result {
        let shown = cut(self.text, MOST_SHOWN);
        write!(f, "{}", Quoted { text: shown })?;
        if shown.len() < self.text.len() {
            f.write_str(" ..")?;
        }
        Ok(())
    }
}

/// When a patch was recorded: fourteen digits are a date and a time in UTC, and anything else is shown as it stands.
#[derive(Clone, Copy)]
struct When<'a> {
    date: &'a [u8],
}

impl Display for When<'_> {
    fn fmt<W: Write>(&self, f: &mut Formatter<W>) -> fmt::Result {
        let date = self.date;
        if date.len() != 14 || !date.iter().all(|byte| byte.is_ascii_digit()) {
            return write!(f, "{}", Shown { text: date });
        }
        let year = BStr::new(&date[..4]);
        let month = BStr::new(&date[4..6]);
        let day = BStr::new(&date[6..8]);
        let hour = BStr::new(&date[8..10]);
        let minute = BStr::new(&date[10..12]);
        let second = BStr::new(&date[12..]);
        write!(f, "{year}-{month}-{day} {hour}:{minute}:{second}")
    }
}

/// The parts of a patch info by which people know a patch.
#[derive(Clone, Copy)]
pub(crate) struct Named<'a> {
    pub(crate) name: &'a [u8],
    pub(crate) author: &'a [u8],
    pub(crate) date: &'a [u8],
}

impl Display for Named<'_> {
    fn fmt<W: Write>(&self, f: &mut Formatter<W>) -> fmt::Result {
        let name = Shown { text: self.name };
        let author = Shown { text: self.author };
        let date = When { date: self.date };
        write!(f, "{name} by {author}, {date}")
    }
}

/// A patch as people know it: what it is called, who recorded it, and when.
#[derive(Clone, Copy)]
pub struct Who<'a> {
    /// Its patch info.
    pub info: &'a Info<Global>,
}

impl Display for Who<'_> {
    fn fmt<W: Write>(&self, f: &mut Formatter<W>) -> fmt::Result {
        let named = Named {
            name: self.info.name(),
            author: self.info.author(),
            date: self.info.date(),
        };
        write!(f, "{named}")
    }
}

/// The digits of a number below 256, in base 16.
fn write_digits<W: Write>(f: &mut Formatter<W>, byte: u8) -> fmt::Result {
    for value in [byte >> 4, byte & 15] {
        let digit = if value < 10 {
            b'0' + value
        } else {
            b'a' + (value - 10)
        };
        f.write_char(char::from(digit))?;
    }
    Ok(())
}

/// A patch of the repository: as people know it, and the hash by which Darcs names it. Its place may be another one's later.
#[derive(Clone, Copy)]
pub(crate) struct Held<'a> {
    pub(crate) info: &'a Info<Global>,
}

impl Display for Held<'_> {
    fn fmt<W: Write>(&self, f: &mut Formatter<W>) -> fmt::Result {
        write!(f, "{} (", Who { info: self.info })?;
        let hash = hash_of(self.info);
        for byte in &hash {
            write_digits(f, *byte)?;
        }
        f.write_char(')')
    }
}
