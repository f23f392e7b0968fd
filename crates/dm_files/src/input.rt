//! What a command reads: a file that its words name, or standard input.
ghost use Rattle.std.specs.Io.{ReadsAtMost};

use std::fs::File;
use std::io::{self, Read};

/// The name of standard input.
pub const INPUT: &str = "-";

/// The name of a file for a reader.
pub(crate) fn said<'a>(name: &'a str) -> &'a str {
    if name == INPUT {
        "standard input"
    } else {
        name
    }
}

/// What the file of a mirror begins with, in each version (`dm_journal`).
const MIRROR: [u8; 11] = *b"dm journal ";

/// Why a text could not be read.
#[derive(Clone, Copy, Debug)]
pub enum InputFault {
    /// A call of the system failed.
    Io(io::Error),
    /// It is the file of a mirror, which is no text.
    Mirror,
}

/// A file, or standard input. It is opened at once, and read as it is asked for. A reader of it learns of no fault but that there
/// is one; [`Input::fault`] says which.
///
/// Only a file is asked whether it is a mirror: it was named, so the words are wrong. On standard input any text is one, since a
/// stranger may have written it, and has to be answered.
#[derive(Drop)]
pub struct Input {
    rt: HostRuntime,
    // `None` for standard input, and where the file could not be opened.
    file: Option<File>,
    may_be_mirror: bool,
    fault: Option<InputFault>,
}

impl Input {
    /// The file of this name, or standard input.
    pub fn open(rt: &HostRuntime, name: &str) -> Input {
        let (file, fault) = if name == INPUT {
            (None, None)
        } else {
            match File::open(rt, name) {
                Ok(file) => (Some(file), None),
                Err(error) => (None, Some(InputFault::Io(error))),
            }
        };
        Input {
            rt: *rt,
            may_be_mirror: file.is_some(),
            file,
            fault,
        }
    }

    /// Why a read failed.
    pub fn fault(&self) -> Option<InputFault> {
        self.fault
    }

    // Reads on, and keeps the error.
    fn more(&mut self, part: &mut [u8]) -> io::Result<usize>
        ensures { ReadsAtMost result part.new }
    {
        let given = match (&mut self.file, self.fault) {
            (_, Some(InputFault::Io(error))) => Err(error),
            (_, Some(InputFault::Mirror)) => Err(io::Error::from(io::ErrorKind::InvalidData)),
            (Some(file), None) => file.read(part),
            (None, None) => self.rt.reader().read(part),
        };
        if let (Err(error), None) = (&given, self.fault) {
            self.fault = Some(InputFault::Io(*error));
        }
        given
    }
}

impl Read for Input {
    /// An error where a file begins as that of a mirror does.
    fn read(&mut self, buf: &mut [u8]) -> io::Result<usize> {
        if !self.may_be_mirror {
            return self.more(buf);
        }
        self.may_be_mirror = false;
        let mut count = 0;
        for _ in 0..MIRROR.len() {
            if count >= MIRROR.len() || count >= buf.len() {
                break;
            }
            let given = self.more(&mut buf[count..])?;
            if given == 0 {
                break;
            }
            count += given;
        }
        let held = count.min(buf.len());
        if buf[..held].starts_with(&MIRROR) {
            self.fault = Some(InputFault::Mirror);
            return Err(io::Error::from(io::ErrorKind::InvalidData));
        }
        Ok(held)
    }
}
