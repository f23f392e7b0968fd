//! The words of the command line, read.
ghost use Rattle.std.specs.Prelude.{IfNone, IfSome};
ghost use Rattle.dm_words.specs.Requests.{AsksNothing, IsAsked};

use crate::commands::program;
use crate::request::Request;
use clap::error::ErrorKind;
use clap::{ArgMatches, Error};
use std::alloc::{AllocError, Global};
use std::io;
use std::rt::Runtime;

/// The words of the command line, read.
#[derive(Drop)]
pub struct Words<'a> {
    matches: ArgMatches<'a>,
}

impl<'a> Words<'a> {
    /// Reads the words of a process, of which the first is the program's name.
    pub fn read(alloc: Global, words: &'a [String]) -> Result<Words<'a>, Unread> {
        let program = program(alloc)?;
        match program.try_get_matches_from(words) {
            Ok(matches) => Ok(Words { matches }),
            Err(error) => Err(Unread::of(error)),
        }
    }

    /// What they ask for; `None` where they name no command, or a word that it needs isn't there. [`Words::read`] refuses such words of
    /// a command that declares what it needs.
    pub fn request(&self) -> Option<Request<'_, 'a>>
        ensures asked { IfSome result (IsAsked self.now.matches) }
        ensures nothing { IfNone result (AsksNothing self.now.matches) }
    {
        Request::of(&self.matches)
    }
}

/// What is told in the place of a command.
#[derive(Drop)]
pub struct Told {
    error: Error,
}

impl Told {
    /// Prints a help and the version on standard output, and all else on standard error.
    pub fn print<R: Runtime>(&self, rt: &R) -> io::Result<()> {
        self.error.print(rt)
    }
}

/// Why words start no command.
#[derive(Drop)]
pub enum Unread {
    /// An allocation failed.
    NoMemory,
    /// They ask for a help, or for the version.
    Help(Told),
    /// They are no command's.
    Fault(Told),
}

impl Unread {
    fn of(error: Error) -> Unread {
        if let Some(unread) = out_of_memory(error.kind()) {
            return unread;
        }
        if error.use_stderr() {
            Unread::Fault(Told { error })
        } else {
            Unread::Help(Told { error })
        }
    }
}

/// Out of memory, where that is why the words could not be read.
fn out_of_memory(kind: ErrorKind) -> Option<Unread> {
    match kind {
        ErrorKind::OutOfMemory => Some(Unread::NoMemory),
        _ => None,
    }
}

impl From<AllocError> for Unread {
    fn from(_: AllocError) -> Unread {
        Unread::NoMemory
    }
}
