//! A command, to which words are added.
use clap::{Arg, ArgGroup, Command};
use std::alloc::{AllocError, Global};

/// A command, to which words are added. Once memory runs out, those that follow are passed over.
#[derive(Drop)]
pub struct Building<'a> {
    command: Result<Command<'a>, AllocError>,
}

impl<'a> Building<'a> {
    /// A command of this name without words, and what its help says before and behind them.
    pub fn new(alloc: Global, name: &'a str, about: &'a str, after: &'a str) -> Building<'a> {
        let command = Command::new(alloc, name).about(about).after_help(after);
        Building::of(Ok(command))
    }

    /// This command, if there was memory for it.
    pub fn of(command: Result<Command<'a>, AllocError>) -> Building<'a> {
        Building { command }
    }

    /// Adds a command below this one, if there was memory for it.
    pub fn try_command(self, below: Result<Command<'a>, AllocError>) -> Building<'a> {
        let Building { command } = self;
        Building {
            command: with_command(command, below),
        }
    }

    /// Adds a word.
    pub fn arg(self, arg: Arg<'a>) -> Building<'a> {
        self.try_arg(Ok(arg))
    }

    /// Adds a word, if there was memory for it.
    pub fn try_arg(self, arg: Result<Arg<'a>, AllocError>) -> Building<'a> {
        let Building { command } = self;
        Building {
            command: with_arg(command, arg),
        }
    }

    /// Adds a group of words, if there was memory for it.
    pub fn try_group(self, group: Result<ArgGroup<'a>, AllocError>) -> Building<'a> {
        let Building { command } = self;
        Building {
            command: with_group(command, group),
        }
    }

    /// The command with its words.
    pub fn done(self) -> Result<Command<'a>, AllocError> {
        self.command
    }
}

fn with_arg<'a>(
    command: Result<Command<'a>, AllocError>,
    arg: Result<Arg<'a>, AllocError>,
) -> Result<Command<'a>, AllocError> {
    command?.arg(arg?)
}

fn with_group<'a>(
    command: Result<Command<'a>, AllocError>,
    group: Result<ArgGroup<'a>, AllocError>,
) -> Result<Command<'a>, AllocError> {
    command?.group(group?)
}

fn with_command<'a>(
    command: Result<Command<'a>, AllocError>,
    below: Result<Command<'a>, AllocError>,
) -> Result<Command<'a>, AllocError> {
    command?.subcommand(below?)
}
