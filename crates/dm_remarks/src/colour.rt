//! Whether explanations are in colour.
use std::env::{self, VarError};
use std::fmt::Display;
use std::rt::Runtime;

/// What begins coloured text on a terminal: cyan.
const BEGIN: &str = "\x1b[36m";

/// What ends it.
const END: &str = "\x1b[0m";

/// How explanations are printed.
#[derive(Clone, Copy, PartialEq, Eq, Debug)]
pub enum Colour {
    /// As they are.
    Plain,
    /// In cyan, so that they stand apart from the answer.
    Cyan,
}

/// Colour for a terminal alone, and only where the variable `NO_COLOR` isn't set, or is empty (<https://no-color.org>).
pub fn colour_of<R: Runtime + AllocGlobal>(rt: &R, is_terminal: bool) -> Colour {
    if !is_terminal {
        return Colour::Plain;
    }
    match env::var(rt, "NO_COLOR") {
        Ok(value) => {
            if value.is_empty() {
                return Colour::Cyan;
            }
            Colour::Plain
        }
        Err(VarError::NotPresent) => Colour::Cyan,
        Err(_) => Colour::Plain,
    }
}

/// Prints a part of an explanation on standard error. Where that fails, it is cut.
pub fn say<R: Runtime + AllocGlobal, T: Display>(rt: &R, colour: Colour, text: &T) {
    let _ = match colour {
        Colour::Plain => rt.eprint(text),
        Colour::Cyan => rt.eprint(format_args!("{BEGIN}{text}{END}")),
    };
}
