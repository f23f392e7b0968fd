//! The words of the command line of `dm`: its commands, what each of them takes, and what was asked. [`Request`] is what the words
//! ask for: each command is a variant, with a field for each of its words. The crate stands on `clap` alone, and no other crate
//! of the program does; it says nothing of what a command does.
#![tactic(auto)]

mod arguments;
mod building;
mod commands;
mod help;
mod natural;
mod reading;
mod request;

pub use commands::VERSION;
pub use natural::name_mirror;
pub use reading::{Told, Unread, Words};
pub use request::{
    Apply, BaseWords, Check, Checkout, Init, Log, Obliterate, Request, Rollback, Run, Send, Upgrade,
};
