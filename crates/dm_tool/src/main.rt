//! The program `dm`: Darcs patch bundles from the command line.
//!
//! `dm check` reads a bundle and prints its canonical text, or what is wrong with it and where. `dm apply` takes one into the
//! repository that another bundle makes, and prints the verdict with the listing of the tree, or with all patches as a bundle.
//! `dm run` lets posters send bundles to mirrors, in threads, and prints what each mirror took, and its tree. `dm send` prints the
//! bundle of what somebody lacks. `dm init` makes a mirror, which a file keeps, and `dm apply --mirror` takes bundles into it;
//! `dm log` prints its patches, and `dm checkout` writes its tree. `dm obliterate` takes patches out of it, and `dm rollback` prints
//! the bundle of a patch that undoes others. `dm upgrade` makes an old mirror read all kinds of primitives.
//!
//! The words are read in `dm_words`. What the commands answer is in `dm_commands`, what is done on files in `dm_files`, and what
//! `--explain` adds in `dm_remarks`, each with its theorems. This crate asks them for what was asked.
#![tactic(auto)]

mod commands;

use std::io::IsTerminal;
use std::process::ExitCode;

fn main(rt: HostRuntime) -> ExitCode {
    let is_terminal = rt.stderr().is_terminal();
    ExitCode::from(commands::start(&rt, &rt, is_terminal))
}
