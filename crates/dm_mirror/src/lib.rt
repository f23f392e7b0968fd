//! Posters and mirrors in threads.
//!
//! A [`Plan`] has the bundles of each poster, and the base and the policy of each mirror. [`run`] starts a thread for each: a poster sends
//! its bundles to every mirror and then its closing mark; a mirror takes what comes into its own repository, in the order
//! in which it comes. The [`Outcome`] has what each mirror took, with the verdicts and the repository; [`report_text`]
//! prints it. Nothing is kept in a file: the mirror of `--mirror` is that of `dm_store`.
//!
//! The crate stands on dm_mail for the mail of a mirror, on dm_scratch for taking a text, and on `bumpalo` for each
//! mirror's arena. Its theorem is the contract of [`run`]: in every order of the threads' steps each mirror took all that
//! every poster sent, each mail once and in the poster's order, with nothing after the mark; and its repository and
//! verdicts are those of taking the bundles one after the other, in the order in which they came.
#![tactic(auto)]

mod columns;
mod gate;
mod jobs;
mod mirror;
mod outcome;
mod plan;
mod poster;
mod posting;
mod report;
mod running;
mod start_line;
mod taking;
mod threads;

pub use gate::{Gate, Open};
pub use outcome::Outcome;
pub use plan::{MOST_MIRRORS, Plan, PlanFault};
pub use report::{WriteFault, report_text, write_report};
pub use running::run;
pub use threads::RunFault;
