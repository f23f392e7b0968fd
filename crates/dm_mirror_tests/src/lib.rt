//! Tests of `dm_mail` and `dm_mirror`, and nothing else: of mails, and of plans and their runs.
//!
//! They show what no contract says and no command shows: that mails come, and when none come any more; that mirrors run at once,
//! each under its own policy, and eight with eight posters; why there is no plan; and which writes of a report fail.
#![tactic(auto)]

mod asking;
#[cfg(test)]
mod eights;
#[cfg(test)]
mod mails;
#[cfg(test)]
mod mirrors;
#[cfg(test)]
mod plans;
#[cfg(test)]
mod races;
#[cfg(test)]
mod reports;
