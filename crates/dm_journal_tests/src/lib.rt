//! Tests of `dm_journal`, and nothing else.
//!
//! They show what no contract says: that a call succeeds where memory is ample, that the bytes of a journal are those that
//! they are meant to be, and what a turned bit or a missing byte is told as.
#![tactic(auto)]

mod asking;
#[cfg(test)]
mod chains;
#[cfg(test)]
mod fields;
#[cfg(test)]
mod files;
#[cfg(test)]
mod lanes;
