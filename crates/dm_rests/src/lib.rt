//! The log of a repository for programs, where each patch stands with those that rest on it: without it they couldn't stay.
#![tactic(auto)]

mod lines;

pub use lines::write_rests;
