//! Mirrors of one run agree, if a name stands for one patch: those whose repositories hold the same names hold the same tree, and
//! where the run accepted all, all of one base do. The laws speak of what `dm_mirror::Outcome` and `dm_repo::Repo` tell.
//!
//! [`names_stand_for_one`] tells whether a name stands for one patch in what is sent, and if not, which doesn't.
#![tactic(auto)]

pub mod laws;
mod names;
mod owners;
mod same;

pub use names::names_stand_for_one;
