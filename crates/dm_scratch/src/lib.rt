//! Taking a bundle into a repository (`darcs apply --no-allow-conflicts`, or with patches that conflict skipped), from its
//! bytes to the repository's tree.
//!
//! [`take`] reads a text in an arena, weighs its bundle against the repository there, and copies what is accepted out of
//! the arena, once, and appends it; where that fails the repository is as it was. A text that isn't taken has touched nothing but
//! the arena. [`take_in`] does so with the kinds of primitives that the caller allows, and [`take_each`] takes texts in turn;
//! [`take_within`] takes one without an arena, within limits of the caller's, and [`take_read`] a bundle that was read so. [`push_verdict`] and [`push_listing`] print a
//! verdict and a tree.
//!
//! The crate stands on dm_bundle for the text of bundles, on dm_repo for weighing and appending, and on `bumpalo` for the
//! arena. Its theorem is the contract of [`take`]; the [`laws`] say that a repository and a text have one outcome.
#![tactic(auto)]

pub mod laws;
mod printing;
mod trial;
mod verdict;

pub use printing::{push_listing, push_verdict};
pub use trial::{take, take_each, take_in, take_read, take_within};
pub use verdict::Verdict;
