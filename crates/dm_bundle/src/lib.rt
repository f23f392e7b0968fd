//! Patch bundles: named patches, oldest first, and a context, the patch infos of the patches that they rest on
//! (Darcs.Patch.Bundle).
//!
//! This crate uses `dm_info` for patch infos and `dm_named` for named patches.
//!
//! What is proved: [`read_bundle_within`] returns a bundle only if the text stands for it, and then the text stands for no
//! other. It returns a fault only if the text has that fault at that place, within the limits given; [`read_bundle`] reads
//! within those of a text that somebody else wrote, and [`read_bundle_to`] says too where the bundle ends. [`write_bundle`]
//! returns the canonical text, which stands for the bundle that was written.
#![tactic(auto)]

mod bundle;
mod context;
mod heading;
mod known;
pub mod laws;
mod limits;
mod patches;
mod reading;
mod replaces;
mod writing;

pub use bundle::{Bundle, Doubled};
pub use limits::are_within;
pub use reading::{read_bundle, read_bundle_to, read_bundle_within};
pub use writing::{push_bundle, write_bundle};
