//! The trailer of a bundle: the line `Patch bundle hash:`, and behind it a hash of the new patches.
//!
//! Darcs hashes the new patches by SHA-1 as its repository keeps them, and it keeps them in two ways, by the repository's format.
//! This crate uses `dm_bundle` for bundles, and `sha1`.
//!
//! What is proved: [`read_hashed`] returns the bundle that a text stands for, and says of the trailer exactly what stands there: no
//! hash, the hash of the new patches in one of the two ways, or another. [`write_hashed`] returns the canonical text with the
//! trailer of the first way behind it, which is right.
#![tactic(auto)]

mod kept;
pub mod laws;
mod reading;
mod trailer;
mod writing;

pub use reading::{Hashed, read_hashed};
pub use trailer::Trailer;
pub use writing::write_hashed;
