//! Primitive patches, the smallest changes of a tree: what each does, what undoes it, and when two of
//! them, or two lists, change places.
//!
//! It stands on `dm_tree`, and on `dm_tokens` for what a replace does to a line. [`apply`] changes a
//! tree as the definition of its primitive says, or returns the first fault and changes nothing.
//! [`commute`] returns what this project's table, made after Darcs.Patch.Prim.V1.Commute, relates, and
//! none only where it relates nothing; of each answer its contract tells three laws: both orders have
//! the same end on every tree, the answer commutes back, and it commutes past the inverse.
//! [`commute_lists`] does the same for lists. The laws of all values stand in [`laws`]; none has the
//! premise that a patch ever applies.
#![tactic(auto)]

mod binary;
mod effect;
mod glance;
mod hunk;
mod inverse;
pub mod laws;
mod list;
mod pair;
mod passing;
mod places;
mod preference;
mod primitive;
mod replace;
mod sketch;
mod touched;
mod turning;

pub use binary::{Binary, NoContent};
pub use effect::{apply, apply_all};
pub use glance::Glance;
pub use hunk::{Hunk, HunkFault};
pub use inverse::{invert, invert_all};
pub use list::{commute_lists, commute_lists_owned};
pub use pair::{commute, commute_owned};
pub use passing::MOST_PASSED;
pub use preference::{BadPreference, Preference};
pub use primitive::Primitive as Prim;
pub use replace::Replace;
pub use sketch::Sketch;
pub use touched::{Touched, apart, touch};
pub use turning::MOST_TURNED;
