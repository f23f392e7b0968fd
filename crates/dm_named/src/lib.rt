//! Named patches: their text, and how two of them commute (Darcs.Patch.Named).
//!
//! A named patch is a patch info, the patch infos of the patches that it names as dependencies, and a list of
//! primitive patches. This crate uses `dm_info` for patch infos, `dm_prim` for primitives, `dm_hex` for contents in hex,
//! `dm_tokens` for sets and tokens, and `dm_tree` for paths and lines.
//!
//! What is proved: [`read_named_within`] returns a named patch only if its text is at that place, and then no other patch
//! can be read there. It returns a fault only if the text, read within the limits given, has that fault at that place;
//! [`read_named`] reads within [`Limits::STANDARD`], so primitives of six kinds. [`Limits::with_kinds`] has the reader take
//! three further kinds, which only adds patches ([`laws::kinds_choose_only`]). [`write_named`] appends the canonical text, which
//! is read back as the same patch. [`commute_named`] returns a pair exactly if the two named patches commute.
//!
//! A [`Conflictor`] is a conflict that was merged, with primitives alone in its contexts. [`read_conflictor`] and
//! [`write_conflictor`] do for its text what those two do for a named patch's. [`Conflictor::into_element`] makes the element of a
//! patch of it that `dm_element` commutes, and [`Conflictor::from_conflict`] is the way back.
//!
//! A [`Merged`] is a named patch as merges leave it: conflictors may stand beside its primitives. [`read_merged`] and [`write_merged`] do
//! for it what the others do. Where all its items are primitives, its text is that of a named patch ([`laws::plain_texts_stay`]).
#![tactic(auto)]

mod commuting;
mod conflictor;
mod fault;
mod item;
pub mod laws;
mod limits;
mod merged;
mod named;
mod original;
mod passing;
mod reading;
pub mod text;
mod writing;

pub use commuting::commute_named;
pub use conflictor::Conflictor;
pub use fault::{FaultKind, ReadFault};
pub use item::Item;
pub use limits::{Kinds, Limits};
pub use merged::Merged;
pub use named::Named;
pub use original::Original;
pub use passing::{Passing, are_apart, commute_named_in_place, commute_prims_in_place};
pub use reading::conflictors::read_conflictor;
pub use reading::merged::read_merged;
pub use reading::{read_named, read_named_within};
pub use writing::conflictors::{push_conflictor, write_conflictor};
pub use writing::merged::{push_merged, write_merged};
pub use writing::{push_deps, push_named, push_prim, write_named, write_path};
