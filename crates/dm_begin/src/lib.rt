//! A mirror that begins at a tag: a repository of patches with the names that the tag covers, which makes the tag's tree
//! without what these patches did.
//!
//! The crate stands on dm_repo's repositories and on dm_tree's trees. [`begin`] returns a patch for each name, each of which rests
//! on the one before it, and the primitives that make the tree in the last of them. They are a beginning
//! ([`laws::a_tree_has_a_beginning`]). Its theorem is [`laws::answers_alike`]: a repository that begins so answers a bundle as one
//! does that has the whole history behind these names and this tree, wherever the bundle has all of the names in common with it.
//!
//! The first patches of a repository, so many of them, may be its base if they have the form of a beginning at a tag
//! ([`may_be_base`], [`laws::a_beginning_is_a_base`]). Later patches don't change it ([`laws::a_base_stays`]). A bundle that hasn't the whole base in common is refused ([`is_before_base`]), and nothing is sent to somebody who hasn't the
//! base ([`knows_base`]). Of what is sent the context names of the base the tag alone ([`cut_base`]), which changes no answer
//! ([`laws::cut_contexts_answer_alike`]).
#![tactic(auto)]

mod base;
mod beginning;
mod cutting;
pub mod laws;
mod making;
mod names;
mod sharing;
mod spreading;

pub use base::{base_len, may_be_base};
pub use beginning::{BeginFault, begin};
pub use cutting::cut_base;
pub use sharing::{is_before_base, knows_base};
