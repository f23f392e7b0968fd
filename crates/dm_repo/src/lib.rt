//! A repository of named patches, and how a bundle is taken into it (`darcs apply --no-allow-conflicts`).
//!
//! A repository is a list of patches, and keeps an index of their names and the tree that they make ([`Repo`]). [`weigh`]
//! looks up what a bundle rests on, splits the repository into that and the rest as [`split`] does, applies the new patches
//! after the first part and merges them with the second; [`weigh_owned`] does so with a bundle that is given up. All of that is
//! tried on the part of the tree that the patches reach, and the patches of the repository that have nothing to do with the bundle
//! are neither copied nor undone, where they can be told from the others. What they answer is appended by [`Repo::append`], or copied by
//! [`Repo::prepare`], which makes all room, and appended by [`Repo::commit`], which can't fail.
//! For people [`find_misfit`] tells where a new patch doesn't fit, and why; [`find_overflow`] where one goes past a limit;
//! [`find_clash`] which primitives of a new patch and of a held one can't pass each other; [`find_skips`] which patches are
//! skipped where conflicts are, and what stops each of them.
//!
//! The crate stands on dm_bundle's bundles, on dm_named's patches and when they commute, and on dm_prim's laws of commutation.
//! Its theorem is the contract of [`weigh`]: it returns the merged patches and the part of the tree after them, or the first refusal in
//! order, with the place or the pair that it is about; and the [`laws`]: front then rest make the repository's tree, what
//! fits and is merged applies after the repository, and weighing has one answer. [`law_both_orders`] takes two bundles in both
//! orders: where they share no patch and rest on the whole repository, both end at the same tree.
#![tactic(auto)]

mod basis;
mod clash;
mod dependencies;
mod fit;
pub mod laws;
mod lookup;
mod marks;
mod merge;
mod misfit;
mod names;
mod near;
mod nearby;
mod orders;
mod overflow;
mod parted;
mod passing;
mod policy;
mod refusal;
mod repo;
mod sifting;
mod skip;
mod skips;
mod stop;
mod tops;
mod trial;
mod weighed;

pub use clash::{Clash, find_clash};
pub use misfit::{Misfit, find_misfit};
pub use names::copy_names;
pub use orders::law_both_orders;
pub use overflow::{Overflow, find_overflow};
pub use parted::{Parted, split};
pub use policy::Policy;
pub use refusal::Refusal;
pub use repo::{Ready, Repo};
pub use skip::{Skip, Stopper};
pub use skips::find_skips;
pub use weighed::{Merged, Weighed, weigh, weigh_owned};
