//! A bundle for somebody who holds other patches (`darcs send`), of patches that go (`darcs obliterate`), and of a patch that
//! undoes others (`darcs rollback`).
//!
//! [`send`] splits a repository by the names of the patches that somebody else holds: what both hold goes to the front, and
//! the other patches, as they stand behind it, are the new patches of the bundle. Its context names what both hold.
//! [`send_minimal`] names only those of them that the new patches need. [`read_names`] reads which patches somebody holds.
//!
//! The crate stands on dm_repo for splitting and weighing. Its theorem is the contract of [`send`]: the repository of just the shared
//! patches, as they stand in front here, takes the bundle whole. If none of the others is left out, it then has the tree of the
//! repository that it was sent from.
//!
//! [`obliterate`] takes patches out of a repository, and the bundle that it returns brings them back: what stays takes it as it is, and
//! then has the tree from before; [`bound_to`] tells which patches would go besides. [`roll_back`] returns the bundle of a new patch,
//! with which the repository has the tree that it has without the patches that are undone.
#![tactic(auto)]

pub mod laws;
mod leaving;
mod minimizing;
mod obliterating;
mod sending;
mod shared;
mod telling;
mod undoing;

pub use leaving::bound_to;
pub use obliterating::{Obliterated, obliterate};
pub use sending::{send, send_minimal};
pub use telling::read_names;
pub use undoing::{UndoFault, roll_back};
