//! Paths, lines and trees of files, under any allocator.
//!
//! A tree is what a Darcs repository records: directories and files of lines, each at a path of
//! 1 to 32 names. [`Tree`] is seen as one finite map from paths to entries, the root being a
//! directory, and each of its changes is one that a primitive patch makes (Darcs manual,
//! "Patches"; Prim.V1): adding and removing an empty file or an empty directory, moving what is at
//! one path to another, and replacing lines of a file.
//!
//! The crate stands on `std` and `thiserror`. Its theorem is that every change returns the first fault that
//! holds, in a fixed order, or does to the map exactly what that primitive does; that a refusal
//! leaves the tree as it was; and that a tree is always lawful: what holds something is a
//! directory, a file has a line, and no path has more than 32 names ([`laws::tree_is_lawful`]).
#![tactic(auto)]

mod bytes;
mod chain;
mod edit;
mod ends;
mod entry;
mod fault;
mod file;
mod file_lines;
mod gap;
pub mod laws;
mod limits;
mod lines;
mod listing;
mod node;
mod part;
mod parts;
mod path;
mod put_part;
mod rename;
mod text;
mod text_ref;
mod tree;

pub use entry::{Entry, FileRef};
pub use fault::{LineFault, PathFault, TreeFault};
pub use file_lines::FileLines;
pub use limits::{MOST_NAME_BYTES, MOST_NAMES};
pub use lines::Lines;
pub use listing::{Kind, Listed};
pub use path::Path;
pub use tree::Tree;
