//! Reads a folder as a tree.
//!
//! [`read_folder`] makes a directory of each directory of a folder and a file of each file, with the lines that its newlines part: the
//! other way round of `dm_checkout`. What is called `_darcs` right inside the folder is left out. What no tree may have is told before a
//! file is read, all of it: a name that no path may have, as `_darcs` further down, a path of too many names, and by default what is
//! neither a directory nor a file, as a symbolic link.
//!
//! It sees the folder as a [`Source`], which says in contracts what it answered. The crate's theorem is which tree comes of which answers,
//! and which fault ([`read_folder`]). [`SystemFolder`] is a folder of the system. It notes each answer of the system right at the call, and
//! gives in contracts what was noted: the names, each with the kind that the system told, and the bytes. That a note is the call's own answer
//! is read from the code, since no contract of the system's calls can say it.
#![tactic(auto)]

mod building;
mod cutting;
mod fault;
mod found;
mod notes;
mod reading;
mod record;
mod row;
mod source;
mod stamp;
mod system;
mod walking;

pub use fault::{FolderFault, Refused, Trouble, Why};
pub use found::{Found, Kind};
pub use reading::read_folder;
pub use source::Source;
pub use system::SystemFolder;
pub use walking::Special;
