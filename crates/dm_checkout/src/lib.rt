//! Writes a tree to a new folder.
//!
//! [`checkout`] makes a folder for each directory of a tree and a file for each file, at the folder's path, a slash, and the names
//! of the entry joined by slashes, a directory before what is inside it. It makes nothing else: no name of a path is empty, `.` or
//! `..`, or holds a slash or a zero byte. By default it refuses a tree with a name that other programs obey, as `.git`, or that a file
//! system may take for one, and a tree with a folder that git takes for a repository ([`Names`]).
//!
//! It sees the disk as a [`Disk`], which tells in contracts what was made on it. The crate's theorem is what a checkout makes
//! there, in which order, and how far it came where it failed ([`checkout`]); and that this is inside the folder ([`laws`]).
//! [`SystemDisk`] is the disk of the system: that each of its methods makes the call that it notes is read from the code, since
//! no contract of the system's calls can say it.
//!
//! A name is written as the patches have it, and a tree with a name that isn't UTF-8 is refused. A patch of a darcs-1
//! repository has each byte past ASCII of a name as a character in UTF-8: such a name differs from the one in the working
//! tree of darcs.
//!
//! Nothing is synced: a checkout that a crash cut can be made again.
#![tactic(auto)]

mod disk;
mod fault;
mod item;
pub mod laws;
mod names;
mod notes;
mod place;
mod reach;
mod record;
mod refusing;
mod repositories;
mod seen;
mod system;
mod writing;

pub use disk::Disk;
pub use fault::{CheckoutFault, FolderFault, Place, Refused, Why};
pub use item::{Content, Item, item_of};
pub use names::Names;
pub use place::place_of;
pub use reach::Reached;
pub use system::SystemDisk;
pub use writing::{Progress, checkout};
