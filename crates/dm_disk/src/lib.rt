//! A file on a disk, as a journal sees it: [`DiskFile`] is a [`dm_journal::Device`].
//!
//! Which bytes reach the disk no contract of the system's calls can say. So each method of [`DiskFile`] makes its call and
//! notes it, with its outcome, in a [`record::Record`], which no memory has. A `DiskFile` is in contracts this list of events,
//! and `specs/States` says what they tell of the file: what a read returns, and what a crash may leave under its name.
//!
//! # Proved
//!
//! Every clause of [`dm_journal::Device`], of that record. Later calls use the path that was noted when the file was opened. A file that was just opened is durable, as a store asks of it.
//! No call fails without a fault in the record. As many bytes were read as the system told that there are. A new file was made
//! for its owner alone, and took the name with the same owner and group. It took the mode only where the group and others have the
//! same bits, or where the file system gave it by itself, else the bits of its owner alone. The two functions of `record` are
//! proved by hand, since they set what no memory holds.
//!
//! # Read from the code
//!
//! These no proof shows. Whoever trusts a store in a file trusts them.
//!
//! - Each method of `file` makes the call that it notes: a body that notes a sync and makes none, or opens another name than it notes, would be proved as well.
//!   What it calls stands in `file`, `opening`, `beside` and `back`. No other code writes to a `Record`.
//! - The disk does what `specs/States` says: a sync that was done has put the file or the folder there; a write that a crash
//!   cuts short changes no byte outside its range, and may leave any in it; a crash leaves the old name or the new one of
//!   a file that is renamed. The folder itself stands on the disk already.
//! - What a read returns is what the last sync put on the disk. Where an earlier process was told that a sync failed, the
//!   system may show what isn't there, and the sync at the opening doesn't tell.
//! - A crash in the middle of a call leaves what it might have left before the call or after it.
//! - What stands under the name of a new file, which has the number of the file's inode in it, is removed only where it is a
//!   regular file of one name that nobody has locked.
//! - A file that gets its name back has all bytes of the file that has it, on the disk. `back` copies them and syncs. That file has
//!   its access control list as before: no call of the toolchain tells one.
//! - No write goes past the limit on the size of files that `/proc/self/limits` tells.
//! - Nobody else writes to the file. The lock holds off everybody who opens it by this crate; on a network's file system it
//!   does what that promises.
#![tactic(auto)]

mod back;
mod beside;
mod closed;
mod fault;
mod file;
mod limit;
mod notes;
mod opening;
mod record;
mod rehearsal;

pub use closed::ClosedFile;
pub use fault::OpenFault;
pub use file::DiskFile;
pub use opening::{Access, Lock};
pub use rehearsal::Rehearsal;
