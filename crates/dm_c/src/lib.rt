//! The library for C: proved calls that take and give numbers, bytes and a handle.
//!
//! A text is given into room of the caller's. [`dm_check`] and [`dm_verdict_line`] need no repository. A repository is behind a
//! [`Handle`] that C keeps: [`dm_repo_new`] fills it, [`dm_repo_free`] empties it, and every other call takes the repository out,
//! calls one function of a crate below, and puts it back. So a handle is never in memory that can't be written, though a call only
//! reads. `alloc` takes no bytes: C passes nothing for it.
//!
//! The crate stands on dm_scratch for taking, on dm_send, dm_log and dm_explain for what is given of a repository. Its theorem is that
//! each call says in numbers what the call below says in values: their clauses are stated again. A call that answers anything but
//! that it is done, or that the answer is no, leaves all that it was lent as it was, but for the length that a text needs.
//!
//! The caller owes what no proof can see. Each pointer points to as much memory as its type or the length beside it says, is never
//! null, and nothing else reads or writes there during the call; what two parameters point to doesn't overlap. A handle is begun
//! empty (`false`, null), its fields belong to the library, it isn't copied, and it is used on one thread at a time. `malloc`, `realloc`
//! and `free` come from one allocator.
#![tactic(auto)]

mod buffer;
mod check;
mod explain;
mod file;
mod handle;
mod inner;
pub mod laws;
mod loose;
mod numbers;
mod repository;
mod send;
mod shown;
mod status;
mod version;

pub use check::{dm_check, dm_verdict_line};
pub use explain::dm_repo_explain;
pub use file::dm_repo_file;
pub use handle::Handle;
pub use numbers::{LimitNumbers, VerdictNumbers};
pub use repository::{dm_repo_free, dm_repo_len, dm_repo_new, dm_repo_take};
pub use send::dm_repo_send;
pub use shown::{dm_repo_bundle, dm_repo_context, dm_repo_listing, dm_repo_name};
pub use status::Status;
pub use version::dm_version;
