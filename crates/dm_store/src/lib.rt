//! A repository that lasts: it is kept in a journal, whose entries are the bundles that were taken, in order, each with the
//! policy under which it was taken; the first may be a whole repository instead.
//!
//! [`Store::open`] takes the entries again, one after the other, so what a file keeps is the plain fold of its entries.
//! [`Store::take`] answers once the text is on the disk; a crash at any moment of a call leaves a file that keeps the
//! repository from before it, or the one that the text leaves. [`Store::checkpoint`] puts one entry in the place of all: the
//! bundle of all patches, with an empty context. [`Store::replace`] puts that of another repository there, and
//! [`Store::let_go`] that of the patches that stay, while another file has the others. [`Store::widen`] puts the same repository
//! into a file that reads all kinds.
//!
//! The format of its file says which kinds of primitives a store reads ([`Store::kinds`]), so no call says it again.
//!
//! The [`laws`] say that a file keeps one repository, that a bundle that comes twice is taken once, and that an empty
//! repository which takes all patches of another has just these.
//!
//! The crate stands on dm_journal for the file, on dm_scratch for taking a text, and on dm_bundle for writing one.
#![tactic(auto)]

mod entries;
mod fault;
mod growth;
mod keeping;
mod kinds;
pub mod laws;
mod letting_go;
mod opening;
mod store;
mod whole;
mod widening;

pub use fault::StoreError;
pub use kinds::are_of;
pub use store::Store;
