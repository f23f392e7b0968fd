//! Patch infos: the name, author, date and log by which a patch is known, and their text.
//!
//! An [`Info`] owns its four parts, which together are a patch's identity: patch infos are compared,
//! ordered and hashed by all four. [`read_info`] and [`write_info`] stand on the text of Darcs'
//! `Patch.Info` and search it by `memchr`. The theorem of the crate is exactness both ways: what is
//! read is spelled at its place by the rules of that text, what is spelled there is what is read, each
//! fault comes only where it is due, and what is written is read again as the same patch info.
#![tactic(auto)]

mod fault;
mod info;
pub mod laws;
mod opening;
mod reading;
mod validity;
mod writing;

pub use fault::{InfoFault, InfoReadFault};
pub use info::Info;
pub use reading::read_info;
pub use writing::{push_info, write_info};
