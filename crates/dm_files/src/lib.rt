//! The files that the words of a command name, as texts, mirrors and folders, and the commands whose work is done on them: `dm init`,
//! `dm apply --mirror`, `dm checkout`, `dm obliterate`, `dm rollback` and `dm upgrade`.
//!
//! [`WordFault`] says why words start nothing, or why what they started gives no answer, and [`tell`] prints it. [`apply_to_mirror`]
//! rests on theorems: what comes is answered in turn by what the mirror held, each line stands behind the taking that it tells, and
//! what a crash leaves is what was taken before it.
#![tactic(auto)]

mod base_tag;
mod beginning;
mod bundles;
mod checking_out;
mod choosing;
mod delivering;
mod files;
mod from_folder;
mod input;
mod listing;
mod mirror;
mod names_fault;
mod obliterating;
mod outcome;
mod progress;
mod take_back_fault;
mod telling;
mod undoing;
mod upgrading;
mod word_fault;
mod words;

pub use base_tag::say_base;
pub use beginning::init;
pub use checking_out::check_out;
pub use choosing::label_of;
pub use delivering::{apply_each, apply_to_mirror};
pub use files::{BaseFile, Files, SystemFiles, base_of, blame_input, read_base, read_file};
pub use input::{INPUT, Input};
pub use listing::Listing;
pub use mirror::{KeptRepo, read_repo};
pub use names_fault::NamesFault;
pub use obliterating::{obliterate_chosen, write_bundle_file};
pub use outcome::Outcome;
pub use take_back_fault::TakeBackFault;
pub use telling::{Manner, NO_ANSWER, exit_status, fixed_manner, tell};
pub use undoing::roll_back_chosen;
pub use upgrading::upgrade;
pub use word_fault::WordFault;
pub use words::{kinds_of, policy_of, refuse_kinds};
