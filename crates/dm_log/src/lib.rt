//! The text of a log: what `darcs log` tells of each patch.
//!
//! [`write_entries`] writes the entries of a repository's patches, or of a bundle's new ones ([`Patches`]): the hash by which Darcs
//! names the patch, its author, its date, its name and its log, and what it does where that is asked for
//! ([`LogOptions`]): its canonical text, but of a binary its path alone. [`write_json`] writes the same for programs, a line of JSON for
//! each patch. [`write_context`] writes what `darcs log --context` prints, which `darcs send --context` reads. The theorem of
//! the crate is what the text is, byte for byte. [`write_paths`] writes a line for each path that the patches touch.
//!
//! What a stranger wrote is shown by the rule of `dm_quoted`, but that tabs stay. A text in UTF-8 stands as it is, but for what a
//! terminal might act on: of these characters each byte is escaped, as `\x1b`. Of a text that isn't UTF-8 each byte past ASCII is
//! escaped too. A backslash stands as it is. What a patch does stands line by line, each behind four spaces. So no terminal acts on a
//! log ([`laws`]), and no patch forges an entry. A context and JSON aren't shown like that: they are for a pipe.
#![tactic(auto)]

mod context;
mod date;
mod entry;
mod finding;
mod json_lines;
mod key;
mod keys;
pub mod laws;
mod log;
mod options;
mod patches;
mod paths;
mod shown;
mod verbose;

pub use context::write_context;
pub use entry::{hash_of, push_entry};
pub use finding::{Found, find_patch, hash_text};
pub use json_lines::{Object, hash_value, patch_object, write_json};
pub use log::{count_of, place_of, write_entries, write_log};
pub use options::LogOptions;
pub use patches::Patches;
pub use paths::write_paths;
