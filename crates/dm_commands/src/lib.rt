//! What the commands of `dm` answer, over any reader, writer and device; `dm_files` adds the files, `dm_remarks` the explanations, and
//! the program `dm_tool` the words.
//!
//! [`check_over`] reads a bundle and writes its canonical text, or what is wrong with it and where. [`apply_over`] takes one into the
//! repository that another bundle makes, or into an empty one, and writes the verdict with the listing of the tree, or with all
//! patches as a bundle. [`run_over`] lets posters send bundles to mirrors, in threads, and writes what each took, and its tree.
//! [`send_over`] writes the bundle of what somebody lacks. Their contracts are the program's theorems: over a reader and a writer that
//! tell their bytes, what is written and the exit status are those of the bundle that the text stands for, or of the text's first
//! fault, or those of taking it, or of a run in which no bundle is lost, doubled or reordered, or of the bundle for somebody who
//! holds other patches.
//!
//! Of a mirror that a file keeps, [`kept_mirror`] opens it and [`new_mirror`] begins one, [`keep_and_let_go`] takes patches out so that
//! a crash at any moment loses none, [`repo_at_tag`] is the repository of one that begins at a tag, and [`context_of`] is what
//! `dm log --context` prints of it.
#![tactic(auto)]

mod alike;
mod apply;
mod base;
mod beginning;
mod check;
mod context;
mod fault;
mod mirror;
mod obliterating;
mod print;
mod running;
mod send;
mod status;
mod streams;
mod tag;
mod telling;
mod undoing;

pub use alike::{Mirrors, run_mirrors};
pub use apply::{Applied, apply_in, apply_over};
pub use base::{Base, repo_of, repo_of_base};
pub use beginning::{StartFault, repo_at_tag};
pub use check::{
    CheckOutput, Checked, Unread, check_hash_within, check_over, check_paths_over, check_within,
};
pub use context::context_of;
pub use fault::ToolFault;
pub use mirror::{MirrorFault, Unbegun, kept_mirror, kept_or_new_mirror, new_mirror};
pub use obliterating::{Unkept, keep_and_let_go, obliterate_unless_base};
pub use print::push_repo;
pub use running::{Bases, Ran, run_over};
pub use send::{Sent, refusal_line, send_over, text_of};
pub use streams::{read_within, write_text};
pub use tag::{BaseTag, base_tag, before_base_line, names_base};
pub use telling::{sent_line, tell_within};
pub use undoing::undo_chosen;
