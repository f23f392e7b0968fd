//! The content of a file as hex digits, both ways: darcs writes so the whole content of a file before and after a change.
//!
//! A content is seen as its lines, the pieces between its newlines. As digits it is lines too, of two digits for each byte.
//! This crate uses `dm_tree` for lines, `hex` and `memchr`.
//!
//! What is proved: [`read_content`] returns the lines of the one content that lines of digits stand for, or none only if they
//! stand for no bytes. [`write_content`] appends the one text that a content has: lines of 39 bytes, each behind a star, and the
//! last one shorter, maybe empty. What is written stands for the content ([`laws::written_stand_for_bytes`]).
#![tactic(auto)]

pub mod laws;
mod reading;
mod writing;

pub use reading::read_content;
pub use writing::{len_of_content, push_content, write_content};
