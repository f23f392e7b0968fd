//! An answer for programs: what a verdict says, as a line of JSON.
//!
//! [`answer_line`] is the line of an answer: the word of its verdict, its plain text, and the patches that it is about, by their places,
//! hashes and names; of a text that is no bundle, at which byte, line and column its fault stands. [`sound_line`] is the line of a bundle
//! in which nothing is wrong. The repository is the one that the answer left; [`text_line`] is the line where there is none, and
//! [`own_line`] where no text has a part in it. [`made_line`], [`bound_line`] and [`begun_line`] tell what other commands answer.
//! [`Said`] is what they say in plain words. [`AnswerForm`] is the form in which answers are written, plain or as JSON.
//!
//! The crate stands on dm_deliver's answers, on dm_explain for who stands at a place, and on dm_log for hashes and for objects that are
//! built. Its theorem is the contract of [`answer_line`]: the line is the compact text of the answer's value, and reads back as it.
#![tactic(auto)]

mod answer;
mod fault;
mod form;
mod line;
mod made;
mod named;
mod refusal;
mod said;
mod taken;

pub use answer::{answer_line, own_line, text_line};
pub use form::AnswerForm;
pub use made::{begun_line, bound_line, made_line, sound_line};
pub use said::Said;
