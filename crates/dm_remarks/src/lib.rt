//! What `--explain` says on standard error beside an answer: why a text is no bundle, whom a verdict is about, what is wrong with a
//! hash, and whether the mirrors of a run had to agree. The answer stands by then: where nothing can be printed, or memory runs out,
//! what is said is cut.
//!
//! `dm_explain` finds the reasons and has the words; this crate asks it of what the commands answered, and prints. [`explain_agreement`]
//! says what `agreement_of` finds, which has a theorem: that the mirrors had to have one tree is found only where they had to.
#![tactic(auto)]

mod agreeing;
mod colour;
mod explaining;
mod reading;
mod watching;

pub use agreeing::explain_agreement;
pub use colour::{Colour, colour_of, say};
pub use explaining::{
    explain_applied, explain_base, explain_date, explain_hash, explain_hash_fault, explain_run,
    explain_theirs, explain_unread,
};
pub use reading::Reading;
pub use watching::Watcher;
