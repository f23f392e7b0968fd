//! Bundles that are delivered to a mirror that lasts: each text of a source is taken into a store, and answered by a line once
//! it stands on the disk: that of its verdict, or, where a rule refuses the hash with which the bundle ends, or a date, that of this
//! fault, or that the bundle doesn't rest on the whole base with which the repository begins.
//! A [`Source`] gives the texts. [`Framed`] takes them from a reader, each after a line with its length.
//! A [`Form`] says how the lines are written. An [`Observer`] sees each text before it is taken and after it is answered.
#![tactic(auto)]

mod answers;
mod base_rule;
mod bundle_rule;
mod call_log;
mod date_rule;
mod delivery;
mod fault;
mod form;
mod frame_fault;
mod framed;
mod hash_rule;
pub mod laws;
mod line;
mod observer;
mod place;
mod source;
mod watched;

pub use answers::{Answer, push_answer};
pub use base_rule::text_is_before_base;
pub use bundle_rule::BundleRule;
pub use date_rule::{DateRule, date_fault_within};
pub use delivery::{answer, deliver};
pub use fault::{AnswerError, DeliverError};
pub use form::Form;
pub use frame_fault::{FrameFault, FrameFaultKind};
pub use framed::Framed;
pub use hash_rule::{HashFault, HashFaultKind, HashRule, hash_fault_within};
pub use observer::Observer;
pub use source::Source;
pub use watched::Watched;
