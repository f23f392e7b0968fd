//! Mail from poster threads to one mirror.
//!
//! [`open`] makes the ends of a mirror's mail: an [`Outlet`] for each poster and the mirror's [`Inlet`]. A poster sends
//! bundles and then its closing mark; the mirror takes the mails of all posters, those of each poster in order. What an
//! end sent or took stands in contracts alone: no list of it is kept. Once the threads have ended, [`settle`] lays a
//! poster's [`Sent`] beside the inlet.
//!
//! The crate stands on `crossbeam_channel`: the mails of all posters of a mirror go through one channel, under a rule
//! that the prover knows. Its theorem is the contract of [`settle`], that the mails that the inlet took from a poster
//! are a prefix of what it sent, with those of [`Outlet::send`], [`Outlet::close`] and [`Inlet::take`]; and the [`laws`]
//! of a mirror's mail with any number of posters.
#![tactic(auto)]

mod ends;
mod inlet;
pub mod laws;
mod mail;
mod opening;
mod outlet;
mod rule;
mod sent;
mod view;

pub use ends::{Inlet, Outlet, Sent};
pub use inlet::{Cut, settle};
pub use mail::{Body, Mail, Text};
pub use opening::{MOST_POSTERS, MOST_WAITING, MailFault, open};
pub use outlet::{MOST_BUNDLES, Unsent, Why};
