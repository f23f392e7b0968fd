//! Tokens of a set of bytes, and texts in which a token becomes another one: what `darcs replace` does to a line.
//!
//! A set is written between brackets, as in `[A-Za-z_0-9]` ([`TokenSet::read`]). It cuts a text into pieces, each of bytes of the
//! set or of bytes outside of it. A piece of the set's bytes is a token. To turn a text is to put the new token in place of each
//! old one; a text in which the new one stands, and isn't the old one, turns to nothing, since nobody could turn it back. This crate
//! uses `thiserror`.
//!
//! What is proved: a set has exactly the bytes that its text means, or the text means none. [`turn_into`] appends the one text that
//! a text turns to, or nothing only if it turns to none. What is turned turns back ([`laws::turning_turns_back`]), keeps its pieces
//! ([`laws::turning_keeps_pieces`]) and its lines ([`laws::turned_lines_are_lines`]). It is what exchanging the two tokens does
//! ([`laws::turning_exchanges`]), and that is a map on all texts. [`Tokens`] are two tokens of a set as a patch names them, or it is
//! refused.
#![tactic(auto)]

pub mod laws;
mod pieces;
mod set;
mod tokens;
mod turning;

pub use pieces::has_piece;
pub use set::TokenSet;
pub use tokens::{BadTokens, Tokens};
pub use turning::{Turned, room_after, turn_into, turns};
