//! Dates of patches: which of them Darcs can read.
//!
//! A patch's date is any bytes. Darcs reads it late, when it takes or shows the patch, and ends with an exception where it can't.
//! [`is_readable`] tells the dates that Darcs 2.16 reads from the others. There are five forms:
//!
//! - fourteen digits, as Darcs writes them today: `20030404165651`. What stands behind them is passed over;
//! - the old form, as Darcs 1 wrote it: `Fri Apr  4 16:56:51 EST 2003`;
//! - that of mails: `Fri, 4 Apr 2003 16:56:51 EST`;
//! - that of CVS: `2003/4/4 16:56:51`, with a zone or without;
//! - those of ISO 8601: `2003-04-04T16:56:51Z`, `2003W145`, `2003-094`, shorter ones, and ones without dashes and colons.
//!
//! A month is one of twelve. An offset is at most twelve hours to the west, and fourteen to the east. Days, hours, minutes and seconds
//! have as many digits as their form has, and any value: Darcs counts on from the 99th day.
//!
//! Darcs can't read the last second before 1970 of its own clock, since the C library tells a failure by that number. Here the clock
//! is UTC. That second is refused in fourteen digits and in the old form, and let through in the other forms.
#![tactic(auto)]

mod digits;
mod iso;
mod names;
mod old;
mod pieces;
mod readable;
mod written;
mod zones;

pub use readable::is_readable;
