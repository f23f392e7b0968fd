//! Dates with a clock, colons between: that of mails, and one with slashes.
ghost use Rattle.std.specs.Prelude.{◌≡◌};
ghost use Rattle.std.specs.Option.{option_copied};
ghost use Rattle.dm_date.specs.Pieces.{passes};
ghost use Rattle.dm_date.specs.Written.{is_empty, is_mail, is_slashed, is_year, is_zone, mail_clock, mail_year, month, short_month, slashed_clock, small_month};

use crate::names::{day_name, month_name};
use crate::pieces::{byte, clock, digit, four_digits, number, short_day, spaces, two_digits};
use crate::zones::zone;

/// Whether nothing is left.
pub(crate) fn is_end(rest: Option<&[u8]>) -> bool
    ensures { result ≡ passes is_empty (option_copied rest.entry) }
{
    match rest {
        Some(rest) => rest.is_empty(),
        None => false,
    }
}

/// Whether these are the four digits of a year, and nothing behind them.
#[tactic(auto, unfolding(crate::specs::Written::is_year))]
pub(crate) fn is_year(text: &[u8]) -> bool
    ensures { result ≡ is_year text.now }
{
    is_end(four_digits(text))
}

/// What follows the year of a date such as `Fri, 4 Apr 2003 16:56:51 EST`.
#[tactic(auto, unfolding(crate::specs::Written::mail_year))]
fn mail_year(text: &[u8]) -> Option<&[u8]>
    ensures { option_copied result ≡ mail_year text.now }
{
    let rest = day_name(text)?;
    let rest = byte(b',', rest)?;
    let rest = spaces(rest)?;
    let rest = short_day(rest)?;
    let rest = spaces(rest)?;
    let rest = month_name(rest)?;
    let rest = spaces(rest)?;
    four_digits(rest)
}

/// What follows the clock of a date of a mail.
#[tactic(auto, unfolding(crate::specs::Written::mail_clock))]
fn mail_clock(text: &[u8]) -> Option<&[u8]>
    ensures { option_copied result ≡ mail_clock text.now }
{
    let rest = mail_year(text)?;
    let rest = spaces(rest)?;
    clock(rest)
}

/// Whether these are spaces and a zone that Darcs knows.
#[tactic(auto, unfolding(crate::specs::Written::is_zone))]
fn is_zone(text: &[u8]) -> bool
    ensures { result ≡ is_zone text.now }
{
    match spaces(text) {
        Some(rest) => is_end(zone(rest)),
        None => false,
    }
}

/// Whether this is a date such as `Fri, 4 Apr 2003 16:56:51 EST`.
#[tactic(auto, unfolding(crate::specs::Written::is_mail))]
pub(crate) fn is_mail(text: &[u8]) -> bool
    ensures { result ≡ is_mail text.now }
{
    match mail_clock(text) {
        Some(rest) => is_zone(rest),
        None => false,
    }
}

/// What follows two digits that are a month.
#[tactic(auto, unfolding(crate::specs::Written::month))]
pub(crate) fn month(text: &[u8]) -> Option<&[u8]>
    ensures { option_copied result ≡ month text.now }
{
    let rest = two_digits(text)?;
    if (1..=12).contains(&number(text)) {
        Some(rest)
    } else {
        None
    }
}

/// What follows one digit that is a month.
#[tactic(auto, unfolding(crate::specs::Written::small_month))]
fn small_month(text: &[u8]) -> Option<&[u8]>
    ensures { option_copied result ≡ small_month text.now }
{
    match text {
        [first, ..] if *first != b'0' => digit(text),
        _ => None,
    }
}

/// What follows one digit or two that are a month.
#[tactic(auto, unfolding(crate::specs::Written::short_month))]
fn short_month(text: &[u8]) -> Option<&[u8]>
    ensures { option_copied result ≡ short_month text.now }
{
    match two_digits(text) {
        Some(_) => month(text),
        None => small_month(text),
    }
}

/// What follows the clock of a date such as `2003/4/4 16:56:51 EST`.
#[tactic(auto, unfolding(crate::specs::Written::slashed_clock))]
fn slashed_clock(text: &[u8]) -> Option<&[u8]>
    ensures { option_copied result ≡ slashed_clock text.now }
{
    let rest = four_digits(text)?;
    let rest = byte(b'/', rest)?;
    let rest = short_month(rest)?;
    let rest = byte(b'/', rest)?;
    let rest = short_day(rest)?;
    let rest = spaces(rest)?;
    clock(rest)
}

/// Whether this is a date such as `2003/4/4 16:56:51`, with a zone or without.
#[tactic(auto, unfolding(crate::specs::Written::is_slashed))]
pub(crate) fn is_slashed(text: &[u8]) -> bool
    ensures { result ≡ is_slashed text.now }
{
    match slashed_clock(text) {
        Some(rest) => rest.is_empty() || is_zone(rest),
        None => false,
    }
}
