//! Dates of ISO 8601, with a time or without.
ghost use Rattle.std.specs.Prelude.{◌≡◌, IsSome};
ghost use Rattle.dm_date.specs.Pieces.{two_digits};
ghost use Rattle.dm_date.specs.Iso.{is_any_time, is_day, is_empty_or_time, is_hour_end, is_hour_to_the_west, is_iso, is_minute, is_minute_of, is_month, is_offset, is_rest_of_year, is_second, is_time, is_week, is_week_day, is_west, is_year_day, is_zone_or_empty, skip_fraction};

use crate::pieces::{byte, digit, four_digits, skip_byte, skip_digits, three_digits, two_digits};
use crate::written::{is_end, month};
use crate::zones::{is_near, offset_of};

/// Whether a minute is left, and makes an offset that Darcs reads.
#[tactic(auto, unfolding(crate::specs::Iso::is_minute_of))]
fn is_minute_of(sign: u8, hour: &[u8], text: &[u8]) -> bool
    requires { IsSome (two_digits hour.now) }
    ensures { result ≡ is_minute_of sign hour.now text.now }
{
    let minute = skip_byte(b':', text);
    match two_digits(minute) {
        Some(rest) => rest.is_empty() && is_near(sign, hour, minute),
        None => false,
    }
}

/// Whether nothing or a minute follows the hour of an offset.
#[tactic(auto, unfolding(crate::specs::Iso::is_hour_end, crate::specs::Pieces::two_digits, crate::specs::Pieces::digit))]
fn is_hour_end(sign: u8, hour: &[u8], text: &[u8]) -> bool
    requires { IsSome (two_digits hour.now) }
    ensures { result ≡ is_hour_end sign hour.now text.now }
{
    if text.is_empty() {
        is_near(sign, hour, b"00")
    } else {
        is_minute_of(sign, hour, text)
    }
}

#[tactic(auto, unfolding(crate::specs::Iso::is_offset))]
fn is_offset(text: &[u8]) -> bool
    ensures { result ≡ is_offset text.now }
{
    let [sign, hour @ ..] = text else {
        return false;
    };
    if *sign != b'+' && *sign != b'-' {
        return false;
    }
    match two_digits(hour) {
        Some(rest) => is_hour_end(*sign, hour, rest),
        None => false,
    }
}

/// Whether nothing is left, or a zone.
#[tactic(auto, unfolding(crate::specs::Iso::is_zone_or_empty))]
fn is_zone_or_empty(text: &[u8]) -> bool
    ensures { result ≡ is_zone_or_empty text.now }
{
    text.is_empty() || is_end(byte(b'Z', text)) || is_offset(text)
}

/// What follows the fraction of a second.
#[tactic(auto, unfolding(crate::specs::Iso::skip_fraction))]
fn skip_fraction(text: &[u8]) -> &[u8]
    ensures { result.now ≡ skip_fraction text.now }
{
    match byte(b'.', text) {
        Some(rest) => skip_digits(rest),
        None => skip_digits(skip_byte(b',', text)),
    }
}

#[tactic(auto, unfolding(crate::specs::Iso::is_second))]
fn is_second(text: &[u8]) -> bool
    ensures { result ≡ is_second text.now }
{
    match two_digits(skip_byte(b':', text)) {
        Some(rest) => is_zone_or_empty(skip_fraction(rest)),
        None => false,
    }
}

#[tactic(auto, unfolding(crate::specs::Iso::is_minute))]
fn is_minute(text: &[u8]) -> bool
    ensures { result ≡ is_minute text.now }
{
    match two_digits(skip_byte(b':', text)) {
        Some(rest) => is_zone_or_empty(rest) || is_second(rest),
        None => false,
    }
}

/// Whether an hour is left, with what may follow it.
#[tactic(auto, unfolding(crate::specs::Iso::is_time))]
fn is_time(text: &[u8]) -> bool
    ensures { result ≡ is_time text.now }
{
    match two_digits(text) {
        Some(rest) => is_zone_or_empty(rest) || is_minute(rest),
        None => false,
    }
}

/// Whether nothing is left, or a time behind a space or a `T`.
#[tactic(auto, unfolding(crate::specs::Iso::is_empty_or_time))]
fn is_empty_or_time(text: &[u8]) -> bool
    ensures { result ≡ is_empty_or_time text.now }
{
    let [first, time @ ..] = text else {
        return true;
    };
    (*first == b' ' || *first == b'T') && is_time(time)
}

/// The same; the time may also stand there with nothing before it.
#[tactic(auto, unfolding(crate::specs::Iso::is_any_time))]
fn is_any_time(text: &[u8]) -> bool
    ensures { result ≡ is_any_time text.now }
{
    is_empty_or_time(text) || is_time(text)
}

#[tactic(auto, unfolding(crate::specs::Iso::is_day))]
fn is_day(text: &[u8]) -> bool
    ensures { result ≡ is_day text.now }
{
    match two_digits(skip_byte(b'-', text)) {
        Some(rest) => is_empty_or_time(rest),
        None => false,
    }
}

#[tactic(auto, unfolding(crate::specs::Iso::is_month))]
fn is_month(text: &[u8]) -> bool
    ensures { result ≡ is_month text.now }
{
    match month(skip_byte(b'-', text)) {
        Some(rest) => is_empty_or_time(rest) || is_day(rest),
        None => false,
    }
}

#[tactic(auto, unfolding(crate::specs::Iso::is_week_day))]
fn is_week_day(text: &[u8]) -> bool
    ensures { result ≡ is_week_day text.now }
{
    match digit(skip_byte(b'-', text)) {
        Some(rest) => is_any_time(rest),
        None => false,
    }
}

#[tactic(auto, unfolding(crate::specs::Iso::is_week))]
fn is_week(text: &[u8]) -> bool
    ensures { result ≡ is_week text.now }
{
    let Some(week) = byte(b'W', skip_byte(b'-', text)) else {
        return false;
    };
    match two_digits(week) {
        Some(rest) => is_empty_or_time(rest) || is_week_day(rest),
        None => false,
    }
}

#[tactic(auto, unfolding(crate::specs::Iso::is_year_day))]
fn is_year_day(text: &[u8]) -> bool
    ensures { result ≡ is_year_day text.now }
{
    match three_digits(skip_byte(b'-', text)) {
        Some(rest) => is_any_time(rest),
        None => false,
    }
}

#[tactic(auto, unfolding(crate::specs::Iso::is_west))]
fn is_west(text: &[u8]) -> bool
    ensures { result ≡ is_west text.now }
{
    match text {
        [b'-', hour @ ..] => is_end(offset_of(b'-', hour)),
        _ => false,
    }
}

/// Whether an hour and an offset to the west are left.
#[tactic(auto, unfolding(crate::specs::Iso::is_hour_to_the_west))]
fn is_hour_to_the_west(text: &[u8]) -> bool
    ensures { result ≡ is_hour_to_the_west text.now }
{
    match two_digits(text) {
        Some(rest) => is_west(rest),
        None => false,
    }
}

#[tactic(auto, unfolding(crate::specs::Iso::is_rest_of_year))]
fn is_rest_of_year(text: &[u8]) -> bool
    ensures { result ≡ is_rest_of_year text.now }
{
    is_empty_or_time(text)
        || is_month(text)
        || is_week(text)
        || is_year_day(text)
        || is_hour_to_the_west(text)
}

/// Whether this is a date such as `2003-04-04T16:56:51Z`, `2003W145` or `2003-094`.
#[tactic(auto, unfolding(crate::specs::Iso::is_iso))]
pub(crate) fn is_iso(text: &[u8]) -> bool
    ensures { result ≡ is_iso text.now }
{
    match four_digits(text) {
        Some(rest) => is_rest_of_year(rest),
        None => false,
    }
}
