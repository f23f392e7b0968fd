//! The old form of a date, such as `Fri Apr  4 16:56:51 EST 2003`.
ghost use Rattle.std.specs.Prelude.{◌≡◌, drop};
ghost use Rattle.std.specs.List.{list_all};
ghost use Rattle.std.specs.Option.{option_copied};
ghost use Rattle.dm_date.specs.Old.{is_hour_at_end, is_letter_or_space, is_old, is_old_last_hour, is_old_last_second, is_word_and_year, is_zone_and_year, last_year, month_number, old_day, old_hour, old_hours, old_month, old_zone};

use crate::digits::is_last_hour;
use crate::names::{day_name, month_name, name};
use crate::pieces::{clock, short_day, short_number, spaces};
use crate::written::is_year;
use crate::zones::zone;

fn are_letters_or_spaces(text: &[u8]) -> bool
    ensures { result ≡ list_all is_letter_or_space text.now }
{
    text.iter()
        .all(|byte| byte.is_ascii_alphabetic() || *byte == b' ')
}

/// Whether these are a zone that Darcs doesn't know, a space and a year.
#[tactic(auto, unfolding(crate::specs::Old::is_word_and_year))]
fn is_word_and_year(text: &[u8]) -> bool
    ensures { result ≡ is_word_and_year text.now }
{
    if text.len() < 5 {
        return false;
    }
    let (word, year) = text.split_at(text.len() - 4);
    if !is_year(year) {
        return false;
    }
    text[text.len() - 5] == b' ' && are_letters_or_spaces(word)
}

/// Whether these are a zone, spaces and a year.
#[tactic(auto, unfolding(crate::specs::Old::is_zone_and_year))]
fn is_zone_and_year(text: &[u8]) -> bool
    ensures { result ≡ is_zone_and_year text.now }
{
    let Some(rest) = zone(text) else {
        return is_word_and_year(text);
    };
    match spaces(rest) {
        Some(year) => is_year(year),
        None => false,
    }
}

/// What begins with the month of an old date.
#[tactic(auto, unfolding(crate::specs::Old::old_month))]
fn old_month(text: &[u8]) -> Option<&[u8]>
    ensures { option_copied result ≡ old_month text.now }
{
    let rest = day_name(text)?;
    spaces(rest)
}

/// What begins with its day.
#[tactic(auto, unfolding(crate::specs::Old::old_day))]
fn old_day(text: &[u8]) -> Option<&[u8]>
    ensures { option_copied result ≡ old_day text.now }
{
    let month = old_month(text)?;
    let rest = month_name(month)?;
    spaces(rest)
}

/// What begins with its clock.
#[tactic(auto, unfolding(crate::specs::Old::old_hour))]
fn old_hour(text: &[u8]) -> Option<&[u8]>
    ensures { option_copied result ≡ old_hour text.now }
{
    let day = old_day(text)?;
    let rest = short_day(day)?;
    spaces(rest)
}

/// What begins with its zone.
#[tactic(auto, unfolding(crate::specs::Old::old_zone))]
fn old_zone(text: &[u8]) -> Option<&[u8]>
    ensures { option_copied result ≡ old_zone text.now }
{
    let hour = old_hour(text)?;
    let rest = clock(hour)?;
    spaces(rest)
}

/// The number of the month that begins a text, if it is the first, or one of the last three.
#[tactic(auto, unfolding(crate::specs::Old::month_number))]
fn month_number(text: &[u8]) -> u16
    ensures { result ≡ month_number text.now }
{
    if name(b"Jan", text).is_some() {
        return 1;
    }
    if name(b"Oct", text).is_some() {
        return 10;
    }
    if name(b"Nov", text).is_some() {
        return 11;
    }
    if name(b"Dec", text).is_some() { 12 } else { 0 }
}

/// What stands in a text from a place on: nothing past the end.
fn tail(text: &[u8], at: usize) -> &[u8]
    ensures { result.now ≡ drop at text.now }
{
    if at < text.len() { &text[at..] } else { &[] }
}

/// The number of the year that ends a text.
#[tactic(auto, unfolding(crate::specs::Old::last_year))]
fn last_year(text: &[u8]) -> u16
    ensures { result ≡ last_year text.now }
{
    let century = tail(text, text.len().saturating_sub(4));
    let year = tail(text, text.len().saturating_sub(2));
    short_number(century) * 100 + short_number(year)
}

/// The hours from the start of the month to the clock.
fn old_hours(text: &[u8]) -> u16
    ensures { result ≡ old_hours text.now }
{
    let day = old_day(text).unwrap_or(&[]);
    let hour = old_hour(text).unwrap_or(&[]);
    short_number(day) * 24 + short_number(hour)
}

/// Whether the hour of an old date is the last one before 1970.
#[tactic(auto, unfolding(crate::specs::Old::is_old_last_hour))]
fn is_old_last_hour(text: &[u8]) -> bool
    ensures { result ≡ is_old_last_hour text.now }
{
    let month = old_month(text).unwrap_or(&[]);
    is_last_hour(last_year(text), month_number(month), old_hours(text))
}

#[tactic(auto, unfolding(crate::specs::Old::is_hour_at_end))]
fn is_hour_at_end(clock: &[u8]) -> bool
    ensures { result ≡ is_hour_at_end clock.now }
{
    short_number(tail(clock, 3)) == 59 && short_number(tail(clock, 6)) == 59
}

/// Whether an old date is the last second before 1970, where its zone is passed over.
#[tactic(auto, unfolding(crate::specs::Old::is_old_last_second))]
fn is_old_last_second(text: &[u8]) -> bool
    ensures { result ≡ is_old_last_second text.now }
{
    let clock = old_hour(text).unwrap_or(&[]);
    is_hour_at_end(clock) && is_old_last_hour(text)
}

/// Whether this is a date such as `Fri Apr  4 16:56:51 EST 2003`.
#[tactic(auto, unfolding(crate::specs::Old::is_old))]
pub(crate) fn is_old(text: &[u8]) -> bool
    ensures { result ≡ is_old text.now }
{
    match old_zone(text) {
        Some(rest) => is_zone_and_year(rest) && !is_old_last_second(text),
        None => false,
    }
}
