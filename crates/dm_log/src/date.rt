//! How the date of a patch is shown.
ghost use Rattle.std.specs.Prelude.{◌≡◌, ◌↔◌, ◌+◌, ◌<◌, [], ◌∷◌, ◌++◌, length, IsTrue, OnOk, slice_index};
ghost use Rattle.std.specs.List.{All, list_all};
ghost use Rattle.std.specs.Char.{IsAsciiDigit, is_ascii_digit};
ghost use Rattle.dm_log.specs.Dates.{date_text, day_text, days_of, is_day, is_leap, is_moment, is_time, iso_date, iso_day, iso_time, moment_text, time_text, two_digits};

use crate::shown::push_shown;
use std::alloc::{AllocError, Allocator};

/// The number that two digits write.
fn two_digits(date: &[u8], i: usize) -> u16
    requires within { i + 1 < length date.now }
    requires tens { IsAsciiDigit (slice_index date.now i) }
    requires ones { IsAsciiDigit (slice_index date.now (i + 1)) }
    ensures value { result ≡ two_digits date.now i }
    ensures small { result < 100 }
{
    u16::from(date[i] - b'0') * 10 + u16::from(date[i + 1] - b'0')
}

fn is_leap(year: u16) -> bool
    ensures { result ≡ is_leap year }
{
    year % 4 == 0 && (year % 100 != 0 || year % 400 == 0)
}

fn days_of(year: u16, month: u16) -> u16
    ensures { result ≡ days_of year month }
{
    match month {
        2 if is_leap(year) => 29,
        2 => 28,
        4 | 6 | 9 | 11 => 30,
        _ => 31,
    }
}

fn is_day(date: &[u8]) -> bool
    requires length { length date.now ≡ 14 }
    requires digits { All IsAsciiDigit date.now }
    ensures { result ≡ is_day date.now }
{
    let year = two_digits(date, 0) * 100 + two_digits(date, 2);
    let month = two_digits(date, 4);
    let day = two_digits(date, 6);
    (1..=12).contains(&month) && (1..=days_of(year, month)).contains(&day)
}

fn is_time(date: &[u8]) -> bool
    requires length { length date.now ≡ 14 }
    requires digits { All IsAsciiDigit date.now }
    ensures { result ≡ is_time date.now }
{
    two_digits(date, 8) < 24 && two_digits(date, 10) < 60 && two_digits(date, 12) < 60
}

pub(crate) fn are_digits(date: &[u8]) -> bool
    ensures value { result ≡ list_all is_ascii_digit date.now }
    ensures digits { IsTrue result ↔ All IsAsciiDigit date.now }
{
    date.iter().all(|byte| byte.is_ascii_digit())
}

/// Whether these are fourteen digits that are a date and a time.
fn is_moment(date: &[u8]) -> bool
    ensures { result ≡ is_moment date.now }
{
    if date.len() != 14 {
        return false;
    }
    if !are_digits(date) {
        return false;
    }
    is_day(date) && is_time(date)
}

/// Appends a part of a moment, and the mark behind it.
fn push_part<A: Allocator>(digits: &[u8], mark: u8, out: &mut Vec<u8, A>) -> Result<(), AllocError>
    ensures { OnOk result (out.new.items ≡ out.old.items ++ (digits.now ++ (mark ∷ []))) }
{
    out.extend_from_slice(digits)?;
    out.push(mark)?;
    Ok(())
}

fn push_day<A: Allocator>(date: &[u8], out: &mut Vec<u8, A>) -> Result<(), AllocError>
    requires { length date.now ≡ 14 }
    ensures { OnOk result (out.new.items ≡ out.old.items ++ day_text date.now) }
{
    push_part(&date[..4], b'-', out)?;
    push_part(&date[4..6], b'-', out)?;
    push_part(&date[6..8], b' ', out)
}

fn push_time<A: Allocator>(date: &[u8], out: &mut Vec<u8, A>) -> Result<(), AllocError>
    requires { length date.now ≡ 14 }
    ensures { OnOk result (out.new.items ≡ out.old.items ++ time_text date.now) }
{
    push_part(&date[8..10], b':', out)?;
    push_part(&date[10..12], b':', out)?;
    out.extend_from_slice(&date[12..14])?;
    out.extend_from_slice(b" UTC")?;
    Ok(())
}

fn push_moment<A: Allocator>(date: &[u8], out: &mut Vec<u8, A>) -> Result<(), AllocError>
    requires { length date.now ≡ 14 }
    ensures { OnOk result (out.new.items ≡ out.old.items ++ moment_text date.now) }
{
    push_day(date, out)?;
    push_time(date, out)?;
    Ok(())
}

/// Appends a date as it is shown.
pub(crate) fn push_date<A: Allocator>(date: &[u8], out: &mut Vec<u8, A>) -> Result<(), AllocError>
    ensures { OnOk result (out.new.items ≡ out.old.items ++ date_text date.now) }
{
    if is_moment(date) {
        return push_moment(date, out);
    }
    push_shown(date, out)
}

fn push_iso_day<A: Allocator>(date: &[u8], out: &mut Vec<u8, A>) -> Result<(), AllocError>
    requires { length date.now ≡ 14 }
    ensures { OnOk result (out.new.items ≡ out.old.items ++ iso_day date.now) }
{
    push_part(&date[..4], b'-', out)?;
    push_part(&date[4..6], b'-', out)?;
    push_part(&date[6..8], b'T', out)
}

fn push_iso_time<A: Allocator>(date: &[u8], out: &mut Vec<u8, A>) -> Result<(), AllocError>
    requires { length date.now ≡ 14 }
    ensures { OnOk result (out.new.items ≡ out.old.items ++ iso_time date.now) }
{
    push_part(&date[8..10], b':', out)?;
    push_part(&date[10..12], b':', out)?;
    push_part(&date[12..14], b'Z', out)
}

fn push_iso_moment<A: Allocator>(date: &[u8], out: &mut Vec<u8, A>) -> Result<(), AllocError>
    requires { length date.now ≡ 14 }
    ensures { OnOk result (out.new.items ≡ out.old.items ++ (iso_day date.now ++ iso_time date.now)) }
{
    push_iso_day(date, out)?;
    push_iso_time(date, out)?;
    Ok(())
}

/// Appends a date as ISO 8601 has it, if it is one.
pub(crate) fn push_iso_date<A: Allocator>(
    date: &[u8],
    out: &mut Vec<u8, A>,
) -> Result<(), AllocError>
    ensures { OnOk result (out.new.items ≡ out.old.items ++ iso_date date.now) }
{
    if is_moment(date) {
        return push_iso_moment(date, out);
    }
    out.extend_from_slice(date)?;
    Ok(())
}
