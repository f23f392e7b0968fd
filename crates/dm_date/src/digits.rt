//! Dates of fourteen digits, and anything behind them.
ghost use Rattle.std.specs.Prelude.{◌≡◌, ◌≤◌, ◌↔◌, IsTrue, length, take};
ghost use Rattle.std.specs.List.{All, list_all};
ghost use Rattle.std.specs.Char.{IsAsciiDigit, is_ascii_digit};
ghost use Rattle.dm_date.specs.Digits.{begins_with_digits, hours_of, is_last_hour, is_last_second, is_moment, year_of};

use crate::pieces::number_at;

fn are_digits(date: &[u8]) -> bool
    ensures value { result ≡ list_all is_ascii_digit date.now }
    ensures digits { IsTrue result ↔ All IsAsciiDigit date.now }
{
    date.iter().all(|byte| byte.is_ascii_digit())
}

/// Whether the first fourteen bytes are digits.
pub(crate) fn begins_with_digits(date: &[u8]) -> bool
    ensures value { result ≡ begins_with_digits date.now }
    ensures long { IsTrue result → 14 ≤ length date.now }
    ensures digits { IsTrue result → All IsAsciiDigit (take 14 date.now) }
{
    date.len() >= 14 && are_digits(&date[..14])
}

fn year_of(date: &[u8]) -> u16
    requires length { length date.now ≡ 14 }
    requires digits { All IsAsciiDigit date.now }
    ensures { result ≡ year_of date.now }
{
    number_at(date, 0) * 100 + number_at(date, 2)
}

fn hours_of(date: &[u8]) -> u16
    requires length { length date.now ≡ 14 }
    requires digits { All IsAsciiDigit date.now }
    ensures { result ≡ hours_of date.now }
{
    number_at(date, 6) * 24 + number_at(date, 8)
}

/// Whether the hour is the last one before 1970, by its year, its month and the hours from the start of the month.
pub(crate) fn is_last_hour(year: u16, month: u16, hours: u16) -> bool
    ensures { result ≡ is_last_hour year month hours }
{
    match year {
        1969 => {
            (month == 12 && hours == 31 * 24 + 23)
                || (month == 11 && hours == 61 * 24 + 23)
                || (month == 10 && hours == 92 * 24 + 23)
        }
        1970 => month == 1 && hours == 23,
        _ => false,
    }
}

/// Whether this is the last second before 1970. The C library tells a failure by its number.
fn is_last_second(date: &[u8]) -> bool
    requires length { length date.now ≡ 14 }
    requires digits { All IsAsciiDigit date.now }
    ensures { result ≡ is_last_second date.now }
{
    is_last_hour(year_of(date), number_at(date, 4), hours_of(date))
        && number_at(date, 10) == 59
        && number_at(date, 12) == 59
}

/// Whether fourteen digits have a month, and aren't the last second before 1970.
pub(crate) fn is_moment(date: &[u8]) -> bool
    requires length { length date.now ≡ 14 }
    requires digits { All IsAsciiDigit date.now }
    ensures { result ≡ is_moment date.now }
{
    (1..=12).contains(&number_at(date, 4)) && !is_last_second(date)
}
