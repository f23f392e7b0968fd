//! Zones at the front of a text.
ghost use Rattle.std.specs.Prelude.{◌≡◌, IsSome};
ghost use Rattle.std.specs.Option.{option_copied};
ghost use Rattle.dm_date.specs.Pieces.{two_digits};
ghost use Rattle.dm_date.specs.Zones.{is_near, offset, offset_of, zone};

use crate::names::zone_name;
use crate::pieces::{number, two_digits};

/// Whether an offset is within twelve hours to the west or fourteen to the east.
pub(crate) fn is_near(sign: u8, hour: &[u8], minute: &[u8]) -> bool
    requires hour { IsSome (two_digits hour.now) }
    requires minute { IsSome (two_digits minute.now) }
    ensures { result ≡ is_near sign hour.now minute.now }
{
    let farthest = if sign == b'-' { 720 } else { 840 };
    number(hour) * 60 + number(minute) <= farthest
}

/// What follows the hour and the minute of an offset.
#[tactic(auto, unfolding(crate::specs::Zones::offset_of))]
pub(crate) fn offset_of(sign: u8, hour: &[u8]) -> Option<&[u8]>
    ensures { option_copied result ≡ offset_of sign hour.now }
{
    let minute = two_digits(hour)?;
    let rest = two_digits(minute)?;
    if is_near(sign, hour, minute) {
        Some(rest)
    } else {
        None
    }
}

#[tactic(auto, unfolding(crate::specs::Zones::offset))]
fn offset(text: &[u8]) -> Option<&[u8]>
    ensures { option_copied result ≡ offset text.now }
{
    match text {
        [sign, hour @ ..] if *sign == b'+' || *sign == b'-' => offset_of(*sign, hour),
        _ => None,
    }
}

/// What follows an offset, or the name of a zone that Darcs knows.
#[tactic(auto, unfolding(crate::specs::Zones::zone))]
pub(crate) fn zone(text: &[u8]) -> Option<&[u8]>
    ensures { option_copied result ≡ zone text.now }
{
    match offset(text) {
        Some(rest) => Some(rest),
        None => zone_name(text),
    }
}
