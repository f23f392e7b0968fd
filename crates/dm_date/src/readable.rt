//! The dates that Darcs can read.
ghost use Rattle.std.specs.Prelude.{◌≡◌};
ghost use Rattle.dm_date.specs.Readable.{is_readable};

use crate::digits::{begins_with_digits, is_moment};
use crate::iso::is_iso;
use crate::old::is_old;
use crate::written::{is_mail, is_slashed};

/// Whether Darcs can read a date.
///
/// The answer is that of Darcs 2.16 where its clock is UTC, but for one second, the last one before 1970. Darcs can't read it in any
/// form. Here it is refused in fourteen digits and in the old form, and let through in the other three.
pub fn is_readable(date: &[u8]) -> bool
    ensures { result ≡ is_readable date.now }
{
    if begins_with_digits(date) {
        return is_moment(&date[..14]);
    }
    is_old(date) || is_mail(date) || is_slashed(date) || is_iso(date)
}
