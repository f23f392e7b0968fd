//! How far a frame is read.
ghost use Rattle.std.specs.Prelude.{◌≡◌, ◌⊎◌, ◌+◌, ◌<◌, ◌≤◌, ◌++◌, ◌∷◌, [], ℕ, List, None, IfSome, IfNone};
ghost use Rattle.std.specs.Fmt.{decimal};
ghost use Rattle.dm_named.specs.Limits.{own};
ghost use Rattle.dm_deliver.specs.declared.place.Place.TheVariants.{Line};
ghost use Rattle.dm_deliver.specs.Framing.{begun, digits_if, BeginsNoFrame};
ghost use Rattle.dm_deliver.specs.FrameReading.{line_room};

use dm_named::Limits;

// How far a frame is read.
#[derive(Clone, Copy)]
pub(crate) enum Place {
    // In its line: the number that its first digits spell, if any were read, and the byte after them, if that was.
    Line(Option<usize>, Option<u8>),
    // In its text, of which so many bytes are left.
    Text(usize),
}

// The digit that a byte is.
fn digit_of(byte: u8) -> Option<usize>
    ensures some { IfSome result (λ digit. (digit < 10) × (byte ≡ 48 + digit)) }
    ensures none { IfNone result ((byte < 48) ⊎ (57 < byte)) }
{
    if byte < b'0' || byte > b'9' {
        return None;
    }
    Some((byte - b'0') as usize)
}

// The length that a number spells with one digit more. `None` after a leading zero and past the limit.
fn with_digit(number: usize, digit: usize) -> Option<usize>
    requires { digit < 10 }
    ensures some { IfSome result (λ more. decimal more ≡ decimal number ++ (48 + digit) ∷ []) }
    ensures none { IfNone result ((more : List ℕ) → BeginsNoFrame (decimal number ++ (48 + digit) ∷ more)) }
    ensures larger { IfSome result (λ more. number < more) }
    ensures within { IfSome result (λ more. more ≤ own.bytes) }
{
    if number == 0 {
        return None;
    }
    if number > (Limits::OWN.bytes - digit) / 10 {
        return None;
    }
    Some(10 * number + digit)
}

// How far a frame is read with one byte more of its line. `None` where no frame begins so.
pub(crate) fn after(number: Option<usize>, byte: u8) -> Option<Place>
    ensures some { IfSome result (λ place. begun place [] ≡ digits_if number ++ byte ∷ []) }
    ensures none { IfNone result ((more : List ℕ) → BeginsNoFrame ((digits_if number ++ byte ∷ []) ++ more)) }
    ensures fewer { IfSome result (λ place. line_room place < line_room (Line number None)) }
{
    let Some(digit) = digit_of(byte) else {
        if byte != b'\n' {
            return None;
        }
        return Some(Place::Text(number?));
    };
    let Some(number) = number else {
        return Some(Place::Line(Some(digit), None));
    };
    let Some(number) = with_digit(number, digit) else {
        return None;
    };
    Some(Place::Line(Some(number), None))
}
