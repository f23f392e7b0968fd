//! What follows a piece at the front of a text.
ghost use Rattle.std.specs.Prelude.{◌≡◌, ◌+◌, ◌<◌, IsSome, length, slice_index};
ghost use Rattle.std.specs.Option.{option_copied};
ghost use Rattle.std.specs.Char.{IsAsciiDigit};
ghost use Rattle.dm_date.specs.Pieces.{byte, clock, digit, four_digits, number, number_at, short_day, short_number, skip_byte, skip_digits, skip_spaces, small_number, spaces, three_digits, two_digits};

#[tactic(auto, unfolding(crate::specs::Pieces::byte))]
pub(crate) fn byte(b: u8, text: &[u8]) -> Option<&[u8]>
    ensures { option_copied result ≡ byte b text.now }
{
    match text {
        [first, rest @ ..] if *first == b => Some(rest),
        _ => None,
    }
}

#[tactic(auto, unfolding(crate::specs::Pieces::digit))]
pub(crate) fn digit(text: &[u8]) -> Option<&[u8]>
    ensures { option_copied result ≡ digit text.now }
{
    match text {
        [first, rest @ ..] if first.is_ascii_digit() => Some(rest),
        _ => None,
    }
}

#[tactic(auto, unfolding(crate::specs::Pieces::two_digits))]
pub(crate) fn two_digits(text: &[u8]) -> Option<&[u8]>
    ensures { option_copied result ≡ two_digits text.now }
{
    let rest = digit(text)?;
    digit(rest)
}

#[tactic(auto, unfolding(crate::specs::Pieces::three_digits))]
pub(crate) fn three_digits(text: &[u8]) -> Option<&[u8]>
    ensures { option_copied result ≡ three_digits text.now }
{
    let rest = digit(text)?;
    two_digits(rest)
}

#[tactic(auto, unfolding(crate::specs::Pieces::four_digits))]
pub(crate) fn four_digits(text: &[u8]) -> Option<&[u8]>
    ensures { option_copied result ≡ four_digits text.now }
{
    let rest = two_digits(text)?;
    two_digits(rest)
}

#[tactic(auto, unfolding(crate::specs::Pieces::short_day))]
pub(crate) fn short_day(text: &[u8]) -> Option<&[u8]>
    ensures { option_copied result ≡ short_day text.now }
{
    match two_digits(text) {
        Some(rest) => Some(rest),
        None => digit(text),
    }
}

#[tactic(auto, unfolding(crate::specs::Pieces::skip_spaces))]
fn skip_spaces(text: &[u8]) -> &[u8]
    ensures { result.now ≡ skip_spaces text.now }
{
    for (i, byte) in text.iter().enumerate() {
        if *byte != b' ' {
            return &text[i..];
        }
    }
    &[]
}

/// What follows the digits at the front.
#[tactic(auto, unfolding(crate::specs::Pieces::skip_digits))]
pub(crate) fn skip_digits(text: &[u8]) -> &[u8]
    ensures { result.now ≡ skip_digits text.now }
{
    for (i, byte) in text.iter().enumerate() {
        if !byte.is_ascii_digit() {
            return &text[i..];
        }
    }
    &[]
}

#[tactic(auto, unfolding(crate::specs::Pieces::spaces))]
pub(crate) fn spaces(text: &[u8]) -> Option<&[u8]>
    ensures { option_copied result ≡ spaces text.now }
{
    let rest = byte(b' ', text)?;
    Some(skip_spaces(rest))
}

#[tactic(auto, unfolding(crate::specs::Pieces::skip_byte))]
pub(crate) fn skip_byte(b: u8, text: &[u8]) -> &[u8]
    ensures { result.now ≡ skip_byte b text.now }
{
    byte(b, text).unwrap_or(text)
}

/// An hour, a minute and a second with colons between.
#[tactic(auto, unfolding(crate::specs::Pieces::clock))]
pub(crate) fn clock(text: &[u8]) -> Option<&[u8]>
    ensures { option_copied result ≡ clock text.now }
{
    let rest = two_digits(text)?;
    let rest = byte(b':', rest)?;
    let rest = two_digits(rest)?;
    let rest = byte(b':', rest)?;
    two_digits(rest)
}

/// The number that the digits at a place and behind it write.
pub(crate) fn number_at(text: &[u8], i: usize) -> u16
    requires within { i + 1 < length text.now }
    requires tens { IsAsciiDigit (slice_index text.now i) }
    requires ones { IsAsciiDigit (slice_index text.now (i + 1)) }
    ensures value { result ≡ number_at text.now i }
    ensures small { result < 100 }
{
    u16::from(text[i] - b'0') * 10 + u16::from(text[i + 1] - b'0')
}

/// The number that two digits at the front write.
#[tactic(auto, unfolding(crate::specs::Pieces::two_digits, crate::specs::Pieces::digit))]
pub(crate) fn number(text: &[u8]) -> u16
    requires { IsSome (two_digits text.now) }
    ensures value { result ≡ number text.now }
    ensures small { result < 100 }
{
    match text {
        [tens, ones, ..] => u16::from(*tens - b'0') * 10 + u16::from(*ones - b'0'),
        _ => 0,
    }
}

#[tactic(auto, unfolding(crate::specs::Pieces::small_number))]
fn small_number(text: &[u8]) -> u16
    ensures value { result ≡ small_number text.now }
    ensures small { result < 100 }
{
    match text {
        [first, ..] if first.is_ascii_digit() => u16::from(*first - b'0'),
        _ => 0,
    }
}

/// The number that one digit or two at the front write.
#[tactic(auto, unfolding(crate::specs::Pieces::short_number))]
pub(crate) fn short_number(text: &[u8]) -> u16
    ensures value { result ≡ short_number text.now }
    ensures small { result < 100 }
{
    match two_digits(text) {
        Some(_) => number(text),
        None => small_number(text),
    }
}
