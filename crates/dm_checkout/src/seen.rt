//! What a file system may take for a name.
ghost use Rattle.std.specs.Prelude.{◌≡◌, ◌++◌, IfOk, OnOk};
ghost use Rattle.std.specs.List.{flat_map, list_all};
ghost use Rattle.std.specs.Str.{chars};
ghost use Rattle.dm_checkout.specs.Seen.{compared, folded, is_dropped, is_parting, is_passed_over, is_passed_over_low, is_taken_for, is_word, seen};

use std::alloc::{AllocError, Global};

/// Whether a character of the first plane shows nothing, so that some file systems pass over it in a name.
fn is_passed_over_low(c: char) -> bool
    ensures { result ≡ is_passed_over_low c }
{
    matches!(
        c,
        '\u{ad}'
            | '\u{34f}'
            | '\u{61c}'
            | '\u{115f}'..='\u{1160}'
            | '\u{17b4}'..='\u{17b5}'
            | '\u{180b}'..='\u{180f}'
            | '\u{200b}'..='\u{200f}'
            | '\u{202a}'..='\u{202e}'
            | '\u{2060}'..='\u{206f}'
            | '\u{3164}'
            | '\u{fe00}'..='\u{fe0f}'
            | '\u{feff}'
            | '\u{ffa0}'
            | '\u{fff0}'..='\u{fff8}'
    )
}

/// Unicode's `Default_Ignorable_Code_Point`. HFS+ passes over some of them, and Linux over all where a folder has names in any case.
fn is_passed_over(c: char) -> bool
    ensures { result ≡ is_passed_over c }
{
    is_passed_over_low(c)
        || matches!(
            c,
            '\u{1bca0}'..='\u{1bca3}' | '\u{1d173}'..='\u{1d17a}' | '\u{e0000}'..='\u{e0fff}'
        )
}

/// A character as it is compared. Two past ASCII fold to an ASCII letter; a zero, which no name has, stands for any other.
fn folded(c: char) -> u8
    ensures { result ≡ folded c }
{
    if c.is_ascii() {
        return (c as u32 as u8).to_ascii_lowercase();
    }
    match c {
        '\u{17f}' => b's',
        '\u{212a}' => b'k',
        _ => 0,
    }
}

fn push_compared(c: char, seen: &mut Vec<u8>) -> Result<(), AllocError>
    ensures { OnOk result (seen.new.items ≡ seen.old.items ++ compared c) }
{
    if is_passed_over(c) {
        return Ok(());
    }
    seen.push(folded(c))?;
    Ok(())
}

fn compared_of(alloc: Global, text: &str) -> Result<Vec<u8>, AllocError>
    ensures { IfOk result (λ compares. compares.items ≡ flat_map compared (chars text.now)) }
{
    let mut compares = Vec::new(alloc);
    for c in text.chars() {
        push_compared(c, &mut compares)?;
    }
    Ok(compares)
}

/// What is compared of a name.
pub(crate) fn seen_of(alloc: Global, name: &[u8]) -> Result<Vec<u8>, AllocError>
    ensures { IfOk result (λ compares. compares.items ≡ seen name.now) }
{
    let text = String::from_utf8_lossy(alloc, name)?;
    compared_of(alloc, &text)
}

/// Whether a file system may drop these bytes at the end of a name.
fn are_dropped(bytes: &[u8]) -> bool
    ensures { result ≡ list_all is_dropped bytes.now }
{
    bytes.iter().all(|byte| *byte == b'.' || *byte == b' ')
}

/// Whether it is the word, with nothing behind it but dots and spaces.
fn is_word(word: &[u8], part: &[u8]) -> bool
    ensures { result ≡ is_word word.now part.now }
{
    part.starts_with(word) && are_dropped(&part[word.len()..])
}

/// Whether a part of what is compared is the word: Windows parts a path at a backslash, and a file from its stream at a colon.
pub(crate) fn is_taken_for(word: &[u8], compares: &[u8]) -> bool
    ensures { result ≡ is_taken_for word.now compares.now }
{
    compares
        .split(|byte| *byte == b'\\' || *byte == b':')
        .any(|part| is_word(word, part))
}
