//! The number of a hunk's line.

ghost use Rattle.std.specs.Prelude.{◌≡◌, ◌≤◌, ℕ, List, true, length, drop, IfSome, IfNone, IfOk, IfErr, MatchBool};
ghost use Rattle.std.specs.List.{AllByRecursion};
ghost use Rattle.dm_named.specs.Words.{is_white, skipped, IsNumberText, NumberLine};

use crate::fault::{FaultKind, ReadFault};
use crate::text::{is_white, line_at, skip, word_at};

/// The number that is spelled by these digits.
fn number_of(digits: &[u8]) -> Option<u32>
    ensures found { IfSome result (λ n. IsNumberText digits.now n) }
    ensures none { IfNone result ((n : ℕ) → IsNumberText digits.now n → ⊥) }
{
    let mut number: u64 = 0;
    for digit in digits {
        if *digit < b'0' || *digit > b'9' {
            return None;
        }
        number = 10 * number + (*digit - b'0') as u64;
        if number > 4294967295 {
            return None;
        }
    }
    if number == 0 {
        return None;
    }
    Some(number as u32)
}

/// Whether all bytes are white space.
pub(crate) fn is_blank(line: &[u8]) -> bool
    ensures { MatchBool result (AllByRecursion (λ b. is_white b ≡ true) line.now) (AllByRecursion (λ b. is_white b ≡ true) line.now → ⊥) }
{
    for byte in line {
        if !is_white(*byte) {
            return false;
        }
    }
    true
}

/// The number after white space, alone on its line, and the place after that line.
pub(crate) fn number_at(text: &[u8], at: usize) -> Result<(u32, usize), ReadFault>
    requires { at ≤ length text.now }
    ensures ok { IfOk result (λ x. NumberLine (skipped (drop at text.now)) x.0 (drop x.1 text.now)) }
    ensures within { IfOk result (λ x. x.1 ≤ length text.now) }
    ensures forward { IfOk result (λ x. at ≤ x.1) }
    ensures kind { IfErr result (λ e. e.kind ≡ FaultKind.BadNumber) }
    ensures here { IfErr result (λ e. drop e.at text.now ≡ skipped (drop at text.now)) }
    ensures err { IfErr result (λ e. (n : ℕ) (rest : List ℕ) → NumberLine (skipped (drop at text.now)) n rest → ⊥) }
    ensures place { IfErr result (λ e. e.at ≤ length text.now) }
{
    let at = skip(text, at);
    let (digits, after) = word_at(text, at);
    let Some(number) = number_of(digits) else {
        return Err(ReadFault {
            kind: FaultKind::BadNumber,
            at,
        });
    };
    let (line, next) = line_at(text, after);
    if !is_blank(line) {
        return Err(ReadFault {
            kind: FaultKind::BadNumber,
            at,
        });
    }
    Ok((number, next))
}
