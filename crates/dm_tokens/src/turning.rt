//! Turning a token of a text into another one.
ghost use Rattle.std.specs.Prelude.{◌≡◌, ◌++◌, ◌+◌, ◌<◌, List, ℕ, IfOk, MatchOption, OnErr, OnOk, length};
ghost use Rattle.std.specs.Bool.{OnTrue, OnFalse};
ghost use Rattle.dm_tokens.specs.Sets.{in_table};
ghost use Rattle.dm_tokens.specs.Turning.{Turns, TurnsAs};
ghost use Rattle.dm_tokens.specs.Walks.{turned, turned_piece};

use crate::pieces::first_len;
use crate::set::TokenSet;
use std::alloc::{AllocError, Allocator};

/// What a text turns to if an old token becomes a new one.
#[derive(Clone, Copy, Debug, PartialEq, Eq)]
pub enum Turned {
    /// To itself: the old token isn't in it, or both are the same.
    Same,
    /// To another text: the old token is in it.
    Other,
    /// To nothing: the new token is in it already, and isn't the old one.
    Nothing,
}

/// What a text turns to if `old` becomes `new`.
pub fn turns(set: &TokenSet, old: &[u8], new: &[u8], text: &[u8]) -> Turned
    ensures { TurnsAs (in_table set.now) old.now new.now text.now result }
{
    if old == new {
        return Turned::Same;
    }
    let mut has_old = false;
    let mut rest = text;
    while !rest.is_empty() {
        let len = first_len(set, rest);
        let piece = &rest[..len];
        if new == piece {
            return Turned::Nothing;
        }
        if old == piece {
            has_old = true;
        }
        rest = &rest[len..];
    }
    if has_old { Turned::Other } else { Turned::Same }
}

/// Appends what a text turns to if `old` becomes `new`; false if it turns to nothing. A failed allocation appends nothing.
pub fn turn_into<A: Allocator>(
    set: &TokenSet,
    old: &[u8],
    new: &[u8],
    text: &[u8],
    out: &mut Vec<u8, A>,
) -> Result<bool, AllocError>
    ensures turned { IfOk result (λ done. OnTrue done ((y : List ℕ) × Turns (in_table set.now) old.now new.now text.now y × (out.new.items ≡ out.old.items ++ y))) }
    ensures nothing { IfOk result (λ done. OnFalse done (((y : List ℕ) → Turns (in_table set.now) old.now new.now text.now y → ⊥) × (out.new.items ≡ out.old.items))) }
    ensures err { OnErr result (out.new.items ≡ out.old.items) }
{
    match turns(set, old, new, text) {
        Turned::Nothing => Ok(false),
        Turned::Same => {
            out.extend_from_slice(text)?;
            Ok(true)
        }
        Turned::Other => {
            push_or_undo(set, old, new, text, out)?;
            Ok(true)
        }
    }
}

/// Whether a turned text fits into so much room, and the room that is left then. No byte is written.
pub fn room_after(set: &TokenSet, old: &[u8], new: &[u8], text: &[u8], room: usize) -> Option<usize>
    ensures { MatchOption result
        ((y : List ℕ) → Turns (in_table set.now) old.now new.now text.now y → room < length y)
        (λ left. (y : List ℕ) → Turns (in_table set.now) old.now new.now text.now y → left + length y ≡ room) }
{
    let mut left = room;
    let mut rest = text;
    while !rest.is_empty() {
        let len = first_len(set, rest);
        let piece = &rest[..len];
        let turned = pick(old, new, piece);
        if left < turned.len() {
            return None;
        }
        left -= turned.len();
        rest = &rest[len..];
    }
    Some(left)
}

/// Appends the turned pieces of a text. A failed allocation appends nothing.
fn push_or_undo<A: Allocator>(
    set: &TokenSet,
    old: &[u8],
    new: &[u8],
    text: &[u8],
    out: &mut Vec<u8, A>,
) -> Result<(), AllocError>
    ensures ok { OnOk result (out.new.items ≡ out.old.items ++ turned (in_table set.now) old.now new.now text.now) }
    ensures err { OnErr result (out.new.items ≡ out.old.items) }
{
    let len = out.len();
    let pushed = push_turned(set, old, new, text, out);
    if pushed.is_err() {
        out.truncate(len);
    }
    pushed
}

/// Appends the turned pieces of a text. If an allocation fails, a part of them may have been appended.
fn push_turned<A: Allocator>(
    set: &TokenSet,
    old: &[u8],
    new: &[u8],
    text: &[u8],
    out: &mut Vec<u8, A>,
) -> Result<(), AllocError>
    ensures ok { OnOk result (out.new.items ≡ out.old.items ++ turned (in_table set.now) old.now new.now text.now) }
    ensures err { OnErr result ((part : List ℕ) × (out.new.items ≡ out.old.items ++ part)) }
{
    let mut rest = text;
    while !rest.is_empty() {
        let len = first_len(set, rest);
        let piece = &rest[..len];
        let turned = pick(old, new, piece);
        out.extend_from_slice(turned)?;
        rest = &rest[len..];
    }
    Ok(())
}

/// What a piece turns to.
fn pick<'t>(old: &[u8], new: &'t [u8], piece: &'t [u8]) -> &'t [u8]
    ensures { result.now ≡ turned_piece old.now new.now piece.now }
{
    if old == piece { new } else { piece }
}
