//! The marks of a conflictor, and what stands in their place.

ghost use Rattle.std.specs.Prelude.{◌≡◌, ◌≤◌, ◌+◌, ◌∷◌, length, drop, MatchBool};
ghost use Rattle.dm_named.specs.Words.{WordAmong, Begins};
ghost use Rattle.dm_named.specs.Patches.{prim_words_of};
ghost use Rattle.dm_named.specs.Words.{skipped};
ghost use Rattle.dm_named.specs.Conflictors.{BeginsTwice};
ghost use Rattle.dm_named.specs.ConflictorFaults.{OtherFaultAt, BeginsOriginal};

use crate::fault::{FaultKind, ReadFault};
use crate::limits::Kinds;
use crate::reading::bodies::is_unsupported_at;
use crate::reading::words::prim_word_at;
use crate::text::{begins_at, skip};

/// Whether the text has this byte twice at a place.
pub(crate) fn begins_twice_at(text: &[u8], at: usize, byte: u8) -> bool
    requires { at ≤ length text.now }
    ensures { MatchBool result
        ((drop at text.now ≡ byte ∷ byte ∷ drop (at + 2) text.now) × (at + 2 ≤ length text.now))
        (BeginsTwice byte (drop at text.now) → ⊥) }
{
    begins_at(text, at, byte) && begins_at(text, at + 1, byte)
}

/// Whether an original begins at a place, after white space.
pub(crate) fn begins_original_at(text: &[u8], at: usize, kinds: Kinds) -> bool
    requires { at ≤ length text.now }
    ensures { MatchBool result (BeginsOriginal kinds (skipped (drop at text.now))) (BeginsOriginal kinds (skipped (drop at text.now)) → ⊥) }
{
    if begins_at(text, skip(text, at), b':') {
        return true;
    }
    match prim_word_at(text, at, kinds) {
        Some(_) => true,
        None => false,
    }
}

/// What stands at a place in the place of what is due.
fn other_kind(text: &[u8], at: usize, kinds: Kinds) -> FaultKind
    requires { at ≤ length text.now }
    ensures { OtherFaultAt kinds result (drop at text.now) (drop at text.now) }
{
    if at >= text.len() {
        return FaultKind::Unclosed;
    }
    if is_unsupported_at(text, at, kinds) {
        return FaultKind::Unsupported;
    }
    FaultKind::BadPatch
}

/// The fault at a place where something else is due.
pub(crate) fn other_fault(text: &[u8], at: usize, kinds: Kinds) -> ReadFault
    requires { at ≤ length text.now }
    ensures wrong { OtherFaultAt kinds result.kind (drop at text.now) (drop at text.now) }
    ensures place { result.at ≡ at }
{
    ReadFault {
        kind: other_kind(text, at, kinds),
        at,
    }
}
