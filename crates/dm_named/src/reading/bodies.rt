//! The body of a named patch as text.

ghost use Rattle.std.specs.Prelude.{◌≤◌, ◌⊎◌, length, drop, IfOk, IfErr, MatchBool};
ghost use Rattle.dm_prim.specs.Prims.{prims_of};
ghost use Rattle.dm_named.specs.Words.{WordAmong, Begins};
ghost use Rattle.dm_named.specs.Patches.{Body, prim_words_of, unsupported_words_of};
ghost use Rattle.dm_named.specs.Faults.{BraceFaultAt, BodyFaultWithin};

use crate::fault::{FaultKind, ReadFault};
use crate::limits::{Kinds, Limits};
use crate::reading::primitives::prims_at;
use crate::reading::words::{BodyWord, body_word};
use crate::text::{begins_at, skip, word_at};
use dm_prim::Prim;
use std::alloc::Allocator;

/// Whether what is at a place, where a primitive of these kinds may be, is refused.
pub(crate) fn is_unsupported_at(text: &[u8], at: usize, kinds: Kinds) -> bool
    requires { at ≤ length text.now }
    ensures { MatchBool result
        (WordAmong (unsupported_words_of kinds) (drop at text.now) ⊎ Begins 40 (drop at text.now))
        ((WordAmong (unsupported_words_of kinds) (drop at text.now) → ⊥) × (Begins 40 (drop at text.now) → ⊥)) }
{
    if begins_at(text, at, b'(') {
        return true;
    }
    let (word, _next) = word_at(text, at);
    match body_word(word, kinds) {
        BodyWord::Prim(_) => false,
        BodyWord::Unsupported => true,
        BodyWord::Other => false,
    }
}

/// What is wrong inside braces where there is neither a primitive nor the closing brace.
pub(crate) fn brace_fault(text: &[u8], at: usize, kinds: Kinds) -> FaultKind
    requires within { at ≤ length text.now }
    requires no_prim { WordAmong (prim_words_of kinds) (drop at text.now) → ⊥ }
    requires no_close { Begins 125 (drop at text.now) → ⊥ }
    ensures { BraceFaultAt kinds result (drop at text.now) (drop at text.now) }
{
    if at >= text.len() {
        return FaultKind::Unclosed;
    }
    if begins_at(text, at, b'{') {
        return FaultKind::Unsupported;
    }
    if is_unsupported_at(text, at, kinds) {
        return FaultKind::Unsupported;
    }
    FaultKind::BadPatch
}

/// The primitives of a body, and the place after it.
pub(crate) fn body_at<A: Allocator + Copy>(
    alloc: A,
    text: &[u8],
    start: usize,
    limits: Limits,
) -> Result<(Vec<Prim<A>, A>, usize), ReadFault>
    requires { start ≤ length text.now }
    ensures ok { IfOk result (λ x. Body limits.kinds (drop start text.now) (prims_of x.0.items) (drop x.1 text.now)) }
    ensures few { IfOk result (λ x. length (prims_of x.0.items) ≤ limits.prims) }
    ensures within { IfOk result (λ x. x.1 ≤ length text.now) }
    ensures forward { IfOk result (λ x. start ≤ x.1) }
    ensures err { IfErr result (λ e. BodyFaultWithin limits e.kind (drop start text.now) (drop e.at text.now)) }
    ensures place { IfErr result (λ e. e.at ≤ length text.now) }
{
    let here = skip(text, start);
    if begins_at(text, here, b'{') {
        let (prims, end) = prims_at(alloc, text, here + 1, limits)?;
        let close = skip(text, end);
        if begins_at(text, close, b'}') {
            return Ok((prims, close + 1));
        }
        return Err(ReadFault {
            kind: brace_fault(text, close, limits.kinds),
            at: close,
        });
    }
    let (prims, end) = prims_at(alloc, text, start, limits)?;
    let next = skip(text, end);
    if is_unsupported_at(text, next, limits.kinds) {
        return Err(ReadFault {
            kind: FaultKind::Unsupported,
            at: next,
        });
    }
    Ok((prims, end))
}
