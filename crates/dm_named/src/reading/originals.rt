//! Originals as text.

ghost use Rattle.std.specs.Prelude.{◌≡◌, ◌≤◌, ◌<◌, length, drop, IfOk, IfErr};
ghost use Rattle.dm_prim.specs.Prims.{prim_of};
ghost use Rattle.dm_named.specs.Many.{Many};
ghost use Rattle.dm_named.specs.Words.{skipped};
ghost use Rattle.dm_named.specs.Patches.{NextPrim};
ghost use Rattle.dm_named.specs.Conflictors.{OriginalText, size_of, sizes_of};
ghost use Rattle.dm_named.specs.ConflictorFaults.{less, BeginsOriginal, OneFaultOf, OriginalFault, OriginalsFault};

use crate::fault::{FaultKind, ReadFault};
use crate::limits::Limits;
use crate::original::Original;
use crate::reading::marks::{begins_original_at, other_fault};
use crate::reading::primitives::{prim_at, prims_at};
use crate::reading::words::prim_word_at;
use crate::text::{begins_at, skip};
use dm_prim::Prim;
use std::alloc::Allocator;

/// One primitive after white space, and the place after it, where so many have been read.
fn one_at<A: Allocator + Copy>(
    alloc: A,
    text: &[u8],
    start: usize,
    count: usize,
    limits: Limits,
) -> Result<(Prim<A>, usize), ReadFault>
    requires within { start ≤ length text.now }
    requires few { count ≤ limits.prims }
    ensures ok { IfOk result (λ x. NextPrim limits.kinds (drop start text.now) (prim_of x.0) (drop x.1 text.now)) }
    ensures few { IfOk result (λ x. count < limits.prims) }
    ensures within { IfOk result (λ x. x.1 ≤ length text.now) }
    ensures forward { IfOk result (λ x. start < x.1) }
    ensures err { IfErr result (λ e. OneFaultOf limits e.kind count (drop start text.now) (drop e.at text.now)) }
    ensures place { IfErr result (λ e. e.at ≤ length text.now) }
{
    let Some((word, here, next)) = prim_word_at(text, start, limits.kinds) else {
        return Err(other_fault(text, skip(text, start), limits.kinds));
    };
    if count >= limits.prims {
        return Err(ReadFault {
            kind: FaultKind::TooMany,
            at: here,
        });
    }
    prim_at(alloc, word, text, here, next)
}

/// An original, and the place after it.
pub(crate) fn original_at<A: Allocator + Copy>(
    alloc: A,
    text: &[u8],
    start: usize,
    limits: Limits,
) -> Result<(Original<A>, usize), ReadFault>
    requires { start ≤ length text.now }
    ensures ok { IfOk result (λ x. OriginalText limits.kinds (drop start text.now) x.0 (drop x.1 text.now)) }
    ensures few { IfOk result (λ x. size_of x.0 ≤ limits.prims) }
    ensures within { IfOk result (λ x. x.1 ≤ length text.now) }
    ensures forward { IfOk result (λ x. start < x.1) }
    ensures err { IfErr result (λ e. OriginalFault limits e.kind (drop start text.now) (drop e.at text.now)) }
    ensures place { IfErr result (λ e. e.at ≤ length text.now) }
{
    let (context, end) = prims_at(alloc, text, start, limits)?;
    let colon = skip(text, end);
    if !begins_at(text, colon, b':') {
        return Err(other_fault(text, colon, limits.kinds));
    }
    let (prim, after) = one_at(alloc, text, colon + 1, context.len(), limits)?;
    Ok((Original::new(context, prim), after))
}

/// All originals that follow one another from a place on, the place after the last, and the limits that are left.
pub(crate) fn originals_at<A: Allocator + Copy>(
    alloc: A,
    text: &[u8],
    start: usize,
    limits: Limits,
) -> Result<(Vec<Original<A>, A>, usize, Limits), ReadFault>
    requires { start ≤ length text.now }
    ensures ok { IfOk result (λ x. Many (OriginalText limits.kinds) (drop start text.now) x.0.items (drop x.1 text.now)) }
    ensures closed { IfOk result (λ x. BeginsOriginal limits.kinds (skipped (drop x.1 text.now)) → ⊥) }
    ensures few { IfOk result (λ x. sizes_of x.0.items ≤ limits.prims) }
    ensures left { IfOk result (λ x. x.2 ≡ less limits (sizes_of x.0.items)) }
    ensures within { IfOk result (λ x. x.1 ≤ length text.now) }
    ensures forward { IfOk result (λ x. start ≤ x.1) }
    ensures err { IfErr result (λ e. OriginalsFault limits e.kind (drop start text.now) (drop e.at text.now)) }
    ensures place { IfErr result (λ e. e.at ≤ length text.now) }
{
    let mut originals = Vec::new(alloc);
    let mut end = start;
    let mut left = limits;
    while begins_original_at(text, end, limits.kinds) {
        let (original, after) = original_at(alloc, text, end, left)?;
        left = left.less(original.size());
        if let Err(e) = originals.push(original) {
            return Err(ReadFault::no_memory(e.into(), end));
        }
        end = after;
    }
    Ok((originals, end, left))
}
