//! Conflictors as text.

ghost use Rattle.std.specs.Prelude.{◌≡◌, ◌≤◌, ◌<◌, ℕ, List, length, drop, codes, MatchResult, IfOk, IfErr};
ghost use Rattle.dm_prim.specs.Prims.{prims_of};
ghost use Rattle.dm_named.specs.Words.{Word};
ghost use Rattle.dm_named.specs.Conflictors as conflictors;
ghost use Rattle.dm_named.specs.Conflictors.{Partners, InBrackets, ConflictorText, sizes_of, conflictor_size};
ghost use Rattle.dm_named.specs.ConflictorFaults.{less, PartnersFault, BracketsFault, ConflictorFault};
ghost use Rattle.dm_named.specs.Faults.{ExcludesPatch};

use crate::conflictor::Conflictor;
use crate::fault::{FaultKind, ReadFault};
use crate::limits::Limits;
use crate::original::Original;
use crate::reading::marks::{begins_twice_at, other_fault};
use crate::reading::originals::{original_at, originals_at};
use crate::reading::primitives::prims_at;
use crate::reading::words::same;
use crate::text::{begins_at, skip, word_at};
use dm_prim::Prim;
use std::alloc::Allocator;

/// The partners in double braces, or none, the place after them, and the limits that are left.
fn partners_at<A: Allocator + Copy>(
    alloc: A,
    text: &[u8],
    start: usize,
    limits: Limits,
) -> Result<(Vec<Original<A>, A>, usize, Limits), ReadFault>
    requires { start ≤ length text.now }
    ensures ok { IfOk result (λ x. Partners limits.kinds (drop start text.now) x.0.items (drop x.1 text.now)) }
    ensures few { IfOk result (λ x. sizes_of x.0.items ≤ limits.prims) }
    ensures left { IfOk result (λ x. x.2 ≡ less limits (sizes_of x.0.items)) }
    ensures within { IfOk result (λ x. x.1 ≤ length text.now) }
    ensures forward { IfOk result (λ x. start ≤ x.1) }
    ensures err { IfErr result (λ e. PartnersFault limits e.kind (drop start text.now) (drop e.at text.now)) }
    ensures place { IfErr result (λ e. e.at ≤ length text.now) }
{
    let here = skip(text, start);
    if !begins_twice_at(text, here, b'{') {
        return Ok((Vec::new(alloc), start, limits));
    }
    let (partners, end, left) = originals_at(alloc, text, here + 2, limits)?;
    let close = skip(text, end);
    if !begins_twice_at(text, close, b'}') {
        return Err(other_fault(text, close, limits.kinds));
    }
    Ok((partners, close + 2, left))
}

/// Primitives in brackets, and the place after them.
fn brackets_at<A: Allocator + Copy>(
    alloc: A,
    text: &[u8],
    start: usize,
    limits: Limits,
) -> Result<(Vec<Prim<A>, A>, usize), ReadFault>
    requires { start ≤ length text.now }
    ensures ok { IfOk result (λ x. InBrackets limits.kinds (drop start text.now) (prims_of x.0.items) (drop x.1 text.now)) }
    ensures few { IfOk result (λ x. length (prims_of x.0.items) ≤ limits.prims) }
    ensures within { IfOk result (λ x. x.1 ≤ length text.now) }
    ensures forward { IfOk result (λ x. start ≤ x.1) }
    ensures err { IfErr result (λ e. BracketsFault limits e.kind (drop start text.now) (drop e.at text.now)) }
    ensures place { IfErr result (λ e. e.at ≤ length text.now) }
{
    let open = skip(text, start);
    if !begins_at(text, open, b'[') {
        return Err(other_fault(text, open, limits.kinds));
    }
    let (prims, end) = prims_at(alloc, text, open + 1, limits)?;
    let close = skip(text, end);
    if !begins_at(text, close, b']') {
        return Err(other_fault(text, close, limits.kinds));
    }
    Ok((prims, close + 1))
}

/// A conflictor whose word is at `start` and ends at `at`, and the place after it.
pub(crate) fn after_word<A: Allocator + Copy>(
    alloc: A,
    text: &[u8],
    start: usize,
    at: usize,
    limits: Limits,
) -> Result<(Conflictor<A>, usize), ReadFault>
    requires word { Word (drop start text.now) (codes "conflictor") (drop at text.now) }
    requires within_at { at ≤ length text.now }
    ensures ok { IfOk result (λ x. ConflictorText limits.kinds (drop start text.now) x.0 (drop x.1 text.now)) }
    ensures few { IfOk result (λ x. conflictor_size x.0 ≤ limits.prims) }
    ensures within { IfOk result (λ x. x.1 ≤ length text.now) }
    ensures forward { IfOk result (λ x. at < x.1) }
    ensures err { IfErr result (λ e. ConflictorFault limits e.kind (drop start text.now) (drop e.at text.now)) }
    ensures place { IfErr result (λ e. e.at ≤ length text.now) }
{
    let (partners, list, left) = partners_at(alloc, text, at, limits)?;
    let (undone, last) = brackets_at(alloc, text, list, left)?;
    let left = left.less(undone.len());
    let (own, end) = original_at(alloc, text, last, left)?;
    Ok((Conflictor::new(partners, undone, own), end))
}

/// The conflictor at a place, and the place after it: its word is read, and then its parts.
fn conflictor_at<A: Allocator + Copy>(
    alloc: A,
    text: &[u8],
    at: usize,
    limits: Limits,
) -> Result<(Conflictor<A>, usize), ReadFault>
    ensures ok { IfOk result (λ x. ConflictorText limits.kinds (drop at text.now) x.0 (drop x.1 text.now)) }
    ensures few { IfOk result (λ x. conflictor_size x.0 ≤ limits.prims) }
    ensures within { IfOk result (λ x. x.1 ≤ length text.now) }
    ensures forward { IfOk result (λ x. at < x.1) }
    ensures err { IfErr result (λ e. ConflictorFault limits e.kind (drop at text.now) (drop e.at text.now)) }
    ensures place { IfErr result (λ e. at ≤ length text.now → e.at ≤ length text.now) }
    ensures past { IfErr result (λ e. length text.now < at → e.at ≡ at) }
{
    if at > text.len() {
        return Err(ReadFault {
            kind: FaultKind::BadPatch,
            at,
        });
    }
    let (word, next) = word_at(text, at);
    if !same(word, b"conflictor") {
        return Err(ReadFault {
            kind: FaultKind::BadPatch,
            at,
        });
    }
    after_word(alloc, text, at, next, limits)
}

/// The conflictor at a place, and the place after it. White space may stand between its parts, and none before its word. Its
/// contexts are of primitives alone, of the kinds that the limits allow and no more in the whole conflictor.
///
/// # Errors
/// The first fault from left to right. If the word `conflictor` does not stand at the place, or the place is past the end of the
/// text, it is `BadPatch` at that place.
pub fn read_conflictor<A: Allocator + Copy>(
    alloc: A,
    text: &[u8],
    at: usize,
    limits: Limits,
) -> Result<(Conflictor<A>, usize), ReadFault>
    // The text there is that of the conflictor that is returned.
    ensures ok { IfOk result (λ x. ConflictorText limits.kinds (drop at text.now) x.0 (drop x.1 text.now)) }
    ensures within { IfOk result (λ x. x.1 ≤ length text.now) }
    ensures forward { IfOk result (λ x. at < x.1) }
    ensures few { IfOk result (λ x. conflictor_size x.0 ≤ limits.prims) }
    // It is the text of no other conflictor.
    ensures only { IfOk result (λ x. (c : conflictors.Conflictor) (rest : List ℕ) → ConflictorText limits.kinds (drop at text.now) c rest → (x.0 ≡ c) × (drop x.1 text.now ≡ rest)) }

    // A conflictor whose text is there is read, unless it has too many primitives or memory runs out.
    ensures within_count { (c : conflictors.Conflictor) (rest : List ℕ) → ConflictorText limits.kinds (drop at text.now) c rest → conflictor_size c ≤ limits.prims
        → MatchResult result (λ x. (x.0 ≡ c) × (drop x.1 text.now ≡ rest)) (λ e. e.kind ≡ FaultKind.NoMemory) }

    // What is wrong, and where.
    ensures err { IfErr result (λ e. ConflictorFault limits e.kind (drop at text.now) (drop e.at text.now)) }
    ensures place { IfErr result (λ e. at ≤ length text.now → e.at ≤ length text.now) }
    ensures past { IfErr result (λ e. length text.now < at → e.at ≡ at) }
    // With any fault but `NoMemory` and `TooMany`, there is no conflictor there.
    ensures none { IfErr result (λ e. ExcludesPatch e.kind → (c : conflictors.Conflictor) (rest : List ℕ) → ConflictorText limits.kinds (drop at text.now) c rest → ⊥) }
{
    match conflictor_at(alloc, text, at, limits) {
        Ok(found) => Ok(found),
        Err(e) => Err(e),
    }
}
