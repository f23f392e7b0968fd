//! Reading a named patch in whose body conflictors may stand.

ghost use Rattle.std.specs.Prelude.{◌≡◌, ◌≤◌, ◌<◌, ℕ, List, length, drop, MatchResult, IfOk, IfErr};
ghost use Rattle.dm_named.specs.MergedPatches.{MergedPatch, MergedText, body_size};
ghost use Rattle.dm_named.specs.MergedFaults.{MergedFault};
ghost use Rattle.dm_named.specs.Faults.{ExcludesPatch};

use crate::fault::{FaultKind, ReadFault};
use crate::limits::Limits;
use crate::merged::Merged;
use crate::reading::dependencies::deps_at;
use crate::reading::items::body_of_items_at;
use crate::text::info_at;
use std::alloc::Allocator;

/// The named patch at a place, and the place after it: its patch info, its dependencies and its body are read in turn.
fn merged_at<A: Allocator + Copy>(
    alloc: A,
    text: &[u8],
    at: usize,
    limits: Limits,
) -> Result<(Merged<A>, usize), ReadFault>
    ensures ok { IfOk result (λ x. MergedText limits.kinds (drop at text.now) x.0 (drop x.1 text.now)) }
    ensures within { IfOk result (λ x. x.1 ≤ length text.now) }
    ensures forward { IfOk result (λ x. at < x.1) }
    ensures few { IfOk result (λ x. body_size x.0.body ≤ limits.prims) }
    ensures err { IfErr result (λ e. MergedFault limits e.kind (drop at text.now) (drop e.at text.now)) }
    ensures place { IfErr result (λ e. at ≤ length text.now → e.at ≤ length text.now) }
    ensures past { IfErr result (λ e. length text.now < at → e.at ≡ at) }
{
    let (info, after) = info_at(alloc, text, at)?;
    let (deps, start) = deps_at(alloc, text, after)?;
    let (body, end) = body_of_items_at(alloc, text, start, limits)?;
    Ok((Merged::new(info, deps, body), end))
}

/// The named patch at a place, and the place after it, as `read_named_within` has them, but in its body conflictors may stand beside
/// primitives. A patch of primitives alone is read as it is there. The primitives of a conflictor count as others do.
///
/// # Errors
/// The first fault from left to right. If there is no `[` at the place, or the place is past the end of the text, it is
/// `BadInfo` at that place.
pub fn read_merged<A: Allocator + Copy>(
    alloc: A,
    text: &[u8],
    at: usize,
    limits: Limits,
) -> Result<(Merged<A>, usize), ReadFault>
    // The text there is that of the patch that is returned.
    ensures ok { IfOk result (λ x. MergedText limits.kinds (drop at text.now) x.0 (drop x.1 text.now)) }
    ensures within { IfOk result (λ x. x.1 ≤ length text.now) }
    ensures forward { IfOk result (λ x. at < x.1) }
    ensures few { IfOk result (λ x. body_size x.0.body ≤ limits.prims) }
    // It is the text of no other patch.
    ensures only { IfOk result (λ x. (p : MergedPatch) (rest : List ℕ) → MergedText limits.kinds (drop at text.now) p rest → (x.0 ≡ p) × (drop x.1 text.now ≡ rest)) }

    // A named patch whose text is there is read, unless it has too many primitives or memory runs out.
    ensures within_count { (p : MergedPatch) (rest : List ℕ) → MergedText limits.kinds (drop at text.now) p rest → body_size p.body ≤ limits.prims
        → MatchResult result (λ x. (x.0 ≡ p) × (drop x.1 text.now ≡ rest)) (λ e. e.kind ≡ FaultKind.NoMemory) }

    // What is wrong, and where.
    ensures err { IfErr result (λ e. MergedFault limits e.kind (drop at text.now) (drop e.at text.now)) }
    ensures place { IfErr result (λ e. at ≤ length text.now → e.at ≤ length text.now) }
    ensures past { IfErr result (λ e. length text.now < at → e.at ≡ at) }
    // With any fault but `NoMemory` and `TooMany`, there is no named patch there.
    ensures none { IfErr result (λ e. ExcludesPatch e.kind → (p : MergedPatch) (rest : List ℕ) → MergedText limits.kinds (drop at text.now) p rest → ⊥) }
{
    match merged_at(alloc, text, at, limits) {
        Ok(found) => Ok(found),
        Err(e) => Err(e),
    }
}
