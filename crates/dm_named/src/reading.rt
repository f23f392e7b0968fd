//! Reading a named patch.

mod binaries;
mod bodies;
pub(crate) mod conflictors;
mod dependencies;
mod hunks;
mod items;
mod lines;
mod marks;
pub(crate) mod merged;
mod names;
mod numbers;
mod originals;
mod paths;
mod preferences;
mod primitives;
mod replaces;
mod words;

ghost use Rattle.std.specs.Prelude.{◌≡◌, ◌≤◌, ◌<◌, ℕ, List, length, drop, MatchResult, IfOk, IfErr};
ghost use Rattle.dm_named.specs.Patches.{Patch, PatchText, PatchTextIn};
ghost use Rattle.dm_named.specs.Limits.{standard};
ghost use Rattle.dm_named.specs.Faults.{PatchFaultAt, PatchFaultWithin, ExcludesPatch};

use crate::fault::{FaultKind, ReadFault};
use crate::limits::Limits;
use crate::named::Named;
use crate::reading::bodies::body_at;
use crate::reading::dependencies::deps_at;
use crate::text::info_at;
use std::alloc::Allocator;

/// The named patch at a place, and the place after it: its patch info, its dependencies and its body are read in turn.
fn named_at<A: Allocator + Copy>(
    alloc: A,
    text: &[u8],
    at: usize,
    limits: Limits,
) -> Result<(Named<A>, usize), ReadFault>
    ensures ok { IfOk result (λ x. PatchTextIn limits.kinds (drop at text.now) x.0 (drop x.1 text.now)) }
    ensures within { IfOk result (λ x. x.1 ≤ length text.now) }
    ensures forward { IfOk result (λ x. at < x.1) }
    ensures few { IfOk result (λ x. length x.0.prims ≤ limits.prims) }
    ensures err { IfErr result (λ e. PatchFaultWithin limits e.kind (drop at text.now) (drop e.at text.now)) }
    ensures place { IfErr result (λ e. at ≤ length text.now → e.at ≤ length text.now) }
    ensures past { IfErr result (λ e. length text.now < at → e.at ≡ at) }
{
    let (info, after) = info_at(alloc, text, at)?;
    let (deps, body) = deps_at(alloc, text, after)?;
    let (prims, end) = body_at(alloc, text, body, limits)?;
    Ok((Named::new(info, deps, prims), end))
}

/// The named patch at a place, and the place after it: after its closing brace, or after its last primitive. A patch with
/// neither ends after the `]` of its patch info or the `>` of its dependencies. More primitives than the limits allow are a
/// fault, and so is one of another kind; a patch info that occurs twice is none.
///
/// # Errors
/// The first fault from left to right. If there is no `[` at the place, or the place is past the end of the text, it is
/// `BadInfo` at that place.
pub fn read_named_within<A: Allocator + Copy>(
    alloc: A,
    text: &[u8],
    at: usize,
    limits: Limits,
) -> Result<(Named<A>, usize), ReadFault>
    // The text there is that of the patch that is returned.
    ensures ok { IfOk result (λ x. PatchTextIn limits.kinds (drop at text.now) x.0 (drop x.1 text.now)) }
    ensures within { IfOk result (λ x. x.1 ≤ length text.now) }
    ensures forward { IfOk result (λ x. at < x.1) }
    ensures few { IfOk result (λ x. length x.0.prims ≤ limits.prims) }
    // It is the text of no other patch.
    ensures only { IfOk result (λ x. (p : Patch) (rest : List ℕ) → PatchTextIn limits.kinds (drop at text.now) p rest → (x.0 ≡ p) × (drop x.1 text.now ≡ rest)) }

    // A named patch whose text is there is read, unless it has too many primitives or memory runs out.
    ensures within_count { (p : Patch) (rest : List ℕ) → PatchTextIn limits.kinds (drop at text.now) p rest → length p.prims ≤ limits.prims
        → MatchResult result (λ x. (x.0 ≡ p) × (drop x.1 text.now ≡ rest)) (λ e. e.kind ≡ FaultKind.NoMemory) }

    // What is wrong, and where.
    ensures err { IfErr result (λ e. PatchFaultWithin limits e.kind (drop at text.now) (drop e.at text.now)) }
    ensures place { IfErr result (λ e. at ≤ length text.now → e.at ≤ length text.now) }
    ensures past { IfErr result (λ e. length text.now < at → e.at ≡ at) }
    // With any fault but `NoMemory` and `TooMany`, there is no named patch there.
    ensures none { IfErr result (λ e. ExcludesPatch e.kind → (p : Patch) (rest : List ℕ) → PatchTextIn limits.kinds (drop at text.now) p rest → ⊥) }
{
    match named_at(alloc, text, at, limits) {
        Ok(found) => Ok(found),
        Err(e) => Err(e),
    }
}

/// The named patch at a place, and the place after it, read within [`Limits::STANDARD`].
///
/// # Errors
/// As [`read_named_within`] has them.
pub fn read_named<A: Allocator + Copy>(
    alloc: A,
    text: &[u8],
    at: usize,
) -> Result<(Named<A>, usize), ReadFault>
    // The text there is that of the patch that is returned.
    ensures ok { IfOk result (λ x. PatchText (drop at text.now) x.0 (drop x.1 text.now)) }
    ensures within { IfOk result (λ x. x.1 ≤ length text.now) }
    ensures forward { IfOk result (λ x. at < x.1) }
    ensures few { IfOk result (λ x. length x.0.prims ≤ standard.prims) }
    // It is the text of no other patch.
    ensures only { IfOk result (λ x. (p : Patch) (rest : List ℕ) → PatchText (drop at text.now) p rest → (x.0 ≡ p) × (drop x.1 text.now ≡ rest)) }

    // A named patch whose text is there is read, unless it has too many primitives or memory runs out.
    ensures within_count { (p : Patch) (rest : List ℕ) → PatchText (drop at text.now) p rest → length p.prims ≤ standard.prims
        → MatchResult result (λ x. (x.0 ≡ p) × (drop x.1 text.now ≡ rest)) (λ e. e.kind ≡ FaultKind.NoMemory) }

    // What is wrong, and where.
    ensures err { IfErr result (λ e. PatchFaultAt e.kind (drop at text.now) (drop e.at text.now)) }
    ensures place { IfErr result (λ e. at ≤ length text.now → e.at ≤ length text.now) }
    ensures past { IfErr result (λ e. length text.now < at → e.at ≡ at) }
    // With any fault but `NoMemory` and `TooMany`, there is no named patch there.
    ensures none { IfErr result (λ e. ExcludesPatch e.kind → (p : Patch) (rest : List ℕ) → PatchText (drop at text.now) p rest → ⊥) }
{
    read_named_within(alloc, text, at, Limits::STANDARD)
}
