//! Merging patches one after the other, where those that can't be merged are skipped.
//!
//! The patches lie in the memory of the bundle, `alloc`, which may be given back as a whole alone. What is only tried is a copy in
//! the memory of the repository, `own`, where each copy is given back as soon as it was tried.
ghost use Rattle.std.specs.Prelude.{◌≡◌, ◌≢◌, ◌↔◌, List, [], map, IfOk, IsTrue, MatchBool, MatchOption};
ghost use Rattle.dm_repo.specs.declared.policy.Policy.TheVariants as policies;
ghost use Rattle.dm_repo.specs.Merging.{MergesPast, MergePastStops};
ghost use Rattle.dm_repo.specs.Sifting.{ConflictsUnder, MergesOver, Sifts};
ghost use Rattle.dm_repo.specs.Skips.{IsStoppedBy, SiftsFor};
ghost use Rattle.dm_repo.specs.Squares.{Placed, PlacedCommutes, PlacedMerges, undone};
ghost use Rattle.dm_repo.specs.Staircases.{Passes, PassStops};
ghost use Rattle.dm_repo.specs.Stops.{AtPlaces, BlockedBy};

use crate::passing::{merge_past, pass};
use crate::skip::{Skip, Stopper};
use crate::stop::{Blocked, Stop};
use dm_named::{Passing, are_apart, commute_named_in_place, commute_prims_in_place};
use std::alloc::{AllocError, Allocator};

/// What becomes of patches to merge, and of the rest of the repository, each of which is undone; and why each of the skipped
/// ones is skipped.
#[derive(Drop)]
pub(crate) struct Sifted<A: Allocator> {
    pub(crate) merged: Vec<(usize, Passing<A>), A>,
    pub(crate) skipped: Vec<(usize, Passing<A>), A>,
    pub(crate) skips: Vec<Skip, A>,
    pub(crate) rest: Vec<(usize, Passing<A>), A>,
}

/// A copy of a patch, under another allocator.
fn copy_of<A: Allocator, B: Allocator + Copy>(
    alloc: B,
    patch: &(usize, Passing<A>),
) -> Result<(usize, Passing<B>), AllocError>
    ensures { IfOk result (λ copy. copy ≡ patch.now) }
{
    let copy = patch.1.named().copy_into(alloc)?;
    Ok((patch.0, Passing::new(copy)))
}

/// Whether `patch` passes `next`, and neither is changed by it: neither names the other, and they touch nothing in common.
fn pass_unchanged<A: Allocator + Copy, B: Allocator + Copy>(
    alloc: A,
    next: &mut (usize, Passing<A>),
    other: B,
    patch: &mut (usize, Passing<B>),
) -> Result<bool, AllocError>
    ensures next { next.new ≡ next.old }
    ensures patch { patch.new ≡ patch.old }
    ensures square { IfOk result (λ unchanged. IsTrue unchanged → PlacedCommutes next.old patch.old patch.old next.old) }
{
    if patch.1.named().depends_on(next.1.named().info()) {
        return Ok(false);
    }
    if next.1.named().depends_on(patch.1.named().info()) {
        return Ok(false);
    }
    let unchanged = are_apart(alloc, &mut next.1, other, &mut patch.1)?;
    Ok(unchanged)
}

/// Whether `patch` passes all of `skipped`, and none is changed by it.
fn passes_unchanged<A: Allocator + Copy>(
    alloc: A,
    skipped: &mut [(usize, Passing<A>)],
    patch: &mut (usize, Passing<A>),
) -> Result<bool, AllocError>
    ensures skipped { skipped.new ≡ skipped.old }
    ensures patch { patch.new ≡ patch.old }
    ensures row { IfOk result (λ unchanged. IsTrue unchanged → Passes PlacedCommutes skipped.old patch.old patch.old skipped.old) }
{
    for k in (0..skipped.len()).rev() {
        let nearest = &mut skipped[k];
        if !pass_unchanged(alloc, nearest, alloc, patch)? {
            return Ok(false);
        }
    }
    Ok(true)
}

/// Whether `patch` is merged with `next`, which is undone, and neither is changed by it: they touch nothing in common.
pub(crate) fn merge_unchanged<A: Allocator + Copy, B: Allocator + Copy>(
    alloc: A,
    next: &mut (usize, Passing<A>),
    other: B,
    patch: &mut (usize, Passing<B>),
) -> Result<bool, AllocError>
    ensures next { next.new ≡ next.old }
    ensures patch { patch.new ≡ patch.old }
    ensures square { IfOk result (λ unchanged. IsTrue unchanged → PlacedMerges (undone next.old) patch.old patch.old (undone next.old)) }
{
    let unchanged = are_apart(alloc, &mut next.1, other, &mut patch.1)?;
    Ok(unchanged)
}

/// Whether `patch` is merged with all of `rest`, each of which is undone, and none is changed by it.
fn merges_unchanged<A: Allocator + Copy>(
    alloc: A,
    rest: &mut [(usize, Passing<A>)],
    patch: &mut (usize, Passing<A>),
) -> Result<bool, AllocError>
    ensures rest { rest.new ≡ rest.old }
    ensures patch { patch.new ≡ patch.old }
    ensures row { IfOk result (λ unchanged. IsTrue unchanged →
        MergesPast PlacedMerges (map undone rest.old) patch.old patch.old (map undone rest.old)) }
{
    for k in 0..rest.len() {
        let next = &mut rest[k];
        if !merge_unchanged(alloc, next, alloc, patch)? {
            return Ok(false);
        }
    }
    Ok(true)
}

/// Whether `patch` passes `next`, which stays as it is.
fn would_pass<A: Allocator + Copy, B: Allocator + Copy>(
    own: A,
    alloc: B,
    next: &mut (usize, Passing<B>),
    patch: &mut (usize, Passing<A>),
) -> Result<bool, AllocError>
    ensures same { next.new ≡ next.old }
    ensures square { IfOk result (λ passes. MatchBool passes
        ((left : Placed) × PlacedCommutes next.old patch.old patch.new left)
        ((over : Placed) (left : Placed) → PlacedCommutes next.old patch.old over left → ⊥)) }
{
    if pass_unchanged(alloc, next, own, patch)? {
        return Ok(true);
    }
    let mut tried = copy_of(own, next)?;
    let passes = commute_named_in_place(own, &mut tried.1, &mut patch.1)?;
    Ok(passes)
}

/// Passes `patch` over all of `rest`, the nearest first, which is the last, and answers the place of the one that stops it;
/// `rest` stays as it is.
fn would_pass_all<A: Allocator + Copy, B: Allocator + Copy>(
    own: A,
    alloc: B,
    rest: &mut [(usize, Passing<B>)],
    patch: &mut (usize, Passing<A>),
) -> Result<Option<usize>, AllocError>
    ensures same { rest.new ≡ rest.old }
    ensures row { IfOk result (λ stopper. MatchOption stopper
        ((left : List Placed) × Passes PlacedCommutes rest.old patch.old patch.new left)
        (λ k. (r : Placed) × (k ≡ r.0) × PassStops PlacedCommutes rest.old patch.old r)) }
{
    for k in (0..rest.len()).rev() {
        let nearest = &mut rest[k];
        if !would_pass(own, alloc, nearest, patch)? {
            return Ok(Some(nearest.0));
        }
    }
    Ok(None)
}

/// Whether `patch` is merged with `next`, which is undone and stays as it is.
fn would_merge<A: Allocator + Copy, B: Allocator + Copy>(
    own: A,
    alloc: B,
    next: &mut (usize, Passing<B>),
    patch: &mut (usize, Passing<A>),
) -> Result<bool, AllocError>
    ensures same { next.new ≡ next.old }
    ensures square { IfOk result (λ merges. MatchBool merges
        ((left : Placed) × PlacedMerges (undone next.old) patch.old patch.new left)
        ((over : Placed) (left : Placed) → PlacedMerges (undone next.old) patch.old over left → ⊥)) }
{
    if merge_unchanged(alloc, next, own, patch)? {
        return Ok(true);
    }
    let mut tried = copy_of(own, next)?;
    let merges = commute_prims_in_place(own, &mut tried.1, &mut patch.1)?;
    Ok(merges)
}

/// Merges `patch` with all of `rest`, the first of them first, and answers the place of the one that stops it; each of `rest` is
/// undone, and stays as it is.
fn would_merge_all<A: Allocator + Copy, B: Allocator + Copy>(
    own: A,
    alloc: B,
    rest: &mut [(usize, Passing<B>)],
    patch: &mut (usize, Passing<A>),
) -> Result<Option<usize>, AllocError>
    ensures same { rest.new ≡ rest.old }
    ensures row { IfOk result (λ stopper. MatchOption stopper
        ((left : List Placed) × MergesPast PlacedMerges (map undone rest.old) patch.old patch.new left)
        (λ k. (r : Placed) × (k ≡ r.0) × MergePastStops PlacedMerges (map undone rest.old) patch.old r)) }
{
    for k in 0..rest.len() {
        let next = &mut rest[k];
        if !would_merge(own, alloc, next, patch)? {
            return Ok(Some(next.0));
        }
    }
    Ok(None)
}

/// The same as `merge_over`, of a patch that may change others or be changed by them. A copy of it is asked first, since a patch
/// that can't pass another leaves nothing of it; what shares nothing with the patch isn't copied for that.
fn merge_meeting<A: Allocator + Copy, B: Allocator + Copy>(
    own: A,
    alloc: B,
    skipped: &mut [(usize, Passing<B>)],
    rest: &mut [(usize, Passing<B>)],
    patch: &mut (usize, Passing<B>),
) -> Result<Option<Stopper>, AllocError>
    ensures { IfOk result (λ stopper. MatchOption stopper
        (MergesOver skipped.old (map undone rest.old) patch.old patch.new skipped.new (map undone rest.new))
        (λ by. (skipped.new ≡ skipped.old) × (rest.new ≡ rest.old) × (patch.new ≡ patch.old) ×
        IsStoppedBy skipped.old (map undone rest.old) patch.old by)) }
{
    let mut asked = copy_of(own, patch)?;
    if let Some(place) = would_pass_all(own, alloc, skipped, &mut asked)? {
        return Ok(Some(Stopper::Skipped(place)));
    }
    if let Some(place) = would_merge_all(own, alloc, rest, &mut asked)? {
        return Ok(Some(Stopper::Held(place)));
    }
    match pass(alloc, skipped, patch) {
        Ok(()) => {}
        Err(Stop::At(_)) => unreachable!(),
        Err(stop) => return Err(stop.refused()),
    }
    match merge_past(alloc, rest, patch) {
        Ok(()) => {}
        Err(Stop::At(_)) => unreachable!(),
        Err(stop) => return Err(stop.refused()),
    }
    Ok(None)
}

/// Passes `patch` over the skipped ones and merges it with the rest, and answers what stops it, if anything does: then nothing is
/// changed.
fn merge_over<A: Allocator + Copy, B: Allocator + Copy>(
    own: A,
    alloc: B,
    skipped: &mut [(usize, Passing<B>)],
    rest: &mut [(usize, Passing<B>)],
    patch: &mut (usize, Passing<B>),
) -> Result<Option<Stopper>, AllocError>
    ensures { IfOk result (λ stopper. MatchOption stopper
        (MergesOver skipped.old (map undone rest.old) patch.old patch.new skipped.new (map undone rest.new))
        (λ by. (skipped.new ≡ skipped.old) × (rest.new ≡ rest.old) × (patch.new ≡ patch.old) ×
        IsStoppedBy skipped.old (map undone rest.old) patch.old by)) }
{
    if !passes_unchanged(alloc, skipped, patch)? {
        return merge_meeting(own, alloc, skipped, rest, patch);
    }
    if !merges_unchanged(alloc, rest, patch)? {
        return merge_meeting(own, alloc, skipped, rest, patch);
    }
    Ok(None)
}

/// Each of `new`, from left to right, passes those that were skipped and is merged with all of `rest`, each of which is
/// undone; what can't is skipped, and what stops it is kept.
pub(crate) fn sift<A: Allocator + Copy, B: Allocator + Copy>(
    own: A,
    alloc: B,
    rest: Vec<(usize, Passing<B>), B>,
    new: Vec<(usize, Passing<B>), B>,
) -> Result<Sifted<B>, AllocError>
    ensures sifts { IfOk result (λ s. SiftsFor [] (map undone rest.items) new.items s.merged.items s.skipped.items s.skips.items) }
    ensures same_rest { IfOk result (λ s. s.merged.items ≡ [] → s.rest.items ≡ rest.items) }
{
    let mut rest = rest;
    let mut merged = Vec::new(alloc);
    let mut skipped = Vec::new(alloc);
    let mut skips = Vec::new(alloc);
    for patch in new {
        let mut patch = patch;
        match merge_over(
            own,
            alloc,
            skipped.as_mut_slice(),
            rest.as_mut_slice(),
            &mut patch,
        )? {
            None => merged.push(patch)?,
            Some(by) => {
                let place = patch.0;
                skips.push(Skip { place, by })?;
                skipped.push(patch)?;
            }
        }
    }
    Ok(Sifted {
        merged,
        skipped,
        skips,
        rest,
    })
}

/// Whether none is merged of those that there were.
pub(crate) fn is_all_skipped<A: Allocator>(sifted: &Sifted<A>) -> bool
    ensures { IsTrue result ↔ ((sifted.now.merged.items ≡ []) × (sifted.now.skipped.items ≢ [])) }
{
    if !sifted.merged.is_empty() {
        return false;
    }
    !sifted.skipped.is_empty()
}

/// Why none of the patches is merged with the rest, each of which is undone: what the first of them conflicts with.
pub(crate) fn first_conflict<A: Allocator + Copy>(
    alloc: A,
    rest: &mut [(usize, Passing<A>)],
    new: &mut [(usize, Passing<A>)],
) -> Blocked
    requires some { new.old ≢ [] }
    requires none_merged { (left : List Placed) × Sifts [] (map undone rest.old) new.old [] left }
    ensures { BlockedBy result (AtPlaces (ConflictsUnder policies.Skip (map undone rest.old) new.old)) }
{
    let first = &mut new[0];
    let place = first.0;
    match merge_past(alloc, rest, first) {
        Ok(()) => unreachable!(),
        Err(stop) => stop.blocked(place),
    }
}
