//! Which primitives of two patches that conflict can't pass each other, told so that people can be shown them.
ghost use Rattle.std.specs.Prelude.{ℕ, ◌≡◌, List, map, IfErr, IfNone, IfOk, IfSome, MatchOption};
ghost use Rattle.dm_prim.specs.Commuting.{Commutes, ListsCommute};
ghost use Rattle.dm_prim.specs.Primitives as primitives;
ghost use Rattle.dm_prim.specs.Prims.{prim_of, prims_of};
ghost use Rattle.dm_prim.specs.Rectangles.{CellRow};
ghost use Rattle.dm_repo.specs.declared.policy.Policy.{Policy};
ghost use Rattle.dm_repo.specs.declared.policy.Policy.TheVariants.{Refuse};
ghost use Rattle.dm_repo.specs.declared.refusal.Refusal.TheVariants.{Conflicts};
ghost use Rattle.dm_repo.specs.Clashes.{Clashes, ClashesPast, IsClash, PrimsClash, RectangleStops, RowStops};
ghost use Rattle.dm_repo.specs.Merging.{MergeRectangle, MergesPast};
ghost use Rattle.dm_repo.specs.Squares.{PlacedMerges, undone};
ghost use Rattle.dm_repo.specs.Refusals.{IsBeforeMerge};
ghost use Rattle.dm_repo.specs.Weighing.{RefusesBundle};

use crate::basis::find_fitted;
use crate::merge::undo_all;
use crate::refusal::Refusal;
use crate::repo::Repo;
use crate::sifting::merge_unchanged;
use dm_bundle::Bundle;
use dm_named::{Named, Passing, commute_prims_in_place};
use dm_prim::{Prim, commute};
use std::alloc::{AllocError, Allocator};

/// The first two primitives that can't pass each other as new patches are merged with held ones. The places are those in the
/// two patches as they are then; a patch keeps the number of its primitives as it passes others.
#[derive(Clone, Copy, PartialEq, Eq, Debug)]
pub struct Clash {
    /// The place of the new patch among the bundle's.
    pub place: usize,
    /// The place of the held patch in the repository.
    pub held: usize,
    /// The place of the primitive in the new patch.
    pub prim: usize,
    /// The place of the primitive in the held patch.
    pub held_prim: usize,
}

/// Takes `x` past the first primitives of a row, up to one that it can't pass: the place of that one.
fn row_stop<A: Allocator + Copy>(
    alloc: A,
    x: &Prim<A>,
    row: &mut [Prim<A>],
) -> Result<Option<usize>, AllocError>
    ensures { IfOk result (λ stop. MatchOption stop
        ((x' : primitives.Prim) × CellRow Commutes (prim_of x.now) (prims_of row.old) (prims_of row.new) x')
        (RowStops Commutes (prim_of x.now) (prims_of row.old))) }
{
    let mut first = x.copy_into(alloc)?;
    for k in 0..row.len() {
        let Some((passed, moved)) = commute(alloc, &first, &row[k])? else {
            return Ok(Some(k));
        };
        row[k] = passed;
        first = moved;
    }
    Ok(None)
}

/// Takes the primitives of one patch past those of another, the last of them first, up to two that can't pass each other: how many
/// have passed, and the place in the other.
fn stopped_at<A: Allocator + Copy>(
    alloc: A,
    first: &Named<A>,
    second: &Named<A>,
) -> Result<Option<(usize, usize)>, AllocError>
    ensures { IfOk result (λ stop. MatchOption stop
        ((ys : List primitives.Prim) × (xs : List primitives.Prim) × ListsCommute first.now.prims second.now.prims ys xs)
        (λ at. RectangleStops Commutes first.now.prims second.now.prims at.0 at.1)) }
{
    let mut copy = second.copy_into(alloc)?;
    let mut row = copy.replace_prims(Vec::new(alloc));
    let prims = first.prims();
    for k in (0..prims.len()).rev() {
        if let Some(at) = row_stop(alloc, &prims[k], row.as_mut_slice())? {
            return Ok(Some((prims.len() - 1 - k, at)));
        }
    }
    Ok(None)
}

/// Merges `patch` with `next`, which is undone, or returns the primitives of `next` and of `patch` that can't pass each other.
fn meet<A: Allocator + Copy>(
    alloc: A,
    next: &mut (usize, Passing<A>),
    patch: &mut (usize, Passing<A>),
) -> Result<Option<(usize, usize)>, AllocError>
    ensures place { next.new.0 ≡ next.old.0 }
    ensures square { IfOk result (λ stop. MatchOption stop
        (PlacedMerges (undone next.old) patch.old patch.new (undone next.new))
        (λ at. PrimsClash (undone next.old).1 patch.old.1 at.0 at.1)) }
{
    if merge_unchanged(alloc, next, alloc, patch)? {
        return Ok(None);
    }
    if let Some(at) = stopped_at(alloc, next.1.named(), patch.1.named())? {
        return Ok(Some(at));
    }
    if !commute_prims_in_place(alloc, &mut next.1, &mut patch.1)? {
        unreachable!();
    }
    Ok(None)
}

/// Merges `patch` with all of `rest`, each of which is undone, up to one that it clashes with.
fn clash_past<A: Allocator + Copy>(
    alloc: A,
    rest: &mut [(usize, Passing<A>)],
    patch: &mut (usize, Passing<A>),
) -> Result<Option<Clash>, AllocError>
    ensures { IfOk result (λ clash. MatchOption clash
        (MergesPast PlacedMerges (map undone rest.old) patch.old patch.new (map undone rest.new))
        (ClashesPast (map undone rest.old) patch.old)) }
{
    let place = patch.0;
    for k in 0..rest.len() {
        let next = &mut rest[k];
        let held = next.0;
        if let Some((held_prim, prim)) = meet(alloc, next, patch)? {
            return Ok(Some(Clash {
                place,
                held,
                prim,
                held_prim,
            }));
        }
    }
    Ok(None)
}

/// Merges each of `new`, from left to right, with all of `rest`, each of which is undone, up to two that clash.
fn first_clash<A: Allocator + Copy>(
    alloc: A,
    rest: &mut [(usize, Passing<A>)],
    new: &mut [(usize, Passing<A>)],
) -> Result<Option<Clash>, AllocError>
    ensures { IfOk result (λ clash. MatchOption clash
        (MergeRectangle PlacedMerges (map undone rest.old) new.old new.new (map undone rest.new))
        (Clashes (map undone rest.old) new.old)) }
{
    for k in 0..new.len() {
        let patch = &mut new[k];
        if let Some(clash) = clash_past(alloc, rest, patch)? {
            return Ok(Some(clash));
        }
    }
    Ok(None)
}

/// The first two primitives that can't pass each other as the new patches of a bundle are merged with a repository, or `None` where
/// all are merged. Where conflicts are refused, [`weigh`](crate::weigh) refuses the bundle with [`Refusal::Conflicts`] of these two
/// patches; where they are skipped and it refuses so, it is of these two as well. A refusal is one of a step before.
pub fn find_clash<A: Allocator + Copy, B: Allocator + Copy>(
    alloc: B,
    repo: &Repo<A>,
    bundle: &Bundle<B>,
) -> Result<Option<Clash>, Refusal>
    ensures told { IfOk result (λ found. IfSome found (IsClash repo.now.patches bundle.now)) }
    ensures refuses { IfOk result (λ found. IfSome found (λ c.
        RefusesBundle repo.now.patches bundle.now Refuse (Conflicts c.place c.held))) }
    ensures only { IfOk result (λ found. IfSome found (λ c. (policy : Policy) (n h : ℕ) →
        RefusesBundle repo.now.patches bundle.now policy (Conflicts n h) → (n ≡ c.place) × (h ≡ c.held))) }
    ensures merges { IfOk result (λ found. IfNone found ((policy : Policy) (n h : ℕ) →
        RefusesBundle repo.now.patches bundle.now policy (Conflicts n h) → ⊥)) }
    ensures refusal { IfErr result (λ why. (policy : Policy) → RefusesBundle repo.now.patches bundle.now policy why) }
    ensures before { IfErr result (IsBeforeMerge repo.now.patches bundle.now) }
{
    let Some(basis) = find_fitted(alloc, repo, bundle)? else {
        return Ok(None);
    };
    let mut rest = basis.rest;
    let mut new = basis.new;
    undo_all(alloc, rest.as_mut_slice());
    let found = first_clash(alloc, rest.as_mut_slice(), new.as_mut_slice())?;
    Ok(found)
}
