//! Merging patches that start where the rest of a repository does.
ghost use Rattle.std.specs.Prelude.{◌≡◌, ◌≢◌, ◌↔◌, ◌+◌, ◌<◌, List, [], length, map, IfOk, IsTrue, MatchResult};
ghost use Rattle.std.specs.FinMap as finmap;
ghost use Rattle.dm_named.specs.Patches.{Patch};
ghost use Rattle.dm_bundle.specs.Bundles.{Contents};
ghost use Rattle.dm_repo.specs.Merging.{MergeRectangle, MergeStops};
ghost use Rattle.dm_repo.specs.Sifting.{MergesUnder};
ghost use Rattle.dm_repo.specs.declared.policy.Policy.{Policy};
ghost use Rattle.dm_repo.specs.declared.policy.Policy.TheVariants.{Refuse, Skip};
ghost use Rattle.dm_repo.specs.declared.refusal.Refusal.TheVariants.{Full};
ghost use Rattle.dm_repo.specs.Squares.{Placed, PlacedMerges, patches, undone};
ghost use Rattle.dm_repo.specs.Aside.{IsRestOf};
ghost use Rattle.dm_repo.specs.Weighing.{Fits, IsBundleSplit, IsMergeOf, RefusesBundle, most_patches};
ghost use Rattle.dm_repo.specs.Trials.{MakesPart};
ghost use Rattle.dm_repo.specs.Stops.{AtPlaces, BlockedBy};

use crate::passing::merge_past;
use crate::policy::Policy;
use crate::refusal::Refusal;
use crate::repo::Repo;
use crate::sifting::{first_conflict, is_all_skipped, sift};
use crate::stop::Blocked;
use crate::trial::try_patches;
use crate::weighed::Merged;
use dm_named::{Limits, Named, Passing};
use std::alloc::{AllocError, Allocator};

/// A repository holds at most so many patches: as many as can be read again.
const MOST_PATCHES: usize = Limits::OWN.patches;

/// Patches as they are once they are merged with the rest of a repository, and how many others are skipped.
#[derive(Drop)]
pub(crate) struct Merging<A: Allocator> {
    pub(crate) merged: Vec<(usize, Passing<A>), A>,
    pub(crate) skipped: usize,
}

/// Each patch gets the inverse of its primitives.
pub(crate) fn undo_all<A: Allocator + Copy>(alloc: A, patches: &mut [(usize, Passing<A>)])
    ensures { patches.new ≡ map undone patches.old }
{
    for k in 0..patches.len() {
        let patch = &mut patches[k];
        patch.1.undo(alloc);
    }
}

/// Each of `new`, from left to right, is merged with all of `rest`, each of which is undone.
fn merge_all<A: Allocator + Copy>(
    alloc: A,
    rest: &mut [(usize, Passing<A>)],
    new: &mut [(usize, Passing<A>)],
) -> Result<(), Blocked>
    ensures { MatchResult result
        (λ _. MergeRectangle PlacedMerges (map undone rest.old) new.old new.new (map undone rest.new))
        (λ blocked. BlockedBy blocked (AtPlaces (MergeStops PlacedMerges (map undone rest.old) new.old))) }
{
    for k in 0..new.len() {
        let patch = &mut new[k];
        let place = patch.0;
        match merge_past(alloc, rest, patch) {
            Ok(()) => {}
            Err(stop) => return Err(stop.blocked(place)),
        }
    }
    Ok(())
}

/// Whether a repository of so many patches is too full for so many more.
pub(crate) fn is_too_many(held: usize, more: usize) -> bool
    ensures { IsTrue result ↔ (most_patches < held + more) }
{
    if held > MOST_PATCHES {
        return true;
    }
    more > MOST_PATCHES - held
}

/// The patches without their places.
fn without_places<A: Allocator + Copy>(
    alloc: A,
    placed: Vec<(usize, Passing<A>), A>,
) -> Result<Vec<Named<A>, A>, AllocError>
    ensures { IfOk result (λ list. list.items ≡ patches placed.items) }
{
    let mut list = Vec::with_capacity(alloc, placed.len())?;
    for (_, patch) in placed {
        list.push(patch.into_named())?;
    }
    Ok(list)
}

/// Applies the merged patches to the part of the repository's tree that they reach; so many others were skipped.
fn append<A: Allocator, B: Allocator + Copy>(
    alloc: B,
    repo: &Repo<A>,
    merged: Vec<(usize, Passing<B>), B>,
    skipped: usize,
) -> Result<Merged<B>, Refusal>
    ensures { (b : Contents) (policy : Policy) (rest new : List Placed) →
        Fits repo.now.patches b rest new → MergesUnder policy rest new merged.items skipped → MatchResult result
        (λ m. IsMergeOf repo.now.patches b policy m.patches.items m.skipped × MakesPart repo.now.patches m.patches.items m.paths.items (finmap.get m.part))
        (λ why. RefusesBundle repo.now.patches b policy why) }
{
    if is_too_many(repo.len(), merged.len()) {
        return Err(Refusal::Full);
    }
    let trial = match try_patches(alloc, repo.tree(), &merged) {
        Ok(trial) => trial,
        Err(stop) => return Err(stop.full()),
    };
    let patches = without_places(alloc, merged)?;
    Ok(Merged {
        patches,
        part: trial.part,
        paths: trial.paths,
        skipped,
    })
}

/// Merges the patches that fit with the rest of the repository: all of them, or none. Of the rest, patches that stand aside
/// may be left out.
fn merge_whole<A: Allocator + Copy>(
    alloc: A,
    rest: Vec<(usize, Passing<A>), A>,
    new: Vec<(usize, Passing<A>), A>,
) -> Result<Merging<A>, Refusal>
    ensures { (repo : List Patch) (b : Contents) (full : List Placed) → IsRestOf full rest.items new.items → Fits repo b full new.items → MatchResult result
        (λ m. MergesUnder Refuse full new.items m.merged.items m.skipped)
        (λ why. (why ≢ Full) × RefusesBundle repo b Refuse why) }
{
    let mut rest = rest;
    let mut merged = new;
    undo_all(alloc, rest.as_mut_slice());
    match merge_all(alloc, rest.as_mut_slice(), merged.as_mut_slice()) {
        Ok(()) => Ok(Merging { merged, skipped: 0 }),
        Err(blocked) => Err(blocked.conflicts()),
    }
}

/// Merges those of the patches that fit with the rest of the repository that can be, and skips the others.
fn merge_some<A: Allocator + Copy, B: Allocator + Copy>(
    own: A,
    alloc: B,
    rest: Vec<(usize, Passing<B>), B>,
    new: Vec<(usize, Passing<B>), B>,
) -> Result<Merging<B>, Refusal>
    ensures { (repo : List Patch) (b : Contents) (full : List Placed) → IsRestOf full rest.items new.items → Fits repo b full new.items → MatchResult result
        (λ m. MergesUnder Skip full new.items m.merged.items m.skipped)
        (λ why. (why ≢ Full) × RefusesBundle repo b Skip why) }
{
    let mut rest = rest;
    undo_all(alloc, rest.as_mut_slice());
    let mut sifted = sift(own, alloc, rest, new)?;
    if is_all_skipped(&sifted) {
        let blocked = first_conflict(
            alloc,
            sifted.rest.as_mut_slice(),
            sifted.skipped.as_mut_slice(),
        );
        return Err(blocked.conflicts());
    }
    let skipped = sifted.skipped.len();
    Ok(Merging {
        merged: sifted.merged,
        skipped,
    })
}

/// Merges the patches that fit with the rest of the repository, as the policy says. What is only tried lies in its own memory.
pub(crate) fn merge_with<A: Allocator + Copy, B: Allocator + Copy>(
    own: A,
    alloc: B,
    rest: Vec<(usize, Passing<B>), B>,
    new: Vec<(usize, Passing<B>), B>,
    policy: Policy,
) -> Result<Merging<B>, Refusal>
    ensures { (repo : List Patch) (b : Contents) (full : List Placed) → IsRestOf full rest.items new.items → Fits repo b full new.items → MatchResult result
        (λ m. MergesUnder policy full new.items m.merged.items m.skipped)
        (λ why. (why ≢ Full) × RefusesBundle repo b policy why) }
{
    match policy {
        Policy::Refuse => merge_whole(alloc, rest, new),
        Policy::Skip => merge_some(own, alloc, rest, new),
    }
}

/// Merges the patches that fit with the rest of the repository, and applies what comes of them to a part of its tree.
pub(crate) fn merge<A: Allocator + Copy, B: Allocator + Copy>(
    alloc: B,
    repo: &Repo<A>,
    rest: Vec<(usize, Passing<B>), B>,
    new: Vec<(usize, Passing<B>), B>,
    policy: Policy,
) -> Result<Merged<B>, Refusal>
    ensures { (b : Contents) (full : List Placed) → IsRestOf full rest.items new.items → Fits repo.now.patches b full new.items → MatchResult result
        (λ m. IsMergeOf repo.now.patches b policy m.patches.items m.skipped × MakesPart repo.now.patches m.patches.items m.paths.items (finmap.get m.part))
        (λ why. RefusesBundle repo.now.patches b policy why) }
{
    let merging = merge_with(repo.alloc(), alloc, rest, new, policy)?;
    append(alloc, repo, merging.merged, merging.skipped)
}

/// Applies the patches to merge to a part of the tree of a repository that is common as a whole: nothing stands in their way.
pub(crate) fn append_to_whole<A: Allocator, B: Allocator + Copy>(
    alloc: B,
    repo: &Repo<A>,
    new: Vec<(usize, Passing<B>), B>,
) -> Result<Merged<B>, Refusal>
    ensures { (b : Contents) (policy : Policy) (front : List Placed) → IsBundleSplit repo.now.patches b front [] new.items → MatchResult result
        (λ m. IsMergeOf repo.now.patches b policy m.patches.items m.skipped × MakesPart repo.now.patches m.patches.items m.paths.items (finmap.get m.part))
        (λ why. RefusesBundle repo.now.patches b policy why) }
{
    let trial = match try_patches(alloc, repo.tree(), &new) {
        Ok(trial) => trial,
        Err(stop) => return Err(stop.does_not_fit()),
    };
    if is_too_many(repo.len(), new.len()) {
        return Err(Refusal::Full);
    }
    let patches = without_places(alloc, new)?;
    Ok(Merged {
        patches,
        part: trial.part,
        paths: trial.paths,
        skipped: 0,
    })
}
