//! Splitting a list of patches: the marked ones go to the front, past the others.
ghost use Rattle.std.specs.Prelude.{◌≡◌, ◌↔◌, ◌≤◌, ◌<◌, ◌++◌, List, length, take, All, Contains, IfOk, IfErr, MatchResult};
ghost use Rattle.dm_tree.specs.Paths.{Path};
ghost use Rattle.dm_prim.specs.Primitives.{LawfulMap};
ghost use Rattle.dm_named.specs.Patches.{Patch};
ghost use Rattle.dm_bundle.specs.Bundles.{Contents};
ghost use Rattle.dm_repo.specs.declared.policy.Policy.{Policy};
ghost use Rattle.dm_repo.specs.Staircases.{Split, SplitStops};
ghost use Rattle.dm_repo.specs.Squares.{Placed, patches, placed, PlacedCommutes};
ghost use Rattle.dm_repo.specs.Aside.{LeavesAside, StandsNear};
ghost use Rattle.dm_repo.specs.Nearby.{IsNearby, behind, marked};
ghost use Rattle.dm_repo.specs.Folds.{Fold};
ghost use Rattle.dm_repo.specs.Marking.{AreMarked};
ghost use Rattle.dm_repo.specs.Refusals.{IsBeforeFront};
ghost use Rattle.dm_repo.specs.Weighing.{IsBundleSplit, IsCommon, IsRepoSplit, RefusesBundle};
ghost use Rattle.dm_repo.specs.Weighed.{IsLookedUp};
ghost use Rattle.dm_repo.specs.Splitting.{SplitsInto, RefusesToSplit};
ghost use Rattle.dm_repo.specs.Stops.{AreMarkedUpTo, AtPlaces, BlockedBy, IsMarked};

use crate::marks::{Marks, common_marks};
use crate::passing::pass;
use crate::refusal::Refusal;
use crate::repo::Repo;
use crate::stop::Blocked;
use dm_bundle::Bundle;
use dm_named::{Named, Passing};
use std::alloc::{AllocError, Allocator};

/// Patches in two parts, each with its place in the list that was split.
#[derive(Drop)]
pub struct Parted<A: Allocator> {
    /// Those of the set, as they are once they stand before the others.
    pub front: Vec<(usize, Named<A>), A>,
    /// The others, as they are after them.
    pub rest: Vec<(usize, Named<A>), A>,
}

/// The same, where a patch keeps what it touches as long as it may have to pass others.
#[derive(Drop)]
pub(crate) struct Halves<A: Allocator> {
    pub(crate) front: Vec<(usize, Passing<A>), A>,
    pub(crate) rest: Vec<(usize, Passing<A>), A>,
}

/// The patches, of which none passes another any more.
fn at_rest<A: Allocator + Copy>(
    alloc: A,
    list: Vec<(usize, Passing<A>), A>,
) -> Result<Vec<(usize, Named<A>), A>, AllocError>
    ensures { IfOk result (λ patches. patches.items ≡ list.items) }
{
    let mut patches = Vec::with_capacity(alloc, list.len())?;
    for (place, patch) in list {
        patches.push((place, patch.into_named()))?;
    }
    Ok(patches)
}

/// Splits patches: the marked ones in front.
fn split_by<A: Allocator + Copy>(
    alloc: A,
    patches: Vec<(usize, Named<A>), A>,
    marks: &[bool],
) -> Result<Halves<A>, Blocked>
    requires { (x : Placed) → Contains patches.items x → x.0 < length marks.now }
    ensures { MatchResult result
        (λ parted. Split PlacedCommutes (IsMarked marks.now) patches.items parted.front.items parted.rest.items)
        (λ blocked. BlockedBy blocked (AtPlaces (SplitStops PlacedCommutes (IsMarked marks.now) patches.items))) }
{
    let mut front = Vec::new(alloc);
    let mut rest = Vec::new(alloc);
    for (place, patch) in patches {
        let passing = Passing::new(patch);
        let mut placed = (place, passing);
        if !marks[place] {
            rest.push(placed)?;
            continue;
        }
        match pass(alloc, rest.as_mut_slice(), &mut placed) {
            Ok(()) => {}
            Err(stop) => return Err(stop.blocked(place)),
        }
        front.push(placed)?;
    }
    Ok(Halves { front, rest })
}

/// How many patches stay where they are: those before the first that isn't marked.
pub(crate) fn kept_in_place(marks: &[bool]) -> usize
    ensures within { result ≤ length marks.now }
    ensures marked { AreMarkedUpTo marks.now result }
{
    for k in 0..marks.len() {
        if !marks[k] {
            return k;
        }
    }
    marks.len()
}

/// Copies of the patches of a list from a place on, each with its place.
fn copy_behind<A: Allocator, B: Allocator + Copy>(
    alloc: B,
    patches: &[Named<A>],
    kept: usize,
) -> Result<Vec<(usize, Named<B>), B>, AllocError>
    ensures { IfOk result (λ copies. copies.items ≡ behind kept patches.now) }
{
    let mut copies = Vec::new(alloc);
    for k in kept..patches.len() {
        let patch = patches[k].copy_into(alloc)?;
        copies.push((k, patch))?;
    }
    Ok(copies)
}

/// Copies of those from a place on that are marked, each with its place.
fn copy_marked<A: Allocator, B: Allocator + Copy>(
    alloc: B,
    patches: &[Named<A>],
    kept: usize,
    near: &[bool],
) -> Result<Vec<(usize, Named<B>), B>, AllocError>
    requires { length near.now ≡ length patches.now }
    ensures { IfOk result (λ copies. copies.items ≡ marked near.now (behind kept patches.now)) }
{
    let mut copies = Vec::new(alloc);
    for k in kept..patches.len() {
        if !near[k] {
            continue;
        }
        let patch = patches[k].copy_into(alloc)?;
        copies.push((k, patch))?;
    }
    Ok(copies)
}

/// The patches of a list with their places in it.
fn with_places<A: Allocator + Copy>(
    alloc: A,
    patches: Vec<Named<A>, A>,
) -> Result<Vec<(usize, Named<A>), A>, AllocError>
    ensures { IfOk result (λ list. list.items ≡ placed patches.items) }
{
    let mut list = Vec::new(alloc);
    for (k, patch) in patches.into_iter().enumerate() {
        list.push((k, patch))?;
    }
    Ok(list)
}

/// Splits the repository: the common patches in front. Of them the first `kept` stay where they are; the other patches of
/// the repository are copied.
pub(crate) fn split_repo<A: Allocator, B: Allocator + Copy>(
    alloc: B,
    repo: &Repo<A>,
    marks: &Marks<B>,
    kept: usize,
) -> Result<Halves<B>, Refusal>
    requires marks { length marks.now.common.items ≡ length repo.now.patches }
    requires within { kept ≤ length marks.now.common.items }
    requires marked { AreMarkedUpTo marks.now.common.items kept }
    ensures { (b : Contents) → AreMarked repo.now.patches b marks.now.common.items marks.now.held.items → MatchResult result
        (λ p. Split PlacedCommutes (IsCommon repo.now.patches b) (placed repo.now.patches) (placed (take kept repo.now.patches) ++ p.front.items) p.rest.items)
        (λ why. RefusesToSplit repo.now.patches b why) }
{
    let copied = copy_behind(alloc, repo.patches(), kept)?;
    match split_by(alloc, copied, &marks.common) {
        Ok(parted) => Ok(parted),
        Err(blocked) => Err(blocked.context_depends()),
    }
}

/// The same, where of the patches behind the first those alone are copied that are marked: the others stand aside.
pub(crate) fn split_near<A: Allocator, B: Allocator + Copy>(
    alloc: B,
    repo: &Repo<A>,
    marks: &Marks<B>,
    kept: usize,
    near: &[bool],
) -> Result<Halves<B>, Refusal>
    requires marks { length marks.now.common.items ≡ length repo.now.patches }
    requires near { length near.now ≡ length repo.now.patches }
    requires within { kept ≤ length marks.now.common.items }
    requires marked { AreMarkedUpTo marks.now.common.items kept }
    ensures { (b : Contents) (new : List Patch) (ps : List Path) → AreMarked repo.now.patches b marks.now.common.items marks.now.held.items →
        IsNearby repo.now.patches kept marks.now.common.items new ps near.now → MatchResult result
        (λ p. (full : List Placed) × Split PlacedCommutes (IsCommon repo.now.patches b) (placed repo.now.patches) (placed (take kept repo.now.patches) ++ p.front.items) full ×
        LeavesAside ps full p.rest.items × All (λ x. StandsNear ps x.1) p.front.items)
        (λ why. RefusesToSplit repo.now.patches b why) }
{
    let copied = copy_marked(alloc, repo.patches(), kept, near)?;
    match split_by(alloc, copied, &marks.common) {
        Ok(parted) => Ok(parted),
        Err(blocked) => Err(blocked.context_depends()),
    }
}

/// Splits the new patches of a bundle that was looked up, those that are held in front: what is returned are the others.
pub(crate) fn split_held<A: Allocator + Copy>(
    alloc: A,
    new: Vec<Named<A>, A>,
    marks: &Marks<A>,
) -> Result<Vec<(usize, Passing<A>), A>, Refusal>
    requires { length marks.now.held.items ≡ length new.items }
    ensures { (repo : List Patch) (b : Contents) (policy : Policy) (front rest : List Placed) → b.patches ≡ new.items →
        IsLookedUp repo b marks.now.common.items marks.now.held.items → IsRepoSplit repo b front rest → MatchResult result
        (λ chosen. IsBundleSplit repo b front rest chosen.items)
        (λ why. IsBeforeFront why × RefusesBundle repo b policy why) }
{
    let placed = with_places(alloc, new)?;
    match split_by(alloc, placed, &marks.held) {
        Ok(parted) => Ok(parted.rest),
        Err(blocked) => Err(blocked.held_depends()),
    }
}

/// Splits a repository by a bundle: the common patches, moved to the front, and the rest.
///
/// The common patches are the context, what it rests on by explicit dependencies, and the new patches that are held.
/// It refuses with [`Refusal::MissingContext`], [`Refusal::ContextDepends`] and [`Refusal::NoMemory`] alone.
pub fn split<A: Allocator + Copy, B: Allocator + Copy>(
    alloc: B,
    repo: &Repo<A>,
    bundle: &Bundle<B>,
) -> Result<Parted<B>, Refusal>
    ensures parts { IfOk result (λ parted. SplitsInto repo.now.patches bundle.now parted.front.items parted.rest.items) }
    ensures folds { IfOk result (λ parted. (t : LawfulMap) →
        Fold repo.now.patches t ↔ Fold (patches parted.front.items ++ patches parted.rest.items) t) }
    ensures refusal { IfErr result (RefusesToSplit repo.now.patches bundle.now) }
{
    let marks = common_marks(alloc, repo, bundle)?;
    let halves = split_repo(alloc, repo, &marks, 0)?;
    let front = at_rest(alloc, halves.front)?;
    let rest = at_rest(alloc, halves.rest)?;
    Ok(Parted { front, rest })
}
