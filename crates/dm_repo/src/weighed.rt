//! Weighing a bundle against a repository: what taking it would append, or why it isn't taken.
ghost use Rattle.std.specs.Prelude.{◌≡◌, ◌≤◌, length, IfErr, IfOk, MatchResult};
ghost use Rattle.std.specs.FinMap as map;
ghost use Rattle.dm_bundle.specs.Bundles.{Contents};
ghost use Rattle.dm_bundle.specs.Patches.{infos_of, Distinct};
ghost use Rattle.dm_repo.specs.Nearby.{IsNearby};
ghost use Rattle.dm_repo.specs.Stops.{AreMarkedUpTo};
ghost use Rattle.dm_repo.specs.Trials.{MakesPart};
ghost use Rattle.dm_repo.specs.Weighing.{IsMergeOf, RefusesBundle};
ghost use Rattle.dm_repo.specs.Weighed.{IsLookedUp, LeavesRepo, Weighs};

use crate::basis::{fit_both, fit_nearby, split_both, split_nearby};
use crate::lookup::look_up;
use crate::marks::Marks;
use crate::merge::{append_to_whole, merge};
use crate::nearby::{Nearby, find_nearby};
use crate::parted::kept_in_place;
use crate::policy::Policy;
use crate::refusal::Refusal;
use crate::repo::{Repo, copy_patches};
use dm_bundle::Bundle;
use dm_named::Named;
use dm_tree::{Path, Tree};
use std::alloc::Allocator;

/// What weighing a bundle returns.
#[derive(Drop)]
pub enum Weighed<A: Allocator> {
    /// The context and every new patch are held.
    NothingNew,
    /// The bundle is merged, or some of its patches are.
    Merged(Merged<A>),
}

/// A bundle's new patches, merged so that they apply after the repository that it was weighed against.
#[derive(Drop)]
pub struct Merged<A: Allocator> {
    /// The patches to append, oldest first.
    pub patches: Vec<Named<A>, A>,
    /// The part of the repository's tree after them that the paths reach.
    pub part: Tree<A>,
    /// What the patches change is at or under these paths, none of which is at or under another one.
    pub paths: Vec<Path<A>, A>,
    /// How many patches are skipped.
    pub skipped: usize,
}

/// Merges new patches whose names were looked up, with all that the repository has beside what is common.
fn weigh_whole<A: Allocator + Copy, B: Allocator + Copy>(
    alloc: B,
    repo: &Repo<A>,
    new: Vec<Named<B>, B>,
    marks: &Marks<B>,
    policy: Policy,
) -> Result<Merged<B>, Refusal>
    requires common { length marks.now.common.items ≡ length repo.now.patches }
    requires held { length marks.now.held.items ≡ length new.items }
    ensures { (b : Contents) → b.patches ≡ new.items → IsLookedUp repo.now.patches b marks.now.common.items marks.now.held.items →
        MatchResult result
        (λ m. IsMergeOf repo.now.patches b policy m.patches.items m.skipped × MakesPart repo.now.patches m.patches.items m.paths.items (map.get m.part))
        (λ why. RefusesBundle repo.now.patches b policy why) }
{
    let sides = split_both(alloc, repo, new, marks)?;
    if sides.rest.is_empty() {
        return append_to_whole(alloc, repo, sides.new);
    }
    fit_both(alloc, repo, &sides)?;
    merge(alloc, repo, sides.rest, sides.new, policy)
}

/// The same, where patches that stand aside are neither copied nor undone.
fn weigh_nearby<A: Allocator + Copy, B: Allocator + Copy>(
    alloc: B,
    repo: &Repo<A>,
    new: Vec<Named<B>, B>,
    marks: &Marks<B>,
    kept: usize,
    nearby: &Nearby<B>,
    policy: Policy,
) -> Result<Merged<B>, Refusal>
    requires common { length marks.now.common.items ≡ length repo.now.patches }
    requires held { length marks.now.held.items ≡ length new.items }
    requires within { kept ≤ length marks.now.common.items }
    requires marked { AreMarkedUpTo marks.now.common.items kept }
    requires marks { length nearby.now.marks.items ≡ length repo.now.patches }
    requires nearby { IsNearby repo.now.patches kept marks.now.common.items new.items nearby.now.paths.items nearby.now.marks.items }
    ensures { (b : Contents) → b.patches ≡ new.items → IsLookedUp repo.now.patches b marks.now.common.items marks.now.held.items →
        MatchResult result
        (λ m. IsMergeOf repo.now.patches b policy m.patches.items m.skipped × MakesPart repo.now.patches m.patches.items m.paths.items (map.get m.part))
        (λ why. RefusesBundle repo.now.patches b policy why) }
{
    repo.lawful();
    let sides = split_nearby(alloc, repo, new, marks, kept, nearby)?;
    fit_nearby(alloc, repo, &sides, nearby)?;
    merge(alloc, repo, sides.rest, sides.new, policy)
}

/// Merges new patches whose names were looked up.
fn weigh_new<A: Allocator + Copy, B: Allocator + Copy>(
    alloc: B,
    repo: &Repo<A>,
    new: Vec<Named<B>, B>,
    marks: &Marks<B>,
    policy: Policy,
) -> Result<Merged<B>, Refusal>
    requires common { length marks.now.common.items ≡ length repo.now.patches }
    requires held { length marks.now.held.items ≡ length new.items }
    ensures { (b : Contents) → b.patches ≡ new.items → IsLookedUp repo.now.patches b marks.now.common.items marks.now.held.items →
        MatchResult result
        (λ m. IsMergeOf repo.now.patches b policy m.patches.items m.skipped × MakesPart repo.now.patches m.patches.items m.paths.items (map.get m.part))
        (λ why. RefusesBundle repo.now.patches b policy why) }
{
    let kept = kept_in_place(&marks.common);
    if kept < repo.len() {
        if let Some(nearby) = find_nearby(alloc, repo, kept, &marks.common, &new)? {
            return weigh_nearby(alloc, repo, new, marks, kept, &nearby, policy);
        }
    }
    weigh_whole(alloc, repo, new, marks, policy)
}

/// The same, told of the repository that it leaves.
fn weigh_looked_up<A: Allocator + Copy, B: Allocator + Copy>(
    alloc: B,
    repo: &Repo<A>,
    new: Vec<Named<B>, B>,
    marks: &Marks<B>,
    policy: Policy,
) -> Result<Weighed<B>, Refusal>
    requires common { length marks.now.common.items ≡ length repo.now.patches }
    requires held { length marks.now.held.items ≡ length new.items }
    ensures { (b : Contents) → b.patches ≡ new.items → Distinct (infos_of b.patches) →
        IsLookedUp repo.now.patches b marks.now.common.items marks.now.held.items → MatchResult result
        (λ weighed. Weighs repo.now.patches b policy weighed × LeavesRepo repo.now.patches weighed)
        (λ why. RefusesBundle repo.now.patches b policy why) }
{
    repo.lawful();
    let merged = weigh_new(alloc, repo, new, marks, policy)?;
    Ok(Weighed::Merged(merged))
}

/// That the new patches of a bundle have distinct names; does nothing.
fn names_are_distinct<A: Allocator>(bundle: &Bundle<A>)
    ensures { Distinct (infos_of bundle.now.patches) }
{
    let _ = bundle.new_patches();
}

/// What taking a bundle would append to a repository, or why it isn't taken; neither is changed.
///
/// The bundle's context and dependencies are looked up; the repository is split into what the bundle was made from and the
/// rest; the new patches are applied after the first part, and merged with the second. The policy says what a conflict does:
/// the bundle is refused (`darcs apply --no-allow-conflicts`), or the patch is skipped (`--skip-conflicts`); where none could
/// be merged the bundle is refused all the same. The first step that refuses decides. The new patches are copied; [`weigh_owned`] moves them.
pub fn weigh<A: Allocator + Copy, B: Allocator + Copy>(
    alloc: B,
    repo: &Repo<A>,
    bundle: &Bundle<B>,
    policy: Policy,
) -> Result<Weighed<B>, Refusal>
    ensures weighed { IfOk result (Weighs repo.now.patches bundle.now policy) }
    ensures refusal { IfErr result (RefusesBundle repo.now.patches bundle.now policy) }
    ensures leaves_repo { IfOk result (LeavesRepo repo.now.patches) }
{
    let Some(marks) = look_up(alloc, repo, bundle)? else {
        return Ok(Weighed::NothingNew);
    };
    names_are_distinct(bundle);
    let new = copy_patches(alloc, bundle.new_patches())?;
    weigh_looked_up(alloc, repo, new, &marks, policy)
}

/// The same as [`weigh`] of a bundle that is given up: its new patches are moved into what is merged.
pub fn weigh_owned<A: Allocator + Copy, B: Allocator + Copy>(
    alloc: B,
    repo: &Repo<A>,
    bundle: Bundle<B>,
    policy: Policy,
) -> Result<Weighed<B>, Refusal>
    ensures weighed { IfOk result (Weighs repo.now.patches bundle policy) }
    ensures refusal { IfErr result (RefusesBundle repo.now.patches bundle policy) }
    ensures leaves_repo { IfOk result (LeavesRepo repo.now.patches) }
{
    let Some(marks) = look_up(alloc, repo, &bundle)? else {
        return Ok(Weighed::NothingNew);
    };
    names_are_distinct(&bundle);
    weigh_looked_up(alloc, repo, bundle.into_new_patches(), &marks, policy)
}
