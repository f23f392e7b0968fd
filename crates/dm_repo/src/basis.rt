//! What the new patches of a bundle are applied to and merged with.
ghost use Rattle.std.specs.Prelude.{◌≡◌, ◌≤◌, List, ◌++◌, length, take, IfOk, MatchOption, MatchResult};
ghost use Rattle.dm_tree.specs.Reach.{AreBelowRoot};
ghost use Rattle.dm_named.specs.Patches.{Patch};
ghost use Rattle.dm_bundle.specs.Bundles.{Contents};
ghost use Rattle.dm_repo.specs.declared.policy.Policy.{Policy};
ghost use Rattle.dm_repo.specs.Squares.{Placed, patches, placed};
ghost use Rattle.dm_repo.specs.Aside.{LeavesAside};
ghost use Rattle.dm_repo.specs.Nearby.{IsNearSplit, IsNearby, behind, marked};
ghost use Rattle.dm_repo.specs.Stops.{AreMarkedUpTo};
ghost use Rattle.dm_repo.specs.Trials.{IsPartFor};
ghost use Rattle.dm_repo.specs.Repositories.{IsRepo, IsTreeOf};
ghost use Rattle.dm_repo.specs.Refusals.{IsBeforeFit, IsBeforeMerge};
ghost use Rattle.dm_repo.specs.Weighing.{Fits, IsBundleSplit, IsNothingNew, RefusesBundle};
ghost use Rattle.dm_repo.specs.Weighed.{IsLookedUp};
ghost use Rattle.dm_repo.specs.Misfits.{IsBasis};

use crate::fit::{fit, fit_front};
use crate::lookup::look_up;
use crate::marks::Marks;
use crate::nearby::Nearby;
use crate::parted::{kept_in_place, split_held, split_near, split_repo};
use crate::refusal::Refusal;
use crate::repo::{Repo, copy_patches};
use crate::trial::{part_before, part_nearby};
use dm_bundle::Bundle;
use dm_named::{Named, Passing};
use dm_tree::Tree;
use dm_tree::laws::tree_is_lawful;
use std::alloc::Allocator;

/// A repository and a bundle, both split: the first patches of the repository that stayed where they are, the others that
/// are common, the rest, and the patches to merge.
#[derive(Drop)]
pub(crate) struct Sides<A: Allocator> {
    pub(crate) kept: usize,
    pub(crate) front: Vec<(usize, Passing<A>), A>,
    pub(crate) rest: Vec<(usize, Passing<A>), A>,
    pub(crate) new: Vec<(usize, Passing<A>), A>,
}

/// The tree of what a bundle was made from, the rest of the repository, and the patches to merge.
#[derive(Drop)]
pub(crate) struct Basis<A: Allocator> {
    pub(crate) tree: Tree<A>,
    pub(crate) rest: Vec<(usize, Passing<A>), A>,
    pub(crate) new: Vec<(usize, Passing<A>), A>,
}

/// The tree that the front makes. Its first patches stayed where they are, and where all did it is the repository's.
fn front_tree<A: Allocator, B: Allocator + Copy>(
    alloc: B,
    repo: &Repo<A>,
    sides: &Sides<B>,
) -> Result<Tree<B>, Refusal>
    requires { sides.now.kept ≤ length repo.now.patches }
    ensures { (b : Contents) (new : List Placed) →
        IsBundleSplit repo.now.patches b (placed (take sides.now.kept repo.now.patches) ++ sides.now.front.items) sides.now.rest.items new → MatchResult result
        (λ tree. IsTreeOf (patches (placed (take sides.now.kept repo.now.patches) ++ sides.now.front.items)) tree)
        (λ why. IsBeforeFit repo.now.patches b why × ((policy : Policy) → RefusesBundle repo.now.patches b policy why)) }
{
    if sides.rest.is_empty() {
        let tree = repo.tree_copy(alloc)?;
        return Ok(tree);
    }
    tree_from_root(alloc, repo, sides)
}

/// The tree that the front makes, applied from the root alone.
fn tree_from_root<A: Allocator, B: Allocator + Copy>(
    alloc: B,
    repo: &Repo<A>,
    sides: &Sides<B>,
) -> Result<Tree<B>, Refusal>
    requires { sides.now.kept ≤ length repo.now.patches }
    ensures { (b : Contents) (full new : List Placed) →
        IsBundleSplit repo.now.patches b (placed (take sides.now.kept repo.now.patches) ++ sides.now.front.items) full new → MatchResult result
        (λ tree. IsTreeOf (patches (placed (take sides.now.kept repo.now.patches) ++ sides.now.front.items)) tree)
        (λ why. IsBeforeFit repo.now.patches b why × ((policy : Policy) → RefusesBundle repo.now.patches b policy why)) }
{
    let mut tree = Tree::new(alloc);
    tree_is_lawful(&tree);
    match fit_front(&repo.patches()[..sides.kept], &sides.front, &mut tree) {
        Ok(()) => Ok(tree),
        Err(stop) => Err(stop.full()),
    }
}

/// Splits the repository and new patches whose names were looked up.
pub(crate) fn split_both<A: Allocator, B: Allocator + Copy>(
    alloc: B,
    repo: &Repo<A>,
    new: Vec<Named<B>, B>,
    marks: &Marks<B>,
) -> Result<Sides<B>, Refusal>
    requires common { length marks.now.common.items ≡ length repo.now.patches }
    requires held { length marks.now.held.items ≡ length new.items }
    ensures within { IfOk result (λ sides. sides.kept ≤ length repo.now.patches) }
    ensures split { (b : Contents) → b.patches ≡ new.items → IsLookedUp repo.now.patches b marks.now.common.items marks.now.held.items →
        MatchResult result
        (λ sides. IsBundleSplit repo.now.patches b (placed (take sides.kept repo.now.patches) ++ sides.front.items) sides.rest.items sides.new.items)
        (λ why. IsBeforeFit repo.now.patches b why × ((policy : Policy) → RefusesBundle repo.now.patches b policy why)) }
{
    let kept = kept_in_place(&marks.common);
    let parted = split_repo(alloc, repo, marks, kept)?;
    let new = split_held(alloc, new, marks)?;
    Ok(Sides {
        kept,
        front: parted.front,
        rest: parted.rest,
        new,
    })
}

/// Splits the repository and new patches whose names were looked up, where the patches that stand aside are left where they are.
pub(crate) fn split_nearby<A: Allocator, B: Allocator + Copy>(
    alloc: B,
    repo: &Repo<A>,
    new: Vec<Named<B>, B>,
    marks: &Marks<B>,
    kept: usize,
    nearby: &Nearby<B>,
) -> Result<Sides<B>, Refusal>
    requires common { length marks.now.common.items ≡ length repo.now.patches }
    requires held { length marks.now.held.items ≡ length new.items }
    requires within { kept ≤ length marks.now.common.items }
    requires marked { AreMarkedUpTo marks.now.common.items kept }
    requires marks { length nearby.now.marks.items ≡ length repo.now.patches }
    requires nearby { IsNearby repo.now.patches kept marks.now.common.items new.items nearby.now.paths.items nearby.now.marks.items }
    ensures kept { IfOk result (λ sides. sides.kept ≡ kept) }
    ensures split { (b : Contents) → b.patches ≡ new.items → IsLookedUp repo.now.patches b marks.now.common.items marks.now.held.items →
        MatchResult result
        (λ sides. IsNearSplit repo.now.patches b sides.kept sides.front.items sides.rest.items sides.new.items nearby.now.paths.items)
        (λ why. IsBeforeFit repo.now.patches b why × ((policy : Policy) → RefusesBundle repo.now.patches b policy why)) }
{
    let parted = split_near(alloc, repo, marks, kept, &nearby.marks)?;
    let new = split_held(alloc, new, marks)?;
    Ok(Sides {
        kept,
        front: parted.front,
        rest: parted.rest,
        new,
    })
}

/// Applies the front and then the patches to merge, on the part of a tree that they reach.
fn fit_to_part<A: Allocator + Copy>(
    part: Tree<A>,
    front: &[(usize, Passing<A>)],
    new: &[(usize, Passing<A>)],
) -> Result<(), Refusal>
    ensures { (repo kept : List Patch) (b : Contents) (rest : List Placed) → IsRepo repo → IsPartFor kept front.now new.now part →
        IsBundleSplit repo b (placed kept ++ front.now) rest new.now → MatchResult result
        (λ _. Fits repo b rest new.now)
        (λ why. (policy : Policy) → RefusesBundle repo b policy why) }
{
    let mut part = part;
    match fit(front, &mut part) {
        Ok(()) => {}
        Err(stop) => return Err(stop.full()),
    }
    match fit(new, &mut part) {
        Ok(()) => Ok(()),
        Err(stop) => Err(stop.does_not_fit()),
    }
}

/// Applies the front and then the patches to merge, on the part of the kept tree that they reach.
fn fit_on_part<A: Allocator, B: Allocator + Copy>(
    alloc: B,
    repo: &Repo<A>,
    sides: &Sides<B>,
) -> Result<(), Refusal>
    requires { sides.now.kept ≤ length repo.now.patches }
    ensures { (b : Contents) →
        IsBundleSplit repo.now.patches b (placed (take sides.now.kept repo.now.patches) ++ sides.now.front.items) sides.now.rest.items sides.now.new.items → MatchResult result
        (λ _. Fits repo.now.patches b sides.now.rest.items sides.now.new.items)
        (λ why. (policy : Policy) → RefusesBundle repo.now.patches b policy why) }
{
    repo.lawful();
    let part = part_before(alloc, repo, sides.kept, &sides.front, &sides.new)?;
    fit_to_part(part, &sides.front, &sides.new)
}

/// Whether so few patches are marked that the front is nearer to the kept tree than to the root alone.
fn is_near_end(marks: &[bool], kept: usize) -> bool {
    marks.iter().filter(|mark| **mark).count() <= kept
}

/// Applies the front and then the patches to merge, where some of the rest was left where it is: on the part of the kept tree that
/// is near, or from the root alone where that is nearer.
pub(crate) fn fit_nearby<A: Allocator, B: Allocator + Copy>(
    alloc: B,
    repo: &Repo<A>,
    sides: &Sides<B>,
    nearby: &Nearby<B>,
) -> Result<(), Refusal>
    requires within { sides.now.kept ≤ length repo.now.patches }
    requires marks { length nearby.now.marks.items ≡ length repo.now.patches }
    requires below { AreBelowRoot nearby.now.paths.items }
    requires leaves { LeavesAside nearby.now.paths.items (behind sides.now.kept repo.now.patches) (marked nearby.now.marks.items (behind sides.now.kept repo.now.patches)) }
    ensures { (b : Contents) (split : IsNearSplit repo.now.patches b sides.now.kept sides.now.front.items sides.now.rest.items sides.now.new.items nearby.now.paths.items) → MatchResult result
        (λ _. Fits repo.now.patches b split.full sides.now.new.items)
        (λ why. (policy : Policy) → RefusesBundle repo.now.patches b policy why) }
{
    repo.lawful();
    if !is_near_end(&nearby.marks, sides.kept) {
        return fit_from_root(alloc, repo, sides);
    }
    let part = part_nearby(alloc, repo, sides.kept, nearby)?;
    fit_to_part(part, &sides.front, &sides.new)
}

/// Applies the front from the root alone, and then the patches to merge.
fn fit_from_root<A: Allocator, B: Allocator + Copy>(
    alloc: B,
    repo: &Repo<A>,
    sides: &Sides<B>,
) -> Result<(), Refusal>
    requires { sides.now.kept ≤ length repo.now.patches }
    ensures { (b : Contents) (full : List Placed) →
        IsBundleSplit repo.now.patches b (placed (take sides.now.kept repo.now.patches) ++ sides.now.front.items) full sides.now.new.items → MatchResult result
        (λ _. Fits repo.now.patches b full sides.now.new.items)
        (λ why. (policy : Policy) → RefusesBundle repo.now.patches b policy why) }
{
    let mut tree = tree_from_root(alloc, repo, sides)?;
    match fit(&sides.new, &mut tree) {
        Ok(()) => Ok(()),
        Err(stop) => Err(stop.does_not_fit()),
    }
}

/// Applies the front and then the patches to merge: on a part of the kept tree where few patches have to be taken back for that,
/// else from the root alone, which is nearer then.
pub(crate) fn fit_both<A: Allocator, B: Allocator + Copy>(
    alloc: B,
    repo: &Repo<A>,
    sides: &Sides<B>,
) -> Result<(), Refusal>
    requires { sides.now.kept ≤ length repo.now.patches }
    ensures { (b : Contents) →
        IsBundleSplit repo.now.patches b (placed (take sides.now.kept repo.now.patches) ++ sides.now.front.items) sides.now.rest.items sides.now.new.items → MatchResult result
        (λ _. Fits repo.now.patches b sides.now.rest.items sides.now.new.items)
        (λ why. (policy : Policy) → RefusesBundle repo.now.patches b policy why) }
{
    let copied = repo.len() - sides.kept;
    if copied <= repo.len() / 4 {
        return fit_on_part(alloc, repo, sides);
    }
    fit_from_root(alloc, repo, sides)
}

/// What a bundle's new patches are applied to and merged with: none where nothing is new.
pub(crate) fn find_basis<A: Allocator + Copy, B: Allocator + Copy>(
    alloc: B,
    repo: &Repo<A>,
    bundle: &Bundle<B>,
) -> Result<Option<Basis<B>>, Refusal>
    ensures { MatchResult result
        (λ found. MatchOption found
        (IsNothingNew repo.now.patches bundle.now)
        (λ basis. IsBasis repo.now.patches bundle.now basis.tree basis.rest.items basis.new.items))
        (λ why. IsBeforeFit repo.now.patches bundle.now why × ((policy : Policy) → RefusesBundle repo.now.patches bundle.now policy why)) }
{
    let Some(marks) = look_up(alloc, repo, bundle)? else {
        return Ok(None);
    };
    let new = copy_patches(alloc, bundle.new_patches())?;
    let sides = split_both(alloc, repo, new, &marks)?;
    let tree = front_tree(alloc, repo, &sides)?;
    Ok(Some(Basis {
        tree,
        rest: sides.rest,
        new: sides.new,
    }))
}

/// What a bundle's new patches are applied to and merged with, where they apply to it: none where nothing is new.
pub(crate) fn find_fitted<A: Allocator + Copy, B: Allocator + Copy>(
    alloc: B,
    repo: &Repo<A>,
    bundle: &Bundle<B>,
) -> Result<Option<Basis<B>>, Refusal>
    ensures { MatchResult result
        (λ found. MatchOption found
        (IsNothingNew repo.now.patches bundle.now)
        (λ basis. Fits repo.now.patches bundle.now basis.rest.items basis.new.items))
        (λ why. IsBeforeMerge repo.now.patches bundle.now why × ((policy : Policy) → RefusesBundle repo.now.patches bundle.now policy why)) }
{
    let Some(mut basis) = find_basis(alloc, repo, bundle)? else {
        return Ok(None);
    };
    match fit(&basis.new, &mut basis.tree) {
        Ok(()) => Ok(Some(basis)),
        Err(stop) => Err(stop.does_not_fit()),
    }
}
