//! Where a patch goes past a limit as a bundle is weighed, told so that people can be shown it.
ghost use Rattle.std.specs.Prelude.{◌≢◌, IfErr, IfNone, IfOk, IfSome, List, MatchOption, MatchResult};
ghost use Rattle.dm_bundle.specs.Bundles.{Contents};
ghost use Rattle.dm_repo.specs.declared.policy.Policy.{Policy};
ghost use Rattle.dm_repo.specs.declared.refusal.Refusal.TheVariants.{Full};
ghost use Rattle.dm_repo.specs.Overflows.{FrontOverflows, IsOverflow, MergedOverflows, MergesTooMany};
ghost use Rattle.dm_repo.specs.Refusals.{IsBeforeFront};
ghost use Rattle.dm_repo.specs.Squares.{Placed};
ghost use Rattle.dm_repo.specs.Weighing.{Fits, FrontIsFull, IsBundleSplit, IsNothingNew, MergeIsFull, RefusesBundle};

use crate::basis::{Basis, find_fitted};
use crate::lookup::look_up;
use crate::merge::{is_too_many, merge_with};
use crate::misfit::{Misfit, first_misfit};
use crate::parted::{split_held, split_repo};
use crate::policy::Policy;
use crate::refusal::Refusal;
use crate::repo::{Repo, copy_patches};
use dm_bundle::Bundle;
use dm_named::Passing;
use dm_tree::Tree;
use dm_tree::laws::tree_is_lawful;
use std::alloc::Allocator;

/// Where a path gets more than 32 names, with the fault [`TooDeep`](dm_tree::TreeFault::TooDeep), or a replace finds or leaves a file
/// that is too large, with [`TooLarge`](dm_tree::TreeFault::TooLarge).
#[derive(Drop)]
pub enum Overflow<A: Allocator> {
    /// By a common patch, where the front is applied from the root alone; its place is in the repository.
    Front(Misfit<A>),
    /// By a new patch, where the merged ones are applied to the repository's tree; its place is among the bundle's new patches.
    Merged(Misfit<A>),
}

/// The common patches in front, copied: none where nothing is new.
fn find_front<A: Allocator + Copy, B: Allocator + Copy>(
    alloc: B,
    repo: &Repo<A>,
    bundle: &Bundle<B>,
) -> Result<Option<Vec<(usize, Passing<B>), B>>, Refusal>
    ensures { MatchResult result
        (λ found. MatchOption found
        (IsNothingNew repo.now.patches bundle.now)
        (λ front. (rest : List Placed) × (new : List Placed) × IsBundleSplit repo.now.patches bundle.now front.items rest new))
        (λ why. IsBeforeFront why × ((policy : Policy) → RefusesBundle repo.now.patches bundle.now policy why)) }
{
    let Some(marks) = look_up(alloc, repo, bundle)? else {
        return Ok(None);
    };
    let parted = split_repo(alloc, repo, &marks, 0)?;
    let new = copy_patches(alloc, bundle.new_patches())?;
    let _ = split_held(alloc, new, &marks)?;
    Ok(Some(parted.front))
}

/// The first common patch that goes past a limit, where the front is applied from the root alone.
fn front_overflow<A: Allocator + Copy, B: Allocator + Copy>(
    alloc: B,
    repo: &Repo<A>,
    bundle: &Bundle<B>,
) -> Result<Option<Misfit<B>>, Refusal>
    ensures { MatchResult result
        (λ found. MatchOption found
        (FrontIsFull repo.now.patches bundle.now → ⊥)
        (FrontOverflows repo.now.patches bundle.now))
        (λ why. IsBeforeFront why × ((policy : Policy) → RefusesBundle repo.now.patches bundle.now policy why)) }
{
    repo.lawful();
    let Some(front) = find_front(alloc, repo, bundle)? else {
        return Ok(None);
    };
    let root = Tree::new(alloc);
    tree_is_lawful(&root);
    let found = first_misfit(root, front)?;
    Ok(found)
}

/// The first new patch that goes past a limit, where the merged ones are applied to the repository's tree.
fn merged_overflow<A: Allocator + Copy, B: Allocator + Copy>(
    alloc: B,
    repo: &Repo<A>,
    basis: Basis<B>,
    policy: Policy,
) -> Result<Option<Misfit<B>>, Refusal>
    ensures { (b : Contents) → Fits repo.now.patches b basis.rest.items basis.new.items → MatchResult result
        (λ found. MatchOption found
        (MergeIsFull repo.now.patches b policy → MergesTooMany repo.now.patches b policy)
        (MergedOverflows repo.now.patches b policy))
        (λ why. (why ≢ Full) × RefusesBundle repo.now.patches b policy why) }
{
    let merging = merge_with(repo.alloc(), alloc, basis.rest, basis.new, policy)?;
    if is_too_many(repo.len(), merging.merged.len()) {
        return Ok(None);
    }
    let tree = repo.tree_copy(alloc)?;
    let found = first_misfit(tree, merging.merged)?;
    Ok(found)
}

/// The first patch that goes past a limit, with its primitive that does and the tree that this was applied to: where the common patches are applied from the root alone, or where the merged ones are applied to the repository's
/// tree. Then [`weigh`](crate::weigh) refuses with [`Refusal::Full`]. Where nothing is told, `weigh` refuses so only if there
/// would be too many patches. A refusal is one of a step before.
pub fn find_overflow<A: Allocator + Copy, B: Allocator + Copy>(
    alloc: B,
    repo: &Repo<A>,
    bundle: &Bundle<B>,
    policy: Policy,
) -> Result<Option<Overflow<B>>, Refusal>
    ensures told { IfOk result (λ found. IfSome found (IsOverflow repo.now.patches bundle.now policy)) }
    ensures refuses { IfOk result (λ found. IfSome found (λ _. RefusesBundle repo.now.patches bundle.now policy Full)) }
    ensures only { IfOk result (λ found. IfNone found
        (RefusesBundle repo.now.patches bundle.now policy Full → MergesTooMany repo.now.patches bundle.now policy)) }
    ensures refusal { IfErr result (RefusesBundle repo.now.patches bundle.now policy) }
    ensures before { IfErr result (λ why. why ≢ Full) }
{
    let front = front_overflow(alloc, repo, bundle)?;
    if let Some(misfit) = front {
        return Ok(Some(Overflow::Front(misfit)));
    }
    let Some(basis) = find_fitted(alloc, repo, bundle)? else {
        return Ok(None);
    };
    match merged_overflow(alloc, repo, basis, policy)? {
        Some(misfit) => Ok(Some(Overflow::Merged(misfit))),
        None => Ok(None),
    }
}
