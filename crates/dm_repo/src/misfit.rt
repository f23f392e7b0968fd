//! Where a new patch doesn't fit, told so that people can be shown it.
ghost use Rattle.std.specs.Prelude.{ℕ, IfErr, IfNone, IfOk, IfSome, MatchOption};
ghost use Rattle.dm_prim.specs.InTurn.{InTurn};
ghost use Rattle.dm_prim.specs.Primitives.{LawfulMap};
ghost use Rattle.dm_repo.specs.declared.policy.Policy.{Policy};
ghost use Rattle.dm_repo.specs.declared.refusal.Refusal.TheVariants.{DoesNotFit};
ghost use Rattle.dm_repo.specs.Folds.{PatchLeadsShallowly};
ghost use Rattle.dm_repo.specs.Squares.{patches};
ghost use Rattle.dm_repo.specs.Repositories.{IsMapOf};
ghost use Rattle.dm_repo.specs.Refusals.{IsBeforeFit};
ghost use Rattle.dm_repo.specs.Weighing.{RefusesBundle};
ghost use Rattle.dm_repo.specs.Misfits.{IsMisfit, StopsWith};

use crate::basis::find_basis;
use crate::fit::{apply_prims, refused};
use crate::refusal::Refusal;
use crate::repo::Repo;
use dm_bundle::Bundle;
use dm_named::{Named, Passing};
use dm_tree::{Tree, TreeFault};
use std::alloc::{AllocError, Allocator};

/// Where a new patch doesn't fit.
#[derive(Drop)]
pub struct Misfit<A: Allocator> {
    /// The place of the patch among the bundle's new patches.
    pub place: usize,
    /// The patch as it was tried: new patches that are held already stand in front of it.
    pub patch: Named<A>,
    /// The place of the primitive in it that doesn't apply, or goes past a limit.
    pub prim: usize,
    /// What the tree answers to it.
    pub fault: TreeFault,
    /// The tree that it was applied to.
    pub tree: Tree<A>,
}

/// Applies patches in turn, up to the first that leads nowhere shallowly.
pub(crate) fn first_misfit<A: Allocator + Copy>(
    tree: Tree<A>,
    new: Vec<(usize, Passing<A>), A>,
) -> Result<Option<Misfit<A>>, AllocError>
    ensures { (s : LawfulMap) → IsMapOf tree s → IfOk result (λ found. MatchOption found
        ((t : LawfulMap) × InTurn PatchLeadsShallowly (patches new.items) s t)
        (λ m. StopsWith s new.items m)) }
{
    let mut tree = tree;
    for (place, patch) in new {
        match apply_prims(patch.named(), &mut tree) {
            Ok(()) => {}
            Err((prim, fault)) => {
                let _ = refused(fault)?;
                return Ok(Some(Misfit {
                    place,
                    patch: patch.into_named(),
                    prim,
                    fault,
                    tree,
                }));
            }
        }
    }
    Ok(None)
}

/// The first new patch of a bundle that doesn't apply to what the bundle was made from, with its primitive that doesn't and
/// the tree that this was applied to. It is what [`weigh`](crate::weigh) refuses with [`Refusal::DoesNotFit`], whatever
/// the policy; where there is none, `weigh` doesn't. A refusal is one of a step before.
pub fn find_misfit<A: Allocator + Copy, B: Allocator + Copy>(
    alloc: B,
    repo: &Repo<A>,
    bundle: &Bundle<B>,
) -> Result<Option<Misfit<B>>, Refusal>
    ensures told { IfOk result (λ found. IfSome found (IsMisfit repo.now.patches bundle.now)) }
    ensures refuses { IfOk result (λ found. IfSome found (λ m. (policy : Policy) →
        RefusesBundle repo.now.patches bundle.now policy (DoesNotFit m.place))) }
    ensures fits { IfOk result (λ found. IfNone found ((policy : Policy) (n : ℕ) →
        RefusesBundle repo.now.patches bundle.now policy (DoesNotFit n) → ⊥)) }
    ensures refusal { IfErr result (λ why. (policy : Policy) → RefusesBundle repo.now.patches bundle.now policy why) }
    ensures before { IfErr result (IsBeforeFit repo.now.patches bundle.now) }
{
    let Some(basis) = find_basis(alloc, repo, bundle)? else {
        return Ok(None);
    };
    let found = first_misfit(basis.tree, basis.new)?;
    Ok(found)
}
