//! Applying patches to a tree, up to the first that leads nowhere, or past a limit.
ghost use Rattle.std.specs.Prelude.{◌≡◌, ◌≢◌, ◌++◌, false, IfOk, MatchBool, MatchResult};
ghost use Rattle.dm_prim.specs.Primitives.{LawfulMap};
ghost use Rattle.dm_prim.specs.InTurn.{InTurn};
ghost use Rattle.dm_repo.specs.Folds.{IsStopped, PatchLeadsShallowly, PatchStops};
ghost use Rattle.dm_repo.specs.Squares.{Placed, patches, placed};
ghost use Rattle.dm_repo.specs.Repositories.{IsMapOf};
ghost use Rattle.dm_repo.specs.Weighing.{FitStops};
ghost use Rattle.dm_repo.specs.Stops.{StopsAt};
ghost use Rattle.dm_repo.specs.Misfits.{FaultsAt};

use crate::stop::Stop;
use dm_named::{Named, Passing};
use dm_prim::apply;
use dm_tree::laws::tree_is_lawful;
use dm_tree::{Tree, TreeFault};
use std::alloc::{AllocError, Allocator};

/// A fault of a primitive says that it leads nowhere shallowly; out of memory says nothing, and is handed on.
pub(crate) fn refused(fault: TreeFault) -> Result<bool, AllocError>
    ensures { IfOk result (λ leads. (leads ≡ false) × (fault ≢ TreeFault.NoMemory)) }
{
    match fault {
        TreeFault::NoMemory => Err(AllocError),
        _ => Ok(false),
    }
}

/// Applies the primitives of a patch in turn. Where one doesn't apply, or goes past a limit, its place and the tree's fault
/// are returned; the tree is then the one that it was applied to.
pub(crate) fn apply_prims<A: Allocator, B: Allocator + Copy>(
    patch: &Named<A>,
    tree: &mut Tree<B>,
) -> Result<(), (usize, TreeFault)>
    ensures { (s : LawfulMap) → IsMapOf tree.old s → MatchResult result
        (λ _. (t : LawfulMap) × IsMapOf tree.new t × PatchLeadsShallowly patch.now s t)
        (λ at. FaultsAt patch.now s at.0 tree.new at.1) }
{
    let prims = patch.prims();
    for k in 0..prims.len() {
        if let Err(fault) = apply(&prims[k], tree) {
            return Err((k, fault));
        }
        tree_is_lawful(tree);
    }
    Ok(())
}

/// Applies the primitives of a patch in turn, and returns whether all lead shallowly.
fn apply_patch<A: Allocator, B: Allocator + Copy>(
    patch: &Named<A>,
    tree: &mut Tree<B>,
) -> Result<bool, AllocError>
    ensures { (s : LawfulMap) → IsMapOf tree.old s → IfOk result (λ leads. MatchBool leads
        ((t : LawfulMap) × IsMapOf tree.new t × PatchLeadsShallowly patch.now s t)
        (PatchStops IsStopped patch.now s)) }
{
    match apply_prims(patch, tree) {
        Ok(()) => Ok(true),
        Err((_, fault)) => refused(fault),
    }
}

/// Applies patches in turn, or stops at the first that leads nowhere shallowly.
pub(crate) fn fit<A: Allocator, B: Allocator + Copy>(
    list: &[(usize, Passing<A>)],
    tree: &mut Tree<B>,
) -> Result<(), Stop>
    ensures { (s : LawfulMap) → IsMapOf tree.old s → MatchResult result
        (λ _. (t : LawfulMap) × IsMapOf tree.new t × InTurn PatchLeadsShallowly (patches list.now) s t)
        (λ stop. StopsAt stop (FitStops IsStopped s list.now)) }
{
    for patch in list {
        if !apply_patch(patch.1.named(), tree)? {
            return Err(Stop::At(patch.0));
        }
    }
    Ok(())
}

/// Applies patches in turn, each of which stands at its place, or stops at the first that leads nowhere shallowly.
fn fit_first<A: Allocator, B: Allocator + Copy>(
    list: &[Named<A>],
    tree: &mut Tree<B>,
) -> Result<(), Stop>
    ensures { (s : LawfulMap) → IsMapOf tree.old s → MatchResult result
        (λ _. (t : LawfulMap) × IsMapOf tree.new t × InTurn PatchLeadsShallowly list.now s t)
        (λ stop. StopsAt stop (FitStops IsStopped s (placed list.now))) }
{
    for k in 0..list.len() {
        if !apply_patch(&list[k], tree)? {
            return Err(Stop::At(k));
        }
    }
    Ok(())
}

/// Applies the front from the root alone: first the patches that stayed where they are, then those that were copied.
pub(crate) fn fit_front<A: Allocator, B: Allocator + Copy>(
    kept: &[Named<A>],
    copied: &[(usize, Passing<B>)],
    tree: &mut Tree<B>,
) -> Result<(), Stop>
    ensures { (s : LawfulMap) → IsMapOf tree.old s → MatchResult result
        (λ _. (t : LawfulMap) × IsMapOf tree.new t × InTurn PatchLeadsShallowly (patches (placed kept.now ++ copied.now)) s t)
        (λ stop. StopsAt stop (FitStops IsStopped s (placed kept.now ++ copied.now))) }
{
    fit_first(kept, tree)?;
    fit(copied, tree)
}
