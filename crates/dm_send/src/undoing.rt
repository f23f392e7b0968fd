//! A patch that undoes others.
ghost use Rattle.std.specs.Prelude.{◌≡◌, ◌∷◌, ℕ, [], IfErr, IfOk, MatchBool};
ghost use Rattle.dm_prim.specs.Primitives.{inv_all};
ghost use Rattle.dm_prim.specs.Prims.{prims_of};
ghost use Rattle.dm_repo.specs.Repositories.{Holds};
ghost use Rattle.dm_repo.specs.declared.refusal.Refusal.TheVariants as refusals;
ghost use Rattle.dm_send.specs.declared.undoing.UndoFault.TheVariants.{Refused};
ghost use Rattle.dm_send.specs.Undoing.{IsUndoFault, RollsBack, Undoes, prims_in};

use crate::leaving::part;
use crate::minimizing::minimize;
use crate::sending::{accepted, is_lawful};
use dm_bundle::Bundle;
use dm_info::Info;
use dm_named::{Named, Passing};
use dm_prim::{Prim, invert_all};
use dm_repo::{Refusal, Repo};
use std::alloc::{AllocError, AllocFailed, Allocator};

/// Why patches aren't undone.
#[derive(Drop)]
pub enum UndoFault<A: Allocator> {
    /// The repository holds a patch of the new one's name.
    Held,
    /// Patches that weren't chosen can't do without one that was, or without one of these: their names in their order, each with
    /// the name of the last of those that stop it.
    Bound(Vec<(Info<A>, Info<A>), A>),
    /// The repository holds none of the patches, or they change nothing: tags do so.
    ChangesNothing,
    /// The repository refuses the new patch: [`Refusal::Full`] or [`Refusal::NoMemory`].
    Refused(Refusal),
}

impl<A: Allocator> From<AllocError> for UndoFault<A> {
    ghost from_gives = { λ _ fault. fault ≡ Refused refusals.NoMemory };

    fn from(_: AllocError) -> UndoFault<A> {
        UndoFault::Refused(Refusal::NoMemory)
    }
}

impl<T: Drop, A: Allocator> From<AllocFailed<T>> for UndoFault<A> {
    ghost from_gives = { λ _ fault. fault ≡ Refused refusals.NoMemory };

    fn from(_: AllocFailed<T>) -> UndoFault<A> {
        UndoFault::Refused(Refusal::NoMemory)
    }
}

impl<A: Allocator> From<Refusal> for UndoFault<A> {
    ghost from_gives = { λ why fault. fault ≡ Refused why };

    fn from(why: Refusal) -> UndoFault<A> {
        UndoFault::Refused(why)
    }
}

/// The inverses of what patches do, those of the last patch first.
fn inverses<A: Allocator + Copy>(
    alloc: A,
    list: Vec<Passing<A>, A>,
) -> Result<Vec<Prim<A>, A>, AllocError>
    ensures { IfOk result (λ prims. prims_of prims.items ≡ inv_all (prims_in list.items)) }
{
    let mut prims = Vec::new(alloc);
    for patch in list {
        let mut named = patch.into_named();
        let mut more = named.replace_prims(Vec::new(alloc));
        prims.append(&mut more)?;
    }
    Ok(invert_all(prims))
}

/// Whether a patch of this name is held.
fn is_held<A: Allocator>(repo: &Repo<A>, name: &Info<A>) -> bool
    ensures { MatchBool result (Holds repo.now.patches name.now) (Holds repo.now.patches name.now → ⊥) }
{
    match repo.position(name) {
        Some(_) => true,
        None => false,
    }
}

/// A list of one patch.
fn just<A: Allocator + Copy>(alloc: A, patch: Named<A>) -> Result<Vec<Named<A>, A>, AllocError>
    ensures { IfOk result (λ list. list.items ≡ patch ∷ []) }
{
    let mut list = Vec::with_capacity(alloc, 1)?;
    list.push(patch)?;
    Ok(list)
}

/// A patch of this name that undoes those of chosen names.
fn undo_of<A: Allocator + Copy>(
    alloc: A,
    repo: &Repo<A>,
    chosen: &[Info<A>],
    name: Info<A>,
) -> Result<Named<A>, UndoFault<A>>
    ensures undoes { IfOk result (Undoes repo.now.patches chosen.now name) }
    ensures fault { IfErr result (λ fault. (base : ℕ) → IsUndoFault repo.now.patches base chosen.now name fault) }
{
    is_lawful(repo);
    let parting = part(alloc, repo, chosen)?;
    if !parting.bound.is_empty() {
        return Err(UndoFault::Bound(parting.bound));
    }
    let prims = inverses(alloc, parting.go)?;
    if prims.is_empty() {
        return Err(UndoFault::ChangesNothing);
    }
    let undo = Named::new(name, Vec::new(alloc), prims);
    Ok(undo)
}

/// The bundle of a new patch that undoes those of chosen names: it has the inverses of what they do behind all the others. Its
/// context names the first `base` patches, and of the others those that it can't pass, and what these need (`darcs send
/// --minimize`). A name that isn't held is passed over. The repository stays as it was.
pub fn roll_back<A: Allocator + Copy>(
    alloc: A,
    repo: &Repo<A>,
    base: usize,
    chosen: &[Info<A>],
    name: Info<A>,
) -> Result<Bundle<A>, UndoFault<A>>
    ensures rolls_back { IfOk result (RollsBack repo.now.patches base chosen.now name) }
    ensures fault { IfErr result (IsUndoFault repo.now.patches base chosen.now name) }
{
    is_lawful(repo);
    if is_held(repo, &name) {
        return Err(UndoFault::Held);
    }
    let undo = undo_of(alloc, repo, chosen, name)?;
    let new = just(alloc, undo)?;
    let minimal = minimize(alloc, repo, base, new)?;
    let bundle = Bundle::without_doubles(minimal.sent, minimal.names);
    let accepted = accepted(alloc, repo, bundle)?;
    Ok(accepted)
}
