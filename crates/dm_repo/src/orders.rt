//! Two bundles taken in both orders.
ghost use Rattle.std.specs.Prelude.{◌≡◌, ◌≢◌, false, IfOk, MatchBool, MatchOption};
ghost use Rattle.dm_bundle.specs.Bundles.{HasNoDoubles};
ghost use Rattle.dm_repo.specs.Orders.{EndsAlike, IsNotTaken, IsTaken, StopsInTurn, TakesBothOrders, TakesInTurn};

use crate::policy::Policy;
use crate::refusal::Refusal;
use crate::repo::Repo;
use crate::weighed::{Weighed, weigh};
use dm_bundle::Bundle;
use std::alloc::{AllocError, Allocator};

/// A refusal says that the bundle isn't taken; out of memory says nothing, and is handed on.
fn refused(why: Refusal) -> Result<bool, AllocError>
    ensures { IfOk result (λ taken. (taken ≡ false) × (why ≢ Refusal.NoMemory)) }
{
    match why {
        Refusal::NoMemory => Err(AllocError),
        _ => Ok(false),
    }
}

/// Takes a bundle into a repository, and returns whether it was taken; else the repository is as it was.
fn take<A: Allocator + Copy>(
    alloc: A,
    repo: &mut Repo<A>,
    bundle: &Bundle<A>,
) -> Result<bool, AllocError>
    ensures { IfOk result (λ taken. MatchBool taken
        (IsTaken repo.old.patches bundle.now repo.new.patches)
        (IsNotTaken repo.old.patches bundle.now)) }
{
    match weigh(alloc, repo, bundle, Policy::Refuse) {
        Ok(Weighed::NothingNew) => Ok(false),
        Ok(Weighed::Merged(merged)) => {
            let ready = repo.prepare(&merged)?;
            let _ = repo.commit(ready);
            Ok(true)
        }
        Err(why) => refused(why),
    }
}

/// A copy of the repository into which one bundle was taken and then another, or none where they aren't both taken.
fn take_in_turn<A: Allocator, B: Allocator + Copy>(
    alloc: B,
    repo: &Repo<A>,
    first: &Bundle<B>,
    second: &Bundle<B>,
) -> Result<Option<Repo<B>>, AllocError>
    ensures { IfOk result (λ answer. MatchOption answer
        (StopsInTurn repo.now.patches first.now second.now)
        (λ after. TakesInTurn repo.now.patches first.now second.now after.patches)) }
{
    let mut after = Repo::copy_of(alloc, repo)?;
    if !take(alloc, &mut after, first)? {
        return Ok(None);
    }
    if !take(alloc, &mut after, second)? {
        return Ok(None);
    }
    Ok(Some(after))
}

/// Takes two bundles into copies of a repository: the first and then the second, and the second and then the first. A bundle
/// that conflicts isn't taken. `None` is returned exactly where one of the four isn't taken.
///
/// Where the two share no new patch, and the context of each names exactly the patches of the repository, both
/// copies have equal trees and patches of the same names, in whatever order.
pub fn law_both_orders<A: Allocator, B: Allocator + Copy>(
    alloc: B,
    repo: &Repo<A>,
    first: &Bundle<B>,
    second: &Bundle<B>,
) -> Result<Option<(Repo<B>, Repo<B>)>, AllocError>
    ensures taken { IfOk result (TakesBothOrders repo.now.patches first.now second.now) }
    ensures alike { IfOk result (EndsAlike repo.now.patches first.now second.now) }
{
    let Some(one) = take_in_turn(alloc, repo, first, second)? else {
        return Ok(None);
    };
    let Some(other) = take_in_turn(alloc, repo, second, first)? else {
        return Ok(None);
    };
    repo.lawful();
    has_no_doubles(first);
    has_no_doubles(second);
    Ok(Some((one, other)))
}

/// That a bundle has no doubles; does nothing.
fn has_no_doubles<A: Allocator>(bundle: &Bundle<A>)
    ensures { HasNoDoubles bundle.now.patches bundle.now.context }
{
    let _ = bundle.new_patches();
}
