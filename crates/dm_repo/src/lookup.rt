//! Looking up the names of a bundle in a repository.
ghost use Rattle.std.specs.Prelude.{MatchOption, MatchResult};
ghost use Rattle.dm_repo.specs.declared.policy.Policy.{Policy};
ghost use Rattle.dm_repo.specs.Refusals.{IsBeforeFront};
ghost use Rattle.dm_repo.specs.Weighing.{IsNothingNew, RefusesBundle};
ghost use Rattle.dm_repo.specs.Weighed.{IsLookedUp};

use crate::dependencies::first_missing;
use crate::marks::{Marks, are_set, common_marks};
use crate::refusal::Refusal;
use crate::repo::Repo;
use dm_bundle::Bundle;
use std::alloc::Allocator;

/// Looks up the bundle's names: none where nothing is new.
pub(crate) fn look_up<A: Allocator + Copy, B: Allocator + Copy>(
    alloc: B,
    repo: &Repo<A>,
    bundle: &Bundle<B>,
) -> Result<Option<Marks<B>>, Refusal>
    ensures { MatchResult result
        (λ found. MatchOption found
        (IsNothingNew repo.now.patches bundle.now)
        (λ marks. IsLookedUp repo.now.patches bundle.now marks.common.items marks.held.items))
        (λ why. IsBeforeFront why × ((policy : Policy) → RefusesBundle repo.now.patches bundle.now policy why)) }
{
    let marks = common_marks(alloc, repo, bundle)?;
    if are_set(&marks.held) {
        return Ok(None);
    }
    match first_missing(alloc, repo, bundle, &marks)? {
        None => Ok(Some(marks)),
        Some((n, d)) => Err(Refusal::MissingDependency(n, d)),
    }
}
