//! Which new patches are skipped, and why, told so that people can be shown it.
ghost use Rattle.std.specs.Prelude.{◌≡◌, ℕ, List, length, IfErr, IfOk};
ghost use Rattle.dm_named.specs.Patches.{Patch};
ghost use Rattle.dm_repo.specs.declared.policy.Policy.{Policy};
ghost use Rattle.dm_repo.specs.declared.policy.Policy.TheVariants as policies;
ghost use Rattle.dm_repo.specs.Refusals.{IsBeforeMerge};
ghost use Rattle.dm_repo.specs.Weighing.{IsMergeOf, RefusesBundle};
ghost use Rattle.dm_repo.specs.Skips.{AreSkips};

use crate::basis::find_fitted;
use crate::merge::undo_all;
use crate::refusal::Refusal;
use crate::repo::Repo;
use crate::sifting::sift;
use crate::skip::Skip;
use dm_bundle::Bundle;
use std::alloc::Allocator;

/// The new patches of a bundle that are skipped where conflicts are, in their order, and why each is. They are those that
/// [`weigh`](crate::weigh) counts under [`Policy::Skip`](crate::Policy::Skip); of a bundle that brings nothing new there are
/// none. A refusal is one of a step before the merge.
pub fn find_skips<A: Allocator + Copy, B: Allocator + Copy>(
    alloc: B,
    repo: &Repo<A>,
    bundle: &Bundle<B>,
) -> Result<Vec<Skip, B>, Refusal>
    ensures told { IfOk result (λ told. AreSkips repo.now.patches bundle.now told.items) }
    ensures counted { IfOk result (λ told. (merged : List Patch) (count : ℕ) →
        IsMergeOf repo.now.patches bundle.now policies.Skip merged count → count ≡ length told.items) }
    ensures refusal { IfErr result (λ why. (policy : Policy) → RefusesBundle repo.now.patches bundle.now policy why) }
    ensures before { IfErr result (IsBeforeMerge repo.now.patches bundle.now) }
{
    let Some(basis) = find_fitted(alloc, repo, bundle)? else {
        return Ok(Vec::new(alloc));
    };
    let mut rest = basis.rest;
    undo_all(alloc, rest.as_mut_slice());
    let sifted = sift(repo.alloc(), alloc, rest, basis.new)?;
    Ok(sifted.skips)
}
