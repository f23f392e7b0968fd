//! What two repositories share.
ghost use Rattle.std.specs.Prelude.{◌↔◌, Contains, IfOk, MatchResult};
ghost use Rattle.dm_info.specs.PatchInfo.{PatchInfo};
ghost use Rattle.dm_repo.specs.Repositories.{Holds};
ghost use Rattle.dm_send.specs.Sending.{IsSplitFor, MakesSameTree, RefusesToSplitFor};

use dm_bundle::Bundle;
use dm_info::Info;
use dm_repo::{Parted, Refusal, Repo, split};
use std::alloc::{AllocError, Allocator};

/// Copies of the names that are held.
fn held_names<A: Allocator, B: Allocator + Copy>(
    alloc: B,
    repo: &Repo<A>,
    names: &[Info<A>],
) -> Result<Vec<Info<B>, B>, AllocError>
    ensures { IfOk result (λ held. (i : PatchInfo) → Contains held.items i ↔ (Contains names.now i × Holds repo.now.patches i)) }
{
    let mut held = Vec::new(alloc);
    for name in names {
        match repo.position(name) {
            Some(_) => held.push(name.copy_into(alloc)?)?,
            None => {}
        }
    }
    Ok(held)
}

/// Splits a repository: in front the patches of these names, and what they name as dependencies.
pub(crate) fn split_for<A: Allocator + Copy, B: Allocator + Copy>(
    alloc: B,
    repo: &Repo<A>,
    names: &[Info<A>],
) -> Result<Parted<B>, Refusal>
    ensures { MatchResult result
        (λ parted. IsSplitFor repo.now.patches names.now parted.front.items parted.rest.items ×
        MakesSameTree repo.now.patches parted.front.items parted.rest.items)
        (RefusesToSplitFor repo.now.patches names.now) }
{
    let held = held_names(alloc, repo, names)?;
    let bundle = Bundle::without_doubles(Vec::new(alloc), held);
    split(alloc, repo, &bundle)
}
