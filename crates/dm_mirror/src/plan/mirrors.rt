//! The mirrors of a plan.
ghost use Rattle.std.specs.Prelude.{◌≡◌, map, IfOk};
ghost use Rattle.std.specs.List.{All};
ghost use Rattle.dm_mirror.specs.Mirrors.{IsReady};

use crate::mirror::Mirror;
use dm_repo::Repo;
use std::alloc::{AllocError, Global};
use std::collections::VecDeque;

/// A mirror of each of these repositories.
pub(crate) fn mirrors_of(
    alloc: Global,
    repos: VecDeque<Repo<Global>>,
    posters: usize,
    expected: usize,
) -> Result<VecDeque<Mirror>, AllocError>
    ensures ready { IfOk result (λ mirrors. All (IsReady posters expected) mirrors.items) }
    ensures starts { IfOk result (λ mirrors. map (λ mirror. mirror.repo.patches) mirrors.items ≡ map (λ repo. repo.patches) repos.items) }
{
    let mut repos = repos;
    let mut mirrors = VecDeque::with_capacity(alloc, repos.len())?;
    while let Some(repo) = repos.pop_front() {
        mirrors.push_back(Mirror::new(alloc, repo, posters, expected)?)?;
    }
    Ok(mirrors)
}
