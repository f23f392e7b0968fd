//! What a bundle that is sent names of the base.
ghost use Rattle.std.specs.Prelude.{◌≡◌, ◌↔◌, Contains, IfOk, IsTrue, take};
ghost use Rattle.dm_bundle.specs.Patches.{Distinct, infos_of};
ghost use Rattle.dm_begin.specs.Bases.{CutsBase, Without};

use dm_bundle::Bundle;
use dm_info::Info;
use dm_repo::Repo;
use std::alloc::{AllocError, Allocator};

/// Whether a name is among these.
fn is_among<A: Allocator, B: Allocator>(names: &[Info<B>], name: &Info<A>) -> bool
    ensures { IsTrue result ↔ Contains names.now name.now }
{
    names.iter().any(|other| other.same(name))
}

/// Whether a name is that of one of the first patches, so many of them.
fn is_of_first<A: Allocator + Copy, B: Allocator>(
    own: A,
    repo: &Repo<A>,
    count: usize,
    name: &Info<B>,
) -> Result<bool, AllocError>
    requires { Distinct (infos_of repo.now.patches) }
    ensures { IfOk result (λ yes. IsTrue yes ↔ Contains (take count (infos_of repo.now.patches)) name.now) }
{
    let copy = name.copy_into(own)?;
    match repo.position(&copy) {
        None => Ok(false),
        Some(k) => Ok(k < count),
    }
}

/// Copies of the names that aren't those of the first patches, so many of them.
fn later_names<A: Allocator + Copy, B: Allocator + Copy>(
    own: A,
    alloc: B,
    repo: &Repo<A>,
    count: usize,
    names: &[Info<B>],
) -> Result<Vec<Info<B>, B>, AllocError>
    requires { Distinct (infos_of repo.now.patches) }
    ensures { IfOk result (λ left. Without (take count (infos_of repo.now.patches)) names.now left.items) }
{
    let mut left = Vec::new(alloc);
    for name in names {
        if !is_of_first(own, repo, count, name)? {
            left.push(name.copy_into(alloc)?)?;
        }
    }
    Ok(left)
}

/// The bundle with a context that names of the base the last patch alone, the tag, where it names the tag at all: who has the
/// tag has what it covers. The first patches of the repository, so many of them, are the base; if there are none, the bundle is as
/// it was. `own` is the repository's allocator, under which names are looked up.
pub fn cut_base<A: Allocator + Copy, B: Allocator + Copy>(
    own: A,
    alloc: B,
    repo: &Repo<A>,
    base: usize,
    bundle: Bundle<B>,
) -> Result<Bundle<B>, AllocError>
    ensures { IfOk result (CutsBase repo.now.patches base bundle) }
{
    let base = base.min(repo.len());
    if base == 0 {
        return Ok(bundle);
    }
    let tag = repo.patch(base - 1).info();
    if !is_among(bundle.context(), tag) {
        return Ok(bundle);
    }
    let left = later_names(own, alloc, repo, base - 1, bundle.context())?;
    let patches = bundle.into_new_patches();
    Ok(Bundle::without_doubles(patches, left))
}
