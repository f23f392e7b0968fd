//! What is shared with somebody of the base of a repository.
ghost use Rattle.std.specs.Prelude.{◌≡◌, ◌≤◌, ◌↔◌, ◌⊎◌, true, length, map, take, All, Contains, IfOk, IsTrue};
ghost use Rattle.dm_info.specs.PatchInfo.{PatchInfo};
ghost use Rattle.dm_bundle.specs.Patches.{Distinct, infos_of};
ghost use Rattle.dm_repo.specs.CommonSets.{Closed, HoldsAll};
ghost use Rattle.dm_repo.specs.MarkLists.{AddsMarks, AreMarksOf};
ghost use Rattle.dm_begin.specs.Bases.{IsBeforeBase, KnowsBase};

use dm_bundle::Bundle;
use dm_info::Info;
use dm_repo::{Repo, copy_names};
use std::alloc::{AllocError, Allocator};

/// That the patches of a repository have distinct names; does nothing.
fn are_distinct<A: Allocator>(repo: &Repo<A>)
    ensures { Distinct (infos_of repo.now.patches) }
{
    let _ = repo.len();
}

/// Whether all of these names are held.
fn are_held<A: Allocator>(repo: &Repo<A>, names: &[Info<A>]) -> bool
    ensures { IsTrue result ↔ HoldsAll repo.now.patches names.now }
{
    for name in names {
        match repo.position(name) {
            None => return false,
            Some(_) => {}
        }
    }
    true
}

/// Marks the held patches of these names.
fn add_marks<A: Allocator>(repo: &Repo<A>, names: &[Info<A>], marks: &mut [bool])
    requires marks { length marks.old ≡ length repo.now.patches }
    requires distinct { Distinct (infos_of repo.now.patches) }
    ensures { AddsMarks marks.old marks.new (infos_of repo.now.patches) names.now }
{
    for name in names {
        match repo.position(name) {
            None => {}
            Some(k) => marks[k] = true,
        }
    }
}

/// Marks the held patches of these names, and what they rest on: a dependency stands earlier, so from the last patch to the first.
fn reached_marks<A: Allocator, B: Allocator + Copy>(
    alloc: B,
    repo: &Repo<A>,
    names: &[Info<A>],
) -> Result<Vec<bool, B>, AllocError>
    ensures { IfOk result (λ marks. AreMarksOf marks.items (infos_of repo.now.patches) (Closed repo.now.patches names.now)) }
{
    let mut marks = vec![in alloc; false; repo.len()]?;
    add_marks(repo, names, marks.as_mut_slice());
    for k in (0..repo.len()).rev() {
        if marks[k] {
            add_marks(repo, repo.patch(k).deps(), marks.as_mut_slice());
        }
    }
    Ok(marks)
}

/// Whether the first marks, so many of them, are all set.
fn are_first_set(marks: &[bool], count: usize) -> bool
    ensures { IsTrue result ↔ All (λ mark. mark ≡ true) (take count marks.now) }
{
    let count = count.min(marks.len());
    marks[..count].iter().all(|mark| *mark)
}

/// Copies of names, under another allocator.
fn copies_of<A: Allocator + Copy, B: Allocator>(
    own: A,
    names: &[Info<B>],
) -> Result<Vec<Info<A>, A>, AllocError>
    ensures { IfOk result (λ copies. copies.items ≡ names.now) }
{
    let mut copies = Vec::with_capacity(own, names.len())?;
    for name in names {
        copies.push(name.copy_into(own)?)?;
    }
    Ok(copies)
}

/// Whether somebody who holds patches of these names, and whatever else, has the whole base of the repository, its first patches,
/// so many of them: by name, or by way of dependencies. So it is with every list of names where there is no base.
pub fn knows_base<A: Allocator + Copy, B: Allocator + Copy>(
    alloc: B,
    repo: &Repo<A>,
    base: usize,
    names: &[Info<A>],
) -> Result<bool, AllocError>
    ensures { IfOk result (λ yes. IsTrue yes ↔ KnowsBase repo.now.patches base names.now) }
{
    if base == 0 {
        return Ok(true);
    }
    let marks = reached_marks(alloc, repo, names)?;
    Ok(are_first_set(&marks, base))
}

/// Whether the bundle is refused since it is older than the base with which the repository begins, its first patches, so many of
/// them: its context is held and it brings something new, but not the whole base is common. `own` is the repository's allocator, under which names are looked up.
pub fn is_before_base<A: Allocator + Copy, B: Allocator + Copy>(
    own: A,
    alloc: B,
    repo: &Repo<A>,
    base: usize,
    bundle: &Bundle<B>,
) -> Result<bool, AllocError>
    ensures { IfOk result (λ yes. IsTrue yes ↔ IsBeforeBase repo.now.patches base bundle.now) }
{
    if base == 0 {
        return Ok(false);
    }
    let context = copies_of(own, bundle.context())?;
    if !are_held(repo, &context) {
        return Ok(false);
    }
    let new = copy_names(own, bundle.new_patches())?;
    let nothing_new = are_held(repo, &new);
    if nothing_new {
        return Ok(false);
    }
    let mut marks = reached_marks(alloc, repo, &context)?;
    are_distinct(repo);
    add_marks(repo, &new, marks.as_mut_slice());
    Ok(!are_first_set(&marks, base))
}
