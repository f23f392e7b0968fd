//! Whether what the new patches depend on is there.
ghost use Rattle.std.specs.Prelude.{◌≡◌, ◌<◌, ◌↔◌, List, length, take, Contains, IfOk, MatchOption, IsTrue};
ghost use Rattle.dm_bundle.specs.Patches.{infos_of, Distinct};
ghost use Rattle.dm_named.specs.Patches.{Patch};
ghost use Rattle.dm_repo.specs.Repositories.{Holds, IsRepo};
ghost use Rattle.dm_repo.specs.CommonSets.{Common, First, HasDependencies, HasDependenciesAt, IsKnown, LacksDependency, LacksFirst};
ghost use Rattle.dm_repo.specs.MarkLists.{AreMarksOf};
ghost use Rattle.dm_repo.specs.Marking.{AreMarked};

use crate::marks::Marks;
use crate::names::{Names, index_of, place_of};
use crate::repo::Repo;
use dm_bundle::Bundle;
use dm_info::Info;
use std::alloc::{AllocError, Allocator};

/// Whether one of the first `n` names is this one.
fn is_among<A: Allocator>(names: &Names<A>, n: usize, info: &Info<A>) -> bool
    requires { Distinct names.now.keys }
    ensures { IsTrue result ↔ Contains (take n names.now.keys) info.now }
{
    match place_of(names, info) {
        None => false,
        Some(k) => k < n,
    }
}

/// Whether a patch of this name is common.
fn is_common<A: Allocator + Copy, B: Allocator>(
    repo: &Repo<A>,
    bundle: &Bundle<B>,
    marks: &Marks<B>,
    info: &Info<B>,
) -> Result<bool, AllocError>
    requires marks { AreMarked repo.now.patches bundle.now marks.now.common.items marks.now.held.items }
    requires valid { IsRepo repo.now.patches }
    ensures { IfOk result (λ common. IsTrue common ↔ Common repo.now.patches bundle.now info.now) }
{
    match repo.find(info)? {
        None => Ok(false),
        Some(k) => Ok(marks.common[k]),
    }
}

/// Whether the new patch at this place may name this dependency: it is common, or the name of an earlier new patch.
fn is_known<A: Allocator + Copy, B: Allocator>(
    repo: &Repo<A>,
    bundle: &Bundle<B>,
    marks: &Marks<B>,
    names: &Names<B>,
    n: usize,
    info: &Info<B>,
) -> Result<bool, AllocError>
    requires marks { AreMarked repo.now.patches bundle.now marks.now.common.items marks.now.held.items }
    requires valid { IsRepo repo.now.patches }
    requires names { names.now.keys ≡ infos_of bundle.now.patches }
    requires distinct { Distinct names.now.keys }
    ensures { IfOk result (λ known. IsTrue known ↔ IsKnown repo.now.patches bundle.now n info.now) }
{
    if is_common(repo, bundle, marks, info)? {
        return Ok(true);
    }
    Ok(is_among(names, n, info))
}

/// The place of the first dependency that the new patch at this place may not name, unless it is held.
fn missing_dependency<A: Allocator + Copy, B: Allocator>(
    repo: &Repo<A>,
    bundle: &Bundle<B>,
    marks: &Marks<B>,
    names: &Names<B>,
    n: usize,
) -> Result<Option<usize>, AllocError>
    requires marks { AreMarked repo.now.patches bundle.now marks.now.common.items marks.now.held.items }
    requires valid { IsRepo repo.now.patches }
    requires names { names.now.keys ≡ infos_of bundle.now.patches }
    requires distinct { Distinct names.now.keys }
    requires place { n < length bundle.now.patches }
    ensures { IfOk result (λ missing. MatchOption missing
        (HasDependenciesAt repo.now.patches bundle.now n)
        (λ d. First (LacksDependency repo.now.patches bundle.now n) d)) }
{
    if marks.held[n] {
        return Ok(None);
    }
    let patch = &bundle.new_patches()[n];
    let dependencies = patch.deps();
    for d in 0..dependencies.len() {
        if !is_known(repo, bundle, marks, names, n, &dependencies[d])? {
            return Ok(Some(d));
        }
    }
    Ok(None)
}

/// Whether no new patch that isn't held has a dependency.
fn have_none<A: Allocator>(bundle: &Bundle<A>, held: &[bool]) -> bool
    requires { length held.now ≡ length bundle.now.patches }
    ensures { (repo : List Patch) → AreMarksOf held.now (infos_of bundle.now.patches) (Holds repo) → IsTrue result → HasDependencies repo bundle.now }
{
    let new = bundle.new_patches();
    for n in 0..new.len() {
        if held[n] {
            continue;
        }
        if !new[n].deps().is_empty() {
            return false;
        }
    }
    true
}

/// The place of the first new patch that lacks a dependency, and the place of the first that it lacks.
pub(crate) fn first_missing<A: Allocator + Copy, B: Allocator + Copy>(
    alloc: B,
    repo: &Repo<A>,
    bundle: &Bundle<B>,
    marks: &Marks<B>,
) -> Result<Option<(usize, usize)>, AllocError>
    requires { AreMarked repo.now.patches bundle.now marks.now.common.items marks.now.held.items }
    ensures { IfOk result (λ missing. MatchOption missing
        (HasDependencies repo.now.patches bundle.now)
        (λ places. LacksFirst repo.now.patches bundle.now places.0 places.1)) }
{
    repo.lawful();
    if have_none(bundle, &marks.held) {
        return Ok(None);
    }
    let new = bundle.new_patches();
    let names = index_of(alloc, new)?;
    for n in 0..new.len() {
        match missing_dependency(repo, bundle, marks, &names, n)? {
            None => {}
            Some(d) => return Ok(Some((n, d))),
        }
    }
    Ok(None)
}
