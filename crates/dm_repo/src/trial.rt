//! Trying patches on a part of a tree: on what their paths reach.
ghost use Rattle.std.specs.Prelude.{◌≡◌, ◌≤◌, ◌∷◌, [], All, List, take, drop, length, IfOk, OnOk, MatchResult};
ghost use Rattle.std.specs.FinMap as map;
ghost use Rattle.dm_prim.specs.Primitives.{LawfulMap};
ghost use Rattle.dm_repo.specs.Folds.{IsStopped};
ghost use Rattle.dm_repo.specs.Squares.{Placed, patches};
ghost use Rattle.dm_repo.specs.Repositories.{IsMapOf};
ghost use Rattle.dm_repo.specs.Weighing.{FitStops};
ghost use Rattle.dm_repo.specs.Stops.{StopsAt};
ghost use Rattle.dm_tree.specs.Reach.{AreBelowRoot};
ghost use Rattle.dm_repo.specs.Aside.{LeavesAside};
ghost use Rattle.dm_repo.specs.Nearby.{behind, marked};
ghost use Rattle.dm_repo.specs.Trials.{AddsPaths, IsPartFor, MakesPartOf, PatchNamesAmong, PatchNamesUnder, ReachesPart, undo_all};

use crate::fit::fit;
use crate::nearby::Nearby;
use crate::repo::Repo;
use crate::stop::Stop;
use crate::tops::thin;
use dm_named::{Named, Passing};
use dm_prim::touch;
use dm_tree::laws::tree_is_lawful;
use dm_tree::{Path, Tree};
use std::alloc::{AllocError, Allocator};

/// A part of a tree, and the paths that reach it: none is the root, and none is at or under another one.
#[derive(Drop)]
pub(crate) struct Trial<A: Allocator> {
    pub(crate) paths: Vec<Path<A>, A>,
    pub(crate) part: Tree<A>,
}

/// The paths that a patch names.
fn names_of<A: Allocator, B: Allocator + Copy>(
    alloc: B,
    patch: &Named<A>,
) -> Result<Vec<Path<B>, B>, AllocError>
    ensures { IfOk result (λ paths. PatchNamesAmong paths.items patch.now) }
{
    let touched = touch(alloc, patch.prims())?;
    Ok(touched.into_paths())
}

/// Adds the paths that a patch names.
pub(crate) fn add_names<A: Allocator, B: Allocator + Copy>(
    paths: &mut Vec<Path<B>, B>,
    alloc: B,
    patch: &Named<A>,
) -> Result<(), AllocError>
    ensures { OnOk result (AddsPaths (patch.now ∷ []) paths.old.items paths.new.items) }
{
    let mut more = names_of(alloc, patch)?;
    paths.append(&mut more)?;
    Ok(())
}

/// Adds the paths that patches name.
pub(crate) fn add_names_of_all<A: Allocator, B: Allocator + Copy>(
    paths: &mut Vec<Path<B>, B>,
    alloc: B,
    list: &[Named<A>],
) -> Result<(), AllocError>
    ensures { OnOk result (AddsPaths list.now paths.old.items paths.new.items) }
{
    for k in 0..list.len() {
        add_names(paths, alloc, &list[k])?;
    }
    Ok(())
}

/// The same of patches that may pass others.
fn add_names_of_placed<A: Allocator, B: Allocator + Copy>(
    paths: &mut Vec<Path<B>, B>,
    alloc: B,
    list: &[(usize, Passing<A>)],
) -> Result<(), AllocError>
    ensures { OnOk result (AddsPaths (patches list.now) paths.old.items paths.new.items) }
{
    for k in 0..list.len() {
        add_names(paths, alloc, list[k].1.named())?;
    }
    Ok(())
}

/// The part of a tree that what patches name reaches.
fn part_of<A: Allocator, B: Allocator + Copy>(
    alloc: B,
    tree: &Tree<A>,
    list: &[(usize, Passing<B>)],
) -> Result<Trial<B>, AllocError>
    ensures { IfOk result (λ trial. ReachesPart tree.now (patches list.now) trial.paths.items trial.part) }
{
    let mut names = Vec::new(alloc);
    add_names_of_placed(&mut names, alloc, list)?;
    let paths = thin(names);
    let part = tree.part(alloc, &paths)?;
    tree_is_lawful(tree);
    Ok(Trial { paths, part })
}

/// Applies patches in turn to the part of a tree that they reach, or stops at the first that leads nowhere shallowly: so they
/// would apply to the tree.
pub(crate) fn try_patches<A: Allocator, B: Allocator + Copy>(
    alloc: B,
    tree: &Tree<A>,
    list: &[(usize, Passing<B>)],
) -> Result<Trial<B>, Stop>
    ensures { (s : LawfulMap) → IsMapOf tree.now s → MatchResult result
        (λ trial. MakesPartOf s (patches list.now) trial.paths.items (map.get trial.part))
        (λ stop. StopsAt stop (FitStops IsStopped s list.now)) }
{
    let mut trial = part_of(alloc, tree, list)?;
    fit(list, &mut trial.part)?;
    Ok(trial)
}

/// Copies of patches, each undone, the last one first.
fn undone<A: Allocator, B: Allocator + Copy>(
    alloc: B,
    list: &[Named<A>],
) -> Result<Vec<(usize, Passing<B>), B>, AllocError>
    ensures { IfOk result (λ copies. patches copies.items ≡ undo_all list.now) }
{
    let mut copies = Vec::with_capacity(alloc, list.len())?;
    for k in 0..list.len() {
        let place = list.len() - 1 - k;
        let mut copy = Passing::new(list[place].copy_into(alloc)?);
        copy.undo(alloc);
        copies.push((place, copy))?;
    }
    Ok(copies)
}

/// Copies of the marked patches behind the first `kept`, each undone, the last one first.
fn undone_marked<A: Allocator, B: Allocator + Copy>(
    alloc: B,
    list: &[Named<A>],
    kept: usize,
    marks: &[bool],
) -> Result<Vec<(usize, Passing<B>), B>, AllocError>
    requires kept { kept ≤ length list.now }
    requires marks { length marks.now ≡ length list.now }
    ensures { IfOk result (λ copies. patches copies.items ≡ undo_all (patches (marked marks.now (behind kept list.now)))) }
{
    let mut copies = Vec::new(alloc);
    for k in 0..list.len() - kept {
        let place = list.len() - 1 - k;
        if !marks[place] {
            continue;
        }
        let mut copy = Passing::new(list[place].copy_into(alloc)?);
        copy.undo(alloc);
        copies.push((place, copy))?;
    }
    Ok(copies)
}

/// The part of the tree that the first `kept` patches of a repository make, which some paths reach. It is taken from the kept
/// tree, in which the marked ones of the other patches are undone.
pub(crate) fn part_nearby<A: Allocator, B: Allocator + Copy>(
    alloc: B,
    repo: &Repo<A>,
    kept: usize,
    nearby: &Nearby<B>,
) -> Result<Tree<B>, AllocError>
    requires within { kept ≤ length repo.now.patches }
    requires marks { length nearby.now.marks.items ≡ length repo.now.patches }
    requires below { AreBelowRoot nearby.now.paths.items }
    requires leaves { LeavesAside nearby.now.paths.items (behind kept repo.now.patches) (marked nearby.now.marks.items (behind kept repo.now.patches)) }
    ensures { IfOk result (λ part. (front new : List Placed) → All (PatchNamesUnder nearby.now.paths.items) (patches front) → All (PatchNamesUnder nearby.now.paths.items) (patches new) →
        IsPartFor (take kept repo.now.patches) front new part) }
{
    repo.lawful();
    let mut part = repo.tree().part(alloc, &nearby.paths)?;
    let undone = undone_marked(alloc, repo.patches(), kept, &nearby.marks)?;
    match fit(&undone, &mut part) {
        Ok(()) => Ok(part),
        Err(stop) => Err(stop.refused()),
    }
}

/// The part of the tree that the first `kept` patches of a repository make, which reaches what the other ones name, and two
/// lists of patches. It is taken from the kept tree, in which the other patches are undone.
pub(crate) fn part_before<A: Allocator, B: Allocator + Copy>(
    alloc: B,
    repo: &Repo<A>,
    kept: usize,
    front: &[(usize, Passing<B>)],
    new: &[(usize, Passing<B>)],
) -> Result<Tree<B>, AllocError>
    requires { kept ≤ length repo.now.patches }
    ensures { IfOk result (IsPartFor (take kept repo.now.patches) front.now new.now) }
{
    let behind = &repo.patches()[kept..];
    let mut names = Vec::new(alloc);
    add_names_of_all(&mut names, alloc, behind)?;
    add_names_of_placed(&mut names, alloc, front)?;
    add_names_of_placed(&mut names, alloc, new)?;
    let paths = thin(names);
    let mut part = repo.tree().part(alloc, &paths)?;
    let undone = undone(alloc, behind)?;
    match fit(&undone, &mut part) {
        Ok(()) => Ok(part),
        Err(stop) => Err(stop.refused()),
    }
}
