//! Which patches of a repository have to do with a bundle: the others are neither copied nor undone.
ghost use Rattle.std.specs.Prelude.{◌≡◌, ◌≤◌, false, length, IfNone, IfOk, OnOk, IsTrue, MatchOption};
ghost use Rattle.dm_repo.specs.declared.nearby.Standing.TheVariants.{Aside, Near};
ghost use Rattle.dm_prim.specs.Glances.{IsGlanceOf};
ghost use Rattle.dm_prim.specs.Sketches.{Covers};
ghost use Rattle.dm_bundle.specs.Patches.{infos_of, Distinct};
ghost use Rattle.dm_repo.specs.Aside.{StandsAside, StandsNear};
ghost use Rattle.dm_repo.specs.Nearby.{AreNamedMarked, AreNeededMarked, AreSortedTops, AreToldApart, IsNamedMarked, IsNearby};

use crate::near::{stand_near, stands_aside_at_a_glance, stands_near};
use crate::repo::Repo;
use crate::tops::{prove_names, thin};
use crate::trial::{add_names, add_names_of_all};
use dm_info::Info;
use dm_named::Named;
use dm_prim::{Glance, Sketch};
use dm_tree::Path;
use std::alloc::{AllocError, Allocator};

/// So often all patches are gone over for more that have to do with those found before, at the most.
const MOST_PASSES: usize = 4;

/// Paths, and the patches of a repository that have to do with them.
#[derive(Drop)]
pub(crate) struct Nearby<A: Allocator> {
    /// None is the root.
    pub(crate) paths: Vec<Path<A>, A>,
    /// For each patch of the repository, whether it stands near: it names nothing but what is at or under the paths.
    pub(crate) marks: Vec<bool, A>,
}

/// Marks the patches of these names.
fn mark_named<A: Allocator>(repo: &Repo<A>, infos: &[Info<A>], marks: &mut [bool])
    requires { length marks.old ≡ length repo.now.patches }
    ensures { length marks.new ≡ length marks.old }
{
    for info in infos {
        match repo.position(info) {
            None => {}
            Some(k) => marks[k] = true,
        }
    }
}

/// Marks the common patches, but for the first ones, and what they name.
fn mark_common<A: Allocator>(repo: &Repo<A>, kept: usize, common: &[bool], marks: &mut [bool])
    requires common { length common.now ≡ length repo.now.patches }
    requires marks { length marks.old ≡ length repo.now.patches }
    ensures { length marks.new ≡ length marks.old }
{
    for k in kept..repo.len() {
        if common[k] {
            marks[k] = true;
            mark_named(repo, repo.patch(k).deps(), marks);
        }
    }
}

/// Adds the paths that marked patches name.
fn add_names_of_marked<A: Allocator, B: Allocator + Copy>(
    paths: &mut Vec<Path<B>, B>,
    alloc: B,
    repo: &Repo<A>,
    kept: usize,
    marks: &[bool],
) -> Result<(), AllocError>
    requires { length marks.now ≡ length repo.now.patches }
{
    for k in kept..repo.len() {
        if marks[k] {
            add_names(paths, alloc, repo.patch(k))?;
        }
    }
    Ok(())
}

/// The common patches and what they name, and the paths of these and of the new patches.
fn nearest<A: Allocator, B: Allocator + Copy>(
    alloc: B,
    repo: &Repo<A>,
    kept: usize,
    common: &[bool],
    new: &[Named<B>],
) -> Result<Nearby<B>, AllocError>
    requires { length common.now ≡ length repo.now.patches }
    ensures marks { IfOk result (λ nearby. length nearby.marks.items ≡ length repo.now.patches) }
    ensures sorted { IfOk result (λ nearby. AreSortedTops nearby.paths.items) }
{
    let mut marks = vec![in alloc; false; repo.len()]?;
    mark_common(repo, kept, common, marks.as_mut_slice());
    let mut names = Vec::new(alloc);
    add_names_of_marked(&mut names, alloc, repo, kept, &marks)?;
    add_names_of_all(&mut names, alloc, new)?;
    Ok(Nearby {
        paths: thin(names),
        marks,
    })
}

/// Whether the patch of this name is marked, where it is held.
fn is_named_marked<A: Allocator>(repo: &Repo<A>, info: &Info<A>, marks: &[bool]) -> bool
    requires { length marks.now ≡ length repo.now.patches }
    ensures { IsTrue result → IsNamedMarked repo.now.patches marks.now info.now }
{
    repo.lawful();
    match repo.position(info) {
        None => true,
        Some(k) => marks[k],
    }
}

/// Whether all that these patch infos name is marked.
fn are_named_marked<A: Allocator>(repo: &Repo<A>, infos: &[Info<A>], marks: &[bool]) -> bool
    requires { length marks.now ≡ length repo.now.patches }
    ensures { IsTrue result → AreNamedMarked repo.now.patches marks.now infos.now }
{
    for info in infos {
        if !is_named_marked(repo, info, marks) {
            return false;
        }
    }
    true
}

/// Whether all that common patches name is marked, but for the first ones.
fn are_needed_marked<A: Allocator>(
    repo: &Repo<A>,
    kept: usize,
    common: &[bool],
    marks: &[bool],
) -> bool
    requires common { length common.now ≡ length repo.now.patches }
    requires marks { length marks.now ≡ length repo.now.patches }
    ensures { IsTrue result → AreNeededMarked repo.now.patches kept common.now marks.now }
{
    let patches = repo.patches();
    for k in kept..patches.len() {
        if !common[k] {
            continue;
        }
        if !are_named_marked(repo, patches[k].deps(), marks) {
            return false;
        }
    }
    true
}

/// How a patch stands to some paths.
enum Standing {
    Aside,
    Near,
    Neither,
}

/// How a patch stands to these paths. One that is common or marked has to stand near.
fn standing_of<A: Allocator, B: Allocator>(
    patch: &Named<A>,
    glance: Glance,
    common: bool,
    marked: bool,
    paths: &[Path<B>],
    sketch: &Sketch,
) -> Standing
    requires glance { IsGlanceOf patch.now.prims glance }
    requires sketch { Covers paths.now sketch.now }
    requires sorted { AreSortedTops paths.now }
    ensures aside { result ≡ Aside → StandsAside paths.now patch.now × (common ≡ false) × (marked ≡ false) }
    ensures near { result ≡ Near → StandsNear paths.now patch.now }
{
    if !marked && !common && stands_aside_at_a_glance(patch, glance, paths, sketch) {
        return Standing::Aside;
    }
    if stands_near(patch, paths) {
        return Standing::Near;
    }
    Standing::Neither
}

/// Goes over the patches behind the first ones, and marks each that doesn't stand aside. Returns the paths that such patches name
/// beside these; none where each patch is told apart.
fn tell_apart<A: Allocator, B: Allocator + Copy>(
    alloc: B,
    repo: &Repo<A>,
    kept: usize,
    common: &[bool],
    paths: &[Path<B>],
    marks: &mut [bool],
) -> Result<Option<Vec<Path<B>, B>>, AllocError>
    requires common { length common.now ≡ length repo.now.patches }
    requires marks { length marks.old ≡ length repo.now.patches }
    requires sorted { AreSortedTops paths.now }
    ensures marks { length marks.new ≡ length marks.old }
    ensures told { IfOk result (λ more. IfNone more (AreToldApart repo.now.patches kept common.now marks.new paths.now)) }
{
    let patches = repo.patches();
    let sketch = Sketch::of(paths);
    let mut names = Vec::new(alloc);
    let mut all_told = true;
    for k in kept..patches.len() {
        let glance = repo.glance(k);
        let is_common = common[k];
        let is_marked = marks[k];
        match standing_of(&patches[k], glance, is_common, is_marked, paths, &sketch) {
            Standing::Aside => {}
            Standing::Near => marks[k] = true,
            Standing::Neither => {
                marks[k] = true;
                all_told = false;
                add_names(&mut names, alloc, &patches[k])?;
            }
        }
    }
    if all_told {
        return Ok(None);
    }
    Ok(Some(names))
}

/// Whether all new patches stand near, and what common patches name is marked, where the marks tell the patches apart.
fn is_nearby<A: Allocator, B: Allocator>(
    repo: &Repo<A>,
    kept: usize,
    common: &[bool],
    new: &[Named<B>],
    nearby: &Nearby<B>,
) -> bool
    requires common { length common.now ≡ length repo.now.patches }
    requires marks { length nearby.now.marks.items ≡ length repo.now.patches }
    requires sorted { AreSortedTops nearby.now.paths.items }
    requires told { AreToldApart repo.now.patches kept common.now nearby.now.marks.items nearby.now.paths.items }
    ensures { IsTrue result → IsNearby repo.now.patches kept common.now new.now nearby.now.paths.items nearby.now.marks.items }
{
    prove_names(&nearby.paths);
    if !stand_near(new, &nearby.paths) {
        return false;
    }
    are_needed_marked(repo, kept, common, &nearby.marks)
}

/// Finds the patches behind the first `kept` of a repository that have to do with new patches or with common ones there. None where
/// they can't be told from the others: where too many passes find more, or a move leads into what it moves.
pub(crate) fn find_nearby<A: Allocator, B: Allocator + Copy>(
    alloc: B,
    repo: &Repo<A>,
    kept: usize,
    common: &[bool],
    new: &[Named<B>],
) -> Result<Option<Nearby<B>>, AllocError>
    requires { length common.now ≡ length repo.now.patches }
    ensures { IfOk result (λ found. MatchOption found (Unit {0})
        (λ nearby. (length nearby.marks.items ≡ length repo.now.patches) × IsNearby repo.now.patches kept common.now new.now nearby.paths.items nearby.marks.items)) }
{
    let mut nearby = nearest(alloc, repo, kept, common, new)?;
    for _ in 0..MOST_PASSES {
        let Nearby {
            mut paths,
            mut marks,
        } = nearby;
        let more = tell_apart(alloc, repo, kept, common, &paths, marks.as_mut_slice())?;
        let Some(mut names) = more else {
            let found = Nearby { paths, marks };
            if is_nearby(repo, kept, common, new, &found) {
                return Ok(Some(found));
            }
            return Ok(None);
        };
        paths.append(&mut names)?;
        nearby = Nearby {
            paths: thin(paths),
            marks,
        };
    }
    Ok(None)
}
