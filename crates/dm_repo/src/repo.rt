//! A repository: its patches, oldest first, their names, and the tree that they make.
ghost use Rattle.std.specs.Prelude.{◌≡◌, ◌↔◌, ◌<◌, ◌≤◌, [], ◌++◌, length, IfOk, IfSome, OnErr, OnOk, IsTrue, slice_get, Some, MatchOption};
ghost use Rattle.std.specs.FinMap as finmap;
ghost use Rattle.dm_tree.specs.Trees.{IsLawful, Map};
ghost use Rattle.dm_tree.specs.Reach.{AreBelowRoot, AreTops, Puts};
ghost use Rattle.dm_bundle.specs.Patches.{infos_of};
ghost use Rattle.dm_prim.specs.Glances.{IsGlanceOf};
ghost use Rattle.dm_named.specs.Patches.{Patch};
ghost use Rattle.dm_repo.specs.Glances.{AreGlancesOf};
ghost use Rattle.dm_repo.specs.Repositories.{Holds, IsRepo, IsTreeOf, KeepsTree};
ghost use Rattle.dm_repo.specs.Trials.{KeepsPart, ReplacesPart};

use crate::names::{Names, append_names, copy_names, index_of, no_names, place_of};
use crate::weighed::Merged;
use dm_bundle::Bundle;
use dm_info::Info;
use dm_named::Named;
use dm_prim::{Glance, touch};
use dm_tree::laws::tree_is_lawful;
use dm_tree::{Path, Tree};
use std::alloc::{AllocError, Allocator};
use std::marker::Model;

/// Named patches in the order in which they were taken, an index of their names, and the tree that they make.
///
/// Their names are distinct, each explicit dependency stands earlier, and they apply in turn from the
/// root alone, where no primitive makes a path of more than 32 names.
///
/// The hash of the index has no seed: whoever picks the names can make them collide in it, and a look-up then
/// compares as many of them as a walk over the patches would.
pub struct Repo<A: Allocator> {
    patches: Vec<Named<A>, A>,
    // What each patch touches at a glance: so most are passed over without a look at their paths.
    glances: Vec<Glance, A>,
    names: Names<A>,
    tree: Tree<A>,
}

// By hand, so that this is called where one goes. What is derived stands there in full.
impl<A: Allocator> Drop for Repo<A> {
    fn drop(self) {
        let Repo {
            patches: _,
            glances: _,
            names: _,
            tree: _,
        } = self;
    }
}

impl<A: Allocator> Model for Repo<A> {
    ghost use Rattle.std.specs.Prelude.{◌≡◌, ◌-◌, min, vec_len, vec_capacity};
    ghost use Rattle.indexmap.specs.IndexSet.{spare};
    ghost use Rattle.dm_bundle.specs.Patches.{infos_of};
    ghost use Rattle.dm_repo.specs.Glances.{AreGlancesOf};
    ghost use Rattle.dm_repo.specs.Repositories.{Repository, KeepsTree};

    ghost Value = { Repository };

    ghost view = { λ r. record { patches = r.patches.items; room = min (min (vec_capacity r.patches - vec_len r.patches) (vec_capacity r.glances - vec_len r.glances)) (spare r.names) } };

    ghost invariant = { λ r. KeepsTree r.patches.items r.tree × ((r.names.keys ≡ infos_of r.patches.items) × AreGlancesOf r.patches.items r.glances.items) };
}

/// Copies of patches that are about to be appended, of their names, and of the tree after them.
#[derive(Drop)]
pub struct Ready<A: Allocator> {
    patches: Vec<Named<A>, A>,
    glances: Vec<Glance, A>,
    names: Vec<Info<A>, A>,
    tree: Tree<A>,
}

impl<A: Allocator> Model for Ready<A> {
    ghost use Rattle.std.specs.Prelude.{◌≡◌};
    ghost use Rattle.std.specs.Coded.{codes};
    ghost use Rattle.dm_tree.specs.Trees.{tree_code};
    ghost use Rattle.dm_bundle.specs.Patches.{infos_of};
    ghost use Rattle.dm_repo.specs.Glances.{AreGlancesOf};
    ghost use Rattle.dm_repo.specs.Repositories.{Prepared};

    ghost Value = { Prepared };

    ghost coded = { Prim.hlevel (codes, tree_code) };

    ghost view = { λ r. record { patches = r.patches.items; tree = r.tree } };

    ghost invariant = { λ r. (r.names.items ≡ infos_of r.patches.items) × AreGlancesOf r.patches.items r.glances.items };
}

impl<A: Allocator> Repo<A> {
    /// How many patches it holds.
    pub fn len(&self) -> usize
        ensures value { result ≡ length self.now.patches }
        ensures valid { IsRepo self.now.patches }
    {
        self.patches().len()
    }

    /// Whether it holds no patch.
    pub fn is_empty(&self) -> bool
        ensures { IsTrue result ↔ (self.now.patches ≡ []) }
    {
        self.patches.is_empty()
    }

    /// The patch at a place.
    pub fn patch(&self, i: usize) -> &Named<A>
        requires { i < length self.now.patches }
        ensures { slice_get self.now.patches i ≡ Some result.now }
    {
        &self.patches[i]
    }

    /// What the patch at a place touches, at a glance.
    pub(crate) fn glance(&self, i: usize) -> Glance
        requires { i < length self.now.patches }
        ensures { (x : Patch) → slice_get self.now.patches i ≡ Some x → IsGlanceOf x.prims result }
    {
        self.glances[i]
    }

    /// That its patches are a repository; does nothing.
    pub(crate) fn lawful(&self)
        ensures { IsRepo self.now.patches }
    {
        let _ = &self.patches;
    }

    /// All patches, oldest first, borrowed without a copy.
    pub fn patches(&self) -> &[Named<A>]
        ensures value { result.now ≡ self.now.patches }
        ensures valid { IsRepo self.now.patches }
    {
        self.patches.as_slice()
    }

    /// The tree that the patches make, borrowed without a copy.
    pub fn tree(&self) -> &Tree<A>
        ensures { IsTreeOf self.now.patches result.now }
    {
        &self.tree
    }

    /// A copy of the tree that the patches make.
    pub fn tree_copy<B: Allocator + Copy>(&self, alloc: B) -> Result<Tree<B>, AllocError>
        ensures { IfOk result (IsTreeOf self.now.patches) }
    {
        let copy = self.tree().copy_into(alloc)?;
        Ok(copy)
    }

    /// The bundle of all patches with an empty context.
    pub fn to_bundle<B: Allocator + Copy>(&self, alloc: B) -> Result<Bundle<B>, AllocError>
        ensures { IfOk result (λ bundle. bundle ≡ record { patches = self.now.patches; context = [] }) }
    {
        let patches = copy_patches(alloc, self.patches())?;
        Ok(Bundle::without_doubles(patches, Vec::new(alloc)))
    }

    /// The place of the patch of this name, if it is held.
    pub fn position(&self, info: &Info<A>) -> Option<usize>
        ensures { MatchOption result
            (Holds self.now.patches info.now → ⊥)
            (λ i. slice_get (infos_of self.now.patches) i ≡ Some info.now) }
    {
        place_of(&self.names, info)
    }

    /// The same as [`Repo::position`], where the patch probably stands beside this place: there no hash is needed.
    pub(crate) fn position_beside(&self, place: usize, info: &Info<A>) -> Option<usize>
        ensures { MatchOption result
            (Holds self.now.patches info.now → ⊥)
            (λ i. slice_get (infos_of self.now.patches) i ≡ Some info.now) }
    {
        match self.beside(place, info) {
            Some(i) => Some(i),
            None => self.position(info),
        }
    }

    /// The place behind this one, or before it, if the patch of this name stands there.
    fn beside<B: Allocator>(&self, place: usize, info: &Info<B>) -> Option<usize>
        ensures { IfSome result (λ i. slice_get (infos_of self.now.patches) i ≡ Some info.now) }
    {
        let next = place.saturating_add(1);
        if self.has_at(next, info) {
            return Some(next);
        }
        let previous = place.saturating_sub(1);
        if self.has_at(previous, info) {
            return Some(previous);
        }
        None
    }

    /// Whether there is a patch at this place, and of this name.
    fn has_at<B: Allocator>(&self, i: usize, info: &Info<B>) -> bool
        ensures { IsTrue result → slice_get (infos_of self.now.patches) i ≡ Some info.now }
    {
        if i >= self.len() {
            return false;
        }
        self.patch(i).info().same(info)
    }

    /// Appends what was prepared, and returns how many patches that is; takes no memory. The tree after them takes the
    /// place of the one that is kept.
    ///
    /// `ready` is that of the last `prepare` on this repository, which is unchanged since.
    pub fn commit(&mut self, ready: Ready<A>) -> usize
        requires room { length ready.patches ≤ self.old.room }
        requires applies { KeepsTree (self.old.patches ++ ready.patches) ready.tree }
        ensures patches { self.new.patches ≡ self.old.patches ++ ready.patches }
        ensures count { result ≡ length ready.patches }
    {
        let mut more = ready.patches;
        let mut glances = ready.glances;
        let count = more.len();
        // There is room, so none can fail.
        append_names(&mut self.names, ready.names);
        let _ = self.patches.append(&mut more);
        let _ = self.glances.append(&mut glances);
        self.tree = ready.tree;
        count
    }
}

impl<A: Allocator + Copy> Repo<A> {
    /// The repository without patches; takes no memory.
    pub fn new(alloc: A) -> Repo<A>
        ensures { result.patches ≡ [] }
    {
        let tree = Tree::new(alloc);
        tree_is_lawful(&tree);
        Repo {
            patches: Vec::new(alloc),
            glances: Vec::new(alloc),
            names: no_names(alloc),
            tree,
        }
    }

    /// The allocator of its patches.
    pub(crate) fn alloc(&self) -> A {
        *self.patches.allocator()
    }

    /// The place of the patch of this name, if it is held, where the name lies under another allocator.
    pub(crate) fn find<B: Allocator>(&self, info: &Info<B>) -> Result<Option<usize>, AllocError>
        ensures { IfOk result (λ found. MatchOption found
            (Holds self.now.patches info.now → ⊥)
            (λ i. slice_get (infos_of self.now.patches) i ≡ Some info.now)) }
    {
        let name = info.copy_into(*self.patches.allocator())?;
        Ok(self.position(&name))
    }

    /// The same as [`Repo::find`], where the patch probably stands beside this place: there it is neither copied nor hashed.
    pub(crate) fn find_beside<B: Allocator>(
        &self,
        place: usize,
        info: &Info<B>,
    ) -> Result<Option<usize>, AllocError>
        ensures { IfOk result (λ found. MatchOption found
            (Holds self.now.patches info.now → ⊥)
            (λ i. slice_get (infos_of self.now.patches) i ≡ Some info.now)) }
    {
        match self.beside(place, info) {
            Some(i) => Ok(Some(i)),
            None => self.find(info),
        }
    }

    /// Appends merged patches, and returns how many that is. They are copied, and so is the part of the tree, which takes its
    /// place in the kept tree; no other part of it is copied. At an error the repository is as it was.
    ///
    /// `merged` was weighed against this repository as it stands.
    pub fn append<B: Allocator>(&mut self, merged: &Merged<B>) -> Result<usize, AllocError>
        requires weighed { KeepsPart self.old.patches merged.now.patches.items merged.now.paths.items (finmap.get merged.now.part) }
        ensures patches { OnOk result (self.new.patches ≡ self.old.patches ++ merged.now.patches.items) }
        ensures count { IfOk result (λ count. count ≡ length merged.now.patches.items) }
        ensures same { OnErr result (self.new.patches ≡ self.old.patches) }
    {
        self.make_room(merged.patches.len())?;
        let alloc = *self.patches.allocator();
        let patches = copy_patches(alloc, &merged.patches)?;
        let glances = glances_of(alloc, &patches)?;
        let names = copy_names(alloc, &patches)?;
        let part = merged.part.copy_into(alloc)?;
        self.put(patches, glances, names, part, &merged.paths)
    }

    /// The same as [`Repo::append`] of what was merged in the repository's own memory and is given up: its patches and the part
    /// are moved, and the names alone are copied.
    pub fn append_owned(&mut self, merged: Merged<A>) -> Result<usize, AllocError>
        requires weighed { KeepsPart self.old.patches merged.patches.items merged.paths.items (finmap.get merged.part) }
        ensures patches { OnOk result (self.new.patches ≡ self.old.patches ++ merged.patches.items) }
        ensures count { IfOk result (λ count. count ≡ length merged.patches.items) }
        ensures same { OnErr result (self.new.patches ≡ self.old.patches) }
    {
        self.make_room(merged.patches.len())?;
        let alloc = *self.patches.allocator();
        let glances = glances_of(alloc, &merged.patches)?;
        let names = copy_names(alloc, &merged.patches)?;
        self.put(merged.patches, glances, names, merged.part, &merged.paths)
    }

    /// Puts a part into the kept tree, which is the last that may fail, and appends the patches and names that there is room for.
    fn put<B: Allocator>(
        &mut self,
        patches: Vec<Named<A>, A>,
        glances: Vec<Glance, A>,
        names: Vec<Info<A>, A>,
        part: Tree<A>,
        paths: &[Path<B>],
    ) -> Result<usize, AllocError>
        requires room { length patches.items ≤ self.old.room }
        requires glances { AreGlancesOf patches.items glances.items }
        requires names { names.items ≡ infos_of patches.items }
        requires keeps { KeepsPart self.old.patches patches.items paths.now (finmap.get part) }
        ensures patches { OnOk result (self.new.patches ≡ self.old.patches ++ patches.items) }
        ensures count { IfOk result (λ count. count ≡ length patches.items) }
        ensures same { OnErr result (self.new.patches ≡ self.old.patches) }
    {
        let whole = self.is_empty();
        replace_part(&mut self.tree, whole, part, paths)?;
        let mut more = patches;
        let mut more_glances = glances;
        let count = more.len();
        append_names(&mut self.names, names);
        let _ = self.patches.append(&mut more);
        let _ = self.glances.append(&mut more_glances);
        Ok(count)
    }

    /// Makes the room for the merged patches, and copies them and the whole tree after them. The repository reads as before.
    ///
    /// `merged` was weighed against this repository as it stands. [`Repo::append`] does both in one, and copies no whole tree.
    pub fn prepare<B: Allocator>(&mut self, merged: &Merged<B>) -> Result<Ready<A>, AllocError>
        requires weighed { KeepsPart self.old.patches merged.now.patches.items merged.now.paths.items (finmap.get merged.now.part) }
        ensures same { self.new.patches ≡ self.old.patches }
        ensures ready { IfOk result (λ ready. ready.patches ≡ merged.now.patches.items) }
        ensures tree { IfOk result (λ ready. KeepsTree (self.new.patches ++ ready.patches) ready.tree) }
        ensures room { IfOk result (λ ready. length ready.patches ≤ self.new.room) }
    {
        self.make_room(merged.patches.len())?;
        let alloc = *self.patches.allocator();
        let patches = copy_patches(alloc, &merged.patches)?;
        let glances = glances_of(alloc, &patches)?;
        let names = copy_names(alloc, &patches)?;
        let tree = tree_after(alloc, &self.tree, merged)?;
        Ok(Ready {
            patches,
            glances,
            names,
            tree,
        })
    }

    /// Makes the room for as many patches more. The repository reads as before.
    fn make_room(&mut self, count: usize) -> Result<(), AllocError>
        ensures same { self.new.patches ≡ self.old.patches }
        ensures room { OnOk result (count ≤ self.new.room) }
    {
        self.patches.reserve(count)?;
        self.glances.reserve(count)?;
        self.names.reserve(count)?;
        Ok(())
    }

    /// A copy of the repository.
    pub(crate) fn copy_of<B: Allocator>(alloc: A, repo: &Repo<B>) -> Result<Repo<A>, AllocError>
        ensures { IfOk result (λ copy. copy.patches ≡ repo.now.patches) }
    {
        repo.lawful();
        let patches = copy_patches(alloc, repo.patches())?;
        let glances = glances_of(alloc, &patches)?;
        let names = index_of(alloc, &patches)?;
        let tree = repo.tree_copy(alloc)?;
        Ok(Repo {
            patches,
            glances,
            names,
            tree,
        })
    }
}

/// Puts a part into a tree, or in its place where it is the whole. Where memory runs out the tree is as it was.
fn replace_part<A: Allocator + Copy, B: Allocator>(
    tree: &mut Tree<A>,
    whole: bool,
    part: Tree<A>,
    paths: &[Path<B>],
) -> Result<(), AllocError>
    requires tops { AreTops paths.now }
    requires below { AreBelowRoot paths.now }
    requires lawful { (t : Map) → Puts paths.now (finmap.get tree.old) (finmap.get part) t → IsLawful t }
    ensures ok { OnOk result (ReplacesPart whole paths.now tree.old part tree.new) }
    ensures err { OnErr result (tree.new ≡ tree.old) }
{
    if whole {
        *tree = part;
        return Ok(());
    }
    tree.put_part(part, paths)
}

/// A copy of a repository's tree, into which the part of the tree after merged patches is put.
fn tree_after<A: Allocator + Copy, B: Allocator>(
    alloc: A,
    tree: &Tree<A>,
    merged: &Merged<B>,
) -> Result<Tree<A>, AllocError>
    requires tops { AreTops merged.now.paths.items }
    requires below { AreBelowRoot merged.now.paths.items }
    requires lawful { (t : Map) → Puts merged.now.paths.items (finmap.get tree.now) (finmap.get merged.now.part) t → IsLawful t }
    ensures { IfOk result (λ after. Puts merged.now.paths.items (finmap.get tree.now) (finmap.get merged.now.part) (finmap.get after)) }
{
    let mut after = tree.copy_into(alloc)?;
    let part = merged.part.copy_into(alloc)?;
    after.put_part(part, &merged.paths)?;
    Ok(after)
}

/// Copies of patches, under another allocator.
pub(crate) fn copy_patches<A: Allocator, B: Allocator + Copy>(
    alloc: B,
    patches: &[Named<A>],
) -> Result<Vec<Named<B>, B>, AllocError>
    ensures { IfOk result (λ copies. copies.items ≡ patches.now) }
{
    let mut copies = Vec::with_capacity(alloc, patches.len())?;
    for patch in patches {
        copies.push(patch.copy_into(alloc)?)?;
    }
    Ok(copies)
}

/// What each of these patches touches, at a glance.
fn glances_of<A: Allocator, B: Allocator + Copy>(
    alloc: B,
    patches: &[Named<A>],
) -> Result<Vec<Glance, B>, AllocError>
    ensures { IfOk result (λ glances. AreGlancesOf patches.now glances.items) }
{
    let mut glances = Vec::with_capacity(alloc, patches.len())?;
    for patch in patches {
        let touched = touch(alloc, patch.prims())?;
        let seen = touched.glance();
        glances.push(seen)?;
    }
    Ok(glances)
}
