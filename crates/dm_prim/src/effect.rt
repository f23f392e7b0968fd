//! What a primitive does to a tree.
ghost use Rattle.std.specs.Prelude.{◌≡◌, ◌≢◌, ◌↔◌, Some, Err, IfErr, IfNone, IfOk, IfSome, IsTrue, length};
ghost use Rattle.std.specs.FinMap as map;
ghost use Rattle.dm_tree.specs.Trees.{path_cmp, File, Lines as TreeLines};
ghost use Rattle.dm_prim.specs.Primitives.{AddFile, RmFile, AddDir, RmDir, At, Move};
ghost use Rattle.dm_prim.specs.Hunks.{hunk_of};
ghost use Rattle.dm_prim.specs.Binaries.{binary_of};
ghost use Rattle.dm_prim.specs.Replaces.{replace_of};
ghost use Rattle.dm_prim.specs.Prims.{prim_of, prims_of};
ghost use Rattle.dm_prim.specs.Applying.{Applied, AppliedAll, FaultsAs};
ghost use Rattle.dm_prim.specs.Turning.{TurnsBy};

use crate::binary::Binary;
use crate::hunk::Hunk;
use crate::primitive::Primitive;
use crate::replace::Replace;
use crate::turning::{TurnedFile, turn_lines};
use dm_tree::laws::tree_is_lawful;
use dm_tree::{Entry, Path, Tree, TreeFault};
use std::alloc::Allocator;

/// Changes the tree as the primitive says; after a fault it is as it was. The faults are those of
/// the tree's call that the primitive is. A change of a preference leaves the tree as it is, and has
/// no fault.
pub fn apply<A: Allocator + Copy, B: Allocator>(
    prim: &Primitive<B>,
    tree: &mut Tree<A>,
) -> Result<(), TreeFault>
    ensures change { Applied (prim_of prim.now) tree.old tree.new result }
    ensures fault { FaultsAs (prim_of prim.now) (map.get tree.old) result }
{
    match prim {
        Primitive::AddFile(path) => add_file(tree, path),
        Primitive::RmFile(path) => remove_file(tree, path),
        Primitive::AddDir(path) => add_dir(tree, path),
        Primitive::RmDir(path) => remove_dir(tree, path),
        Primitive::Move(from, to) => rename(tree, from, to),
        Primitive::Hunk(hunk) => edit(tree, hunk),
        Primitive::Binary(binary) => rewrite(tree, binary),
        Primitive::Replace(replace) => turn(tree, replace),
        Primitive::ChangePref(_) => Ok(()),
    }
}

/// Applies them in turn. After a fault at place k the tree is the one after the first k.
///
/// The list and the tree decide the answer, unless it runs out of memory
/// ([`laws::applying_a_list_has_one_answer`](crate::laws::applying_a_list_has_one_answer)).
pub fn apply_all<A: Allocator + Copy, B: Allocator>(
    prims: &[Primitive<B>],
    tree: &mut Tree<A>,
) -> Result<(), (usize, TreeFault)>
    ensures { AppliedAll (prims_of prims.now) tree.old tree.new result }
{
    for k in 0..prims.len() {
        if let Err(fault) = apply(&prims[k], tree) {
            return Err((k, fault));
        }
        tree_is_lawful(tree);
    }
    Ok(())
}

fn add_file<A: Allocator + Copy, B: Allocator>(
    tree: &mut Tree<A>,
    path: &Path<B>,
) -> Result<(), TreeFault>
    ensures change { Applied (At path.now AddFile) tree.old tree.new result }
    ensures fault { FaultsAs (At path.now AddFile) (map.get tree.old) result }
{
    tree.add_file(path)
}

fn remove_file<A: Allocator + Copy, B: Allocator>(
    tree: &mut Tree<A>,
    path: &Path<B>,
) -> Result<(), TreeFault>
    ensures change { Applied (At path.now RmFile) tree.old tree.new result }
    ensures fault { FaultsAs (At path.now RmFile) (map.get tree.old) result }
{
    tree.remove_file(path)
}

fn add_dir<A: Allocator + Copy, B: Allocator>(
    tree: &mut Tree<A>,
    path: &Path<B>,
) -> Result<(), TreeFault>
    ensures change { Applied (At path.now AddDir) tree.old tree.new result }
    ensures fault { FaultsAs (At path.now AddDir) (map.get tree.old) result }
{
    tree.add_dir(path)
}

fn remove_dir<A: Allocator + Copy, B: Allocator>(
    tree: &mut Tree<A>,
    path: &Path<B>,
) -> Result<(), TreeFault>
    ensures change { Applied (At path.now RmDir) tree.old tree.new result }
    ensures fault { FaultsAs (At path.now RmDir) (map.get tree.old) result }
{
    tree_is_lawful(tree);
    tree.remove_dir(path)
}

fn rename<A: Allocator + Copy, B: Allocator>(
    tree: &mut Tree<A>,
    from: &Path<B>,
    to: &Path<B>,
) -> Result<(), TreeFault>
    ensures change { Applied (Move from.now to.now) tree.old tree.new result }
    ensures fault { FaultsAs (Move from.now to.now) (map.get tree.old) result }
{
    tree_is_lawful(tree);
    tree.rename(from, to)
}

fn edit<A: Allocator + Copy, B: Allocator>(
    tree: &mut Tree<A>,
    hunk: &Hunk<B>,
) -> Result<(), TreeFault>
    ensures change { Applied (hunk_of hunk.now) tree.old tree.new result }
    ensures fault { FaultsAs (hunk_of hunk.now) (map.get tree.old) result }
{
    tree.edit(hunk.path(), hunk.line(), hunk.old(), hunk.new_lines())
}

/// Replaces all lines of a file. Where there are as many of them as old lines, an edit at the first
/// line replaces them all.
fn rewrite<A: Allocator + Copy, B: Allocator>(
    tree: &mut Tree<A>,
    binary: &Binary<B>,
) -> Result<(), TreeFault>
    ensures change { Applied (binary_of binary.now) tree.old tree.new result }
    ensures fault { FaultsAs (binary_of binary.now) (map.get tree.old) result }
{
    if has_other_count(tree, binary.path(), binary.old().len()) {
        return Err(TreeFault::OldDiffers);
    }
    tree.edit(binary.path(), 1, binary.old(), binary.new_lines())
}

/// Whether a file stands at the path that has another count of lines.
fn has_other_count<A: Allocator, B: Allocator>(tree: &Tree<A>, path: &Path<B>, count: usize) -> bool
    ensures { IsTrue result ↔ ((ls : TreeLines) × (map.get tree.now path.now ≡ Some (File ls)) × (length ls ≢ count)) }
{
    match tree.entry(path) {
        None => false,
        Some(Entry::Dir) => false,
        Some(Entry::File(file)) => file.count() != count,
    }
}

/// Turns all lines of a file. Where each stays as it is, nothing is written.
fn turn<A: Allocator + Copy, B: Allocator>(
    tree: &mut Tree<A>,
    replace: &Replace<B>,
) -> Result<(), TreeFault>
    ensures change { Applied (replace_of replace.now) tree.old tree.new result }
    ensures fault { FaultsAs (replace_of replace.now) (map.get tree.old) result }
{
    match turned_at(tree, replace)? {
        None => Ok(()),
        Some(turned) => tree.edit(replace.path(), 1, &turned.old, &turned.new),
    }
}

/// What the lines of the file turn to; none where each stays as it is.
fn turned_at<A: Allocator + Copy, B: Allocator>(
    tree: &Tree<A>,
    replace: &Replace<B>,
) -> Result<Option<TurnedFile<A>>, TreeFault>
    ensures same { IfOk result (λ t. IfNone t ((ls : TreeLines) × (map.get tree.now replace.now.path ≡ Some (File ls)) × TurnsBy replace.now.words ls ls)) }
    ensures turned { IfOk result (λ t. IfSome t (λ f. (map.get tree.now replace.now.path ≡ Some (File f.old)) × TurnsBy replace.now.words f.old f.new)) }
    ensures fault { IfErr result (λ e. FaultsAs {T = Unit {0}} (replace_of replace.now) (map.get tree.now) (Err e)) }
{
    match tree.entry(replace.path()) {
        None => Err(TreeFault::Missing),
        Some(Entry::Dir) => Err(TreeFault::NotFile),
        Some(Entry::File(file)) => turn_lines(&file, replace.tokens()),
    }
}
