//! The primitives that make a tree of the root alone.
ghost use Rattle.std.specs.Prelude.{◌≡◌, ◌++◌, ◌∷◌, [], IfOk};
ghost use Rattle.dm_tree.specs.Seen.{seen};
ghost use Rattle.dm_prim.specs.Prims.{prims_of};
ghost use Rattle.dm_begin.specs.Making.{filling, is_blank, making, tree_prims};

use dm_prim::{Hunk, Prim};
use dm_tree::{Entry, FileRef, Lines, Path, Tree};
use std::alloc::{AllocError, Allocator};

/// Whether the file is empty: it has one line, without a byte.
fn is_empty_file<A: Allocator>(file: &FileRef<'_, A>) -> bool
    ensures { result ≡ is_blank file.now }
{
    if file.count() > 1 {
        return false;
    }
    file.line(0).is_empty()
}

/// The one line that an empty file has.
fn empty_line<A: Allocator + Copy>(alloc: A) -> Result<Lines<A>, AllocError>
    ensures { IfOk result (λ lines. lines ≡ [] ∷ []) }
{
    let mut lines = Lines::new(alloc);
    lines.push_plain(b"")?;
    Ok(lines)
}

/// Copies of the lines of a file.
fn copy_lines<A: Allocator + Copy, B: Allocator>(
    alloc: A,
    file: &FileRef<'_, B>,
) -> Result<Lines<A>, AllocError>
    ensures { IfOk result (λ copy. copy ≡ file.now) }
{
    let mut copy = Lines::new(alloc);
    let mut lines = file.lines();
    while let Some(line) = lines.next() {
        copy.push_plain(line)?;
    }
    Ok(copy)
}

/// Appends the hunk that fills the file at a path, which was empty before; none for a file that stays empty.
fn push_filling<A: Allocator + Copy, B: Allocator>(
    alloc: A,
    path: Path<A>,
    file: &FileRef<'_, B>,
    prims: &mut Vec<Prim<A>, A>,
) -> Result<(), AllocError>
    ensures { IfOk result (λ _. prims_of prims.new.items ≡ prims_of prims.old.items ++ filling path file.now) }
{
    if is_empty_file(file) {
        return Ok(());
    }
    let old = empty_line(alloc)?;
    let new = copy_lines(alloc, file)?;
    match Hunk::new(path, 1, old, new) {
        Ok(hunk) => {
            prims.push(Prim::Hunk(hunk))?;
            Ok(())
        }
        Err(_) => unreachable!(),
    }
}

/// Appends the primitives that make what is there at a path.
fn push_making<A: Allocator + Copy, B: Allocator>(
    alloc: A,
    path: Path<A>,
    there: Entry<'_, B>,
    prims: &mut Vec<Prim<A>, A>,
) -> Result<(), AllocError>
    ensures { IfOk result (λ _. prims_of prims.new.items ≡ prims_of prims.old.items ++ making path (seen there.entry)) }
{
    match there {
        Entry::Dir => {
            prims.push(Prim::AddDir(path))?;
            Ok(())
        }
        Entry::File(file) => {
            prims.push(Prim::AddFile(path.copy_into(alloc)?))?;
            push_filling(alloc, path, &file, prims)
        }
    }
}

/// The primitives that make the tree, one directory or file after the other in the order of their paths.
pub(crate) fn prims_of_tree<A: Allocator + Copy, B: Allocator>(
    alloc: A,
    tree: &Tree<B>,
) -> Result<Vec<Prim<A>, A>, AllocError>
    ensures { IfOk result (λ prims. prims_of prims.items ≡ tree_prims tree.now) }
{
    let mut prims = Vec::new(alloc);
    for row in tree.listing(alloc)? {
        match tree.entry(&row.path) {
            None => unreachable!(),
            Some(there) => push_making(alloc, row.path, there, &mut prims)?,
        }
    }
    Ok(prims)
}
