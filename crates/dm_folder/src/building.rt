//! The tree of what a folder has.
ghost use Rattle.std.specs.Prelude.{◌≡◌, ◌≢◌, ◌∷◌, [], IfOk, IfErr, OnOk};
ghost use Rattle.std.specs.FinMap as map;
ghost use Rattle.dm_tree.specs.Trees.{Entry, File};
ghost use Rattle.dm_tree.specs.Changes.{AddAnswers};
ghost use Rattle.dm_folder.specs.Walks.{rows_in};
ghost use Rattle.dm_folder.specs.Builds.{IsBuilt, IsHeld, is_dir};
ghost use Rattle.dm_folder.specs.Keeps.{Keeps};
ghost use Rattle.dm_folder.specs.Faults.{IsBuildFault, IsRowFault, IsTreeFault};

use crate::cutting::lines_of;
use crate::fault::FolderFault;
use crate::row::Row;
use crate::source::Source;
use dm_checkout::{Place, place_of};
use dm_tree::{Lines, Path, Tree, TreeFault};
use std::alloc::{AllocError, Global};

/// The tree of these directories and files, whose bytes are asked for.
pub(crate) fn build<S: Source>(
    alloc: Global,
    source: &mut S,
    top: &str,
    rows: &[Row],
) -> Result<Tree<Global>, FolderFault>
    ensures ok { IfOk result (IsBuilt (S.Holds source.new) top.now (rows_in rows.now)) }
    ensures err { IfErr result (IsBuildFault (S.Holds source.new) (S.Fails source.new) top.now (rows_in rows.now)) }
    ensures keeps { Keeps (S.Lists source.old) (S.Lists source.new) (S.Holds source.old) (S.Holds source.new) (S.Fails source.old) (S.Fails source.new) }
{
    let mut tree = Tree::new(alloc);
    for row in rows {
        add_row(alloc, source, top, &mut tree, row)?;
    }
    Ok(tree)
}

/// Adds a directory, or a file and its lines.
fn add_row<S: Source>(
    alloc: Global,
    source: &mut S,
    top: &str,
    tree: &mut Tree<Global>,
    row: &Row,
) -> Result<(), FolderFault>
    ensures ok { OnOk result ((e : Entry) × (is_dir e ≡ row.now.is_dir) × IsHeld (S.Holds source.new) top.now (row.now.path, e) × (map.get tree.old row.now.path ≡ None) × (tree.new ≡ map.insert tree.old row.now.path e)) }
    ensures err { IfErr result (IsRowFault (S.Fails source.new) top.now tree.old row.now.path) }
    ensures keeps { Keeps (S.Lists source.old) (S.Lists source.new) (S.Holds source.old) (S.Holds source.new) (S.Fails source.old) (S.Fails source.new) }
{
    let place = place_of(alloc, top, &row.path)?;
    if row.is_dir {
        return match tree.add_dir(&row.path) {
            Ok(()) => Ok(()),
            Err(fault) => Err(misplaced(fault, place)),
        };
    }
    let lines = match source.read(&place) {
        Ok(bytes) => lines_of(alloc, &bytes)?,
        Err(trouble) => return Err(FolderFault::Unread(Place { bytes: place }, trouble)),
    };
    match add_file(alloc, tree, &row.path, &lines) {
        Ok(()) => Ok(()),
        Err(fault) => Err(misplaced(fault, place)),
    }
}

/// Adds a file of these lines.
fn add_file(
    alloc: Global,
    tree: &mut Tree<Global>,
    path: &Path<Global>,
    lines: &Lines<Global>,
) -> Result<(), TreeFault>
    requires { lines.now ≢ [] }
    ensures fault { AddAnswers (map.get tree.old) path.now result }
    ensures ok { OnOk result (tree.new ≡ map.insert tree.old path.now (File lines.now)) }
{
    tree.add_file(path)?;
    let empty = empty_file(alloc)?;
    tree.edit(path, 1, &empty, lines)?;
    Ok(())
}

/// The one line of an empty file.
fn empty_file(alloc: Global) -> Result<Lines<Global>, AllocError>
    ensures { IfOk result (λ lines. lines ≡ [] ∷ []) }
{
    let mut lines = Lines::new(alloc);
    lines.push_plain(b"")?;
    Ok(lines)
}

/// The fault of a place at which a tree takes nothing.
fn misplaced(fault: TreeFault, place: Vec<u8>) -> FolderFault
    ensures { IsTreeFault fault place.items result }
{
    match fault {
        TreeFault::NoMemory => FolderFault::NoMemory,
        _ => FolderFault::Misplaced(Place { bytes: place }),
    }
}
