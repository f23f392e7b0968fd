//! A folder as a tree.
ghost use Rattle.std.specs.Prelude.{IfOk, IfErr};
ghost use Rattle.dm_folder.specs.Keeps.{Keeps};
ghost use Rattle.dm_folder.specs.Reads.{HasFault, Reads};

use crate::building::build;
use crate::fault::FolderFault;
use crate::source::Source;
use crate::walking::{Special, Walk, walk_folder};
use dm_tree::Tree;
use std::alloc::Global;

/// The tree of a folder: a directory for each directory, and for each file a file of the lines that its newlines part.
///
/// Without what is called `_darcs` right inside it, and, where they are to be skipped, without what is neither a directory nor a file.
/// Errors: [`FolderFault::Unread`] of the first directory that can't be read, [`FolderFault::Refused`] with all that no tree may have,
/// [`FolderFault::Unread`] of the first file that can't be read or changes meanwhile, [`FolderFault::Misplaced`] where the source tells a
/// place twice.
pub fn read_folder<S: Source>(
    alloc: Global,
    source: &mut S,
    top: &str,
    special: Special,
) -> Result<Tree<Global>, FolderFault>
    ensures ok { IfOk result (Reads (S.Lists source.new) (S.Holds source.new) special top.now) }
    ensures err { IfErr result (HasFault (S.Lists source.new) (S.Holds source.new) (S.Fails source.new) special top.now) }
    ensures keeps { Keeps (S.Lists source.old) (S.Lists source.new) (S.Holds source.old) (S.Holds source.new) (S.Fails source.old) (S.Fails source.new) }
{
    let Walk { rows, refused } = walk_folder(alloc, source, top, special)?;
    if !refused.is_empty() {
        return Err(FolderFault::Refused(refused));
    }
    build(alloc, source, top, &rows)
}
