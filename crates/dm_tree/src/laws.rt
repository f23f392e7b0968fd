//! What is true of every tree, and of every answer. The calls do nothing; their contracts are the laws.
ghost use Rattle.std.specs.FinMap as map;
ghost use Rattle.dm_tree.specs.Trees.{Deep, IsLawful};
ghost use Rattle.dm_tree.specs.Laws.{AddingHasOneAnswer, EditingHasOneAnswer, LineHasOneFault, NamesHaveOneFault, RemovingADirectoryHasOneAnswer, RemovingAFileHasOneAnswer, RenamingHasOneAnswer};

use crate::tree::Tree;
use std::alloc::Allocator;

/// The root of a tree is a directory, what holds something is a directory, a file has a line, and
/// no path has more than 32 names.
pub fn tree_is_lawful<A: Allocator>(tree: &Tree<A>)
    ensures lawful { IsLawful (map.get tree.now) }
    ensures shallow { Deep (map.get tree.now) → ⊥ }
{
    tree.lawful()
}

/// Names have at most one fault as a path.
pub fn names_have_one_fault()
    ensures { NamesHaveOneFault }
{}

/// A line has at most one fault.
pub fn a_line_has_one_fault()
    ensures { LineHasOneFault }
{}

/// What stands there decides whether an entry may be added at a path, and why not.
pub fn adding_has_one_answer()
    ensures { AddingHasOneAnswer }
{}

/// What stands there decides whether the file at a path may be removed, and why not.
pub fn removing_a_file_has_one_answer()
    ensures { RemovingAFileHasOneAnswer }
{}

/// What stands there decides whether the directory at a path may be removed, and why not.
pub fn removing_a_directory_has_one_answer()
    ensures { RemovingADirectoryHasOneAnswer }
{}

/// What stands there decides whether one path may be moved to another, and why not.
pub fn renaming_has_one_answer()
    ensures { RenamingHasOneAnswer }
{}

/// What stands there decides whether the lines of a file may be replaced, and why not.
pub fn editing_has_one_answer()
    ensures { EditingHasOneAnswer }
{}
