//! What holds of all places and of all trees, by the definitions alone. A call does nothing.
ghost use Rattle.dm_checkout.specs.Places.{EachStaysInside};
ghost use Rattle.dm_checkout.specs.Order.{EachOnce, ParentsFirst};

use dm_tree::Tree;
use dm_tree::laws::tree_is_lawful;
use std::alloc::Allocator;

/// A place lies in its folder: cut at its slashes, what follows the folder is the names of the path, and none of them is empty, `.` or
/// `..`.
pub fn each_stays_inside()
    ensures { EachStaysInside }
{}

/// Before each entry that a checkout makes comes the directory which it is right inside, if that isn't the root; and no path comes
/// twice.
pub fn parents_come_first<A: Allocator>(tree: &Tree<A>)
    ensures first { ParentsFirst tree.now }
    ensures once { EachOnce tree.now }
{
    tree_is_lawful(tree)
}
