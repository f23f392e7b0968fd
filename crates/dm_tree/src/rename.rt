//! The checks before a path is added or moved, and the move of a node with all inside it.
ghost use Rattle.std.specs.Prelude.{◌≡◌, ◌<◌, ◌≤◌, length, OnOk, OnErr};
ghost use Rattle.dm_tree.specs.Trees.{IsLawful};
ghost use Rattle.dm_tree.specs.Changes.{MayMove, Renamed, RenameAnswers};
ghost use Rattle.dm_tree.specs.Children.{IsRising, flatten, look};
ghost use Rattle.dm_tree.specs.Limits.{most_names};
ghost use Rattle.dm_tree.specs.Nested.{under_of};
ghost use Rattle.dm_tree.specs.Walks.{RefusesAdd, are_short};

use crate::bytes::Bytes;
use crate::fault::TreeFault;
use crate::limits::MOST_NAMES;
use crate::node::{Body, Leaf, Node, add, cut, find, is_dir, put};
use crate::path::begins;
use std::alloc::{AllocError, Allocator};

/// The first fault of adding something at the path.
pub(crate) fn add_refused<A: Allocator, B: Allocator>(
    children: &[Node<A>],
    path: &[Bytes<B>],
) -> Option<TreeFault>
    requires nonempty { 0 < length path.now }
    requires rising { IsRising children.now }
    ensures { RefusesAdd (look children.now) path.now result }
{
    let Some((_, above)) = path.split_last() else {
        unreachable!()
    };
    if !is_dir(children, above) {
        return Some(TreeFault::NoParent);
    }
    if find(children, path).is_some() {
        return Some(TreeFault::Occupied);
    }
    None
}

/// Whether what is at one path may move to the other.
pub(crate) fn rename_allowed<A: Allocator, B: Allocator, C: Allocator>(
    children: &[Node<A>],
    from: &[Bytes<B>],
    to: &[Bytes<C>],
) -> Result<(), TreeFault>
    requires from_named { 0 < length from.now }
    requires to_named { 0 < length to.now }
    requires not_deep { length to.now ≤ most_names }
    requires rising { IsRising children.now }
    ensures { RenameAnswers (look children.now) from.now to.now result }
{
    let Some(body) = find(children, from) else {
        return Err(TreeFault::Missing);
    };
    if begins(to, from) {
        return Err(TreeFault::IntoItself);
    }
    if let Some(fault) = add_refused(children, to) {
        return Err(fault);
    }
    if !is_short(body, MOST_NAMES - to.len()) {
        return Err(TreeFault::TooDeep);
    }
    Ok(())
}

/// Whether no path inside these children has more than `room` names.
#[cycle(short)]
fn are_short<A: Allocator>(children: &[Node<A>], room: usize) -> bool
    ensures { result ≡ are_short room (flatten children.now) }
{
    for child in children {
        if room == 0 {
            return false;
        }
        if !is_short(&child.body, room - 1) {
            return false;
        }
    }
    true
}

#[cycle(short)]
fn is_short<A: Allocator>(body: &Body<A>, room: usize) -> bool
    ensures { result ≡ are_short room (under_of body.now) }
{
    match body {
        Body::Text(_) => true,
        Body::Children(children) => are_short(children, room),
    }
}

/// Moves what stands at one path, with all inside it, to another: a directory is added at the new
/// place, which is all that may want memory, and then gives its place to the node.
pub(crate) fn move_node<A: Allocator + Copy, B: Allocator, C: Allocator>(
    children: &mut Vec<Node<A>, A>,
    alloc: A,
    from: &[Bytes<B>],
    to: &[Bytes<C>],
) -> Result<(), AllocError>
    requires from_named { 0 < length from.now }
    requires to_named { 0 < length to.now }
    requires rising { IsRising children.old.items }
    requires lawful { IsLawful (look children.old.items) }
    requires may { MayMove (look children.old.items) from.now to.now }
    ensures rising { IsRising children.new.items }
    ensures ok { OnOk result (Renamed from.now to.now (look children.old.items) (look children.new.items)) }
    ensures err { OnErr result (children.new.items ≡ children.old.items) }
{
    add(children, alloc, to, Leaf::Folder)?;
    let body = cut(children, from);
    put(children, to, body);
    Ok(())
}
