//! The change of a range of a file's lines.
ghost use Rattle.std.specs.Prelude.{◌≡◌, ◌+◌, ◌-◌, ◌<◌, ◌^◌, length, IfNone, OnOk, OnErr};
ghost use Rattle.dm_tree.specs.Children.{IsRising, look};
ghost use Rattle.dm_tree.specs.Validity.{ArePlain};
ghost use Rattle.dm_tree.specs.Walks.{CanSplice, RefusesEdit, SetsAt, spliced};

use crate::bytes::Bytes;
use crate::fault::TreeFault;
use crate::file::File;
use crate::node::{Body, Node, place};
use crate::text::Text;
use std::alloc::{AllocError, Allocator};

/// The first fault of an edit of this file.
pub(crate) fn edit_refused<A: Allocator, B: Allocator, C: Allocator>(
    file: &File<A>,
    line: u32,
    old: &Text<B>,
    new: &Text<C>,
) -> Option<TreeFault>
    ensures fault { RefusesEdit file.now line old.now new.now result }
    ensures fits { IfNone result (line - 1 + length old.now < 2 ^ 64) }
{
    if line == 0 {
        return Some(TreeFault::LineRange);
    }
    let start = (line - 1) as usize;
    let count = file.len();
    if count < start {
        return Some(TreeFault::LineRange);
    }
    if count - start < old.len() {
        return Some(TreeFault::LineRange);
    }
    if !file.begins(start, old) {
        return Some(TreeFault::OldDiffers);
    }
    if old.len() == count && new.is_empty() {
        return Some(TreeFault::NoLines);
    }
    None
}

/// Puts fresh lines in place of a file's lines from `start` to before `end`.
pub(crate) fn edit_at<A: Allocator + Copy, B: Allocator, C: Allocator>(
    children: &mut Vec<Node<A>, A>,
    path: &[Bytes<B>],
    start: usize,
    end: usize,
    fresh: &Text<C>,
) -> Result<(), AllocError>
    requires nonempty { 0 < length path.now }
    requires rising { IsRising children.old.items }
    requires may { CanSplice (look children.old.items path.now) start end fresh.now }
    requires plain { ArePlain fresh.now }
    ensures rising { IsRising children.new.items }
    ensures ok { OnOk result (SetsAt (look children.old.items) (look children.new.items) path.now (spliced (look children.old.items path.now) start end fresh.now)) }
    ensures err { OnErr result (children.new.items ≡ children.old.items) }
{
    let Some((name, rest)) = path.split_first() else {
        unreachable!()
    };
    let Ok(i) = place(children, name.as_slice()) else {
        unreachable!()
    };
    let child = &mut children[i];
    match &mut child.body {
        Body::Children(inner) => {
            if rest.is_empty() {
                unreachable!()
            }
            edit_at(inner, rest, start, end, fresh)
        }
        Body::Text(file) => {
            if !rest.is_empty() {
                unreachable!()
            }
            file.splice(start, end, fresh)
        }
    }
}
