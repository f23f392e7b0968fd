//! The entries of a tree, one by one.
ghost use Rattle.std.specs.Prelude.{◌≡◌, ◌∷◌, ◌++◌, [], IfOk};
ghost use Rattle.dm_tree.specs.Children.{IsRising, all, below, flatten};
ghost use Rattle.dm_tree.specs.Walks.{AreValid, InOrder, listed};

use crate::bytes::{Bytes, copy_all};
use crate::node::{Body, Node};
use crate::path::Path;
use std::alloc::{AllocError, Allocator};

/// What a listing says of an entry.
#[derive(Clone, Copy, Debug, PartialEq, Eq)]
pub enum Kind {
    /// A directory.
    Dir,
    /// A file, with its size in bytes.
    File(u128),
}

/// A row of a listing; it owns its path.
#[derive(Drop)]
pub struct Listed<A: Allocator> {
    /// The path of the entry.
    pub path: Path<A>,
    /// What stands there.
    pub kind: Kind,
}

/// The path of an entry right inside the directory of the given path.
fn path_under<B: Allocator + Copy>(
    alloc: B,
    above: &[Bytes<B>],
    name: &[u8],
) -> Result<Vec<Bytes<B>, B>, AllocError>
    ensures { IfOk result (λ v. v.items ≡ above.now ++ name.now ∷ []) }
{
    let mut names = copy_all(alloc, above)?;
    names.push(Bytes::from_slice(alloc, name)?)?;
    Ok(names)
}

/// Lists an entry, and then what is inside it.
#[cycle(list)]
fn list_node<A: Allocator, B: Allocator + Copy>(
    alloc: B,
    node: &Node<A>,
    above: &[Bytes<B>],
    out: &mut Vec<Listed<B>, B>,
) -> Result<(), AllocError>
    requires valid { AreValid above.now (below node.now.name (all node.now)) }
    ensures ok { IfOk result (λ _. out.new.items ≡ out.old.items ++ listed above.now (below node.now.name (all node.now))) }
    ensures sorted { IfOk result (λ _. InOrder (all node.now)) }
{
    match &node.body {
        Body::Text(file) => {
            let names = path_under(alloc, above, node.name())?;
            let kind = Kind::File(file.bytes());
            out.push(Listed {
                path: Path::from_names(names),
                kind,
            })?;
            Ok(())
        }
        Body::Children(children) => {
            let names = path_under(alloc, above, node.name())?;
            let path = Path::from_names(copy_all(alloc, &names)?);
            out.push(Listed {
                path,
                kind: Kind::Dir,
            })?;
            list_children(alloc, children, &names, out)
        }
    }
}

/// Lists the children of the directory of the given path, each with what is inside it.
#[cycle(list)]
pub(crate) fn list_children<A: Allocator, B: Allocator + Copy>(
    alloc: B,
    children: &[Node<A>],
    above: &[Bytes<B>],
    out: &mut Vec<Listed<B>, B>,
) -> Result<(), AllocError>
    requires rising { IsRising children.now }
    requires valid { AreValid above.now (flatten children.now) }
    ensures ok { IfOk result (λ _. out.new.items ≡ out.old.items ++ listed above.now (flatten children.now)) }
    ensures sorted { IfOk result (λ _. InOrder (flatten children.now)) }
{
    for child in children {
        list_node(alloc, child, above, out)?;
    }
    Ok(())
}
