//! What is written for an entry of a tree.
ghost use Rattle.std.specs.Prelude.{◌≡◌, IfOk, Some};
ghost use Rattle.std.specs.FinMap as map;
ghost use Rattle.dm_checkout.specs.Places.{place_text};
ghost use Rattle.dm_checkout.specs.Contents.{IsContent, file_text};

use crate::place::place_of;
use dm_tree::{Entry, FileRef, Path, Tree};
use std::alloc::{AllocError, Allocator, Global};

/// What is written at a place.
#[derive(Drop)]
pub enum Content {
    /// A folder.
    Folder,
    /// A file of these bytes.
    File(Vec<u8>),
}

/// What is written, and where.
#[derive(Drop)]
pub struct Item {
    /// Where: a text in UTF-8 if the names of the path are.
    pub place: Vec<u8>,
    /// What; nothing for a path at which the tree has nothing.
    pub content: Option<Content>,
}

/// The bytes of a file.
fn bytes_of<A: Allocator>(alloc: Global, file: &FileRef<'_, A>) -> Result<Vec<u8>, AllocError>
    ensures { IfOk result (λ bytes. bytes.items ≡ file_text file.now) }
{
    let mut bytes = Vec::new(alloc);
    for i in 0..file.count() {
        if i > 0 {
            bytes.push(b'\n')?;
        }
        bytes.extend_from_slice(file.line(i))?;
    }
    Ok(bytes)
}

fn content_of<A: Allocator, B: Allocator>(
    alloc: Global,
    tree: &Tree<A>,
    path: &Path<B>,
) -> Result<Option<Content>, AllocError>
    ensures { IfOk result (IsContent (map.get tree.now path.now)) }
{
    match tree.entry(path) {
        None => Ok(None),
        Some(Entry::Dir) => Ok(Some(Content::Folder)),
        Some(Entry::File(file)) => {
            let bytes = bytes_of(alloc, &file)?;
            Ok(Some(Content::File(bytes)))
        }
    }
}

/// What a checkout writes for a path of the tree: a folder for a directory, and for a file its lines with a newline
/// between each two.
pub fn item_of<A: Allocator, B: Allocator>(
    alloc: Global,
    tree: &Tree<A>,
    folder: &str,
    path: &Path<B>,
) -> Result<Item, AllocError>
    ensures place { IfOk result (λ item. item.place.items ≡ place_text folder.now path.now) }
    ensures content { IfOk result (λ item. IsContent (map.get tree.now path.now) item.content) }
{
    let place = place_of(alloc, folder, path)?;
    let content = content_of(alloc, tree, path)?;
    Ok(Item { place, content })
}
