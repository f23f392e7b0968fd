//! The content of a file.
ghost use Rattle.std.specs.Prelude.{◌≡◌, ◌↔◌, ◌⊎◌, IfOk, IfErr, IsTrue};
ghost use Rattle.dm_named.specs.Canonical.{path_text};
ghost use Rattle.dm_c.specs.Calls.{GivesOf};
ghost use Rattle.dm_c.specs.Files.{IsContentOf, IsFileAt, IsFileIn, IsNoFileAt, IsNoFileAmong};
ghost use Rattle.dm_c.specs.Handles.{held};

use crate::buffer::give_text;
use crate::handle::Handle;
use crate::status::Status;
use dm_checkout::{Content, Item, item_of};
use dm_named::write_path;
use dm_repo::Repo;
use dm_tree::{Listed, Path, Tree};
use std::alloc::{AllocError, Global};

/// Whether a path has this text.
fn is_spelled(alloc: Global, path: &Path<Global>, text: &[u8]) -> Result<bool, AllocError>
    ensures { IfOk result (λ yes. IsTrue yes ↔ (path_text path.now ≡ text.now)) }
{
    let mut spelled = Vec::new(alloc);
    write_path(path, &mut spelled)?;
    Ok(spelled.as_slice() == text)
}

/// The content of the file at a path that has this text.
fn content_of(
    alloc: Global,
    tree: &Tree<Global>,
    path: &Path<Global>,
    text: &[u8],
) -> Result<Option<Vec<u8>>, AllocError>
    ensures { IfOk result (IsContentOf tree.now path.now text.now) }
{
    if !is_spelled(alloc, path, text)? {
        return Ok(None);
    }
    let Item { content, .. } = item_of(alloc, tree, "", path)?;
    match content {
        Some(Content::File(bytes)) => Ok(Some(bytes)),
        _ => Ok(None),
    }
}

/// The content of the file whose path has this text, among rows of the tree's listing.
fn file_among(
    alloc: Global,
    tree: &Tree<Global>,
    rows: &[Listed<Global>],
    text: &[u8],
) -> Result<Vec<u8>, Status>
    ensures ok { IfOk result (λ bytes. IsFileIn tree.now text.now bytes.items) }
    ensures err { IfErr result (λ why. (why ≡ Status.NoMemory) ⊎ ((why ≡ Status.Nothing) × IsNoFileAmong tree.now text.now rows.now)) }
{
    for row in rows {
        if let Some(bytes) = content_of(alloc, tree, &row.path, text)? {
            return Ok(bytes);
        }
    }
    Err(Status::Nothing)
}

/// The content of the file whose path has this text.
fn file(alloc: Global, repo: &Repo<Global>, text: &[u8]) -> Result<Vec<u8>, Status>
    ensures ok { IfOk result (λ bytes. IsFileAt text.now repo.now.patches bytes.items) }
    ensures err { IfErr result (λ why. (why ≡ Status.NoMemory) ⊎ IsNoFileAt text.now repo.now.patches why) }
{
    let tree = repo.tree();
    let rows = tree.listing(alloc)?;
    file_among(alloc, tree, &rows, text)
}

/// `dm_repo_file`: the content of a file, whose path is as the listing has it.
#[unsafe(no_mangle)]
pub extern "C" fn dm_repo_file(
    alloc: Global,
    repo: &mut Handle,
    path: &[u8],
    out: &mut [u8],
    needed: &mut usize,
) -> u32
    ensures same { held repo.new ≡ held repo.old }
    ensures text { GivesOf (IsFileAt path.now) (IsNoFileAt path.now) (held repo.old) out.old out.new needed.old needed.new result }
{
    let Some(inside) = repo.take_out(alloc) else {
        return Status::NoRepo.number();
    };
    let text = file(alloc, &inside, path);
    repo.put(inside);
    give_text(text, out, needed)
}
