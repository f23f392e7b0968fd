//! Folders that git takes for a repository of its own.
ghost use Rattle.std.specs.Prelude.{◌≡◌, ◌-◌, [], List, ℕ, length, map, take, IfOk};
ghost use Rattle.std.specs.BTreeSet.{contains_text};
ghost use Rattle.std.specs.String.{string_bytes};
ghost use Rattle.dm_checkout.specs.Places.{place_text};
ghost use Rattle.dm_checkout.specs.Repositories.{AreParts, TellsHead, folder_text, has_beside, has_inside, is_called};

use crate::seen::{is_taken_for, seen_of};
use dm_tree::{Listed, Path};
use std::alloc::{AllocError, Allocator, Global};
use std::collections::BTreeSet;

/// The folders that have what git looks for beside a `HEAD`.
#[derive(Drop)]
pub(crate) struct Parts {
    objects: BTreeSet<String>,
    refs: BTreeSet<String>,
    common_dirs: BTreeSet<String>,
}

impl Parts {
    pub(crate) fn of<A: Allocator>(alloc: Global, rows: &[Listed<A>]) -> Result<Parts, AllocError>
        ensures { IfOk result (AreParts (map (λ row. row.path) rows.now)) }
    {
        let objects = folders_with(alloc, rows, b"objects")?;
        let refs = folders_with(alloc, rows, b"refs")?;
        let common_dirs = folders_with(alloc, rows, b"commondir")?;
        Ok(Parts {
            objects,
            refs,
            common_dirs,
        })
    }

    /// Whether what stands at the path is the `HEAD` of what git takes for a repository.
    pub(crate) fn is_head<A: Allocator>(
        &self,
        alloc: Global,
        path: &Path<A>,
    ) -> Result<bool, AllocError>
        ensures { IfOk result (TellsHead self.now path.now) }
    {
        if is_called(alloc, b"head", path)? {
            let folder = folder_of(alloc, path)?;
            return Ok(self.has_beside(folder.as_str()));
        }
        Ok(false)
    }

    /// Whether the folder has what git looks for beside a `HEAD`.
    fn has_beside(&self, folder: &str) -> bool
        ensures { result ≡ has_beside self.now folder.now }
    {
        self.common_dirs.contains(folder)
            || (self.objects.contains(folder) && self.refs.contains(folder))
    }
}

/// The folder that the path lies right inside.
fn folder_of<A: Allocator>(alloc: Global, path: &Path<A>) -> Result<String, AllocError>
    ensures { IfOk result (λ folder. string_bytes folder ≡ folder_text path.now) }
{
    let mut place = Vec::new(alloc);
    for i in 0..path.len().saturating_sub(1) {
        place.push(b'/')?;
        place.extend_from_slice(path.part(i))?;
    }
    String::from_utf8_lossy(alloc, &place)
}

/// Whether the last name of the path is taken for the word.
fn is_called<A: Allocator>(alloc: Global, word: &[u8], path: &Path<A>) -> Result<bool, AllocError>
    ensures { IfOk result (λ called. called ≡ is_called word.now path.now) }
{
    let seen = seen_of(alloc, path.part(path.len() - 1))?;
    Ok(is_taken_for(word, &seen))
}

/// The folders with something right inside them that is called so.
fn folders_with<A: Allocator>(
    alloc: Global,
    rows: &[Listed<A>],
    word: &[u8],
) -> Result<BTreeSet<String>, AllocError>
    ensures { IfOk result (λ folders. (folder : List ℕ) → contains_text folders folder ≡ has_inside word.now (map (λ row. row.path) rows.now) folder) }
{
    let mut folders = BTreeSet::new(alloc);
    for row in rows {
        if is_called(alloc, word, &row.path)? {
            folders.insert(folder_of(alloc, &row.path)?)?;
        }
    }
    Ok(folders)
}
