//! The context of a mirror, which `dm log --context` prints.
ghost use Rattle.std.specs.Prelude.{IfOk};
ghost use Rattle.dm_commands.specs.Naming.{NamesFromTag};

use dm_log::{Patches, write_context};
use dm_named::Named;
use dm_repo::Repo;
use std::alloc::{AllocError, Global};

/// Patches that stand in memory one behind the other.
#[derive(Clone, Copy)]
struct Later<'a> {
    patches: &'a [Named<Global>],
}

impl<'a> Patches for Later<'a> {
    type Memory = Global;

    ghost patches = { λ later. later.patches.now };

    fn count(&self) -> usize {
        self.patches.len()
    }

    fn at(&self, i: usize) -> &Named<Global> {
        &self.patches[i]
    }
}

/// The context of a repository whose first patches, so many of them, are its base. If it begins at a tag, that is the first name, as with `darcs log --context`: `darcs send` makes
/// what rests on the tag of that alone.
pub fn context_of(alloc: Global, repo: &Repo<Global>, base: usize) -> Result<Vec<u8>, AllocError>
    ensures { IfOk result (λ text. NamesFromTag repo.now.patches base text.items) }
{
    let patches = repo.patches();
    let first = base.saturating_sub(1).min(patches.len());
    let later = Later {
        patches: &patches[first..],
    };
    write_context(alloc, &later)
}
