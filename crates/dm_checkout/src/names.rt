//! Names that other programs obey.
ghost use Rattle.std.specs.Prelude.{◌≡◌, IfOk};
ghost use Rattle.dm_checkout.specs.Names.{has_obeyed, is_obeyed, obeys};

use crate::seen::{is_taken_for, seen_of};
use dm_tree::Path;
use std::alloc::{AllocError, Allocator, Global};

/// Which names a checkout writes.
#[derive(Clone, Copy, Debug, PartialEq, Eq)]
pub enum Names {
    /// None that other programs obey, and no folder that git takes for a repository: a tree with one is refused.
    Safe,
    /// All.
    All,
}

/// Whether what is compared of a name is what another program obeys.
fn obeys(seen: &[u8]) -> bool
    ensures { result ≡ obeys seen.now }
{
    // Git: its settings and hooks name commands, and `git status` runs some.
    is_taken_for(b".git", seen)
        // Mercurial: likewise.
        || is_taken_for(b".hg", seen)
        // Subversion: its settings name servers and commands.
        || is_taken_for(b".svn", seen)
        // Bazaar: likewise.
        || is_taken_for(b".bzr", seen)
        // Darcs: its settings name commands to run after others. A path never has this name in lower case.
        || is_taken_for(b"_darcs", seen)
        // Jujutsu: likewise.
        || is_taken_for(b".jj", seen)
        // direnv: what a shell runs on its way into the folder.
        || is_taken_for(b".envrc", seen)
        // The short names that Windows gives them, where they don't fit into eight letters and three.
        || is_taken_for(b"git~1", seen)
        || is_taken_for(b"hg~1", seen)
        || is_taken_for(b"svn~1", seen)
        || is_taken_for(b"bzr~1", seen)
        || is_taken_for(b"jj~1", seen)
        || is_taken_for(b"envrc~1", seen)
}

/// Whether another program runs commands from what stands under this name, or takes its settings from there.
fn is_obeyed(alloc: Global, name: &[u8]) -> Result<bool, AllocError>
    ensures { IfOk result (λ obeyed. obeyed ≡ is_obeyed name.now) }
{
    let seen = seen_of(alloc, name)?;
    Ok(obeys(&seen))
}

/// Whether a name of the path is such a name.
pub(crate) fn has_obeyed<A: Allocator>(alloc: Global, path: &Path<A>) -> Result<bool, AllocError>
    ensures { IfOk result (λ obeyed. obeyed ≡ has_obeyed path.now) }
{
    for i in 0..path.len() {
        if is_obeyed(alloc, path.part(i))? {
            return Ok(true);
        }
    }
    Ok(false)
}
