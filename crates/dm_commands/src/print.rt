//! What is printed: a verdict, and what is shown of a repository.
ghost use Rattle.std.specs.Prelude.{◌≡◌, ◌++◌, List, ℕ, IfOk, OnOk};
ghost use Rattle.dm_commands.specs.Applying.{Prints, Shows};

use dm_bundle::push_bundle;
use dm_repo::Repo;
use dm_scratch::{Verdict, push_listing, push_verdict};
use std::alloc::{AllocError, Global};

/// Appends what is shown of a repository: its canonical bundle with an empty context, or the listing of its tree.
pub fn push_repo(repo: &Repo<Global>, as_bundle: bool, out: &mut Vec<u8>) -> Result<(), AllocError>
    ensures { OnOk result ((shown : List ℕ) × Shows as_bundle repo.now.patches shown × (out.new.items ≡ out.old.items ++ shown)) }
{
    if as_bundle {
        push_bundle(repo.patches(), &[], out)?;
        return Ok(());
    }
    push_listing(repo.tree(), out)?;
    Ok(())
}

/// What is printed for a verdict: its line, and what is shown of the repository.
pub fn answer_text(
    alloc: Global,
    verdict: Verdict,
    repo: &Repo<Global>,
    as_bundle: bool,
) -> Result<Vec<u8>, AllocError>
    ensures { IfOk result (λ text. Prints as_bundle verdict repo.now.patches text.items) }
{
    let mut text = Vec::new(alloc);
    push_verdict(verdict, &mut text)?;
    push_repo(repo, as_bundle, &mut text)?;
    Ok(text)
}
