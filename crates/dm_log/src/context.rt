//! The context of a repository, as `darcs send --context` reads it.
ghost use Rattle.std.specs.Prelude.{◌≡◌, IfOk};
ghost use Rattle.dm_bundle.specs.Patches.{infos_of};
ghost use Rattle.dm_log.specs.Contexts.{context_text};

use crate::patches::Patches;
use dm_info::push_info;
use std::alloc::{AllocError, Allocator};

/// What `darcs log --context` prints of these patches, but that it names all of them, where Darcs stops at the last tag that
/// covers what is before it.
pub fn write_context<B: Allocator, P: Patches>(
    alloc: B,
    patches: &P,
) -> Result<Vec<u8, B>, AllocError>
    ensures { IfOk result (λ text. text.items ≡ context_text (infos_of (P.patches patches.now))) }
{
    let all = patches.count();
    let mut text = Vec::new(alloc);
    text.extend_from_slice(b"\nContext:\n\n")?;
    for k in 0..all {
        text.push(b'\n')?;
        push_info(patches.at(all - 1 - k).info(), &mut text)?;
        text.push(b'\n')?;
    }
    Ok(text)
}
