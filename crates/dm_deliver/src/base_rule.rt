//! What is asked of a bundle by a repository that begins with a base.
ghost use Rattle.std.specs.Prelude.{◌↔◌, IfOk, IsTrue};
ghost use Rattle.dm_store.specs.Keeping.{kept_as};
ghost use Rattle.dm_deliver.specs.Answering.{IsTextBeforeBase};

use dm_begin::is_before_base;
use dm_bundle::read_bundle_within;
use dm_named::{FaultKind, Kinds, Limits};
use dm_repo::Repo;
use std::alloc::{AllocError, Global};

/// Whether a text is a bundle, of primitives of these kinds, that comes before the base of the repository, its first patches, so
/// many of them: the repository has its whole context, and the bundle brings something new and doesn't rest on the whole base. A text that is no bundle doesn't.
///
/// The text isn't read where there is no base.
pub fn text_is_before_base(
    alloc: Global,
    repo: &Repo<Global>,
    base: usize,
    text: &[u8],
    kinds: Kinds,
) -> Result<bool, AllocError>
    ensures { IfOk result (λ yes. IsTrue yes ↔ IsTextBeforeBase kinds (kept_as base repo.now.patches) text.now) }
{
    if base == 0 {
        return Ok(false);
    }
    match read_bundle_within(alloc, text, Limits::STANDARD.with_kinds(kinds)) {
        Ok(bundle) => is_before_base(alloc, alloc, repo, base, &bundle),
        Err(fault) => {
            if fault.kind == FaultKind::NoMemory {
                return Err(AllocError);
            }
            Ok(false)
        }
    }
}
