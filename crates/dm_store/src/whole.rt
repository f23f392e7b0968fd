//! The entry of a whole repository.
ghost use Rattle.std.specs.Prelude.{◌≡◌, [], IfOk, IfErr, IfSome, IfNone};
ghost use Rattle.dm_bundle.specs.Patches.{AreAllOf};
ghost use Rattle.dm_journal.specs.declared.device.DeviceError.TheVariants.{Memory};
ghost use Rattle.dm_journal.specs.declared.fault.WriteError.TheVariants.{Beside};
ghost use Rattle.dm_begin.specs.Bases.{MayHaveBase};
ghost use Rattle.dm_store.specs.Keeping.{TakesEntry, FitsOneEntry, empty, entry_of_all, kept_as};

use crate::entries::begin_counted_entry;
use crate::kinds::are_of;
use dm_begin::may_be_base;
use dm_bundle::{are_within, push_bundle};
use dm_journal::{DeviceError, WriteError};
use dm_named::{Kinds, Limits};
use dm_repo::Repo;
use std::alloc::{AllocError, Global};

// The entry that leaves this repository and this base where it is taken first, if the repository is of these kinds, may have the base
// and fits one.
pub fn entry_of_repo(
    alloc: Global,
    kinds: Kinds,
    base: usize,
    repo: &Repo<Global>,
) -> Result<Option<Vec<u8>>, WriteError>
    ensures entry { IfOk result (λ found. IfSome found (λ entry. entry.items ≡ entry_of_all (kept_as base repo.now.patches))) }
    ensures of_kinds { IfOk result (λ found. IfSome found (λ _. AreAllOf kinds repo.now.patches)) }
    ensures fits { IfOk result (λ found. IfSome found (λ _. FitsOneEntry repo.now.patches)) }
    ensures may { IfOk result (λ found. IfSome found (λ _. MayHaveBase repo.now.patches base)) }
    ensures takes { IfOk result (λ found. IfSome found (λ entry. TakesEntry kinds empty entry.items (kept_as base repo.now.patches))) }
    ensures none { IfOk result (λ found. IfNone found (AreAllOf kinds repo.now.patches → MayHaveBase repo.now.patches base → FitsOneEntry repo.now.patches → ⊥)) }
    ensures err { IfErr result (λ e. e ≡ Beside Memory) }
{
    match write_whole(alloc, kinds, base, repo) {
        Ok(found) => Ok(found),
        Err(_) => Err(WriteError::Beside(DeviceError::Memory)),
    }
}

fn write_whole(
    alloc: Global,
    kinds: Kinds,
    base: usize,
    repo: &Repo<Global>,
) -> Result<Option<Vec<u8>>, AllocError>
    ensures entry { IfOk result (λ found. IfSome found (λ entry. entry.items ≡ entry_of_all (kept_as base repo.now.patches))) }
    ensures of_kinds { IfOk result (λ found. IfSome found (λ _. AreAllOf kinds repo.now.patches)) }
    ensures fits { IfOk result (λ found. IfSome found (λ _. FitsOneEntry repo.now.patches)) }
    ensures may { IfOk result (λ found. IfSome found (λ _. MayHaveBase repo.now.patches base)) }
    ensures takes { IfOk result (λ found. IfSome found (λ entry. TakesEntry kinds empty entry.items (kept_as base repo.now.patches))) }
    ensures none { IfOk result (λ found. IfNone found (AreAllOf kinds repo.now.patches → MayHaveBase repo.now.patches base → FitsOneEntry repo.now.patches → ⊥)) }
{
    if repo.len() == 0 {
        return Ok(None);
    }
    let patches = repo.patches();
    if !are_within(Limits::OWN, patches) {
        return Ok(None);
    }
    if !are_of(kinds, patches) {
        return Ok(None);
    }
    if !may_be_base(patches, base) {
        return Ok(None);
    }
    let mut entry = begin_counted_entry(alloc, base)?;
    let front = entry.len();
    push_bundle(patches, &[], &mut entry)?;
    if entry.len() - front > Limits::OWN.bytes {
        return Ok(None);
    }
    Ok(Some(entry))
}
