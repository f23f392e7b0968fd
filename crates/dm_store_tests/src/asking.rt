//! What the tests ask of files.
ghost use Rattle.std.specs.Prelude.{◌≡◌, ◌⊎◌, length, IfSome, IsTrue};
ghost use Rattle.dm_named.specs.declared.limits.Kinds.{Kinds};
ghost use Rattle.dm_store.specs.Keeping.{KeepsRepo, Kept};
ghost use Rattle.dm_store.specs.Opening.{HasBadEntry};

use dm_journal::Memory;
use dm_store::{Store, StoreError};
use std::alloc::Global;

/// How many patches the repository has that a file of these bytes keeps. `None` if it keeps none, or if memory ran out.
pub fn patches_in(alloc: Global, bytes: &[u8]) -> Option<usize>
    ensures { IfSome result (λ count. (kinds : Kinds) × (kept : Kept) × KeepsRepo kinds bytes.now kept × (count ≡ length kept.patches)) }
{
    let Ok(bytes) = bytes.to_vec(alloc) else {
        return None;
    };
    match Store::open(alloc, Memory::new(alloc, bytes)) {
        Ok(store) => Some(store.repo().len()),
        Err(_) => None,
    }
}

/// Whether the repository that a file of these bytes keeps has so many patches, or so many.
pub fn keeps_either(alloc: Global, bytes: &[u8], one: usize, other: usize) -> bool
    ensures { IsTrue result → (kinds : Kinds) × (kept : Kept) × KeepsRepo kinds bytes.now kept × ((length kept.patches ≡ one) ⊎ (length kept.patches ≡ other)) }
{
    match patches_in(alloc, bytes) {
        Some(count) => count == one || count == other,
        None => false,
    }
}

/// The number of the entry for which a file of these bytes keeps no repository. `None` if there is none, or if memory ran out.
pub fn bad_entry_in(alloc: Global, bytes: &[u8]) -> Option<usize>
    ensures { IfSome result (HasBadEntry bytes.now) }
{
    let Ok(bytes) = bytes.to_vec(alloc) else {
        return None;
    };
    match Store::open(alloc, Memory::new(alloc, bytes)) {
        Err((StoreError::BadEntry(number), _)) => Some(number),
        _ => None,
    }
}
