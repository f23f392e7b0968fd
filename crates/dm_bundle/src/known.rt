//! The patch infos of the new patches, in an ordered set.

ghost use Rattle.std.specs.Prelude.{◌≡◌, ◌⊎◌, ◌↔◌, [], Contains, MatchBool, IfOk, OnOk};
ghost use Rattle.dm_info.specs.PatchInfo.{PatchInfo};

use dm_info::Info;
use std::alloc::{AllocError, Allocator};
use std::collections::BTreeSet;
use std::marker::Model;

/// A set of patch infos. Among 1,000 new patches, a look-up costs some ten comparisons.
#[derive(Drop)]
pub(crate) struct Known<A: Allocator> {
    infos: BTreeSet<Info<A>, A>,
}

impl<A: Allocator> Model for Known<A> {
    ghost use Rattle.std.specs.Prelude.{List};
    ghost use Rattle.dm_info.specs.PatchInfo.{PatchInfo};

    ghost Value = { List PatchInfo };

    ghost view = { λ k. k.infos.keys };
}

impl<A: Allocator + Copy> Known<A> {
    /// The empty set.
    pub(crate) fn new(alloc: A) -> Known<A>
        ensures { result ≡ [] }
    {
        Known {
            infos: BTreeSet::new(alloc),
        }
    }

    /// Whether a patch info is known.
    pub(crate) fn contains(&self, info: &Info<A>) -> bool
        ensures { MatchBool result (Contains self.now info.now) (Contains self.now info.now → ⊥) }
    {
        self.infos.contains(info)
    }

    /// Adds a patch info, and returns whether it was new.
    pub(crate) fn insert(&mut self, info: Info<A>) -> Result<bool, AllocError>
        ensures is_new { IfOk result (λ is_new. MatchBool is_new (Contains self.old info → ⊥) (Contains self.old info)) }
        ensures noted { OnOk result ((i : PatchInfo) → Contains self.new i ↔ (Contains self.old i ⊎ (i ≡ info))) }
    {
        let is_new = self.infos.insert(info)?;
        Ok(is_new)
    }
}
