//! Which kinds of primitives a store reads.
ghost use Rattle.std.specs.Prelude.{◌≡◌, MatchBool};
ghost use Rattle.dm_bundle.specs.Patches.{AreAllOf};
ghost use Rattle.dm_named.specs.Kinds.{AreOf, IsOf, IsOfSix};
ghost use Rattle.dm_prim.specs.Prims.{prim_of, prims_of};
ghost use Rattle.dm_store.specs.Kinds.{kinds_of, format_of};

use dm_journal::{ChecksumField, Format, KindsField};
use dm_named::{Kinds, Named};
use dm_prim::Prim;
use std::alloc::Global;

// The kinds that the file of a format is for.
pub fn kinds_of(format: Format) -> Kinds
    ensures { result ≡ kinds_of format }
{
    match format {
        Format::First | Format::Second | Format::Fields(KindsField::Six, _) => Kinds::Six,
        Format::Third | Format::Fields(KindsField::All, _) => Kinds::All,
    }
}

// The format of a new file for these kinds.
pub fn format_of(kinds: Kinds) -> Format
    ensures { result ≡ format_of kinds }
{
    match kinds {
        Kinds::Six => Format::Fields(KindsField::Six, ChecksumField::Lanes),
        Kinds::All => Format::Fields(KindsField::All, ChecksumField::Lanes),
    }
}

/// Whether all primitives of these patches are of these kinds.
pub fn are_of(kinds: Kinds, patches: &[Named<Global>]) -> bool
    ensures { MatchBool result (AreAllOf kinds patches.now) (AreAllOf kinds patches.now → ⊥) }
{
    for patch in patches {
        if !prims_are_of(kinds, patch.prims()) {
            return false;
        }
    }
    true
}

fn prims_are_of(kinds: Kinds, prims: &[Prim<Global>]) -> bool
    ensures { MatchBool result (AreOf kinds (prims_of prims.now)) (AreOf kinds (prims_of prims.now) → ⊥) }
{
    for prim in prims {
        if !is_of(kinds, prim) {
            return false;
        }
    }
    true
}

fn is_of(kinds: Kinds, prim: &Prim<Global>) -> bool
    ensures { MatchBool result (IsOf kinds (prim_of prim.now)) (IsOf kinds (prim_of prim.now) → ⊥) }
{
    match kinds {
        Kinds::Six => is_of_six(prim),
        Kinds::All => true,
    }
}

fn is_of_six(prim: &Prim<Global>) -> bool
    ensures { MatchBool result (IsOfSix (prim_of prim.now)) (IsOfSix (prim_of prim.now) → ⊥) }
{
    match prim {
        Prim::AddFile(_) => true,
        Prim::RmFile(_) => true,
        Prim::AddDir(_) => true,
        Prim::RmDir(_) => true,
        Prim::Move(_, _) => true,
        Prim::Hunk(_) => true,
        Prim::Binary(_) => false,
        Prim::Replace(_) => false,
        Prim::ChangePref(_) => false,
    }
}
