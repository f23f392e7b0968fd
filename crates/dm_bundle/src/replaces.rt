//! How many replaces there are among new patches.

ghost use Rattle.std.specs.Prelude.{◌≡◌, ◌<◌, ◌+◌, List, [], ◌∷◌, ◌++◌, MatchOption};
ghost use Rattle.dm_prim.specs.Prims.{prim_of, prims_of};
ghost use Rattle.dm_named.specs.Patches.{Patch};
ghost use Rattle.dm_bundle.specs.Patches.{replaces_in, replaces_among, HasFewReplaces};
ghost use Rattle.dm_bundle.specs.Room.{LeavesRoom};

use dm_named::{Kinds, Limits, Named};
use dm_prim::Prim;
use std::alloc::Allocator;

/// How many replaces may follow a patch, where so many may follow what is before it. `None` says that it has more than these. Where
/// the six kinds are read none is counted.
pub(crate) fn room_after<A: Allocator>(
    limits: Limits,
    room: usize,
    patch: &Named<A>,
) -> Option<usize>
    ensures { MatchOption result
        ((ps : List Patch) → LeavesRoom limits ps room → HasFewReplaces limits (ps ++ patch.now ∷ []) → ⊥)
        (λ left. (ps : List Patch) → LeavesRoom limits ps room → LeavesRoom limits (ps ++ patch.now ∷ []) left) }
{
    match limits.kinds {
        Kinds::Six => Some(room),
        Kinds::All => room_among(room, patch.prims()),
    }
}

/// How many replaces may follow these primitives, where so many may be among them and after them.
fn room_among<A: Allocator>(room: usize, prims: &[Prim<A>]) -> Option<usize>
    ensures { MatchOption result
        (room < replaces_among (prims_of prims.now))
        (λ left. left + replaces_among (prims_of prims.now) ≡ room) }
{
    let mut left = room;
    for prim in prims {
        let count = count_in(prim);
        if left < count {
            return None;
        }
        left -= count;
    }
    Some(left)
}

/// One for a replace, none for any other primitive.
fn count_in<A: Allocator>(prim: &Prim<A>) -> usize
    ensures { result ≡ replaces_in (prim_of prim.now) }
{
    match prim {
        Prim::AddFile(_) => 0,
        Prim::RmFile(_) => 0,
        Prim::AddDir(_) => 0,
        Prim::RmDir(_) => 0,
        Prim::Move(_, _) => 0,
        Prim::Hunk(_) => 0,
        Prim::Binary(_) => 0,
        Prim::Replace(_) => 1,
        Prim::ChangePref(_) => 0,
    }
}
