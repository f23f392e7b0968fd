//! What tests ask. A yes is proved to be one, so that no test passes for want of asking.
ghost use Rattle.std.specs.Prelude.{◌≡◌, ℕ, List, ◌++◌, IsTrue};
ghost use Rattle.dm_prim.specs.Commuting.{ListsCommute};
ghost use Rattle.dm_prim.specs.Primitives as primitives;
ghost use Rattle.dm_prim.specs.Prims.{prims_of};

use bumpalo::Bump;
use dm_prim::{Prim, commute_lists};

/// Whether a text is another one twice.
pub(crate) fn is_twice(text: &[u8]) -> bool
    ensures { IsTrue result → (half : List ℕ) × (text.now ≡ half ++ half) }
{
    let (first, second) = text.split_at(text.len() / 2);
    first == second
}

/// Whether two lists commute in this arena.
pub(crate) fn do_commute(arena: &Bump, xs: &[Prim<&Bump>], ys: &[Prim<&Bump>]) -> bool
    ensures { IsTrue result → (ys' : List primitives.Prim) × (xs' : List primitives.Prim) ×
        ListsCommute (prims_of xs.now) (prims_of ys.now) ys' xs' }
{
    match commute_lists(arena, xs, ys) {
        Ok(Some(_)) => true,
        Ok(None) => false,
        Err(_) => false,
    }
}
