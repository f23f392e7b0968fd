//! Lists that start at one tree: whether two merge, and whether a conflict has a reason.
ghost use Rattle.std.specs.Prelude.{◌↔◌, IfOk, IsTrue};
ghost use Rattle.dm_prim.specs.Prims.{prims_of};
ghost use Rattle.dm_element.specs.Elements.{Merge};
ghost use Rattle.dm_element.specs.Lists.{lists_of};
ghost use Rattle.dm_element.specs.Reasons.{HasReason};

use crate::copies::inverse_of;
use dm_prim::{Prim, commute_lists};
use std::alloc::{AllocError, Allocator};

/// Whether two lists that start at one tree merge: the inverse of the one and the other change places.
/// An error is want of memory.
pub fn lists_merge<A: Allocator, B: Allocator, C: Allocator + Copy>(
    alloc: C,
    one: &[Prim<A>],
    other: &[Prim<B>],
) -> Result<bool, AllocError>
    ensures { IfOk result (λ merge. IsTrue merge ↔ Merge (prims_of one.now) (prims_of other.now)) }
{
    let inverse = inverse_of(alloc, one)?;
    let Some(_both) = commute_lists(alloc, inverse.as_slice(), other)? else {
        return Ok(false);
    };
    Ok(true)
}

/// Whether a conflict has a reason: what it undoes, or the first shadow of one of its partners, does
/// not merge with the shadow of its own form. All these lists start at the tree after it. An error is
/// want of memory.
pub fn has_reason<A: Allocator, B: Allocator + Copy>(
    alloc: B,
    undone: &[Prim<A>],
    partners: &[Vec<Prim<A>, A>],
    own: &[Prim<A>],
) -> Result<bool, AllocError>
    ensures { IfOk result (λ reason. IsTrue reason ↔
        HasReason (prims_of undone.now) (lists_of partners.now) (prims_of own.now)) }
{
    let undone_merges = lists_merge(alloc, undone, own)?;
    if !undone_merges {
        return Ok(true);
    }
    for first in partners {
        let first_merges = lists_merge(alloc, first.as_slice(), own)?;
        if !first_merges {
            return Ok(true);
        }
    }
    Ok(false)
}
