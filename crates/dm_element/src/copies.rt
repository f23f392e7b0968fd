//! Copies of lists, in another allocator.
ghost use Rattle.std.specs.Prelude.{◌≡◌, IfOk};
ghost use Rattle.dm_prim.specs.Primitives.{inv_all};
ghost use Rattle.dm_prim.specs.Prims.{prims_of};
ghost use Rattle.dm_element.specs.Lists.{lists_of};

use dm_prim::{Prim, invert_all};
use std::alloc::{AllocError, Allocator};

pub(crate) fn copy_prims<A: Allocator, B: Allocator + Copy>(
    alloc: B,
    prims: &[Prim<A>],
) -> Result<Vec<Prim<B>, B>, AllocError>
    ensures { IfOk result (λ copy. prims_of copy.items ≡ prims_of prims.now) }
{
    let mut copy = Vec::with_capacity(alloc, prims.len())?;
    for prim in prims {
        copy.push(prim.copy_into(alloc)?)?;
    }
    Ok(copy)
}

pub(crate) fn copy_lists<A: Allocator, B: Allocator + Copy>(
    alloc: B,
    lists: &[Vec<Prim<A>, A>],
) -> Result<Vec<Vec<Prim<B>, B>, B>, AllocError>
    ensures { IfOk result (λ copy. lists_of copy.items ≡ lists_of lists.now) }
{
    let mut copy = Vec::with_capacity(alloc, lists.len())?;
    for list in lists {
        copy.push(copy_prims(alloc, list.as_slice())?)?;
    }
    Ok(copy)
}

/// The list that undoes it.
pub(crate) fn inverse_of<A: Allocator, B: Allocator + Copy>(
    alloc: B,
    prims: &[Prim<A>],
) -> Result<Vec<Prim<B>, B>, AllocError>
    ensures { IfOk result (λ inverse. prims_of inverse.items ≡ inv_all (prims_of prims.now)) }
{
    Ok(invert_all(copy_prims(alloc, prims)?))
}
