//! Shadows that pass a list of primitives, and shadows that merge.
ghost use Rattle.std.specs.Prelude.{◌↔◌, IfOk, IsTrue, All};
ghost use Rattle.dm_prim.specs.Prims.{prims_of};
ghost use Rattle.dm_element.specs.Elements.{Merge, EachMerges};
ghost use Rattle.dm_element.specs.Lists.{lists_of, EachPassesTo};

use crate::copies::{copy_prims, inverse_of};
use dm_prim::{Prim, commute_lists, commute_lists_owned};
use std::alloc::{AllocError, Allocator};

/// What each becomes that passes `by`, in order; none where one doesn't pass. A copy of `by` is taken
/// for each.
pub(crate) fn pass_each<A: Allocator + Copy>(
    alloc: A,
    by: &[Prim<A>],
    shadows: Vec<Vec<Prim<A>, A>, A>,
) -> Result<Option<Vec<Vec<Prim<A>, A>, A>>, AllocError>
    ensures { IfOk result (EachPassesTo (prims_of by.now) (lists_of shadows.items)) }
{
    let mut turned = Vec::with_capacity(alloc, shadows.len())?;
    for shadow in shadows {
        let first = copy_prims(alloc, by)?;
        let Some((passed, _rest)) = commute_lists_owned(alloc, first, shadow)? else {
            return Ok(None);
        };
        turned.push(passed)?;
    }
    Ok(Some(turned))
}

/// Whether each of the one merges with each of the other.
pub(crate) fn each_merges<A: Allocator + Copy>(
    alloc: A,
    ones: &[Vec<Prim<A>, A>],
    others: &[Vec<Prim<A>, A>],
) -> Result<bool, AllocError>
    ensures { IfOk result (λ merge. IsTrue merge ↔ EachMerges (lists_of ones.now) (lists_of others.now)) }
{
    for one in ones {
        if !merges_with_each(alloc, one.as_slice(), others)? {
            return Ok(false);
        }
    }
    Ok(true)
}

/// Whether this one merges with each of the other.
fn merges_with_each<A: Allocator + Copy>(
    alloc: A,
    one: &[Prim<A>],
    others: &[Vec<Prim<A>, A>],
) -> Result<bool, AllocError>
    ensures { IfOk result (λ merge. IsTrue merge ↔ All (λ k. Merge (prims_of one.now) k) (lists_of others.now)) }
{
    let inverse = inverse_of(alloc, one)?;
    for other in others {
        let Some(_both) = commute_lists(alloc, inverse.as_slice(), other.as_slice())? else {
            return Ok(false);
        };
    }
    Ok(true)
}
