//! When two named patches commute.

ghost use Rattle.std.specs.Prelude.{IfOk, List, MatchBool};
ghost use Rattle.dm_prim.specs.Primitives.{Prim};
ghost use Rattle.dm_prim.specs.Commuting.{ListsCommute};
ghost use Rattle.dm_named.specs.Commuting.{NamedCommutesTo, NamedLawsHold, NamedCommutesBack, Stays};

use crate::named::Named;
use crate::passing::{Passing, commute_named_in_place};
use dm_prim::commute_lists_owned;
use std::alloc::{AllocError, Allocator};

/// Commutes the primitives of `x` then those of `y`, in place, and returns whether they commute. Patch infos and
/// dependencies play no part. Primitives that don't change are moved. If they don't commute, or memory runs out, both are
/// left without primitives.
pub(crate) fn commute_prims<A: Allocator + Copy>(
    alloc: A,
    x: &mut Named<A>,
    y: &mut Named<A>,
) -> Result<bool, AllocError>
    ensures x_stays { Stays x.old x.new }
    ensures y_stays { Stays y.old y.new }
    ensures prims { IfOk result (λ commutes. MatchBool commutes
        (ListsCommute x.old.prims y.old.prims y.new.prims x.new.prims)
        ((ys' xs' : List Prim) → ListsCommute x.old.prims y.old.prims ys' xs' → ⊥)) }
{
    let xs = x.replace_prims(Vec::new(alloc));
    let ys = y.replace_prims(Vec::new(alloc));
    match commute_lists_owned(alloc, xs, ys)? {
        None => Ok(false),
        Some((second, first)) => {
            let _ = x.replace_prims(first);
            let _ = y.replace_prims(second);
            Ok(true)
        }
    }
}

/// For `x` then `y`, the pair `y'` and `x'` that does the same in that order, or none. Both are copies: they keep their
/// patch infos and their dependencies, and their primitives are commuted.
pub fn commute_named<A: Allocator, B: Allocator, C: Allocator + Copy>(
    alloc: C,
    x: &Named<A>,
    y: &Named<B>,
) -> Result<Option<(Named<C>, Named<C>)>, AllocError>
    ensures answer { IfOk result (NamedCommutesTo x.now y.now) }
    ensures laws { IfOk result (NamedLawsHold x.now y.now) }
    ensures back { IfOk result (NamedCommutesBack x.now y.now) }
{
    let first = x.copy_into(alloc)?;
    let second = y.copy_into(alloc)?;
    let mut first = Passing::new(first);
    let mut second = Passing::new(second);
    if commute_named_in_place(alloc, &mut first, &mut second)? {
        return Ok(Some((second.into_named(), first.into_named())));
    }
    Ok(None)
}
