//! Whether a name stands twice.
ghost use Rattle.std.specs.Prelude.{IfOk, MatchOption};
ghost use Rattle.dm_bundle.specs.Patches.{Distinct};
ghost use Rattle.dm_begin.specs.Refusals.{IsTwice};

use dm_info::Info;
use std::alloc::{AllocError, Allocator};
use std::collections::BTreeSet;

/// The place of the first name that stands at an earlier place too.
pub(crate) fn first_twice<A: Allocator + Copy>(
    alloc: A,
    names: &[Info<A>],
) -> Result<Option<usize>, AllocError>
    ensures { IfOk result (λ found. MatchOption found (Distinct names.now) (IsTwice names.now)) }
{
    let mut set = BTreeSet::new(alloc);
    for i in 0..names.len() {
        let is_new = set.insert(names[i].copy_into(alloc)?)?;
        if !is_new {
            return Ok(Some(i));
        }
    }
    Ok(None)
}
