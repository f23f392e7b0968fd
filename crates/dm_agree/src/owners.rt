//! For each name of a patch the place of a bundle that brings it.
ghost use Rattle.std.specs.Prelude.{MatchOption, OnOk};
ghost use Rattle.dm_agree.specs.Owners.{Notes, OwnsNone, IsLastOwned};

use dm_info::Info;
use dm_named::Named;
use std::alloc::{AllocError, Allocator};
use std::collections::BTreeMap;

/// The place of a bundle for each name that it brings.
pub(crate) type Owners<A> = BTreeMap<Info<A>, usize, A>;

/// Notes this place for the names of patches.
pub(crate) fn note<A: Allocator + Copy>(
    alloc: A,
    owners: &mut Owners<A>,
    patches: &[Named<A>],
    place: usize,
) -> Result<(), AllocError>
    ensures { OnOk result (Notes owners.old patches.now place owners.new) }
{
    for patch in patches {
        let name = patch.info().copy_into(alloc)?;
        owners.insert(name, place)?;
    }
    Ok(())
}

/// The count of these patches up to the last whose name has a place, and that place.
pub(crate) fn last_owned<A: Allocator>(
    owners: &Owners<A>,
    patches: &[Named<A>],
) -> Option<(usize, usize)>
    ensures { MatchOption result (OwnsNone owners.now patches.now) (λ x. IsLastOwned owners.now patches.now x.0 x.1) }
{
    let mut count = patches.len();
    while count > 0 {
        let k = count - 1;
        match owners.get(patches[k].info()) {
            Some(place) => return Some((count, *place)),
            None => count = k,
        }
    }
    None
}
