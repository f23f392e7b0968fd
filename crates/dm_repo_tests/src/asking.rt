//! What tests ask. A yes is proved to be one, so that no test passes for want of asking.
ghost use Rattle.std.specs.Prelude.{Some, IsTrue};
ghost use Rattle.dm_repo.specs.Orders.{TakesBothOrders};
ghost use Rattle.dm_repo.specs.Repositories.{Repository};

use dm_bundle::Bundle;
use dm_repo::{Repo, law_both_orders};
use std::alloc::Global;

/// Whether two bundles are taken in both orders.
pub(crate) fn take_both(
    heap: Global,
    repo: &Repo<Global>,
    first: &Bundle<Global>,
    second: &Bundle<Global>,
) -> bool
    ensures { IsTrue result → (one : Repository) × (other : Repository) × TakesBothOrders repo.now.patches first.now second.now (Some (one, other)) }
{
    match law_both_orders(heap, repo, first, second) {
        Ok(answer) => answer.is_some(),
        Err(_) => false,
    }
}
