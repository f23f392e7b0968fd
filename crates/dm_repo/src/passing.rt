//! Rows of squares: one patch passes a list of others, or is merged with it.
ghost use Rattle.std.specs.Prelude.{map, MatchResult};
ghost use Rattle.dm_repo.specs.Staircases.{Passes, PassStops};
ghost use Rattle.dm_repo.specs.Merging.{MergesPast, MergePastStops};
ghost use Rattle.dm_repo.specs.Squares.{PlacedCommutes, PlacedMerges, undone};
ghost use Rattle.dm_repo.specs.Stops.{StopsAt};

use crate::stop::Stop;
use dm_named::{Passing, commute_named_in_place, commute_prims_in_place};
use std::alloc::Allocator;

/// `patch` passes all of `rest`, the nearest first, which is the last.
pub(crate) fn pass<A: Allocator + Copy>(
    alloc: A,
    rest: &mut [(usize, Passing<A>)],
    patch: &mut (usize, Passing<A>),
) -> Result<(), Stop>
    ensures { MatchResult result
        (λ _. Passes PlacedCommutes rest.old patch.old patch.new rest.new)
        (λ stop. StopsAt stop (PassStops PlacedCommutes rest.old patch.old)) }
{
    for k in (0..rest.len()).rev() {
        let nearest = &mut rest[k];
        if !commute_named_in_place(alloc, &mut nearest.1, &mut patch.1)? {
            return Err(Stop::At(nearest.0));
        }
    }
    Ok(())
}

/// `patch` is merged with all of `rest`, the first of them first. Each of `rest` is undone: it has the inverse primitives.
pub(crate) fn merge_past<A: Allocator + Copy>(
    alloc: A,
    rest: &mut [(usize, Passing<A>)],
    patch: &mut (usize, Passing<A>),
) -> Result<(), Stop>
    ensures { MatchResult result
        (λ _. MergesPast PlacedMerges (map undone rest.old) patch.old patch.new (map undone rest.new))
        (λ stop. StopsAt stop (MergePastStops PlacedMerges (map undone rest.old) patch.old)) }
{
    for k in 0..rest.len() {
        let next = &mut rest[k];
        if !commute_prims_in_place(alloc, &mut next.1, &mut patch.1)? {
            return Err(Stop::At(next.0));
        }
    }
    Ok(())
}
