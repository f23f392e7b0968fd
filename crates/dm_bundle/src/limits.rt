//! Which new patches are within limits.

ghost use Rattle.std.specs.Prelude.{◌≤◌, length, MatchBool};
ghost use Rattle.std.specs.List.{AllByRecursion};
ghost use Rattle.dm_bundle.specs.Patches.{HasFewReplaces, AreFewWithin};

use crate::replaces::room_after;
use dm_named::{Limits, Named};
use std::alloc::Allocator;

/// Whether these are no more new patches than are read within these limits, each of no more primitives, and no more replaces in all.
/// Replaces are counted only where all kinds are read.
pub fn are_within<A: Allocator>(limits: Limits, patches: &[Named<A>]) -> bool
    ensures { MatchBool result (AreFewWithin limits patches.now) (AreFewWithin limits patches.now → ⊥) }
{
    if patches.len() > limits.patches {
        return false;
    }
    are_short(limits, patches) && have_few_replaces(limits, patches)
}

/// Whether each of these patches has no more primitives than are read within these limits.
fn are_short<A: Allocator>(limits: Limits, patches: &[Named<A>]) -> bool
    ensures { MatchBool result
        (AllByRecursion (λ p. length p.prims ≤ limits.prims) patches.now)
        (AllByRecursion (λ p. length p.prims ≤ limits.prims) patches.now → ⊥) }
{
    for patch in patches {
        if patch.prims().len() > limits.prims {
            return false;
        }
    }
    true
}

/// Whether these patches have no more replaces than are read within these limits.
fn have_few_replaces<A: Allocator>(limits: Limits, patches: &[Named<A>]) -> bool
    ensures { MatchBool result (HasFewReplaces limits patches.now) (HasFewReplaces limits patches.now → ⊥) }
{
    let mut room = limits.replaces;
    for patch in patches {
        let Some(left) = room_after(limits, room, patch) else {
            return false;
        };
        room = left;
    }
    true
}
