//! The base of a repository that begins at a tag.
ghost use Rattle.std.specs.Prelude.{◌≡◌, ◌≢◌, ◌↔◌, [], IsTrue, length};
ghost use Rattle.dm_begin.specs.Beginnings.{IsFilled};
ghost use Rattle.dm_begin.specs.Bases.{BeginsWith, IsTagWithTree, MayHaveBase};
ghost use Rattle.dm_begin.specs.Chains.{last_name};

use dm_named::{Limits, Named};
use std::alloc::Allocator;

/// Whether the patch rests on just the last of those before it; the first on nothing.
fn rests_on_last<A: Allocator>(before: &[Named<A>], patch: &Named<A>) -> bool
    ensures { IsTrue result ↔ (patch.now.deps ≡ last_name [] before.now) }
{
    let deps = patch.deps();
    let Some(last) = before.last() else {
        return deps.is_empty();
    };
    if deps.len() != 1 {
        return false;
    }
    deps[0].same(last.info())
}

/// Whether it has a primitive.
fn has_prims<A: Allocator>(patch: &Named<A>) -> bool
    ensures { IsTrue result ↔ (patch.now.prims ≢ []) }
{
    !patch.prims().is_empty()
}

/// Whether it has so many primitives.
fn has_count<A: Allocator>(patch: &Named<A>, count: usize) -> bool
    ensures { IsTrue result ↔ (length patch.now.prims ≡ count) }
{
    patch.prims().len() == count
}

/// Whether it has as many primitives as a patch may have, or as one of somebody else may have.
fn is_filled<A: Allocator>(patch: &Named<A>) -> bool
    ensures { IsTrue result ↔ IsFilled patch.now }
{
    has_count(patch, Limits::OWN.prims) || has_count(patch, Limits::STANDARD.prims)
}

/// Whether it is a tag that has a primitive.
fn is_tag_with_tree<A: Allocator>(patch: &Named<A>) -> bool
    ensures { IsTrue result ↔ IsTagWithTree patch.now }
{
    if !patch.info().name().starts_with(b"TAG ") {
        return false;
    }
    has_prims(patch)
}

/// Whether the patch may follow these in a base, of which one has a primitive or none has.
fn follows<A: Allocator>(before: &[Named<A>], some: bool, patch: &Named<A>) -> bool
    ensures { IsTrue result ↔ ((patch.now.deps ≡ last_name [] before.now) × (IsTrue some → IsFilled patch.now)) }
{
    if some && !is_filled(patch) {
        return false;
    }
    rests_on_last(before, patch)
}

/// How many patches a repository begins with that have the form of a base: 0 if none have. It reads as far as a base could go on;
/// of most repositories two patches. Later patches may have the form too, so only a new mirror asks it.
pub fn base_len<A: Allocator>(patches: &[Named<A>]) -> usize
    ensures { BeginsWith patches.now result }
{
    let mut base = 0;
    let mut some = false;
    for i in 0..patches.len() {
        let patch = &patches[i];
        if !follows(&patches[..i], some, patch) {
            return base;
        }
        some = some || has_prims(patch);
        if is_tag_with_tree(patch) {
            base = i + 1;
        }
    }
    base
}

/// Whether the first patches, so many of them, may be the base of a repository: none may always be.
pub fn may_be_base<A: Allocator>(patches: &[Named<A>], base: usize) -> bool
    ensures { IsTrue result ↔ MayHaveBase patches.now base }
{
    if base == 0 {
        return true;
    }
    if base > patches.len() {
        return false;
    }
    base_len(&patches[..base]) == base
}
