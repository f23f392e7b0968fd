//! Where the patches of a log come from.
ghost use Rattle.std.specs.Prelude.{◌≡◌, ◌<◌, List, length, slice_get, Some};
ghost use Rattle.dm_named.specs.Patches.{Patch};

use dm_bundle::Bundle;
use dm_named::Named;
use dm_repo::Repo;
use std::alloc::Allocator;

/// Patches in a row, oldest first: those of a repository, or the new ones of a bundle.
pub trait Patches {
    /// Where their memory is.
    type Memory: Allocator;

    /// The patches, oldest first.
    ghost patches: { Self → List Patch };

    /// How many there are.
    fn count(&self) -> usize
        ensures { result ≡ length (patches self.now) };

    /// The patch at a place.
    fn at(&self, i: usize) -> &Named<Self::Memory>
        requires { i < length (patches self.now) }
        ensures { slice_get (patches self.now) i ≡ Some result.now };
}

impl<A: Allocator> Patches for Repo<A> {
    type Memory = A;

    ghost patches = { λ repo. repo.patches };

    fn count(&self) -> usize {
        self.len()
    }

    fn at(&self, i: usize) -> &Named<A> {
        self.patch(i)
    }
}

impl<A: Allocator> Patches for Bundle<A> {
    type Memory = A;

    ghost patches = { λ bundle. bundle.patches };

    fn count(&self) -> usize {
        self.new_patches().len()
    }

    fn at(&self, i: usize) -> &Named<A> {
        &self.new_patches()[i]
    }
}
