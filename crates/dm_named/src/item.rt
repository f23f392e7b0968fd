//! Items of the bodies of named patches (Darcs.Patch.V2.RepoPatch).

ghost use Rattle.std.specs.Prelude.{◌≡◌, ◌≤◌};
ghost use Rattle.dm_named.specs.MergedPatches.{item_size};
ghost use Rattle.dm_named.specs.Items.{item_of};

use crate::conflictor::Conflictor;
use dm_prim::Prim;
use std::alloc::Allocator;

/// An item of a named patch's body: a primitive, or a conflict that was merged.
pub enum Item<A: Allocator> {
    Plain(Prim<A>),
    Conflicted(Conflictor<A>),
}

// By hand, so that this is called where one goes. What is derived stands there in full.
impl<A: Allocator> Drop for Item<A> {
    fn drop(self) {
        match self {
            Item::Plain(_) => {}
            Item::Conflicted(_) => {}
        }
    }
}

impl<A: Allocator> Item<A> {
    /// How many primitives it has: no more than `most`, as the caller knows.
    pub(crate) fn size(&self, most: usize) -> usize
        requires { item_size (item_of self.now) ≤ most }
        ensures { result ≡ item_size (item_of self.now) }
    {
        match self {
            Item::Plain(_) => 1,
            Item::Conflicted(conflictor) => conflictor.size(most),
        }
    }
}
