//! Named patches in whose bodies conflictors may stand.

ghost use Rattle.std.specs.Prelude.{◌≡◌};
ghost use Rattle.dm_named.specs.Items.{items_of};

use crate::item::Item;
use dm_info::Info;
use std::alloc::Allocator;
use std::marker::Model;

/// A named patch as merges leave it: a patch info, the patch infos of the patches that it depends on, and its items in order. Where
/// all of them are primitives, it is a `Named`.
pub struct Merged<A: Allocator> {
    info: Info<A>,
    deps: Vec<Info<A>, A>,
    body: Vec<Item<A>, A>,
}

// By hand, so that this is called where one goes. What is derived stands there in full.
impl<A: Allocator> Drop for Merged<A> {
    fn drop(self) {
        let Merged {
            info: _,
            deps: _,
            body: _,
        } = self;
    }
}

impl<A: Allocator> Model for Merged<A> {
    ghost use Rattle.dm_named.specs.Items.{items_of};
    ghost use Rattle.dm_named.specs.MergedPatches.{MergedPatch};

    ghost Value = { MergedPatch };

    ghost view = { λ m. record { info = m.info; deps = m.deps.items; body = items_of m.body.items } };
}

impl<A: Allocator> Merged<A> {
    /// The named patch of these parts.
    pub fn new(info: Info<A>, deps: Vec<Info<A>, A>, body: Vec<Item<A>, A>) -> Merged<A>
        ensures { result ≡ record { info = info; deps = deps.items; body = items_of body.items } }
    {
        Merged { info, deps, body }
    }

    /// The patch info, which is the patch's identity.
    pub fn info(&self) -> &Info<A>
        ensures { result.now ≡ self.now.info }
    {
        &self.info
    }

    /// The patch infos of the patches that it names as dependencies.
    pub fn deps(&self) -> &[Info<A>]
        ensures { result.now ≡ self.now.deps }
    {
        self.deps.as_slice()
    }

    /// The items, first to last.
    pub fn body(&self) -> &[Item<A>]
        ensures { items_of result.now ≡ self.now.body }
    {
        self.body.as_slice()
    }
}
