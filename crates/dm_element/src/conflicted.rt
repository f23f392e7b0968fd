//! Conflicted elements.
ghost use Rattle.std.specs.Prelude.{◌≡◌, IfOk};
ghost use Rattle.dm_prim.specs.Primitives.{inv_all};
ghost use Rattle.dm_prim.specs.Prims.{prims_of};
ghost use Rattle.dm_element.specs.Elements.{other};
ghost use Rattle.dm_element.specs.Lists.{lists_of};

use crate::copies::{copy_lists, copy_prims};
use crate::side::Side;
use dm_prim::{Prim, invert_all};
use std::alloc::{AllocError, Allocator};
use std::marker::Model;

/// A conflict that was merged: what it does to a tree, and its shadows, lists of primitives that all
/// start at the tree on one side of it.
pub struct Conflicted<A: Allocator> {
    side: Side,
    effect: Vec<Prim<A>, A>,
    shadows: Vec<Vec<Prim<A>, A>, A>,
}

// By hand, so that this is called where one goes. What is derived stands there in full.
impl<A: Allocator> Drop for Conflicted<A> {
    fn drop(self) {
        let Conflicted {
            side: _,
            effect: _,
            shadows: _,
        } = self;
    }
}

impl<A: Allocator> Model for Conflicted<A> {
    ghost use Rattle.dm_prim.specs.Prims.{prims_of};
    ghost use Rattle.dm_element.specs.Elements.{Conflict};
    ghost use Rattle.dm_element.specs.Lists.{lists_of};

    ghost Value = { Conflict };

    ghost view = { λ c. record { side = c.side; effect = prims_of c.effect.items; shadows = lists_of c.shadows.items } };
}

impl<A: Allocator> Conflicted<A> {
    /// The conflict with this effect, and with these shadows on this side.
    pub fn new(
        side: Side,
        effect: Vec<Prim<A>, A>,
        shadows: Vec<Vec<Prim<A>, A>, A>,
    ) -> Conflicted<A>
        ensures { result ≡ record { side = side; effect = prims_of effect.items; shadows = lists_of shadows.items } }
    {
        Conflicted {
            side,
            effect,
            shadows,
        }
    }

    /// Where its shadows stand.
    pub fn side(&self) -> Side
        ensures { result ≡ self.now.side }
    {
        self.side
    }

    /// What it does to a tree.
    pub fn effect(&self) -> &[Prim<A>]
        ensures { prims_of result.now ≡ self.now.effect }
    {
        self.effect.as_slice()
    }

    /// Its shadows.
    pub fn shadows(&self) -> &[Vec<Prim<A>, A>]
        ensures { lists_of result.now ≡ self.now.shadows }
    {
        self.shadows.as_slice()
    }

    /// What it does to a tree, and its shadows.
    pub fn into_parts(self) -> (Vec<Prim<A>, A>, Vec<Vec<Prim<A>, A>, A>)
        ensures effect { prims_of result.0.items ≡ self.effect }
        ensures shadows { lists_of result.1.items ≡ self.shadows }
    {
        let Conflicted {
            side: _,
            effect,
            shadows,
        } = self;
        (effect, shadows)
    }

    /// The same conflict with another allocator.
    pub fn copy_into<B: Allocator + Copy>(&self, alloc: B) -> Result<Conflicted<B>, AllocError>
        ensures { IfOk result (λ copy. copy ≡ self.now) }
    {
        let effect = copy_prims(alloc, self.effect())?;
        let shadows = copy_lists(alloc, self.shadows())?;
        Ok(Conflicted::new(self.side(), effect, shadows))
    }

    /// The conflict that undoes it: its shadows stay where they are. Takes no memory.
    pub fn invert(self) -> Conflicted<A>
        ensures { result ≡ record { side = other self.side; effect = inv_all self.effect; shadows = self.shadows } }
    {
        let Conflicted {
            side,
            effect,
            shadows,
        } = self;
        Conflicted {
            side: side.other(),
            effect: invert_all(effect),
            shadows,
        }
    }
}
