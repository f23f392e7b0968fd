//! Originals: primitives as their authors made them, in their contexts (Darcs.Patch.V2.Non).

ghost use Rattle.std.specs.Prelude.{◌≡◌, ◌<◌, ◌^◌, IfOk};
ghost use Rattle.dm_prim.specs.Prims.{prim_of, prims_of};
ghost use Rattle.dm_named.specs.Conflictors.{size_of};
ghost use Rattle.dm_named.specs.ConflictorElements.{shadow_of, IsOriginalOf};

use dm_prim::Prim;
use std::alloc::{AllocError, Allocator};
use std::marker::Model;

/// A primitive as its author made it, and its context: the primitives that must be done first for it to stand.
pub struct Original<A: Allocator> {
    context: Vec<Prim<A>, A>,
    prim: Prim<A>,
}

// By hand, so that this is called where one goes. What is derived stands there in full.
impl<A: Allocator> Drop for Original<A> {
    fn drop(self) {
        let Original {
            context: _,
            prim: _,
        } = self;
    }
}

impl<A: Allocator> Model for Original<A> {
    ghost use Rattle.dm_prim.specs.Prims.{prim_of, prims_of};
    ghost use Rattle.dm_named.specs.Conflictors as conflictors;

    ghost Value = { conflictors.Original };

    ghost view = { λ o. record { context = prims_of o.context.items; prim = prim_of o.prim } };
}

impl<A: Allocator> Original<A> {
    /// The original of these parts.
    pub fn new(context: Vec<Prim<A>, A>, prim: Prim<A>) -> Original<A>
        ensures { result ≡ record { context = prims_of context.items; prim = prim_of prim } }
    {
        Original { context, prim }
    }

    /// What must be done first, first to last.
    pub fn context(&self) -> &[Prim<A>]
        ensures { prims_of result.now ≡ self.now.context }
    {
        self.context.as_slice()
    }

    /// The primitive.
    pub fn prim(&self) -> &Prim<A>
        ensures { prim_of result.now ≡ self.now.prim }
    {
        &self.prim
    }

    /// How many primitives it has.
    pub(crate) fn size(&self) -> usize
        requires { size_of self.now < 2 ^ 64 }
        ensures { result ≡ size_of self.now }
    {
        self.context.len() + 1
    }

    /// Its shadow: its context, and then its primitive.
    pub(crate) fn into_shadow(self) -> Result<Vec<Prim<A>, A>, AllocError>
        ensures { IfOk result (λ shadow. prims_of shadow.items ≡ shadow_of self) }
    {
        let Original { context, prim } = self;
        let mut shadow = context;
        shadow.push(prim)?;
        Ok(shadow)
    }

    /// The original that has this shadow; none where it is empty.
    pub(crate) fn from_shadow(shadow: Vec<Prim<A>, A>) -> Option<Original<A>>
        ensures { IsOriginalOf (prims_of shadow.items) result }
    {
        let mut context = shadow;
        let Some(prim) = context.pop() else {
            return None;
        };
        Some(Original::new(context, prim))
    }
}
