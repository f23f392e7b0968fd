//! Elements, over any allocator.
ghost use Rattle.std.specs.Prelude.{◌≡◌, IfOk, MatchResult};
ghost use Rattle.dm_prim.specs.Prims.{prim_of};
ghost use Rattle.dm_element.specs.Elements as elements;
ghost use Rattle.dm_element.specs.Elements.{inv_element};
ghost use Rattle.dm_element.specs.Values.{element_of};

use crate::conflicted::Conflicted;
use dm_prim::{Prim, invert};
use std::alloc::{AllocError, Allocator};

/// An element of a patch: a primitive, or a conflict that was merged.
pub enum Element<A: Allocator> {
    Plain(Prim<A>),
    Conflicted(Conflicted<A>),
}

// By hand, so that this is called where one goes. What is derived stands there in full.
impl<A: Allocator> Drop for Element<A> {
    fn drop(self) {
        match self {
            Element::Plain(_) => {}
            Element::Conflicted(_) => {}
        }
    }
}

impl<A: Allocator> Element<A> {
    /// The same element with another allocator.
    pub fn copy_into<B: Allocator + Copy>(&self, alloc: B) -> Result<Element<B>, AllocError>
        ensures { IfOk result (λ copy. element_of copy ≡ element_of self.now) }
    {
        match self {
            Element::Plain(prim) => Ok(Element::Plain(prim.copy_into(alloc)?)),
            Element::Conflicted(conflict) => Ok(Element::Conflicted(conflict.copy_into(alloc)?)),
        }
    }

    /// The element that undoes it. Takes no memory.
    pub fn invert(self) -> Element<A>
        ensures { element_of result ≡ inv_element (element_of self) }
    {
        match self {
            Element::Plain(prim) => Element::Plain(invert(prim)),
            Element::Conflicted(conflict) => Element::Conflicted(conflict.invert()),
        }
    }
    /// The primitive or the conflict that it is. Takes no memory.
    pub fn into_plain(self) -> Result<Prim<A>, Conflicted<A>>
        ensures { MatchResult result (λ prim. element_of self ≡ elements.Plain (prim_of prim)) (λ conflict. element_of self ≡ elements.Conflicted conflict) }
    {
        match self {
            Element::Plain(prim) => Ok(prim),
            Element::Conflicted(conflict) => Err(conflict),
        }
    }
}
