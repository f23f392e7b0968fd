//! Conflictors: conflicts that were merged, as darcs writes them (Darcs.Patch.V2.RepoPatch).

ghost use Rattle.std.specs.Prelude.{◌≡◌, ◌≤◌, map, IfOk};
ghost use Rattle.dm_named.specs.Conflictors.{sizes_of, conflictor_size};
ghost use Rattle.dm_prim.specs.Prims.{prims_of};
ghost use Rattle.dm_element.specs.Elements as elements;
ghost use Rattle.dm_element.specs.Lists.{lists_of};
ghost use Rattle.dm_element.specs.Values.{element_of};
ghost use Rattle.dm_named.specs.ConflictorElements.{shadow_of, conflict_of, AreOriginalsOf, IsConflictorOf};

use crate::original::Original;
use dm_element::{Conflicted, Element, Side};
use dm_prim::{Prim, invert_all};
use std::alloc::{AllocError, Allocator};
use std::marker::Model;

/// A conflict that was merged, with primitives alone in its contexts: the originals of its partners, which something before it
/// has undone already, the primitives that it alone undoes, and its own original. All of them start at the tree after it.
pub struct Conflictor<A: Allocator> {
    partners: Vec<Original<A>, A>,
    undone: Vec<Prim<A>, A>,
    own: Original<A>,
}

// By hand, so that this is called where one goes. What is derived stands there in full.
impl<A: Allocator> Drop for Conflictor<A> {
    fn drop(self) {
        let Conflictor {
            partners: _,
            undone: _,
            own: _,
        } = self;
    }
}

impl<A: Allocator> Model for Conflictor<A> {
    ghost use Rattle.dm_prim.specs.Prims.{prims_of};
    ghost use Rattle.dm_named.specs.Conflictors as conflictors;

    ghost Value = { conflictors.Conflictor };

    ghost view = { λ c. record { partners = c.partners.items; undone = prims_of c.undone.items; own = c.own } };
}

impl<A: Allocator> Conflictor<A> {
    /// The conflictor of these parts.
    pub fn new(
        partners: Vec<Original<A>, A>,
        undone: Vec<Prim<A>, A>,
        own: Original<A>,
    ) -> Conflictor<A>
        ensures { result ≡ record { partners = partners.items; undone = prims_of undone.items; own = own } }
    {
        Conflictor {
            partners,
            undone,
            own,
        }
    }

    /// The originals of its partners.
    pub fn partners(&self) -> &[Original<A>]
        ensures { result.now ≡ self.now.partners }
    {
        self.partners.as_slice()
    }

    /// What it alone undoes, first to last.
    pub fn undone(&self) -> &[Prim<A>]
        ensures { prims_of result.now ≡ self.now.undone }
    {
        self.undone.as_slice()
    }

    /// Its own original.
    pub fn own(&self) -> &Original<A>
        ensures { result.now ≡ self.now.own }
    {
        &self.own
    }

    /// How many primitives it has: no more than `most`, as the caller knows.
    pub(crate) fn size(&self, most: usize) -> usize
        requires { conflictor_size self.now ≤ most }
        ensures { result ≡ conflictor_size self.now }
    {
        total_size(self.partners(), most) + (self.undone.len() + self.own.size())
    }
}

/// How many primitives originals have: no more than `most`, as the caller knows.
fn total_size<A: Allocator>(originals: &[Original<A>], most: usize) -> usize
    requires { sizes_of originals.now ≤ most }
    ensures { result ≡ sizes_of originals.now }
{
    let mut size = 0;
    for original in originals {
        size += original.size();
    }
    size
}

impl<A: Allocator + Copy> Conflictor<A> {
    /// The element of a patch that it is: it undoes what the conflictor undoes, and its shadows are those of the partners and then of
    /// its own original.
    pub fn into_element(self, alloc: A) -> Result<Element<A>, AllocError>
        ensures { IfOk result (λ element. element_of element ≡ elements.Conflicted (conflict_of self)) }
    {
        let Conflictor {
            partners,
            undone,
            own,
        } = self;
        let mut shadows = into_shadows(alloc, partners)?;
        shadows.push(own.into_shadow()?)?;
        let conflict = Conflicted::new(Side::After, invert_all(undone), shadows);
        Ok(Element::Conflicted(conflict))
    }

    /// The conflictor that is this conflict; none where no conflictor is.
    pub fn from_conflict(
        alloc: A,
        conflict: Conflicted<A>,
    ) -> Result<Option<Conflictor<A>>, AllocError>
        ensures { IfOk result (IsConflictorOf conflict) }
    {
        let Side::After = conflict.side() else {
            return Ok(None);
        };
        let (effect, shadows) = conflict.into_parts();
        let Some(originals) = from_shadows(alloc, shadows)? else {
            return Ok(None);
        };
        let mut partners = originals;
        let Some(own) = partners.pop() else {
            return Ok(None);
        };
        Ok(Some(Conflictor::new(partners, invert_all(effect), own)))
    }
}

/// The shadows of originals, in order.
fn into_shadows<A: Allocator + Copy>(
    alloc: A,
    originals: Vec<Original<A>, A>,
) -> Result<Vec<Vec<Prim<A>, A>, A>, AllocError>
    ensures { IfOk result (λ shadows. lists_of shadows.items ≡ map shadow_of originals.items) }
{
    let mut shadows = Vec::new(alloc);
    for original in originals {
        shadows.push(original.into_shadow()?)?;
    }
    Ok(shadows)
}

/// The originals that have these shadows, in order; none where a shadow is empty.
fn from_shadows<A: Allocator + Copy>(
    alloc: A,
    shadows: Vec<Vec<Prim<A>, A>, A>,
) -> Result<Option<Vec<Original<A>, A>>, AllocError>
    ensures { IfOk result (AreOriginalsOf (lists_of shadows.items)) }
{
    let mut originals = Vec::new(alloc);
    for shadow in shadows {
        let Some(original) = Original::from_shadow(shadow) else {
            return Ok(None);
        };
        originals.push(original)?;
    }
    Ok(Some(originals))
}
