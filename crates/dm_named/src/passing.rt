//! Named patches that pass each other, and what they touch.

ghost use Rattle.std.specs.Prelude.{◌≡◌, IfOk, IsTrue, List, MatchBool};
ghost use Rattle.dm_prim.specs.Primitives.{Prim, inv_all};
ghost use Rattle.dm_prim.specs.Commuting.{ListsCommute};
ghost use Rattle.dm_named.specs.Patches.{Patch};
ghost use Rattle.dm_named.specs.Commuting.{IsTouchKnown, NamedCommutes, StayKnown, Stays};

use crate::commuting::commute_prims;
use crate::named::Named;
use dm_prim::{Touched, apart, invert_all, touch};
use std::alloc::{AllocError, Allocator};
use std::marker::Model;

/// A named patch that may have to pass others. What it touches is computed when it first meets another, and kept as long
/// as it stays the same.
pub struct Passing<A: Allocator> {
    patch: Named<A>,
    touched: Option<Touched<A>>,
}

// By hand, so that this is called where one goes. What is derived stands there in full.
impl<A: Allocator> Drop for Passing<A> {
    fn drop(self) {
        let Passing {
            patch: _,
            touched: _,
        } = self;
    }
}

impl<A: Allocator> Model for Passing<A> {
    ghost use Rattle.dm_named.specs.Patches.{Patch};
    ghost use Rattle.dm_named.specs.Commuting.{IsTouchKnown};

    ghost Value = { Patch };

    ghost view = { λ p. p.patch };

    ghost invariant = { λ p. IsTouchKnown p.patch.prims p.touched };
}

impl<A: Allocator> Passing<A> {
    /// A patch that hasn't met another yet.
    pub fn new(patch: Named<A>) -> Passing<A>
        ensures { result ≡ patch }
    {
        Passing {
            patch,
            touched: None,
        }
    }

    /// Borrows the patch as it is now.
    pub fn named(&self) -> &Named<A>
        ensures { result.now ≡ self.now }
    {
        &self.patch
    }

    /// The patch as it is now.
    pub fn into_named(self) -> Named<A>
        ensures { result ≡ self }
    {
        let Passing { patch, touched: _ } = self;
        patch
    }

    /// Whether what both touch is known and has nothing in common. Then they pass each other unchanged.
    fn is_apart_from<B: Allocator>(&self, other: &Passing<B>) -> bool
        ensures { IsTrue result → ListsCommute self.now.prims other.now.prims other.now.prims self.now.prims }
    {
        let Some(first) = &self.touched else {
            return false;
        };
        let Some(second) = &other.touched else {
            return false;
        };
        apart(first, second)
    }
}

impl<A: Allocator + Copy> Passing<A> {
    /// Replaces the primitives by their inverse, which touches the same.
    pub fn undo(&mut self, alloc: A)
        ensures { self.new ≡ record self.old { prims = inv_all self.old.prims } }
    {
        let prims = self.patch.replace_prims(Vec::new(alloc));
        let _ = self.patch.replace_prims(invert_all(prims));
    }

    /// Computes what the patch touches, unless that is known.
    fn find_touched(&mut self, alloc: A) -> Result<(), AllocError>
        ensures { self.new ≡ self.old }
    {
        if self.touched.is_none() {
            self.touched = Some(touch(alloc, self.patch.prims())?);
        }
        Ok(())
    }
}

/// What a patch touched before, if it was known and the patch still touches that.
fn still_touched<A: Allocator>(touched: Option<Touched<A>>, patch: &Named<A>) -> Option<Touched<A>>
    ensures { IsTouchKnown patch.now.prims result }
{
    let Some(before) = touched else {
        return None;
    };
    if !before.is_of(patch.prims()) {
        return None;
    }
    Some(before)
}

/// Whether what both touch is known, and both touch the same after they have commuted.
fn stay_touched<A: Allocator>(first: &Option<Touched<A>>, second: &Option<Touched<A>>) -> bool
    ensures { IsTrue result → StayKnown first.now second.now }
{
    let Some(first) = first else {
        return false;
    };
    let Some(second) = second else {
        return false;
    };
    first.stays_with(second)
}

/// Commutes the primitives of both, whatever they touch. What they touch is kept if it stays the same. Only if a move may
/// have changed a path are the primitives searched for it.
fn commute_touching<A: Allocator + Copy>(
    alloc: A,
    x: &mut Passing<A>,
    y: &mut Passing<A>,
) -> Result<bool, AllocError>
    ensures x_stays { Stays x.old x.new }
    ensures y_stays { Stays y.old y.new }
    ensures prims { IfOk result (λ commutes. MatchBool commutes
        (ListsCommute x.old.prims y.old.prims y.new.prims x.new.prims)
        ((ys' xs' : List Prim) → ListsCommute x.old.prims y.old.prims ys' xs' → ⊥)) }
{
    let stay = stay_touched(&x.touched, &y.touched);
    let commutes = commute_prims(alloc, &mut x.patch, &mut y.patch);
    if stay {
        if let Ok(true) = &commutes {
            return commutes;
        }
    }
    x.touched = still_touched(x.touched.take(), &x.patch);
    y.touched = still_touched(y.touched.take(), &y.patch);
    commutes
}

/// Whether both touch nothing in common. Then their primitives commute unchanged. What each touches is computed in its own
/// memory, unless that is known.
pub fn are_apart<A: Allocator + Copy, B: Allocator + Copy>(
    alloc: A,
    x: &mut Passing<A>,
    other: B,
    y: &mut Passing<B>,
) -> Result<bool, AllocError>
    ensures x_same { x.new ≡ x.old }
    ensures y_same { y.new ≡ y.old }
    ensures prims { IfOk result (λ apart. IsTrue apart → ListsCommute x.old.prims y.old.prims y.old.prims x.old.prims) }
{
    x.find_touched(alloc)?;
    y.find_touched(other)?;
    Ok(x.is_apart_from(y))
}

/// Commutes the primitives of `x` then those of `y`, in place, and returns whether they commute. Patch infos and
/// dependencies play no part. If both touch nothing in common, nothing changes. If they don't commute, or memory runs out,
/// both may be left without primitives.
pub fn commute_prims_in_place<A: Allocator + Copy>(
    alloc: A,
    x: &mut Passing<A>,
    y: &mut Passing<A>,
) -> Result<bool, AllocError>
    ensures x_stays { Stays x.old x.new }
    ensures y_stays { Stays y.old y.new }
    ensures prims { IfOk result (λ commutes. MatchBool commutes
        (ListsCommute x.old.prims y.old.prims y.new.prims x.new.prims)
        ((ys' xs' : List Prim) → ListsCommute x.old.prims y.old.prims ys' xs' → ⊥)) }
{
    if are_apart(alloc, x, alloc, y)? {
        return Ok(true);
    }
    commute_touching(alloc, x, y)
}

/// Commutes `x` then `y`, in place, and returns whether they commute: then `y` followed by `x` does now what `x` followed by
/// `y` did. If one names the other as a dependency, nothing changes. If their primitives don't commute, or memory runs out,
/// both may be left without primitives.
pub fn commute_named_in_place<A: Allocator + Copy>(
    alloc: A,
    x: &mut Passing<A>,
    y: &mut Passing<A>,
) -> Result<bool, AllocError>
    ensures x_stays { Stays x.old x.new }
    ensures y_stays { Stays y.old y.new }
    ensures commutes { IfOk result (λ commutes. MatchBool commutes
        (NamedCommutes x.old y.old y.new x.new)
        ((y' x' : Patch) → NamedCommutes x.old y.old y' x' → ⊥)) }
{
    if y.named().depends_on(x.named().info()) {
        return Ok(false);
    }
    if x.named().depends_on(y.named().info()) {
        return Ok(false);
    }
    let commutes = commute_prims_in_place(alloc, x, y)?;
    Ok(commutes)
}
