//! When two elements change places.
ghost use Rattle.std.specs.Prelude.{◌≡◌, [], ◌∷◌, IfOk, length};
ghost use Rattle.dm_prim.specs.Prims.{prim_of, prims_of};
ghost use Rattle.dm_element.specs.Elements as elements;
ghost use Rattle.dm_element.specs.Values.{element_of, ConflictsCommuteTo, ElementsCommuteTo, ElementLawsHold};

use crate::conflicted::Conflicted;
use crate::copies::{copy_lists, copy_prims, inverse_of};
use crate::element::Element;
use crate::shadows::{each_merges, pass_each};
use dm_prim::{Prim, commute_lists, commute_lists_owned, commute_owned};
use std::alloc::{AllocError, Allocator};

/// For e then f the elements f', e' that do the same in that order; none where there are none.
pub fn commute_elements<A: Allocator, B: Allocator, C: Allocator + Copy>(
    alloc: C,
    e: &Element<A>,
    f: &Element<B>,
) -> Result<Option<(Element<C>, Element<C>)>, AllocError>
    ensures answer { IfOk result (ElementsCommuteTo (element_of e.now) (element_of f.now)) }
    ensures laws { IfOk result (ElementLawsHold (element_of e.now) (element_of f.now)) }
{
    let first = e.copy_into(alloc)?;
    let second = f.copy_into(alloc)?;
    commute_elements_owned(alloc, first, second)
}

/// As [`commute_elements`], of elements that are given up. What does not change is moved: of a
/// primitive and a conflict only the primitive is copied, once for each shadow and at most twice more.
/// Two conflicts are copied. At an error, want of memory, both are lost.
pub fn commute_elements_owned<A: Allocator + Copy>(
    alloc: A,
    e: Element<A>,
    f: Element<A>,
) -> Result<Option<(Element<A>, Element<A>)>, AllocError>
    ensures answer { IfOk result (ElementsCommuteTo (element_of e) (element_of f)) }
    ensures laws { IfOk result (ElementLawsHold (element_of e) (element_of f)) }
{
    match e.into_plain() {
        Ok(p) => match f.into_plain() {
            Ok(q) => commute_plains(alloc, p, q),
            Err(d) => commute_plain_conflict(alloc, p, d),
        },
        Err(c) => match f.into_plain() {
            Ok(q) => commute_conflict_plain(alloc, c, q),
            Err(d) => commute_both_conflicts(alloc, c, d),
        },
    }
}

/// Two primitives.
fn commute_plains<A: Allocator + Copy>(
    alloc: A,
    p: Prim<A>,
    q: Prim<A>,
) -> Result<Option<(Element<A>, Element<A>)>, AllocError>
    ensures { IfOk result (ElementsCommuteTo (elements.Plain (prim_of p)) (elements.Plain (prim_of q))) }
{
    let Some((q, p)) = commute_owned(alloc, p, q)? else {
        return Ok(None);
    };
    Ok(Some((Element::Plain(q), Element::Plain(p))))
}

/// A primitive, then a conflict.
fn commute_plain_conflict<A: Allocator + Copy>(
    alloc: A,
    p: Prim<A>,
    d: Conflicted<A>,
) -> Result<Option<(Element<A>, Element<A>)>, AllocError>
    ensures { IfOk result (ElementsCommuteTo (elements.Plain (prim_of p)) (elements.Conflicted d)) }
{
    let side = d.side();
    let (effect, shadows) = d.into_parts();
    let before = alone(alloc, p)?;
    let first = copy_prims(alloc, before.as_slice())?;
    let Some((second, after)) = commute_lists_owned(alloc, first, effect)? else {
        return Ok(None);
    };
    let by = side.pick(before.as_slice(), after.as_slice());
    let Some(shadows) = pass_each(alloc, by, shadows)? else {
        return Ok(None);
    };
    let second = Conflicted::new(side, second, shadows);
    Ok(Some((Element::Conflicted(second), Element::Plain(only(after)))))
}

/// A conflict, then a primitive.
fn commute_conflict_plain<A: Allocator + Copy>(
    alloc: A,
    c: Conflicted<A>,
    q: Prim<A>,
) -> Result<Option<(Element<A>, Element<A>)>, AllocError>
    ensures { IfOk result (ElementsCommuteTo (elements.Conflicted c) (elements.Plain (prim_of q))) }
{
    let side = c.side();
    let (effect, shadows) = c.into_parts();
    let after = alone(alloc, q)?;
    let second = copy_prims(alloc, after.as_slice())?;
    let Some((before, first)) = commute_lists_owned(alloc, effect, second)? else {
        return Ok(None);
    };
    let by = inverse_of(alloc, side.pick(before.as_slice(), after.as_slice()))?;
    let Some(shadows) = pass_each(alloc, by.as_slice(), shadows)? else {
        return Ok(None);
    };
    let first = Conflicted::new(side, first, shadows);
    Ok(Some((Element::Plain(only(before)), Element::Conflicted(first))))
}

/// Two conflicts.
fn commute_both_conflicts<A: Allocator + Copy>(
    alloc: A,
    c: Conflicted<A>,
    d: Conflicted<A>,
) -> Result<Option<(Element<A>, Element<A>)>, AllocError>
    ensures { IfOk result (ElementsCommuteTo (elements.Conflicted c) (elements.Conflicted d)) }
{
    let Some((d, c)) = commute_conflicts(alloc, &c, &d)? else {
        return Ok(None);
    };
    Ok(Some((Element::Conflicted(d), Element::Conflicted(c))))
}

/// The list of one primitive.
fn alone<A: Allocator>(alloc: A, prim: Prim<A>) -> Result<Vec<Prim<A>, A>, AllocError>
    ensures { IfOk result (λ list. prims_of list.items ≡ prim_of prim ∷ []) }
{
    let mut list = Vec::new(alloc);
    list.push(prim)?;
    Ok(list)
}

/// The primitive of a list of one.
fn only<A: Allocator>(list: Vec<Prim<A>, A>) -> Prim<A>
    requires { length list.items ≡ 1 }
    ensures { prims_of list.items ≡ prim_of result ∷ [] }
{
    let mut list = list;
    let Some(prim) = list.pop() else {
        unreachable!()
    };
    prim
}

/// The same, of conflicts. Copies both.
fn commute_conflicts<A: Allocator + Copy>(
    alloc: A,
    e: &Conflicted<A>,
    f: &Conflicted<A>,
) -> Result<Option<(Conflicted<A>, Conflicted<A>)>, AllocError>
    ensures { IfOk result (ConflictsCommuteTo e.now f.now) }
{
    let Some((second, first)) = commute_lists(alloc, e.effect(), f.effect())? else {
        return Ok(None);
    };
    let backwards = inverse_of(alloc, e.side().pick(second.as_slice(), f.effect()))?;
    let Some(first_shadows) = pass_each(
        alloc,
        backwards.as_slice(),
        copy_lists(alloc, e.shadows())?,
    )?
    else {
        return Ok(None);
    };
    let forwards = f.side().pick(e.effect(), first.as_slice());
    let Some(second_shadows) = pass_each(alloc, forwards, copy_lists(alloc, f.shadows())?)? else {
        return Ok(None);
    };
    let ones = f.side().pick(e.shadows(), first_shadows.as_slice());
    let others = e.side().pick(second_shadows.as_slice(), f.shadows());
    if !each_merges(alloc, ones, others)? {
        return Ok(None);
    }
    let first = Conflicted::new(e.side(), first, first_shadows);
    let second = Conflicted::new(f.side(), second, second_shadows);
    Ok(Some((second, first)))
}
