//! Whether the shadows of the conflicts of a list stand: whether each applies to the tree on its side.
ghost use Rattle.std.specs.Prelude.{◌≡◌, ◌≢◌, All, false, IfOk, MatchBool, MatchOption};
ghost use Rattle.std.specs.FinMap as map;
ghost use Rattle.dm_tree.specs.declared.fault.TreeFault.TheVariants as faults;
ghost use Rattle.dm_prim.specs.Primitives.{LawfulMap};
ghost use Rattle.dm_prim.specs.Prims.{prim_of, prims_of};
ghost use Rattle.dm_prim.specs.InTurn.{InTurn};
ghost use Rattle.dm_element.specs.Elements as elements;
ghost use Rattle.dm_element.specs.Lists.{lists_of};
ghost use Rattle.dm_element.specs.Values.{element_of, elements_of};
ghost use Rattle.dm_element.specs.Standing.{Falls, FindsFallen, IsFirstFallen, LeadsWithin, Stands, StandsBetween};

use crate::conflicted::Conflicted;
use crate::element::Element;
use crate::side::Side;
use dm_prim::{Prim, apply, touch};
use dm_tree::laws::tree_is_lawful;
use dm_tree::{Tree, TreeFault};
use std::alloc::{AllocError, Allocator};

/// What of a list of elements falls.
#[derive(Clone, Copy)]
pub struct Fallen {
    /// The place of the element in the list.
    pub element: usize,
    /// The place of its shadow that doesn't stand; none where its effect doesn't apply.
    pub shadow: Option<usize>,
}

/// The first element that falls, where they are applied in turn to the tree: its effect doesn't apply,
/// or goes past a limit of trees, or one of its shadows does so on the tree on its side. None where
/// none falls. Each shadow is tried on a copy of what its paths reach. An error is want of memory, and
/// says nothing of the elements.
pub fn find_fallen<A: Allocator + Copy, B: Allocator>(
    alloc: A,
    tree: Tree<A>,
    elements: &[Element<B>],
) -> Result<Option<Fallen>, AllocError>
    ensures { (s : LawfulMap) → s.map ≡ map.get tree → IfOk result (FindsFallen (elements_of elements.now) s) }
{
    let mut tree = tree;
    for place in 0..elements.len() {
        if let Some(fallen) = try_element(alloc, &mut tree, place, &elements[place])? {
            return Ok(Some(fallen));
        }
    }
    Ok(None)
}

/// Applies the element at a place to the tree, or tells what of it falls.
fn try_element<A: Allocator + Copy, B: Allocator>(
    alloc: A,
    tree: &mut Tree<A>,
    place: usize,
    element: &Element<B>,
) -> Result<Option<Fallen>, AllocError>
    ensures { (s : LawfulMap) → s.map ≡ map.get tree.old → IfOk result (λ fallen. MatchOption fallen
        ((t : LawfulMap) × (t.map ≡ map.get tree.new) × StandsBetween LeadsWithin (element_of element.now) s t)
        (λ f. (f.element ≡ place) × Falls (element_of element.now) s f.shadow)) }
{
    match element {
        Element::Plain(prim) => try_prim(tree, place, prim),
        Element::Conflicted(conflict) => match conflict.side() {
            Side::After => try_after(alloc, tree, place, conflict),
            Side::Before => try_before(alloc, tree, place, conflict),
        },
    }
}

/// The same of a primitive.
fn try_prim<A: Allocator + Copy, B: Allocator>(
    tree: &mut Tree<A>,
    place: usize,
    prim: &Prim<B>,
) -> Result<Option<Fallen>, AllocError>
    ensures { (s : LawfulMap) → s.map ≡ map.get tree.old → IfOk result (λ fallen. MatchOption fallen
        ((t : LawfulMap) × (t.map ≡ map.get tree.new) × StandsBetween LeadsWithin (elements.Plain (prim_of prim.now)) s t)
        (λ f. (f.element ≡ place) × Falls (elements.Plain (prim_of prim.now)) s f.shadow)) }
{
    if leads(prim, tree)? {
        return Ok(None);
    }
    Ok(Some(Fallen {
        element: place,
        shadow: None,
    }))
}

/// The same of a conflict whose shadows stand on the tree after it.
fn try_after<A: Allocator + Copy, B: Allocator>(
    alloc: A,
    tree: &mut Tree<A>,
    place: usize,
    conflict: &Conflicted<B>,
) -> Result<Option<Fallen>, AllocError>
    ensures { (s : LawfulMap) → s.map ≡ map.get tree.old → IfOk result (λ fallen. MatchOption fallen
        ((t : LawfulMap) × (t.map ≡ map.get tree.new) × InTurn LeadsWithin conflict.now.effect s t × All (λ m. Stands LeadsWithin m t) conflict.now.shadows)
        (λ f. (f.element ≡ place) × MatchOption f.shadow (Stands LeadsWithin conflict.now.effect s → ⊥)
        (λ shadow. (t : LawfulMap) × InTurn LeadsWithin conflict.now.effect s t × IsFirstFallen conflict.now.shadows t shadow))) }
{
    if !lead_all(conflict.effect(), tree)? {
        return Ok(Some(Fallen {
            element: place,
            shadow: None,
        }));
    }
    match find_fallen_shadow(alloc, tree, conflict.shadows())? {
        None => Ok(None),
        Some(shadow) => Ok(Some(Fallen {
            element: place,
            shadow: Some(shadow),
        })),
    }
}

/// The same of a conflict whose shadows stand on the tree before it: they are tried first, but told of
/// only where the effect applies.
fn try_before<A: Allocator + Copy, B: Allocator>(
    alloc: A,
    tree: &mut Tree<A>,
    place: usize,
    conflict: &Conflicted<B>,
) -> Result<Option<Fallen>, AllocError>
    ensures { (s : LawfulMap) → s.map ≡ map.get tree.old → IfOk result (λ fallen. MatchOption fallen
        ((t : LawfulMap) × (t.map ≡ map.get tree.new) × InTurn LeadsWithin conflict.now.effect s t × All (λ m. Stands LeadsWithin m s) conflict.now.shadows)
        (λ f. (f.element ≡ place) × MatchOption f.shadow (Stands LeadsWithin conflict.now.effect s → ⊥)
        (λ shadow. (t : LawfulMap) × InTurn LeadsWithin conflict.now.effect s t × IsFirstFallen conflict.now.shadows s shadow))) }
{
    let fallen = find_fallen_shadow(alloc, tree, conflict.shadows())?;
    if !lead_all(conflict.effect(), tree)? {
        return Ok(Some(Fallen {
            element: place,
            shadow: None,
        }));
    }
    match fallen {
        None => Ok(None),
        Some(shadow) => Ok(Some(Fallen {
            element: place,
            shadow: Some(shadow),
        })),
    }
}

/// The place of the first of some shadows that doesn't stand on the tree.
fn find_fallen_shadow<A: Allocator + Copy, B: Allocator>(
    alloc: A,
    tree: &Tree<A>,
    shadows: &[Vec<Prim<B>, B>],
) -> Result<Option<usize>, AllocError>
    ensures { (s : LawfulMap) → s.map ≡ map.get tree.now → IfOk result (λ place. MatchOption place
        (All (λ m. Stands LeadsWithin m s) (lists_of shadows.now))
        (IsFirstFallen (lists_of shadows.now) s)) }
{
    for place in 0..shadows.len() {
        if !stands(alloc, tree, shadows[place].as_slice())? {
            return Ok(Some(place));
        }
    }
    Ok(None)
}

/// Whether a shadow stands on the tree. It is tried on a copy of what its paths reach there.
fn stands<A: Allocator + Copy, B: Allocator>(
    alloc: A,
    tree: &Tree<A>,
    shadow: &[Prim<B>],
) -> Result<bool, AllocError>
    ensures { (s : LawfulMap) → s.map ≡ map.get tree.now → IfOk result (λ stands. MatchBool stands
        (Stands LeadsWithin (prims_of shadow.now) s)
        (Stands LeadsWithin (prims_of shadow.now) s → ⊥)) }
{
    let paths = touch(alloc, shadow)?.into_paths();
    let mut part = tree.part(alloc, &paths)?;
    tree_is_lawful(tree);
    lead_all(shadow, &mut part)
}

/// Applies primitives in turn, and returns whether all lead on.
fn lead_all<A: Allocator + Copy, B: Allocator>(
    prims: &[Prim<B>],
    tree: &mut Tree<A>,
) -> Result<bool, AllocError>
    ensures { (s : LawfulMap) → s.map ≡ map.get tree.old → IfOk result (λ lead. MatchBool lead
        ((t : LawfulMap) × (t.map ≡ map.get tree.new) × InTurn LeadsWithin (prims_of prims.now) s t)
        (Stands LeadsWithin (prims_of prims.now) s → ⊥)) }
{
    for k in 0..prims.len() {
        if !leads(&prims[k], tree)? {
            return Ok(false);
        }
    }
    Ok(true)
}

/// Applies a primitive, and returns whether it leads on.
fn leads<A: Allocator + Copy, B: Allocator>(
    prim: &Prim<B>,
    tree: &mut Tree<A>,
) -> Result<bool, AllocError>
    ensures { (s : LawfulMap) → s.map ≡ map.get tree.old → IfOk result (λ leads. MatchBool leads
        ((t : LawfulMap) × (t.map ≡ map.get tree.new) × LeadsWithin (prim_of prim.now) s t)
        ((t : LawfulMap) → LeadsWithin (prim_of prim.now) s t → ⊥)) }
{
    if let Err(fault) = apply(prim, tree) {
        return refused(fault);
    }
    tree_is_lawful(tree);
    Ok(true)
}

/// A fault of a primitive says that it doesn't lead on; out of memory says nothing, and is handed on.
fn refused(fault: TreeFault) -> Result<bool, AllocError>
    ensures { IfOk result (λ leads. (leads ≡ false) × (fault ≢ faults.NoMemory)) }
{
    match fault {
        TreeFault::NoMemory => Err(AllocError),
        _ => Ok(false),
    }
}
