//! Which conflicts of a list of patches are settled by what follows them.
ghost use Rattle.std.specs.Prelude.{◌↔◌, ◌++◌, IfOk, IsTrue, MatchBool};
ghost use Rattle.dm_element.specs.Elements as elements;
ghost use Rattle.dm_element.specs.Settled.{elements_in, IsNamed, PassesAll, IsSettledPatch, IsUnsettledPatch, FindsUnsettled};
ghost use Rattle.dm_element.specs.Values.{element_of, elements_of, patch_of, patches_of, PassesOver};

use crate::conflicted::Conflicted;
use crate::element::Element;
use crate::pair::commute_elements_owned;
use std::alloc::{AllocError, Allocator};

/// A patch of a list.
#[derive(Drop)]
pub struct Patch<'a, A: Allocator> {
    /// Its elements, in order.
    pub elements: &'a [Element<A>],
    /// The places in the list of the earlier patches that it names as explicit dependencies.
    pub names: &'a [usize],
}

/// The place of the first patch with a conflict that nothing settles; none where all are settled. A
/// later patch that names the patch of a conflict settles it, and so does an element after it that
/// it can't pass. Each element that a conflict passes is copied. An error is want of memory, and says
/// nothing of the patches.
pub fn find_unsettled<A: Allocator, B: Allocator + Copy>(
    alloc: B,
    patches: &[Patch<'_, A>],
) -> Result<Option<usize>, AllocError>
    ensures { IfOk result (FindsUnsettled (patches_of patches.now)) }
{
    for place in 0..patches.len() {
        if !is_settled(alloc, place, &patches[place], &patches[place + 1..])? {
            return Ok(Some(place));
        }
    }
    Ok(None)
}

/// Whether each conflict of the patch at this place is settled, where these come after it.
fn is_settled<A: Allocator, B: Allocator + Copy>(
    alloc: B,
    place: usize,
    patch: &Patch<'_, A>,
    later: &[Patch<'_, A>],
) -> Result<bool, AllocError>
    ensures { IfOk result (λ settled. MatchBool settled
        (IsSettledPatch place (patch_of patch.now) (patches_of later.now))
        (IsUnsettledPatch place (patch_of patch.now) (patches_of later.now))) }
{
    if is_named(place, later) {
        return Ok(true);
    }
    for at in 0..patch.elements.len() {
        let Element::Conflicted(conflict) = &patch.elements[at] else {
            continue;
        };
        if passes_all(alloc, conflict, &patch.elements[at + 1..], later)? {
            return Ok(false);
        }
    }
    Ok(true)
}

/// Whether one of these names the patch at this place.
fn is_named<A: Allocator>(place: usize, patches: &[Patch<'_, A>]) -> bool
    ensures { IsTrue result ↔ IsNamed place (patches_of patches.now) }
{
    for patch in patches {
        if patch.names.contains(&place) {
            return true;
        }
    }
    false
}

/// Whether a conflict passes what is left of its patch, and then the later ones.
fn passes_all<A: Allocator, B: Allocator + Copy>(
    alloc: B,
    conflict: &Conflicted<A>,
    rest: &[Element<A>],
    later: &[Patch<'_, A>],
) -> Result<bool, AllocError>
    ensures { IfOk result (λ passes. IsTrue passes ↔
        PassesAll (elements.Conflicted conflict.now) (elements_of rest.now ++ elements_in (patches_of later.now))) }
{
    let first = Element::Conflicted(conflict.copy_into(alloc)?);
    let Some(first) = pass_over(alloc, first, rest)? else {
        return Ok(false);
    };
    let mut moved = first;
    for patch in later {
        let Some(next) = pass_over(alloc, moved, patch.elements)? else {
            return Ok(false);
        };
        moved = next;
    }
    Ok(true)
}

/// An element past all of these, which stay as they are; none where it can't pass.
fn pass_over<A: Allocator, B: Allocator + Copy>(
    alloc: B,
    first: Element<B>,
    row: &[Element<A>],
) -> Result<Option<Element<B>>, AllocError>
    ensures { IfOk result (PassesOver (element_of first) (elements_of row.now)) }
{
    let mut first = first;
    for second in row {
        let second = second.copy_into(alloc)?;
        let Some((_passed, moved)) = commute_elements_owned(alloc, first, second)? else {
            return Ok(None);
        };
        first = moved;
    }
    Ok(Some(first))
}
