//! When two lists of elements change places.
ghost use Rattle.std.specs.Prelude.{IfOk};
ghost use Rattle.dm_element.specs.Values.{element_of, elements_of, ElementPassesTo, ElementListsCommuteTo, ElementListLawsHold};

use crate::element::Element;
use crate::pair::commute_elements_owned;
use std::alloc::{AllocError, Allocator};
use std::collections::VecDeque;

/// For es then fs the lists fs', es' that do the same in that order; none where there is no rectangle
/// of pairs that change places. An empty list changes places with every list. Takes as many steps as
/// the product of the lengths, and memory where [`commute_elements_owned`] does.
pub fn commute_element_lists_owned<A: Allocator + Copy>(
    alloc: A,
    es: Vec<Element<A>, A>,
    fs: Vec<Element<A>, A>,
) -> Result<Option<(Vec<Element<A>, A>, Vec<Element<A>, A>)>, AllocError>
    ensures answer { IfOk result (ElementListsCommuteTo (elements_of es.items) (elements_of fs.items)) }
    ensures laws { IfOk result (ElementListLawsHold (elements_of es.items) (elements_of fs.items)) }
{
    // The last of es passes fs first. Each that passed goes to the front, so that es turns round
    // once and stands in its order again.
    let mut row = VecDeque::from(fs);
    let mut moved = VecDeque::from(es);
    for i in 0..moved.len() {
        let Some(last) = moved.pop_back() else {
            unreachable!()
        };
        let Some(passed) = pass(alloc, last, &mut row)? else {
            return Ok(None);
        };
        let Ok(()) = moved.push_front(passed) else {
            unreachable!()
        };
    }
    Ok(Some((Vec::from(row), Vec::from(moved))))
}

/// One element past all of a row, which turns round once: each goes from its front to its end as it
/// is once the element has passed. None where it can't pass; the row is then of no use.
fn pass<A: Allocator + Copy>(
    alloc: A,
    first: Element<A>,
    row: &mut VecDeque<Element<A>, A>,
) -> Result<Option<Element<A>>, AllocError>
    ensures { IfOk result (ElementPassesTo (element_of first) (elements_of row.old.items) (elements_of row.new.items)) }
{
    let mut first = first;
    for i in 0..row.len() {
        let Some(second) = row.pop_front() else {
            unreachable!()
        };
        let Some((passed, moved)) = commute_elements_owned(alloc, first, second)? else {
            return Ok(None);
        };
        let Ok(()) = row.push_back(passed) else {
            unreachable!()
        };
        first = moved;
    }
    Ok(Some(first))
}
