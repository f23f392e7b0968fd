//! When two lists of primitives commute.
ghost use Rattle.std.specs.Prelude.{◌≡◌, IfOk};
ghost use Rattle.dm_prim.specs.Prims.{prim_of, prims_of, PassesTo, ListsCommuteTo, ListLawsHold};

use crate::pair::commute_owned;
use crate::primitive::Primitive;
use std::alloc::{AllocError, Allocator};
use std::collections::VecDeque;

/// For xs then ys the lists ys', xs' that do the same in that order; none where there is no
/// rectangle of pairs that commute. An empty list commutes with every list.
pub fn commute_lists<A: Allocator, B: Allocator, C: Allocator + Copy>(
    alloc: C,
    xs: &[Primitive<A>],
    ys: &[Primitive<B>],
) -> Result<Option<(Vec<Primitive<C>, C>, Vec<Primitive<C>, C>)>, AllocError>
    ensures answer { IfOk result (ListsCommuteTo (prims_of xs.now) (prims_of ys.now)) }
    ensures laws { IfOk result (ListLawsHold (prims_of xs.now) (prims_of ys.now)) }
{
    let first = copy_all(alloc, xs)?;
    let second = copy_all(alloc, ys)?;
    commute_lists_owned(alloc, first, second)
}

/// As `commute_lists`, of lists that are given up, in as many steps as the product of their
/// lengths. What does not change is moved: only a path that a move changes, and lines that a replace changes, take memory.
pub fn commute_lists_owned<A: Allocator + Copy>(
    alloc: A,
    xs: Vec<Primitive<A>, A>,
    ys: Vec<Primitive<A>, A>,
) -> Result<Option<(Vec<Primitive<A>, A>, Vec<Primitive<A>, A>)>, AllocError>
    ensures answer { IfOk result (ListsCommuteTo (prims_of xs.items) (prims_of ys.items)) }
    ensures laws { IfOk result (ListLawsHold (prims_of xs.items) (prims_of ys.items)) }
{
    // The last of xs passes ys first. Each that passed goes to the front, so that xs turns round
    // once and stands in its order again.
    let mut row = VecDeque::from(ys);
    let mut moved = VecDeque::from(xs);
    for i in 0..moved.len() {
        let Some(last) = moved.pop_back() else {
            unreachable!()
        };
        let Some(passed) = pass(alloc, last, &mut row)? else {
            return Ok(None);
        };
        let Ok(()) = moved.push_front(passed) else {
            unreachable!()
        };
    }
    Ok(Some((Vec::from(row), Vec::from(moved))))
}

/// One primitive past all of a row, which turns round once: each goes from its front to its end as
/// it is once the primitive has passed. None where it can't pass; the row is then of no use.
fn pass<A: Allocator + Copy>(
    alloc: A,
    first: Primitive<A>,
    row: &mut VecDeque<Primitive<A>, A>,
) -> Result<Option<Primitive<A>>, AllocError>
    ensures { IfOk result (PassesTo (prim_of first) (prims_of row.old.items) (prims_of row.new.items)) }
{
    let mut first = first;
    for i in 0..row.len() {
        let Some(second) = row.pop_front() else {
            unreachable!()
        };
        let Some((passed, moved)) = commute_owned(alloc, first, second)? else {
            return Ok(None);
        };
        let Ok(()) = row.push_back(passed) else {
            unreachable!()
        };
        first = moved;
    }
    Ok(Some(first))
}

fn copy_all<A: Allocator, B: Allocator + Copy>(
    alloc: B,
    prims: &[Primitive<A>],
) -> Result<Vec<Primitive<B>, B>, AllocError>
    ensures { IfOk result (λ copy. prims_of copy.items ≡ prims_of prims.now) }
{
    let mut copy = Vec::with_capacity(alloc, prims.len())?;
    for prim in prims {
        copy.push(prim.copy_into(alloc)?)?;
    }
    Ok(copy)
}
