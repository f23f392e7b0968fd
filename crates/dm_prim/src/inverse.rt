//! The inverses of primitives and of lists of them.
ghost use Rattle.std.specs.Prelude.{◌≡◌, map};
ghost use Rattle.dm_prim.specs.Primitives.{inv, inv_all};
ghost use Rattle.dm_prim.specs.Prims.{prim_of, prims_of};

use crate::primitive::Primitive;
use std::alloc::Allocator;
use std::collections::VecDeque;

/// The primitive that undoes it. Takes no memory.
pub fn invert<A: Allocator>(prim: Primitive<A>) -> Primitive<A>
    ensures { prim_of result ≡ inv (prim_of prim) }
{
    prim.inverse()
}

/// The list that undoes it: each inverted, in reversed order. Takes no memory.
pub fn invert_all<A: Allocator>(prims: Vec<Primitive<A>, A>) -> Vec<Primitive<A>, A>
    ensures { prims_of result.items ≡ inv_all (prims_of prims.items) }
{
    let mut inverses = invert_each(prims);
    inverses.reverse();
    inverses
}

/// Each inverted, in the same order: a queue that turns round once.
fn invert_each<A: Allocator>(prims: Vec<Primitive<A>, A>) -> Vec<Primitive<A>, A>
    ensures { prims_of result.items ≡ map inv (prims_of prims.items) }
{
    let mut queue = VecDeque::from(prims);
    for i in 0..queue.len() {
        let Some(prim) = queue.pop_front() else {
            unreachable!()
        };
        let Ok(()) = queue.push_back(invert(prim)) else {
            unreachable!()
        };
    }
    Vec::from(queue)
}
