//! Primitives are spread over names.
ghost use Rattle.std.specs.Prelude.{◌≡◌, ◌≤◌, ◌∷◌, [], length, take, drop, IfOk};
ghost use Rattle.dm_named.specs.Limits.{own};
ghost use Rattle.dm_prim.specs.Prims.{prims_of};
ghost use Rattle.dm_begin.specs.Spreading.{first_count, spread};

use dm_info::Info;
use dm_named::{Limits, Named};
use dm_prim::Prim;
use std::alloc::{AllocError, Allocator};
use std::collections::VecDeque;
use std::mem;

/// How many of so many primitives the first patch has: what doesn't fit into so many later ones.
fn count_of_first(count: usize, later: usize) -> usize
    requires { later ≤ own.patches }
    ensures { result ≡ first_count count later }
{
    count.saturating_sub(later * Limits::OWN.prims)
}

/// The next primitives, so many of them.
fn next_prims<A: Allocator + Copy>(
    alloc: A,
    queue: &mut VecDeque<Prim<A>, A>,
    count: usize,
) -> Result<Vec<Prim<A>, A>, AllocError>
    requires { count ≤ length queue.old.items }
    ensures next { IfOk result (λ prims. prims.items ≡ take count queue.old.items) }
    ensures left { IfOk result (λ _. queue.new.items ≡ drop count queue.old.items) }
{
    let mut prims = Vec::with_capacity(alloc, count)?;
    for i in 0..count {
        let Some(prim) = queue.pop_front() else {
            unreachable!()
        };
        prims.push(prim)?;
    }
    Ok(prims)
}

/// The patch of a name, of these dependencies. Those of the patch after it take their place: this name alone.
fn next_patch<A: Allocator + Copy>(
    alloc: A,
    name: Info<A>,
    deps: &mut Vec<Info<A>, A>,
    prims: Vec<Prim<A>, A>,
) -> Result<Named<A>, AllocError>
    ensures patch { IfOk result (λ patch. patch ≡ record { info = name; deps = deps.old.items; prims = prims_of prims.items }) }
    ensures next { IfOk result (λ _. deps.new.items ≡ name ∷ []) }
{
    let mut next = Vec::new(alloc);
    next.push(name.copy_into(alloc)?)?;
    Ok(Named::new(name, mem::replace(deps, next), prims))
}

/// A patch for each name, each of which depends on the one before it. The primitives are in the last of them.
pub(crate) fn spread_prims<A: Allocator + Copy>(
    alloc: A,
    names: Vec<Info<A>, A>,
    prims: Vec<Prim<A>, A>,
) -> Result<Vec<Named<A>, A>, AllocError>
    requires { length names.items ≤ own.patches }
    ensures { IfOk result (λ patches. patches.items ≡ spread [] names.items (prims_of prims.items)) }
{
    let mut patches = Vec::with_capacity(alloc, names.len())?;
    let mut deps = Vec::new(alloc);
    let mut later = names.len();
    let mut queue = VecDeque::from(prims);
    for name in names {
        later -= 1;
        let count = count_of_first(queue.len(), later);
        let next = next_prims(alloc, &mut queue, count)?;
        let patch = next_patch(alloc, name, &mut deps, next)?;
        patches.push(patch)?;
    }
    Ok(patches)
}
