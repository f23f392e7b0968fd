//! The names of a repository's patches, by which each is found.
ghost use Rattle.std.specs.Prelude.{◌≡◌, ◌≤◌, ◌++◌, [], length, slice_get, Some, Contains, IfOk, MatchOption};
ghost use Rattle.indexmap.specs.IndexSet.{spare};
ghost use Rattle.dm_bundle.specs.Patches.{infos_of, Distinct};

use dm_info::Info;
use dm_named::Named;
use indexmap::IndexSet;
use std::alloc::{AllocError, Allocator};
use std::hash::{BuildHasherDefault, DefaultHasher};

/// Patch infos in the order of their patches, each found by its hash, which is SipHash-1-3 with keys 0.
pub(crate) type Names<A> = IndexSet<Info<A>, BuildHasherDefault<DefaultHasher>, A>;

/// No names; takes no memory.
pub(crate) fn no_names<A: Allocator + Copy>(alloc: A) -> Names<A>
    ensures { result.keys ≡ [] }
{
    IndexSet::with_hasher(alloc, BuildHasherDefault::new())
}

/// The place of a name.
pub(crate) fn place_of<A: Allocator>(names: &Names<A>, info: &Info<A>) -> Option<usize>
    ensures { MatchOption result
        (Contains names.now.keys info.now → ⊥)
        (λ i. slice_get names.now.keys i ≡ Some info.now) }
{
    names.get_index_of(info)
}

/// Appends names that aren't there yet, and for which there is room.
pub(crate) fn append_names<A: Allocator>(names: &mut Names<A>, more: Vec<Info<A>, A>)
    requires room { length more.items ≤ spare names.old }
    requires distinct { Distinct (names.old.keys ++ more.items) }
    ensures { names.new.keys ≡ names.old.keys ++ more.items }
{
    for name in more {
        let _ = names.insert(name);
    }
}

/// The names of patches.
pub(crate) fn index_of<A: Allocator + Copy>(
    alloc: A,
    patches: &[Named<A>],
) -> Result<Names<A>, AllocError>
    requires { Distinct (infos_of patches.now) }
    ensures { IfOk result (λ names. names.keys ≡ infos_of patches.now) }
{
    let more = copy_names(alloc, patches)?;
    let mut names = no_names(alloc);
    names.reserve(more.len())?;
    append_names(&mut names, more);
    Ok(names)
}

/// Copies of the names of patches, under another allocator.
pub fn copy_names<A: Allocator, B: Allocator + Copy>(
    alloc: B,
    patches: &[Named<A>],
) -> Result<Vec<Info<B>, B>, AllocError>
    ensures { IfOk result (λ names. names.items ≡ infos_of patches.now) }
{
    let mut names = Vec::with_capacity(alloc, patches.len())?;
    for patch in patches {
        names.push(patch.info().copy_into(alloc)?)?;
    }
    Ok(names)
}
