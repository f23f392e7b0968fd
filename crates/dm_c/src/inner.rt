//! A repository on the heap, as its pointer.
ghost use Rattle.std.specs.Prelude.{◌≡◌, Option, Some, None, IsSome};
ghost use Rattle.dm_repo.specs.Repositories.{Repository};

use crate::loose::Loose;
use dm_repo::Repo;
use std::alloc::Global;
use std::marker::Model;

/// A pointer to a repository, which it owns, or to nothing.
///
/// C sees the pointer alone. It points to bytes, since no type that C sees may lead to one that it doesn't know.
#[repr(C)]
#[derive(Drop)]
pub struct Inner {
    at: *mut u8,
    pub(crate) ghost kept: { Option Repository },
}

impl Model for Inner {
    ghost use Rattle.dm_c.specs.Pointers.{owns_kept};

    ghost also_owns = { λ inner. owns_kept inner.at inner.kept };
}

impl Inner {
    /// A pointer to nothing.
    pub(crate) fn empty() -> Inner
        ensures { result.kept ≡ None }
    {
        Inner {
            at: std::ptr::null_mut(),
        }
    }

    /// The pointer of a box that was taken apart.
    pub(crate) fn of_loose(loose: Loose<Repo<Global>, Global>) -> Inner
        ensures { result.kept ≡ Some loose.value }
    {
        let Loose { at, alloc: _global } = loose;
        Inner { at: at.cast() }
    }

    /// The box of the pointer, taken apart.
    pub(crate) fn into_loose(self, alloc: Global) -> Loose<Repo<Global>, Global>
        requires { IsSome self.kept }
        ensures { self.kept ≡ Some result.value }
    {
        let Inner { at } = self;
        Loose {
            at: at.cast(),
            alloc,
        }
    }
}
