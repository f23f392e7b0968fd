//! The handle of a repository.
ghost use Rattle.std.specs.Prelude.{◌≡◌, IsTrue, IsSome, Some, None, MatchOption};

use crate::inner::Inner;
use crate::loose::Loose;
use dm_repo::Repo;
use std::alloc::Global;
use std::mem::replace;

/// What C keeps of a repository: `dm_repo`.
#[repr(C)]
#[derive(Drop)]
pub struct Handle {
    /// Whether it holds a repository.
    pub(crate) holds: bool,
    /// The repository, if it holds one.
    pub(crate) inner: Inner,
    ghost told: { IsTrue holds → IsSome inner.kept },
}

impl Handle {
    ghost use Rattle.dm_c.specs.Handles.{held};

    /// Takes the repository out of the handle, which then holds none.
    pub(crate) fn take_out(&mut self, alloc: Global) -> Option<Box<Repo<Global>>>
        ensures old { MatchOption result (held self.old ≡ None) (λ repo. held self.old ≡ Some repo.value) }
        ensures new { held self.new ≡ None }
    {
        let empty = Handle {
            holds: false,
            inner: Inner::empty(),
        };
        let Handle { holds, inner } = replace(self, empty);
        if holds {
            Some(inner.into_loose(alloc).into_box())
        } else {
            None
        }
    }

    /// Puts a repository into the handle, which holds none.
    pub(crate) fn put(&mut self, repo: Box<Repo<Global>>)
        requires { held self.old ≡ None }
        ensures { held self.new ≡ Some repo.value }
    {
        let full = Handle {
            holds: true,
            inner: Inner::of_loose(Loose::of(repo)),
        };
        drop(replace(self, full));
    }
}
