//! Why rows of squares end early.
ghost use Rattle.std.specs.Prelude.{◌≡◌};
ghost use Rattle.dm_repo.specs.Stops.{blocked_at, refusal_of, refusal_between};
ghost use Rattle.dm_repo.specs.declared.refusal.Refusal.TheVariants.{ContextDepends, HeldDepends, DoesNotFit, Conflicts, Full};
ghost use Rattle.dm_repo.specs.declared.stop.Stop.TheVariants as stops;
ghost use Rattle.dm_repo.specs.declared.stop.Blocked.TheVariants as blocks;

use crate::refusal::Refusal;
use std::alloc::{AllocError, AllocFailed};

/// Why a row ends early.
#[derive(Drop)]
pub(crate) enum Stop {
    /// The patch of this place stops it.
    At(usize),
    /// An allocation failed.
    NoMemory,
}

impl From<AllocError> for Stop {
    ghost from_gives = { λ _ stop. stop ≡ stops.NoMemory };

    fn from(_: AllocError) -> Stop {
        Stop::NoMemory
    }
}

impl Stop {
    /// Out of memory, where no patch stops the row.
    pub(crate) fn refused(self) -> AllocError
        requires { self ≡ stops.NoMemory }
    {
        match self {
            Stop::At(_) => unreachable!(),
            Stop::NoMemory => AllocError,
        }
    }

    /// The same of a list of rows, of which the row of the patch at this place ends early.
    pub(crate) fn blocked(self, at: usize) -> Blocked
        ensures { result ≡ blocked_at at self }
    {
        match self {
            Stop::At(by) => Blocked::By(at, by),
            Stop::NoMemory => Blocked::NoMemory,
        }
    }

    /// Where patches that must lead on from a tree are stopped: one goes past a limit.
    pub(crate) fn full(self) -> Refusal
        ensures { result ≡ refusal_of (λ _. Full) self }
    {
        match self {
            Stop::At(_) => Refusal::Full,
            Stop::NoMemory => Refusal::NoMemory,
        }
    }

    /// Where a new patch leads nowhere from what the bundle was made from.
    pub(crate) fn does_not_fit(self) -> Refusal
        ensures { result ≡ refusal_of DoesNotFit self }
    {
        match self {
            Stop::At(n) => Refusal::DoesNotFit(n),
            Stop::NoMemory => Refusal::NoMemory,
        }
    }
}

/// Why a list of rows ends early.
#[derive(Drop)]
pub(crate) enum Blocked {
    /// The patch of the first place is stopped by that of the second.
    By(usize, usize),
    /// An allocation failed.
    NoMemory,
}

impl From<AllocError> for Blocked {
    ghost from_gives = { λ _ blocked. blocked ≡ blocks.NoMemory };

    fn from(_: AllocError) -> Blocked {
        Blocked::NoMemory
    }
}

impl<T: Drop> From<AllocFailed<T>> for Blocked {
    ghost from_gives = { λ _ blocked. blocked ≡ blocks.NoMemory };

    fn from(_: AllocFailed<T>) -> Blocked {
        Blocked::NoMemory
    }
}

impl Blocked {
    /// Where a common patch is stopped.
    pub(crate) fn context_depends(self) -> Refusal
        ensures { result ≡ refusal_between ContextDepends self }
    {
        match self {
            Blocked::By(h, r) => Refusal::ContextDepends(h, r),
            Blocked::NoMemory => Refusal::NoMemory,
        }
    }

    /// Where a new patch that is held is stopped.
    pub(crate) fn held_depends(self) -> Refusal
        ensures { result ≡ refusal_between HeldDepends self }
    {
        match self {
            Blocked::By(h, n) => Refusal::HeldDepends(h, n),
            Blocked::NoMemory => Refusal::NoMemory,
        }
    }

    /// Where a patch to merge is stopped.
    pub(crate) fn conflicts(self) -> Refusal
        ensures { result ≡ refusal_between Conflicts self }
    {
        match self {
            Blocked::By(n, h) => Refusal::Conflicts(n, h),
            Blocked::NoMemory => Refusal::NoMemory,
        }
    }
}
