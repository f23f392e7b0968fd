//! A store of which another one takes the place, that reads all kinds.
ghost use Rattle.std.specs.Prelude.{◌≡◌, ◌<◌, IfOk, IfErr};
ghost use Rattle.dm_named.specs.declared.limits.Kinds.TheVariants.{All};
ghost use Rattle.dm_journal.specs.declared.fault.WriteError.TheVariants.{TooLong, Full};
ghost use Rattle.dm_journal.specs.Device.{LeavesOnly};
ghost use Rattle.dm_journal.specs.Ready.{IsFailure};
ghost use Rattle.dm_store.specs.Keeping.{CrashesKeep, FitsOneEntry, IsStored, KeepsForEither, kept_in};
ghost use Rattle.dm_store.specs.Kinds.{kinds_in};

use crate::keeping::begin;
use crate::store::Store;
use dm_journal::{Device, WriteError};
use dm_named::Kinds;
use std::alloc::Global;

impl<D: Device> Store<D> {
    /// Puts the same repository, with the same base, into a file that reads all kinds, in the place of this one. At an error the
    /// device comes back, and the file keeps the repository all the same; [`WriteError::TooLong`] is told of a repository that is
    /// past [`dm_named::Limits::OWN`].
    pub fn widen(self, alloc: Global) -> Result<Store<D>, (WriteError, D)>
        requires { IsStored D.seen D.may_leave D.file_may_leave self }

        ensures same { IfOk result (λ store. store.repo ≡ self.repo) }
        ensures base { IfOk result (λ store. store.base ≡ self.base) }
        ensures kinds { IfOk result (λ store. kinds_in store ≡ All) }
        ensures stored { IfOk result (IsStored D.seen D.may_leave D.file_may_leave) }
        ensures kept { IfOk result (λ store. CrashesKeep All D.may_leave store.journal.device (kept_in self)) }

        // A crash at any moment of the call leaves a file that keeps the repository, for the kinds of before or for all.
        ensures any_moment { IfOk result (λ store. LeavesOnly D.moment D.left_since self.journal.device store.journal.device
            (KeepsForEither (kinds_in self) All (kept_in self))) }
        ensures any_moment_err { IfErr result (λ e. LeavesOnly D.moment D.left_since self.journal.device e.1
            (KeepsForEither (kinds_in self) All (kept_in self))) }

        // It doesn't give up by itself.
        ensures failed { IfErr result (λ e. IsFailure e.0 → D.faults self.journal.device < D.faults e.1) }
        ensures too_long { IfErr result (λ e. e.0 ≡ TooLong → FitsOneEntry self.repo.patches → ⊥) }
        ensures not_full { IfErr result (λ e. e.0 ≡ Full → ⊥) }
    {
        let base = self.base();
        let (device, repo) = self.into_parts();
        match begin(alloc, device, Kinds::All, base, &repo) {
            Ok((journal, growth)) => Ok(Store::of_parts(alloc, journal, repo, base, growth)),
            Err(error) => Err(error),
        }
    }
}
