//! A store that lets patches go which another file has.
ghost use Rattle.std.specs.Prelude.{◌≡◌, ◌⊎◌, ◌↔◌, ◌<◌, [], IfOk, IfErr, OnOk, IsErrOf, IsTrue};
ghost use Rattle.dm_bundle.specs.Patches.{AreAllOf};
ghost use Rattle.dm_begin.specs.Bases.{MayHaveBase};
ghost use Rattle.dm_journal.specs.declared.fault.WriteError.TheVariants.{TooLong, Full};
ghost use Rattle.dm_journal.specs.Device.{LeavesOnly, Within};
ghost use Rattle.dm_journal.specs.Ready.{HasTexts, IsBeside, IsFailure};
ghost use Rattle.dm_store.specs.Keeping.{CrashesKeep, IsStored, FitsOneEntry, entries_of_all, kept_as, kept_in};
ghost use Rattle.dm_store.specs.Kinds.{kinds_in};
ghost use Rattle.dm_store.specs.LettingGo.{GivesBack, LosesNothing};

use crate::store::Store;
use dm_journal::{Device, WriteError};
use dm_repo::Repo;
use std::alloc::Global;

impl<D: Device> Store<D> {
    /// Lets patches go: as [`Store::replace`], by the repository of those that stay. `kept` is the file on the disk that has the
    /// others, as a bundle. It is borrowed, so it stays as it is.
    pub fn let_go<F: Device>(
        &mut self,
        alloc: Global,
        stays: Repo<Global>,
        kept: &F,
    ) -> Result<bool, WriteError>
        requires stored { IsStored D.seen D.may_leave D.file_may_leave self.old }
        requires saved { Within (F.may_leave kept.now) (GivesBack (kinds_in self.old) self.old.repo.patches stays.patches) }

        ensures repo { IfOk result (λ done. IsTrue done → self.new.repo ≡ stays) }
        ensures kinds { kinds_in self.new ≡ kinds_in self.old }
        ensures base { self.new.base ≡ self.old.base }
        ensures stored { OnOk result (IsStored D.seen D.may_leave D.file_may_leave self.new) }
        ensures kept { OnOk result (CrashesKeep (kinds_in self.new) D.may_leave self.new.journal.device (kept_in self.new)) }
        ensures of_kinds { IfOk result (λ done. IsTrue done → AreAllOf (kinds_in self.old) stays.patches) }
        ensures may { IfOk result (λ done. IsTrue done → MayHaveBase stays.patches self.old.base) }
        ensures fits { IfOk result (λ done. AreAllOf (kinds_in self.old) stays.patches → MayHaveBase stays.patches self.old.base
            → IsTrue done ↔ ((stays.patches ≡ []) ⊎ FitsOneEntry stays.patches)) }
        ensures entries { IfOk result (λ done. IsTrue done
            → HasTexts D.seen D.may_leave D.file_may_leave self.new.journal (entries_of_all (kept_as self.old.base stays.patches))) }
        ensures unwritten { IfOk result (λ done. ¬ IsTrue done → self.new ≡ self.old) }

        // A crash at any moment of the call loses no patch: the one file or the other has it.
        ensures any_moment { LeavesOnly D.moment D.left_since self.old.journal.device self.new.journal.device
            (LosesNothing (kinds_in self.old) (kept_in self.old) (kept_as self.old.base stays.patches) (F.may_leave kept.now)) }

        ensures same_err { IfErr result (λ _. self.new.repo ≡ self.old.repo) }
        ensures stored_beside { IfErr result (λ e. IsBeside e → IsStored D.seen D.may_leave D.file_may_leave self.new) }

        // It doesn't give up by itself.
        ensures failed { IfErr result (λ e. IsFailure e → D.faults self.old.journal.device < D.faults self.new.journal.device) }
        ensures not_too_long { IsErrOf result TooLong → ⊥ }
        ensures not_full { IsErrOf result Full → ⊥ }
    {
        let _ = kept;
        self.replace(alloc, stays)
    }
}
