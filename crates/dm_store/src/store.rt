//! A store: a repository, and the journal that keeps it.
ghost use Rattle.std.specs.Prelude.{◌≡◌, ◌≢◌, ◌⊎◌, ◌↔◌, ◌<◌, ◌*◌, ◌^◌, List, ℕ, [], ◌∷◌, length, IfOk, IfErr, OnOk, IsErrOf, IsTrue};
ghost use Rattle.dm_journal.specs.declared.device.DeviceError.TheVariants.{Failed};
ghost use Rattle.dm_journal.specs.declared.fault.Fault.{Fault as FileFault};
ghost use Rattle.dm_journal.specs.declared.fault.OpenError.TheVariants.{Device as OpeningDevice, File as OpeningFile};
ghost use Rattle.dm_journal.specs.declared.fault.WriteError.TheVariants.{Device as WritingDevice, TooLong, Full};
ghost use Rattle.dm_journal.specs.Device.{IsDurable, LeavesOnly};
ghost use Rattle.dm_journal.specs.Faults.{HasFault};
ghost use Rattle.dm_journal.specs.Hidden.{TellsHidden};
ghost use Rattle.dm_bundle.specs.Patches.{AreAllOf};
ghost use Rattle.dm_begin.specs.Bases.{MayHaveBase};
ghost use Rattle.dm_journal.specs.Ready.{HasTexts, IsUntouched, IsBeside, IsFailure};
ghost use Rattle.dm_scratch.specs.Taking.{TakesIn};
ghost use Rattle.dm_store.specs.declared.fault.StoreError.TheVariants.{Journal as OpeningJournal, BadEntry};
ghost use Rattle.dm_store.specs.Keeping.{HasTaken, KeepsRepo, KeepsWithOrWithout, KeepsEither, IsOrKeeps, CrashesKeep, IsStored, FitsOneEntry, entry_of_all, entries_of_all, kept_as, kept_in};
ghost use Rattle.dm_store.specs.Growth.{AreMany};
ghost use Rattle.dm_store.specs.Kinds.{kinds_of, kinds_in, format_of};
ghost use Rattle.dm_store.specs.Opening.{HasBadEntry};

use crate::entries::make_entry;
use crate::fault::StoreError;
use crate::growth::{
    BYTES_OF_EACH, BYTES_WHILE_OPEN, Growth, MOST_ENTRIES, MOST_WHILE_OPEN, growth_of,
};
use crate::keeping::{begin, put_repo};
use crate::kinds::kinds_of;
use crate::opening::{TakenAgain, has_taken, take_again};
use bumpalo::Bump;
use dm_journal::{Device, Format, Journal, WriteError};
use dm_named::Kinds;
use dm_repo::{Policy, Repo};
use dm_scratch::{Verdict, take_in};
use std::alloc::Global;

/// A repository that lasts. After an error of [`Store::take`], [`Store::checkpoint`] or [`Store::replace`], open the file again:
/// it may keep another repository than the one in memory.
pub struct Store<D: Device> {
    journal: Journal<D>,
    repo: Repo<Global>,
    // How many of its patches are its base.
    base: usize,
    // For what is tried.
    arena: Bump,
    growth: Growth,
}

// By hand, so that this is called where one goes. What is derived stands there in full.
impl<D: Device + Drop> Drop for Store<D> {
    fn drop(self) {
        let Store {
            journal: _,
            repo: _,
            base: _,
            arena: _,
            growth: _,
        } = self;
    }
}

impl<D: Device> Store<D> {
    /// Opens a journal that a crash may have left, and takes its entries again. It writes nothing. At an error the device
    /// comes back.
    pub fn open(alloc: Global, device: D) -> Result<Store<D>, (StoreError, D)>
        // After a restart, what is read is what is on the disk.
        requires { IsDurable D.seen D.may_leave D.file_may_leave device }
        ensures keeps { IfOk result (λ store. KeepsRepo (kinds_in store) (D.seen device) (kept_in store)) }
        ensures stored { IfOk result (IsStored D.seen D.may_leave D.file_may_leave) }
        ensures untouched { IfOk result (λ store. IsUntouched D.seen D.may_leave D.file_may_leave D.moment D.left_since device store.journal.device) }
        ensures untouched_err { IfErr result (λ e. IsUntouched D.seen D.may_leave D.file_may_leave D.moment D.left_since device e.1) }
        ensures fault { IfErr result (λ e. (fault : FileFault) → e.0 ≡ OpeningJournal (OpeningFile fault) → HasFault (D.seen device) fault) }
        ensures bad_entry { IfErr result (λ e. (number : ℕ) → e.0 ≡ BadEntry number → HasBadEntry (D.seen device) number) }
        ensures failed { IfErr result (λ e. e.0 ≡ OpeningJournal (OpeningDevice Failed) → D.faults device < D.faults e.1) }
        ensures hidden { IfOk result (λ store. TellsHidden (D.seen device) store.journal.hidden) }
    {
        let (journal, entries) = match Journal::open(alloc, device) {
            Ok(opened) => opened,
            Err((error, device)) => return Err((StoreError::Journal(error), device)),
        };
        let growth = growth_of(&entries);
        match take_again(alloc, kinds_of(journal.format()), entries) {
            Ok(TakenAgain { repo, base, arena }) => Ok(Store {
                journal,
                repo,
                base,
                arena,
                growth,
            }),
            Err(error) => Err((error, journal.device)),
        }
    }

    /// Makes a store of a repository of a file that has no bytes, or isn't there: no store is lost. It reads these kinds of
    /// primitives then, and so does each that opens the file. The first patches, so many of them, are its base for good. At an
    /// error the device comes back; [`WriteError::TooLong`] is told of a repository that is past [`dm_named::Limits::OWN`], has
    /// primitives of other kinds, or may not have that base.
    pub fn create(
        alloc: Global,
        device: D,
        repo: Repo<Global>,
        base: usize,
        kinds: Kinds,
    ) -> Result<Store<D>, (WriteError, D)>
        requires durable { IsDurable D.seen D.may_leave D.file_may_leave device }
        requires empty { D.seen device ≡ [] }
        ensures same { IfOk result (λ store. store.repo ≡ repo) }
        ensures base { IfOk result (λ store. store.base ≡ base) }
        ensures stored { IfOk result (IsStored D.seen D.may_leave D.file_may_leave) }
        ensures kinds { IfOk result (λ store. kinds_in store ≡ kinds) }
        ensures format { IfOk result (λ store. store.journal.end.format ≡ format_of kinds) }

        // A crash at any moment of the call leaves the file from before it, or one that keeps the repository.
        ensures any_moment { IfOk result (λ store. LeavesOnly D.moment D.left_since device store.journal.device (IsOrKeeps kinds (D.seen device) (kept_as base repo.patches))) }
        ensures any_moment_err { IfErr result (λ e. LeavesOnly D.moment D.left_since device e.1 (IsOrKeeps kinds (D.seen device) (kept_as base repo.patches))) }

        // It doesn't give up by itself.
        ensures failed { IfErr result (λ e. IsFailure e.0 → D.faults device < D.faults e.1) }
        ensures too_long { IfErr result (λ e. e.0 ≡ TooLong → AreAllOf kinds repo.patches → MayHaveBase repo.patches base → (repo.patches ≢ []) × (FitsOneEntry repo.patches → ⊥)) }
        ensures not_full { IfErr result (λ e. e.0 ≡ Full → ⊥) }
    {
        match begin(alloc, device, kinds, base, &repo) {
            Ok((journal, growth)) => Ok(Store::of_parts(alloc, journal, repo, base, growth)),
            Err(error) => Err(error),
        }
    }

    // A store of these parts.
    pub(crate) fn of_parts(
        alloc: Global,
        journal: Journal<D>,
        repo: Repo<Global>,
        base: usize,
        growth: Growth,
    ) -> Store<D>
        ensures journal { result.journal ≡ journal }
        ensures repo { result.repo ≡ repo }
        ensures base { result.base ≡ base }
        ensures growth { result.growth ≡ growth }
    {
        Store {
            journal,
            repo,
            base,
            arena: Bump::new(alloc),
            growth,
        }
    }

    /// The device, with what it has of the repository.
    pub fn into_device(self) -> D
        ensures { result ≡ self.journal.device }
    {
        let Store {
            journal,
            repo: _,
            base: _,
            arena: _,
            growth: _,
        } = self;
        journal.device
    }

    /// The device, and the repository.
    pub fn into_parts(self) -> (D, Repo<Global>)
        ensures device { result.0 ≡ self.journal.device }
        ensures repo { result.1 ≡ self.repo }
    {
        let Store {
            journal,
            repo,
            base: _,
            arena: _,
            growth: _,
        } = self;
        (journal.device, repo)
    }

    /// The repository.
    pub fn repo(&self) -> &Repo<Global>
        ensures { result.now ≡ self.now.repo }
    {
        &self.repo
    }

    /// How many patches, from the first, are the base with which the repository begins: 0 if it doesn't begin at a tag. Nothing
    /// that is taken changes it, nor does a checkpoint.
    pub fn base(&self) -> usize
        ensures { result ≡ self.now.base }
    {
        self.base
    }

    /// The kinds of primitives that it reads. Its file tells them, and no call changes them.
    pub fn kinds(&self) -> Kinds
        ensures { result ≡ kinds_in self.now }
    {
        kinds_of(self.journal.format())
    }

    /// The format of its file. A checkpoint writes that of today.
    pub fn format(&self) -> Format
        ensures { result ≡ self.now.journal.end.format }
    {
        self.journal.format()
    }

    /// The place of the closed latch behind the last entry, if it hid more of them when the file was opened: none is lost, but the
    /// byte there was changed. No crash leaves such a file.
    pub fn hidden(&self) -> Option<usize>
        ensures { result ≡ self.now.journal.hidden }
    {
        self.journal.hidden()
    }

    /// Takes a text into the repository, and where something was taken appends it to the journal before it answers: from then
    /// on each crash leaves a file that keeps the repository as it is now. At an error the text is on the disk or not: open
    /// the file again.
    ///
    /// What is tried of the text takes at most 512 MiB of memory, and 16 bytes for each byte of the file's entries. A text that
    /// would take more gets the verdict that memory ran out.
    pub fn take(
        &mut self,
        alloc: Global,
        text: &[u8],
        policy: Policy,
    ) -> Result<Verdict, WriteError>
        requires { IsStored D.seen D.may_leave D.file_may_leave self.old }

        ensures takes { IfOk result (λ verdict. TakesIn (kinds_in self.old) self.old.repo.patches text.now policy verdict self.new.repo.patches) }
        ensures stored { OnOk result (IsStored D.seen D.may_leave D.file_may_leave self.new) }
        ensures kept { OnOk result (CrashesKeep (kinds_in self.new) D.may_leave self.new.journal.device (kept_in self.new)) }
        ensures kinds { kinds_in self.new ≡ kinds_in self.old }
        ensures base { self.new.base ≡ self.old.base }
        ensures unwritten { IfOk result (λ verdict. ¬ HasTaken verdict → self.new.journal ≡ self.old.journal) }

        // A crash at any moment of the call leaves a file that keeps the repository from before it, or the one that the text leaves.
        ensures any_moment { LeavesOnly D.moment D.left_since self.old.journal.device self.new.journal.device
            (KeepsWithOrWithout (kinds_in self.old) (kept_in self.old) text.now policy) }

        // It doesn't give up by itself.
        ensures failed { IsErrOf result (WritingDevice Failed) → D.faults self.old.journal.device < D.faults self.new.journal.device }
        ensures not_too_long { IsErrOf result TooLong → ⊥ }
        ensures full { IsErrOf result Full → 2 ^ 62 < length (D.seen self.old.journal.device) }
    {
        let kinds = self.kinds();
        let most = self.growth.most_for_trial();
        self.arena.set_allocation_limit(Some(most));
        let verdict = take_in(&mut self.repo, &mut self.arena, text, kinds, policy);
        if !has_taken(&verdict) {
            return Ok(verdict);
        }
        let entry = make_entry(alloc, text, policy)?;
        self.journal.append(alloc, &entry)?;
        self.growth.add(entry.len());
        Ok(verdict)
    }

    /// Whether a checkpoint is worth its while: since the last one more than 16 texts were taken, and more than one for each MiB
    /// that the repository had then, or more bytes than it had, and than 1 MiB. All of them are taken again at each opening. Each
    /// costs what it touches, and a checkpoint costs the whole.
    pub fn wants_checkpoint(&self) -> bool
        ensures many { (stored : IsStored D.seen D.may_leave D.file_may_leave self.now) → IsTrue result ↔ AreMany (2 ^ 4) (2 ^ 20) stored.entries }
        ensures grown { IsTrue result ↔ (((2 ^ 4 < self.now.growth.entries) × (self.now.growth.whole < self.now.growth.entries * 2 ^ 20))
            ⊎ ((self.now.growth.whole < self.now.growth.since) × (2 ^ 20 < self.now.growth.since))) }
    {
        let most = self.growth.whole / BYTES_OF_EACH;
        self.growth.is_large(most.max(MOST_ENTRIES))
    }

    /// Whether a checkpoint is due though the store stays open: as [`Store::wants_checkpoint`], but only past 256 texts, and 16 for
    /// each MiB, since none is taken again before the file is opened again.
    pub fn needs_checkpoint(&self) -> bool
        ensures many { (stored : IsStored D.seen D.may_leave D.file_may_leave self.now) → IsTrue result ↔ AreMany (2 ^ 8) (2 ^ 16) stored.entries }
        ensures grown { IsTrue result ↔ (((2 ^ 8 < self.now.growth.entries) × (self.now.growth.whole < self.now.growth.entries * 2 ^ 16))
            ⊎ ((self.now.growth.whole < self.now.growth.since) × (2 ^ 20 < self.now.growth.since))) }
    {
        let most = self.growth.whole / BYTES_WHILE_OPEN;
        self.growth.is_large(most.max(MOST_WHILE_OPEN))
    }

    /// Puts one entry in the place of all that the journal has: the bundle of all patches, with an empty context. The
    /// repository stays the same, and opening takes one text from then on.
    ///
    /// `false` where there is no patch, or where the text or a patch is past [`dm_named::Limits::OWN`]: the journal is as it
    /// was then. So it is after [`WriteError::Beside`], and the store can go on. After another error open the file again.
    pub fn checkpoint(&mut self, alloc: Global) -> Result<bool, WriteError>
        requires { IsStored D.seen D.may_leave D.file_may_leave self.old }

        ensures same { self.new.repo ≡ self.old.repo }
        ensures kinds { kinds_in self.new ≡ kinds_in self.old }
        ensures base { self.new.base ≡ self.old.base }
        ensures stored { OnOk result (IsStored D.seen D.may_leave D.file_may_leave self.new) }
        ensures kept { OnOk result (CrashesKeep (kinds_in self.new) D.may_leave self.new.journal.device (kept_in self.new)) }
        ensures fits { IfOk result (λ done. IsTrue done ↔ FitsOneEntry self.old.repo.patches) }
        ensures one_entry { IfOk result (λ done. IsTrue done
            → HasTexts D.seen D.may_leave D.file_may_leave self.new.journal (entry_of_all (kept_in self.old) ∷ [])) }
        ensures unwritten { IfOk result (λ done. ¬ IsTrue done → self.new.journal ≡ self.old.journal) }

        // A crash at any moment of the call leaves a file that keeps the same repository.
        ensures any_moment { LeavesOnly D.moment D.left_since self.old.journal.device self.new.journal.device
            (λ file. KeepsRepo (kinds_in self.old) file (kept_in self.old)) }

        ensures stored_beside { IfErr result (λ e. IsBeside e → IsStored D.seen D.may_leave D.file_may_leave self.new) }

        // It doesn't give up by itself.
        ensures failed { IfErr result (λ e. IsFailure e → D.faults self.old.journal.device < D.faults self.new.journal.device) }
        ensures not_too_long { IsErrOf result TooLong → ⊥ }
        ensures not_full { IsErrOf result Full → ⊥ }
    {
        if self.repo.is_empty() {
            return Ok(false);
        }
        let Some(growth) = put_repo(alloc, &mut self.journal, self.base, &self.repo)? else {
            return Ok(false);
        };
        self.growth = growth;
        Ok(true)
    }

    /// Puts another repository in the place of this one: its entry, and nothing of this one, is what the journal has then. The base
    /// stays as many patches.
    ///
    /// `false` where the other has patches, and they or their text are past [`dm_named::Limits::OWN`], or not of the store's
    /// kinds, or where it may not have the base: the store is as it was then. So it is after [`WriteError::Beside`], and can go on. After another error open the file again: it keeps the one or
    /// the other.
    pub fn replace(&mut self, alloc: Global, repo: Repo<Global>) -> Result<bool, WriteError>
        requires { IsStored D.seen D.may_leave D.file_may_leave self.old }

        ensures repo { IfOk result (λ done. IsTrue done → self.new.repo ≡ repo) }
        ensures kinds { kinds_in self.new ≡ kinds_in self.old }
        ensures base { self.new.base ≡ self.old.base }
        ensures stored { OnOk result (IsStored D.seen D.may_leave D.file_may_leave self.new) }
        ensures kept { OnOk result (CrashesKeep (kinds_in self.new) D.may_leave self.new.journal.device (kept_in self.new)) }
        ensures of_kinds { IfOk result (λ done. IsTrue done → AreAllOf (kinds_in self.old) repo.patches) }
        ensures may { IfOk result (λ done. IsTrue done → MayHaveBase repo.patches self.old.base) }
        ensures fits { IfOk result (λ done. AreAllOf (kinds_in self.old) repo.patches → MayHaveBase repo.patches self.old.base
            → IsTrue done ↔ ((repo.patches ≡ []) ⊎ FitsOneEntry repo.patches)) }
        ensures entries { IfOk result (λ done. IsTrue done
            → HasTexts D.seen D.may_leave D.file_may_leave self.new.journal (entries_of_all (kept_as self.old.base repo.patches))) }
        ensures unwritten { IfOk result (λ done. ¬ IsTrue done → self.new ≡ self.old) }

        // A crash at any moment of the call leaves a file that keeps the repository from before it, or the other one.
        ensures any_moment { LeavesOnly D.moment D.left_since self.old.journal.device self.new.journal.device
            (KeepsEither (kinds_in self.old) (kept_in self.old) (kept_as self.old.base repo.patches)) }

        ensures same_err { IfErr result (λ _. self.new.repo ≡ self.old.repo) }
        ensures stored_beside { IfErr result (λ e. IsBeside e → IsStored D.seen D.may_leave D.file_may_leave self.new) }

        // It doesn't give up by itself.
        ensures failed { IfErr result (λ e. IsFailure e → D.faults self.old.journal.device < D.faults self.new.journal.device) }
        ensures not_too_long { IsErrOf result TooLong → ⊥ }
        ensures not_full { IsErrOf result Full → ⊥ }
    {
        let Some(growth) = put_repo(alloc, &mut self.journal, self.base, &repo)? else {
            return Ok(false);
        };
        self.repo = repo;
        self.growth = growth;
        Ok(true)
    }
}
