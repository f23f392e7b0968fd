//! A file on a disk. Each method makes the call that it notes, and notes it with its outcome.
ghost use Rattle.std.specs.Prelude.{◌≡◌, ◌<◌, ℕ, List, [], IfOk, OnOk, IsErrOf, Ok, IfSome, IsTrue};
ghost use Rattle.dm_journal.specs.declared.device.DeviceError.TheVariants.{Failed};
ghost use Rattle.dm_journal.specs.Device.{IsDurable};
ghost use Rattle.dm_disk.specs.States.{seen, may_leave, file_may_leave, beside, beside_may_leave, other_may_leave, moment, left_since, faults, IsFresh, KeepsRights, IsGivenBack, HasNoOther, left_now, leaves_some, left_only_now};

use crate::back::{OldFile, give_back, hold, old_file};
use crate::beside::{NEW_MODE, NOT_TAKEN, NewFile, take_name, write_new};
use crate::closed::ClosedFile;
use crate::fault::OpenFault;
use crate::limit::{size_limit, write_within};
use crate::opening::{
    Access, Lock, folder_of, make_durable, open_locked, read_whole, refuse_name, stands_at,
};
use crate::record::Record;
use crate::rehearsal::Rehearsal;
use dm_journal::{Device, DeviceError};
use std::alloc::Global;
use std::fs::File;
use std::marker::Model;
use std::{io, mem};

// Which calls are made.
#[derive(Clone, Copy, PartialEq, Eq)]
enum Phase {
    // All.
    Ready,
    // Only a sync of the folder, since the file has taken the name and the folder on the disk may not have it.
    Renamed,
    // None: the file is only to be read, or a call has failed.
    Stopped,
}

// Why a call failed, and whether it was a sync.
#[derive(Clone, Copy)]
struct Failure {
    error: io::Error,
    is_sync: bool,
}

/// A file on a disk, which is locked until it is dropped. Once a call on it has failed, every later one fails: open the file again.
/// A new file that can't be made leaves it as it was.
pub struct DiskFile {
    rt: HostRuntime,
    file: File,
    folder: File,
    // Made by the last `write_beside`.
    new_file: Option<NewFile>,
    // The file that had the name before the last rename, until it is given back.
    old_file: Option<OldFile>,
    path: String,
    // How many bytes a file may have.
    limit: u64,
    phase: Phase,
    // What was read, until it is handed out or the file is written.
    bytes: Option<Vec<u8>>,
    failure: Option<Failure>,
    // Whether the file that has the name now has fewer rights than one that had it before.
    lost_rights: bool,
    log: Record,
}

// By hand, so that this is called where one goes. What is derived stands there in full.
impl Drop for DiskFile {
    fn drop(self) {
        let DiskFile {
            rt: _,
            file: _,
            folder: _,
            new_file: _,
            old_file: _,
            path: _,
            limit: _,
            phase: _,
            bytes: _,
            failure: _,
            lost_rights: _,
            log: _,
        } = self;
    }
}

impl Model for DiskFile {
    ghost use Rattle.std.specs.Prelude.{◌≡◌, List, ℕ, IfSome};
    ghost use Rattle.dm_disk.specs.Events.{Event};
    ghost use Rattle.dm_disk.specs.States.{seen, other_may_leave, KeepsRights, opened_by};
    ghost use Rattle.dm_disk.specs.declared.file.Phase.TheVariants.{Ready};

    ghost Value = { List Event };

    ghost view = { λ d. d.log.events };

    ghost invariant = { λ d. IfSome d.bytes (λ bytes. bytes.items ≡ seen d.log.events)
        × (d.phase ≡ Ready → (c : List ℕ) → other_may_leave d.log.events c → ⊥)
        × KeepsRights d.log.events
        × (d.path.bytes.items ≡ opened_by d.log.events) };
}

impl Device for DiskFile {
    ghost seen = { λ history. seen history };

    ghost may_leave = { λ history. may_leave history };

    ghost file_may_leave = { λ history. file_may_leave history };

    ghost beside = { λ history. beside history };

    ghost beside_may_leave = { λ history. beside_may_leave history };

    ghost moment = { λ history. moment history };

    ghost left_since = { λ history. left_since history };

    ghost faults = { λ history. faults history };

    ghost counts_now = { λ history t c le left. left_now history t c le left };

    ghost leaves_some = { λ history. leaves_some history };

    ghost only_now = { λ history c left. left_only_now history c left };

    /// The bytes that were read when the file was opened, once and before any write.
    fn read(&mut self, _alloc: Global) -> Result<Vec<u8>, DeviceError> {
        let Some(bytes) = self.bytes.take() else {
            self.log.refused();
            return Err(DeviceError::Failed);
        };
        Ok(bytes)
    }

    fn write_at(&mut self, at: usize, bytes: &[u8]) -> Result<(), DeviceError> {
        self.bytes = None;
        if self.phase == Phase::Ready
            && done(
                &mut self.failure,
                write_within(self.limit, &self.file, bytes, at as u64),
            )
            .is_some()
        {
            self.log.wrote(at, bytes, true);
            return Ok(());
        }
        self.log.wrote(at, bytes, false);
        self.phase = Phase::Stopped;
        Err(DeviceError::Failed)
    }

    /// It fails also where somebody has removed the file, or has put another in its place.
    fn sync(&mut self) -> Result<(), DeviceError> {
        if self.phase == Phase::Ready
            && sync_done(&mut self.failure, self.file.sync_data()).is_some()
            && done(
                &mut self.failure,
                stands_at(&self.rt, self.path.as_str(), &self.file),
            )
            .is_some()
        {
            self.log.synced(true);
            return Ok(());
        }
        self.log.synced(false);
        self.phase = Phase::Stopped;
        Err(DeviceError::Failed)
    }

    fn write_beside(&mut self, bytes: &[u8]) -> Result<(), DeviceError> {
        if self.phase == Phase::Ready
            && let Some(made) = done(
                &mut self.failure,
                write_new(&self.rt, self.path.as_str(), &self.file, self.limit, bytes),
            )
        {
            self.new_file = Some(made);
            self.log.wrote_beside(NEW_MODE, bytes, true);
            return Ok(());
        }
        self.log.wrote_beside(NEW_MODE, bytes, false);
        Err(DeviceError::Failed)
    }

    fn sync_beside(&mut self) -> Result<(), DeviceError> {
        if self.phase == Phase::Ready
            && let Some(new_file) = &self.new_file
            && sync_done(&mut self.failure, new_file.file.sync_all()).is_some()
        {
            self.log.synced_beside(true);
            return Ok(());
        }
        self.log.synced_beside(false);
        self.new_file = None;
        Err(DeviceError::Failed)
    }

    fn rename(&mut self) -> Result<(), DeviceError> {
        self.bytes = None;
        if self.phase == Phase::Ready
            && let Some(new_file) = self.new_file.take()
            && let Some(taking) = done(
                &mut self.failure,
                take_name(&self.rt, self.path.as_str(), &self.file, &new_file),
            )
        {
            let old = mem::replace(&mut self.file, new_file.file);
            self.lost_rights |= taking.loses_rights();
            self.old_file = old_file(old, taking.second);
            self.phase = Phase::Renamed;
            self.log.renamed(taking.taken, true);
            return Ok(());
        }
        self.log.renamed(NOT_TAKEN, false);
        self.phase = Phase::Stopped;
        Err(DeviceError::Failed)
    }

    /// A file that had the name before gets it back then, with the same bytes, and the folder is synced again.
    fn sync_folder(&mut self) -> Result<(), DeviceError> {
        if self.phase != Phase::Stopped
            && sync_done(&mut self.failure, self.folder.sync_all()).is_some()
        {
            self.log.synced_folder(true);
            self.phase = Phase::Ready;
            return self.give_back();
        }
        self.log.synced_folder(false);
        self.phase = Phase::Stopped;
        Err(DeviceError::Failed)
    }
}

impl DiskFile {
    /// Opens and locks a file, and reads it. It is synced before, with its folder, so that what is read is on the disk.
    ///
    /// A new file that a checkpoint writes has the path with the number of the file's inode and `.new` behind. What a checkpoint
    /// that was cut short has left there is removed.
    pub fn open(
        rt: &HostRuntime,
        path: &str,
        access: Access,
        lock: Lock,
    ) -> Result<DiskFile, OpenFault>
        ensures fresh { IfOk result (IsFresh path.now) }
        ensures durable { IfOk result (IsDurable seen may_leave file_may_leave) }
    {
        refuse_name(rt, path, access)?;
        let limit = size_limit(rt)?;
        let mut file = open_locked(rt, path, access, lock)?;
        let folder = File::open(rt, folder_of(path))?;
        make_durable(&file, &folder)?;
        let (size, bytes) = read_whole(rt, &mut file)?;
        let mut log = Record::new();
        log.named(path);
        log.opened(size, &bytes);
        Ok(DiskFile {
            rt: *rt,
            file,
            folder,
            new_file: None,
            old_file: None,
            path: path.to_string(rt.alloc())?,
            limit,
            phase: phase_of(access),
            bytes: Some(bytes),
            failure: None,
            lost_rights: false,
            log,
        })
    }

    /// Lets the file go, and its lock.
    pub fn close(self) -> ClosedFile
        ensures { result ≡ self }
    {
        let DiskFile {
            rt: _,
            file: _,
            folder: _,
            new_file: _,
            old_file: _,
            path: _,
            limit: _,
            phase: _,
            bytes: _,
            failure: _,
            lost_rights: _,
            log,
        } = self;
        ClosedFile { log }
    }

    /// The same file as it was when it was opened, for a rehearsal: what is taken into it is written nowhere. The file itself is let go,
    /// and its lock.
    ///
    /// # Errors
    ///
    /// [`DeviceError::Failed`] where the bytes were handed out or written over.
    pub fn rehearse(mut self) -> Result<(Rehearsal, ClosedFile), DeviceError>
        ensures seen { IfOk result (λ r. seen r.0 ≡ seen self) }
        ensures durable { IfOk result (λ r. IsDurable seen may_leave file_may_leave r.0) }
        ensures closed { IfOk result (λ r. r.1 ≡ self) }
    {
        match self.bytes.take() {
            Some(bytes) => Ok((Rehearsal::new(bytes), self.close())),
            None => Err(DeviceError::Failed),
        }
    }

    /// Why the last call that failed did, as the system says. `None` where all were done, or were refused.
    pub fn error(&self) -> Option<io::Error> {
        match &self.failure {
            Some(failure) => Some(failure.error),
            None => None,
        }
    }

    /// Whether the last call that failed was a sync. Then the system may show what isn't on the disk, also to whoever opens the
    /// file next, until it is mounted anew.
    pub fn failed_to_sync(&self) -> bool {
        let Some(failure) = &self.failure else {
            return false;
        };
        failure.is_sync
    }

    /// Whether rights were lost: a new file took the name, with the rights of its owner alone, and the old file, which has others,
    /// didn't get it back. They have to be given again.
    pub fn lost_rights(&self) -> bool {
        self.lost_rights
    }

    // Gives the name back to the file that had it, and syncs the folder. Where that fails before it has the name, the file that
    // has it keeps it.
    fn give_back(&mut self) -> Result<(), DeviceError>
        ensures given { IsGivenBack self.old self.new }
        ensures named { OnOk result (HasNoOther self.old → HasNoOther self.new) }
        ensures failed { IsErrOf result Failed → faults self.old < faults self.new }
    {
        let Some(old) = self.old_file.take() else {
            return Ok(());
        };
        let given = give_back(&self.rt, self.path.as_str(), self.limit, &self.file, &old);
        self.lost_rights = given != Some(true);
        let Some(done) = given else {
            return Ok(());
        };
        hold(&mut self.file, old, done);
        self.log.gave_back(done);
        if sync_done(&mut self.failure, self.folder.sync_all()).is_some() {
            self.log.synced_folder(true);
            return Ok(());
        }
        self.log.synced_folder(false);
        self.phase = Phase::Stopped;
        Err(DeviceError::Failed)
    }

    /// A new file was made for its owner alone, and took the name with the same owner and group. It took the mode only where the
    /// group and others have the same bits, or where the file system gave it by itself, else the bits of its owner alone.
    pub fn keeps_rights(&self)
        ensures { KeepsRights self.now }
    {
        let _limit = self.limit;
    }

    /// Whether the file had no bytes when it was opened, and was neither read nor written since. Then nothing is lost where a
    /// store is made in its place.
    pub fn is_empty(&self) -> bool
        ensures { IsTrue result → seen self.now ≡ [] }
    {
        match &self.bytes {
            Some(bytes) => bytes.is_empty(),
            None => false,
        }
    }
}

// What a call gave. An error is kept.
fn done<T: Drop>(kept: &mut Option<Failure>, outcome: io::Result<T>) -> Option<T>
    ensures { IfSome result (λ value. outcome ≡ Ok value) }
{
    match outcome {
        Ok(value) => Some(value),
        Err(error) => {
            *kept = Some(Failure {
                error,
                is_sync: false,
            });
            None
        }
    }
}

// Whether a sync was done. An error is kept.
fn sync_done(kept: &mut Option<Failure>, outcome: io::Result<()>) -> Option<()> {
    match outcome {
        Ok(()) => Some(()),
        Err(error) => {
            *kept = Some(Failure {
                error,
                is_sync: true,
            });
            None
        }
    }
}

fn phase_of(access: Access) -> Phase {
    match access {
        Access::Read => Phase::Stopped,
        Access::Write | Access::Create => Phase::Ready,
    }
}
