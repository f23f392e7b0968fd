//! A file that is only read: what would be written to it is noted, and not written.
ghost use Rattle.std.specs.Prelude.{◌≡◌, ℕ, List, IfSome};
ghost use Rattle.dm_journal.specs.Device.{IsDurable};
ghost use Rattle.dm_disk.specs.States.{seen, may_leave, file_may_leave, beside, beside_may_leave, moment, left_since, faults, left_now, leaves_some, left_only_now};

use crate::beside::{NEW_MODE, NOT_TAKEN};
use crate::record::Record;
use dm_journal::{Device, DeviceError};
use std::alloc::Global;
use std::marker::Model;

// Which calls are noted as done.
#[derive(Clone, Copy, PartialEq, Eq)]
enum Phase {
    // All.
    Ready,
    // Only a sync of the folder, as it is with a file that has taken a name.
    Renamed,
}

/// A device that begins with some bytes and keeps none that are written. Whoever takes bundles into a store on it is answered as
/// on the disk, and no file changes. Its contracts are those of a file that is on the disk and whose calls are all done.
pub struct Rehearsal {
    phase: Phase,
    // What it begins with, until it is handed out or written over.
    bytes: Option<Vec<u8>>,
    log: Record,
}

// By hand, so that this is called where one goes. What is derived stands there in full.
impl Drop for Rehearsal {
    fn drop(self) {
        let Rehearsal {
            phase: _,
            bytes: _,
            log: _,
        } = self;
    }
}

impl Model for Rehearsal {
    ghost use Rattle.std.specs.Prelude.{◌≡◌, List, ℕ, IfSome};
    ghost use Rattle.dm_disk.specs.Events.{Event};
    ghost use Rattle.dm_disk.specs.States.{seen, other_may_leave};
    ghost use Rattle.dm_disk.specs.declared.rehearsal.Phase.TheVariants.{Ready};

    ghost Value = { List Event };

    ghost view = { λ d. d.log.events };

    ghost invariant = { λ d. IfSome d.bytes (λ bytes. bytes.items ≡ seen d.log.events)
        × (d.phase ≡ Ready → (c : List ℕ) → other_may_leave d.log.events c → ⊥) };
}

impl Device for Rehearsal {
    ghost seen = { λ history. seen history };

    ghost may_leave = { λ history. may_leave history };

    ghost file_may_leave = { λ history. file_may_leave history };

    ghost beside = { λ history. beside history };

    ghost beside_may_leave = { λ history. beside_may_leave history };

    ghost moment = { λ history. moment history };

    ghost left_since = { λ history. left_since history };

    ghost faults = { λ history. faults history };

    ghost counts_now = { λ history t c le left. left_now history t c le left };

    ghost leaves_some = { λ history. leaves_some history };

    ghost only_now = { λ history c left. left_only_now history c left };

    /// The bytes that it began with, once and before any write.
    fn read(&mut self, _alloc: Global) -> Result<Vec<u8>, DeviceError> {
        let Some(bytes) = self.bytes.take() else {
            self.log.refused();
            return Err(DeviceError::Failed);
        };
        Ok(bytes)
    }

    fn write_at(&mut self, at: usize, bytes: &[u8]) -> Result<(), DeviceError> {
        self.bytes = None;
        if self.phase == Phase::Ready {
            self.log.wrote(at, bytes, true);
            return Ok(());
        }
        self.log.wrote(at, bytes, false);
        Err(DeviceError::Failed)
    }

    fn sync(&mut self) -> Result<(), DeviceError> {
        if self.phase == Phase::Ready {
            self.log.synced(true);
            return Ok(());
        }
        self.log.synced(false);
        Err(DeviceError::Failed)
    }

    fn write_beside(&mut self, bytes: &[u8]) -> Result<(), DeviceError> {
        self.log.wrote_beside(NEW_MODE, bytes, true);
        Ok(())
    }

    fn sync_beside(&mut self) -> Result<(), DeviceError> {
        self.log.synced_beside(true);
        Ok(())
    }

    fn rename(&mut self) -> Result<(), DeviceError> {
        self.bytes = None;
        self.phase = Phase::Renamed;
        self.log.renamed(NOT_TAKEN, true);
        Ok(())
    }

    fn sync_folder(&mut self) -> Result<(), DeviceError> {
        self.log.synced_folder(true);
        self.phase = Phase::Ready;
        Ok(())
    }
}

impl Rehearsal {
    /// A file with these bytes, all of them on the disk.
    pub fn new(bytes: Vec<u8>) -> Rehearsal
        ensures seen { seen result ≡ bytes.items }
        ensures durable { IsDurable seen may_leave file_may_leave result }
    {
        let mut log = Record::new();
        log.opened(bytes.len() as u64, &bytes);
        Rehearsal {
            phase: Phase::Ready,
            bytes: Some(bytes),
            log,
        }
    }
}
