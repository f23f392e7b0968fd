//! The disk as the journal sees it: what a read returns, and what a crash may leave.
ghost use Rattle.std.specs.Prelude.{◌≡◌, ◌⊎◌, ◌≤◌, List, ℕ, length, IfOk, OnOk};
ghost use Rattle.dm_journal.specs.declared.device.DeviceError.TheVariants.{Memory};
ghost use Rattle.dm_journal.specs.Device.{Only, Within, Follows, Torn, IsWrittenAt, Moment, Elapses, HasCause};

use std::alloc::{AllocError, AllocFailed, Global};
use thiserror::Error;

/// Why a call of a device did nothing, or not all.
#[derive(Clone, Copy, Debug, PartialEq, Eq, Error)]
pub enum DeviceError {
    /// An allocation failed.
    #[error("out of memory")]
    Memory,
    /// The disk failed, or is full.
    #[error("the disk failed")]
    Failed,
}

impl From<AllocError> for DeviceError {
    ghost from_gives = { λ _ e. e ≡ Memory };

    fn from(_: AllocError) -> Self {
        DeviceError::Memory
    }
}

impl<T: Drop> From<AllocFailed<T>> for DeviceError {
    ghost from_gives = { λ _ e. e ≡ Memory };

    fn from(_: AllocFailed<T>) -> Self {
        DeviceError::Memory
    }
}

/// One file on a disk under its name, and a new one beside it. Nobody else writes to them. A file that isn't there counts as
/// one of no bytes.
pub trait Device {
    /// The bytes that a read returns.
    ghost seen: { Self → List ℕ };

    /// What a crash at this moment may leave under the name.
    ghost may_leave: { Self → List ℕ → Type 0 };

    /// What a crash at this moment may leave of the file that is read, whether or not the folder on the disk names it.
    ghost file_may_leave: { Self → List ℕ → Type 0 };

    /// The bytes of the new file beside this one.
    ghost beside: { Self → List ℕ };

    /// What a crash at this moment may leave of that file.
    ghost beside_may_leave: { Self → List ℕ → Type 0 };

    /// Which file it is, and the time, a number that doesn't fall.
    ghost moment: { Self → Moment };

    /// What a crash at some moment from that time on might have left under the name, during a call or between two.
    ghost left_since: { Self → ℕ → List ℕ → Type 0 };

    /// How often the disk has failed.
    ghost faults: { Self → ℕ };

    /// All the bytes.
    fn read(&mut self, alloc: Global) -> Result<Vec<u8>, DeviceError>
        ensures bytes { IfOk result (λ bytes. bytes.items ≡ seen self.old) }
        ensures seen { seen self.new ≡ seen self.old }
        ensures crash { Within (may_leave self.new) (may_leave self.old) }
        ensures named { Within (may_leave self.old) (file_may_leave self.old) → Within (may_leave self.new) (file_may_leave self.new) }
        ensures time { Elapses (moment self.old) (moment self.new) (left_since self.old) (left_since self.new) (may_leave self.new) }
        ensures cause { HasCause (faults self.old) (faults self.new) result };

    /// Writes over what is there, and past the end. Until a sync, a crash may leave any bytes in the range.
    fn write_at(&mut self, at: usize, bytes: &[u8]) -> Result<(), DeviceError>
        requires { at ≤ length (seen self.old) }
        ensures written { OnOk result (IsWrittenAt (seen self.old) at bytes.now (seen self.new)) }
        ensures crash { Follows (Torn at (length bytes.now)) (may_leave self.old) (may_leave self.new) }
        ensures named { Within (may_leave self.old) (file_may_leave self.old) → Within (may_leave self.new) (file_may_leave self.new) }
        ensures time { Elapses (moment self.old) (moment self.new) (left_since self.old) (left_since self.new) (may_leave self.new) }
        ensures cause { HasCause (faults self.old) (faults self.new) result };

    /// Waits until the file is on the disk. If it has taken the name since, the folder isn't.
    fn sync(&mut self) -> Result<(), DeviceError>
        ensures durable { OnOk result (Only (seen self.old) (file_may_leave self.new)) }
        ensures seen { seen self.new ≡ seen self.old }
        ensures crash { Within (may_leave self.new) (may_leave self.old) }
        ensures named { Within (may_leave self.old) (file_may_leave self.old) → Within (may_leave self.new) (file_may_leave self.new) }
        ensures time { Elapses (moment self.old) (moment self.new) (left_since self.old) (left_since self.new) (may_leave self.new) }
        ensures cause { HasCause (faults self.old) (faults self.new) result };

    /// Writes a new file beside this one, in the place of any other there.
    fn write_beside(&mut self, bytes: &[u8]) -> Result<(), DeviceError>
        ensures written { OnOk result (beside self.new ≡ bytes.now) }
        ensures seen { seen self.new ≡ seen self.old }
        ensures crash { Within (may_leave self.new) (may_leave self.old) }
        ensures named { Within (may_leave self.old) (file_may_leave self.old) → Within (may_leave self.new) (file_may_leave self.new) }
        ensures time { Elapses (moment self.old) (moment self.new) (left_since self.old) (left_since self.new) (may_leave self.new) }
        ensures cause { HasCause (faults self.old) (faults self.new) result };

    /// Waits until the new file is on the disk.
    fn sync_beside(&mut self) -> Result<(), DeviceError>
        ensures durable { OnOk result (Only (beside self.old) (beside_may_leave self.new)) }
        ensures beside { beside self.new ≡ beside self.old }
        ensures seen { seen self.new ≡ seen self.old }
        ensures crash { Within (may_leave self.new) (may_leave self.old) }
        ensures named { Within (may_leave self.old) (file_may_leave self.old) → Within (may_leave self.new) (file_may_leave self.new) }
        ensures time { Elapses (moment self.old) (moment self.new) (left_since self.old) (left_since self.new) (may_leave self.new) }
        ensures cause { HasCause (faults self.old) (faults self.new) result };

    /// Gives the name to the new file. Until the folder is synced, a crash may leave the old one or the new one.
    fn rename(&mut self) -> Result<(), DeviceError>
        ensures taken { OnOk result (seen self.new ≡ beside self.old) }
        ensures file { OnOk result (Within (file_may_leave self.new) (beside_may_leave self.old)) }
        ensures crash { (c : List ℕ) → may_leave self.new c → may_leave self.old c ⊎ beside_may_leave self.old c }
        ensures time { Elapses (moment self.old) (moment self.new) (left_since self.old) (left_since self.new) (may_leave self.new) }
        ensures cause { HasCause (faults self.old) (faults self.new) result };

    /// Waits until the folder on the disk has the file that is read under its name.
    fn sync_folder(&mut self) -> Result<(), DeviceError>
        ensures named { OnOk result (Within (may_leave self.new) (file_may_leave self.new)) }
        ensures file { Within (file_may_leave self.new) (file_may_leave self.old) }
        ensures seen { seen self.new ≡ seen self.old }
        ensures crash { Within (may_leave self.new) (may_leave self.old) }
        ensures time { Elapses (moment self.old) (moment self.new) (left_since self.old) (left_since self.new) (may_leave self.new) }
        ensures cause { HasCause (faults self.old) (faults self.new) result };

    /// This moment is one of those since an earlier one.
    ghost counts_now: { (file : Self) (t : ℕ) (c : List ℕ) → t ≤ (moment file).time → may_leave file c → left_since file t c };

    /// A crash at any moment leaves something.
    ghost leaves_some: { (file : Self) → (c : List ℕ) × may_leave file c };

    /// Since this moment there is no other.
    ghost only_now: { (file : Self) (c : List ℕ) → left_since file (moment file).time c → may_leave file c };
}
