//! Why a journal could not be opened or written.
ghost use Rattle.std.specs.Prelude.{◌≡◌};
ghost use Rattle.dm_journal.specs.declared.device.DeviceError.TheVariants.{Memory};
ghost use Rattle.dm_journal.specs.declared.fault.OpenError.TheVariants.{Device as OpeningDevice, File};
ghost use Rattle.dm_journal.specs.declared.fault.WriteError.TheVariants.{Device as WritingDevice};

use crate::device::DeviceError;
use std::alloc::{AllocError, AllocFailed};
use thiserror::Error;

/// What is wrong with a file. No crash of a call of a journal leads to one.
#[derive(Clone, Copy, Debug, PartialEq, Eq, Error)]
pub enum Fault {
    /// It doesn't begin as a journal does.
    #[error("not a journal")]
    NotAJournal,
    /// It begins as a journal does, and with no header that is known here.
    #[error("the journal was written by another version of dm")]
    Unknown,
    /// The file ends inside the block whose latch is at this byte, or before or where this latch is due.
    #[error("the journal is cut in the block at byte {0}")]
    Cut(usize),
    /// The checksum of the block whose latch is at this byte isn't that of its text.
    #[error("the block of the journal at byte {0} is damaged")]
    Damaged(usize),
}

/// Why a file was not opened.
#[derive(Clone, Copy, Debug, PartialEq, Eq, Error)]
pub enum OpenError {
    /// The file could not be read, or there was no memory for what it says.
    #[error("{0}")]
    Device(DeviceError),
    /// The file is no journal.
    #[error("{0}")]
    File(Fault),
}

/// Why texts were not acknowledged.
#[derive(Clone, Copy, Debug, PartialEq, Eq, Error)]
pub enum WriteError {
    /// A call of the device failed, or there was no memory. The file has the texts or not: open it again.
    #[error("{0}")]
    Device(DeviceError),
    /// The new file that was to take the place of the old one could not be written, or there was no memory for it. The old one is as
    /// it was.
    #[error("{0}")]
    Beside(DeviceError),
    /// A text has more than [`MOST_BYTES`](crate::MOST_BYTES). Nothing has changed.
    #[error("a text is too long for a journal")]
    TooLong,
    /// The file of a journal that was to take one text more has more than 2^62 bytes. Nothing has changed.
    #[error("the journal is full")]
    Full,
}

impl From<Fault> for OpenError {
    ghost from_gives = { λ fault e. e ≡ File fault };

    fn from(fault: Fault) -> Self {
        OpenError::File(fault)
    }
}

impl<T: Drop> From<AllocFailed<T>> for OpenError {
    ghost from_gives = { λ _ e. e ≡ OpeningDevice Memory };

    fn from(_: AllocFailed<T>) -> Self {
        OpenError::Device(DeviceError::Memory)
    }
}

impl From<DeviceError> for OpenError {
    ghost from_gives = { λ error e. e ≡ OpeningDevice error };

    fn from(error: DeviceError) -> Self {
        OpenError::Device(error)
    }
}

impl From<DeviceError> for WriteError {
    ghost from_gives = { λ error e. e ≡ WritingDevice error };

    fn from(error: DeviceError) -> Self {
        WriteError::Device(error)
    }
}

impl From<AllocError> for WriteError {
    ghost from_gives = { λ _ e. e ≡ WritingDevice Memory };

    fn from(_: AllocError) -> Self {
        WriteError::Device(DeviceError::Memory)
    }
}

impl<T: Drop> From<AllocFailed<T>> for WriteError {
    ghost from_gives = { λ _ e. e ≡ WritingDevice Memory };

    fn from(_: AllocFailed<T>) -> Self {
        WriteError::Device(DeviceError::Memory)
    }
}
