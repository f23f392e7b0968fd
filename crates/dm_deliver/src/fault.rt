//! Why a text isn't answered, and why a delivery stops.
ghost use Rattle.std.specs.Prelude.{◌≡◌};
ghost use Rattle.dm_deliver.specs.declared.fault.AnswerError.TheVariants.{Store, NoMemory};
ghost use Rattle.dm_deliver.specs.declared.fault.DeliverError.TheVariants.{Answer, Checkpoint};

use dm_journal::WriteError;
use std::alloc::{AllocError, AllocFailed};
use thiserror::Error;

/// Why a text isn't answered.
#[derive(Clone, Copy, Debug, PartialEq, Eq, Error)]
pub enum AnswerError {
    /// The text isn't on the disk, or nobody knows: open the file again. Nothing of a line was written.
    #[error("{0}")]
    Store(WriteError),
    /// There was no memory to take the text, or it was taken and there was none for its line. Nothing of a line was written.
    #[error("out of memory")]
    NoMemory,
    /// The text was taken, or refused by a rule, and a call of the writer returned an error, or took no byte. A part of the line was
    /// written, perhaps all.
    #[error("cannot write output")]
    Write,
}

/// Why a delivery stops before the source has given all. `E` is the error of the source.
#[derive(Clone, Copy, Debug, PartialEq, Eq)]
pub enum DeliverError<E> {
    /// The next text can't be read. All before it are answered.
    Source(E),
    /// The last text isn't answered. All before it are.
    Answer(AnswerError),
    /// The last text isn't taken. All before it are answered and stand. The new file of a checkpoint could not take the place of the
    /// old one, or nobody knows: open the file again.
    Checkpoint(WriteError),
}

impl From<WriteError> for AnswerError {
    ghost from_gives = { λ error e. e ≡ Store error };

    fn from(error: WriteError) -> Self {
        AnswerError::Store(error)
    }
}

impl From<AllocError> for AnswerError {
    ghost from_gives = { λ _ e. e ≡ NoMemory };

    fn from(_: AllocError) -> Self {
        AnswerError::NoMemory
    }
}

impl<E> From<AnswerError> for DeliverError<E> {
    ghost from_gives = { λ error e. e ≡ Answer error };

    fn from(error: AnswerError) -> Self {
        DeliverError::Answer(error)
    }
}

impl<E> From<WriteError> for DeliverError<E> {
    ghost from_gives = { λ error e. e ≡ Checkpoint error };

    fn from(error: WriteError) -> Self {
        DeliverError::Checkpoint(error)
    }
}
