//! Why a store could not be opened.
ghost use Rattle.std.specs.Prelude.{◌≡◌};
ghost use Rattle.dm_store.specs.declared.fault.StoreError.TheVariants.{Journal as OpeningJournal, NoMemory};

use dm_journal::OpenError;
use std::alloc::AllocError;
use thiserror::Error;

/// Why a store was not opened.
#[derive(Clone, Copy, Debug, PartialEq, Eq, Error)]
pub enum StoreError {
    /// The journal was not opened.
    #[error("{0}")]
    Journal(OpenError),
    /// There was no memory for the repository that the entries leave.
    #[error("out of memory")]
    NoMemory,
    /// The entry of this number, from 0, isn't taken after those before it: the journal is no store's.
    #[error("the entry {0} of the journal isn't taken")]
    BadEntry(usize),
}

impl From<OpenError> for StoreError {
    ghost from_gives = { λ error e. e ≡ OpeningJournal error };

    fn from(error: OpenError) -> Self {
        StoreError::Journal(error)
    }
}

impl From<AllocError> for StoreError {
    ghost from_gives = { λ _ e. e ≡ NoMemory };

    fn from(_: AllocError) -> Self {
        StoreError::NoMemory
    }
}
